//! Tests of `run`, from the words and the bytes to the status and what is written: each call of a source
//! and of a sink fails in turn, a file is cut off, passes are a caller's own, and two workers must meet at a
//! gate. And tests of `decide_on`, with proposals that no search makes.
#![tactic(auto)]

#[cfg(test)]
mod cutting;
#[cfg(test)]
mod failing;
#[cfg(test)]
mod meeting;
#[cfg(test)]
mod passing;
#[cfg(test)]
mod proposed;
#[cfg(test)]
mod running;
#[cfg(test)]
mod seeing;
