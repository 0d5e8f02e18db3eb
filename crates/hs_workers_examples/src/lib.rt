//! Tests of the turn, of the shared table and of saturation by workers: that events are told once and
//! in order, what three workers do call by call, that workers work side by side, that their table is the
//! same whoever and however many they are, and that its verdict is that of plain reduction.
#![tactic(auto)]

#[cfg(test)]
mod calls;
#[cfg(test)]
mod forming;
#[cfg(test)]
mod holder;
#[cfg(test)]
mod opening;
#[cfg(test)]
mod random;
#[cfg(test)]
mod recording;
#[cfg(test)]
mod resting;
#[cfg(test)]
mod saturating;
#[cfg(test)]
mod scripts;
#[cfg(test)]
mod seeing;
#[cfg(test)]
mod verdicts;
#[cfg(test)]
mod worker;
#[cfg(test)]
mod works;
