//! Tests on files: sources, sinks, the words of the command line, generated and canonical files; and of the
//! schemes of small files their cuts, points, sorts and flow, plain reduction and passes, each worked
//! out by hand.
#![tactic(auto)]

#[cfg(test)]
mod canonical;
#[cfg(test)]
mod cutting;
#[cfg(test)]
mod cycles;
#[cfg(test)]
mod flowing;
#[cfg(test)]
mod hosts;
#[cfg(test)]
mod passing;
#[cfg(test)]
mod pointing;
#[cfg(test)]
mod printing;
#[cfg(test)]
mod reducing;
#[cfg(test)]
mod seeing;
#[cfg(test)]
mod sinks;
#[cfg(test)]
mod sorting;
#[cfg(test)]
mod sources;
#[cfg(test)]
mod told;
#[cfg(test)]
mod words;
