//! Tests of certificates of acceptance that are made by hand: what is one, and what else is wrong, as the
//! definitions say. Read pairs can't be given by hand: `Reads` has closed ones alone, so none can be left
//! out.
#![tactic(auto)]

#[cfg(test)]
mod cases;
#[cfg(test)]
mod checking;
#[cfg(test)]
mod shorts;
