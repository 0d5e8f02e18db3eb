//! Tests of tables without threads: the order of types and of entries, types as numbers, the look-ups
//! of a log, the plain program, and the indexed programs beside it, with the supports that they find and
//! where only so many conclusions are asked for; saturation by one worker, the budget's edge, what a core tells of
//! itself, and workers step by step; compact tables; and what the checker answers.
#![tactic(auto)]

#[cfg(test)]
mod accessors;
#[cfg(test)]
mod checking;
#[cfg(test)]
mod compacting;
#[cfg(test)]
mod comparing;
#[cfg(test)]
mod concluding;
#[cfg(test)]
mod entries;
#[cfg(test)]
mod following;
#[cfg(test)]
mod growing;
#[cfg(test)]
mod making;
#[cfg(test)]
mod numbers;
#[cfg(test)]
mod ordering;
#[cfg(test)]
mod places;
#[cfg(test)]
mod plain;
#[cfg(test)]
mod saturating;
#[cfg(test)]
mod scripts;
#[cfg(test)]
mod seeing;
#[cfg(test)]
mod supports;
#[cfg(test)]
mod telling;
#[cfg(test)]
mod two_points;
#[cfg(test)]
mod within;
#[cfg(test)]
mod worked;
#[cfg(test)]
mod working;
