//! What a walk comes to.

use hs_scheme::FailingPath;

/// What a walk comes to.
#[derive(Debug, Drop)]
pub enum Walk {
    /// The path that the log names, to a terminal without transition.
    Found(FailingPath),
    /// That path has more steps than the limit. So many lead along this beginning of it: each
    /// terminal with the number of the child that follows, counted from 1.
    StepLimit(Vec<(u32, u32)>),
}
