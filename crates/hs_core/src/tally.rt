//! How much follows by works.

/// More conclusions than this, formed at one point by one work, are a burst.
const MANY: usize = 16;

/// Much follows from little once so many bursts were met. A single one comes in files that are small
/// otherwise.
const BURSTS: usize = 2;

/// How many conclusions works have formed, known ones too, and how many bursts there were: works that
/// formed more than 16 at one point. No clause speaks of it.
#[derive(Clone, Copy, Debug)]
pub struct Tally {
    pub formed: usize,
    pub bursts: usize,
}

impl Tally {
    /// Nothing was formed.
    pub fn new() -> Tally {
        Tally {
            formed: 0,
            bursts: 0,
        }
    }

    /// A work has formed so many conclusions at a point.
    pub fn add(&mut self, formed: usize) {
        self.formed = self.formed.saturating_add(formed);
        if formed > MANY {
            self.bursts = self.bursts.saturating_add(1);
        }
    }

    /// Whether much follows from little, so that conclusions had better wait before they are published.
    pub fn is_bursting(&self) -> bool {
        self.bursts >= BURSTS
    }
}
