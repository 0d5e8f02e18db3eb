//! Limits.

/// How much work a search may do.
#[derive(Clone, Copy, Debug)]
pub struct Limits {
    /// So many entries may be added.
    pub entries: u64,
    /// So many different unions of environments may be formed.
    pub unions: u64,
    /// So many steps may be taken: environments compared with one another, with a step more for each sixteen
    /// pairs of their types, head types put at points, works put off, and questions gone on with, whether
    /// an environment is void.
    pub steps: u64,
    /// So many moves may be made along a path.
    pub moves: u64,
}

impl Limits {
    /// Limits within which a search takes a second or two at most, and 200 MB.
    pub fn usual() -> Limits {
        Limits {
            entries: 200_000,
            unions: 500_000,
            steps: 40_000_000,
            moves: 4_000_000,
        }
    }
}
