//! What the index tells of its background work and of its size.

/// Whether background work is left.
#[derive(Clone, Copy, Debug, PartialEq, Eq)]
pub enum Worked {
    /// No job is under way, and none is to be started.
    Idle,
    /// A job is under way, or one is to be started.
    Busy,
}

/// The size of the index: regular files, addresses of their texts, postings in memory and parts,
/// those of dropped texts too, and parts.
#[derive(Clone, Copy, Debug, PartialEq, Eq)]
pub struct Stat {
    pub files: u64,
    pub live: u64,
    pub stored: u64,
    pub parts: u64,
}
