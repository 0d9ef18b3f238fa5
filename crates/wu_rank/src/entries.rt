//! Sparse vectors over the units: what only some of them have.

/// What the unit at this place in the list of units has: how often a word stands there, or a score.
#[derive(Clone, Copy)]
pub(crate) struct Entry {
    pub unit: usize,
    pub value: u64,
}
