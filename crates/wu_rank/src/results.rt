//! What is ranked, and what a ranking answers.
use wu_base::{Extent, Sequence};

/// A unit that may be listed.
#[derive(Clone, Copy, Debug, PartialEq, Eq)]
pub struct Unit {
    pub extent: Extent,
    /// The place of its file among the files that the user sees, from 0.
    pub place: u32,
}

/// A listed unit and its score.
#[derive(Clone, Copy, Debug, PartialEq, Eq)]
pub struct Ranked {
    /// In units of 1/65536.
    pub score: u64,
    pub unit: Unit,
}

/// How many units are listed, and the best of them, the best first.
#[derive(Clone, Debug, PartialEq, Eq, Drop)]
pub struct Ranking {
    /// How many units hold a query word.
    pub listed: u64,
    /// The first of them, at most as many as were asked for.
    pub top: Sequence<Ranked>,
}

/// A ranking, and the units that no bound rules out of it.
#[derive(Clone, Debug, PartialEq, Eq, Drop)]
pub struct Pruned {
    pub ranking: Ranking,
    /// The listed units that may be among the first ones, by the words that they hold, in the
    /// order of the units.
    pub weighed: Sequence<Unit>,
}
