//! The lines of a reply.
ghost use Rattle.std.specs.Prelude.{◌≡◌, length, take};
ghost use Rattle.std.proofs.Common.{rules};
ghost use Rattle.std.specs.Cmp.{partial_order_from_own_ties};
ghost use Rattle.std.specs.Cmp.Rules.{comparing};
ghost use Rattle.std.specs.Ordering.{as_partial_cmp};
ghost use Rattle.wu_terms.specs.Listings.{in_order};
ghost use Rattle.wu_terms.specs.Terms.{compare_by_files};

use std::cmp::Ordering;
use wu_base::{Bytes, sorted_once};

/// A word, and how many of a user's files have it. The order is that in which the most frequent words are
/// listed: more files first, and of words of as many files the one whose bytes come first.
#[derive(Debug, PartialEq, Eq, Drop)]
pub struct TermFiles {
    pub files: u64,
    pub word: Bytes,
}

impl Ord for TermFiles {
    ghost cmp = { compare_by_files };

    ghost total = { Prim.search (comparing, rules) };

    ghost matches_partial_cmp = { Prim.search (comparing, rules) };

    ghost matches_eq = { Prim.search (comparing, rules) };

    fn cmp(&self, other: &TermFiles) -> Ordering {
        other
            .files
            .cmp(&self.files)
            .then(self.word.cmp(&other.word))
    }
}

impl PartialOrd for TermFiles {
    ghost partial_cmp = { as_partial_cmp compare_by_files };

    ghost laws = { partial_order_from_own_ties (Prim.search (comparing, rules)) (Prim.search (comparing, rules)) };

    fn partial_cmp(&self, other: &TermFiles) -> Option<Ordering> {
        Some(self.cmp(other))
    }
}

/// How many words there are, and the first ones, at most as many as were asked for.
#[derive(Debug, PartialEq, Eq, Drop)]
pub struct Listing {
    pub total: u64,
    pub shown: Vec<TermFiles>,
}

/// The first `count` of the words, which ascend by bytes, or where `top` of the most frequent ones: those of
/// the most files, and among words of as many files the first ones by bytes. Takes no memory.
pub fn list_terms(lines: Vec<TermFiles>, count: u32, top: bool) -> Listing
    ensures total { result.total ≡ length lines.items }
    ensures shown { result.shown.items ≡ take count (in_order top lines.items) }
{
    let total = lines.len() as u64;
    let mut shown = if top { sorted_once(lines) } else { lines };
    shown.truncate(count as usize);
    Listing { total, shown }
}
