//! Where a phrase repeats its own first words, so that no word of a text is looked up twice for it.
ghost use Rattle.std.specs.Prelude.{◌≡◌, ◌⊎◌, ℕ, ◌+◌, ◌<◌, ◌≤◌, Bool, List, length, IfOk};
ghost use Rattle.wu_gcl.specs.Extents.{is_token_at};
ghost use Rattle.wu_solve.specs.Prefixes.{PrefixStands, AreOverlaps};

use std::alloc::Global;
use wu_base::{Bytes, NoMemory};

/// So many places, from the first on, on which the first words of a phrase stand.
#[derive(Clone, Copy)]
pub struct Stretch {
    pub start: u64,
    pub count: usize,
}

/// How many of the first words stand from the place on, as far as an earlier stretch tells. What is
/// left of it there are the phrase's own words from some place on, and `overlaps` says how many of
/// its first words stand there.
#[inline]
pub fn known_words(stretch: Stretch, overlaps: &[usize], place: u64) -> usize
    ensures within { result ≤ stretch.count }
    ensures stand { (stands : List ℕ → ℕ → Bool) (words : List (List ℕ)) → AreOverlaps words overlaps.now
        → PrefixStands stands words stretch.start stretch.count → PrefixStands stands words place result }
{
    if place < stretch.start {
        return 0;
    }
    let shift = place - stretch.start;
    if shift >= stretch.count as u64 {
        return 0;
    }
    match overlaps.get(shift as usize) {
        Some(overlap) => (stretch.count - shift as usize).min(*overlap),
        None => 0,
    }
}

/// The one of the two that ends later.
#[inline(always)]
pub fn farther(one: Stretch, other: Stretch) -> Stretch
    ensures { (result ≡ one) ⊎ (result ≡ other) }
{
    let end = one.start.saturating_add(one.count as u64);
    if end < other.start.saturating_add(other.count as u64) {
        other
    } else {
        one
    }
}

/// For each place of the phrase, how many of its first words stand there too; 0 for the first place.
pub fn overlaps(alloc: Global, words: &[Bytes]) -> Result<Vec<usize>, NoMemory>
    ensures { IfOk result (λ overlaps. AreOverlaps words.now overlaps.items) }
{
    let mut overlaps = Vec::with_capacity(alloc, words.len())?;
    let mut stretch = Stretch { start: 0, count: 0 };
    overlaps.push(0)?;
    for place in 1..words.len() {
        let start = place as u64;
        let known = known_words(stretch, &overlaps, start);
        let count = overlap_at(words, place, known);
        stretch = farther(stretch, Stretch { start, count });
        overlaps.push(count)?;
    }
    Ok(overlaps)
}

/// How many of the first words stand at the place too, where so many are known to.
fn overlap_at(words: &[Bytes], place: usize, known: usize) -> usize
    requires place { place < length words.now }
    requires known { PrefixStands (is_token_at words.now) words.now place known }
    ensures { PrefixStands (is_token_at words.now) words.now place result }
{
    let rest = words.len() - place;
    for count in known..rest {
        if words[count] != words[place + count] {
            return count;
        }
    }
    rest
}
