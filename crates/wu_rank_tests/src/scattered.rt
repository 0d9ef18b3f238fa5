//! Units, and words in them, at random places.
ghost use Rattle.std.specs.Prelude.{All, IfOk, IsTrue};
ghost use Rattle.std.specs.List.Sorted.{IsStrictlyIncreasing};

use std::alloc::Global;
use wu_base::{Bytes, Extent, NoMemory, Sequence, TermList};
use wu_rank::Unit;

/// The next number of a sequence that looks random: Knuth's linear congruential generator MMIX.
fn next(state: u64) -> u64 {
    state
        .wrapping_mul(6_364_136_223_846_793_005)
        .wrapping_add(1_442_695_040_888_963_407)
}

/// Units that ascend, with 3 to 34 addresses each; every fourth starts within the one before it.
/// Four in turn have one place.
pub fn scattered_units(alloc: Global, seed: u64, count: u32) -> Result<Vec<Unit>, NoMemory> {
    let mut units = Vec::new(alloc);
    let mut state = seed;
    let mut start: u64 = 0;
    for i in 0..count {
        state = next(state);
        let length = 3 + (state >> 59);
        let extent = Extent {
            start,
            end: start.saturating_add(length - 1),
        };
        units.push(Unit {
            extent,
            place: i / 4,
        })?;
        let step = if i % 4 == 3 { length / 2 } else { length };
        start = start.saturating_add(step);
    }
    Ok(units)
}

/// Lists of words over the addresses of the units, the first the most frequent: a word stands at
/// every eighth address, at every 64th and so on, and each third word is the one before it once
/// more.
pub fn scattered_lists(
    alloc: Global,
    seed: u64,
    units: &[Unit],
    words: u32,
) -> Result<Vec<TermList>, NoMemory>
    ensures { IfOk result (λ lists. All (λ word. IsStrictlyIncreasing word.at) lists.items) }
{
    let last = match units.last() {
        Some(unit) => unit.extent.end,
        None => 0,
    };
    let mut lists = Vec::new(alloc);
    for word in 0..words {
        let nth = word.saturating_sub(u32::from(word % 3 == 2));
        let at = Sequence::from(scattered_places(alloc, seed ^ u64::from(nth), nth, last)?);
        let term = Bytes::from(Vec::new(alloc));
        lists.push(TermList { term, at })?;
    }
    Ok(lists)
}

/// The addresses up to the last one at which the word stands.
fn scattered_places(alloc: Global, seed: u64, nth: u32, last: u64) -> Result<Vec<u64>, NoMemory>
    ensures { IfOk result (λ v. IsStrictlyIncreasing v.items) }
{
    let bits = (3 + 3 * nth.min(15)).min(48);
    let mut places = Vec::new(alloc);
    let mut state = seed;
    for address in 0..last {
        state = next(state);
        if state >> (64 - bits) == 0 {
            places.push(address)?;
        }
    }
    Ok(places)
}
