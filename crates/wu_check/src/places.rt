//! Places of addresses: the addresses of ascending ranges, counted from 0.
ghost use Rattle.std.specs.Prelude.{◌≡◌, ◌+◌, ◌≤◌, ◌^◌, ◌<◌, length, nat_le, sum_by, IfOk};
ghost use Rattle.std.specs.List.{AllByRecursion};
ghost use Rattle.wu_base.specs.Ranges.{AreApart};
ghost use Rattle.wu_check.specs.Placed.{ArePlaced, FirstHasFewBefore, PartAt, place_in, placed_from, ranges_of};
ghost use Rattle.wu_check.specs.Places.{place_of};

use std::alloc::Global;
use wu_base::{ADDRESSES_MAX, NoMemory, Range};

/// A range, and how many addresses the ranges before it have.
#[derive(Clone, Copy, Debug)]
pub(crate) struct PlacedRange {
    pub range: Range,
    pub before: u64,
}

impl PlacedRange {
    /// Whether the address is after all of the range's.
    fn ends_by(&self, address: u64) -> bool
        ensures { result ≡ nat_le (self.now.range.start + self.now.range.len) address }
    {
        self.range.start <= address && self.range.len <= address - self.range.start
    }
}

/// The ranges, each with the number of addresses before it.
pub(crate) fn placed(alloc: Global, ranges: &[Range]) -> Result<Vec<PlacedRange>, NoMemory>
    requires apart { AreApart ranges.now }
    requires bounded { AllByRecursion (λ range. range.start + range.len ≤ ADDRESSES_MAX) ranges.now }
    ensures placed { IfOk result (λ placed. placed.items ≡ placed_from 0 ranges.now) }
    ensures are { IfOk result (λ placed. ArePlaced placed.items) }
{
    let mut placed = Vec::with_capacity(alloc, ranges.len())?;
    let mut before = 0;
    for range in ranges {
        placed.push(PlacedRange {
            range: *range,
            before,
        })?;
        before += range.len;
    }
    Ok(placed)
}

/// How many addresses the ranges have.
pub(crate) fn total(ranges: &[Range]) -> u64
    requires { sum_by (λ range. range.len) ranges.now < 2 ^ 64 }
    ensures { result ≡ sum_by (λ range. range.len) ranges.now }
{
    ranges.iter().map(|range| range.len).sum()
}

/// The place of the address, where it is one of the ranges'. Takes time logarithmic in their
/// number.
pub(crate) fn place_of(placed: &[PlacedRange], address: u64) -> Option<u64>
    requires { ArePlaced placed.now }
    ensures { result ≡ place_of (ranges_of placed.now) address }
{
    place_in(placed.split_at(count_ended(placed, address)).1, address)
}

/// The place of the address in the first of the ranges, where it isn't after that range.
fn place_in(placed: &[PlacedRange], address: u64) -> Option<u64>
    requires { FirstHasFewBefore placed.now }
    ensures { result ≡ place_in placed.now address }
{
    match placed {
        [first, ..] if first.range.start <= address => {
            Some(first.before + (address - first.range.start))
        }
        _ => None,
    }
}

/// How many of the ranges end before the address or at it.
fn count_ended(placed: &[PlacedRange], address: u64) -> usize
    requires { ArePlaced placed.now }
    ensures within { result ≤ length placed.now }
    ensures parted { PartAt address placed.now result }
{
    placed.partition_point(|range| range.ends_by(address))
}
