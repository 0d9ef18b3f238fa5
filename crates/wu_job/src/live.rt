//! The ranges that were live when a job began, walked beside ascending addresses by galloping: J. L. Bentley and
//! A. C. Yao, An almost optimal algorithm for unbounded searching, 1976.
ghost use Rattle.std.specs.Prelude.{◌≡◌, ℕ, ◌+◌, ◌<◌, ◌≤◌, ◌^◌, true, [], ◌++◌, drop, length, nat_le, sum_by, take, IfOk, All, OnOk};
ghost use Rattle.std.specs.List.{AllByRecursion};
ghost use Rattle.wu_base.specs.Ranges.{AreApart};
ghost use Rattle.wu_layout.specs.Ascending.{AscendBetween};
ghost use Rattle.wu_layout.specs.Postings.{is_live};
ghost use Rattle.wu_job.specs.Live.{AreInOrder, AreRanked, FirstEndsAfter, IsCut, find_place, first_from, place_alone, ranges_alone};
ghost use Rattle.wu_job.specs.Live.{with_place};

use std::alloc::Global;
use wu_base::{ADDRESSES_MAX, NoMemory, Range};

/// A range of addresses that were live when the job began, and how many such addresses are before it.
#[derive(Clone, Copy, Debug)]
pub(crate) struct LiveRange {
    pub start: u64,
    pub len: u64,
    pub before: u64,
}

impl LiveRange {
    /// Whether the address is after all of the range's.
    fn ends_by(&self, address: u64) -> bool
        ensures { result ≡ nat_le (self.now.start + self.now.len) address }
    {
        self.start <= address && self.len <= address - self.start
    }
}

/// The live addresses of a list, and how many live addresses are before each of them.
#[derive(Drop)]
pub(crate) struct Cut {
    pub addresses: Vec<u64>,
    pub places: Vec<u64>,
}

impl Cut {
    /// No address yet, with room for so many.
    fn with_room(alloc: Global, count: usize) -> Result<Cut, NoMemory>
        ensures { IfOk result (λ cut. (cut.addresses.items ≡ []) × (cut.places.items ≡ [])) }
    {
        Ok(Cut {
            addresses: Vec::with_capacity(alloc, count)?,
            places: Vec::with_capacity(alloc, count)?,
        })
    }

    /// Puts the address at the end, where it has a place.
    fn put(&mut self, address: u64, place: Option<u64>) -> Result<(), NoMemory>
        ensures addresses { OnOk result (self.new.addresses.items ≡ self.old.addresses.items ++ with_place address place) }
        ensures places { OnOk result (self.new.places.items ≡ self.old.places.items ++ place_alone place) }
    {
        match place {
            Some(place) => {
                self.addresses.push(address)?;
                self.places.push(place)?;
                Ok(())
            }
            None => Ok(()),
        }
    }

    /// Puts those of the other at the end.
    pub(crate) fn append(&mut self, other: &Cut) -> Result<(), NoMemory>
        ensures addresses { OnOk result (self.new.addresses.items ≡ self.old.addresses.items ++ other.now.addresses.items) }
        ensures places { OnOk result (self.new.places.items ≡ self.old.places.items ++ other.now.places.items) }
    {
        self.addresses.extend_from_slice(&other.addresses)?;
        self.places.extend_from_slice(&other.places)?;
        Ok(())
    }
}

/// The ranges, each with the number of addresses before it.
pub(crate) fn ranked(alloc: Global, ranges: &[Range]) -> Result<Vec<LiveRange>, NoMemory>
    requires apart { AreApart ranges.now }
    requires bounded { All (λ range. range.start + range.len ≤ ADDRESSES_MAX) ranges.now }
    ensures ranges { IfOk result (λ v. ranges_alone v.items ≡ ranges.now) }
    ensures ranked { IfOk result (λ v. AreRanked v.items ADDRESSES_MAX) }
{
    let mut ranked = Vec::with_capacity(alloc, ranges.len())?;
    let mut before = 0;
    for range in ranges {
        ranked.push(LiveRange {
            start: range.start,
            len: range.len,
            before,
        })?;
        before += range.len;
    }
    Ok(ranked)
}

/// How many addresses the ranges have.
pub(crate) fn total(ranges: &[LiveRange]) -> u64
    requires { sum_by (λ range. range.len) ranges.now < 2 ^ 64 }
    ensures { result ≡ sum_by (λ range. range.len) ranges.now }
{
    ranges.iter().map(|range| range.len).sum()
}

/// The addresses that are live, with their places. Addresses and ranges are walked side by side by galloping.
pub(crate) fn cut_to_live(
    alloc: Global,
    live: &[LiveRange],
    addresses: &[u64],
) -> Result<Cut, NoMemory>
    requires live { AreRanked live.now ADDRESSES_MAX }
    requires ascend { AscendBetween 0 ADDRESSES_MAX addresses.now }
    ensures { IfOk result (IsCut (ranges_alone live.now) addresses.now) }
{
    let mut cut = Cut::with_room(alloc, addresses.len())?;
    let mut left = live;
    for address in addresses {
        left = from_address(left, *address);
        cut.put(*address, place_in(left, *address))?;
    }
    Ok(cut)
}

/// Where the first range begins that ends after the address, if not before it: no live address is between. Or
/// the address, where no range ends after it.
pub(crate) fn first_live(live: &[LiveRange], from: u64) -> u64
    requires { AreRanked live.now ADDRESSES_MAX }
    ensures first { result ≡ first_from (ranges_alone live.now) from }
    ensures low { (address : ℕ) → is_live (ranges_alone live.now) address ≡ true → from ≤ address → result ≤ address }
{
    match from_address(live, from) {
        [first, ..] => first.start.max(from),
        [] => from,
    }
}

/// How many live addresses are before that one, where it is live.
fn place_in(ranges: &[LiveRange], address: u64) -> Option<u64>
    requires { FirstEndsAfter address ranges.now }
    ensures { result ≡ find_place ranges.now address }
{
    match ranges {
        [first, ..] if first.start <= address => Some(first.before + (address - first.start)),
        _ => None,
    }
}

/// The ranges without those first ones that end at the address or before it. Takes time logarithmic in the
/// number of those that it leaves out.
fn from_address(ranges: &[LiveRange], address: u64) -> &[LiveRange]
    requires { AreInOrder 0 ADDRESSES_MAX ranges.now }
    ensures order { AreInOrder 0 ADDRESSES_MAX result.now }
    ensures ends { FirstEndsAfter address result.now }
    ensures same { (a : ℕ) → address ≤ a → find_place result.now a ≡ find_place ranges.now a }
    ensures first { first_from (ranges_alone result.now) address ≡ first_from (ranges_alone ranges.now) address }
{
    ranges.split_at(count_ended(ranges, address)).1
}

/// How many of the ranges end before the address or at it.
fn count_ended(ranges: &[LiveRange], address: u64) -> usize
    requires { AreInOrder 0 ADDRESSES_MAX ranges.now }
    ensures within { result ≤ length ranges.now }
    ensures ended { AllByRecursion (λ range. range.start + range.len ≤ address) (take result ranges.now) }
    ensures others { AllByRecursion (λ range. address < range.start + range.len) (drop result ranges.now) }
{
    let end = reach_of_ended(ranges, address);
    ranges[..end].partition_point(|range| range.ends_by(address))
}

/// At most twice as many of the first ranges as end before the address or at it, or one: none of the others does.
fn reach_of_ended(ranges: &[LiveRange], address: u64) -> usize
    requires { AreInOrder 0 ADDRESSES_MAX ranges.now }
    ensures within { result ≤ length ranges.now }
    ensures others { AllByRecursion (λ range. address < range.start + range.len) (drop result ranges.now) }
{
    let mut end = 1;
    while end < ranges.len() {
        if !ranges[end].ends_by(address) {
            return end;
        }
        end *= 2;
    }
    ranges.len()
}
