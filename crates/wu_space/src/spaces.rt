//! The space of addresses, and the live ranges in it.
ghost use Rattle.std.specs.Prelude.{◌≡◌, ◌+◌, ◌<◌, ◌≤◌, IsPermutation, IsSome, None, IfOk, OnOk, OnErr, OnSome, IfSome, IfNone, [], map, filter, suc, ◌⊎◌};
ghost use Rattle.std.specs.List.Sorted.{IsNonDecreasingBy};
ghost use Rattle.wu_space.specs.Slots.{IsAround, Parts, count_below, meets, range_of_slot};

use crate::rebuilding;
use crate::slots::{Slot, Slots, last_up_to, starts_up_to};
use std::alloc::Global;
use std::collections::BTreeMap;
use std::marker::Model;
use wu_base::{ADDRESSES_MAX, Ino, NoMemory, Range};

/// The addresses that files were given, and the next one. A file has at most one live range: that of the
/// text that it has now. Contracts see the next address and the live ranges by number of their files.
#[derive(Debug, Drop)]
pub struct Space {
    pub(crate) alloc: Global,
    pub(crate) slots: Slots,
    pub(crate) ranges: BTreeMap<Ino, Range>,
    pub(crate) next: u64,
    pub(crate) total: u64,
}

impl Model for Space {
    ghost use Rattle.wu_space.specs.Addresses.{Addresses};

    ghost Value = { Addresses };

    ghost use Rattle.wu_space.specs.Slots.{IsSound};

    ghost view = { λ s. record { next = s.next; ranges = s.ranges.entries } };

    ghost invariant = { λ s. IsSound s.slots s.ranges.entries s.next s.total };
}

impl Space {
    ghost use Rattle.wu_space.specs.Addresses.{Addresses, AreLive, IsSpace, live_in as count_of_live, live_ranges as ranges_from_to, live_total as count_of_all, owner_at as owner_of, placed, range_of as range_with, released};
    ghost use Rattle.wu_base.specs.Ranges.{AreApart};

    /// A space of which the addresses below `next` were given and none is live. Takes no memory; the
    /// space keeps the allocator for its changes.
    pub fn new(alloc: Global, next: u64) -> Space
        ensures { result ≡ record { next = next; ranges = [] } }
    {
        Space {
            alloc,
            slots: Slots::new(alloc),
            ranges: BTreeMap::new(alloc),
            next,
            total: 0,
        }
    }

    /// The space with these live ranges, given in any order, of which the addresses below `next` were
    /// given; or None exactly where a number occurs twice, an address is in two ranges, a range is empty
    /// or one ends past `next`. The one error is out of memory. Takes time near linear in the number of ranges.
    pub fn rebuild(
        alloc: Global,
        next: u64,
        ranges: &[(Ino, Range)],
    ) -> Result<Option<Space>, NoMemory>
        ensures none { IfOk result (λ found. IfNone found (AreLive next ranges.now → ⊥)) }
        ensures live { IfOk result (λ found. OnSome found (AreLive next ranges.now)) }
        ensures next { IfOk result (λ found. IfSome found (λ space. space.next ≡ next)) }
        ensures ranges { IfOk result (λ found. IfSome found (λ space. IsPermutation ranges.now space.ranges)) }
    {
        rebuilding::rebuilt(alloc, next, ranges)
    }

    /// Gives the file, which has no live range, the next `len` addresses: its live range is these from now on.
    /// There is at least one, and they end at ADDRESSES_MAX at the latest. Out of memory, the one error, the
    /// space is as it was. Takes time logarithmic in the number of live ranges.
    pub fn place(&mut self, ino: Ino, len: u64) -> Result<Range, NoMemory>
        requires free { range_with self.old.ranges ino ≡ None }
        requires some { 0 < len }
        requires fits { self.old.next + len ≤ ADDRESSES_MAX }
        ensures range { IfOk result (λ range. range ≡ record { start = self.old.next; len = len }) }
        ensures placed { OnOk result (self.new ≡ placed self.old ino len) }
        ensures err { OnErr result (self.new ≡ self.old) }
    {
        let range = Range {
            start: self.next,
            len,
        };
        self.ranges.insert(ino, range)?;
        let slot = Slot {
            start: range.start,
            len,
            ino,
        };
        match self.slots.push(slot) {
            Ok(()) => {
                self.next += len;
                self.total += len;
                Ok(range)
            }
            Err(error) => {
                self.ranges.remove(&ino);
                Err(error)
            }
        }
    }

    /// Gives up the live range of the file, which has one. Its addresses are given to no other file. Takes no memory, and time
    /// logarithmic in the number of live ranges. Once in a while it also takes one pass over all ranges, after at
    /// least as many calls.
    pub fn release(&mut self, ino: Ino)
        requires { IsSome (range_with self.old.ranges ino) }
        ensures { self.new ≡ released self.old ino }
    {
        if let Some(range) = self.ranges.remove(&ino) {
            self.total -= range.len;
            self.slots.release(range.start);
            self.slots.tidy(self.ranges.len());
        }
    }

    /// The file's live range, or None where it has none. Takes no memory, and time logarithmic in the
    /// number of live ranges.
    pub fn range_of(&self, ino: Ino) -> Option<Range>
        ensures { result ≡ range_with self.now.ranges ino }
    {
        match self.ranges.get(&ino) {
            Some(range) => Some(*range),
            None => None,
        }
    }

    /// The file whose live range has the address, and which address of that range it is, counted from 0;
    /// or None where no live range has it. Takes no memory, and time logarithmic in the number of live
    /// ranges.
    pub fn owner_at(&self, addr: u64) -> Option<(Ino, u64)>
        ensures { result ≡ owner_of self.now.ranges addr }
    {
        let slots = self.slots.as_slice();
        match last_up_to(slots, addr) {
            Some(place) => slots[place].owner(addr),
            None => None,
        }
    }

    /// How many addresses are live. Takes no memory, and constant time.
    pub fn live_total(&self) -> u64
        ensures { result ≡ count_of_all self.now.ranges }
    {
        self.total
    }

    /// How many of the addresses from `low` to `high`, both included, are live. Takes no memory, and time
    /// that grows with the number of live ranges divided by 512.
    pub fn live_in(&self, low: u64, high: u64) -> u64
        ensures { result ≡ count_of_live self.now.ranges low high }
    {
        let end = self.next.min(high.saturating_add(1));
        self.live_below(end).saturating_sub(self.live_below(low))
    }

    /// How many of the addresses below that one are live.
    fn live_below(&self, address: u64) -> u64
        ensures { result ≡ count_below address self.now.ranges }
    {
        let slots = self.slots.as_slice();
        let Some(before) = address.checked_sub(1) else {
            return 0;
        };
        match last_up_to(slots, before) {
            Some(last) => self.slots.length_before(last) + slots[last].below(address),
            None => 0,
        }
    }

    /// The live ranges that have an address from `low` to `high`, ascending. The only error is out of
    /// memory. Takes time logarithmic in the number of live ranges, and time that grows with the result
    /// and with the ranges among these that were released of late.
    pub fn live_ranges(&self, low: u64, high: u64) -> Result<Vec<Range>, NoMemory>
        ensures ranges { IfOk result (λ found. IsPermutation (ranges_from_to self.now.ranges low high) found.items) }
        ensures ascending { IfOk result (λ found. AreApart found.items) }
    {
        met(
            self.alloc,
            around(self.slots.as_slice(), low, high),
            low,
            high,
        )
    }

    /// The next address, which no file was given yet. Takes no memory.
    pub fn next(&self) -> u64
        ensures { result ≡ self.now.next }
    {
        self.next
    }

    /// Returns nothing and does nothing, in constant time: its clauses say that the live ranges keep the
    /// rules of a space, as they do at every moment. Proofs of callers cite it.
    pub fn keeps_the_rules(&self)
        ensures { IsSpace self.now }
    {
        let _next = self.next;
    }
}

/// The slots from the last one that starts up to `low` to the last one that starts up to `high`.
fn around(slots: &[Slot], low: u64, high: u64) -> &[Slot]
    requires { IsNonDecreasingBy (λ slot. slot.start) slots.now }
    ensures { IsAround low high slots.now result.now }
{
    let from = first_around(slots, low);
    let to = starts_up_to(slots, high);
    if from < to { &slots[from..to] } else { &[] }
}

/// The place of the last slot that starts up to the address, or 0 where none does.
fn first_around(slots: &[Slot], address: u64) -> usize
    requires { IsNonDecreasingBy (λ slot. slot.start) slots.now }
    ensures { ((result ≡ 0) × Parts address slots.now 0) ⊎ Parts address slots.now (suc result) }
{
    match last_up_to(slots, address) {
        Some(place) => place,
        None => 0,
    }
}

/// The ranges of those of the slots that have an address from `low` to `high`.
fn met(alloc: Global, slots: &[Slot], low: u64, high: u64) -> Result<Vec<Range>, NoMemory>
    ensures { IfOk result (λ found. found.items ≡ map range_of_slot (filter (meets low high) slots.now)) }
{
    let mut found = Vec::new(alloc);
    for slot in slots {
        if slot.meets(low, high) {
            found.push(slot.range())?;
        }
    }
    Ok(found)
}
