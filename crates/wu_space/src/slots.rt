//! The ranges that files were given, by address, with the sums of their lengths.
ghost use Rattle.std.specs.Prelude.{◌≡◌, ◌-◌, ◌+◌, if◌then◌else◌, None, ◌<◌, ◌≤◌, ◌^◌, ◌∷◌, ◌++◌, [], length, take, filter, sum, sum_by, nat_lt, slice_set, slice_index_or, Some, suc, zero, ◌*◌, OnOk, OnErr, List, vec_len, IfOk, IfSome, IfNone, map, max};
ghost use Rattle.std.specs.List.Sorted.{IsNonDecreasingBy};
ghost use Rattle.wu_space.specs.Addresses.{shared};
ghost use Rattle.wu_space.specs.Slots.{length_of, is_live, range_of_slot, dead, below, AreSums, Parts, Releases, tidied};

use std::alloc::Global;
use std::marker::Model;
use wu_base::{Ino, NoMemory, Range};

/// How many slots have their lengths summed in one number.
pub(crate) const CHUNK: usize = 512;

/// The range that a file was given. One that was released has length 0.
#[derive(Clone, Copy, Debug)]
pub(crate) struct Slot {
    pub start: u64,
    pub len: u64,
    pub ino: Ino,
}

impl Slot {
    pub(crate) fn range(&self) -> Range
        ensures { result ≡ range_of_slot self.now }
    {
        Range {
            start: self.start,
            len: self.len,
        }
    }

    /// Whether it has an address from `low` to `high`.
    pub(crate) fn meets(&self, low: u64, high: u64) -> bool
        ensures { result ≡ nat_lt 0 (shared low high (range_of_slot self.now)) }
    {
        let first = self.start.max(low);
        first <= high && first - self.start < self.len
    }

    /// How many of its addresses are below that one.
    pub(crate) fn below(&self, address: u64) -> u64
        ensures { result ≡ below address self.now }
    {
        self.len.min(address.saturating_sub(self.start))
    }

    /// Its file, and which of its addresses that one is, counted from 0.
    pub(crate) fn owner(&self, address: u64) -> Option<(Ino, u64)>
        requires { self.now.start ≤ address }
        ensures { result ≡ (if nat_lt (address - self.now.start) self.now.len then Some (self.now.ino, address - self.now.start) else None) }
    {
        let offset = address - self.start;
        if offset < self.len {
            Some((self.ino, offset))
        } else {
            None
        }
    }
}

/// Slots in a row, of which the lengths of any first ones can be summed fast.
#[derive(Debug, Drop)]
pub(crate) struct Slots {
    slots: Vec<Slot>,
    /// The summed lengths of each `CHUNK` slots.
    sums: Vec<u64>,
}

impl Model for Slots {
    ghost use Rattle.std.specs.Prelude.{List};
    ghost use Rattle.wu_space.specs.declared.slots.Slot.{Slot};

    ghost Value = { List Slot };

    ghost use Rattle.wu_space.specs.Slots.{HasSums};

    ghost view = { λ s. s.slots.items };

    ghost invariant = { λ s. HasSums s.slots.items s.sums.items };
}

impl Slots {
    /// No slots. Takes no memory.
    pub(crate) fn new(alloc: Global) -> Slots
        ensures { result ≡ [] }
    {
        Slots {
            slots: Vec::new(alloc),
            sums: Vec::new(alloc),
        }
    }

    /// These slots.
    pub(crate) fn with(alloc: Global, slots: Vec<Slot>) -> Result<Slots, NoMemory>
        requires { length_of slots.items < 2 ^ 64 }
        ensures { IfOk result (λ made. made ≡ slots.items) }
    {
        let mut sums = vec![in alloc; 0u64; slots.len().div_ceil(CHUNK)]?;
        sum_up(slots.as_slice(), sums.as_mut_slice());
        Ok(Slots { slots, sums })
    }

    pub(crate) fn as_slice(&self) -> &[Slot]
        ensures slots { result.now ≡ self.now }
        ensures small { length_of self.now < 2 ^ 64 }
    {
        self.slots.as_slice()
    }

    /// Puts a slot at the end. Out of memory, the slots are as they were.
    pub(crate) fn push(&mut self, slot: Slot) -> Result<(), NoMemory>
        requires { length_of self.old + slot.len < 2 ^ 64 }
        ensures ok { OnOk result (self.new ≡ self.old ++ slot ∷ []) }
        ensures err { OnErr result (self.new ≡ self.old) }
    {
        let chunk = self.slots.len() / CHUNK;
        self.slots.push(slot)?;
        match make_room(&mut self.sums, chunk) {
            Ok(()) => {
                self.sums[chunk] += slot.len;
                Ok(())
            }
            Err(error) => {
                self.slots.pop();
                Err(error)
            }
        }
    }

    /// Takes its addresses from the slot that begins at `start`.
    pub(crate) fn release(&mut self, start: u64)
        requires { IsNonDecreasingBy (λ slot. slot.start) self.old }
        ensures { Releases start self.old self.new }
    {
        if let Some(place) = last_up_to(self.slots.as_slice(), start) {
            self.release_at(place);
        }
    }

    /// Takes its addresses from the slot at that place.
    fn release_at(&mut self, place: usize)
        requires { place < length self.old }
        ensures { (d : Slot) → self.new ≡ slice_set self.old place (dead (slice_index_or self.old place d)) }
    {
        let slot = self.slots[place];
        self.sums[place / CHUNK] -= slot.len;
        self.slots[place] = Slot { len: 0, ..slot };
    }

    /// How many addresses the first `count` slots have: takes time for the chunks before them, and for
    /// one chunk.
    pub(crate) fn length_before(&self, count: usize) -> u64
        requires { count ≤ length self.now }
        ensures { result ≡ length_of (take count self.now) }
    {
        let chunks = count / CHUNK;
        total(&self.sums[..chunks]) + length(&self.slots[chunks * CHUNK..count])
    }

    /// Leaves out the slots without addresses where there are at least two more of them than of those with some,
    /// of which there are so many. Takes no memory.
    pub(crate) fn tidy(&mut self, live: usize)
        ensures { self.new ≡ tidied live self.old }
    {
        if self.slots.len() / 2 > live {
            self.drop_dead();
        }
    }

    /// Leaves the slots that have addresses, in the same order. Takes no memory.
    fn drop_dead(&mut self)
        ensures { self.new ≡ filter is_live self.old }
    {
        self.slots.retain(|slot| slot.len > 0);
        self.sums.truncate(self.slots.len().div_ceil(CHUNK));
        sum_up(self.slots.as_slice(), self.sums.as_mut_slice());
    }
}

/// Has a sum for the chunk, where there are sums for those before it.
fn make_room(sums: &mut Vec<u64>, chunk: usize) -> Result<(), NoMemory>
    ensures ok { OnOk result (chunk ≤ vec_len sums.old → vec_len sums.new ≡ max (vec_len sums.old) (chunk + 1)) }
    ensures err { OnErr result (vec_len sums.new ≡ vec_len sums.old) }
    ensures sums { (slots : List Slot) → AreSums slots sums.old.items → AreSums slots sums.new.items }
{
    if chunk >= sums.len() {
        sums.push(0)?;
    }
    Ok(())
}

/// Writes down the summed lengths of each `CHUNK` slots.
fn sum_up(slots: &[Slot], sums: &mut [u64])
    requires enough { length slots.now ≤ CHUNK * length sums.old }
    requires small { length_of slots.now < 2 ^ 64 }
    ensures { AreSums slots.now sums.new }
{
    for sum in sums.iter_mut() {
        *sum = 0;
    }
    for (place, slot) in slots.iter().enumerate() {
        sums[place / CHUNK] += slot.len;
    }
}

/// How many of the slots start up to the address.
pub(crate) fn starts_up_to(slots: &[Slot], address: u64) -> usize
    requires { IsNonDecreasingBy (λ slot. slot.start) slots.now }
    ensures parts { Parts address slots.now result }
    ensures within { result ≤ length slots.now }
{
    slots.partition_point(|slot| slot.start <= address)
}

/// The place of the last slot that starts up to the address.
pub(crate) fn last_up_to(slots: &[Slot], address: u64) -> Option<usize>
    requires { IsNonDecreasingBy (λ slot. slot.start) slots.now }
    ensures some { IfSome result (λ place. Parts address slots.now (suc place)) }
    ensures within { IfSome result (λ place. place < length slots.now) }
    ensures none { IfNone result (Parts address slots.now zero) }
{
    match starts_up_to(slots, address) {
        0 => None,
        count => Some(count - 1),
    }
}

fn total(sums: &[u64]) -> u64
    requires { sum sums.now < 2 ^ 64 }
    ensures { result ≡ sum sums.now }
{
    sums.iter().sum()
}

/// How many addresses the slots have.
pub(crate) fn length(slots: &[Slot]) -> u64
    requires { length_of slots.now < 2 ^ 64 }
    ensures { result ≡ length_of slots.now }
{
    slots.iter().map(|slot| slot.len).sum()
}
