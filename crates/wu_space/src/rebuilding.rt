//! A space made of the live ranges that were written down.
ghost use Rattle.std.specs.Prelude.{◌≡◌, ◌+◌, ◌<◌, ◌≤◌, ◌^◌, IsPermutation, IfOk, OnSome, IfSome, IfNone, MatchBool, map};
ghost use Rattle.std.specs.Ordering.{nat_cmp};
ghost use Rattle.std.specs.List.{AllByRecursion};
ghost use Rattle.std.specs.List.Sorted.{IsNonDecreasingBy};
ghost use Rattle.wu_space.specs.Addresses.{AreLive};
ghost use Rattle.wu_space.specs.Rebuilding.{HasEachOnce, IsFiles, slot_of};
ghost use Rattle.wu_space.specs.Slots.{AreInOrder, length_of};

use crate::slots::{Slot, Slots, length};
use crate::spaces::Space;
use std::alloc::Global;
use std::collections::BTreeMap;
use wu_base::{Ino, NoMemory, Range};

/// The space with these live ranges, or None exactly where they break its rules.
pub(crate) fn rebuilt(
    alloc: Global,
    next: u64,
    ranges: &[(Ino, Range)],
) -> Result<Option<Space>, NoMemory>
    ensures none { IfOk result (λ found. IfNone found (AreLive next ranges.now → ⊥)) }
    ensures live { IfOk result (λ found. OnSome found (AreLive next ranges.now)) }
    ensures next { IfOk result (λ found. IfSome found (λ space. space.next ≡ next)) }
    ensures ranges { IfOk result (λ found. IfSome found (λ space. IsPermutation ranges.now space.ranges)) }
{
    let by_number = match by_number(alloc, ranges)? {
        Some(by_number) => by_number,
        None => return Ok(None),
    };
    let slots = by_address(alloc, ranges)?;
    if !are_in_order(slots.as_slice(), next) {
        return Ok(None);
    }
    let total = length(slots.as_slice());
    Ok(Some(Space {
        alloc,
        slots: Slots::with(alloc, slots)?,
        ranges: by_number,
        next,
        total,
    }))
}

/// The ranges by number, or None exactly where a number occurs twice.
fn by_number(
    alloc: Global,
    ranges: &[(Ino, Range)],
) -> Result<Option<BTreeMap<Ino, Range>>, NoMemory>
    ensures none { IfOk result (λ found. IfNone found (HasEachOnce ranges.now → ⊥)) }
    ensures some { IfOk result (λ found. OnSome found (HasEachOnce ranges.now)) }
    ensures entries { IfOk result (λ found. IfSome found (λ map. IsFiles ranges.now map.entries)) }
{
    let by_number: BTreeMap<Ino, Range> = ranges.iter().copied().collect(alloc)?;
    if by_number.len() < ranges.len() {
        return Ok(None);
    }
    Ok(Some(by_number))
}

/// A slot for each range, in the order of their first addresses.
fn by_address(alloc: Global, ranges: &[(Ino, Range)]) -> Result<Vec<Slot>, NoMemory>
    ensures slots { IfOk result (λ slots. IsPermutation (map slot_of ranges.now) slots.items) }
    ensures order { IfOk result (λ slots. IsNonDecreasingBy (λ slot. slot.start) slots.items) }
{
    let mut slots = slots_of(alloc, ranges)?;
    slots.sort_unstable_by_key(|slot| slot.start);
    Ok(slots)
}

/// A slot for each range.
fn slots_of(alloc: Global, ranges: &[(Ino, Range)]) -> Result<Vec<Slot>, NoMemory>
    ensures { IfOk result (λ slots. slots.items ≡ map slot_of ranges.now) }
{
    let mut slots = Vec::with_capacity(alloc, ranges.len())?;
    for (ino, range) in ranges {
        slots.push(Slot {
            start: range.start,
            len: range.len,
            ino: *ino,
        })?;
    }
    Ok(slots)
}

/// Whether each slot has addresses and ends before the next one starts, and the last one by `next`.
fn are_in_order(slots: &[Slot], next: u64) -> bool
    ensures { MatchBool result (AllByRecursion (λ slot. 0 < slot.len) slots.now × AreInOrder 0 slots.now next) ((AllByRecursion (λ slot. 0 < slot.len) slots.now) → AreInOrder 0 slots.now next → ⊥) }
{
    let mut low = 0;
    for slot in slots {
        match end_within(slot, low, next) {
            Some(end) => low = end,
            None => return false,
        }
    }
    true
}

/// The first address after the slot, where it has addresses and lies from `low` on and before `next`.
fn end_within(slot: &Slot, low: u64, next: u64) -> Option<u64>
    ensures some { IfSome result (λ end. (0 < slot.now.len) × (low ≤ slot.now.start) × (end ≡ slot.now.start + slot.now.len) × (end ≤ next)) }
    ensures none { IfNone result (0 < slot.now.len → low ≤ slot.now.start → slot.now.start + slot.now.len ≤ next → ⊥) }
{
    if slot.len == 0 || slot.start < low {
        return None;
    }
    match slot.start.checked_add(slot.len) {
        Some(end) if end <= next => Some(end),
        _ => None,
    }
}
