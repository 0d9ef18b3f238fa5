//! Numbers of a part's terms, at the places of the addresses where the terms stand.
ghost use Rattle.std.specs.Prelude.{◌≡◌, ℕ, List, [], ◌∷◌, ◌++◌, ◌+◌, ◌≤◌, true, IfOk, MatchBool, MatchOption, OnOk, eqb, length};
ghost use Rattle.std.specs.List.{AllByRecursion, IsDistinct};
ghost use Rattle.std.specs.List.Sorted.{IsStrictlyIncreasing};
ghost use Rattle.wu_base.specs.Ranges.{AreApart};
ghost use Rattle.wu_base.specs.declared.addresses.Range.{Range};
ghost use Rattle.wu_base.specs.declared.addresses.TermList.{TermList};
ghost use Rattle.wu_check.specs.Indexing.{AreIndexed};
ghost use Rattle.wu_check.specs.Numbered.{AreNumbered, HasPlaces, addresses_in, with_list};
ghost use Rattle.wu_check.specs.Numbering.{has};

use crate::indexing::PartIndex;
use crate::places::{PlacedRange, place_of, placed, total};
use std::alloc::Global;
use wu_base::{ADDRESSES_MAX, Bytes, NoMemory, Range};

/// The lists of a part, as far as they were numbered.
#[derive(Drop)]
pub(crate) struct Numbering {
    /// The ranges whose addresses have places.
    pub ranges: Vec<PlacedRange>,
    /// The terms of the lists, in order.
    pub terms: Vec<Bytes>,
    /// At each place the number of the list that has the address, counted from 1, or 0 for none.
    pub numbers: Vec<u32>,
    /// The addresses of the lists that have no place.
    pub others: Vec<u64>,
}

impl Numbering {
    /// No list yet.
    pub(crate) fn new(alloc: Global, ranges: &[Range]) -> Result<Numbering, NoMemory>
        requires apart { AreApart ranges.now }
        requires bounded { AllByRecursion (λ range. range.start + range.len ≤ ADDRESSES_MAX) ranges.now }
        ensures { IfOk result (AreNumbered ranges.now []) }
    {
        Ok(Numbering {
            ranges: placed(alloc, ranges)?,
            terms: Vec::new(alloc),
            numbers: vec![in alloc; 0u32; total(ranges) as usize]?,
            others: Vec::new(alloc),
        })
    }

    /// Numbers one list more. False where an address that has a place stands in two lists. Errors
    /// are out of memory, also where there are more than 2^32 - 1 lists.
    pub(crate) fn add(&mut self, term: Bytes, addresses: &[u64]) -> Result<bool, NoMemory>
        requires { HasPlaces self.old }
        ensures { IfOk result (λ added. (ranges : List Range) (lists : List TermList) → AreNumbered ranges lists self.old
            → MatchBool added (AreNumbered ranges (with_list lists term addresses.now) self.new)
            (IsDistinct eqb (addresses_in (with_list lists term addresses.now)) → ⊥)) }
    {
        self.terms.push(term)?;
        let number = u32::try_from(self.terms.len()).map_err(|_| NoMemory)?;
        for address in addresses {
            if !self.put(*address, number)? {
                return Ok(false);
            }
        }
        Ok(true)
    }

    /// Numbers one address more, of the last list, which has that number. False where it has a
    /// place and stands in a list. The one error is out of memory.
    fn put(&mut self, address: u64, number: u32) -> Result<bool, NoMemory>
        requires { HasPlaces self.old }
        ensures places { OnOk result (HasPlaces self.new) }
        ensures put { IfOk result (λ put. (ranges : List Range) (lists : List TermList) (term addresses : List ℕ)
            → number ≡ length lists + 1 → AreNumbered ranges (with_list lists term addresses) self.old
            → MatchBool put (AreNumbered ranges (with_list lists term (addresses ++ address ∷ [])) self.new)
            (has (addresses_in (with_list lists term addresses)) address ≡ true)) }
    {
        match place_of(&self.ranges, address) {
            None => {
                self.others.push(address)?;
                Ok(true)
            }
            Some(place) if self.numbers[place as usize] == 0 => {
                self.numbers[place as usize] = number;
                Ok(true)
            }
            Some(_) => Ok(false),
        }
    }

    /// The index of the lists. None where an address stands in two of them that has no place.
    pub(crate) fn into_index(mut self) -> Option<PartIndex>
        ensures { (ranges : List Range) (lists : List TermList) → AreNumbered ranges lists self
            → MatchOption result (IsDistinct eqb (addresses_in lists) → ⊥)
            (λ index. AreIndexed ranges lists index × IsDistinct eqb (addresses_in lists)) }
    {
        self.others.sort_unstable();
        if !rise(&self.others) {
            return None;
        }
        Some(PartIndex {
            terms: self.terms,
            numbers: self.numbers,
        })
    }
}

/// Whether each number is above the one before it.
fn rise(numbers: &[u64]) -> bool
    ensures { MatchBool result (IsStrictlyIncreasing numbers.now) (IsStrictlyIncreasing numbers.now → ⊥) }
{
    numbers.is_sorted_by(|number, next| *number < *next)
}
