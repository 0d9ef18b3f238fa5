//! The numbers of a directory's head, as they are while the part's lists come.
ghost use Rattle.std.specs.Prelude.{◌≡◌, ◌||◌, ◌==◌, List, [], ◌∷◌, ◌++◌, ◌+◌, ◌≤◌, IfOk};
ghost use Rattle.wu_base.specs.declared.addresses.TermList.{TermList};
ghost use Rattle.wu_part.specs.Parts.{IsList};
ghost use Rattle.wu_part.specs.Totals.{AreTotals};
ghost use Rattle.wu_part.specs.Writing.{first_of};

use crate::writing::{first_address, last_address};
use wu_base::{NoMemory, TermList};

/// The lowest address that may come, the highest that came, how many addresses and how many lists came, and whether
/// one of the lists begins at the lowest address.
#[derive(Clone, Copy)]
pub(crate) struct Totals {
    pub(crate) low: u64,
    pub(crate) high: u64,
    pub(crate) stored: u64,
    pub(crate) count: u64,
    pub(crate) reached: bool,
}

impl Totals {
    /// The totals of no list.
    pub(crate) fn none(low: u64) -> Totals
        ensures low { result.low ≡ low }
        ensures totals { AreTotals [] result }
    {
        Totals {
            low,
            high: 0,
            stored: 0,
            count: 0,
            reached: false,
        }
    }

    /// The totals with those of one list more. Out of memory, where a number has no room.
    pub(crate) fn with(&self, list: &TermList) -> Result<Totals, NoMemory>
        requires list { IsList list.now }
        requires low { self.now.low ≤ first_of list.now.at }
        ensures low { IfOk result (λ totals. totals.low ≡ self.now.low) }
        ensures totals { IfOk result (λ totals. (lists : List TermList) → AreTotals lists self.now
            → AreTotals (lists ++ list.now ∷ []) totals) }
    {
        let stored = added(self.stored, list.at.len() as u64)?;
        let count = added(self.count, 1)?;
        Ok(Totals {
            low: self.low,
            high: self.high.max(last_address(list)),
            stored,
            count,
            reached: is_noted(self.reached, first_address(list), self.low),
        })
    }
}

/// The sum, where a number has room for it.
fn added(number: u64, more: u64) -> Result<u64, NoMemory>
    ensures { IfOk result (λ sum. sum ≡ number + more) }
{
    match number.checked_add(more) {
        Some(sum) => Ok(sum),
        None => Err(NoMemory),
    }
}

/// Whether it was noted before, or the address is the wanted one.
fn is_noted(before: bool, address: u64, wanted: u64) -> bool
    ensures { result ≡ (before || address == wanted) }
{
    before || address == wanted
}
