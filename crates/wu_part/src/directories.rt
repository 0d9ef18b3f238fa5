//! The directory of a part, as it was read.
ghost use Rattle.std.specs.Prelude.{◌≡◌, ℕ, List, Contains, IfOk, MatchOption, filter, get_or, length, ◌<◌, ◌≤◌};
ghost use Rattle.wu_part.specs.Directories.{PartDirectory, SpellsDirectory};
ghost use Rattle.wu_part.specs.declared.entries.TermEntry.{TermEntry};
ghost use Rattle.wu_part.specs.Marks.{mark_of};
ghost use Rattle.wu_part.specs.Searches.{is_from};

use crate::cursors::Entry;
use crate::entry_bytes::EntryBytes;
use crate::marks::{Mark, mark_before, mark_up_to};
use crate::reading::Head;
use crate::walks::{Terms, entries_since, entry_after, entry_among, terms_from};
use std::alloc::Global;
use std::marker::Model;
use wu_base::NoMemory;

/// The directory of a part: its generation, its lowest and highest address, how many addresses it
/// has, its size in bytes, and the entries of its terms, ascending. Each directory is one that some
/// bytes spell, so all that has to hold of a directory holds of it.
///
/// It keeps the bytes of its entries, and marks in them: a term is found by a search among the marks and
/// a short walk.
#[derive(Drop)]
pub struct Directory {
    pub(crate) head: Head,
    pub(crate) size: u64,
    pub(crate) place: u64,
    pub(crate) bytes: EntryBytes,
    pub(crate) marks: Vec<Mark>,
}

impl Model for Directory {
    ghost use Rattle.wu_part.specs.Directories.{PartDirectory};

    ghost Value = { PartDirectory };

    ghost use Rattle.wu_part.specs.Views.{directory_of, IsKept};

    ghost view = { directory_of };

    ghost invariant = { IsKept };
}

impl Directory {
    /// The part's generation, at most 62.
    pub fn generation(&self) -> u32
        ensures { result ≡ self.now.generation }
    {
        self.head.generation
    }

    /// The part's lowest address.
    pub fn low(&self) -> u64
        ensures { result ≡ self.now.low }
    {
        self.head.low
    }

    /// The part's highest address.
    pub fn high(&self) -> u64
        ensures { result ≡ self.now.high }
    {
        self.head.high
    }

    /// How many addresses the part has.
    pub fn stored(&self) -> u64
        ensures { result ≡ self.now.stored }
    {
        self.head.stored
    }

    /// How many bytes the part has.
    pub fn size(&self) -> u64
        ensures { result ≡ self.now.size }
    {
        self.size
    }

    /// How many terms the part has.
    pub fn term_count(&self) -> usize
        ensures { result ≡ length self.now.terms }
    {
        self.head.terms as usize
    }

    /// The entry of the term at this place of the directory, counted from 0. `None` exactly where
    /// there are no more than so many terms.
    pub fn term_at(&self, place: usize) -> Option<Entry<'_>>
        ensures { MatchOption result (length self.now.terms ≤ place) (λ entry. (place < length self.now.terms) ×
            (entry ≡ get_or self.now.terms place entry)) }
    {
        let mark = mark_up_to(&self.marks, first_mark(self.place), place as u64);
        let terms = terms_from(&self.head, self.size, self.bytes.as_slice(), mark);
        entry_after(terms, place as u64 - mark.number)
    }

    /// The entries of all terms, in order. Each takes a time that doesn't depend on the number of terms.
    pub fn terms(&self) -> Terms<'_>
        ensures { result ≡ self.now.terms }
    {
        let first = first_mark(self.place);
        terms_from(&self.head, self.size, self.bytes.as_slice(), first)
    }

    /// The entry of the term. `None` exactly where the part has no such term. Takes time logarithmic
    /// in the number of terms.
    pub fn entry_of(&self, term: &[u8]) -> Option<Entry<'_>>
        ensures { MatchOption result ((entry : TermEntry) → Contains self.now.terms entry → entry.term ≡ term.now → ⊥)
            (λ entry. Contains self.now.terms entry × (entry.term ≡ term.now)) }
    {
        let bytes = self.bytes.as_slice();
        let mark = mark_before(bytes, &self.marks, first_mark(self.place), term);
        entry_among(terms_from(&self.head, self.size, bytes, mark), term)
    }

    /// The entries of the terms from this one on, in order: of all those that don't stand before it. The first
    /// is found in a time logarithmic in the number of terms, and each entry then takes a time that doesn't
    /// depend on that number.
    pub fn terms_from(&self, term: &[u8]) -> Terms<'_>
        ensures { result ≡ filter (is_from term.now) self.now.terms }
    {
        let bytes = self.bytes.as_slice();
        let mark = mark_before(bytes, &self.marks, first_mark(self.place), term);
        entries_since(terms_from(&self.head, self.size, bytes, mark), term)
    }

    /// A copy of the directory.
    pub fn copy(&self, alloc: Global) -> Result<Directory, NoMemory>
        ensures { IfOk result (λ copy. copy ≡ self.now) }
    {
        Ok(Directory {
            head: self.head,
            size: self.size,
            place: self.place,
            bytes: EntryBytes::new(Vec::from_slice(alloc, self.bytes.as_slice())?, 0),
            marks: Vec::from_slice(alloc, &self.marks)?,
        })
    }

    /// A law: what has to hold of a directory holds of this one.
    pub fn is_spelled(&self)
        ensures { (code : List ℕ) × SpellsDirectory self.now code }
    {
        let _ = &self.size;
    }
}

/// The mark of the first entry, whose blocks begin at the place.
fn first_mark(place: u64) -> Mark
    ensures { result ≡ mark_of 0 0 place }
{
    Mark {
        number: 0,
        offset: 0,
        place,
    }
}
