//! Building of parts, one term after another.
ghost use Rattle.std.specs.Prelude.{◌≡◌, ℕ, List, [], ◌∷◌, ◌++◌, ◌<◌, ◌≤◌, ◌==◌, true, eqb, length, map, IfOk, OnOk, OnErr};
ghost use Rattle.std.specs.List.{AllByRecursion, IsDistinct, flat_map, list_any};
ghost use Rattle.std.specs.List.Sorted.{IsStrictlySortedBy};
ghost use Rattle.std.specs.Cmp.Lexicographic.{slice_cmp};
ghost use Rattle.std.specs.Ordering.{nat_cmp};
ghost use Rattle.wu_base.specs.declared.limits.TheConstants.{GENERATION_MAX};
ghost use Rattle.wu_part.specs.Directories.{PartDirectory};
ghost use Rattle.wu_part.specs.Parts.{IsList, SpellsPart};
ghost use Rattle.wu_part.specs.Writing.{first_of};

use crate::headers::put_header;
use crate::histories::History;
use crate::lists::lists_in;
use crate::reading::Head;
use crate::totals::Totals;
use crate::writing::{lowest, move_to_end, put_head, put_list};
use std::alloc::Global;
use std::marker::Model;
use wu_base::{NoMemory, TermList};

/// A part that is being built, one term after another: each list is written as it comes. Contracts see the lowest
/// address that may come, and the lists that were added. After a list that there was no memory for, a builder answers
/// that it is out of memory. Its part is handed out once, since that takes the builder.
#[derive(Drop)]
pub struct Builder {
    alloc: Global,
    totals: Totals,
    /// Whether the bytes are those of the lists.
    whole: bool,
    entries: Vec<u8>,
    blocks: Vec<u8>,
    added: History,
}

impl Model for Builder {
    ghost use Rattle.wu_part.specs.Buildings.{Building};

    ghost Value = { Building };

    ghost use Rattle.wu_part.specs.Built.{building_of, IsBuilt};

    ghost view = { building_of };

    ghost invariant = { IsBuilt };
}

impl Builder {
    /// No list yet, where no address below `low` will come. Takes no memory.
    pub fn new(alloc: Global, low: u64) -> Builder
        ensures { result ≡ record { low = low; lists = [] } }
    {
        Builder {
            alloc,
            totals: Totals::none(low),
            whole: true,
            entries: Vec::new(alloc),
            blocks: Vec::new(alloc),
            added: History::new(),
        }
    }

    /// The same, with memory for `room` bytes of blocks: a part's blocks then come to lie in one piece, which the
    /// rest of the part is put to.
    pub fn with_room(alloc: Global, low: u64, room: usize) -> Result<Builder, NoMemory>
        ensures { IfOk result (λ builder. builder ≡ record { low = low; lists = [] }) }
    {
        let mut builder = Builder::new(alloc, low);
        builder.blocks.reserve(room)?;
        Ok(builder)
    }

    /// Whether no list was added.
    pub fn is_empty(&self) -> bool
        ensures { result ≡ (length self.now.lists == 0) }
    {
        self.totals.count == 0
    }

    /// Adds a list behind those that were added.
    pub fn add(&mut self, list: &TermList) -> Result<(), NoMemory>
        requires list { IsList list.now }
        requires low { self.old.low ≤ first_of list.now.at }
        ensures ok { OnOk result (self.new ≡ record self.old { lists = self.old.lists ++ list.now ∷ [] }) }
        ensures err { OnErr result (self.new ≡ self.old) }
    {
        if !self.whole {
            return Err(NoMemory);
        }
        let totals = self.totals.with(list)?;
        self.whole = false;
        put_list(&mut self.entries, &mut self.blocks, self.totals.low, list)?;
        self.totals = totals;
        self.added = History::with(&self.added, list);
        self.whole = true;
        Ok(())
    }

    /// The bytes of the part of the lists that were added, as `encode` gives them. The lists' terms ascend, and no address is
    /// that of two terms. Where no list begins at the lowest address that might have come, the lists are read back and
    /// written anew.
    pub fn finish(self, generation: u32) -> Result<Vec<u8>, NoMemory>
        requires some { 0 < length self.lists }
        requires ascending { IsStrictlySortedBy (slice_cmp nat_cmp) (map (λ list. list.term) self.lists) }
        requires distinct { IsDistinct eqb (flat_map (λ list. list.at) self.lists) }
        requires generation { generation ≤ GENERATION_MAX }
        ensures part { IfOk result (λ blob. (directory : PartDirectory) × (directory.generation ≡ generation)
            × SpellsPart directory self.lists blob.items) }
    {
        if self.totals.reached {
            Ok(self.close(generation)?)
        } else {
            let lists = self.read_back()?;
            Ok(encode(self.alloc, &lists, generation)?)
        }
    }

    /// The bytes of the part, where a list begins at the lowest address.
    fn close(self, generation: u32) -> Result<Vec<u8>, NoMemory>
        requires some { 0 < length self.lists }
        requires reached { list_any (λ list. first_of list.at == self.low) self.lists ≡ true }
        requires ascending { IsStrictlySortedBy (slice_cmp nat_cmp) (map (λ list. list.term) self.lists) }
        requires distinct { IsDistinct eqb (flat_map (λ list. list.at) self.lists) }
        requires generation { generation ≤ GENERATION_MAX }
        ensures part { IfOk result (λ blob. (directory : PartDirectory) × (directory.generation ≡ generation)
            × SpellsPart directory self.lists blob.items) }
    {
        if !self.whole {
            return Err(NoMemory);
        }
        let mut head = Vec::new(self.alloc);
        put_head(&mut head, generation, &self.totals)?;
        let mut blob = self.blocks;
        let blocks = blob.len();
        put_header(&mut blob, (head.len() + self.entries.len()) as u64)?;
        blob.extend_from_slice(&head)?;
        blob.extend_from_slice(&self.entries)?;
        move_to_end(&mut blob, blocks);
        Ok(blob)
    }

    /// The lists that were added, read back from their bytes.
    fn read_back(&self) -> Result<Vec<TermList>, NoMemory>
        ensures { IfOk result (λ lists. lists.items ≡ self.now.lists) }
    {
        if !self.whole {
            return Err(NoMemory);
        }
        let head = Head {
            generation: 0,
            low: self.totals.low,
            high: self.totals.high,
            stored: self.totals.stored,
            terms: self.totals.count,
        };
        Ok(lists_in(self.alloc, &head, &self.entries, &self.blocks)?)
    }
}

/// The bytes of the part of that generation, at most 62, of these terms and their addresses. There is one term at
/// least; the terms have 1 to 64 bytes and ascend in byte order; each has an address at least, its addresses ascend
/// and are below 2^47, and no address is that of two terms. The directory of the new part is had by reading the
/// bytes. The only error is out of memory.
pub fn encode(alloc: Global, lists: &[TermList], generation: u32) -> Result<Vec<u8>, NoMemory>
    requires some { 0 < length lists.now }
    requires lists { AllByRecursion IsList lists.now }
    requires ascending { IsStrictlySortedBy (slice_cmp nat_cmp) (map (λ list. list.term) lists.now) }
    requires distinct { IsDistinct eqb (flat_map (λ list. list.at) lists.now) }
    requires generation { generation ≤ GENERATION_MAX }
    ensures { IfOk result (λ blob. (directory : PartDirectory) × (directory.generation ≡ generation)
        × SpellsPart directory lists.now blob.items) }
{
    let mut builder = Builder::with_room(alloc, lowest(lists), 0)?;
    for list in lists {
        builder.add(list)?;
    }
    Ok(builder.close(generation)?)
}
