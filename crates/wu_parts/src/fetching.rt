//! The addresses of a term, in the parts and in memory, and their number.
ghost use Rattle.std.specs.Prelude.{◌≡◌, ◌+◌, ◌≤◌, ◌++◌, ℕ, List, true, All, filter, zip, IfOk, IfErr, IfSome, OnErr, OnOk};
ghost use Rattle.std.specs.List.{AllByRecursion, concat};
ghost use Rattle.std.specs.List.Sorted.{IsStrictlyIncreasing};
ghost use Rattle.wu_layout.specs.Layouts.{Part, stored_in as postings_in};
ghost use Rattle.wu_layout.specs.Postings.{fetched, is_live};
ghost use Rattle.wu_base.specs.Ranges.{AreApart};
ghost use Rattle.wu_parts.specs.Memory.{held};
ghost use Rattle.wu_lists.specs.Gaining.{Gains};
ghost use Rattle.wu_lists.specs.Tallying.{tally_of};
ghost use Rattle.wu_parts.specs.Causes.{IsAskCause};
ghost use Rattle.wu_parts.specs.Holdings.{AreKept, AsksFirstOfParts, AsksParts, HoldParts, HoldTerm};
ghost use Rattle.wu_parts.specs.StoredParts.{AreGatheredIn};

use crate::gathered::Gathered;
use crate::parts::Parts;
use crate::reading::walk_parts;
use wu_base::{ADDRESSES_MAX, NoMemory, Range, Sequence, Trouble};
use wu_lists::{AddressSink, Discard, GatheredBlocks, Tally};
use wu_outside::Store;

impl Parts {
    /// The addresses of the term in memory that lie in the frames, ascending. Frames and addresses are walked
    /// side by side by galloping: the number of steps is at most that of the frames, and at most that of the
    /// addresses. The only error is out of memory.
    pub fn fetch_memory(&self, term: &[u8], frames: &[Range]) -> Result<Sequence<u64>, NoMemory>
        requires apart { AreApart frames.now }
        requires bounded { All (λ frame. frame.start + frame.len ≤ ADDRESSES_MAX) frames.now }
        ensures addresses { IfOk result (λ found. found ≡ filter (is_live frames.now) (held self.now.memory term.now)) }
        ensures ascending { IfOk result IsStrictlyIncreasing }
    {
        self.memory.fetch(term, frames)
    }

    /// The addresses of the term that lie in the frames, ascending: those in the parts, from left to right, and
    /// then those in memory. The frames are apart, and each ends at or before 2^47. Of the parts only those blocks
    /// of the term are read that the frames need and that aren't kept, each in one read; they are kept then, and of
    /// all at most 1,024, those that were asked for last.
    ///
    /// Errors are out of memory; a fault of the store, only where it had one in this call; and a damaged part, of
    /// which a block was read: its blob isn't a part with the directory that is kept of it. It is absent, or ends before
    /// the block, or the block isn't one as the directory tells. After an error what was kept is kept, but for what was
    /// given up for the first of the blocks.
    pub fn fetch<D: Store>(
        &mut self,
        store: &mut D,
        term: &[u8],
        frames: &[Range],
    ) -> Result<Sequence<u64>, Trouble>
        requires apart { AreApart frames.now }
        requires bounded { All (λ frame. frame.start + frame.len ≤ ADDRESSES_MAX) frames.now }
        // Of each part the blob and the term's blocks are needed, as the directory tells of them; blocks of other terms may be
        // anything, but where they are kept, they must be what the blob has.
        ensures lists { IfOk result (λ found. IfSome (D.holds store.old) (λ content. (lists : List (List ℕ))
            → HoldTerm content term.now (zip self.old.parts self.old.directories) lists → AreKept content self.old.parts self.old.kept
            → found ≡ filter (is_live frames.now) (concat lists ++ held self.old.memory term.now))) }
        // Where the store has the whole parts, these are their postings'.
        ensures addresses { IfOk result (λ found. IfSome (D.holds store.old) (λ content. (parts : List Part)
            → HoldParts content self.old.parts self.old.directories parts → AreKept content self.old.parts self.old.kept
            → found ≡ fetched frames.now (postings_in parts) term.now ++ filter (is_live frames.now) (held self.old.memory term.now))) }
        ensures ascending { IfOk result IsStrictlyIncreasing }
        ensures live { IfOk result (λ found. AllByRecursion (λ address. is_live frames.now address ≡ true) found) }

        ensures blocks { OnOk result (AsksParts self.old term.now frames.now (D.holds store.old) self.new.kept
            (D.reads store.old) (D.reads store.new)) }
        ensures kept { OnErr result (AsksFirstOfParts self.old term.now frames.now (D.holds store.old) self.new.kept) }
        ensures others { self.new ≡ record self.old { kept = self.new.kept } }

        ensures holds { D.holds store.new ≡ D.holds store.old }
        ensures moments { D.moments store.new ≡ D.moments store.old }
        ensures calm { OnOk result (D.faults store.new ≡ D.faults store.old) }
        ensures cause { IfErr result (IsAskCause self.old term.now frames.now (D.holds store.old)
            (D.faults store.old) (D.faults store.new) (D.reads store.old) (D.reads store.new)) }
    {
        let mut found = Vec::new(self.alloc);
        self.walk(store, term, frames, &mut found)?;
        self.memory.fetch_into(term, frames, &mut found)?;
        Ok(Sequence::from(found))
    }

    /// The addresses of the term as [`Parts::fetch`] gives them, gathered: what is read and kept is the
    /// same, and they are decoded when they are asked for, where they are asked for.
    ///
    /// A part is damaged where [`Parts::fetch`] would find it so.
    pub fn gather<D: Store>(
        &mut self,
        store: &mut D,
        term: &[u8],
        frames: &[Range],
    ) -> Result<Gathered, Trouble>
        requires apart { AreApart frames.now }
        requires bounded { All (λ frame. frame.start + frame.len ≤ ADDRESSES_MAX) frames.now }
        ensures lists { IfOk result (λ gathered. IfSome (D.holds store.old) (λ content. (lists : List (List ℕ))
            → HoldTerm content term.now (zip self.old.parts self.old.directories) lists → AreKept content self.old.parts self.old.kept
            → filter (is_live frames.now) gathered
            ≡ filter (is_live frames.now) (concat lists ++ held self.old.memory term.now))) }
        ensures addresses { IfOk result (λ gathered. IfSome (D.holds store.old) (λ content. (parts : List Part)
            → HoldParts content self.old.parts self.old.directories parts → AreKept content self.old.parts self.old.kept
            → filter (is_live frames.now) gathered
            ≡ fetched frames.now (postings_in parts) term.now ++ filter (is_live frames.now) (held self.old.memory term.now))) }

        ensures blocks { OnOk result (AsksParts self.old term.now frames.now (D.holds store.old) self.new.kept
            (D.reads store.old) (D.reads store.new)) }
        ensures kept { OnErr result (AsksFirstOfParts self.old term.now frames.now (D.holds store.old) self.new.kept) }
        ensures others { self.new ≡ record self.old { kept = self.new.kept } }

        ensures holds { D.holds store.new ≡ D.holds store.old }
        ensures moments { D.moments store.new ≡ D.moments store.old }
        ensures calm { OnOk result (D.faults store.new ≡ D.faults store.old) }
        ensures cause { IfErr result (IsAskCause self.old term.now frames.now (D.holds store.old)
            (D.faults store.old) (D.faults store.new) (D.reads store.old) (D.reads store.new)) }
    {
        let mut blocks = GatheredBlocks::new(self.alloc);
        self.walk(store, term, frames, &mut blocks)?;
        let memory = self.memory.fetch(term, frames)?;
        Ok(Gathered { blocks, memory })
    }

    /// How many addresses [`Parts::fetch`] gives, and in how many of the frames one lies. Asks for the same blocks.
    /// Of the addresses in parts no list is made but a block's at a time; of those in memory one is, from the start
    /// of the first frame on.
    ///
    /// A part is damaged where [`Parts::fetch`] would find it so.
    pub fn tally<D: Store>(
        &mut self,
        store: &mut D,
        term: &[u8],
        frames: &[Range],
    ) -> Result<Tally, Trouble>
        requires apart { AreApart frames.now }
        requires bounded { All (λ frame. frame.start + frame.len ≤ ADDRESSES_MAX) frames.now }
        ensures lists { IfOk result (λ tally. IfSome (D.holds store.old) (λ content. (lists : List (List ℕ))
            → HoldTerm content term.now (zip self.old.parts self.old.directories) lists → AreKept content self.old.parts self.old.kept
            → tally ≡ tally_of frames.now (filter (is_live frames.now) (concat lists ++ held self.old.memory term.now)))) }
        ensures tally { IfOk result (λ tally. IfSome (D.holds store.old) (λ content. (parts : List Part)
            → HoldParts content self.old.parts self.old.directories parts → AreKept content self.old.parts self.old.kept
            → tally ≡ tally_of frames.now
            (fetched frames.now (postings_in parts) term.now ++ filter (is_live frames.now) (held self.old.memory term.now)))) }
        ensures counted { IfOk result (λ tally. (found : List ℕ) × IsStrictlyIncreasing found
            × AllByRecursion (λ address. is_live frames.now address ≡ true) found × (tally ≡ tally_of frames.now found)) }

        ensures blocks { OnOk result (AsksParts self.old term.now frames.now (D.holds store.old) self.new.kept
            (D.reads store.old) (D.reads store.new)) }
        ensures kept { OnErr result (AsksFirstOfParts self.old term.now frames.now (D.holds store.old) self.new.kept) }
        ensures others { self.new ≡ record self.old { kept = self.new.kept } }

        ensures holds { D.holds store.new ≡ D.holds store.old }
        ensures moments { D.moments store.new ≡ D.moments store.old }
        ensures calm { OnOk result (D.faults store.new ≡ D.faults store.old) }
        ensures cause { IfErr result (IsAskCause self.old term.now frames.now (D.holds store.old)
            (D.faults store.old) (D.faults store.new) (D.reads store.old) (D.reads store.new)) }
    {
        let mut tally = Tally::new();
        self.walk(store, term, frames, &mut tally)?;
        self.memory.tally_into(term, frames, &mut tally)?;
        Ok(tally)
    }

    /// Asks for the blocks of the term that the frames need in the parts, from left to right, as [`Parts::fetch`]
    /// does, and gives no addresses: for a caller who knows them and owes the reads. Memory isn't asked.
    ///
    /// A part is damaged where [`Parts::fetch`] would find it so.
    pub fn touch<D: Store>(
        &mut self,
        store: &mut D,
        term: &[u8],
        frames: &[Range],
    ) -> Result<(), Trouble>
        requires apart { AreApart frames.now }
        requires bounded { All (λ frame. frame.start + frame.len ≤ ADDRESSES_MAX) frames.now }
        ensures blocks { OnOk result (AsksParts self.old term.now frames.now (D.holds store.old) self.new.kept
            (D.reads store.old) (D.reads store.new)) }
        ensures kept { OnErr result (AsksFirstOfParts self.old term.now frames.now (D.holds store.old) self.new.kept) }
        ensures others { self.new ≡ record self.old { kept = self.new.kept } }

        ensures holds { D.holds store.new ≡ D.holds store.old }
        ensures moments { D.moments store.new ≡ D.moments store.old }
        ensures calm { OnOk result (D.faults store.new ≡ D.faults store.old) }
        ensures cause { IfErr result (IsAskCause self.old term.now frames.now (D.holds store.old)
            (D.faults store.old) (D.faults store.new) (D.reads store.old) (D.reads store.new)) }
    {
        self.walk(store, term, frames, &mut Discard)?;
        Ok(())
    }

    /// Asks for the blocks of the term that the frames need in the parts, from left to right. A sink that wants them
    /// gains the blocks' addresses.
    fn walk<D: Store, S: AddressSink>(
        &mut self,
        store: &mut D,
        term: &[u8],
        frames: &[Range],
        found: &mut S,
    ) -> Result<(), Trouble>
        requires apart { AreApart frames.now }
        requires bounded { All (λ frame. frame.start + frame.len ≤ ADDRESSES_MAX) frames.now }
        ensures addresses { OnOk result (S.wanted ≡ true → Gains (S.gained frames.now)
            (AreGatheredIn self.old term.now frames.now (D.holds store.old)) found.old found.new) }
        ensures blocks { OnOk result (AsksParts self.old term.now frames.now (D.holds store.old) self.new.kept
            (D.reads store.old) (D.reads store.new)) }
        ensures kept { OnErr result (AsksFirstOfParts self.old term.now frames.now (D.holds store.old) self.new.kept) }
        ensures others { self.new ≡ record self.old { kept = self.new.kept } }

        ensures holds { D.holds store.new ≡ D.holds store.old }
        ensures moments { D.moments store.new ≡ D.moments store.old }
        ensures calm { OnOk result (D.faults store.new ≡ D.faults store.old) }
        ensures cause { IfErr result (IsAskCause self.old term.now frames.now (D.holds store.old)
            (D.faults store.old) (D.faults store.new) (D.reads store.old) (D.reads store.new)) }
    {
        let parts = self.parts.as_slice();
        walk_parts(store, &mut self.lists, parts, term, frames, found)?;
        Ok(())
    }
}
