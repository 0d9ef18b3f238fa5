//! The blocks of a term that frames need, one after another.
ghost use Rattle.std.specs.Prelude.{◌≡◌, ◌+◌, ◌-◌, ◌^◌, ◌<◌, ◌≤◌, ℕ, List, [], ◌∷◌, All, filter, true, false, IfErr, IfSome, OnErr, OnOk};
ghost use Rattle.std.specs.List.{AllByRecursion};
ghost use Rattle.std.specs.Map.{keys_of};
ghost use Rattle.wu_base.specs.declared.addresses.Range.{Range};
ghost use Rattle.wu_base.specs.declared.limits.TheConstants.{ADDRESSES_MAX};
ghost use Rattle.wu_base.specs.Ranges.{AreApart};
ghost use Rattle.wu_part.specs.Directories.{AreBlocks};
ghost use Rattle.wu_lists.specs.Ascending.{AreInOrder};
ghost use Rattle.wu_lists.specs.Asking.{AsksFor};
ghost use Rattle.wu_lists.specs.Blocks.{IsSpelledIn, blocks_from, meets, needed};
ghost use Rattle.wu_lists.specs.Causes.{IsCause, IsTermCause};
ghost use Rattle.wu_lists.specs.Fetching.{AreGathered, HasBlock, HasBlocks, HasTerm};
ghost use Rattle.wu_lists.specs.Gaining.{Gains, is_inside_first};
ghost use Rattle.wu_lists.specs.Keeping.{Asks, AsksFirst, all_missing};

use crate::blocks::Block;
use crate::frames::{frames_from, is_inside_first, is_needed};
use crate::lists::Lists;
use crate::sinks::AddressSink;
use wu_base::{Range, Trouble};
use wu_outside::Store;
use wu_part::{Directory, Entry};

impl Lists {
    /// Asks for the blocks of the term that the frames need, as [`Lists::fetch`] does. A sink that wants them gains the
    /// blocks' addresses; after an error it has gained some, or none.
    ///
    /// The blob is damaged where [`Lists::fetch`] would find it so.
    pub fn walk<D: Store, S: AddressSink>(
        &mut self,
        store: &mut D,
        blob: u64,
        dir: &Directory,
        term: &[u8],
        frames: &[Range],
        found: &mut S,
    ) -> Result<(), Trouble>
        requires apart { AreApart frames.now }
        requires bounded { All (λ frame. frame.start + frame.len ≤ ADDRESSES_MAX) frames.now }
        ensures addresses { OnOk result (S.wanted ≡ true → Gains (S.gained frames.now) (AreGathered (HasTerm dir.now term.now)
            frames.now blob dir.now.low (dir.now.high + 1) (D.holds store.old) self.old) found.old found.new) }
        ensures some { OnErr result (S.wanted ≡ true
            → (more : List ℕ) × S.gained frames.now more found.old found.new) }
        ensures blocks { OnOk result (Asks (needed blob dir.now term.now frames.now) (D.holds store.old) self.old self.new
            (D.reads store.old) (D.reads store.new)) }
        ensures kept { OnErr result (AsksFirst (needed blob dir.now term.now frames.now) (D.holds store.old) self.old self.new) }
        ensures holds { D.holds store.new ≡ D.holds store.old }
        ensures moments { D.moments store.new ≡ D.moments store.old }
        ensures calm { OnOk result (D.faults store.new ≡ D.faults store.old) }
        ensures cause { IfErr result (IsTermCause self.old blob dir.now term.now frames.now (D.holds store.old)
            (D.faults store.old) (D.faults store.new) (D.reads store.old) (D.reads store.new)) }
    {
        dir.is_spelled();
        match dir.entry_of(term) {
            Some(entry) => {
                self.walk_blocks(store, blob, dir, entry, frames, found)?;
                Ok(())
            }
            None => Ok(()),
        }
    }

    /// The same of the entry's blocks.
    fn walk_blocks<D: Store, S: AddressSink>(
        &mut self,
        store: &mut D,
        blob: u64,
        dir: &Directory,
        mut entry: Entry,
        frames: &[Range],
        found: &mut S,
    ) -> Result<(), Trouble>
        requires order { AreInOrder 0 (2 ^ 64 - 1) frames.now }
        requires cut { AreBlocks dir.now.low dir.now.high entry.count entry.blocks }
        requires bounded { dir.now.high < ADDRESSES_MAX }
        requires span { dir.now.low ≤ dir.now.high }
        ensures addresses { OnOk result (S.wanted ≡ true → Gains (S.gained frames.now)
            (AreGathered (HasBlocks dir.now.low entry.entry.count entry.entry.blocks)
            frames.now blob dir.now.low (dir.now.high + 1) (D.holds store.old) self.old) found.old found.new) }
        ensures some { OnErr result (S.wanted ≡ true
            → (more : List ℕ) × S.gained frames.now more found.old found.new) }
        ensures blocks { OnOk result (Asks
            (filter (meets frames.now) (blocks_from blob dir.now.low entry.entry.count entry.entry.blocks))
            (D.holds store.old) self.old self.new (D.reads store.old) (D.reads store.new)) }
        ensures kept { OnErr result (AsksFirst
            (filter (meets frames.now) (blocks_from blob dir.now.low entry.entry.count entry.entry.blocks))
            (D.holds store.old) self.old self.new) }
        ensures holds { D.holds store.new ≡ D.holds store.old }
        ensures moments { D.moments store.new ≡ D.moments store.old }
        ensures calm { OnOk result (D.faults store.new ≡ D.faults store.old) }
        ensures cause { IfErr result (IsCause
            (all_missing self.old.cap (keys_of self.old.entries)
            (filter (meets frames.now) (blocks_from blob dir.now.low entry.entry.count entry.entry.blocks))) blob
            (IfSome (D.holds store.old) (λ content.
            AllByRecursion (IsSpelledIn content) (blocks_from blob dir.now.low entry.entry.count entry.entry.blocks) → ⊥))
            (D.faults store.old) (D.faults store.new) (D.reads store.old) (D.reads store.new)) }
    {
        let mut left = frames;
        while let Some((block, count)) = entry.next_block() {
            left = frames_from(left, block.first);
            let block = Block {
                blob,
                low: dir.low(),
                count,
                first: block.first,
                last: block.last,
                at: block.at,
                len: block.len,
            };
            self.visit(store, &block, left, found)?;
        }
        Ok(())
    }

    /// Asks for the block if a frame overlaps with it. A sink that wants them then gains its addresses, and none after an
    /// error.
    #[inline]
    fn visit<D: Store, S: AddressSink>(
        &mut self,
        store: &mut D,
        block: &Block,
        frames: &[Range],
        found: &mut S,
    ) -> Result<(), Trouble>
        requires order { AreInOrder 0 (2 ^ 64 - 1) frames.now }
        requires after { AllByRecursion (λ frame. block.now.first < frame.start + frame.len) frames.now }
        requires span { block.now.first ≤ block.now.last }
        requires bounded { block.now.last < ADDRESSES_MAX }
        ensures addresses { OnOk result (S.wanted ≡ true → Gains (S.gained frames.now) (AreGathered (HasBlock block.now) frames.now
            block.now.blob block.now.first (block.now.last + 1) (D.holds store.old) self.old) found.old found.new) }
        ensures none { OnErr result (S.gained frames.now [] found.old found.new) }
        ensures asks { AsksFor D.holds D.moments D.faults D.reads (filter (meets frames.now) (block.now ∷ [])) block.now
            self.old self.new store.old store.new result }
    {
        if !is_needed(block, frames) {
            return Ok(());
        }
        self.pass_on(store, block, frames, found)
    }

    /// Asks for the block. A sink that wants them then gains its addresses, and none after an error.
    #[inline]
    fn pass_on<D: Store, S: AddressSink>(
        &mut self,
        store: &mut D,
        block: &Block,
        frames: &[Range],
        found: &mut S,
    ) -> Result<(), Trouble>
        requires order { AreInOrder 0 (2 ^ 64 - 1) frames.now }
        requires bounded { block.now.last < ADDRESSES_MAX }
        ensures addresses { OnOk result (S.wanted ≡ true → Gains (S.gained frames.now) (AreGathered (HasBlock block.now) frames.now
            block.now.blob block.now.first (block.now.last + 1) (D.holds store.old) self.old) found.old found.new) }
        ensures none { OnErr result (S.gained frames.now [] found.old found.new) }
        ensures asks { AsksFor D.holds D.moments D.faults D.reads (block.now ∷ []) block.now
            self.old self.new store.old store.new result }
    {
        if !found.wants() {
            self.ask(store, block)
        } else if found.copies() {
            self.copy_block(store, block, found)
        } else if found.counts() && is_inside_first(block, frames) {
            self.count_block(store, block, frames, found)
        } else {
            self.put_block(store, block, frames, found)
        }
    }

    /// The sink gains the addresses of the block, and none after an error.
    #[inline]
    fn put_block<D: Store, S: AddressSink>(
        &mut self,
        store: &mut D,
        block: &Block,
        frames: &[Range],
        found: &mut S,
    ) -> Result<(), Trouble>
        requires given { S.copied ≡ false }
        requires order { AreInOrder 0 (2 ^ 64 - 1) frames.now }
        requires bounded { block.now.last < ADDRESSES_MAX }
        ensures addresses { OnOk result (Gains (S.gained frames.now) (AreGathered (HasBlock block.now) frames.now block.now.blob
            block.now.first (block.now.last + 1) (D.holds store.old) self.old) found.old found.new) }
        ensures none { OnErr result (S.gained frames.now [] found.old found.new) }
        ensures asks { AsksFor D.holds D.moments D.faults D.reads (block.now ∷ []) block.now
            self.old self.new store.old store.new result }
    {
        let addresses = self.addresses(store, block)?;
        found.gain(&addresses, frames)?;
        Ok(())
    }

    /// The same for a sink that is given the bytes: those of a block that was asked for are kept.
    #[inline]
    fn copy_block<D: Store, S: AddressSink>(
        &mut self,
        store: &mut D,
        block: &Block,
        found: &mut S,
    ) -> Result<(), Trouble>
        requires { S.copied ≡ true }
        ensures addresses { OnOk result ((frames : List Range) → Gains (S.gained frames) (AreGathered (HasBlock block.now) frames
            block.now.blob block.now.first (block.now.last + 1) (D.holds store.old) self.old) found.old found.new) }
        ensures none { OnErr result ((frames : List Range) → S.gained frames [] found.old found.new) }
        ensures asks { AsksFor D.holds D.moments D.faults D.reads (block.now ∷ []) block.now
            self.old self.new store.old store.new result }
    {
        self.ask(store, block)?;
        found.gain_bytes(block, self.first_kept(block))?;
        Ok(())
    }

    /// The same for a sink that counts, of a block that lies in the first of the frames. It isn't
    /// decoded: it was checked when it was read, so its addresses are as many as the directory tells,
    /// and lie between those that it tells.
    #[inline]
    fn count_block<D: Store, S: AddressSink>(
        &mut self,
        store: &mut D,
        block: &Block,
        frames: &[Range],
        found: &mut S,
    ) -> Result<(), Trouble>
        requires counted { S.counted ≡ true }
        requires order { AreInOrder 0 (2 ^ 64 - 1) frames.now }
        requires inside { is_inside_first frames.now block.now ≡ true }
        ensures addresses { OnOk result (Gains (S.gained frames.now) (AreGathered (HasBlock block.now) frames.now block.now.blob
            block.now.first (block.now.last + 1) (D.holds store.old) self.old) found.old found.new) }
        ensures none { OnErr result (S.gained frames.now [] found.old found.new) }
        ensures asks { AsksFor D.holds D.moments D.faults D.reads (block.now ∷ []) block.now
            self.old self.new store.old store.new result }
    {
        self.ask(store, block)?;
        // The bytes are called for only since that tells that they are the block's spelling.
        let _bytes = self.first_kept(block);
        found.gain_whole(block, frames);
        Ok(())
    }
}
