//! What addresses are gained for.
ghost use Rattle.std.specs.Prelude.{◌≡◌, ◌-◌, ◌≤◌, ◌^◌, ◌++◌, ℕ, Bool, true, false, List, [], filter, OnErr, OnOk, refl};
ghost use Rattle.std.specs.List.{AllByRecursion};
ghost use Rattle.std.proofs.Common.{ap, sym, ◌∙◌, append-nil, append_assoc};
ghost use Rattle.std.proofs.lemmas.List.Elements.{filter-append};
ghost use Rattle.wu_base.specs.declared.addresses.Range.{Range};
ghost use Rattle.wu_lists.specs.declared.tallies.Tally.{Tally};
ghost use Rattle.wu_layout.specs.Postings.{is_live};
ghost use Rattle.wu_lists.specs.Ascending.{AscendBetween, AreInOrder};
ghost use Rattle.wu_lists.specs.Blocks.{IsSpelling};
ghost use Rattle.wu_lists.specs.Gaining.{LiveAlike, OpenAlike, filter-alike, from-filter, is_inside_first};
ghost use Rattle.wu_lists.specs.Gaining.{tally_on, tally_on-append, tally_on-alike};

use crate::blocks::Block;
use crate::frames::{count_within, put_within};
use crate::gathering::GatheredBlocks;
use crate::tallies::Tally;
use wu_base::{NoMemory, Range};

/// What gains addresses of blocks that frames need.
pub trait AddressSink {
    /// Whether it does. Else the blocks are asked for alone.
    ghost wanted: { Bool };

    /// Whether it is given the bytes that spell them. Else it is given the addresses.
    ghost copied: { Bool };

    /// Whether it counts them. Then of a block that lies in one frame it is given what the directory tells.
    ghost counted: { Bool };

    /// These addresses of blocks were gained, with those outside the frames.
    ghost gained: { List Range → List ℕ → Self → Self → Type 0 };

    fn wants(&self) -> bool
        ensures { result ≡ wanted };

    fn copies(&self) -> bool
        ensures { result ≡ copied };

    fn counts(&self) -> bool
        ensures { result ≡ counted };

    /// Gains a block's addresses, if it is given addresses. Out of memory, none is gained.
    fn gain(&mut self, addresses: &[u64], frames: &[Range]) -> Result<(), NoMemory>
        requires ascend { AscendBetween 0 (2 ^ 64 - 1) addresses.now }
        requires order { AreInOrder 0 (2 ^ 64 - 1) frames.now }
        ensures ok { OnOk result (copied ≡ false → gained frames.now addresses.now self.old self.new) }
        ensures err { OnErr result (gained frames.now [] self.old self.new) };

    /// Gains the addresses of the block, which the bytes spell, if it is given bytes. Out of memory, none is gained.
    fn gain_bytes(&mut self, block: &Block, bytes: &[u8]) -> Result<(), NoMemory>
        requires spelled { (addresses : List ℕ) × IsSpelling block.now addresses bytes.now }
        ensures ok { OnOk result (copied ≡ true → (frames : List Range) (addresses : List ℕ)
            → IsSpelling block.now addresses bytes.now → gained frames addresses self.old self.new) }
        ensures err { OnErr result ((frames : List Range) → gained frames [] self.old self.new) };

    /// Gains the addresses of the block, which lie in the first of the frames, if it counts. Takes no memory.
    fn gain_whole(&mut self, block: &Block, frames: &[Range])
        requires order { AreInOrder 0 (2 ^ 64 - 1) frames.now }
        requires inside { is_inside_first frames.now block.now ≡ true }
        ensures { counted ≡ true → (addresses bytes : List ℕ) → IsSpelling block.now addresses bytes
            → gained frames.now addresses self.old self.new };

    ghost none: { (frames : List Range) (sink : Self) → gained frames [] sink sink };

    ghost joins: { (frames : List Range) (xs ys : List ℕ) (first next last : Self) → gained frames xs first next
        → gained frames ys next last → gained frames (xs ++ ys) first last };

    ghost nearer: { (left frames : List Range) (low : ℕ) (xs : List ℕ) (before after : Self) → LiveAlike low left frames
        → OpenAlike low left frames → AllByRecursion (λ x. low ≤ x) xs → gained left xs before after → gained frames xs before after };
}

/// Puts those that lie in the frames at the end.
impl AddressSink for Vec<u64> {
    ghost wanted = { true };

    ghost copied = { false };

    ghost counted = { false };

    ghost gained = { λ frames more before after. after.items ≡ before.items ++ filter (is_live frames) more };

    fn wants(&self) -> bool {
        true
    }

    fn copies(&self) -> bool {
        false
    }

    fn counts(&self) -> bool {
        false
    }

    fn gain(&mut self, addresses: &[u64], frames: &[Range]) -> Result<(), NoMemory> {
        put_within(self, addresses, frames)
    }

    fn gain_bytes(&mut self, _block: &Block, _bytes: &[u8]) -> Result<(), NoMemory> {
        Ok(())
    }

    fn gain_whole(&mut self, _block: &Block, _frames: &[Range]) {}

    ghost none = { λ _ found. sym (append-nil found.items) };

    ghost joins = { λ frames xs ys first next last a b.
        b ∙ ap (λ (l : List ℕ). l ++ filter (is_live frames) ys) a
        ∙ append_assoc first.items (filter (is_live frames) xs) (filter (is_live frames) ys)
        ∙ ap (λ (l : List ℕ). first.items ++ l) (sym (filter-append (is_live frames) xs ys)) };

    ghost nearer = { λ left frames low xs before after live _ from a.
        a ∙ ap (λ (l : List ℕ). before.items ++ l) (filter-alike (is_live left) (is_live frames) low xs live from) };
}

/// Counts those that lie in the frames.
impl AddressSink for Tally {
    ghost wanted = { true };

    ghost copied = { false };

    ghost counted = { true };

    ghost gained = { λ frames more before after. after ≡ tally_on frames before (filter (is_live frames) more) };

    fn wants(&self) -> bool {
        true
    }

    fn copies(&self) -> bool {
        false
    }

    fn counts(&self) -> bool {
        true
    }

    fn gain(&mut self, addresses: &[u64], frames: &[Range]) -> Result<(), NoMemory> {
        count_within(self, addresses, frames);
        Ok(())
    }

    fn gain_bytes(&mut self, _block: &Block, _bytes: &[u8]) -> Result<(), NoMemory> {
        Ok(())
    }

    fn gain_whole(&mut self, block: &Block, frames: &[Range]) {
        self.count_to(frames[0].start, block.count, block.last);
    }

    ghost none = { λ _ _. refl };

    ghost joins = { λ frames xs ys first next last a b.
        b ∙ ap (λ (t : Tally). tally_on frames t (filter (is_live frames) ys)) a
        ∙ sym (tally_on-append frames first (filter (is_live frames) xs) (filter (is_live frames) ys))
        ∙ ap (λ (l : List ℕ). tally_on frames first l) (sym (filter-append (is_live frames) xs ys)) };

    ghost nearer = { λ left frames low xs before after live alike from a.
        a ∙ ap (λ (l : List ℕ). tally_on left before l) (filter-alike (is_live left) (is_live frames) low xs live from)
        ∙ tally_on-alike left frames low alike before (filter (is_live frames) xs) (from-filter (is_live frames) low xs from) };
}

/// Copies the bytes that spell them.
impl AddressSink for GatheredBlocks {
    ghost wanted = { true };

    ghost copied = { true };

    ghost counted = { false };

    ghost gained = { λ _ more before after. after ≡ before ++ more };

    fn wants(&self) -> bool {
        true
    }

    fn copies(&self) -> bool {
        true
    }

    fn counts(&self) -> bool {
        false
    }

    fn gain(&mut self, _addresses: &[u64], _frames: &[Range]) -> Result<(), NoMemory> {
        Ok(())
    }

    fn gain_bytes(&mut self, block: &Block, bytes: &[u8]) -> Result<(), NoMemory> {
        self.push(block, bytes)
    }

    fn gain_whole(&mut self, _block: &Block, _frames: &[Range]) {}

    ghost none = { λ _ blocks. sym (append-nil blocks) };

    ghost joins = { λ _ xs ys first next last a b.
        b ∙ ap (λ (l : List ℕ). l ++ ys) a ∙ append_assoc first xs ys };

    ghost nearer = { λ _ _ _ _ _ _ _ _ _ a. a };
}

/// Wants none.
#[derive(Clone, Copy)]
pub struct Discard;

impl AddressSink for Discard {
    ghost wanted = { false };

    ghost copied = { false };

    ghost counted = { false };

    ghost gained = { λ _ _ before after. after ≡ before };

    fn wants(&self) -> bool {
        false
    }

    fn copies(&self) -> bool {
        false
    }

    fn counts(&self) -> bool {
        false
    }

    fn gain(&mut self, _addresses: &[u64], _frames: &[Range]) -> Result<(), NoMemory> {
        Ok(())
    }

    fn gain_bytes(&mut self, _block: &Block, _bytes: &[u8]) -> Result<(), NoMemory> {
        Ok(())
    }

    fn gain_whole(&mut self, _block: &Block, _frames: &[Range]) {}

    ghost none = { λ _ _. refl };

    ghost joins = { λ _ _ _ _ _ _ a b. b ∙ a };

    ghost nearer = { λ _ _ _ _ _ _ _ _ _ a. a };
}
