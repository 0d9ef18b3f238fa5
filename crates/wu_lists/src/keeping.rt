//! The blocks that are kept, and those that are read to be kept.
ghost use Rattle.std.specs.Prelude.{◌≡◌, ◌+◌, ℕ, List, [], ◌∷◌, true, false, IfOk, IfSome, MatchOption, OnErr, OnOk, Some};
ghost use Rattle.std.specs.List.{list_any};
ghost use Rattle.std.specs.Map.{keys_of};
ghost use Rattle.lru.specs.LruCache.{IsValid};
ghost use Rattle.wu_lists.specs.Ascending.{AscendBetween};
ghost use Rattle.wu_lists.specs.Asking.{AsksFor};
ghost use Rattle.wu_lists.specs.Blocks.{IsSpelling, bytes_of};
ghost use Rattle.wu_lists.specs.Keeping.{AreHeld, IsChecked, asked, is_same};

use crate::blocks::{Block, check, read_bytes};
use crate::lists::Lists;
use std::alloc::Global;
use std::mem;
use wu_base::{Bytes, NoMemory, Trouble};
use wu_outside::Store;

impl Lists {
    /// The addresses of the block, which is asked for.
    #[inline]
    pub(crate) fn addresses<D: Store>(
        &mut self,
        store: &mut D,
        block: &Block,
    ) -> Result<Vec<u64>, Trouble>
        ensures ascend { IfOk result (λ found. AscendBetween block.now.first (block.now.last + 1) found.items) }
        ensures told { IfOk result (λ found. IfSome (D.holds store.old) (λ content. (bytes : List ℕ)
            → content.blobs block.now.blob ≡ Some bytes → AreHeld block.now.blob bytes self.old
            → IsSpelling block.now found.items (bytes_of block.now bytes))) }
        ensures asks { AsksFor D.holds D.moments D.faults D.reads (block.now ∷ []) block.now
            self.old self.new store.old store.new result }
    {
        self.ask(store, block)?;
        let addresses = block.addresses(self.alloc, self.first_kept(block))?;
        Ok(addresses)
    }

    /// Asks for the block, which is read where it isn't kept. It is then the one that was asked for last.
    #[inline]
    pub(crate) fn ask<D: Store>(&mut self, store: &mut D, block: &Block) -> Result<(), Trouble>
        ensures { AsksFor D.holds D.moments D.faults D.reads (block.now ∷ []) block.now
            self.old self.new store.old store.new result }
    {
        if self.is_kept(block) {
            return Ok(());
        }
        self.load(store, block)
    }

    /// Whether the block is kept. It is then the one that was asked for last.
    #[inline]
    fn is_kept(&mut self, block: &Block) -> bool
        ensures kept { result ≡ list_any (is_same block.now) (keys_of self.old.entries) }
        ensures asked { result ≡ true → keys_of self.new.entries ≡ asked self.old.cap (keys_of self.old.entries) block.now }
        ensures absent { result ≡ false → self.new ≡ self.old }
        ensures capacity { self.new.cap ≡ self.old.cap }
        ensures held { (blob : ℕ) (bytes : List ℕ) → AreHeld blob bytes self.old → AreHeld blob bytes self.new }
    {
        self.is_valid();
        self.kept.promote(block)
    }

    /// The bytes of the block that was asked for last.
    #[inline]
    pub(crate) fn first_kept(&self, block: &Block) -> &[u8]
        requires { (older : List Block) × (keys_of self.now.entries ≡ asked self.now.cap older block.now) }
        ensures first { (later : List (Block × List ℕ)) × (self.now.entries ≡ (block.now, result.now) ∷ later) }
        ensures checked { IsChecked (block.now, result.now) }
    {
        self.is_valid();
        match self.kept.peek_mru() {
            Some((_, bytes)) => bytes.as_slice(),
            None => &[],
        }
    }

    /// A law: no block is kept twice, and not more than there may be.
    fn is_valid(&self)
        ensures { IsValid is_same self.now }
    {
        let _count = self.kept.len();
    }

    /// Reads, checks and keeps a block that isn't kept. After an error the same ones are kept as before.
    fn load<D: Store>(&mut self, store: &mut D, block: &Block) -> Result<(), Trouble>
        requires { list_any (is_same block.now) (keys_of self.old.entries) ≡ false }
        ensures asks { AsksFor D.holds D.moments D.faults D.reads (block.now ∷ []) block.now
            self.old self.new store.old store.new result }
        ensures err { OnErr result (self.new ≡ self.old) }
    {
        let room = self.take_room();
        let bytes = read_bytes(store, block, room)?;
        check(block, &bytes)?;
        self.keep(block, bytes)?;
        Ok(())
    }

    /// A vector to read a block to.
    #[inline]
    fn take_room(&mut self) -> Vec<u8>
        ensures { self.new ≡ self.old }
    {
        mem::replace(&mut self.room, Vec::new(self.alloc))
    }

    /// Keeps a block that isn't kept yet, of which these are the bytes.
    fn keep(&mut self, block: &Block, bytes: Vec<u8>) -> Result<(), NoMemory>
        requires absent { list_any (is_same block.now) (keys_of self.old.entries) ≡ false }
        requires checked { IsChecked (block.now, bytes.items) }
        ensures asked { OnOk result (keys_of self.new.entries ≡ asked self.old.cap (keys_of self.old.entries) block.now) }
        ensures capacity { OnOk result (self.new.cap ≡ self.old.cap) }
        ensures held { OnOk result ((blob : ℕ) (others : List ℕ) → (block.now.blob ≡ blob → bytes.items ≡ bytes_of block.now others)
            → AreHeld blob others self.old → AreHeld blob others self.new) }
        ensures err { OnErr result (self.new ≡ self.old) }
    {
        self.is_valid();
        let given_up = self.kept.push(*block, Bytes::from(bytes))?;
        self.room = room_of(self.alloc, given_up);
        Ok(())
    }
}

/// The vector of the block that was given up, if one was.
fn room_of(alloc: Global, given_up: Option<(Block, Bytes)>) -> Vec<u8>
    ensures { MatchOption given_up (result.items ≡ []) (λ entry. result.items ≡ entry.1) }
{
    match given_up {
        Some((_, bytes)) => bytes.into_vec(),
        None => Vec::new(alloc),
    }
}
