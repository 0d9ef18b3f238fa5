//! The entry of a term, whose blocks are gone through one after another.
ghost use Rattle.std.specs.Prelude.{◌≡◌, [], ◌∷◌, ◌-◌, MatchOption, min};
ghost use Rattle.wu_vbyte.specs.declared.blocks.TheConstants.{BLOCK_LEN};

use crate::entries::{BlockEntry, first_count};
use crate::entry_reading::three_numbers;
use std::marker::Model;

/// The entry of a term, and how far its blocks have been gone through: contracts see the entry of
/// the blocks that are left and the addresses in them.
#[derive(Drop)]
pub struct Entry<'a> {
    pub(crate) term: &'a [u8],
    pub(crate) count: u64,
    pub(crate) low: u64,
    pub(crate) bytes: &'a [u8],
    pub(crate) place: u64,
}

impl<'a> Model for Entry<'a> {
    ghost use Rattle.wu_part.specs.declared.entries.TermEntry.{TermEntry};

    ghost Value = { TermEntry };

    ghost use Rattle.wu_part.specs.Cursors.{entry_left, HoldsBlocksLeft};

    ghost view = { entry_left };

    ghost invariant = { HoldsBlocksLeft };
}

impl<'a> Entry<'a> {
    /// The term.
    pub fn term(&self) -> &'a [u8]
        ensures { result.now ≡ self.now.term }
    {
        self.term
    }

    /// How many addresses there are in the blocks that are left.
    pub fn count(&self) -> u64
        ensures { result ≡ self.now.count }
    {
        self.count
    }

    /// The next block, and how many addresses it has, which are `BLOCK_LEN` but for the last block.
    /// `None` exactly where no block is left.
    #[inline]
    pub fn next_block(&mut self) -> Option<(BlockEntry, usize)>
        ensures { MatchOption result ((self.old.blocks ≡ []) × (self.new ≡ self.old))
            (λ next. (self.old.blocks ≡ next.0 ∷ self.new.blocks) × (next.1 ≡ min self.old.count BLOCK_LEN)
            × (self.new.count ≡ self.old.count - BLOCK_LEN) × (self.new.term ≡ self.old.term)) }
    {
        if self.count == 0 {
            return None;
        }
        let Some((above, span, len, rest)) = three_numbers(self.bytes) else {
            return None;
        };
        let block = BlockEntry {
            first: self.low + above,
            last: self.low + above + span,
            at: self.place,
            len,
        };
        let count = first_count(self.count);
        self.bytes = rest;
        self.place += len;
        self.count -= count;
        Some((block, count as usize))
    }
}
