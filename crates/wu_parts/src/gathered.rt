//! The addresses of a term, gathered and not yet decoded.
ghost use Rattle.std.specs.Prelude.{◌≡◌, ◌+◌, ◌-◌, ◌^◌, ◌≤◌, All, filter, length, min, IfOk};
ghost use Rattle.std.specs.List.Sorted.{IsStrictlyIncreasing};
ghost use Rattle.wu_layout.specs.Postings.{is_live};
ghost use Rattle.wu_base.specs.Ranges.{AreApart};

use std::alloc::Global;
use std::marker::Model;
use wu_base::{ADDRESSES_MAX, NoMemory, Range, Sequence};
use wu_lists::{GatheredBlocks, put_within};

/// The addresses of a term, gathered and not yet decoded: those of parts, as their blocks, and then those in memory.
/// Contracts see them.
#[derive(Drop)]
pub struct Gathered {
    pub(crate) blocks: GatheredBlocks,
    pub(crate) memory: Sequence<u64>,
}

impl Model for Gathered {
    ghost use Rattle.std.specs.Prelude.{List, ℕ, ◌++◌, ◌-◌, ◌^◌};
    ghost use Rattle.wu_lists.specs.Ascending.{AscendBetween};

    ghost Value = { List ℕ };

    ghost view = { λ g. g.blocks ++ g.memory };

    ghost invariant = { λ g. AscendBetween 0 (2 ^ 64 - 1) (g.blocks ++ g.memory) };
}

impl Gathered {
    /// How many addresses there are, or `u64::MAX` where that is less.
    pub fn count(&self) -> u64
        ensures { result ≡ min (length self.now) (2 ^ 64 - 1) }
    {
        self.blocks.count().saturating_add(self.memory.len() as u64)
    }

    /// Those that lie in the frames, ascending. Only what holds an address of a frame is decoded. The only
    /// error is out of memory.
    pub fn within(&self, alloc: Global, frames: &[Range]) -> Result<Sequence<u64>, NoMemory>
        requires apart { AreApart frames.now }
        requires bounded { All (λ frame. frame.start + frame.len ≤ ADDRESSES_MAX) frames.now }
        ensures addresses { IfOk result (λ found. found ≡ filter (is_live frames.now) self.now) }
        ensures ascending { IfOk result IsStrictlyIncreasing }
    {
        let mut found = Vec::new(alloc);
        self.blocks.put_within(alloc, frames, &mut found)?;
        put_within(&mut found, self.memory.as_slice(), frames)?;
        Ok(Sequence::from(found))
    }
}
