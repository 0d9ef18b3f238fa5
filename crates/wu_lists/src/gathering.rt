//! Blocks of a term, gathered and not yet decoded.
ghost use Rattle.std.specs.Prelude.{◌≡◌, ◌+◌, ◌-◌, ◌^◌, ◌<◌, ◌≤◌, ◌++◌, ℕ, List, [], filter, length, min, take, OnErr, OnOk};
ghost use Rattle.std.specs.List.{AllByRecursion};
ghost use Rattle.std.specs.List.Sorted.{IsNonDecreasingBy};
ghost use Rattle.wu_layout.specs.Postings.{is_live};
ghost use Rattle.wu_lists.specs.Ascending.{AscendBetween, AreInOrder};
ghost use Rattle.wu_lists.specs.Blocks.{IsSpelling};
ghost use Rattle.wu_lists.specs.Gathering.{AreCopied, IsCopied, Leaves, addresses_at, addresses_in};

use crate::blocks::Block;
use crate::frames::{frames_from, is_needed, put_within};
use std::alloc::Global;
use std::marker::Model;
use wu_base::{NoMemory, Range};

/// Blocks of a term, which are decoded when they are asked for, where they are asked for. Contracts see the blocks'
/// addresses.
#[derive(Drop)]
pub struct GatheredBlocks {
    /// The blocks' bytes, one block's after another's.
    bytes: Vec<u8>,
    /// Each block, with its place in these bytes.
    blocks: Vec<Block>,
    count: u64,
}

impl Model for GatheredBlocks {
    ghost use Rattle.std.specs.Prelude.{List, ℕ, ◌≡◌, ◌^◌, ◌-◌, length, min};
    ghost use Rattle.wu_lists.specs.Gathering.{AreCopied, addresses_in};

    ghost Value = { List ℕ };

    ghost view = { λ g. addresses_in g.bytes.items g.blocks.items };

    ghost invariant = { λ g. AreCopied g.bytes.items g.blocks.items
        × (g.count ≡ min (length (addresses_in g.bytes.items g.blocks.items)) (2 ^ 64 - 1)) };
}

impl GatheredBlocks {
    /// No block yet. Takes no memory.
    pub fn new(alloc: Global) -> GatheredBlocks
        ensures { result ≡ [] }
    {
        GatheredBlocks {
            bytes: Vec::new(alloc),
            blocks: Vec::new(alloc),
            count: 0,
        }
    }

    /// How many addresses the blocks have, or `u64::MAX` where that is less.
    pub fn count(&self) -> u64
        ensures { result ≡ min (length self.now) (2 ^ 64 - 1) }
    {
        self.count
    }

    /// Copies the block, which these bytes spell. Out of memory, none is copied.
    pub(crate) fn push(&mut self, block: &Block, bytes: &[u8]) -> Result<(), NoMemory>
        requires { (addresses : List ℕ) × IsSpelling block.now addresses bytes.now }
        ensures ok { OnOk result ((addresses : List ℕ) → IsSpelling block.now addresses bytes.now → self.new ≡ self.old ++ addresses) }
        ensures err { OnErr result (self.new ≡ self.old) }
    {
        let copy = Block {
            at: self.bytes.len() as u64,
            len: bytes.len() as u64,
            ..*block
        };
        self.bytes.extend_from_slice(bytes)?;
        self.blocks.push(copy)?;
        self.count = self.count.saturating_add(block.count as u64);
        Ok(())
    }

    /// Appends the addresses that lie in one of the frames. Only blocks that a frame overlaps with are decoded. Blocks
    /// and frames are walked side by side by galloping: the number of steps is at most that of the blocks, and at most
    /// that of the frames and of the blocks that are decoded. Out of memory, the only error, some may have been appended.
    pub fn put_within(
        &self,
        alloc: Global,
        frames: &[Range],
        found: &mut Vec<u64>,
    ) -> Result<(), NoMemory>
        requires ascend { AscendBetween 0 (2 ^ 64 - 1) self.now }
        requires order { AreInOrder 0 (2 ^ 64 - 1) frames.now }
        ensures { OnOk result (found.new.items ≡ found.old.items ++ filter (is_live frames.now) self.now) }
    {
        put_blocks(alloc, &self.bytes, &self.blocks, frames, found)
    }
}

/// Appends the addresses of the blocks, which lie in the bytes, that lie in one of the frames.
fn put_blocks(
    alloc: Global,
    bytes: &[u8],
    blocks: &[Block],
    frames: &[Range],
    found: &mut Vec<u64>,
) -> Result<(), NoMemory>
    requires copied { AreCopied bytes.now blocks.now }
    requires ascend { AscendBetween 0 (2 ^ 64 - 1) (addresses_in bytes.now blocks.now) }
    requires order { AreInOrder 0 (2 ^ 64 - 1) frames.now }
    ensures { OnOk result (found.new.items ≡ found.old.items ++ filter (is_live frames.now) (addresses_in bytes.now blocks.now)) }
{
    let mut rest = blocks_for(blocks, frames);
    let mut left = frames;
    while let [block, later @ ..] = rest {
        left = frames_from(left, block.first);
        put_block(alloc, bytes, block, left, found)?;
        rest = blocks_for(later, left);
    }
    Ok(())
}

/// The blocks without those first ones that end before the first of the frames; none where no frame is left. Takes
/// time logarithmic in the number of those that it leaves out.
#[inline]
fn blocks_for<'a>(blocks: &'a [Block], frames: &[Range]) -> &'a [Block]
    requires rise { IsNonDecreasingBy (λ block. block.last) blocks.now }
    requires order { AreInOrder 0 (2 ^ 64 - 1) frames.now }
    ensures { Leaves frames.now blocks.now result.now }
{
    match frames {
        [first, ..] => blocks.split_at(count_before(blocks, first.start)).1,
        [] => &[],
    }
}

/// How many of the first blocks end before the address.
#[inline]
fn count_before(blocks: &[Block], address: u64) -> usize
    requires { IsNonDecreasingBy (λ block. block.last) blocks.now }
    ensures within { result ≤ length blocks.now }
    ensures before { AllByRecursion (λ block. block.last < address) (take result blocks.now) }
{
    let end = reach_of_address(blocks, address);
    blocks[..end].partition_point(|block| block.last < address)
}

/// At most twice as many of the first blocks as end before the address.
#[inline]
fn reach_of_address(blocks: &[Block], address: u64) -> usize
    ensures { result ≤ length blocks.now }
{
    let mut end = 0;
    while end < blocks.len() {
        if blocks[end].last >= address {
            return end;
        }
        end = 2 * end + 1;
    }
    blocks.len()
}

/// The same of one block, which no frame ends before.
#[inline]
fn put_block(
    alloc: Global,
    bytes: &[u8],
    block: &Block,
    frames: &[Range],
    found: &mut Vec<u64>,
) -> Result<(), NoMemory>
    requires copied { IsCopied bytes.now block.now }
    requires ascend { AscendBetween 0 (2 ^ 64 - 1) (addresses_at bytes.now block.now) }
    requires order { AreInOrder 0 (2 ^ 64 - 1) frames.now }
    requires after { AllByRecursion (λ frame. block.now.first < frame.start + frame.len) frames.now }
    ensures { OnOk result (found.new.items ≡ found.old.items ++ filter (is_live frames.now) (addresses_at bytes.now block.now)) }
{
    if !is_needed(block, frames) {
        return Ok(());
    }
    let place = block.at as usize;
    let own = &bytes[place..place + block.len as usize];
    let addresses = block.addresses(alloc, own)?;
    put_within(found, &addresses, frames)
}
