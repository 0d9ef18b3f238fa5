//! Lists that are read back from the bytes of entries and blocks.
ghost use Rattle.std.specs.Prelude.{◌≡◌, ℕ, List, ◌+◌, ◌<◌, length, slice_range, IfOk, IfSome};
ghost use Rattle.std.specs.List.{AllZip};
ghost use Rattle.wu_base.specs.declared.limits.TheConstants.{ADDRESSES_MAX};
ghost use Rattle.wu_part.specs.declared.entries.TermEntry.{TermEntry};
ghost use Rattle.wu_part.specs.Decoding.{entries_in};
ghost use Rattle.wu_part.specs.Entries.{AreEntries};
ghost use Rattle.wu_part.specs.Parts.{HoldBlocks, HoldsList};

use crate::cursors::Entry;
use crate::entries::BlockEntry;
use crate::marks::Mark;
use crate::reading::{Head, read_block};
use crate::walks::terms_from;
use std::alloc::Global;
use wu_base::{Bytes, NoMemory, Sequence, TermList};

/// The lists whose entries and blocks these are.
pub(crate) fn lists_in(
    alloc: Global,
    head: &Head,
    entries: &[u8],
    blocks: &[u8],
) -> Result<Vec<TermList>, NoMemory>
    requires high { head.now.high < ADDRESSES_MAX }
    requires entries { (terms : List TermEntry) × AreEntries head.now (length blocks.now) head.now.terms entries.now 0 terms }
    ensures { IfOk result (λ lists. AllZip (HoldsList head.now.low blocks.now) (entries_in head.now.terms head.now.low 0 entries.now)
        lists.items) }
{
    let start = Mark {
        number: 0,
        offset: 0,
        place: 0,
    };
    let mut lists = Vec::new(alloc);
    for entry in terms_from(head, blocks.len() as u64, entries, start) {
        lists.push(list_of(alloc, entry, head.low, blocks)?)?;
    }
    Ok(lists)
}

/// The list whose entry it is. Out of memory, too, where the blocks don't hold one, which can't be.
fn list_of(
    alloc: Global,
    mut entry: Entry<'_>,
    low: u64,
    blocks: &[u8],
) -> Result<TermList, NoMemory>
    ensures { IfOk result (HoldsList low blocks.now entry.entry) }
{
    let term = Bytes::from_slice(alloc, entry.term())?;
    let count = entry.count();
    let addresses = addresses_of(alloc, &mut entry, low, blocks)?;
    if addresses.len() as u64 != count {
        return Err(NoMemory);
    }
    Ok(TermList {
        term,
        at: Sequence::from(addresses),
    })
}

/// The addresses in the entry's blocks.
fn addresses_of(
    alloc: Global,
    entry: &mut Entry<'_>,
    low: u64,
    blocks: &[u8],
) -> Result<Vec<u64>, NoMemory>
    ensures { IfOk result (λ found. HoldBlocks low blocks.now entry.old.blocks found.items) }
{
    let mut found = Vec::new(alloc);
    while let Some((block, count)) = entry.next_block() {
        let Some(bytes) = bytes_of(blocks, &block) else {
            return Err(NoMemory);
        };
        let Some(addresses) = read_block(alloc, bytes, low, &block, count)? else {
            return Err(NoMemory);
        };
        found.extend_from_slice(&addresses)?;
    }
    if entry.count() != 0 {
        return Err(NoMemory);
    }
    Ok(found)
}

/// The block's bytes, where all are there.
fn bytes_of<'a>(blocks: &'a [u8], block: &BlockEntry) -> Option<&'a [u8]>
    ensures { IfSome result (λ bytes. bytes.now ≡ slice_range blocks.now block.now.at (block.now.at + block.now.len)) }
{
    let from = block.at as usize;
    let len = block.len as usize;
    if from <= blocks.len() && len <= blocks.len() - from {
        Some(&blocks[from..from + len])
    } else {
        None
    }
}
