//! The lists of a part, side by side by address.
ghost use Rattle.std.specs.Prelude.{◌≡◌, ℕ, List, ◌+◌, ◌≤◌, Some, IfNone, IfOk, IfSome, length, slice_range};
ghost use Rattle.std.specs.List.{AllByRecursion};
ghost use Rattle.wu_base.specs.Ranges.{AreApart};
ghost use Rattle.wu_layout.specs.Ascending.{AscendBetween};
ghost use Rattle.wu_part.specs.Directories.{IsEntry};
ghost use Rattle.wu_part.specs.Parts.{HoldsBlock, IsBroken, IsDirectoryOf, IsNoPart, LieIn};
ghost use Rattle.wu_check.specs.Indexing.{HasListsOf, HoldsAddresses, IsIndexOf};

use crate::directories::directory_in;
use crate::numbering::Numbering;
use std::alloc::Global;
use wu_base::{ADDRESSES_MAX, Bytes, NoMemory, PartRec, Range};
use wu_part::{BlockEntry, Directory, Entry, read_block};

/// What a part has at the addresses of some ranges.
#[derive(Drop)]
pub struct PartIndex {
    /// The part's terms, in the order of its directory.
    pub terms: Vec<Bytes>,
    /// For each address of the ranges, one range after another, the number of the term that stands
    /// there, counted from 1, or 0 where none does.
    pub numbers: Vec<u32>,
}

/// The index of the recorded part, of which these are the bytes, at the addresses of the ranges,
/// which ascend, none overlapping with another, and end at `ADDRESSES_MAX` at the latest. None
/// exactly where the part is broken, also where two of its lists share an address, in the ranges
/// or outside of them. Errors are out of memory, also where there are more than 2^32 - 1 terms.
///
/// Each block is decoded once, and each address is looked up in the ranges by a binary search.
/// Takes memory for the addresses of the ranges, 4 bytes each, and for the terms; while the index
/// is made, also for the directory, the ranges, the part's addresses outside of the ranges, 8 bytes
/// each, and the addresses of one term. How far the part's addresses are apart doesn't matter.
pub fn index_part(
    alloc: Global,
    part: &PartRec,
    bytes: &[u8],
    ranges: &[Range],
) -> Result<Option<PartIndex>, NoMemory>
    requires apart { AreApart ranges.now }
    requires bounded { AllByRecursion (λ range. range.start + range.len ≤ ADDRESSES_MAX) ranges.now }
    ensures found { IfOk result (λ found. IfSome found (IsIndexOf part.now bytes.now ranges.now)) }
    ensures none { IfOk result (λ found. IfNone found (IsBroken part.now (Some bytes.now))) }
{
    let Some(directory) = directory_in(alloc, part, bytes)? else {
        return Ok(None);
    };
    index_lists(alloc, &directory, bytes, ranges)
}

/// The index of the lists of a part with this directory. None where the bytes hold no lists of its
/// terms, or two of them share an address.
fn index_lists(
    alloc: Global,
    directory: &Directory,
    bytes: &[u8],
    ranges: &[Range],
) -> Result<Option<PartIndex>, NoMemory>
    requires own { IsDirectoryOf directory.now bytes.now }
    requires apart { AreApart ranges.now }
    requires bounded { AllByRecursion (λ range. range.start + range.len ≤ ADDRESSES_MAX) ranges.now }
    ensures found { IfOk result (λ found. IfSome found (HasListsOf directory.now bytes.now ranges.now)) }
    ensures none { IfOk result (λ found. IfNone found (IsNoPart directory.now (Some bytes.now))) }
{
    directory.is_spelled();
    let mut numbering = Numbering::new(alloc, ranges)?;
    for mut entry in directory.terms() {
        let term = Bytes::from_slice(alloc, entry.term())?;
        let Some(addresses) = addresses_of(alloc, directory, &mut entry, bytes)? else {
            return Ok(None);
        };
        if !numbering.add(term, &addresses)? {
            return Ok(None);
        }
    }
    Ok(numbering.into_index())
}

/// The addresses in the blocks of an entry of the directory, ascending; each block is decoded once.
/// The blocks lie within the bytes, which are the part's. None where they hold no addresses as the
/// entry says. The one error is out of memory.
pub fn addresses_of(
    alloc: Global,
    directory: &Directory,
    entry: &mut Entry<'_>,
    bytes: &[u8],
) -> Result<Option<Vec<u64>>, NoMemory>
    requires entry { IsEntry directory.now.low directory.now.high entry.old }
    requires lie { LieIn (length bytes.now) entry.old.blocks }
    ensures found { IfOk result (λ found. IfSome found (λ addresses.
        HoldsAddresses directory.now.low bytes.now entry.old addresses.items)) }
    ensures ascend { IfOk result (λ found. IfSome found (λ addresses.
        AscendBetween directory.now.low (directory.now.high + 1) addresses.items)) }
    ensures none { IfOk result (λ found. IfNone found ((addresses : List ℕ)
        → HoldsAddresses directory.now.low bytes.now entry.old addresses → ⊥)) }
{
    let low = directory.low();
    let mut found = Vec::new(alloc);
    while let Some((block, count)) = entry.next_block() {
        let Some(addresses) = block_in(alloc, bytes, low, &block, count)? else {
            return Ok(None);
        };
        found.extend_from_slice(&addresses)?;
    }
    Ok(Some(found))
}

/// The block's addresses, so many. None where its bytes hold no such addresses.
fn block_in(
    alloc: Global,
    bytes: &[u8],
    low: u64,
    block: &BlockEntry,
    count: usize,
) -> Result<Option<Vec<u64>>, NoMemory>
    ensures held { IfOk result (λ found. IfSome found (λ addresses. HoldsBlock low bytes.now block.now addresses.items)) }
    ensures number { IfOk result (λ found. IfSome found (λ addresses. length addresses.items ≡ count)) }
    ensures none { IfOk result (λ found. IfNone found (block.now.at + block.now.len ≤ length bytes.now
        → (addresses : List ℕ) → length addresses ≡ count → HoldsBlock low bytes.now block.now addresses → ⊥)) }
{
    match bytes_of(bytes, block) {
        Some(code) => read_block(alloc, code, low, block, count),
        None => Ok(None),
    }
}

/// The block's bytes, where all are there.
fn bytes_of<'a>(bytes: &'a [u8], block: &BlockEntry) -> Option<&'a [u8]>
    ensures some { IfSome result (λ code. code.now ≡ slice_range bytes.now block.now.at (block.now.at + block.now.len)) }
    ensures none { IfNone result (block.now.at + block.now.len ≤ length bytes.now → ⊥) }
{
    let from = block.at as usize;
    let len = block.len as usize;
    if from <= bytes.len() && len <= bytes.len() - from {
        Some(&bytes[from..from + len])
    } else {
        None
    }
}
