//! Writing of parts.
ghost use Rattle.std.specs.Prelude.{◌≡◌, ℕ, List, [], ◌∷◌, ◌++◌, ◌+◌, ◌-◌, ◌<◌, ◌≤◌, ◌==◌, ◌^◌, true, IfOk, OnOk, drop, eqb, length, map, slice_index, take};
ghost use Rattle.std.specs.List.{AllByRecursion, IsDistinct, flat_map, list_any, sum_by};
ghost use Rattle.std.specs.List.Sorted.{IsStrictlyIncreasing, IsStrictlySortedBy};
ghost use Rattle.std.specs.Cmp.Lexicographic.{slice_cmp};
ghost use Rattle.std.specs.Ordering.{nat_cmp};
ghost use Rattle.wu_base.specs.declared.limits.TheConstants.{GENERATION_MAX};
ghost use Rattle.wu_vbyte.specs.declared.blocks.TheConstants.{BLOCK_LEN};
ghost use Rattle.wu_vbyte.specs.Blocks.{AppendsBlock};
ghost use Rattle.wu_part.specs.Directories.{PartDirectory};
ghost use Rattle.wu_part.specs.Parts.{IsList, SpellsPart};
ghost use Rattle.wu_part.specs.Writing.{AppendsNumbers, AppendsBlocks, AppendsList, AppendsLists, first_of, last_of};

use crate::totals::Totals;
use wu_base::{NoMemory, TermList};
use wu_vbyte::{BLOCK_LEN, put_block, put_number};

/// Moves the first bytes, so many of them, to the end. The part's blocks are moved behind its directory
/// so, and a part is never held twice.
pub(crate) fn move_to_end(bytes: &mut Vec<u8>, count: usize)
    requires { count ≤ length bytes.old.items }
    ensures { bytes.new.items ≡ drop count bytes.old.items ++ take count bytes.old.items }
{
    bytes.rotate_left(count);
}

/// Appends what a directory begins with: its numbers, the last of them that of its terms.
pub(crate) fn put_head(out: &mut Vec<u8>, generation: u32, totals: &Totals) -> Result<(), NoMemory>
    requires { totals.now.low ≤ totals.now.high }
    ensures { OnOk result (AppendsNumbers out.old.items (generation ∷ totals.now.low ∷ (totals.now.high - totals.now.low)
        ∷ totals.now.stored ∷ totals.now.count ∷ []) out.new.items) }
{
    put_number(out, u64::from(generation))?;
    put_number(out, totals.low)?;
    put_number(out, totals.high - totals.low)?;
    put_number(out, totals.stored)?;
    put_number(out, totals.count)?;
    Ok(())
}

/// The lowest address of the lists.
pub(crate) fn lowest(lists: &[TermList]) -> u64
    requires some { 0 < length lists.now }
    requires lists { AllByRecursion IsList lists.now }
    ensures least { AllByRecursion (λ list. result ≤ first_of list.at) lists.now }
    ensures first { list_any (λ list. first_of list.at == result) lists.now ≡ true }
{
    let mut low = first_address(&lists[0]);
    for list in lists {
        low = low.min(first_address(list));
    }
    low
}

/// The first address of the list.
pub(crate) fn first_address(list: &TermList) -> u64
    requires { 0 < length list.now.at }
    ensures { result ≡ first_of list.now.at }
{
    list.at.as_slice()[0]
}

/// The last address of the list.
pub(crate) fn last_address(list: &TermList) -> u64
    requires { 0 < length list.now.at }
    ensures { result ≡ last_of list.now.at }
{
    let at = list.at.as_slice();
    at[at.len() - 1]
}

/// Appends the entry of a term to a directory's bytes, and its blocks to the blocks' bytes.
pub(crate) fn put_list(
    entries: &mut Vec<u8>,
    blocks: &mut Vec<u8>,
    low: u64,
    list: &TermList,
) -> Result<(), NoMemory>
    requires list { IsList list.now }
    requires low { low ≤ first_of list.now.at }
    ensures { OnOk result ((front : List ℕ) → AppendsList low list.now entries.old.items entries.new.items blocks.old.items
        blocks.new.items front) }
{
    let term = list.term.as_slice();
    let at = list.at.as_slice();
    put_number(entries, term.len() as u64)?;
    entries.extend_from_slice(term)?;
    put_number(entries, at.len() as u64)?;
    put_blocks(entries, blocks, low, at)?;
    Ok(())
}

/// Appends the numbers of the addresses' blocks to a directory's bytes, and the blocks to the blocks'
/// bytes.
fn put_blocks(
    entries: &mut Vec<u8>,
    blocks: &mut Vec<u8>,
    low: u64,
    at: &[u64],
) -> Result<(), NoMemory>
    requires ascending { IsStrictlyIncreasing at.now }
    requires low { 0 < length at.now → low ≤ first_of at.now }
    ensures { OnOk result ((front : List ℕ) → AppendsBlocks low at.now entries.old.items entries.new.items blocks.old.items
        blocks.new.items front) }
{
    let mut rest = at;
    while !rest.is_empty() {
        let (chunk, later) = rest.split_at(rest.len().min(BLOCK_LEN));
        put_chunk(entries, blocks, low, chunk)?;
        rest = later;
    }
    Ok(())
}

/// Appends the numbers of a block to a directory's bytes, and the block to the blocks' bytes.
fn put_chunk(
    entries: &mut Vec<u8>,
    blocks: &mut Vec<u8>,
    low: u64,
    at: &[u64],
) -> Result<(), NoMemory>
    requires some { 0 < length at.now }
    requires few { length at.now ≤ BLOCK_LEN }
    requires low { low ≤ first_of at.now }
    requires ascending { IsStrictlyIncreasing at.now }
    ensures block { OnOk result (AppendsBlock blocks.old.items low at.now blocks.new.items) }
    ensures numbers { OnOk result (AppendsNumbers entries.old.items ((first_of at.now - low) ∷ (last_of at.now - first_of at.now)
        ∷ (length blocks.new.items - length blocks.old.items) ∷ []) entries.new.items) }
{
    let before = blocks.len();
    put_block(blocks, low, at)?;
    let first = at[0];
    let last = at[at.len() - 1];
    put_number(entries, first - low)?;
    put_number(entries, last - first)?;
    put_number(entries, (blocks.len() - before) as u64)?;
    Ok(())
}
