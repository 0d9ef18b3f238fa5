//! A term's addresses in a part, from the store.
ghost use Rattle.std.specs.Prelude.{◌≡◌, ◌==◌, ◌+◌, ◌<◌, [], ◌∷◌, ◌++◌, true, false, get_or, length, MatchOption, Some, IfOk, IfErr, IfSome, OnErr, OnOk};
ghost use Rattle.std.specs.Option.{IsSomeAnd};
ghost use Rattle.std.specs.List.{AllByRecursion, list_any};
ghost use Rattle.wu_base.specs.declared.limits.TheConstants.{ADDRESSES_MAX};
ghost use Rattle.wu_layout.specs.Ascending.{AscendBetween};
ghost use Rattle.wu_part.specs.Directories.{IsEntry};
ghost use Rattle.wu_part.specs.declared.entries.TermEntry.{TermEntry};
ghost use Rattle.wu_job.specs.Jobs.{HoldsEntry, HoldsTerm};
ghost use Rattle.wu_job.specs.Live.{AreRanked, ranges_alone, total_of};
ghost use Rattle.wu_job.specs.Reading.{AreNoBlocks, EndsBefore, HasBytes, HoldsInBlock, IsCutOf, IsNew, IsNoBlock, IsNoPartOf, IsFound, IsRefused};
ghost use Rattle.wu_job.specs.Sources.{part_of};
ghost use Rattle.wu_job.specs.Steps.{HasWholeRange, HasWholeRanges, IsCause, ReadsFront, adds, block_range, block_ranges, ranges_of};

use crate::live::{Cut, LiveRange, cut_to_live};
use crate::marks::{Marks, some_marked};
use crate::sources::Source;
use std::alloc::Global;
use wu_base::{ADDRESSES_MAX, NoMemory, Trouble};
use wu_outside::Store;
use wu_part::{BlockEntry, Entry, read_block};

/// The live addresses of the term in the part, of which none is marked. A part with a marked one is damaged:
/// the address stands in another list of it too.
pub(crate) fn live_addresses<D: Store>(
    alloc: Global,
    store: &mut D,
    source: &Source,
    entry: Option<Entry<'_>>,
    term: &[u8],
    live: &[LiveRange],
    marks: &Marks,
) -> Result<Cut, Trouble>
    requires entry { IsFound source.now.directory.terms term.now entry }
    requires live { AreRanked live.now ADDRESSES_MAX }
    requires marks { length marks.now ≡ total_of (ranges_alone live.now) }
    ensures new { IfOk result (IsNew (ranges_alone live.now) marks.now source.now.directory.low source.now.directory.high) }
    ensures held { IfOk result (λ cut. IfSome (D.holds store.old) (λ content.
        IsCutOf content (ranges_alone live.now) term.now (part_of source.now) cut.addresses.items)) }
    ensures whole { OnOk result (IfSome (D.holds store.old) (λ content. HasWholeRanges content (ranges_of term.now (part_of source.now)))) }
    ensures holds { D.holds store.new ≡ D.holds store.old }
    ensures still { D.moments store.new ≡ D.moments store.old }
    ensures reads { OnOk result (D.reads store.new ≡ adds (ranges_of term.now (part_of source.now)) (D.reads store.old)) }
    ensures front { IfErr result (ReadsFront (ranges_of term.now (part_of source.now)) (D.reads store.old) (D.reads store.new)) }
    ensures calm { OnOk result (D.faults store.new ≡ D.faults store.old) }
    ensures cause { IfErr result (IsCause (IsRefused (D.holds store.old) (ranges_alone live.now) marks.now term.now (part_of source.now))
        (D.faults store.old) (D.faults store.new)) }
{
    let found = read_term(alloc, store, source, entry, term)?;
    let cut = cut_to_live(alloc, live, &found)?;
    check_unmarked(marks, &cut.places, source.recorded.blob)?;
    Ok(cut)
}

/// Where one of the places is marked, the blob is damaged.
fn check_unmarked(marks: &Marks, places: &[u64], blob: u64) -> Result<(), Trouble>
    requires { AllByRecursion (λ place. place < length marks.now) places.now }
    ensures none { OnOk result (list_any (λ place. get_or marks.now place false) places.now ≡ false) }
    ensures some { IfErr result (λ trouble. (trouble ≡ Trouble.Damaged blob)
        × (list_any (λ place. get_or marks.now place false) places.now ≡ true)) }
{
    if some_marked(marks, places) {
        return Err(Trouble::Damaged { blob });
    }
    Ok(())
}

/// The addresses of the term in the part: none where its directory doesn't have the term, and no error then.
fn read_term<D: Store>(
    alloc: Global,
    store: &mut D,
    source: &Source,
    entry: Option<Entry<'_>>,
    term: &[u8],
) -> Result<Vec<u64>, Trouble>
    requires { IsFound source.now.directory.terms term.now entry }
    ensures ascend { IfOk result (λ found. AscendBetween source.now.directory.low (source.now.directory.high + 1) found.items) }
    ensures bounded { source.now.directory.high < ADDRESSES_MAX }
    ensures some { IfOk result (λ found. 0 < length found.items
        → list_any (λ range. range.blob == source.now.recorded.blob) (ranges_of term.now (part_of source.now)) ≡ true) }
    ensures held { IfOk result (λ found. IfSome (D.holds store.old) (λ content.
        HoldsTerm content term.now (part_of source.now) found.items)) }
    ensures err { OnErr result (IsSomeAnd entry.entry (λ found. found.term ≡ term.now)) }
    ensures whole { OnOk result (IfSome (D.holds store.old) (λ content. HasWholeRanges content (ranges_of term.now (part_of source.now)))) }
    ensures holds { D.holds store.new ≡ D.holds store.old }
    ensures still { D.moments store.new ≡ D.moments store.old }
    ensures reads { OnOk result (D.reads store.new ≡ adds (ranges_of term.now (part_of source.now)) (D.reads store.old)) }
    ensures front { IfErr result (ReadsFront (ranges_of term.now (part_of source.now)) (D.reads store.old) (D.reads store.new)) }
    ensures calm { OnOk result (D.faults store.new ≡ D.faults store.old) }
    ensures cause { IfErr result (IsCause (λ blob. (source.now.recorded.blob ≡ blob) × IfSome (D.holds store.old) (λ content.
        IsNoPartOf content term.now (part_of source.now) blob)) (D.faults store.old) (D.faults store.new)) }
{
    source.directory.is_spelled();
    match entry_of(entry, term) {
        Some(mut entry) => read_list(alloc, store, source, &mut entry),
        None => Ok(Vec::new(alloc)),
    }
}

/// The entry, where it is the term's.
fn entry_of<'a>(entry: Option<Entry<'a>>, term: &[u8]) -> Option<Entry<'a>>
    ensures { MatchOption result ((other : TermEntry) → entry.entry ≡ Some other → other.term ≡ term.now → ⊥)
        (λ found. (entry.entry ≡ Some found) × (found.term ≡ term.now)) }
{
    match entry {
        Some(entry) if entry.term() == term => Some(entry),
        _ => None,
    }
}

/// The addresses in the entry's blocks, each of which is read once, whole.
fn read_list<D: Store>(
    alloc: Global,
    store: &mut D,
    source: &Source,
    entry: &mut Entry<'_>,
) -> Result<Vec<u64>, Trouble>
    requires { IsEntry source.now.directory.low source.now.directory.high entry.old }
    ensures ascend { IfOk result (λ found. AscendBetween source.now.directory.low (source.now.directory.high + 1) found.items) }
    ensures held { IfOk result (λ found. IfSome (D.holds store.old) (λ content.
        HoldsEntry (content.blobs source.now.recorded.blob) source.now.directory.low entry.old found.items)) }
    ensures whole { OnOk result (IfSome (D.holds store.old) (λ content.
        HasWholeRanges content (block_ranges source.now.recorded.blob entry.old.blocks))) }
    ensures holds { D.holds store.new ≡ D.holds store.old }
    ensures still { D.moments store.new ≡ D.moments store.old }
    ensures reads { OnOk result (D.reads store.new ≡ adds (block_ranges source.now.recorded.blob entry.old.blocks) (D.reads store.old)) }
    ensures front { IfErr result (ReadsFront (block_ranges source.now.recorded.blob entry.old.blocks) (D.reads store.old) (D.reads store.new)) }
    ensures calm { OnOk result (D.faults store.new ≡ D.faults store.old) }
    ensures cause { IfErr result (IsCause (λ blob. (source.now.recorded.blob ≡ blob) × IfSome (D.holds store.old) (λ content.
        AreNoBlocks (content.blobs blob) source.now.directory.low entry.old)) (D.faults store.old) (D.faults store.new)) }
{
    let blob = source.recorded.blob;
    let low = source.directory.low();
    let mut found = Vec::new(alloc);
    while let Some((block, count)) = entry.next_block() {
        let addresses = read_one(alloc, store, blob, low, &block, count)?;
        add_addresses(&mut found, addresses)?;
    }
    Ok(found)
}

/// Puts the addresses at the end: where there are none yet, their vector is taken.
fn add_addresses(found: &mut Vec<u64>, more: Vec<u64>) -> Result<(), NoMemory>
    ensures { OnOk result (found.new.items ≡ found.old.items ++ more.items) }
{
    if found.is_empty() {
        *found = more;
    } else {
        found.extend_from_slice(&more)?;
    }
    Ok(())
}

/// The block's addresses, so many. On Ok the blob has the block whole.
fn read_one<D: Store>(
    alloc: Global,
    store: &mut D,
    blob: u64,
    low: u64,
    block: &BlockEntry,
    count: usize,
) -> Result<Vec<u64>, Trouble>
    ensures number { IfOk result (λ found. length found.items ≡ count) }
    ensures ascend { IfOk result (λ found. AscendBetween block.now.first (block.now.last + 1) found.items) }
    ensures held { IfOk result (λ found. IfSome (D.holds store.old) (λ content.
        HoldsInBlock (content.blobs blob) low block.now found.items)) }
    ensures whole { OnOk result (IfSome (D.holds store.old) (λ content. HasWholeRange (content.blobs blob) (block_range blob block.now))) }
    ensures holds { D.holds store.new ≡ D.holds store.old }
    ensures still { D.moments store.new ≡ D.moments store.old }
    ensures reads { OnOk result (D.reads store.new ≡ adds (block_range blob block.now ∷ []) (D.reads store.old)) }
    ensures front { IfErr result (ReadsFront (block_range blob block.now ∷ []) (D.reads store.old) (D.reads store.new)) }
    ensures calm { OnOk result (D.faults store.new ≡ D.faults store.old) }
    ensures cause { IfErr result (IsCause (λ broken. (blob ≡ broken) × IfSome (D.holds store.old) (λ content.
        IsNoBlock (content.blobs blob) low count block.now)) (D.faults store.old) (D.faults store.new)) }
{
    let bytes = read_bytes(alloc, store, blob, block)?;
    let found = read_block(alloc, &bytes, low, block, count)?;
    let addresses = checked(blob, found)?;
    Ok(addresses)
}

/// What was found to be a block's addresses. Where none were, the blob is damaged.
fn checked(blob: u64, found: Option<Vec<u64>>) -> Result<Vec<u64>, Trouble>
    ensures found { IfOk result (λ addresses. found ≡ Some addresses) }
    ensures none { IfErr result (λ trouble. (trouble ≡ Trouble.Damaged blob) × (found ≡ None)) }
{
    match found {
        Some(addresses) => Ok(addresses),
        None => Err(Trouble::Damaged { blob }),
    }
}

/// The block's bytes. Memory is taken before the store is asked.
fn read_bytes<D: Store>(
    alloc: Global,
    store: &mut D,
    blob: u64,
    block: &BlockEntry,
) -> Result<Vec<u8>, Trouble>
    ensures long { IfOk result (λ bytes. length bytes.items ≡ block.now.len) }
    ensures bytes { IfOk result (λ bytes. IfSome (D.holds store.old) (λ content. HasBytes (content.blobs blob) block.now bytes.items)) }
    ensures holds { D.holds store.new ≡ D.holds store.old }
    ensures still { D.moments store.new ≡ D.moments store.old }
    ensures reads { OnOk result (D.reads store.new ≡ adds (block_range blob block.now ∷ []) (D.reads store.old)) }
    ensures memory { result ≡ Err Trouble.NoMemory → D.reads store.new ≡ D.reads store.old }
    ensures front { IfErr result (ReadsFront (block_range blob block.now ∷ []) (D.reads store.old) (D.reads store.new)) }
    ensures calm { OnOk result (D.faults store.new ≡ D.faults store.old) }
    ensures cause { IfErr result (IsCause (λ broken. (blob ≡ broken) × IfSome (D.holds store.old) (λ content.
        EndsBefore (content.blobs blob) block.now)) (D.faults store.old) (D.faults store.new)) }
{
    let mut bytes = vec![in alloc; 0u8; block.len as usize]?;
    match store.read(blob, block.at, &mut bytes)? {
        Some(count) if count == bytes.len() => Ok(bytes),
        _ => Err(Trouble::Damaged { blob }),
    }
}
