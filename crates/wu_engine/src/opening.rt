//! Opening of an engine over a store: the root, the checkpoint that it names, and the index.
ghost use Rattle.std.specs.Prelude.{◌≡◌, ◌⊎◌, ◌≢◌, ◌<◌, ◌≤◌, ◌^◌, Err, IfErr, IfOk, IfSome, List};
ghost use Rattle.std.specs.Prelude.{MatchBool, Option, Some, OnOk, None, [], length, map};
ghost use Rattle.std.specs.List.{AllByRecursion};
ghost use Rattle.std.specs.List.Sorted.{IsStrictlySortedBy};
ghost use Rattle.std.specs.Ordering.{nat_cmp};
ghost use Rattle.lru.specs.LruCache.{lru_cache};
ghost use Rattle.wu_base.specs.declared.limits.TheConstants.{BLOBS_SPENT_AT, SPENT_AT};
ghost use Rattle.wu_outside.specs.Content.{Content, HasSize};
ghost use Rattle.wu_outside.specs.Reading.{OnlyReads};
ghost use Rattle.wu_outside.specs.declared.ranges.ReadRange.{ReadRange};
ghost use Rattle.wu_space.specs.Addresses.{AreLive};
ghost use Rattle.wu_image.specs.Checkpoints.{IsCheckpoint};
ghost use Rattle.wu_query.specs.States.{State};
ghost use Rattle.wu_engine.specs.declared.faults.BeginFault.TheVariants.{Damaged as SavedIsDamaged};
ghost use Rattle.wu_engine.specs.declared.faults.BeginFault.TheVariants.{NoMemory as WantsMemory};
ghost use Rattle.wu_engine.specs.Going.{Goes};
ghost use Rattle.wu_engine.specs.Opened.{AsksCheckpoint, AsksFound, FindsRoot, HasRoom};
ghost use Rattle.wu_engine.specs.Opened.{IsEngineFor, IsEngineSaved, IsFirstEngine, IsGivenRoot};
ghost use Rattle.wu_engine.specs.Opened.{IsSettled, MatchesRoot, IsRootFault, IsSpentBy};
ghost use Rattle.wu_engine.specs.Opened.{TakesCheckpoint, numbered, ranges_recorded};
ghost use Rattle.wu_engine.specs.Opening.{HasCheckpoint, HasOpenRoot, HoldsImage};
ghost use Rattle.wu_engine.specs.Opening.{IsBeginCause, IsOpen, IsSpentWhere, ReadsAtMostRoot};
ghost use Rattle.wu_engine.specs.Opening.{ReadsAtOpening, ReadsRoot, spent_of};
ghost use Rattle.wu_engine.specs.Stands.{Stands};

use crate::engines::Engine;
use crate::faults::BeginFault;
use crate::reindexing::open_index;
use std::alloc::Global;
use std::collections::BTreeMap;
use wu_base::{BLOBS_SPENT_AT, Ino, NoMemory, PartRec, Range, SPENT_AT};
use wu_frames::FrameCache;
use wu_image::{Checkpoint, FileRec, ROOT_LEN, Root, read_checkpoint, read_root};
use wu_outside::Store;
use wu_parts::Parts;
use wu_space::Space;
use wu_tree::Tree;

/// The root of what was saved, where the store has one, once it was found that its checkpoint has the size that it
/// says. Takes no memory: a root that is damaged may say any size.
///
/// The store was synced: over a folder that is what keeps other sessions out, so a root that was
/// read before may be the one before another session's save.
pub(crate) fn find_saved<D: Store>(store: &mut D) -> Result<Option<Root>, BeginFault>
    requires { IsSettled (D.moments store.old) }
    ensures found { IfOk result (λ found. IfSome (D.holds store.old) (FindsRoot found)) }
    ensures room { IfOk result (λ found. IfSome found HasRoom) }
    ensures size { IfOk result (λ found. IfSome found (λ root. IfSome (D.holds store.old)
        (λ content. HasSize root.size (content.blobs root.checkpoint)))) }
    ensures store { OnlyReads D.Store store.old store.new result }
    ensures asked { IfOk result (λ found. AsksFound found (D.reads store.old) (D.reads store.new)) }
    ensures reads { ReadsAtOpening (D.holds store.old) (D.reads store.old) (D.reads store.new) }
    ensures memory { result ≡ Err WantsMemory
        → ReadsAtMostRoot (D.reads store.old) (D.reads store.new) }
    ensures cause { IfErr result (IsBeginCause (D.holds store.old) (D.faults store.old) (D.faults store.new)) }
    ensures spent { IsSpentWhere (D.holds store.old) result }
{
    match open_root(store)? {
        None => Ok(None),
        Some(root) => {
            ask_size(store, &root)?;
            Ok(Some(root))
        }
    }
}

/// Asks for the size of the checkpoint that the root names, which is broken where it isn't the one that the root
/// says. Out of memory nothing was asked.
fn ask_size<D: Store>(store: &mut D, root: &Root) -> Result<(), BeginFault>
    requires { IfSome (D.holds store.old) (λ content. HasOpenRoot content root.now) }
    ensures size { OnOk result (IfSome (D.holds store.old)
        (λ content. HasSize root.now.size (content.blobs root.now.checkpoint))) }
    ensures store { OnlyReads D.Store store.old store.new result }
    ensures asked { OnOk result (AsksCheckpoint root.now (D.reads store.old) (D.reads store.new)) }
    ensures reads { (D.reads store.new ≡ D.reads store.old) ⊎ AsksCheckpoint root.now (D.reads store.old) (D.reads store.new) }
    ensures memory { result ≡ Err WantsMemory → D.reads store.new ≡ D.reads store.old }
    ensures cause { IfErr result (IsBeginCause (D.holds store.old) (D.faults store.old) (D.faults store.new)) }
{
    match store.size(root.checkpoint)? {
        Some(size) if size == root.size => Ok(()),
        _ => Err(BeginFault::Damaged {
            blob: root.checkpoint,
        }),
    }
}

/// The store's root, where it has one, in one read. It is broken where it is no root's spelling,
/// and leaves room where its numbers are below the limits.
fn open_root<D: Store>(store: &mut D) -> Result<Option<Root>, BeginFault>
    requires { IsSettled (D.moments store.old) }
    ensures found { IfOk result (λ found. IfSome (D.holds store.old) (FindsRoot found)) }
    ensures room { IfOk result (λ found. IfSome found HasRoom) }
    ensures store { OnlyReads D.Store store.old store.new result }
    ensures noted { OnOk result (ReadsRoot (D.reads store.old) (D.reads store.new)) }
    ensures reads { ReadsAtMostRoot (D.reads store.old) (D.reads store.new) }
    ensures cause { IfErr result (IsBeginCause (D.holds store.old) (D.faults store.old) (D.faults store.new)) }
    ensures spent { IsSpentWhere (D.holds store.old) result }
{
    let mut bytes = [0; ROOT_LEN];
    match store.root(&mut bytes)? {
        None => Ok(None),
        Some(count) => Ok(Some(root_given(count, &bytes)?)),
    }
}

/// The root of which the store gave the length and the first bytes. It is broken where these aren't all of its bytes
/// or no root's spelling. Takes no memory.
fn root_given(count: usize, bytes: &[u8]) -> Result<Root, BeginFault>
    ensures root { IfOk result (IsGivenRoot count bytes.now) }
    ensures room { IfOk result HasRoom }
    ensures fault { IfErr result (IsRootFault count bytes.now) }
{
    if count != bytes.len() {
        return Err(BeginFault::Damaged { blob: 0 });
    }
    match read_root(bytes) {
        Some(root) => with_room(root),
        None => Err(BeginFault::Damaged { blob: 0 }),
    }
}

/// The root, where its numbers leave room for a session.
fn with_room(root: Root) -> Result<Root, BeginFault>
    ensures same { IfOk result (λ opened. opened ≡ root) }
    ensures unspent { OnOk result (spent_of root ≡ None) }
    ensures spent { IfErr result (IsSpentBy root) }
{
    if root.next_address >= SPENT_AT {
        Err(BeginFault::Spent {
            next: root.next_address,
        })
    } else if root.next_blob >= BLOBS_SPENT_AT {
        Err(BeginFault::Spent {
            next: root.next_blob,
        })
    } else {
        Ok(root)
    }
}

/// The engine of the root directory alone.
pub(crate) fn open_first(alloc: Global, flush_at: u64) -> Result<Engine, NoMemory>
    ensures { IfOk result (IsFirstEngine flush_at) }
{
    let frames = FrameCache::new(alloc)?;
    let tree = Tree::new(alloc)?;
    let parts = Parts::new(alloc, flush_at, 1)?;
    Ok(Engine {
        tree,
        space: Space::new(alloc, 0),
        parts,
        files: BTreeMap::new(alloc),
        frames,
        checkpoint: 0,
        ended: None,
        alloc,
    })
}

/// The engine of what was saved under the root, of whose checkpoint the size was asked.
pub(crate) fn open_saved<D: Store>(
    alloc: Global,
    store: &mut D,
    root: &Root,
    flush_at: u64,
) -> Result<Engine, BeginFault>
    requires room { HasRoom root.now }
    requires found { IfSome (D.holds store.old) (λ content. HasOpenRoot content root.now) }
    requires size { IfSome (D.holds store.old)
        (λ content. HasSize root.now.size (content.blobs root.now.checkpoint)) }
    ensures stands { IfOk result (λ engine. (s : State) → HoldsImage (D.holds store.old) s → Stands engine (D.holds store.new) s) }
    ensures goes { IfOk result (λ engine. (content : Content)
        → D.holds store.old ≡ Some content → Goes engine content (D.holds store.new)) }
    ensures open { OnOk result ((earlier : Option (List ReadRange))
        → AsksFound (Some root.now) earlier (D.reads store.old)
        → IsOpen (D.holds store.old) earlier (D.reads store.new)) }
    ensures next { IfOk result (λ engine. engine.space.next < SPENT_AT) }
    ensures next_blob { IfOk result (λ engine. engine.parts.next_blob < BLOBS_SPENT_AT) }
    ensures flushes { IfOk result (λ engine. engine.parts.flushes < 2 ^ 62) }
    ensures flush_at { IfOk result (λ engine. engine.parts.flush_at ≡ flush_at) }
    ensures kept { IfOk result (λ engine. engine.parts.kept ≡ lru_cache [] 1024) }
    ensures frames { IfOk result (λ engine. engine.frames ≡ []) }
    ensures drawn { IfOk result (λ engine. engine.parts.next_blob ≡ root.now.next_blob) }
    ensures goes_on { IfOk result (λ engine. engine.ended ≡ None) }
    ensures saved { IfOk result (λ engine. IfSome (D.holds store.old) (λ content. IsEngineSaved content root.now engine)) }
    ensures store { OnlyReads D.Store store.old store.new result }
    ensures reads { (earlier : Option (List ReadRange))
        → AsksFound (Some root.now) earlier (D.reads store.old)
        → ReadsAtOpening (D.holds store.old) earlier (D.reads store.new) }
    ensures cause { IfErr result (IsBeginCause (D.holds store.old) (D.faults store.old) (D.faults store.new)) }
{
    let checkpoint = open_checkpoint(alloc, store, root)?;
    let parts = open_index(alloc, store, root.version, &checkpoint, flush_at)?;
    Ok(engine_of(alloc, root.checkpoint, checkpoint, parts)?)
}

/// The engine of the checkpoint, with these parts.
fn engine_of(
    alloc: Global,
    blob: u64,
    checkpoint: Checkpoint,
    parts: Parts,
) -> Result<Engine, NoMemory>
    requires rules { IsCheckpoint checkpoint }
    requires room { checkpoint.next_address < SPENT_AT }
    requires drawn { 0 < checkpoint.next_blob }
    requires next_blob { parts.next_blob ≡ checkpoint.next_blob }
    requires end { parts.memory.end ≤ checkpoint.next_address }
    ensures { IfOk result (IsEngineFor blob checkpoint parts) }
{
    let (space, files, frames) = index_of(alloc, &checkpoint)?;
    Ok(Engine {
        tree: checkpoint.tree,
        space,
        parts,
        files,
        frames,
        checkpoint: blob,
        ended: None,
        alloc,
    })
}

/// The space of addresses and the records of the checkpoint's files, and no frames.
fn index_of(
    alloc: Global,
    checkpoint: &Checkpoint,
) -> Result<(Space, BTreeMap<Ino, FileRec>, FrameCache), NoMemory>
    requires { IsCheckpoint checkpoint.now }
    ensures space { IfOk result (λ index. index.0
        ≡ record { next = checkpoint.now.next_address; ranges = ranges_recorded checkpoint.now.files }) }
    ensures files { IfOk result (λ index. index.1.entries ≡ numbered checkpoint.now.files) }
    ensures frames { IfOk result (λ index. index.2 ≡ []) }
{
    let files = checkpoint.files.as_slice();
    let frames = FrameCache::new(alloc)?;
    let records = records_by_number(alloc, files)?;
    let space = space_of(alloc, checkpoint.next_address, files)?;
    Ok((space, records, frames))
}

/// The checkpoint that the root names.
fn open_checkpoint<D: Store>(
    alloc: Global,
    store: &mut D,
    root: &Root,
) -> Result<Checkpoint, BeginFault>
    requires found { IfSome (D.holds store.old) (λ content. HasOpenRoot content root.now) }
    requires size { IfSome (D.holds store.old)
        (λ content. HasSize root.now.size (content.blobs root.now.checkpoint)) }
    ensures saved { IfOk result (λ checkpoint. IfSome (D.holds store.old) (λ content. HasCheckpoint content root.now checkpoint)) }
    ensures rules { IfOk result IsCheckpoint }
    ensures own { IfOk result (MatchesRoot root.now) }
    ensures store { OnlyReads D.Store store.old store.new result }
    ensures taken { OnOk result (TakesCheckpoint root.now (D.reads store.old) (D.reads store.new)) }
    ensures reads { (D.reads store.new ≡ D.reads store.old) ⊎ TakesCheckpoint root.now (D.reads store.old) (D.reads store.new) }
    ensures cause { IfErr result (IsBeginCause (D.holds store.old) (D.faults store.old) (D.faults store.new)) }
{
    let bytes = named_blob(alloc, store, root)?;
    let found = read_checkpoint(alloc, &bytes)?;
    own_checkpoint(found, root)
}

/// The checkpoint that was found, where it is the root's. Takes no memory.
fn own_checkpoint(found: Option<Checkpoint>, root: &Root) -> Result<Checkpoint, BeginFault>
    ensures own { IfOk result (λ checkpoint. (found ≡ Some checkpoint) × MatchesRoot root.now checkpoint) }
    ensures damaged { IfErr result (λ fault. (fault ≡ SavedIsDamaged root.now.checkpoint)
        × IfSome found (λ checkpoint. MatchesRoot root.now checkpoint → ⊥)) }
{
    match found {
        Some(checkpoint) if is_of(&checkpoint, root) => Ok(checkpoint),
        _ => Err(BeginFault::Damaged {
            blob: root.checkpoint,
        }),
    }
}

/// The bytes of the checkpoint that the root names, all in one read. It is broken where there are fewer then than
/// its size was. Out of memory nothing was read.
fn named_blob<D: Store>(alloc: Global, store: &mut D, root: &Root) -> Result<Vec<u8>, BeginFault>
    requires size { IfSome (D.holds store.old)
        (λ content. HasSize root.now.size (content.blobs root.now.checkpoint)) }
    ensures bytes { IfOk result (λ bytes. IfSome (D.holds store.old)
        (λ content. content.blobs root.now.checkpoint ≡ Some bytes.items)) }
    ensures size { IfOk result (λ bytes. length bytes.items ≡ root.now.size) }
    ensures store { OnlyReads D.Store store.old store.new result }
    ensures taken { OnOk result (TakesCheckpoint root.now (D.reads store.old) (D.reads store.new)) }
    ensures reads { (D.reads store.new ≡ D.reads store.old) ⊎ TakesCheckpoint root.now (D.reads store.old) (D.reads store.new) }
    ensures memory { result ≡ Err WantsMemory → D.reads store.new ≡ D.reads store.old }
    ensures cause { IfErr result (IsBeginCause (D.holds store.old) (D.faults store.old) (D.faults store.new)) }
{
    let mut bytes = vec![in alloc; 0u8; root.size as usize]?;
    match store.read(root.checkpoint, 0, &mut bytes)? {
        Some(count) if count == bytes.len() => Ok(bytes),
        _ => Err(BeginFault::Damaged {
            blob: root.checkpoint,
        }),
    }
}

/// Whether the checkpoint has the root's numbers, and its own blob is none of its texts' and parts'.
fn is_of(checkpoint: &Checkpoint, root: &Root) -> bool
    ensures { MatchBool result (MatchesRoot root.now checkpoint.now) (MatchesRoot root.now checkpoint.now → ⊥) }
{
    checkpoint.next_address == root.next_address
        && checkpoint.next_blob == root.next_blob
        && is_no_text(root.checkpoint, checkpoint.files.as_slice())
        && is_no_part(root.checkpoint, checkpoint.parts.as_slice())
}

/// Whether the blob is none of the texts'.
fn is_no_text(blob: u64, files: &[FileRec]) -> bool
    ensures { MatchBool result (AllByRecursion (λ file. file.blob ≢ blob) files.now)
        (AllByRecursion (λ file. file.blob ≢ blob) files.now → ⊥) }
{
    files.iter().all(|file| file.blob != blob)
}

/// Whether the blob is none of the parts'.
fn is_no_part(blob: u64, parts: &[PartRec]) -> bool
    ensures { MatchBool result (AllByRecursion (λ part. part.blob ≢ blob) parts.now)
        (AllByRecursion (λ part. part.blob ≢ blob) parts.now → ⊥) }
{
    parts.iter().all(|part| part.blob != blob)
}

/// The space of addresses in which the files have their recorded ranges.
fn space_of(alloc: Global, next: u64, files: &[FileRec]) -> Result<Space, NoMemory>
    requires ascend { IsStrictlySortedBy nat_cmp (map (λ file. file.ino) files.now) }
    requires live { AreLive next (ranges_recorded files.now) }
    ensures { IfOk result (λ space. space ≡ record { next = next; ranges = ranges_recorded files.now }) }
{
    let ranges = ranges_of(alloc, files)?;
    let found = Space::rebuild(alloc, next, &ranges)?;
    let space = found.unwrap();
    space.keeps_the_rules();
    Ok(space)
}

/// The files' ranges.
fn ranges_of(alloc: Global, files: &[FileRec]) -> Result<Vec<(Ino, Range)>, NoMemory>
    ensures { IfOk result (λ ranges. ranges.items ≡ ranges_recorded files.now) }
{
    let mut ranges = Vec::with_capacity(alloc, files.len())?;
    for file in files {
        ranges.push((file.ino, file.range))?;
    }
    Ok(ranges)
}

/// The records by the number of their file.
fn records_by_number(alloc: Global, files: &[FileRec]) -> Result<BTreeMap<Ino, FileRec>, NoMemory>
    requires { IsStrictlySortedBy nat_cmp (map (λ file. file.ino) files.now) }
    ensures { IfOk result (λ records. records.entries ≡ numbered files.now) }
{
    let records: BTreeMap<Ino, FileRec> = files
        .iter()
        .map(|file| (file.ino, *file))
        .collect(alloc)?;
    Ok(records)
}
