//! A save: a flush, the checkpoint, the new root, and then the removal of what is no longer needed.
ghost use Rattle.std.specs.Prelude.{◌≡◌, ◌+◌, ◌++◌, ◌<◌, ◌≤◌, ◌^◌, Some, IfErr, IfOk, OnErr, OnOk, map, option_map};
ghost use Rattle.wu_outside.specs.Content.{MayDo, with_blob, with_root};
ghost use Rattle.wu_outside.specs.Crash.{MayTry, Put, SetRoot, settle, try_change};
ghost use Rattle.wu_outside.specs.Faults.{HasFaultCause};
ghost use Rattle.wu_parts.specs.Causes.{IsStoreCause};
ghost use Rattle.wu_engine.specs.Calls.{DrawsAtMost};
ghost use Rattle.wu_engine.specs.Puts.{MayPut, MayTryPut};
ghost use Rattle.wu_engine.specs.Saving.{KeepsNamed, checkpoint_blob, removed_by_save};
ghost use Rattle.wu_engine.specs.SavedStores.{IsSpelledOf, Saves, SomeDone, StopsSave, all_done, remove_blob, try_removal};

use std::alloc::Global;
use std::collections::BTreeMap;
use wu_base::{Ino, NoMemory, PartRec, Trouble};
use wu_image::{FileRec, Root, write_checkpoint, write_root};
use wu_outside::{Fault, Store};
use wu_parts::Parts;
use wu_space::Space;
use wu_tree::Tree;

/// Saves the state, where `checkpoint` is the blob of the checkpoint before, or 0, and gives the blob of the new
/// one. After an error the parts are only dropped.
pub(crate) fn save<D: Store>(
    alloc: Global,
    store: &mut D,
    tree: &Tree,
    space: &Space,
    parts: &mut Parts,
    files: &BTreeMap<Ino, FileRec>,
    checkpoint: u64,
) -> Result<u64, Trouble>
    requires some { 1 ≤ parts.old.next_blob }
    requires blobs { parts.old.next_blob + 2 < 2 ^ 63 }
    requires flushes { parts.old.flushes + 1 < 2 ^ 63 }
    ensures saved { IfOk result (λ blob. Saves tree.now space.now files.now.entries checkpoint blob parts.old parts.new
        (D.holds store.old, D.moments store.old) (D.holds store.new, D.moments store.new)) }
    ensures stops { OnErr result (StopsSave tree.now space.now files.now.entries checkpoint parts.old
        (D.holds store.old, D.moments store.old) (D.holds store.new, D.moments store.new)) }
    ensures elsewhere { KeepsNamed parts.old.next_blob (parts.old.next_blob + 2) (removed_by_save parts.old checkpoint)
        (D.holds store.old) (D.holds store.new) }
    ensures numbers { DrawsAtMost 2 parts.old parts.new }
    ensures reads { D.reads store.new ≡ D.reads store.old }
    ensures calm { OnOk result (D.faults store.new ≡ D.faults store.old) }
    ensures cause { IfErr result (IsStoreCause (D.faults store.old) (D.faults store.new)) }
{
    parts.flush(store, space)?;
    let blob = parts.draw_blob();
    let bytes = checkpoint_bytes(alloc, tree, space, parts, files)?;
    put_checkpoint(store, blob, &bytes)?;
    let root = Root {
        version: 2,
        checkpoint: blob,
        size: bytes.len() as u64,
        next_address: space.next(),
        next_blob: parts.next_blob(),
    };
    set_root(store, &write_root(&root))?;
    remove_unneeded(store, parts.stale(), checkpoint)?;
    parts.clear_stale();
    Ok(blob)
}

/// Puts the checkpoint's bytes into the blob, and makes the store sync what was put.
fn put_checkpoint<D: Store>(store: &mut D, blob: u64, bytes: &[u8]) -> Result<(), Fault>
    ensures put { OnOk result (D.holds store.new ≡ option_map (with_blob blob (Some bytes.now)) (D.holds store.old)) }
    ensures settled { OnOk result (D.moments store.new
        ≡ option_map settle (option_map (try_change (Put blob) (with_blob blob (Some bytes.now))) (D.moments store.old))) }
    ensures elsewhere { MayPut blob (D.holds store.old) (D.holds store.new) }
    ensures tried { OnErr result (MayTryPut blob (D.moments store.old) (D.moments store.new)) }
    ensures reads { D.reads store.new ≡ D.reads store.old }
    ensures cause { HasFaultCause (D.faults store.old) (D.faults store.new) result }
{
    store.put(blob, bytes)?;
    store.sync()
}

/// The spelling of the checkpoint of this tree and this index.
fn checkpoint_bytes(
    alloc: Global,
    tree: &Tree,
    space: &Space,
    parts: &Parts,
    files: &BTreeMap<Ino, FileRec>,
) -> Result<Vec<u8>, NoMemory>
    ensures { IfOk result (λ bytes. IsSpelledOf tree.now space.now files.now.entries parts.now bytes.items) }
{
    let files = all_records(alloc, files)?;
    let parts_recorded = all_parts(alloc, parts)?;
    write_checkpoint(
        alloc,
        space.next(),
        parts.next_blob(),
        parts.flushes(),
        tree,
        &files,
        &parts_recorded,
    )
}

/// The files' records, in the order of their numbers.
fn all_records(alloc: Global, files: &BTreeMap<Ino, FileRec>) -> Result<Vec<FileRec>, NoMemory>
    ensures { IfOk result (λ records. records.items ≡ map (λ file. file.1) files.now.entries) }
{
    let mut records = Vec::with_capacity(alloc, files.len())?;
    for file in files.values() {
        records.push(*file)?;
    }
    Ok(records)
}

/// What is recorded of the parts, from left to right.
fn all_parts(alloc: Global, parts: &Parts) -> Result<Vec<PartRec>, NoMemory>
    ensures { IfOk result (λ records. records.items ≡ parts.now.parts) }
{
    let mut records = Vec::new(alloc);
    while let Some(recorded) = parts.part(records.len()) {
        records.push(recorded)?;
    }
    Ok(records)
}

/// Gives the store the root's bytes, and makes it sync that.
fn set_root<D: Store>(store: &mut D, root: &[u8]) -> Result<(), Fault>
    ensures set { OnOk result (D.holds store.new ≡ option_map (with_root root.now) (D.holds store.old)) }
    ensures settled { OnOk result (D.moments store.new
        ≡ option_map settle (option_map (try_change (SetRoot root.now) (with_root root.now)) (D.moments store.old))) }
    ensures failed { OnErr result (MayDo (with_root root.now) (D.holds store.old) (D.holds store.new)) }
    ensures tried { OnErr result
        (MayTry (SetRoot root.now) (with_root root.now) (D.moments store.old) (D.moments store.new)) }
    ensures reads { D.reads store.new ≡ D.reads store.old }
    ensures cause { HasFaultCause (D.faults store.old) (D.faults store.new) result }
{
    store.set_root(root)?;
    store.sync()
}

/// Removes the blobs that are no longer needed, and the checkpoint before, if there is one.
fn remove_unneeded<D: Store>(store: &mut D, stale: &[u64], checkpoint: u64) -> Result<(), Fault>
    ensures removed { OnOk result
        (D.holds store.new ≡ all_done remove_blob (stale.now ++ checkpoint_blob checkpoint) (D.holds store.old)) }
    ensures settled { OnOk result
        (D.moments store.new ≡ all_done try_removal (stale.now ++ checkpoint_blob checkpoint) (D.moments store.old)) }
    ensures failed { OnErr result (SomeDone remove_blob (stale.now ++ checkpoint_blob checkpoint) (D.holds store.old) (D.holds store.new)) }
    ensures tried { OnErr result
        (SomeDone try_removal (stale.now ++ checkpoint_blob checkpoint) (D.moments store.old) (D.moments store.new)) }
    ensures reads { D.reads store.new ≡ D.reads store.old }
    ensures cause { HasFaultCause (D.faults store.old) (D.faults store.new) result }
{
    for blob in stale {
        store.remove(*blob)?;
    }
    if checkpoint == 0 {
        return Ok(());
    }
    store.remove(checkpoint)
}
