//! The root of a store, and the checkpoint that it names.
ghost use Rattle.std.specs.Prelude.{◌≡◌, ◌≢◌, ◌≤◌, IfNone, IfOk, IfSome, MatchBool, MatchOption, length};
ghost use Rattle.std.specs.List.{AllByRecursion};
ghost use Rattle.wu_outside.specs.Faults.{HasFaultCause};
ghost use Rattle.wu_outside.specs.Reading.{OnlyReads};
ghost use Rattle.wu_image.specs.declared.checkpoints.Checkpoint.{Checkpoint};
ghost use Rattle.wu_image.specs.declared.roots.Root.{Root};
ghost use Rattle.wu_image.specs.Checkpoints.{IsCheckpoint, SpellsCheckpoint};
ghost use Rattle.wu_image.specs.Roots.{SpellsRoot};
ghost use Rattle.wu_check.specs.Reads.{ReadsAll, ReadsFront, whole_blob};
ghost use Rattle.wu_check.specs.Saved.{IsOwn};
ghost use Rattle.wu_check.specs.Wrong.{HasCheckpoint, IsSoundCheckpoint};

use crate::blobs::read_whole;
use std::alloc::Global;
use wu_base::{NoMemory, PartRec};
use wu_image::{Checkpoint, FileRec, Root, read_checkpoint, read_root};
use wu_outside::{Fault, Store};

/// The root of which the store gave the length and the first bytes. None where these aren't all of
/// its bytes or no root's spelling. Takes no memory.
pub(crate) fn root_given(count: usize, bytes: &[u8]) -> Option<Root>
    ensures whole { IfSome result (λ root. count ≡ length bytes.now) }
    ensures found { IfSome result (λ root. SpellsRoot root bytes.now) }
    ensures none { IfNone result ((root : Root) → count ≡ length bytes.now
        → SpellsRoot root bytes.now → ⊥) }
{
    if count == bytes.len() {
        read_root(bytes)
    } else {
        None
    }
}

/// The checkpoint that the root names. None where it is absent or isn't as the root says.
pub(crate) fn checkpoint_of<D: Store>(
    alloc: Global,
    store: &mut D,
    root: &Root,
) -> Result<Option<Checkpoint>, Fault>
    ensures found { IfOk result (λ found. IfSome found (λ checkpoint. IfSome (D.holds store.old)
        (λ content. HasCheckpoint content root.now checkpoint))) }
    ensures rules { IfOk result (λ found. IfSome found IsCheckpoint) }
    ensures none { IfOk result (λ found. IfNone found (IfSome (D.holds store.old)
        (λ content. (checkpoint : Checkpoint) → HasCheckpoint content root.now checkpoint → ⊥))) }
    ensures reads { OnlyReads D.Store store.old store.new result }
    ensures ranges { ReadsFront (whole_blob root.now.checkpoint root.now.size)
        (D.reads store.old) (D.reads store.new) }
    ensures whole { IfOk result (λ found. IfSome found (λ _.
        ReadsAll (whole_blob root.now.checkpoint root.now.size)
        (D.reads store.old) (D.reads store.new))) }
    ensures cause { HasFaultCause (D.faults store.old) (D.faults store.new) result }
{
    match read_whole(alloc, store, root.checkpoint, root.size)? {
        Some(bytes) => Ok(checkpoint_in(alloc, root, &bytes)?),
        None => Ok(None),
    }
}

/// The checkpoint of the root, of which these are the bytes, as many as it says. None where they
/// are no checkpoint's, or one that isn't as the root says. The one error is out of memory.
fn checkpoint_in(alloc: Global, root: &Root, bytes: &[u8]) -> Result<Option<Checkpoint>, NoMemory>
    requires { length bytes.now ≡ root.now.size }
    ensures found { IfOk result (λ found. IfSome found (IsSoundCheckpoint root.now bytes.now)) }
    ensures none { IfOk result (λ found. IfNone found ((checkpoint : Checkpoint)
        → IsSoundCheckpoint root.now bytes.now checkpoint → ⊥)) }
{
    match read_checkpoint(alloc, bytes)? {
        Some(checkpoint) => Ok(if_own(checkpoint, root)),
        None => Ok(None),
    }
}

/// The checkpoint, where it is as the root says.
fn if_own(checkpoint: Checkpoint, root: &Root) -> Option<Checkpoint>
    ensures { MatchOption result (IsOwn root.now checkpoint → ⊥)
        (λ own. (own ≡ checkpoint) × IsOwn root.now own) }
{
    if is_own(&checkpoint, root) {
        Some(checkpoint)
    } else {
        None
    }
}

/// Whether the checkpoint has the root's numbers, its own blob is none of its texts' and parts',
/// and, in the second version, it tells no more flushes than addresses.
fn is_own(checkpoint: &Checkpoint, root: &Root) -> bool
    ensures { MatchBool result (IsOwn root.now checkpoint.now) (IsOwn root.now checkpoint.now → ⊥) }
{
    checkpoint.next_address == root.next_address
        && checkpoint.next_blob == root.next_blob
        && is_no_text(root.checkpoint, checkpoint.files.as_slice())
        && is_no_part(root.checkpoint, checkpoint.parts.as_slice())
        && has_few_flushes(checkpoint, root.version)
}

/// Whether the blob is none of the texts'.
fn is_no_text(blob: u64, files: &[FileRec]) -> bool
    ensures { MatchBool result (AllByRecursion (λ file. file.blob ≢ blob) files.now)
        (AllByRecursion (λ file. file.blob ≢ blob) files.now → ⊥) }
{
    files.iter().all(|file| file.blob != blob)
}

/// Whether the blob is none of the parts'.
fn is_no_part(blob: u64, parts: &[PartRec]) -> bool
    ensures { MatchBool result (AllByRecursion (λ part. part.blob ≢ blob) parts.now)
        (AllByRecursion (λ part. part.blob ≢ blob) parts.now → ⊥) }
{
    parts.iter().all(|part| part.blob != blob)
}

/// Whether the checkpoint of a store of that version tells no more flushes than addresses, where
/// the version counts them.
fn has_few_flushes(checkpoint: &Checkpoint, version: u8) -> bool
    ensures { MatchBool result (version ≡ 2 → checkpoint.now.flushes ≤ checkpoint.now.next_address)
        ((version ≡ 2 → checkpoint.now.flushes ≤ checkpoint.now.next_address) → ⊥) }
{
    version != 2 || checkpoint.flushes <= checkpoint.next_address
}
