//! The checker of stores: from the root, the checkpoint that it names, and then what this records.
ghost use Rattle.std.specs.Prelude.{◌≡◌, ◌+◌, ◌^◌, ◌<◌, IfOk, IfSome};
ghost use Rattle.wu_outside.specs.Faults.{HasFaultCause};
ghost use Rattle.wu_outside.specs.Reading.{OnlyReads};
ghost use Rattle.wu_image.specs.Checkpoints.{IsCheckpoint};
ghost use Rattle.wu_check.specs.Checking.{IsIndexChecked};
ghost use Rattle.wu_check.specs.Reads.{AreOfIndex, AreRead, AreUnderRoot, IfSound};
ghost use Rattle.wu_check.specs.Reads.{MayBeOfIndex, MayBeRead, MayBeUnderRoot};
ghost use Rattle.wu_check.specs.Reads.{ReadsAllOf, ReadsFrontOf};
ghost use Rattle.wu_check.specs.Wrong.{IsChecked, IsRootOf};

use crate::counting::{counted_parts, counts};
use crate::saved::{checkpoint_of, root_given};
use crate::texts::by_address;
use crate::walking::first_wrong;
use std::alloc::Global;
use wu_image::{Checkpoint, ROOT_LEN, Root};
use wu_outside::{Fault, Store};

/// What a checker finds of a store.
#[derive(Clone, Copy, Debug, PartialEq, Eq)]
pub enum Checked {
    /// Nothing is wrong. There are so many regular files, addresses in their ranges, postings in
    /// the index, and parts of it.
    Sound {
        files: u64,
        live: u64,
        stored: u64,
        parts: u64,
    },
    /// The first blob that is wrong, where the root counts as blob 0.
    Broken {
        blob: u64,
    },
}

/// Reads the whole store, and finds the first that is wrong in it, in this order: the root, the
/// checkpoint, the texts by their addresses, the parts from left to right; or counts what it holds.
/// A store without a root is sound, and holds nothing. Each blob is read at most once, after its
/// size was asked: the checkpoint, and then each part from left to right, and behind it the texts
/// of its span. Errors are a fault of the store, only where its count rose, and out of memory.
/// Takes memory for the checkpoint, for one part and for one text.
pub fn check<D: Store>(alloc: Global, store: &mut D) -> Result<Checked, Fault>
    ensures checked { IfOk result (λ checked. IfSome (D.holds store.old)
        (λ content. IsChecked content checked)) }
    ensures reads { OnlyReads D.Store store.old store.new result }
    ensures ranges { IfSome (D.holds store.old) (λ content. ReadsFrontOf (MayBeRead content)
        (D.reads store.old) (D.reads store.new)) }
    ensures whole { IfOk result (λ checked. IfSound checked (IfSome (D.holds store.old)
        (λ content. ReadsAllOf (AreRead content) (D.reads store.old) (D.reads store.new)))) }
    ensures cause { HasFaultCause (D.faults store.old) (D.faults store.new) result }
{
    let mut bytes = [0; ROOT_LEN];
    match store.root(&mut bytes)? {
        None => Ok(Checked::Sound {
            files: 0,
            live: 0,
            stored: 0,
            parts: 0,
        }),
        Some(count) => match root_given(count, &bytes) {
            Some(root) => check_saved(alloc, store, &root),
            None => Ok(Checked::Broken { blob: 0 }),
        },
    }
}

/// What is found under the root.
fn check_saved<D: Store>(alloc: Global, store: &mut D, root: &Root) -> Result<Checked, Fault>
    requires { IfSome (D.holds store.old) (λ content. IsRootOf content root.now) }
    ensures checked { IfOk result (λ checked. IfSome (D.holds store.old)
        (λ content. IsChecked content checked)) }
    ensures reads { OnlyReads D.Store store.old store.new result }
    ensures ranges { IfSome (D.holds store.old) (λ content.
        ReadsFrontOf (MayBeUnderRoot content root.now) (D.reads store.old) (D.reads store.new)) }
    ensures whole { IfOk result (λ checked. IfSound checked (IfSome (D.holds store.old)
        (λ content. ReadsAllOf (AreUnderRoot content AreOfIndex root.now)
        (D.reads store.old) (D.reads store.new)))) }
    ensures cause { HasFaultCause (D.faults store.old) (D.faults store.new) result }
{
    match checkpoint_of(alloc, store, root)? {
        Some(checkpoint) => check_index(alloc, store, root.version, &checkpoint),
        None => Ok(Checked::Broken {
            blob: root.checkpoint,
        }),
    }
}

/// What is found of the texts and the parts that the checkpoint records.
fn check_index<D: Store>(
    alloc: Global,
    store: &mut D,
    version: u8,
    checkpoint: &Checkpoint,
) -> Result<Checked, Fault>
    requires rules { IsCheckpoint checkpoint.now }
    requires next { checkpoint.now.next_address < 2 ^ 64 }
    ensures checked { IfOk result (λ checked. IfSome (D.holds store.old)
        (λ content. IsIndexChecked content version checkpoint.now checked)) }
    ensures reads { OnlyReads D.Store store.old store.new result }
    ensures ranges { ReadsFrontOf (MayBeOfIndex version checkpoint.now)
        (D.reads store.old) (D.reads store.new) }
    ensures whole { IfOk result (λ checked. IfSound checked
        (ReadsAllOf (AreOfIndex version checkpoint.now) (D.reads store.old) (D.reads store.new))) }
    ensures cause { HasFaultCause (D.faults store.old) (D.faults store.new) result }
{
    let files = by_address(alloc, checkpoint.files.as_slice())?;
    let parts = counted_parts(version, checkpoint);
    match first_wrong(alloc, store, &files, parts)? {
        Some(blob) => Ok(Checked::Broken { blob }),
        None => Ok(counts(version, &files, parts)),
    }
}
