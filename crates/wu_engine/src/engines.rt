//! The engine, how it is opened, and how it is saved.
ghost use Rattle.std.specs.Prelude.{◌≡◌, ◌+◌, ◌<◌, ◌^◌, None, Some, OnErr, OnOk};
ghost use Rattle.std.specs.Coded.{→_prop};
ghost use Rattle.wu_query.specs.Soundness.{IsSound, IsSound-prop};

use crate::faults::BeginFault;
use crate::opening::{find_saved, open_first, open_saved};
use crate::saving::save;
use std::alloc::Global;
use std::collections::BTreeMap;
use wu_base::{Ino, Trouble};
use wu_frames::FrameCache;
use wu_image::FileRec;
use wu_outside::Store;
use wu_parts::Parts;
use wu_space::Space;
use wu_tree::Tree;

/// The file tree, the index of all files' texts, where each text is in the store, and the frames of
/// the users who asked last. It keeps no text. A call that answers a trouble ends it: each later
/// call answers that trouble and changes nothing.
#[derive(Drop)]
pub struct Engine {
    pub tree: Tree,
    pub space: Space,
    pub parts: Parts,
    /// What is recorded of each regular file's text, by the file's number.
    pub files: BTreeMap<Ino, FileRec>,
    pub frames: FrameCache,
    /// The blob of the checkpoint that the root names, or 0.
    pub checkpoint: u64,
    /// The trouble that ended it.
    pub ended: Option<Trouble>,
    pub(crate) alloc: Global,
    ghost sound: { ended ≡ None → IsSound tree space parts files.entries frames } by { →_prop (IsSound-prop tree space parts files.entries frames) },
}

impl Engine {
    ghost use Rattle.wu_engine.specs.States.{saved_state};
    ghost use Rattle.wu_engine.specs.Calls.{AnswersOrEnds, DrawsAtMost, IsSameEngine, KeepsFiles};
    ghost use Rattle.wu_engine.specs.Calls.{Leads, ReadsNothing};
    ghost use Rattle.wu_engine.specs.Begun.{FailsByCause, GoesOnFrom, IsFresh, ReadsToOpen};
    ghost use Rattle.wu_engine.specs.Begun.{SyncsOnly};
    ghost use Rattle.wu_engine.specs.Saved.{KeepsEarlier, LeavesSaved, RemovesUnneeded};
    ghost use Rattle.wu_engine.specs.SavedStores.{Saves};

    /// An engine that goes on where the last save left the store: memory is full at `flush_at`
    /// postings. A store without a root is that of the root directory alone, without a posting. The
    /// engine keeps the allocator.
    ///
    /// The store is synced, and then the root is read, once, the checkpoint that it names, and of
    /// each part, from left to right, the header and the directory: no text and no block. Where the
    /// root is of the first version, no part is read, but each text that isn't empty, whole, in the
    /// order of their addresses, and indexed anew: its terms are in memory then, and the parts'
    /// blobs are no longer needed. Nothing else is changed.
    ///
    /// A fault of the store and out of memory end it at any step; memory is taken for the
    /// checkpoint only once its size was asked and is the root's. Else `Damaged` comes exactly where
    /// one of these is broken, with the first of them: the root, which is blob 0, the checkpoint,
    /// the parts from left to right or, by the root's version, the texts. `Spent` comes after the
    /// root and before the checkpoint, exactly where the root's next address is at least SPENT_AT or
    /// its next blob at least BLOBS_SPENT_AT, with the first of the two that is.
    pub fn begin<D: Store>(
        alloc: Global,
        store: &mut D,
        flush_at: u64,
    ) -> Result<Engine, BeginFault>
        // The engine goes on from what the store holds, and is that of the checkpoint there.
        ensures stands { GoesOnFrom D.Store store.old store.new result }
        // It is one that was just made, with room for a session.
        ensures fresh { IsFresh flush_at result }
        // What is read of the store is what an opening reads.
        ensures reads { ReadsToOpen D.Store store.old store.new result }
        // The store is synced, and nothing is changed in it.
        ensures store { SyncsOnly D.Store store.old store.new result }
        // Each fault comes exactly where it is said to.
        ensures fails { FailsByCause D.Store store.old store.new result }
    {
        store.sync()?;
        match find_saved(store)? {
            None => Ok(open_first(alloc, flush_at)?),
            Some(root) => open_saved(alloc, store, &root, flush_at),
        }
    }

    /// Saves the state: flushes memory, writes a checkpoint under the next blob's number, makes the
    /// store sync what was put, gives it the root that names the checkpoint, makes it sync that,
    /// and then removes the blobs that are no longer needed and the checkpoint before. A job under
    /// way goes on, and is not part of what is saved. Until the new root is there the store holds
    /// all that the last one names. Nothing is read. Whatever it answers, the tree, the addresses,
    /// what is recorded of texts, and the kept frames stay as they are; after an error so does the
    /// number of the checkpoint.
    ///
    /// The number of the next blob, with two added, and that of the flushes, with one, are below
    /// 2^63. The errors are a fault of the store and out of memory. Each ends the engine, and a
    /// trouble that ended it is answered again.
    pub fn save<D: Store>(&mut self, store: &mut D) -> Result<(), Trouble>
        requires blobs { self.old.parts.next_blob + 2 < 2 ^ 63 }
        requires flushes { self.old.parts.flushes + 1 < 2 ^ 63 }
        // Engine and store stand for the saved state.
        ensures step { Leads D.Store saved_state self.old self.new store.old store.new result }
        // The store holds its image then, and a crash leaves that or the one before.
        ensures saved { LeavesSaved D.Store self.old store.old store.new result }
        // Of the engine only the parts and the checkpoint's number change.
        ensures same { KeepsFiles self.old self.new }
        // After an error that number is as it was.
        ensures checkpoint { OnErr result (self.new.checkpoint ≡ self.old.checkpoint) }
        // At most two blobs are drawn.
        ensures numbers { DrawsAtMost 2 self.old.parts self.new.parts }
        // The checkpoint is synced before the root is set, and that is synced before anything is
        // removed.
        ensures order { OnOk result (Saves self.old.tree self.old.space self.old.files.entries
            self.old.checkpoint self.new.checkpoint self.old.parts self.new.parts
            (D.holds store.old, D.moments store.old) (D.holds store.new, D.moments store.new)) }
        // Only the blobs that may be drawn, and those that are removed, may differ.
        ensures blobs { RemovesUnneeded D.Store self.old store.old store.new result }
        // Over whatever the store holds, no blob that was drawn before is written over.
        ensures earlier { KeepsEarlier D.Store self.old store.old store.new }
        // Nothing is read, and no blob is called damaged.
        ensures reads { ReadsNothing D.Store self.old store.old store.new result }
        // An engine that answers goes on, and a trouble ends it.
        ensures ends { AnswersOrEnds D.Store self.old self.new store.old store.new result }
    {
        let _untouched = &*store;
        if let Some(trouble) = self.ended {
            return Err(trouble);
        }
        self.ended = Some(Trouble::NoMemory);
        match save(
            self.alloc,
            store,
            &self.tree,
            &self.space,
            &mut self.parts,
            &self.files,
            self.checkpoint,
        ) {
            Ok(checkpoint) => {
                self.checkpoint = checkpoint;
                self.ended = None;
                Ok(())
            }
            Err(trouble) => Err(self.end_with(trouble)),
        }
    }

    /// Notes the trouble that ended it, and gives it back.
    pub(crate) fn end_with(&mut self, trouble: Trouble) -> Trouble
        ensures trouble { result ≡ trouble }
        ensures ended { self.new.ended ≡ Some trouble }
        ensures same { IsSameEngine self.old self.new }
    {
        self.ended = Some(trouble);
        trouble
    }
}
