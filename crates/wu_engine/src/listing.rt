//! The open paths of a user's files, told file by file.
ghost use Rattle.std.specs.Prelude.{◌≡◌, ◌+◌, Option, Some, IfOk, OnOk, length};
ghost use Rattle.std.specs.Prelude.{option_map, slice_get};
ghost use Rattle.wu_view.specs.declared.Seen.{Seen};
ghost use Rattle.wu_view.specs.Views.{view_of as files_of};
ghost use Rattle.wu_ask.specs.Questions.{ListingPaths};
ghost use Rattle.wu_ask.specs.declared.Answered.TheVariants.{Paths};
ghost use Rattle.wu_outside.specs.Content.{Content};
ghost use Rattle.wu_frames.specs.UserFrames.{CacheMatchesTree, HasAsked};
ghost use Rattle.wu_query.specs.States.{State};
ghost use Rattle.wu_query.specs.View.{view_of};
ghost use Rattle.wu_query.specs.Answer.{answer};
ghost use Rattle.wu_engine.specs.Listing.{files_kept, paths_of};

use crate::engines::Engine;
use std::alloc::Global;
use wu_base::{Bytes, NoMemory, Sequence, Trouble, Uid};
use wu_frames::FrameCache;
use wu_space::Space;
use wu_tree::Tree;
use wu_view::View;

impl Engine {
    ghost use Rattle.wu_engine.specs.Listing.{AnswersUnasked, KeepsAllButFrames};
    ghost use Rattle.wu_engine.specs.Stands.{Stands};

    /// Has the user's view kept, and answers how many open paths its files have together: those
    /// that [`paths_at`](Engine::paths_at) then gives, file by file. No store is asked, and nothing
    /// of the engine changes but which frames it keeps, and the trouble that ended it.
    ///
    /// Takes memory for one file's paths and, where her view isn't kept, for that. The one error is
    /// out of memory, also where the count has more than 64 bits. It ends the engine, and a trouble
    /// that ended it is answered again.
    pub fn ask_paths(&mut self, uid: Uid) -> Result<u64, Trouble>
        // The paths of the files that are kept for her are the written answer, and the engine
        // stands for the same state.
        ensures answer { (holds : Option Content) (s : State) → Stands self.old holds s
            → OnOk result ((Paths (paths_of (files_kept self.new.frames uid))
            ≡ answer (view_of s uid) ListingPaths) × Stands self.new holds s) }
        // And it answers how many they are.
        ensures count { IfOk result (λ count.
            count ≡ length (paths_of (files_kept self.new.frames uid))) }
        // All else stays, whatever the answer.
        ensures same { KeepsAllButFrames self.old self.new }
        // Her frames are the first that are kept then, and those of the others are as they were,
        // as far as there is room.
        ensures frames { OnOk result (HasAsked uid self.old.frames self.new.frames) }
        // An engine that answers goes on, and a trouble ends it.
        ensures ends { AnswersUnasked self.old self.new result }
    {
        if let Some(trouble) = self.ended {
            return Err(trouble);
        }
        self.ended = Some(Trouble::NoMemory);
        match keep_view(self.alloc, &self.tree, &self.space, &mut self.frames, uid) {
            Ok(count) => {
                self.ended = None;
                Ok(count)
            }
            Err(NoMemory) => Err(self.end_with(Trouble::NoMemory)),
        }
    }

    /// How many files the user's view has, where it is kept; else 0.
    pub fn files_kept(&self, uid: Uid) -> usize
        ensures { result ≡ length (files_kept self.now.frames uid) }
    {
        match self.frames.kept(uid) {
            Some(frames) => frames.seen.len(),
            None => 0,
        }
    }

    /// The open paths of the file at that place of the user's view, counted from 0. There are none
    /// past its last file, nor where her view isn't kept. The one error is out of memory, which
    /// changes nothing.
    pub fn paths_at(&self, uid: Uid, place: usize) -> Result<Option<Sequence<Bytes>>, NoMemory>
        ensures { IfOk result (λ paths. paths
            ≡ option_map (λ seen. seen.paths) (slice_get (files_kept self.now.frames uid) place)) }
    {
        match self.frames.kept(uid) {
            Some(frames) => match frames.seen.seen_at(self.alloc, place)? {
                Some(seen) => Ok(Some(seen.paths)),
                None => Ok(None),
            },
            None => Ok(None),
        }
    }
}

/// Has the user's view kept, and answers how many open paths its files have together.
fn keep_view(
    alloc: Global,
    tree: &Tree,
    space: &Space,
    kept: &mut FrameCache,
    uid: Uid,
) -> Result<u64, NoMemory>
    requires { CacheMatchesTree tree.now space.now.ranges kept.old }
    ensures right { CacheMatchesTree tree.now space.now.ranges kept.new }
    ensures asked { OnOk result (HasAsked uid kept.old kept.new) }
    ensures view { OnOk result (files_kept kept.new uid ≡ files_of tree.now uid) }
    ensures count { IfOk result (λ count. count ≡ length (paths_of (files_kept kept.new uid))) }
{
    kept.prepare(tree, space, uid)?;
    match kept.kept(uid) {
        Some(frames) => count_paths(alloc, &frames.seen),
        // It was just prepared.
        None => unreachable!(),
    }
}

/// How many open paths the files of the view have together. Out of memory is also a count of more
/// than 64 bits.
fn count_paths(alloc: Global, view: &View) -> Result<u64, NoMemory>
    ensures { IfOk result (λ count. count ≡ length (paths_of view.now)) }
{
    let mut count = 0_u64;
    for place in 0..view.len() {
        count = count_more(alloc, view, place, count)?;
    }
    Ok(count)
}

/// The count, with the open paths of the file at that place.
fn count_more(alloc: Global, view: &View, place: usize, count: u64) -> Result<u64, NoMemory>
    ensures { (seen : Seen) → slice_get view.now place ≡ Some seen
        → IfOk result (λ sum. sum ≡ count + length seen.paths) }
{
    match view.seen_at(alloc, place)? {
        Some(seen) => match count.checked_add(seen.paths.len() as u64) {
            Some(sum) => Ok(sum),
            None => Err(NoMemory),
        },
        None => Ok(count),
    }
}
