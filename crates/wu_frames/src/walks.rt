//! Walks over the frames that are kept. Each turn takes the user who asked longest ago and puts her before all others,
//! or forgets her: after as many turns as there are users, those who are left stand in their old order. No walk takes
//! memory, so nobody's frames depend on it.
ghost use Rattle.std.specs.Prelude.{◌≡◌, filter};
ghost use Rattle.wu_frames.specs.Changes.{is_spared};
ghost use Rattle.wu_frames.specs.Mending.{IsCacheAfterMove, MendsLast};
ghost use Rattle.wu_frames.specs.UserFrames.{AreSeldomMended};
ghost use Rattle.wu_frames.specs.Walks.{MovesLast};

use crate::changes::{Change, is_spared};
use crate::{Frames, mending};
use lru::LruCache;
use std::alloc::Global;
use wu_base::{Ino, Range, Uid};
use wu_tree::Tree;

/// Forgets the frames of each user whom the change doesn't spare. Takes no memory.
pub(crate) fn forget_changed(kept: &mut LruCache<Uid, Frames>, tree: &Tree, change: &Change)
    ensures entries { kept.new.entries ≡ filter (λ entry. is_spared tree.now change.now entry.0) kept.old.entries }
    ensures cap { kept.new.cap ≡ kept.old.cap }
{
    for _ in 0..kept.len() {
        let Some((uid, _)) = kept.peek_lru() else {
            break;
        };
        if is_spared(tree, change, *uid) {
            last_to_front(kept);
        } else {
            drop(kept.pop_lru());
        }
    }
}

/// Brings the frames up to date after the file went from the old range to the new one. Takes no memory.
pub(crate) fn mend_each(
    alloc: Global,
    kept: &mut LruCache<Uid, Frames>,
    ino: Ino,
    old: Range,
    new: Range,
)
    ensures entries { IsCacheAfterMove ino old new kept.old.entries kept.new.entries }
    ensures few { AreSeldomMended kept.old.entries → AreSeldomMended kept.new.entries }
    ensures cap { kept.new.cap ≡ kept.old.cap }
{
    for _ in 0..kept.len() {
        mend_last(alloc, kept, ino, old, new);
    }
}

/// Brings the frames of the user who asked longest ago up to date, and puts her before all others. Hers are forgotten
/// where one of them was to be moved and can't be.
fn mend_last(alloc: Global, kept: &mut LruCache<Uid, Frames>, ino: Ino, old: Range, new: Range)
    ensures entries { MendsLast ino old new kept.old.entries kept.new.entries }
    ensures cap { kept.new.cap ≡ kept.old.cap }
{
    // That no user is there twice is said of the length.
    let _ = kept.len();
    let Some((uid, frames)) = kept.peek_lru() else {
        return;
    };
    match mending::place_of(frames.by_address.as_slice(), old.start) {
        None => last_to_front(kept),
        Some(place) => match mending::moved(frames, place, ino, new) {
            None => drop(kept.pop_lru()),
            Some((last, sum)) => {
                let uid = *uid;
                if let Some(frames) = kept.get_mut(&uid) {
                    mending::mend(alloc, frames, place, last, sum);
                }
            }
        },
    }
}

/// Puts the user who asked longest ago before all others. Takes no memory.
fn last_to_front(kept: &mut LruCache<Uid, Frames>)
    ensures entries { MovesLast kept.old.entries kept.new.entries }
    ensures cap { kept.new.cap ≡ kept.old.cap }
{
    // That no user is there twice is said of the length.
    let _ = kept.len();
    if let Some((uid, _)) = kept.peek_lru() {
        let uid = *uid;
        kept.promote(&uid);
    }
}
