//! Frames, mended after a file had a new text.
ghost use Rattle.std.specs.Prelude.{◌≡◌, ◌≢◌, ◌<◌, ◌++◌, [], ◌∷◌, IfSome, IfNone, length};
ghost use Rattle.std.specs.List.{AllByRecursion, HoldsAt, remove};
ghost use Rattle.std.specs.List.Sorted.{IsNonDecreasingBy};
ghost use Rattle.wu_frames.specs.declared.mending.TheConstants.{MENDS_MAX};
ghost use Rattle.wu_frames.specs.Mending.{MayForget, MayMove, with_last};

use crate::{Frame, Frames};
use std::alloc::Global;
use std::mem;
use wu_base::{Ino, Range, Sequence};

/// How often the frames of a user are mended, at most, from one time that she asks to the next.
pub const MENDS_MAX: u32 = 64;

/// The place of the frame that starts at the address.
pub(crate) fn place_of(frames: &[Frame], start: u64) -> Option<usize>
    ensures found { IfSome result (λ place. place < length frames.now) }
    ensures there { IfSome result (HoldsAt (λ frame. frame.range.start ≡ start) frames.now) }
    ensures none { IfNone result (IsNonDecreasingBy (λ frame. frame.range.start) frames.now
        → AllByRecursion (λ frame. frame.range.start ≢ start) frames.now) }
{
    let place = frames.partition_point(|frame| frame.range.start < start);
    match frames.get(place) {
        Some(frame) if frame.range.start == start => Some(place),
        _ => None,
    }
}

/// The frame at that place with the new range, and how many addresses all frames have then. None where the frame isn't
/// the file's, where the frames were mended `MENDS_MAX` times since their user asked, and where they aren't right.
pub(crate) fn moved(frames: &Frames, place: usize, ino: Ino, new: Range) -> Option<(Frame, u64)>
    requires { place < length frames.now.by_address }
    ensures may { IfSome result (λ moved. MayMove place ino new frames.now moved.0 moved.1) }
    ensures none { IfNone result (MayForget place ino new frames.now) }
{
    let frame = frames.by_address.as_slice()[place];
    if frame.ino != ino || frames.mends >= MENDS_MAX || place >= frames.ranges.len() {
        return None;
    }
    let left = frames.total.checked_sub(frame.range.len)?;
    let sum = left.checked_add(new.len)?;
    Some((
        Frame {
            range: new,
            ..frame
        },
        sum,
    ))
}

/// Puts that frame behind all others, in place of the one at that place, and counts a mend. Takes no memory.
pub(crate) fn mend(alloc: Global, frames: &mut Frames, place: usize, last: Frame, sum: u64)
    requires frame { place < length frames.old.by_address }
    requires range { place < length frames.old.ranges }
    requires few { frames.old.mends < MENDS_MAX }
    ensures { frames.new ≡ with_last place last sum frames.old }
{
    put_last(alloc, &mut frames.by_address, place, last);
    put_last(alloc, &mut frames.ranges, place, last.range);
    frames.total = sum;
    frames.mends += 1;
}

/// Takes the item at that place away, and puts another one behind all others. Takes no memory.
fn put_last<T: Drop>(alloc: Global, items: &mut Sequence<T>, place: usize, last: T)
    requires { place < length items.old }
    ensures { items.new ≡ remove items.old place ++ last ∷ [] }
{
    let mut changed = mem::replace(items, Sequence::new(alloc)).into_vec();
    drop(changed.remove(place));
    // There is room for it, since one was taken away.
    let _ = changed.push(last);
    *items = Sequence::from(changed);
}
