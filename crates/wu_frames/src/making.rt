//! Frames, made of a view and the live ranges.
ghost use Rattle.std.specs.Prelude.{◌≡◌, ◌≤◌, ◌<◌, ◌^◌, ◌++◌, ◌==◌, ℕ, IfOk, OnOk, IsPermutation, count_by, map, option_map, sum_by, length};
ghost use Rattle.std.specs.List.Sorted.{IsNonDecreasingBy};
ghost use Rattle.std.specs.Option.{option_to_list};
ghost use Rattle.wu_space.specs.Addresses.{range_of};
ghost use Rattle.wu_frames.specs.UserFrames.{AreFrames, frame_with, frames_in, length_of};

use crate::{Frame, Frames};
use std::alloc::Global;
use wu_base::{Ino, NoMemory, Range, Sequence, Uid};
use wu_space::Space;
use wu_tree::Tree;
use wu_view::{View, view_of};

/// The frames of the user, made anew.
pub(crate) fn made(alloc: Global, tree: &Tree, space: &Space, uid: Uid) -> Result<Frames, NoMemory>
    ensures right { IfOk result (λ frames. AreFrames tree.now space.now.ranges uid frames) }
    ensures anew { IfOk result (λ frames. frames.mends ≡ 0) }
{
    space.keeps_the_rules();
    let seen = view_of(alloc, tree, uid)?;
    let by_address = by_address(alloc, space, &seen)?;
    let ranges = ranges_of(alloc, by_address.as_slice())?;
    let total = length(ranges.as_slice());
    Ok(Frames {
        by_address: Sequence::from(by_address),
        seen,
        ranges: Sequence::from(ranges),
        total,
        mends: 0,
    })
}

/// The frames of the files, in the order of their first addresses.
fn by_address(alloc: Global, space: &Space, seen: &View) -> Result<Vec<Frame>, NoMemory>
    requires { (ino : ℕ) → count_by (λ file. file.ino == ino) seen.now ≤ 1 }
    ensures frames { IfOk result (λ frames. IsPermutation (frames_in space.now.ranges seen.now) frames.items) }
    ensures order { IfOk result (λ frames. IsNonDecreasingBy (λ frame. frame.range.start) frames.items) }
{
    let mut frames = in_view_order(alloc, space, seen)?;
    frames.sort_unstable_by_key(|frame| frame.range.start);
    Ok(frames)
}

/// The frames of the files, in the order of the files. A file's number has 32 bits and no file is there
/// twice, so its place has 32 bits too.
fn in_view_order(alloc: Global, space: &Space, seen: &View) -> Result<Vec<Frame>, NoMemory>
    requires { (ino : ℕ) → count_by (λ file. file.ino == ino) seen.now ≤ 1 }
    ensures { IfOk result (λ frames. frames.items ≡ frames_in space.now.ranges seen.now) }
{
    let mut frames = Vec::new(alloc);
    for place in 0..seen.len() {
        match seen.ino_at(place) {
            Some(ino) => put_frame(&mut frames, space, place, ino)?,
            None => {}
        }
    }
    Ok(frames)
}

/// Puts the frame of the file at that place of the view at the end, where the file has a live range.
fn put_frame(frames: &mut Vec<Frame>, space: &Space, place: usize, ino: Ino) -> Result<(), NoMemory>
    requires { place < 2 ^ 32 }
    ensures { OnOk result (frames.new.items
        ≡ frames.old.items ++ option_to_list (option_map (frame_with place ino) (range_of space.now.ranges ino))) }
{
    match space.range_of(ino) {
        Some(range) => Ok(frames.push(frame_at(place, ino, range))?),
        None => Ok(()),
    }
}

/// The frame of the file at that place of the view.
fn frame_at(place: usize, ino: Ino, range: Range) -> Frame
    requires { place < 2 ^ 32 }
    ensures { result ≡ frame_with place ino range }
{
    Frame {
        range,
        ino,
        place: place as u32,
    }
}

/// The ranges of the frames.
fn ranges_of(alloc: Global, frames: &[Frame]) -> Result<Vec<Range>, NoMemory>
    ensures { IfOk result (λ ranges. ranges.items ≡ map (λ frame. frame.range) frames.now) }
{
    let mut ranges = Vec::with_capacity(alloc, frames.len())?;
    for frame in frames {
        ranges.push(frame.range)?;
    }
    Ok(ranges)
}

/// How many addresses the ranges have together.
fn length(ranges: &[Range]) -> u64
    requires { length_of ranges.now < 2 ^ 64 }
    ensures { result ≡ length_of ranges.now }
{
    ranges.iter().map(|range| range.len).sum()
}
