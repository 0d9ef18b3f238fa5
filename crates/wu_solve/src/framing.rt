//! Frames that lie apart, and the extents in them.
ghost use Rattle.std.specs.Prelude.{◌≡◌, ℕ, ◌+◌, ◌<◌, ◌≤◌, All, length, filter, slice_index_or, IsTrue, ◌↔◌};
ghost use Rattle.wu_base.specs.declared.addresses.Range.{Range};
ghost use Rattle.wu_solve.specs.Frames.{is_place_of, lies_in_one, EndsAfter};
ghost use Rattle.wu_solve.specs.Solving.{IsFrame};
ghost use Rattle.wu_base.specs.Ranges.{AreApart};

use wu_base::{Extent, Range};

/// Where the frame ends: the first address behind it.
#[inline(always)]
pub fn end_of(frame: &Range) -> u64
    requires { IsFrame frame.now }
    ensures { result ≡ frame.now.start + frame.now.len }
{
    frame.start + frame.len
}

/// Whether each frame ends before the next one starts.
pub fn are_apart(frames: &[Range]) -> bool
    requires { All IsFrame frames.now }
    ensures { IsTrue result ↔ AreApart frames.now }
{
    for i in 1..frames.len() {
        if frames[i].start < end_of(&frames[i - 1]) {
            return false;
        }
    }
    true
}

/// How many frames in front end at the place or before it, found by steps that double.
fn ended(frames: &[Range], place: u64) -> usize
    requires frames { All IsFrame frames.now }
    requires apart { AreApart frames.now }
    ensures { EndsAfter frames.now place result }
{
    let mut passed = 0;
    let mut step = 1;
    while step <= frames.len() - passed && end_of(&frames[passed + (step - 1)]) <= place {
        passed += step;
        step = step.saturating_mul(2);
    }
    let reach = (step - 1).min(frames.len() - passed);
    let near = &frames[passed..passed + reach];
    passed + near.partition_point(|frame| frame.start.saturating_add(frame.len) <= place)
}

/// The remembered place, if all frames before it end at the address or before it; otherwise 0.
fn passed_over(frames: &[Range], remembered: usize, address: u64) -> usize
    requires frames { All IsFrame frames.now }
    requires apart { AreApart frames.now }
    ensures within { result ≤ length frames.now }
    ensures ended { (k : ℕ) → (d : Range) → k < result → (slice_index_or frames.now k d).start + (slice_index_or frames.now k d).len ≤ address }
{
    if remembered == 0 || frames.len() < remembered {
        return 0;
    }
    if address < end_of(&frames[remembered - 1]) {
        return 0;
    }
    remembered
}

/// The place of the first frame that ends behind the address. Addresses that ascend mostly lie in the
/// remembered frame, so that one is tried first.
#[inline(always)]
pub fn frame_at(frames: &[Range], remembered: usize, address: u64) -> usize
    requires frames { All IsFrame frames.now }
    requires apart { AreApart frames.now }
    ensures { EndsAfter frames.now address result }
{
    if remembered < frames.len() && is_in_frame(&frames[remembered], address) {
        return remembered;
    }
    sought_frame(frames, remembered, address)
}

/// Whether the address is one of the frame's.
#[inline(always)]
fn is_in_frame(frame: &Range, address: u64) -> bool
    requires { IsFrame frame.now }
    ensures { result ≡ is_place_of frame.now address }
{
    frame.start <= address && address < end_of(frame)
}

/// The place of the first frame that ends behind the address. It is sought from the remembered place
/// on, if no frame before that one can be it; the next frame is tried first.
fn sought_frame(frames: &[Range], remembered: usize, address: u64) -> usize
    requires frames { All IsFrame frames.now }
    requires apart { AreApart frames.now }
    ensures { EndsAfter frames.now address result }
{
    let next = remembered.saturating_add(1);
    if next < frames.len() && is_in_frame(&frames[next], address) {
        return next;
    }
    let passed = passed_over(frames, remembered, address);
    passed + ended(&frames[passed..], address)
}

/// Whether the extent lies in one of the frames. The place of the frame is remembered.
#[inline(always)]
pub fn lies_in_one(frames: &[Range], remembered: &mut usize, extent: &Extent) -> bool
    requires frames { All IsFrame frames.now }
    requires apart { AreApart frames.now }
    ensures { result ≡ lies_in_one frames.now extent.now }
{
    let place = frame_at(frames, *remembered, extent.start);
    *remembered = place;
    if place == frames.len() {
        return false;
    }
    let frame = frames[place];
    if extent.start < frame.start {
        return false;
    }
    extent.end < end_of(&frame)
}

/// The extents that lie in one of the frames, in the list's own memory.
pub fn lying_in(mut extents: Vec<Extent>, frames: &[Range]) -> Vec<Extent>
    requires frames { All IsFrame frames.now }
    requires apart { AreApart frames.now }
    ensures { result.items ≡ filter (lies_in_one frames.now) extents.items }
{
    let mut kept = 0;
    let mut place = 0;
    for i in 0..extents.len() {
        let extent = extents[i];
        if lies_in_one(frames, &mut place, &extent) {
            extents[kept] = extent;
            kept += 1;
        }
    }
    extents.truncate(kept);
    extents
}

/// How many of the first frames have no more than so many addresses together; one, if the first alone
/// has more. Which number it is only time and memory depend on, and no clause says more.
pub fn frames_within(frames: &[Range], most: u64) -> usize
    requires { 0 < length frames.now }
    ensures some { 0 < result }
    ensures within { result ≤ length frames.now }
{
    let mut total: u64 = 0;
    for i in 0..frames.len() {
        total = total.saturating_add(frames[i].len);
        if total > most {
            return i.max(1);
        }
    }
    frames.len()
}
