//! Containment in windows and of windows, by lengths: no window is listed.
ghost use Rattle.std.specs.Prelude.{◌≡◌, ◌-◌, ◌≤◌, ◌&&◌, true, All, nat_le, nat_lt, IfOk, IsTrue, filter};
ghost use Rattle.wu_solve.specs.Frames.{lies_in_one};
ghost use Rattle.wu_solve.specs.Merging.{is_wanted};
ghost use Rattle.wu_solve.specs.Solving.{IsFrame};
ghost use Rattle.wu_base.specs.Ranges.{AreApart};
ghost use Rattle.wu_solve.specs.Windows.{lies_in_window, holds_window};

use crate::containment::is_kept;
use crate::framing::lies_in_one;
use std::alloc::Global;
use wu_base::{Extent, NoMemory, Range};

/// The extents that a window of that size holds; those that none does, if `wanted` is false. They are
/// those of an expression, so each lies in one of the frames; where all of these have room for a
/// window, only the lengths of the extents are looked at.
pub fn held_by_windows(
    alloc: Global,
    wanted: bool,
    extents: &[Extent],
    size: u16,
    frames: &[Range],
) -> Result<Vec<Extent>, NoMemory>
    requires frames { All IsFrame frames.now }
    requires apart { AreApart frames.now }
    ensures { All (λ x. lies_in_one frames.now x ≡ true) extents.now
        → IfOk result (λ v. v.items ≡ filter (λ x. is_wanted wanted (lies_in_window size frames.now x)) extents.now) }
{
    let room = u64::from(size);
    if have_room(room, frames) {
        return no_longer(alloc, wanted, extents, size);
    }
    let roomy = with_room(alloc, room, frames)?;
    short_in(alloc, wanted, extents, size, &roomy)
}

/// Whether each of the frames has at least so many addresses. If not, those that have are picked out.
fn have_room(size: u64, frames: &[Range]) -> bool
    ensures { IsTrue result → All (λ frame. size ≤ frame.len) frames.now }
{
    for frame in frames {
        if frame.len < size {
            return false;
        }
    }
    true
}

/// The extents that are no longer than a window of that size; the others, if `wanted` is false.
fn no_longer(
    alloc: Global,
    wanted: bool,
    extents: &[Extent],
    size: u16,
) -> Result<Vec<Extent>, NoMemory>
    ensures { IfOk result (λ v. v.items ≡ filter (λ x. is_wanted wanted (nat_lt (x.end - x.start) size)) extents.now) }
{
    let mut kept = Vec::new(alloc);
    for extent in extents {
        let is_short = extent.end.saturating_sub(extent.start) < u64::from(size);
        if is_kept(wanted, is_short) {
            kept.push(*extent)?;
        }
    }
    Ok(kept)
}

/// The extents that lie in one of the frames and are no longer than a window of that size; the others,
/// if `wanted` is false.
fn short_in(
    alloc: Global,
    wanted: bool,
    extents: &[Extent],
    size: u16,
    roomy: &[Range],
) -> Result<Vec<Extent>, NoMemory>
    requires frames { All IsFrame roomy.now }
    requires apart { AreApart roomy.now }
    ensures { IfOk result (λ v. v.items ≡ filter (λ x. is_wanted wanted (nat_lt (x.end - x.start) size && lies_in_one roomy.now x)) extents.now) }
{
    let mut kept = Vec::new(alloc);
    let mut place = 0;
    for extent in extents {
        if is_kept(wanted, lies_in_window(extent, size, roomy, &mut place)) {
            kept.push(*extent)?;
        }
    }
    Ok(kept)
}

/// Whether a window of that size holds the extent, by the frames with room for one.
#[inline(always)]
fn lies_in_window(extent: &Extent, size: u16, roomy: &[Range], remembered: &mut usize) -> bool
    requires frames { All IsFrame roomy.now }
    requires apart { AreApart roomy.now }
    ensures { result ≡ (nat_lt (extent.now.end - extent.now.start) size && lies_in_one roomy.now extent.now) }
{
    extent.end.saturating_sub(extent.start) < u64::from(size)
        && lies_in_one(roomy, remembered, extent)
}

/// The frames that have at least so many addresses.
fn with_room(alloc: Global, size: u64, frames: &[Range]) -> Result<Vec<Range>, NoMemory>
    ensures { IfOk result (λ v. v.items ≡ filter (λ frame. nat_le size frame.len) frames.now) }
{
    let mut roomy = Vec::new(alloc);
    for frame in frames {
        if size <= frame.len {
            roomy.push(*frame)?;
        }
    }
    Ok(roomy)
}

/// Whether the extent holds a window of that size.
#[inline(always)]
fn holds_window(extent: &Extent, size: u16) -> bool
    ensures { result ≡ holds_window size extent.now }
{
    let size = u64::from(size);
    size > 0 && size - 1 <= extent.end.saturating_sub(extent.start)
}

/// The extents that hold a window of that size; those that hold none, if `wanted` is false.
pub fn holding_windows(
    alloc: Global,
    wanted: bool,
    extents: &[Extent],
    size: u16,
) -> Result<Vec<Extent>, NoMemory>
    ensures { IfOk result (λ v. v.items ≡ filter (λ x. is_wanted wanted (holds_window size x)) extents.now) }
{
    let mut kept = Vec::new(alloc);
    for extent in extents {
        if is_kept(wanted, holds_window(extent, size)) {
            kept.push(*extent)?;
        }
    }
    Ok(kept)
}
