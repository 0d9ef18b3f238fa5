//! The access functions of an expression over frames that lie apart.
ghost use Rattle.std.specs.Prelude.{◌≡◌, ℕ, ◌+◌, ◌^◌, ◌<◌, ◌≤◌, All, length, slice_index_or};
ghost use Rattle.wu_base.specs.declared.addresses.Range.{Range};
ghost use Rattle.wu_cursor.specs.Access.{first_starting, last_ending};
ghost use Rattle.wu_gcl.specs.Regions.{region_of};
ghost use Rattle.wu_solve.specs.Addresses.{AreLists};
ghost use Rattle.wu_solve.specs.Solving.{moved, frame_hits, frames_hits, IsFrame};
ghost use Rattle.wu_base.specs.Ranges.{AreApart};

use crate::access::nearest_at;
use crate::directions::Direction;
use wu_base::{Extent, Range, TermList};
use wu_gcl::Expr;

/// The extent at addresses, where its places are counted from the frame's start.
fn moved(frame: Range, extent: Extent) -> Extent
    requires fits { frame.start + extent.end < 2 ^ 64 }
    requires ordered { extent.start ≤ extent.end }
    ensures { result ≡ moved frame.start extent }
{
    Extent {
        start: frame.start + extent.start,
        end: frame.start + extent.end,
    }
}

/// How many frames in front end at the place or before it.
fn ended(frames: &[Range], place: u64) -> usize
    requires frames { All IsFrame frames.now }
    requires apart { AreApart frames.now }
    ensures within { result ≤ length frames.now }
    ensures before { (k : ℕ) (d : Range) → k < result
        → (slice_index_or frames.now k d).start + (slice_index_or frames.now k d).len ≤ place }
{
    frames.partition_point(|frame| frame.start.saturating_add(frame.len) <= place)
}

/// How many frames in front start at the place or before it.
fn started(frames: &[Range], place: u64) -> usize
    requires apart { AreApart frames.now }
    ensures within { result ≤ length frames.now }
    ensures behind { (k : ℕ) (d : Range) → result ≤ k → k < length frames.now → place < (slice_index_or frames.now k d).start }
{
    frames.partition_point(|frame| frame.start <= place)
}

/// The first extent of the expression in the frame that starts at the address or after it.
fn first_in(expr: &Expr, lists: &[TermList], frame: Range, address: u64) -> Option<Extent>
    requires lists { AreLists lists.now }
    requires frame { IsFrame frame }
    ensures { result ≡ first_starting address (frame_hits (region_of expr.now) lists.now frame) }
{
    let from = address.saturating_sub(frame.start);
    let extent = nearest_at(Direction::Forward, expr, lists, frame, from)?;
    Some(moved(frame, extent))
}

/// The last extent of the expression in the frame that ends at the address or before it.
fn last_in(expr: &Expr, lists: &[TermList], frame: Range, address: u64) -> Option<Extent>
    requires lists { AreLists lists.now }
    requires frame { IsFrame frame }
    ensures { result ≡ last_ending address (frame_hits (region_of expr.now) lists.now frame) }
{
    if address < frame.start {
        return None;
    }
    let extent = nearest_at(
        Direction::Backward,
        expr,
        lists,
        frame,
        address - frame.start,
    )?;
    Some(moved(frame, extent))
}

/// The first extent of the expression in the frames that starts at the address or after it.
pub fn first_over(expr: &Expr, lists: &[TermList], frames: &[Range], address: u64) -> Option<Extent>
    requires lists { AreLists lists.now }
    requires frames { All IsFrame frames.now }
    requires apart { AreApart frames.now }
    ensures { result ≡ first_starting address (frames_hits (region_of expr.now) lists.now frames.now) }
{
    let mut index = ended(frames, address);
    while index < frames.len() {
        match first_in(expr, lists, frames[index], address) {
            Some(extent) => return Some(extent),
            None => index += 1,
        }
    }
    None
}

/// The last extent of the expression in the frames that ends at the address or before it.
pub fn last_over(expr: &Expr, lists: &[TermList], frames: &[Range], address: u64) -> Option<Extent>
    requires lists { AreLists lists.now }
    requires frames { All IsFrame frames.now }
    requires apart { AreApart frames.now }
    ensures { result ≡ last_ending address (frames_hits (region_of expr.now) lists.now frames.now) }
{
    let mut count = started(frames, address);
    while count > 0 {
        match last_in(expr, lists, frames[count - 1], address) {
            Some(extent) => return Some(extent),
            None => count -= 1,
        }
    }
    None
}
