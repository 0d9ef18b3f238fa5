//! The units of a ranking, at addresses, each with the place of its file in the view.
ghost use Rattle.std.specs.Prelude.{◌≡◌, ◌≤◌, ◌<◌, ◌+◌, ◌^◌, ◌||◌, ◌==◌, ◌++◌, ◌∷◌, [], All, List, ℕ, false, if◌then◌else◌, drop, length};
ghost use Rattle.std.specs.Prelude.{map, take, slice_index_or, vec_len, IfOk, OnOk};
ghost use Rattle.std.specs.List.{AllByRecursion, list_any};
ghost use Rattle.wu_gcl.specs.Regions.{Region};
ghost use Rattle.wu_base.specs.declared.addresses.Extent.{Extent as AnExtent};
ghost use Rattle.wu_base.specs.declared.addresses.TermList.{TermList};
ghost use Rattle.wu_solve.specs.Solving.{frames_hits};
ghost use Rattle.wu_base.specs.Ranges.{AreApart};
ghost use Rattle.wu_query.specs.Finding.{files_listed, is_at_place, with_units};
ghost use Rattle.wu_query.specs.Rankings.{unit_at};
ghost use Rattle.wu_query.specs.Units.{AreUnits, CanBeSearched, count_before, end_of, file_unit, file_units, placed};

use std::alloc::Global;
use wu_base::{Extent, NoMemory};
use wu_frames::{Frame, Frames};
use wu_rank::Unit;
use wu_view::View;

/// The extents of an expression, by address, each with the place of its file in the view.
pub(crate) fn units_of(
    alloc: Global,
    frames: &Frames,
    extents: &[Extent],
) -> Result<Vec<Unit>, NoMemory>
    requires { CanBeSearched frames.now }
    ensures { IfOk result (λ units. (region : Region) (lists : List TermList)
        → extents.now ≡ frames_hits region lists frames.now.ranges → AreUnits region frames.now lists units.items) }
{
    placed(alloc, frames.by_address.as_slice(), extents)
}

/// The extents, each with the place of the frame that it starts in, where frames and extents ascend. Frames in
/// which none starts are passed by galloping.
fn placed(alloc: Global, frames: &[Frame], extents: &[Extent]) -> Result<Vec<Unit>, NoMemory>
    requires ends { All (λ frame. frame.range.start + frame.range.len < 2 ^ 64) frames.now }
    requires apart { AreApart (map (λ frame. frame.range) frames.now) }
    ensures { IfOk result (λ units. units.items ≡ placed frames.now extents.now) }
{
    let mut units = Vec::with_capacity(alloc, extents.len())?;
    let mut rest = extents;
    let mut left = frames;
    while let Some(first) = rest.first() {
        let from = frames_from(left, first.start);
        match from.first() {
            Some(frame) => {
                rest = put_frame(&mut units, frame, rest)?;
                left = from.split_at(1).1;
            }
            None => return Ok(units),
        }
    }
    Ok(units)
}

/// Puts those of the first extents that start before the frame's end as units at the end, and gives the others.
fn put_frame<'a>(
    units: &mut Vec<Unit>,
    frame: &Frame,
    extents: &'a [Extent],
) -> Result<&'a [Extent], NoMemory>
    requires { frame.now.range.start + frame.now.range.len < 2 ^ 64 }
    ensures units { OnOk result (units.new.items ≡ units.old.items
        ++ map (unit_at frame.now.place) (take (count_before (end_of frame.now) extents.now) extents.now)) }
    ensures rest { IfOk result (λ rest. rest.now ≡ drop (count_before (end_of frame.now) extents.now) extents.now) }
{
    let (here, later) = extents.split_at(count_before(
        extents,
        frame.range.start + frame.range.len,
    ));
    put_units(units, here, frame.place)?;
    Ok(later)
}

/// The frames without the first ones that end by the address, as many as `count_passed` tells.
fn frames_from(frames: &[Frame], address: u64) -> &[Frame]
    requires ends { All (λ frame. frame.range.start + frame.range.len < 2 ^ 64) frames.now }
    requires apart { AreApart (map (λ frame. frame.range) frames.now) }
    ensures ends { All (λ frame. frame.range.start + frame.range.len < 2 ^ 64) result.now }
    ensures apart { AreApart (map (λ frame. frame.range) result.now) }
    ensures within { length result.now ≤ length frames.now }
    ensures same { (x : AnExtent) (xs : List AnExtent) → x.start ≡ address → placed result.now (x ∷ xs) ≡ placed frames.now (x ∷ xs) }
{
    frames.split_at(count_passed(frames, address)).1
}

/// A number of first frames that end by the address, found in time logarithmic in it: all that start by the address but
/// the last of them. That there are no more is a matter of time alone, and no clause says so.
fn count_passed(frames: &[Frame], address: u64) -> usize
    requires { AreApart (map (λ frame. frame.range) frames.now) }
    ensures within { result ≤ length frames.now }
    ensures passed { AllByRecursion (λ frame. end_of frame ≤ address) (take result frames.now) }
{
    let end = reach_of_started(frames, address);
    let started = frames[..end].partition_point(|frame| frame.range.start <= address);
    started.saturating_sub(1)
}

/// How many of the first frames are searched for those that start by the address: one, or up to twice as many as do, and
/// never more than there are. That none of the others does is a matter of time alone, and no clause says so.
fn reach_of_started(frames: &[Frame], address: u64) -> usize
    ensures { result ≤ length frames.now }
{
    let mut end = 1;
    while end < frames.len() {
        if frames[end].range.start > address {
            return end;
        }
        end *= 2;
    }
    frames.len()
}

/// How many of the first extents start before the address.
fn count_before(extents: &[Extent], end: u64) -> usize
    ensures count { result ≡ count_before end extents.now }
    ensures within { result ≤ length extents.now }
{
    let mut count = 0;
    while count < extents.len() && extents[count].start < end {
        count += 1;
    }
    count
}

fn put_units(units: &mut Vec<Unit>, extents: &[Extent], place: u32) -> Result<(), NoMemory>
    ensures { OnOk result (units.new.items ≡ units.old.items ++ map (unit_at place) extents.now) }
{
    for extent in extents {
        units.push(Unit {
            extent: *extent,
            place,
        })?;
    }
    Ok(())
}

/// The units that are whole files, by address: all of each frame. No list of addresses is needed, since
/// `<file>` is the first token of every text, `</file>` the last, and neither stands elsewhere.
pub(crate) fn units_of_files(alloc: Global, frames: &[Frame]) -> Result<Vec<Unit>, NoMemory>
    requires { All (λ frame. frame.range.start + frame.range.len < 2 ^ 64) frames.now }
    ensures { IfOk result (λ units. units.items ≡ file_units frames.now) }
{
    let mut units = Vec::with_capacity(alloc, frames.len())?;
    for frame in frames {
        put_file(&mut units, frame)?;
    }
    Ok(units)
}

/// Puts the unit of a frame at the end. A frame without room for both tags is no file's, and has none.
fn put_file(units: &mut Vec<Unit>, frame: &Frame) -> Result<(), NoMemory>
    requires { frame.now.range.start + frame.now.range.len < 2 ^ 64 }
    ensures { OnOk result (units.new.items ≡ units.old.items ++ file_unit frame.now) }
{
    let range = frame.range;
    if range.len >= 2 {
        units.push(Unit {
            extent: Extent {
                start: range.start,
                end: range.start + range.len - 1,
            },
            place: frame.place,
        })?;
    }
    Ok(())
}

/// The places of the files of the view that have one of the units, ascending.
pub(crate) fn places_with(
    alloc: Global,
    view: &View,
    units: &[Unit],
) -> Result<Vec<usize>, NoMemory>
    ensures files { IfOk result (λ places. files_listed places.items view.now ≡ with_units units.now 0 view.now) }
    ensures within { IfOk result (λ places. AllByRecursion (λ place. place < length view.now) places.items) }
{
    let met = places_met(alloc, view.len(), units)?;
    let mut places = Vec::new(alloc);
    for place in 0..view.len() {
        put_place_met(&mut places, place, met[place])?;
    }
    Ok(places)
}

/// Puts the place at the end, if it is met.
fn put_place_met(places: &mut Vec<usize>, place: usize, met: bool) -> Result<(), NoMemory>
    ensures { OnOk result (places.new.items ≡ places.old.items ++ (if met then place ∷ [] else [])) }
{
    if met {
        places.push(place)?;
    }
    Ok(())
}

/// For each of the first `count` places whether one of the units has it.
fn places_met(alloc: Global, count: usize, units: &[Unit]) -> Result<Vec<bool>, NoMemory>
    ensures len { IfOk result (λ met. vec_len met ≡ count) }
    ensures met { IfOk result (λ met. (place : ℕ) → place < count
        → slice_index_or met.items place false ≡ list_any (is_at_place place) units.now) }
{
    let mut met = vec![in alloc; false; count]?;
    for unit in units {
        meet(met.as_mut_slice(), unit.place as usize);
    }
    Ok(met)
}

fn meet(met: &mut [bool], place: usize)
    ensures len { length met.new ≡ length met.old }
    ensures met { (i : ℕ) → i < length met.old
        → slice_index_or met.new i false ≡ (slice_index_or met.old i false || place == i) }
{
    if place < met.len() {
        met[place] = true;
    }
}
