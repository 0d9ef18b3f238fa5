//! Files and units as they are shown: by their open paths.
ghost use Rattle.std.specs.Prelude.{◌≡◌, ◌++◌, [], Some, map, option_map, unwrap_or, slice_get, IfOk, OnOk};
ghost use Rattle.std.specs.List.{flat_map};
ghost use Rattle.wu_view.specs.declared.Seen.{Seen};
ghost use Rattle.wu_view.specs.Views.{least_path};
ghost use Rattle.wu_query.specs.Answer.{line_of, path_at};
ghost use Rattle.wu_query.specs.States.{Texts};
ghost use Rattle.wu_query.specs.Units.{in_its_file, range_at};
ghost use Rattle.wu_query.specs.View.{shown_of};

use std::alloc::Global;
use wu_ask::{Answered, RankLine};
use wu_base::{Bytes, NoMemory, Sequence};
use wu_rank::Ranked;
use wu_space::Space;
use wu_view::View;

/// The units as they are shown, with their extents counted from the first tokens of their files.
pub fn lines_of(
    alloc: Global,
    space: &Space,
    view: &View,
    top: &[Ranked],
) -> Result<Vec<RankLine>, NoMemory>
    ensures { IfOk result (λ lines. (texts : Texts)
        → lines.items ≡ map (λ ranked. line_of (map (shown_of texts) view.now) (in_its_file space.now.ranges view.now ranked)) top.now) }
{
    let mut lines = Vec::with_capacity(alloc, top.len())?;
    for i in 0..top.len() {
        lines.push(line_of(alloc, space, view, top[i])?)?;
    }
    Ok(lines)
}

fn line_of(alloc: Global, space: &Space, view: &View, ranked: Ranked) -> Result<RankLine, NoMemory>
    ensures { IfOk result (λ line. (texts : Texts)
        → line ≡ line_of (map (shown_of texts) view.now) (in_its_file space.now.ranges view.now ranked)) }
{
    let place = ranked.unit.place as usize;
    let path = path_at(alloc, view, place)?;
    let start = start_at(space, view, place);
    Ok(RankLine {
        score: ranked.score,
        path,
        start: ranked.unit.extent.start.saturating_sub(start),
        end: ranked.unit.extent.end.saturating_sub(start),
    })
}

/// The first address of the file at the place; 0, if there is no such file.
fn start_at(space: &Space, view: &View, place: usize) -> u64
    ensures { result ≡ (range_at space.now.ranges view.now place).start }
{
    match view.ino_at(place) {
        Some(ino) => space.range_of(ino).map_or(0, |range| range.start),
        None => 0,
    }
}

/// The least open path of the file at the place; the empty path, if there is no such file.
pub fn path_at(alloc: Global, view: &View, place: usize) -> Result<Bytes, NoMemory>
    ensures least { IfOk result (λ path. path ≡ unwrap_or (option_map least_path (slice_get view.now place)) []) }
    ensures shown { IfOk result (λ path. (texts : Texts) → path ≡ path_at (map (shown_of texts) view.now) place) }
{
    match view.least_path_at(alloc, place)? {
        Some(path) => Ok(path),
        None => Bytes::from_slice(alloc, b""),
    }
}

/// Every open path, file by file.
pub fn paths(alloc: Global, view: &View) -> Result<Answered, NoMemory>
    ensures { IfOk result (λ answered. answered ≡ Answered.Paths (flat_map (λ seen. seen.paths) view.now)) }
{
    let mut paths = Vec::new(alloc);
    for place in 0..view.len() {
        put_paths(alloc, &mut paths, view, place)?;
    }
    Ok(Answered::Paths {
        paths: Sequence::from(paths),
    })
}

/// Puts the open paths of the file at the place at the end.
fn put_paths(
    alloc: Global,
    paths: &mut Vec<Bytes>,
    view: &View,
    place: usize,
) -> Result<(), NoMemory>
    ensures { (seen : Seen) → slice_get view.now place ≡ Some seen
        → OnOk result (paths.new.items ≡ paths.old.items ++ seen.paths) }
{
    match view.seen_at(alloc, place)? {
        Some(seen) => Ok(paths.append(&mut seen.paths.into_vec())?),
        None => Ok(()),
    }
}
