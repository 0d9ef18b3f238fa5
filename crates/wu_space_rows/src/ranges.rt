//! Live ranges of which a row gives the starts and lengths, and files that get and lose theirs.
ghost use Rattle.std.specs.Prelude.{◌≡◌, ◌+◌, ◌≤◌, ◌↔◌, All, IfOk, IsTrue};
ghost use Rattle.wu_base.specs.declared.limits.TheConstants.{ADDRESSES_MAX};
ghost use Rattle.wu_base.specs.Ranges.{AreApart};

use std::alloc::Global;
use wu_base::{ADDRESSES_MAX, Ino, Range};
use wu_rows::{NoAnswer, number};
use wu_space::Space;

/// The ranges, ascending, each as `5+3` with its start and its length.
pub fn ranges_of(alloc: Global, field: &str) -> Result<Vec<Range>, NoAnswer>
    ensures apart { IfOk result (λ ranges. AreApart ranges.items) }
    ensures bounded { IfOk result (λ ranges. All (λ range. range.start + range.len ≤ ADDRESSES_MAX) ranges.items) }
{
    let ranges = numbered(alloc, field)?;
    let found = match Space::rebuild(alloc, ADDRESSES_MAX, &ranges)? {
        Some(space) => space.live_ranges(0, ADDRESSES_MAX)?,
        None => return Err(NoAnswer::BadRow),
    };
    if are_bounded(&found) {
        Ok(found)
    } else {
        Err(NoAnswer::BadRow)
    }
}

/// The ranges, each with a number of its own.
fn numbered(alloc: Global, field: &str) -> Result<Vec<(Ino, Range)>, NoAnswer> {
    let mut ranges = Vec::new(alloc);
    let mut ino: Ino = 2;
    for word in field.split_whitespace() {
        ranges.push((ino, range_of(word)?))?;
        ino = ino.wrapping_add(1);
    }
    Ok(ranges)
}

fn range_of(word: &str) -> Result<Range, NoAnswer> {
    match word.split_once('+') {
        Some((start, len)) => Ok(Range {
            start: number(start)?,
            len: number(len)?,
        }),
        None => Err(NoAnswer::BadRow),
    }
}

/// Whether all ranges end by the greatest address.
pub fn are_bounded(ranges: &[Range]) -> bool
    ensures { IsTrue result ↔ All (λ range. range.start + range.len ≤ ADDRESSES_MAX) ranges.now }
{
    ranges.iter().all(|range| ends_in_time(range))
}

fn ends_in_time(range: &Range) -> bool
    ensures { IsTrue result ↔ (range.now.start + range.now.len ≤ ADDRESSES_MAX) }
{
    range.start <= ADDRESSES_MAX && range.len <= ADDRESSES_MAX - range.start
}

/// Gives the file the next addresses, so many.
pub fn place(space: &mut Space, ino: Ino, len: u64) -> Result<Range, NoAnswer>
    ensures start { IfOk result (λ range. range.start ≡ space.old.next) }
    ensures len { IfOk result (λ range. range.len ≡ len) }
    ensures bounded { IfOk result (λ range. range.start + range.len ≤ ADDRESSES_MAX) }
    ensures next { IfOk result (λ range. space.new.next ≡ range.start + range.len) }
{
    let start = space.next();
    if space.range_of(ino).is_some() || len == 0 {
        return Err(NoAnswer::BadRow);
    }
    match start.checked_add(len) {
        Some(end) if end <= ADDRESSES_MAX => Ok(space.place(ino, len)?),
        _ => Err(NoAnswer::BadRow),
    }
}

/// Takes the file's addresses away, if it has some.
pub fn release(space: &mut Space, ino: Ino)
    ensures { space.new.next ≡ space.old.next }
{
    if space.range_of(ino).is_some() {
        space.release(ino);
    }
}
