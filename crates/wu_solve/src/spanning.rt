//! Spans from one address to another that stand near extents: the others aren't listed.
ghost use Rattle.std.specs.Prelude.{◌≡◌, ◌+◌, ◌^◌, ◌<◌, ◌≤◌, [], ◌∷◌, ◌++◌, All, filter, slice_index_or, IfOk, OnOk};
ghost use Rattle.std.specs.List.Sorted.{IsStrictlyIncreasing};
ghost use Rattle.wu_base.specs.Ranges.{AreApart};
ghost use Rattle.wu_solve.specs.Frames.{lies_in_one};
ghost use Rattle.wu_solve.specs.Listing.{IsAscending};
ghost use Rattle.wu_solve.specs.Solving.{IsFrame};
ghost use Rattle.wu_solve.specs.Spanning.{AreSpansNear, first_span, from_last, listed, lying_spans, beyond};

use crate::framing::lies_in_one;
use crate::lookup::{address_at, behind, below};
use std::alloc::Global;
use wu_base::{Extent, NoMemory, Range};

/// Where an end was sought last, and a frame. What is found never depends on it.
#[derive(Clone, Copy)]
struct Sought {
    end: usize,
    frame: usize,
}

/// The spans from one of the starts to the first of the ends behind it that stand near the extents, as
/// far as they lie in one of the frames: those that hold an extent or lie in one are among them, and at
/// most two more for each extent. A span begins at the last start before its end. The starts and ends
/// that are near no extent are passed over by steps that double.
pub fn spans_near(
    alloc: Global,
    starts: &[u64],
    ends: &[u64],
    extents: &[Extent],
    frames: &[Range],
) -> Result<Vec<Extent>, NoMemory>
    requires starts { IsStrictlyIncreasing starts.now }
    requires ends { IsStrictlyIncreasing ends.now }
    requires extents { IsAscending extents.now }
    requires ordered { All (λ x. x.start ≤ x.end) extents.now }
    requires low { All (λ x. x.end < 2 ^ 47) extents.now }
    requires frames { All IsFrame frames.now }
    requires apart { AreApart frames.now }
    ensures { IfOk result (λ v. AreSpansNear starts.now ends.now frames.now extents.now v.items) }
{
    let mut found = Vec::new(alloc);
    let mut rest = starts;
    let mut sought = Sought { end: 0, frame: 0 };
    for extent in extents {
        let from = from_last(rest, extent.start);
        rest = put_spans(&mut found, from, ends, extent.end, frames, &mut sought)?;
    }
    Ok(found)
}

/// The starts from the last one on that is below the bound; all, if none is.
fn from_last(starts: &[u64], bound: u64) -> &[u64]
    requires { IsStrictlyIncreasing starts.now }
    ensures { result.now ≡ from_last bound starts.now }
{
    let passed = below(starts, bound);
    &starts[passed.saturating_sub(1)..]
}

/// Puts the spans that begin at the bound or before it, as far as they lie in one of the frames. Gives
/// the starts behind the bound.
fn put_spans<'a>(
    found: &mut Vec<Extent>,
    starts: &'a [u64],
    ends: &[u64],
    bound: u64,
    frames: &[Range],
    sought: &mut Sought,
) -> Result<&'a [u64], NoMemory>
    requires starts { IsStrictlyIncreasing starts.now }
    requires ends { IsStrictlyIncreasing ends.now }
    requires low { bound < 2 ^ 47 }
    requires frames { All IsFrame frames.now }
    requires apart { AreApart frames.now }
    ensures rest { IfOk result (λ rest. rest.now ≡ beyond bound starts.now) }
    ensures put { OnOk result (found.new.items ≡ found.old.items ++ lying_spans frames.now bound starts.now ends.now) }
{
    let mut rest = starts;
    while let Some(start) = rest.first() {
        if bound < *start {
            return Ok(rest);
        }
        put_first(found, rest, ends, frames, sought)?;
        rest = behind(rest, 1);
    }
    Ok(rest)
}

/// Puts the span that begins at the first of the starts, if there is one and it lies in one of the
/// frames.
fn put_first(
    found: &mut Vec<Extent>,
    starts: &[u64],
    ends: &[u64],
    frames: &[Range],
    sought: &mut Sought,
) -> Result<(), NoMemory>
    requires low { slice_index_or starts.now 0 0 < 2 ^ 47 }
    requires ends { IsStrictlyIncreasing ends.now }
    requires frames { All IsFrame frames.now }
    requires apart { AreApart frames.now }
    ensures { OnOk result (found.new.items ≡ found.old.items
        ++ filter (lies_in_one frames.now) (listed (first_span starts.now ends.now))) }
{
    if let Some(span) = first_span(starts, ends, &mut sought.end) {
        if lies_in_one(frames, &mut sought.frame, &span) {
            found.push(span)?;
        }
    }
    Ok(())
}

/// The span that begins at the first of the starts: to the first of the ends behind it, unless the next
/// start comes before that.
fn first_span(starts: &[u64], ends: &[u64], sought: &mut usize) -> Option<Extent>
    requires low { slice_index_or starts.now 0 0 < 2 ^ 47 }
    requires ends { IsStrictlyIncreasing ends.now }
    ensures { result ≡ first_span starts.now ends.now }
{
    let start = *starts.first()?;
    *sought = address_at(ends, *sought, start + 1);
    let end = *ends.get(*sought)?;
    if starts.len() > 1 && starts[1] < end {
        return None;
    }
    Some(Extent { start, end })
}
