//! The files of a view that are looked through for lines.
ghost use Rattle.std.specs.Prelude.{◌≡◌, ◌<◌, ℕ, List, length, slice_get, IfOk};
ghost use Rattle.wu_gcl.specs.Regions.{region_of};
ghost use Rattle.wu_view.specs.declared.Seen.{Seen};
ghost use Rattle.wu_query.specs.Finding.{AreWithin, IsTurn, files_at, looked_through};
ghost use Rattle.wu_query.specs.Near.{CanBeSolved, lists_found};
ghost use Rattle.wu_query.specs.Units.{CanBeSearched};

use crate::postings::Postings;
use crate::units::{places_with, units_of};
use std::alloc::Global;
use wu_base::{NoMemory, Sequence};
use wu_frames::Frames;
use wu_gcl::Expr;
use wu_view::View;

/// Places in a view, counted from 0.
#[derive(Drop)]
pub(crate) enum Places {
    /// Each of them.
    All,
    /// These, in their order.
    Listed { places: Sequence<usize> },
}

impl Places {
    /// How many there are in the view.
    pub(crate) fn len(&self, view: &View) -> usize
        requires { AreWithin self.now view.now }
        ensures len { result ≡ length (files_at self.now view.now) }
        ensures turns { (turn : ℕ) → turn < result → IsTurn self.now turn }
    {
        match self {
            Places::All => view.len(),
            Places::Listed { places } => places.len(),
        }
    }

    /// The place that comes after so many others.
    pub(crate) fn nth(&self, turn: usize) -> usize
        requires { IsTurn self.now turn }
        ensures { (view : List Seen) → AreWithin self.now view → slice_get view result ≡ slice_get (files_at self.now view) turn }
    {
        match self {
            Places::All => turn,
            Places::Listed { places } => places.as_slice()[turn],
        }
    }
}

/// The places of the files that are looked through: all of the view, or, where there are `few` extents, those that
/// have one.
pub(crate) fn places_looked_through(
    alloc: Global,
    frames: &Frames,
    expr: &Expr,
    postings: &Postings,
    few: bool,
) -> Result<Places, NoMemory>
    requires fit { CanBeSearched frames.now }
    requires solved { CanBeSolved postings.now }
    ensures files { IfOk result (λ places. files_at places frames.now.seen
        ≡ looked_through few (region_of expr.now) (lists_found postings.now) frames.now) }
    ensures within { IfOk result (λ places. AreWithin places frames.now.seen) }
{
    if !few {
        return Ok(Places::All);
    }
    let extents = postings.solve(alloc, expr, frames.ranges.as_slice())?;
    let units = units_of(alloc, frames, &extents)?;
    let places = places_with(alloc, &frames.seen, &units)?;
    Ok(Places::Listed {
        places: Sequence::from(places),
    })
}
