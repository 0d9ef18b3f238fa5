//! The operators that keep extents of their left operand.
ghost use Rattle.std.specs.Prelude.{◌≡◌, IfOk};
ghost use Rattle.wu_solve.specs.Listing.{IsAscending};
ghost use Rattle.wu_solve.specs.Merging.{is_wanted, holding, held};

use crate::first_extents::{ending_from, ends_by, starting_from, starts_by};
use std::alloc::Global;
use wu_base::{Extent, NoMemory};

/// Whether an extent is kept, where it was found that it holds another or is held, or that it isn't.
#[inline(always)]
pub fn is_kept(wanted: bool, found: bool) -> bool
    ensures { result ≡ is_wanted wanted found }
{
    if wanted { found } else { !found }
}

/// The extents that hold one of the others; those that hold none, if `wanted` is false.
pub fn holding(
    alloc: Global,
    wanted: bool,
    extents: &[Extent],
    others: &[Extent],
) -> Result<Vec<Extent>, NoMemory>
    requires extents_ascend { IsAscending extents.now }
    requires others_ascend { IsAscending others.now }
    ensures { IfOk result (λ v. v.items ≡ holding wanted extents.now others.now) }
{
    let mut kept = Vec::new(alloc);
    let mut rest = others;
    for extent in extents {
        rest = starting_from(rest, extent.start);
        if is_kept(wanted, ends_by(rest, extent.end)) {
            kept.push(*extent)?;
        }
    }
    Ok(kept)
}

/// The extents that one of the others holds; those that none does, if `wanted` is false.
pub fn held(
    alloc: Global,
    wanted: bool,
    extents: &[Extent],
    others: &[Extent],
) -> Result<Vec<Extent>, NoMemory>
    requires extents_ascend { IsAscending extents.now }
    requires others_ascend { IsAscending others.now }
    ensures { IfOk result (λ v. v.items ≡ held wanted extents.now others.now) }
{
    let mut kept = Vec::new(alloc);
    let mut rest = others;
    for extent in extents {
        rest = ending_from(rest, extent.end);
        if is_kept(wanted, starts_by(rest, extent.start)) {
            kept.push(*extent)?;
        }
    }
    Ok(kept)
}
