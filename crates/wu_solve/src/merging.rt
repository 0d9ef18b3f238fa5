//! The operators that keep the innermost extents of what they make.
ghost use Rattle.std.specs.Prelude.{◌≡◌, IfOk};
ghost use Rattle.wu_gcl.specs.Extents.{holds};
ghost use Rattle.wu_solve.specs.Listing.{IsAscending};
ghost use Rattle.wu_solve.specs.Merging.{cover, span, IsOneOf, IsCover, IsSpan, AreInnermost};

use crate::first_extents::{ends_before, ends_by, starting_after};
use std::alloc::Global;
use wu_base::{Extent, NoMemory};

/// Whether the outer extent starts no later and ends no earlier than the inner one.
#[inline(always)]
pub fn holds(outer: &Extent, inner: &Extent) -> bool
    ensures { result ≡ holds outer.now inner.now }
{
    outer.start <= inner.start && inner.end <= outer.end
}

/// The least extent that holds both.
#[inline(always)]
fn cover(left: &Extent, right: &Extent) -> Extent
    ensures { result ≡ cover left.now right.now }
{
    Extent {
        start: left.start.min(right.start),
        end: left.end.max(right.end),
    }
}

/// The extents of either list, but those that hold another.
pub fn one_of(alloc: Global, left: &[Extent], right: &[Extent]) -> Result<Vec<Extent>, NoMemory>
    requires left_ascends { IsAscending left.now }
    requires right_ascends { IsAscending right.now }
    ensures { IfOk result (λ v. AreInnermost (IsOneOf left.now right.now) v.items) }
{
    let mut found = Vec::new(alloc);
    let mut i = 0;
    let mut j = 0;
    while i < left.len() && j < right.len() {
        let (first, other) = (left[i], right[j]);
        if holds(&first, &other) {
            i += 1;
        } else if holds(&other, &first) {
            j += 1;
        } else if first.start < other.start {
            found.push(first)?;
            i += 1;
        } else {
            found.push(other)?;
            j += 1;
        }
    }
    found.extend_from_slice(&left[i..])?;
    found.extend_from_slice(&right[j..])?;
    Ok(found)
}

/// The covers of an extent of each list, but those that hold another.
pub fn both_of(alloc: Global, left: &[Extent], right: &[Extent]) -> Result<Vec<Extent>, NoMemory>
    requires left_ascends { IsAscending left.now }
    requires right_ascends { IsAscending right.now }
    ensures { IfOk result (λ v. AreInnermost (IsCover left.now right.now) v.items) }
{
    let mut found = Vec::new(alloc);
    let mut i = 0;
    let mut j = 0;
    while i < left.len() && j < right.len() {
        let (first, other) = (left[i], right[j]);
        if first.start < other.start {
            i += 1;
            if !ends_by(&left[i..], other.end) {
                found.push(cover(&first, &other))?;
            }
        } else if other.start < first.start {
            j += 1;
            if !ends_by(&right[j..], first.end) {
                found.push(cover(&first, &other))?;
            }
        } else {
            found.push(cover(&first, &other))?;
            i += 1;
            j += 1;
        }
    }
    Ok(found)
}

/// The spans from an extent of the left list to one of the right list after its end, but those
/// that hold another.
pub fn followed_by(
    alloc: Global,
    left: &[Extent],
    right: &[Extent],
) -> Result<Vec<Extent>, NoMemory>
    requires left_ascends { IsAscending left.now }
    requires right_ascends { IsAscending right.now }
    ensures { IfOk result (λ v. AreInnermost (IsSpan left.now right.now) v.items) }
{
    let mut found = Vec::new(alloc);
    let mut rest = right;
    for i in 0..left.len() {
        let first = left[i];
        rest = starting_after(rest, first.end);
        if let Some(other) = rest.first() {
            if !ends_before(&left[i + 1..], other.start) {
                found.push(Extent {
                    start: first.start,
                    end: other.end,
                })?;
            }
        }
    }
    Ok(found)
}
