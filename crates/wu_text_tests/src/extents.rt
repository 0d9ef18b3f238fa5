//! Extents of a text's addresses.
ghost use Rattle.std.specs.Prelude.{◌≤◌, All, IsTrue, length};
ghost use Rattle.wu_base.specs.declared.limits.TheConstants.{TEXT_MAX};
ghost use Rattle.wu_snip.specs.Snippets.{IsAscending, IsWithin};

use std::alloc::Global;
use wu_base::Extent;
use wu_rows::{NoAnswer, number};
use wu_token::token_count;

/// The extent that the field spells, as `3-5`.
pub fn extent(field: &str) -> Result<Extent, NoAnswer> {
    match field.split_once('-') {
        Some((start, end)) => Ok(Extent {
            start: number(start)?,
            end: number(end)?,
        }),
        None => Err(NoAnswer::BadRow),
    }
}

/// The extents that the field spells, with a space between each two.
pub fn extents(alloc: Global, field: &str) -> Result<Vec<Extent>, NoAnswer> {
    let mut extents = Vec::new(alloc);
    for word in field.split_whitespace() {
        extents.push(extent(word)?)?;
    }
    Ok(extents)
}

/// Whether the extent lies within the tokens of the text.
pub fn is_within(text: &[u8], extent: Extent) -> bool
    requires { length text.now ≤ TEXT_MAX }
    ensures { IsTrue result → IsWithin text.now extent }
{
    extent.start <= extent.end && extent.end < token_count(text)
}

/// Whether each of the extents lies within the tokens of the text.
pub fn are_within(text: &[u8], extents: &[Extent]) -> bool
    requires { length text.now ≤ TEXT_MAX }
    ensures { IsTrue result → All (IsWithin text.now) extents.now }
{
    for extent in extents {
        if !is_within(text, *extent) {
            return false;
        }
    }
    true
}

/// Whether the extents' starts and ends both ascend strictly.
pub fn are_ascending(extents: &[Extent]) -> bool
    ensures { IsTrue result → IsAscending extents.now }
{
    let mut rest = extents;
    while let [extent, next, ..] = rest {
        if extent.start >= next.start || extent.end >= next.end {
            return false;
        }
        rest = &rest[1..];
    }
    true
}
