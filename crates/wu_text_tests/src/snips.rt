//! Snippets.
ghost use Rattle.std.specs.Prelude.{◌≤◌, All, length};
ghost use Rattle.wu_base.specs.declared.limits.TheConstants.{TEXT_MAX};
ghost use Rattle.wu_snip.specs.Snippets.{IsWithin};

use crate::extents::{are_ascending, are_within, extent, extents, is_within};
use std::alloc::Global;
use wu_base::{Extent, NoMemory, TEXT_MAX};
use wu_rows::{NoAnswer, bytes, bytes_text, plain_text};
use wu_snip::{Snip, snippet, snippets};

/// The answer of the call to the arguments.
pub fn answer(alloc: Global, call: &str, arguments: &[&str]) -> Result<String, NoAnswer> {
    match (call, arguments) {
        ("snippet", [text, place]) => of_one(alloc, text, place),
        ("snippets", [text, places]) => of_several(alloc, text, places),
        _ => Err(NoAnswer::BadRow),
    }
}

/// The number of the line that is shown, and its bytes.
fn of_one(alloc: Global, text: &str, place: &str) -> Result<String, NoAnswer> {
    let extent = extent(place)?;
    let text = bytes(alloc, text)?;
    shown(alloc, &text, extent)
}

fn shown(alloc: Global, text: &[u8], extent: Extent) -> Result<String, NoAnswer> {
    if text.len() > TEXT_MAX || !is_within(text, extent) {
        return Err(NoAnswer::BadRow);
    }
    snip_text(alloc, &snippet(alloc, text, extent)?)
}

/// The snippets of the extents, where each of them is that of its extent alone.
fn of_several(alloc: Global, text: &str, places: &str) -> Result<String, NoAnswer> {
    let text = bytes(alloc, text)?;
    let extents = extents(alloc, places)?;
    all_shown(alloc, &text, &extents)
}

fn all_shown(alloc: Global, text: &[u8], extents: &[Extent]) -> Result<String, NoAnswer> {
    if text.len() > TEXT_MAX || !are_within(text, extents) || !are_ascending(extents) {
        return Err(NoAnswer::BadRow);
    }
    let together = snippets(alloc, text, extents)?;
    let alone = each_alone(alloc, text, extents)?;
    if together == alone {
        snips_text(alloc, together.as_slice())
    } else {
        plain_text(alloc, "not those of each extent alone")
    }
}

fn snips_text(alloc: Global, snips: &[Snip]) -> Result<String, NoAnswer> {
    let mut line = String::new(alloc);
    for snip in snips {
        if !line.is_empty() {
            line.push(' ')?;
        }
        line.push_str(snip_text(alloc, snip)?.as_str())?;
    }
    Ok(line)
}

fn each_alone(alloc: Global, text: &[u8], extents: &[Extent]) -> Result<Vec<Snip>, NoMemory>
    requires text { length text.now ≤ TEXT_MAX }
    requires extents { All (IsWithin text.now) extents.now }
{
    let mut snips = Vec::with_capacity(alloc, extents.len())?;
    for extent in extents {
        snips.push(snippet(alloc, text, *extent)?)?;
    }
    Ok(snips)
}

/// The line's number, and its bytes in brackets.
fn snip_text(alloc: Global, snip: &Snip) -> Result<String, NoAnswer> {
    let line = snip.line;
    let shown = bytes_text(alloc, snip.bytes.as_slice())?;
    Ok(format!(in alloc; "{line} {shown}")?)
}
