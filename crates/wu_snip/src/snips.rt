//! The snippets of extents.
ghost use Rattle.std.specs.Prelude.{◌≡◌, ◌≤◌, All, IfOk, nat_le, map, take, length};
ghost use Rattle.wu_snip.specs.Snippets.{IsAscending, IsWithin, snippet_of};
ghost use Rattle.wu_snip.specs.Walks.{shown};

use crate::numbered::{NumberedLine, NumberedLines};
use std::alloc::Global;
use wu_base::{Bytes, Extent, NoMemory, SNIPPET_MAX, TEXT_MAX};

/// A line that is shown for an extent: its number, counted from 1, and its first bytes, without LF.
/// Number 0 and no bytes where no line is shown.
#[derive(Debug, PartialEq, Eq, Drop)]
pub struct Snip {
    pub line: u64,
    pub bytes: Bytes,
}

/// The first bytes of a line, at most [`SNIPPET_MAX`].
fn front(line: &[u8]) -> &[u8]
    ensures { result.now ≡ take SNIPPET_MAX line.now }
{
    &line[..line.len().min(SNIPPET_MAX)]
}

/// Whether the line starts at the end of the extent or before.
fn starts_by(line: NumberedLine, extent: Extent) -> bool
    ensures { result ≡ nat_le line.entry.first extent.end }
{
    line.first <= extent.end
}

/// The line, if there is one and it starts at the end of the extent or before.
fn show(alloc: Global, line: Option<NumberedLine>, extent: Extent) -> Result<Snip, NoMemory>
    ensures { IfOk result (λ snip. snip ≡ shown line.entry extent) }
{
    match line {
        Some(line) if starts_by(line, extent) => Ok(Snip {
            line: line.number,
            bytes: Bytes::from_slice(alloc, front(line.bytes))?,
        }),
        _ => Ok(Snip {
            line: 0,
            bytes: Bytes::from(Vec::new(alloc)),
        }),
    }
}

/// The snippet of an extent of a text of at most [`TEXT_MAX`] bytes: of the first line whose
/// addresses, from its `<line>` to its `</line>`, share one with the extent, the number, counted
/// from 1, and the first [`SNIPPET_MAX`] bytes, without LF; 0 and no bytes where there is none, as
/// for the extent of `<file>` alone. Addresses are counted from 0 at the text's `<file>`, as of
/// [`tokens`](wu_token::tokens); the extent lies among these, its start at most its end. The one error is out
/// of memory. Reads no line after that which is shown, and copies nothing else.
pub fn snippet(alloc: Global, text: &[u8], extent: Extent) -> Result<Snip, NoMemory>
    requires text { length text.now ≤ TEXT_MAX }
    requires extent { IsWithin text.now extent }
    ensures { IfOk result (λ snip. snip ≡ snippet_of text.now extent) }
{
    let line = NumberedLines::of_text(text).next_reaching(extent.start);
    show(alloc, line, extent)
}

/// The snippets of several extents of one text, as [`snippet`] gives each of them, in one walk over
/// the text's lines, of which each is read once. Starts and ends of the extents both ascend strictly.
pub fn snippets(alloc: Global, text: &[u8], extents: &[Extent]) -> Result<Vec<Snip>, NoMemory>
    requires text { length text.now ≤ TEXT_MAX }
    requires extents { All (IsWithin text.now) extents.now }
    requires ascending { IsAscending extents.now }
    ensures { IfOk result (λ snips. snips.items ≡ map (snippet_of text.now) extents.now) }
{
    let mut lines = NumberedLines::of_text(text);
    let mut line = lines.next_reaching(0);
    let mut snips = Vec::new(alloc);
    for extent in extents {
        line = lines.reaching(line, extent.start);
        snips.push(show(alloc, line, *extent)?)?;
    }
    Ok(snips)
}
