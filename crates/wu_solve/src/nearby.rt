//! Operands of which only what stands near other extents is listed: lines, files, tags, single words.
ghost use Rattle.std.specs.Prelude.{◌≡◌, All, IfOk, IfSome, List};
ghost use Rattle.wu_base.specs.Ranges.{AreApart};
ghost use Rattle.wu_gcl.specs.Regions.{Region, region_of};
ghost use Rattle.wu_solve.specs.Addresses.{AreLists};
ghost use Rattle.wu_solve.specs.Simple.{Means};
ghost use Rattle.wu_solve.specs.Solving.{AreHits, IsFrame};
ghost use Rattle.wu_solve.specs.Spanning.{AreHitsNear};

use crate::counting::only_term;
use crate::lookup::addresses_of;
use crate::places::places_near;
use crate::spanning::spans_near;
use std::alloc::Global;
use wu_base::{Extent, NoMemory, Range, TermList};
use wu_gcl::{Expr, Tag, tag_bytes};

/// An expression without an operator, but for phrases of several words and windows.
#[derive(Clone, Copy)]
pub enum Simple<'a> {
    /// The innermost extents from one tag to another: files, or lines.
    Spans(Tag, Tag),
    /// The places of a word or a tag.
    Term(&'a [u8]),
}

/// The expression, if it is as simple.
pub fn as_simple(expr: &Expr) -> Option<Simple<'_>>
    ensures { IfSome result (λ simple. Means simple (region_of expr.now)) }
{
    match expr {
        Expr::File => Some(Simple::Spans(Tag::FileStart, Tag::FileEnd)),
        Expr::Line => Some(Simple::Spans(Tag::LineStart, Tag::LineEnd)),
        _ => Some(Simple::Term(only_term(expr)?)),
    }
}

/// The expression's extents that stand near the others, which are an expression's too: those that hold
/// one of them or lie in one are among them.
pub fn near(
    alloc: Global,
    simple: Simple,
    extents: &[Extent],
    frames: &[Range],
    lists: &[TermList],
) -> Result<Vec<Extent>, NoMemory>
    requires lists { AreLists lists.now }
    requires frames { All IsFrame frames.now }
    requires apart { AreApart frames.now }
    requires hits { AreHits lists.now frames.now extents.now }
    ensures { (region : Region) → Means simple.entry region
        → IfOk result (λ v. AreHitsNear region lists.now frames.now extents.now v.items) }
{
    match simple {
        Simple::Spans(first, last) => {
            let starts = addresses_of(lists, tag_bytes(first));
            let ends = addresses_of(lists, tag_bytes(last));
            spans_near(alloc, starts, ends, extents, frames)
        }
        Simple::Term(term) => places_near(alloc, addresses_of(lists, term), extents),
    }
}
