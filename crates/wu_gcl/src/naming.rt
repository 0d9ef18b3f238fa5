//! The terms that a region expression names.
ghost use Rattle.std.specs.Prelude.{◌≡◌, ◌++◌, ◌∷◌, [], IfOk, OnOk};
ghost use Rattle.wu_gcl.specs.Reading.{tag_text};
ghost use Rattle.wu_gcl.specs.Regions.{region_of};
ghost use Rattle.wu_gcl.specs.Terms.{terms_in, AreTerms};

use crate::expressions::{Expr, Tag};
use std::alloc::Global;
use wu_base::{Bytes, NoMemory, sorted_once};
use wu_token::{FILE_END, FILE_START, LINE_END, LINE_START};

/// The distinct words and tags of the expression, ascending by their bytes. The one error is out of
/// memory.
pub fn terms_of(alloc: Global, expr: &Expr) -> Result<Vec<Bytes>, NoMemory>
    ensures { IfOk result (λ v. AreTerms (region_of expr.now) v.items) }
{
    let mut terms = Vec::new(alloc);
    put_terms(alloc, &mut terms, expr)?;
    Ok(sorted_once(terms))
}

/// Appends the terms in the order in which they are named.
fn put_terms(alloc: Global, terms: &mut Vec<Bytes>, expr: &Expr) -> Result<(), NoMemory>
    ensures { OnOk result (terms.new.items ≡ terms.old.items ++ terms_in (region_of expr.now)) }
{
    match expr {
        Expr::Phrase(words) => Ok(terms.extend_from_slice(words.as_slice())?),
        Expr::Tag(tag) => put_tag(alloc, terms, *tag),
        Expr::File => {
            put_tag(alloc, terms, Tag::FileStart)?;
            put_tag(alloc, terms, Tag::FileEnd)
        }
        Expr::Line => {
            put_tag(alloc, terms, Tag::LineStart)?;
            put_tag(alloc, terms, Tag::LineEnd)
        }
        Expr::Window(_) => Ok(()),
        Expr::Both(_, left, right) => {
            put_terms(alloc, terms, left)?;
            put_terms(alloc, terms, right)
        }
    }
}

/// Appends the tag as a term.
fn put_tag(alloc: Global, terms: &mut Vec<Bytes>, tag: Tag) -> Result<(), NoMemory>
    ensures { OnOk result (terms.new.items ≡ terms.old.items ++ tag_text tag ∷ []) }
{
    terms.push(Bytes::from_slice(alloc, tag_bytes(tag))?)?;
    Ok(())
}

/// A tag as a term: the bytes that stand for it among a text's words. Takes no memory.
pub fn tag_bytes(tag: Tag) -> &'static [u8]
    ensures { result.now ≡ tag_text tag }
{
    match tag {
        Tag::FileStart => FILE_START,
        Tag::FileEnd => FILE_END,
        Tag::LineStart => LINE_START,
        Tag::LineEnd => LINE_END,
    }
}
