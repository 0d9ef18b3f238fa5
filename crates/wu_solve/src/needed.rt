//! The terms that an expression needs: a frame without one of them has no extent.
ghost use Rattle.std.specs.Prelude.{◌≡◌, ◌↔◌, ◌⊎◌, ℕ, List, [], ◌∷◌, ◌++◌, Contains, filter, nat_eq, IfOk, OnOk};
ghost use Rattle.std.specs.List.{list_any};
ghost use Rattle.std.specs.List.Sorted.{IsStrictlySortedBy};
ghost use Rattle.std.specs.Cmp.Lexicographic.{slice_cmp, pointwise};
ghost use Rattle.std.specs.Ordering.{nat_cmp};
ghost use Rattle.wu_gcl.specs.Reading.{tag_text};
ghost use Rattle.wu_gcl.specs.Regions.{region_of};
ghost use Rattle.wu_solve.specs.Needed.{NeedsOf, Needs};

use std::alloc::Global;
use wu_base::{Bytes, NoMemory, is_among, sorted_once};
use wu_gcl::{Expr, Op, Tag, tag_bytes};

/// The terms that the expression needs, ascending by their bytes. A frame in which one of them has no
/// address has no extent of the expression. The one error is out of memory.
pub fn needed_terms(alloc: Global, expr: &Expr) -> Result<Vec<Bytes>, NoMemory>
    ensures ascending { IfOk result (λ v. IsStrictlySortedBy (slice_cmp nat_cmp) v.items) }
    ensures members { IfOk result (λ v. (term : List ℕ) → Contains v.items term ↔ Needs (region_of expr.now) term) }
{
    match expr {
        Expr::Phrase(words) => in_either(Vec::new(alloc), words.as_slice()),
        Expr::Tag(tag) => tag_alone(alloc, *tag),
        Expr::File => both_tags(alloc, Tag::FileStart, Tag::FileEnd),
        Expr::Line => both_tags(alloc, Tag::LineStart, Tag::LineEnd),
        Expr::Window(_) => Ok(Vec::new(alloc)),
        Expr::Both(op, left, right) => {
            let left = needed_terms(alloc, left)?;
            let right = needed_terms(alloc, right)?;
            needed_of(alloc, *op, left, &right)
        }
    }
}

/// The tag as a term.
fn tag_alone(alloc: Global, tag: Tag) -> Result<Vec<Bytes>, NoMemory>
    ensures { IfOk result (λ v. v.items ≡ tag_text tag ∷ []) }
{
    let mut terms = Vec::new(alloc);
    terms.push(Bytes::from_slice(alloc, tag_bytes(tag))?)?;
    Ok(terms)
}

/// The two tags as terms.
fn both_tags(alloc: Global, one: Tag, other: Tag) -> Result<Vec<Bytes>, NoMemory>
    ensures ascending { IfOk result (λ v. IsStrictlySortedBy (slice_cmp nat_cmp) v.items) }
    ensures members { IfOk result (λ v. (term : List ℕ) → Contains v.items term ↔ ((tag_text one ≡ term) ⊎ (tag_text other ≡ term))) }
{
    let other = tag_alone(alloc, other)?;
    in_either(tag_alone(alloc, one)?, &other)
}

/// What the operator needs of what its operands need.
fn needed_of(
    alloc: Global,
    op: Op,
    left: Vec<Bytes>,
    right: &[Bytes],
) -> Result<Vec<Bytes>, NoMemory>
    requires left { IsStrictlySortedBy (slice_cmp nat_cmp) left.items }
    requires right { IsStrictlySortedBy (slice_cmp nat_cmp) right.now }
    ensures ascending { IfOk result (λ v. IsStrictlySortedBy (slice_cmp nat_cmp) v.items) }
    ensures members { IfOk result (λ v. (term : List ℕ) → Contains v.items term ↔ NeedsOf op (Contains left.items term) (Contains right.now term)) }
{
    match op {
        Op::NotContaining | Op::NotContainedIn => Ok(left),
        Op::OneOf => in_both(alloc, &left, right),
        Op::Containing | Op::ContainedIn | Op::BothOf | Op::FollowedBy => in_either(left, right),
    }
}

/// The terms of either list, each once.
fn in_either(mut left: Vec<Bytes>, right: &[Bytes]) -> Result<Vec<Bytes>, NoMemory>
    ensures ascending { IfOk result (λ v. IsStrictlySortedBy (slice_cmp nat_cmp) v.items) }
    ensures members { IfOk result (λ v. (term : List ℕ) → Contains v.items term ↔ (Contains left.items term ⊎ Contains right.now term)) }
{
    put_all(&mut left, right)?;
    Ok(sorted_once(left))
}

/// Puts the terms behind the others.
fn put_all(terms: &mut Vec<Bytes>, more: &[Bytes]) -> Result<(), NoMemory>
    ensures { OnOk result (terms.new.items ≡ terms.old.items ++ more.now) }
{
    Ok(terms.extend_from_slice(more)?)
}

/// The terms of both lists.
fn in_both(alloc: Global, left: &[Bytes], right: &[Bytes]) -> Result<Vec<Bytes>, NoMemory>
    requires left { IsStrictlySortedBy (slice_cmp nat_cmp) left.now }
    requires right { IsStrictlySortedBy (slice_cmp nat_cmp) right.now }
    ensures ascending { IfOk result (λ v. IsStrictlySortedBy (slice_cmp nat_cmp) v.items) }
    ensures members { IfOk result (λ v. (term : List ℕ) → Contains v.items term ↔ (Contains left.now term × Contains right.now term)) }
{
    let mut terms = Vec::new(alloc);
    for term in left {
        put_common(&mut terms, term, right)?;
    }
    Ok(terms)
}

/// Puts the term, if it is one of the others too.
fn put_common(terms: &mut Vec<Bytes>, term: &Bytes, others: &[Bytes]) -> Result<(), NoMemory>
    requires { IsStrictlySortedBy (slice_cmp nat_cmp) others.now }
    ensures { OnOk result (terms.new.items ≡ terms.old.items ++ filter (λ term. list_any (λ other. pointwise nat_eq other term) others.now) (term.now ∷ [])) }
{
    if is_among(term, others) {
        terms.push(term.clone()?)?;
    }
    Ok(())
}
