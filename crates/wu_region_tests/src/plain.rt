//! Expressions by what they mean: every extent of the frame is tried. For small frames only.
use std::alloc::Global;
use wu_base::{Bytes, Extent, NoMemory, Range};
use wu_gcl::{Expr, Op, Tag, tag_bytes};

/// Every extent of the frame.
fn all_extents(alloc: Global, frame: Range) -> Result<Vec<Extent>, NoMemory> {
    let after_last = frame.start.saturating_add(frame.len);
    let mut all = Vec::new(alloc);
    for start in frame.start..after_last {
        for end in start..after_last {
            all.push(Extent { start, end })?;
        }
    }
    Ok(all)
}

/// How many addresses the extent has after its first.
fn after_first(x: &Extent) -> u64 {
    x.end.saturating_sub(x.start)
}

/// Whether the address is one of the term's.
fn stands(term: &[u8], address: u64, terms: &[Bytes]) -> bool {
    match terms.get(address as usize) {
        Some(other) => other.as_slice() == term,
        None => false,
    }
}

/// Those of the extents that are one address, and that the term's.
fn of_term(
    alloc: Global,
    all: &[Extent],
    term: &[u8],
    terms: &[Bytes],
) -> Result<Vec<Extent>, NoMemory> {
    let mut found = Vec::new(alloc);
    for x in all {
        if x.start == x.end && stands(term, x.start, terms) {
            found.push(*x)?;
        }
    }
    Ok(found)
}

/// Whether the words are the terms of the extent.
fn is_phrase(x: &Extent, words: &[Bytes], terms: &[Bytes]) -> bool {
    if after_first(x) != (words.len() as u64).saturating_sub(1) {
        return false;
    }
    for i in 0..words.len() {
        if !stands(words[i].as_slice(), x.start.saturating_add(i as u64), terms) {
            return false;
        }
    }
    true
}

/// Those of the extents that are the phrase of the words.
fn of_phrase(
    alloc: Global,
    all: &[Extent],
    words: &[Bytes],
    terms: &[Bytes],
) -> Result<Vec<Extent>, NoMemory> {
    let mut found = Vec::new(alloc);
    for x in all {
        if is_phrase(x, words, terms) {
            found.push(*x)?;
        }
    }
    Ok(found)
}

/// Those of the extents that have so many addresses.
fn of_size(alloc: Global, all: &[Extent], size: u16) -> Result<Vec<Extent>, NoMemory> {
    let mut found = Vec::new(alloc);
    for x in all {
        if after_first(x).saturating_add(1) == u64::from(size) {
            found.push(*x)?;
        }
    }
    Ok(found)
}

/// Whether the outer extent starts no later and ends no earlier than the inner one.
fn holds(outer: &Extent, inner: &Extent) -> bool {
    outer.start <= inner.start && inner.end <= outer.end
}

fn holds_one(outer: &Extent, extents: &[Extent]) -> bool {
    extents.iter().any(|inner| holds(outer, inner))
}

fn held_by_one(inner: &Extent, extents: &[Extent]) -> bool {
    extents.iter().any(|outer| holds(outer, inner))
}

/// Whether the extent holds one of the left and, after its end, one of the right.
fn holds_in_order(outer: &Extent, left: &[Extent], right: &[Extent]) -> bool {
    for first in left {
        for second in right {
            if holds(outer, first) && holds(outer, second) && first.end < second.start {
                return true;
            }
        }
    }
    false
}

/// Whether the operator keeps the extent; of those that keep innermost extents, before it is seen
/// which are innermost.
fn passes(op: Op, left: &[Extent], right: &[Extent], x: &Extent) -> bool {
    match op {
        Op::Containing => left.contains(x) && holds_one(x, right),
        Op::ContainedIn => left.contains(x) && held_by_one(x, right),
        Op::NotContaining => left.contains(x) && !holds_one(x, right),
        Op::NotContainedIn => left.contains(x) && !held_by_one(x, right),
        Op::OneOf => left.contains(x) || right.contains(x),
        Op::BothOf => holds_one(x, left) && holds_one(x, right),
        Op::FollowedBy => holds_in_order(x, left, right),
    }
}

/// Those that hold no other.
fn innermost_of(alloc: Global, extents: &[Extent]) -> Result<Vec<Extent>, NoMemory> {
    let mut found = Vec::new(alloc);
    for x in extents {
        if !extents.iter().any(|y| holds(x, y) && x != y) {
            found.push(*x)?;
        }
    }
    Ok(found)
}

/// What the operator makes of the extents, from those of all that pass its test.
fn combined(
    alloc: Global,
    op: Op,
    all: &[Extent],
    left: &[Extent],
    right: &[Extent],
) -> Result<Vec<Extent>, NoMemory> {
    let mut found = Vec::new(alloc);
    for x in all {
        if passes(op, left, right, x) {
            found.push(*x)?;
        }
    }
    match op {
        Op::OneOf | Op::BothOf | Op::FollowedBy => innermost_of(alloc, &found),
        _ => Ok(found),
    }
}

/// What lies between the tags.
fn between(
    alloc: Global,
    all: &[Extent],
    first: Tag,
    last: Tag,
    terms: &[Bytes],
) -> Result<Vec<Extent>, NoMemory> {
    let left = of_term(alloc, all, tag_bytes(first), terms)?;
    let right = of_term(alloc, all, tag_bytes(last), terms)?;
    combined(alloc, Op::FollowedBy, all, &left, &right)
}

/// The extents of the expression in the frame, in which these terms stand from address 0 on.
pub fn solve_plainly(
    alloc: Global,
    expr: &Expr,
    frame: Range,
    terms: &[Bytes],
) -> Result<Vec<Extent>, NoMemory> {
    let all = all_extents(alloc, frame)?;
    match expr {
        Expr::Phrase(words) => of_phrase(alloc, &all, words.as_slice(), terms),
        Expr::Tag(tag) => of_term(alloc, &all, tag_bytes(*tag), terms),
        Expr::File => between(alloc, &all, Tag::FileStart, Tag::FileEnd, terms),
        Expr::Line => between(alloc, &all, Tag::LineStart, Tag::LineEnd, terms),
        Expr::Window(size) => of_size(alloc, &all, *size),
        Expr::Both(op, left, right) => {
            let left = solve_plainly(alloc, left, frame, terms)?;
            let right = solve_plainly(alloc, right, frame, terms)?;
            combined(alloc, *op, &all, &left, &right)
        }
    }
}
