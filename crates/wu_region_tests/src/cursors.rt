//! What a cursor answers, and what `solve` lists.
ghost use Rattle.std.specs.Prelude.{All};
ghost use Rattle.wu_solve.specs.Addresses.{AreLists};
ghost use Rattle.wu_solve.specs.Solving.{IsFrame};
ghost use Rattle.wu_base.specs.Ranges.{AreApart};

use std::alloc::Global;
use wu_base::{Extent, NoMemory, Range, TermList};
use wu_cursor::{Cursor, solve_lazily};
use wu_gcl::{Expr, terms_of};
use wu_region_rows::{are_apart, corpus_of, expression, frames_of, lists_of};
use wu_rows::{NoAnswer, extents_text, flag_text, number};
use wu_solve::solve;

/// The answer of the call to the arguments.
pub fn answer(alloc: Global, call: &str, arguments: &[&str]) -> Result<String, NoAnswer> {
    match arguments {
        [texts, numbers, expr] => of_all(alloc, call, texts, numbers, expr),
        [texts, numbers, expr, place] => {
            of_one(alloc, call, texts, numbers, expr, number(place)?)
        }
        _ => Err(NoAnswer::BadRow),
    }
}

/// The answer of a call that asks for one extent in the texts with these numbers.
fn of_one(
    alloc: Global,
    call: &str,
    texts: &str,
    numbers: &str,
    expr: &str,
    place: u64,
) -> Result<String, NoAnswer> {
    let corpus = corpus_of(alloc, texts)?;
    let frames = frames_of(alloc, &corpus, numbers)?;
    let expr = expression(alloc, expr)?;
    let words = terms_of(alloc, &expr)?;
    let lists = lists_of(alloc, &words, &corpus.terms)?;
    if !are_apart(&frames) {
        return Err(NoAnswer::BadRow);
    }
    match asked(&expr, &frames, &lists, call, place)? {
        Some(extent) => extents_text(alloc, &[extent]),
        None => extents_text(alloc, &[]),
    }
}

/// What the call of a cursor gives.
fn asked(
    expr: &Expr,
    frames: &[Range],
    lists: &[TermList],
    call: &str,
    place: u64,
) -> Result<Option<Extent>, NoAnswer>
    requires lists { AreLists lists.now }
    requires frames { All IsFrame frames.now }
    requires apart { AreApart frames.now }
{
    let cursor = Cursor::new(expr, frames, lists);
    match call {
        "Cursor::tau" => Ok(cursor.tau(place)),
        "Cursor::rho" => Ok(cursor.rho(place)),
        "Cursor::tau_back" => Ok(cursor.tau_back(place)),
        "Cursor::rho_back" => Ok(cursor.rho_back(place)),
        _ => Err(NoAnswer::BadRow),
    }
}

/// The answer of a call on all extents in the texts with these numbers.
fn of_all(
    alloc: Global,
    call: &str,
    texts: &str,
    numbers: &str,
    expr: &str,
) -> Result<String, NoAnswer> {
    let corpus = corpus_of(alloc, texts)?;
    let frames = frames_of(alloc, &corpus, numbers)?;
    let expr = expression(alloc, expr)?;
    let words = terms_of(alloc, &expr)?;
    let lists = lists_of(alloc, &words, &corpus.terms)?;
    match call {
        "solve_lazily" => extents_text(alloc, &solve_lazily(alloc, &expr, &frames, &lists)?),
        "solve_lazily, compared" => flag_text(alloc, is_solved(alloc, &expr, &frames, &lists)?),
        "Cursor, everywhere" if are_apart(&frames) => {
            let last = corpus.terms.len() as u64;
            flag_text(alloc, agrees(alloc, &expr, &frames, &lists, last)?)
        }
        _ => Err(NoAnswer::BadRow),
    }
}

/// Whether both solvers give the same.
fn is_solved(
    alloc: Global,
    expr: &Expr,
    frames: &[Range],
    lists: &[TermList],
) -> Result<bool, NoMemory>
    requires lists { AreLists lists.now }
    requires frames { All IsFrame frames.now }
{
    let found = solve_lazily(alloc, expr, frames, lists)?;
    Ok(found.as_slice() == solve(alloc, expr, frames, lists)?.as_slice())
}

/// Whether the calls of a cursor agree with what `solve` lists at every address up to the last, at
/// the one behind it and at the greatest number.
fn agrees(
    alloc: Global,
    expr: &Expr,
    frames: &[Range],
    lists: &[TermList],
    last: u64,
) -> Result<bool, NoMemory>
    requires lists { AreLists lists.now }
    requires frames { All IsFrame frames.now }
    requires apart { AreApart frames.now }
{
    let extents = solve(alloc, expr, frames, lists)?;
    let mut agree = is_solved(alloc, expr, frames, lists)?;
    for place in 0..last {
        agree = agree && agrees_at(expr, frames, lists, &extents, place);
    }
    agree = agree && agrees_at(expr, frames, lists, &extents, last);
    Ok(agree && agrees_at(expr, frames, lists, &extents, u64::MAX))
}

/// Whether the four calls agree with the list at one place.
fn agrees_at(
    expr: &Expr,
    frames: &[Range],
    lists: &[TermList],
    extents: &[Extent],
    place: u64,
) -> bool
    requires lists { AreLists lists.now }
    requires frames { All IsFrame frames.now }
    requires apart { AreApart frames.now }
{
    let cursor = Cursor::new(expr, frames, lists);
    let tau = extents.iter().find(|x| x.start >= place).copied();
    let rho = extents.iter().find(|x| x.end >= place).copied();
    let tau_back = extents.iter().rev().find(|x| x.end <= place).copied();
    let rho_back = extents.iter().rev().find(|x| x.start <= place).copied();
    cursor.tau(place) == tau
        && cursor.rho(place) == rho
        && cursor.tau_back(place) == tau_back
        && cursor.rho_back(place) == rho_back
}
