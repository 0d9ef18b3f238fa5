//! Compares rankings of the regions of several texts with those of the table on standard input, and
//! with plain ones.
#![tactic(auto)]

ghost use Rattle.std.specs.Prelude.{◌<◌, ◌^◌, IsTrue};
ghost use Rattle.std.specs.List.{All};
ghost use Rattle.std.specs.List.Sorted.{IsStrictlyIncreasing};
ghost use Rattle.wu_rank.specs.Scores.{length_of};

mod pruned;
mod scattered;

use crate::pruned::rank_plainly;
use crate::scattered::{scattered_lists, scattered_units};
use std::alloc::Global;
use std::io;
use wu_base::{NoMemory, TermList};
use wu_gcl::Expr;
use wu_rank::{
    Pruned, Ranked, Ranker, Ranking, Unit, any_order_of_units, bm25_weigh, one_order, rank,
    rank_pruned, summed_length,
};
use wu_region_rows::{Corpus, corpus_of, expression, frame_of, solved, word_lists};
use wu_rows::{
    NoAnswer, byte_strings, compare, number, number_text, numbers_text, optional_numbers,
    plain_text, small_number,
};

fn main(rt: HostRuntime) -> io::Result<()> {
    compare(
        &rt,
        |alloc, _, call, arguments| answer(alloc, call, arguments),
    )
}

/// The answer of the call to the arguments.
fn answer(alloc: Global, call: &str, arguments: &[&str]) -> Result<String, NoAnswer> {
    match call {
        "bm25_weigh" => weight(alloc, arguments),
        "rank" => ranked(alloc, arguments),
        "rank_pruned" => ranked_by_pruning(alloc, arguments),
        "rank_pruned, at random" => pruned_at_random(alloc, arguments),
        "one_order" => {
            one_order();
            plain_text(alloc, "a law")
        }
        "any_order_of_units" => {
            any_order_of_units();
            plain_text(alloc, "a law")
        }
        _ => Err(NoAnswer::BadRow),
    }
}

fn weight(alloc: Global, arguments: &[&str]) -> Result<String, NoAnswer> {
    let [idf, f, l, n, t] = arguments else {
        return Err(NoAnswer::BadRow);
    };
    let idf = small_number(idf)?;
    weighed_of(alloc, idf, number(f)?, number(l)?, number(n)?, number(t)?)
}

fn weighed_of(alloc: Global, idf: u32, f: u64, l: u64, n: u64, t: u64) -> Result<String, NoAnswer> {
    let in_range = idf <= 1 << 22 && f <= l && l < 1 << 26;
    if !in_range || n < 1 || n > 1 << 47 || t < 1 {
        return Err(NoAnswer::BadRow);
    }
    number_text(alloc, bm25_weigh(idf, f, l, n, u128::from(t)))
}

/// Whether each unit is short enough to be ranked.
fn are_short(units: &[Unit]) -> bool
    ensures { IsTrue result → All (λ unit. length_of unit.extent < 2 ^ 26) units.now }
{
    for unit in units {
        if unit.extent.end - unit.extent.start.min(unit.extent.end) >= (1 << 26) - 1 {
            return false;
        }
    }
    true
}

/// The regions of the expression, each with its text's place; of the texts that have a place.
fn units_of(
    alloc: Global,
    corpus: &Corpus,
    places: &[Option<u32>],
    unit: &Expr,
) -> Result<Vec<Unit>, NoMemory> {
    let mut units = Vec::new(alloc);
    for number in 0..places.len() {
        if let Some(place) = places[number] {
            let frame = frame_of(corpus, number);
            for extent in &solved(alloc, unit, &corpus.terms, &[frame])? {
                units.push(Unit {
                    extent: *extent,
                    place,
                })?;
            }
        }
    }
    Ok(units)
}

/// The ranking of the units, where they may be ranked.
fn ranking_of(
    alloc: Global,
    units: &[Unit],
    lists: &[TermList],
    k: u32,
) -> Result<Option<Ranking>, NoMemory>
    requires { All (λ word. IsStrictlyIncreasing word.at) lists.now }
{
    if lists.len() > 64 || !are_short(units) {
        return Ok(None);
    }
    let n = (units.len() as u64).max(1);
    let t = summed_length(units).max(u128::from(units.is_empty()));
    if n > 1 << 47 || t == 0 || t >= 1 << 73 {
        return Ok(None);
    }
    let ranker = Ranker::new(|idf, f, l| bm25_weigh(idf, f, l, n, t), n, t);
    Ok(Some(rank(alloc, units, lists, k, &ranker)?))
}

/// The address of the first term of the text at the place.
fn start_of(corpus: &Corpus, places: &[Option<u32>], place: u32) -> u64 {
    let number = places.iter().position(|other| *other == Some(place));
    frame_of(corpus, number.unwrap_or(0)).start
}

/// A unit as it is shown: its score, its text's place, and its first and last place in the text.
fn line_of(corpus: &Corpus, places: &[Option<u32>], ranked: &Ranked) -> [u64; 4] {
    let place = ranked.unit.place;
    let start = start_of(corpus, places, place);
    [
        ranked.score,
        u64::from(place),
        ranked.unit.extent.start.saturating_sub(start),
        ranked.unit.extent.end.saturating_sub(start),
    ]
}

fn reversed(alloc: Global, units: &[Unit]) -> Result<Vec<Unit>, NoMemory> {
    let mut reversed = Vec::from_slice(alloc, units)?;
    reversed.reverse();
    Ok(reversed)
}

/// How many units are listed, and then each unit that is shown. The units are ranked in both
/// directions.
fn ranked(alloc: Global, arguments: &[&str]) -> Result<String, NoAnswer> {
    let [texts, places, k, unit, words] = arguments else {
        return Err(NoAnswer::BadRow);
    };
    let k = small_number(k)?;
    let corpus = corpus_of(alloc, texts)?;
    let places = optional_numbers(alloc, places)?;
    let units = units_of(alloc, &corpus, &places, &expression(alloc, unit)?)?;
    let lists = word_lists(alloc, &byte_strings(alloc, words)?, &corpus.terms)?;
    let Some(ranking) = ranking_of(alloc, &units, &lists, k)? else {
        return Err(NoAnswer::BadRow);
    };
    let Some(backwards) = ranking_of(alloc, &reversed(alloc, &units)?, &lists, k)? else {
        return Err(NoAnswer::BadRow);
    };
    if backwards != ranking {
        return plain_text(alloc, "another ranking of the units backwards");
    }
    numbers_text(alloc, &shown(alloc, &corpus, &places, &ranking)?)
}

fn shown(
    alloc: Global,
    corpus: &Corpus,
    places: &[Option<u32>],
    ranking: &Ranking,
) -> Result<Vec<u64>, NoMemory> {
    let mut numbers = Vec::new(alloc);
    numbers.push(ranking.listed)?;
    for ranked in ranking.top.as_slice() {
        numbers.extend_from_slice(&line_of(corpus, places, ranked))?;
    }
    Ok(numbers)
}

/// The pruned ranking of the units, where they may be ranked; nothing also where `rank`, or a
/// ranking that weighs each unit, differs from it.
fn pruned_of(
    alloc: Global,
    units: &[Unit],
    lists: &[TermList],
    k: u32,
) -> Result<Option<Pruned>, NoMemory>
    requires { All (λ word. IsStrictlyIncreasing word.at) lists.now }
{
    if lists.len() > 64 || !are_short(units) {
        return Ok(None);
    }
    let n = (units.len() as u64).max(1);
    let t = summed_length(units).max(u128::from(units.is_empty()));
    if n > 1 << 47 || t == 0 || t >= 1 << 73 {
        return Ok(None);
    }
    let ranker = Ranker::new(|idf, f, l| bm25_weigh(idf, f, l, n, t), n, t);
    let pruned = rank_pruned(alloc, units, lists, k, &ranker)?;
    if pruned == rank_plainly(alloc, units, lists, k, t)? {
        Ok(Some(pruned))
    } else {
        Ok(None)
    }
}

/// How many units are listed, how many weighed, and then each of these. The ranking is that of
/// `rank`.
fn ranked_by_pruning(alloc: Global, arguments: &[&str]) -> Result<String, NoAnswer> {
    let [texts, places, k, unit, words] = arguments else {
        return Err(NoAnswer::BadRow);
    };
    let k = small_number(k)?;
    let corpus = corpus_of(alloc, texts)?;
    let places = optional_numbers(alloc, places)?;
    let units = units_of(alloc, &corpus, &places, &expression(alloc, unit)?)?;
    let lists = word_lists(alloc, &byte_strings(alloc, words)?, &corpus.terms)?;
    let Some(pruned) = pruned_of(alloc, &units, &lists, k)? else {
        return plain_text(alloc, "another ranking than plainly");
    };
    if ranking_of(alloc, &units, &lists, k)? != Some(pruned.ranking.clone()?) {
        return plain_text(alloc, "another ranking than by rank");
    }
    numbers_text(alloc, &weighed(alloc, &corpus, &places, &pruned)?)
}

fn weighed(
    alloc: Global,
    corpus: &Corpus,
    places: &[Option<u32>],
    pruned: &Pruned,
) -> Result<Vec<u64>, NoMemory> {
    let mut numbers = Vec::new(alloc);
    numbers.push(pruned.ranking.listed)?;
    numbers.push(pruned.weighed.as_slice().len() as u64)?;
    for unit in pruned.weighed.as_slice() {
        let start = start_of(corpus, places, unit.place);
        numbers.push(u64::from(unit.place))?;
        numbers.push(unit.extent.start.saturating_sub(start))?;
        numbers.push(unit.extent.end.saturating_sub(start))?;
    }
    Ok(numbers)
}

/// How many of the units are listed and how many weighed, where words stand at random places in as
/// many units.
fn pruned_at_random(alloc: Global, arguments: &[&str]) -> Result<String, NoAnswer> {
    let [seed, units, words, k] = arguments else {
        return Err(NoAnswer::BadRow);
    };
    let seed = number(seed)?;
    let units = scattered_units(alloc, seed, small_number(units)?)?;
    let lists = scattered_lists(alloc, seed, &units, small_number(words)?)?;
    match pruned_of(alloc, &units, &lists, small_number(k)?)? {
        Some(pruned) => numbers_text(
            alloc,
            &[
                pruned.ranking.listed,
                pruned.weighed.as_slice().len() as u64,
            ],
        ),
        None => plain_text(alloc, "another ranking than plainly"),
    }
}
