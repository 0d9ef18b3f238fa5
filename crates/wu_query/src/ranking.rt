//! The ranking of a query's units, over a user's frames, and how many of them could be among the first.
ghost use Rattle.std.specs.Prelude.{◌≡◌, ◌↔◌, ◌≤◌, ◌<◌, ◌^◌, ℕ, List, All, IsTrue, length, map, take, find, nat_eq, option_copied, IfOk, IfErr, OnOk};
ghost use Rattle.std.specs.Cmp.Lexicographic.{pointwise};
ghost use Rattle.std.specs.List.{AllByRecursion};
ghost use Rattle.std.specs.List.Sorted.{IsStrictlyIncreasing};
ghost use Rattle.wu_ask.specs.Questions.{Ranking as AskedRanking, Weighing};
ghost use Rattle.wu_base.specs.declared.limits.TheConstants.{RANK_WORDS_MAX};
ghost use Rattle.wu_gcl.specs.Regions.{Region, WholeFile, region_of};
ghost use Rattle.wu_gcl.specs.Terms.{AreTerms};
ghost use Rattle.wu_lists.specs.Keeping.{Asks};
ghost use Rattle.wu_outside.specs.Reading.{OnlyReads};
ghost use Rattle.wu_rank.specs.Scores.{count_at, length_of, total_length};
ghost use Rattle.wu_rank.specs.Order.{listed};
ghost use Rattle.wu_rank.specs.Pruning.{reaching};
ghost use Rattle.wu_frames.specs.declared.Frames.{Frames as UserFrames};
ghost use Rattle.wu_space.specs.Addresses.{Ranges};
ghost use Rattle.wu_query.specs.Answer.{answer};
ghost use Rattle.wu_query.specs.Asked.{blocks_for, terms_of as named_in, with_word, with_words};
ghost use Rattle.wu_query.specs.States.{State};
ghost use Rattle.wu_query.specs.Searched.{Indexes, TellsPostings};
ghost use Rattle.wu_query.specs.Units.{AreUnitsIn, CanBeRanked, CanBeSearched, IsAmong, IsCauseFor};
ghost use Rattle.wu_query.specs.Units.{found_in, list_at, list_in, ranking_question};
ghost use Rattle.wu_query.specs.View.{view_of};

use crate::fetching::{is_among, lists_of, lists_of_words};
use crate::listing::lines_of;
use crate::units::{units_of, units_of_files};
use std::alloc::Global;
use wu_ask::Answered;
use wu_base::{Bytes, NoMemory, Sequence, TermList, Trouble};
use wu_frames::Frames;
use wu_gcl::{Expr, terms_of};
use wu_outside::Store;
use wu_parts::Parts;
use wu_rank::{Pruned, Ranker, Ranking, Unit, bm25_weigh, rank, rank_pruned, summed_length};
use wu_solve::solve_apart;
use wu_space::Space;

/// What is asked of a ranking.
#[derive(Clone, Copy)]
pub enum Wanted {
    /// Its first `k` units.
    Best { k: u32 },
    /// How many of its units could be among the first `k`.
    Weighed { k: u32 },
}

/// How many units hold one of the words, and what is wanted of their ranking: by BM25 over the view alone, by
/// score, falling, then by file, then by start. Which of them could be among the first is told by the words that
/// they hold, and not by how often. The units are the extents of `unit`; a word that is given more than once
/// counts as often. Each term is asked for once.
pub fn ranked<D: Store>(
    alloc: Global,
    store: &mut D,
    frames: &Frames,
    space: &Space,
    parts: &mut Parts,
    wanted: Wanted,
    unit: &Expr,
    words: &[Bytes],
) -> Result<Answered, Trouble>
    requires fit { CanBeSearched frames.now }
    requires few { length words.now ≤ RANK_WORDS_MAX }
    ensures answer { IfOk result (λ answered. (s : State) (uid : ℕ) → Indexes frames.now space.now.ranges s uid
        → TellsPostings parts.old (D.holds store.old) s
        → answered ≡ answer (view_of s uid) (ranking_question wanted (region_of unit.now) words.now)) }
    ensures blocks { OnOk result (Asks
        (blocks_for parts.old frames.now.ranges (with_words (named_in (region_of unit.now)) words.now)) (D.holds store.old)
        parts.old.kept parts.new.kept (D.reads store.old) (D.reads store.new)) }
    ensures others { parts.new ≡ record parts.old { kept = parts.new.kept } }
    ensures store { OnlyReads D.Store store.old store.new result }
    ensures cause { IfErr result (IsCauseFor parts.old frames.now.ranges (with_words (named_in (region_of unit.now)) words.now)
        (D.holds store.old) (D.faults store.old) (D.faults store.new) (D.reads store.old) (D.reads store.new)) }
{
    let terms = terms_of(alloc, unit)?;
    let count = terms.len();
    let asked = with_words(terms, words)?;
    match unit {
        Expr::File => {
            // Of terms that are no words only the reads are owed.
            let lists = lists_of_words(alloc, store, &asked, words, frames, parts)?;
            Ok(rank_file_lists(alloc, frames, space, wanted, words, &lists)?)
        }
        _ => {
            let lists = lists_of(alloc, store, &asked, frames, parts)?;
            Ok(rank_lists(alloc, frames, space, wanted, unit, words, &lists, count)?)
        }
    }
}

/// The same of whole files, by the lists of the words.
fn rank_file_lists(
    alloc: Global,
    frames: &Frames,
    space: &Space,
    wanted: Wanted,
    words: &[Bytes],
    lists: &[TermList],
) -> Result<Answered, NoMemory>
    requires fit { CanBeSearched frames.now }
    requires few { length words.now ≤ RANK_WORDS_MAX }
    requires ascending { All (λ list. IsStrictlyIncreasing list.at) lists.now }
    ensures { IfOk result (λ answered. (s : State) (uid : ℕ) → Indexes frames.now space.now.ranges s uid
        → (terms : List (List ℕ)) → lists.now ≡ map (list_at (found_in frames.now.ranges s)) terms
        → AllByRecursion (IsAmong terms) words.now
        → answered ≡ answer (view_of s uid) (ranking_question wanted WholeFile words.now)) }
{
    let units = units_of_files(alloc, frames.by_address.as_slice())?;
    rank_units(alloc, frames, space, wanted, &units, words, lists, lists)
}

/// The same of other extents, by the lists of the unit's terms, which are the first `count` ones, and of the words.
fn rank_lists(
    alloc: Global,
    frames: &Frames,
    space: &Space,
    wanted: Wanted,
    unit: &Expr,
    words: &[Bytes],
    lists: &[TermList],
    count: usize,
) -> Result<Answered, NoMemory>
    requires fit { CanBeSearched frames.now }
    requires few { length words.now ≤ RANK_WORDS_MAX }
    requires within { count ≤ length lists.now }
    requires of_unit { AreTerms (region_of unit.now) (map (λ list. list.term) (take count lists.now)) }
    requires ascending { All (λ list. IsStrictlyIncreasing list.at) lists.now }
    ensures { IfOk result (λ answered. (s : State) (uid : ℕ) → Indexes frames.now space.now.ranges s uid
        → (terms : List (List ℕ)) → lists.now ≡ map (list_at (found_in frames.now.ranges s)) terms
        → AllByRecursion (IsAmong terms) words.now
        → answered ≡ answer (view_of s uid) (ranking_question wanted (region_of unit.now) words.now)) }
{
    let (of_unit, own) = lists.split_at(count);
    let extents = solve_apart(alloc, unit, frames.ranges.as_slice(), of_unit)?;
    let units = units_of(alloc, frames, &extents)?;
    rank_units(alloc, frames, space, wanted, &units, words, lists, own)
}

/// Tells of the units, where each word has one of the lists. The lists that weren't fetched for the units are
/// its `own`: they aren't copied where they are those of the words, in turn.
fn rank_units(
    alloc: Global,
    frames: &Frames,
    space: &Space,
    wanted: Wanted,
    units: &[Unit],
    words: &[Bytes],
    lists: &[TermList],
    own: &[TermList],
) -> Result<Answered, NoMemory>
    requires fit { CanBeRanked units.now }
    requires few { length words.now ≤ RANK_WORDS_MAX }
    requires ascending { All (λ list. IsStrictlyIncreasing list.at) lists.now }
    requires own { All (λ list. IsStrictlyIncreasing list.at) own.now }
    ensures { IfOk result (λ answered. (s : State) (uid : ℕ) → Indexes frames.now space.now.ranges s uid
        → (region : Region) → AreUnitsIn region frames.now s units.now
        → (terms own_terms : List (List ℕ)) → lists.now ≡ map (list_at (found_in frames.now.ranges s)) terms
        → own.now ≡ map (list_at (found_in frames.now.ranges s)) own_terms
        → AllByRecursion (IsAmong terms) words.now
        → answered ≡ answer (view_of s uid) (ranking_question wanted region words.now)) }
{
    if are_of(own, words) {
        return tell_units(alloc, frames, space, wanted, units, own);
    }
    let of_words = lists_for(alloc, words, lists)?;
    tell_units(alloc, frames, space, wanted, units, &of_words)
}

/// Whether the lists are those of the words, in turn.
fn are_of(lists: &[TermList], words: &[Bytes]) -> bool
    ensures { IsTrue result ↔ (map (λ list. list.term) lists.now ≡ words.now) }
{
    if lists.len() != words.len() {
        return false;
    }
    for i in 0..words.len() {
        if lists[i].term != words[i] {
            return false;
        }
    }
    true
}

/// Tells what is asked of the units, by the lists of the words.
fn tell_units(
    alloc: Global,
    frames: &Frames,
    space: &Space,
    wanted: Wanted,
    units: &[Unit],
    lists: &[TermList],
) -> Result<Answered, NoMemory>
    requires fit { CanBeRanked units.now }
    requires few { length lists.now ≤ RANK_WORDS_MAX }
    requires ascending { All (λ list. IsStrictlyIncreasing list.at) lists.now }
    ensures { IfOk result (λ answered. (s : State) (uid : ℕ) → Indexes frames.now space.now.ranges s uid
        → (region : Region) → AreUnitsIn region frames.now s units.now
        → (words : List (List ℕ)) → lists.now ≡ map (list_at (found_in frames.now.ranges s)) words
        → answered ≡ answer (view_of s uid) (ranking_question wanted region words)) }
{
    match wanted {
        Wanted::Best { k } => rank_words(alloc, frames, space, k, units, lists),
        Wanted::Weighed { k } => weigh_words(alloc, units, lists, k),
    }
}

/// Ranks the units by the lists of the words, and shows the first `k`.
fn rank_words(
    alloc: Global,
    frames: &Frames,
    space: &Space,
    k: u32,
    units: &[Unit],
    lists: &[TermList],
) -> Result<Answered, NoMemory>
    requires fit { CanBeRanked units.now }
    requires few { length lists.now ≤ RANK_WORDS_MAX }
    requires ascending { All (λ list. IsStrictlyIncreasing list.at) lists.now }
    ensures { IfOk result (λ answered. (s : State) (uid : ℕ) → Indexes frames.now space.now.ranges s uid
        → (region : Region) → AreUnitsIn region frames.now s units.now
        → (words : List (List ℕ)) → lists.now ≡ map (list_at (found_in frames.now.ranges s)) words
        → answered ≡ answer (view_of s uid) (AskedRanking k region words)) }
{
    let Ranking { listed, top } = rank_all(alloc, units, lists, k)?;
    let shown = lines_of(alloc, space, &frames.seen, top.as_slice())?;
    Ok(Answered::Rank {
        listed,
        shown: Sequence::from(shown),
    })
}

/// Counts the units that hold one of the words, and those that could be among the first `k`.
fn weigh_words(
    alloc: Global,
    units: &[Unit],
    lists: &[TermList],
    k: u32,
) -> Result<Answered, NoMemory>
    requires fit { CanBeRanked units.now }
    requires few { length lists.now ≤ RANK_WORDS_MAX }
    requires ascending { All (λ list. IsStrictlyIncreasing list.at) lists.now }
    ensures { IfOk result (λ answered. (frames : UserFrames) (live : Ranges) (s : State) (uid : ℕ)
        → Indexes frames live s uid → (region : Region) → AreUnitsIn region frames s units.now
        → (words : List (List ℕ)) → lists.now ≡ map (list_at (found_in frames.ranges s)) words
        → answered ≡ answer (view_of s uid) (Weighing k region words)) }
{
    let Pruned { ranking, weighed } = weigh_all(alloc, units, lists, k)?;
    Ok(Answered::Weighed {
        listed: ranking.listed,
        weighed: weighed.len() as u64,
    })
}

/// The terms, and then the words that aren't among them, each once.
fn with_words(terms: Vec<Bytes>, words: &[Bytes]) -> Result<Vec<Bytes>, NoMemory>
    ensures { IfOk result (λ asked. asked.items ≡ with_words terms.items words.now) }
{
    let mut asked = terms;
    for word in words {
        put_word(&mut asked, word)?;
    }
    Ok(asked)
}

/// Puts the word at the end, where it isn't one of the terms.
fn put_word(terms: &mut Vec<Bytes>, word: &Bytes) -> Result<(), NoMemory>
    ensures { OnOk result (terms.new.items ≡ with_word terms.old.items word.now) }
{
    if is_among(terms, word) {
        return Ok(());
    }
    terms.push(word.clone()?)?;
    Ok(())
}

/// The lists of the words, in their order, with those of words that are given more than once as often.
fn lists_for(alloc: Global, words: &[Bytes], lists: &[TermList]) -> Result<Vec<TermList>, NoMemory>
    requires { All (λ list. IsStrictlyIncreasing list.at) lists.now }
    ensures lists { IfOk result (λ found. found.items ≡ map (list_in lists.now) words.now) }
    ensures ascending { IfOk result (λ found. All (λ list. IsStrictlyIncreasing list.at) found.items) }
{
    let mut found = Vec::with_capacity(alloc, words.len())?;
    for word in words {
        found.push(list_for(alloc, word, lists)?)?;
    }
    Ok(found)
}

/// The list of the word; where there is none, one without addresses.
fn list_for(alloc: Global, word: &Bytes, lists: &[TermList]) -> Result<TermList, NoMemory>
    ensures { IfOk result (λ list. list ≡ list_in lists.now word.now) }
{
    match list_named(lists, word) {
        Some(list) => Ok(TermList {
            term: word.clone()?,
            at: list.at.clone()?,
        }),
        None => Ok(TermList {
            term: word.clone()?,
            at: Sequence::new(alloc),
        }),
    }
}

/// The first list of that term.
fn list_named<'a>(lists: &'a [TermList], term: &Bytes) -> Option<&'a TermList>
    ensures { option_copied result ≡ find (λ list. pointwise nat_eq term.now list.term) lists.now }
{
    lists.iter().find(|list| *term == list.term)
}

/// Ranks the units by the weights for their own number and their own summed length.
fn rank_all(alloc: Global, units: &[Unit], lists: &[TermList], k: u32) -> Result<Ranking, NoMemory>
    requires some { All (λ unit. 1 ≤ length_of unit.extent) units.now }
    requires short { All (λ unit. length_of unit.extent < 2 ^ 26) units.now }
    requires few_units { length units.now ≤ 2 ^ 47 }
    requires few_lists { length lists.now ≤ RANK_WORDS_MAX }
    requires ascending { All (λ word. IsStrictlyIncreasing word.at) lists.now }
    ensures listed { IfOk result (λ ranking. ranking.listed ≡ length (listed count_at units.now lists.now)) }
    ensures top { IfOk result (λ ranking. ranking.top ≡ take k (listed count_at units.now lists.now)) }
{
    let (n, t) = statistics(units);
    let ranker = Ranker::new(|idf, f, l| bm25_weigh(idf, f, l, n, t), n, t);
    rank(alloc, units, lists, k, &ranker)
}

/// Prunes the ranking of the units, by the same weights.
fn weigh_all(alloc: Global, units: &[Unit], lists: &[TermList], k: u32) -> Result<Pruned, NoMemory>
    requires some { All (λ unit. 1 ≤ length_of unit.extent) units.now }
    requires short { All (λ unit. length_of unit.extent < 2 ^ 26) units.now }
    requires few_units { length units.now ≤ 2 ^ 47 }
    requires few_lists { length lists.now ≤ RANK_WORDS_MAX }
    requires ascending { All (λ word. IsStrictlyIncreasing word.at) lists.now }
    ensures listed { IfOk result (λ pruned. pruned.ranking.listed ≡ length (listed count_at units.now lists.now)) }
    ensures weighed { IfOk result (λ pruned. pruned.weighed ≡ reaching count_at units.now lists.now k) }
{
    let (number, total) = statistics(units);
    let ranker = Ranker::new(
        |idf, f, l| bm25_weigh(idf, f, l, number, total),
        number,
        total,
    );
    rank_pruned(alloc, units, lists, k, &ranker)
}

/// How many units there are, and their summed length; 1 and 1 where there is none.
fn statistics(units: &[Unit]) -> (u64, u128)
    requires some { All (λ unit. 1 ≤ length_of unit.extent) units.now }
    requires short { All (λ unit. length_of unit.extent < 2 ^ 26) units.now }
    requires few { length units.now ≤ 2 ^ 47 }
    ensures number { 0 < length units.now → result.0 ≡ length units.now }
    ensures length { 0 < length units.now → result.1 ≡ total_length units.now }
    ensures some_units { 1 ≤ result.0 }
    ensures few_units { result.0 ≤ 2 ^ 47 }
    ensures some_length { 1 ≤ result.1 }
    ensures short { result.1 < 2 ^ 73 }
{
    if units.is_empty() {
        return (1, 1);
    }
    (units.len() as u64, summed_length(units))
}
