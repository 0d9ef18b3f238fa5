//! Which of the listed units may be among the first ones, by the words that they hold. The bounds
//! are MaxScore's, over units: H. Turtle and J. Flood, Query evaluation: strategies and
//! optimizations, 1995.
ghost use Rattle.std.specs.Prelude.{◌≡◌, ◌-◌, ◌*◌, ◌==◌, ◌<◌, ◌≤◌, ◌^◌, if◌then◌else◌};
ghost use Rattle.std.specs.Prelude.{[], ◌∷◌, length, map, take, IfOk};
ghost use Rattle.std.specs.List.{All, AllByRecursion};
ghost use Rattle.std.specs.List.Sorted.{IsStrictlyIncreasing};
ghost use Rattle.wu_base.specs.declared.limits.TheConstants.{RANK_WORDS_MAX};
ghost use Rattle.wu_rank.specs.Bm25.{IsWeigher};
ghost use Rattle.wu_rank.specs.Choices.{ranked_or_none};
ghost use Rattle.wu_rank.specs.Entries.{entries};
ghost use Rattle.wu_rank.specs.Order.{listed};
ghost use Rattle.wu_rank.specs.Pruning.{bound_if_listed, bounded, reaching, reaching_at};
ghost use Rattle.wu_rank.specs.Scores.{CanRank, count_at};
ghost use Rattle.wu_rank.specs.Sweeps.{AreRuns};

use crate::bm25::Ranker;
use crate::choosing::score_to_reach;
use crate::counting::inverse_frequency;
use crate::entries::Entry;
use crate::merging::merged;
use crate::results::{Pruned, Ranked, Unit};
use crate::scoring::rank;
use crate::sweeping::{counts_of, runs_of};
use std::alloc::Global;
use wu_base::{NoMemory, Sequence, TermList};

/// Puts the bound in place of the counts.
fn put_bound(counts: &mut [Entry], bound: u64)
    ensures { counts.new ≡ map (bounded bound) counts.old }
{
    for entry in counts.iter_mut() {
        entry.value = bound;
    }
}

/// What the word of the list may add to the scores of the units that hold it.
fn word_bounds(
    alloc: Global,
    units: &[Unit],
    runs: &[usize],
    list: &TermList,
) -> Result<Vec<Entry>, NoMemory>
    requires ascend { IsStrictlyIncreasing list.now.at }
    requires runs { AreRuns units.now runs.now }
    ensures value { IfOk result (λ bounds. bounds.items ≡ entries
        (bound_if_listed count_at units.now (list.now ∷ [])) (length units.now) units.now) }
    ensures small { IfOk result
        (λ bounds. AllByRecursion (λ entry. entry.value ≤ 2 ^ 24) bounds.items) }
{
    let mut bounds = counts_of(alloc, units, runs, list)?;
    let rarity = inverse_frequency(units.len() as u64, bounds.len() as u64);
    put_bound(bounds.as_mut_slice(), 22 * u64::from(rarity) / 10);
    Ok(bounds)
}

/// The bounds of the units that hold a word of the lists. The words are halved, as for the scores.
fn bounds_of(
    alloc: Global,
    units: &[Unit],
    runs: &[usize],
    lists: &[TermList],
) -> Result<Vec<Entry>, NoMemory>
    requires few { length lists.now ≤ RANK_WORDS_MAX }
    requires ascending { All (λ word. IsStrictlyIncreasing word.at) lists.now }
    requires runs { AreRuns units.now runs.now }
    ensures value { IfOk result (λ bounds. bounds.items
        ≡ entries (bound_if_listed count_at units.now lists.now) (length units.now) units.now) }
    ensures small { IfOk result
        (λ bounds. AllByRecursion (λ entry. entry.value ≤ length lists.now * 2 ^ 24) bounds.items) }
{
    match lists {
        [] => Ok(Vec::new(alloc)),
        [list] => word_bounds(alloc, units, runs, list),
        _ => {
            let (some, others) = lists.split_at(lists.len() / 2);
            let one = bounds_of(alloc, units, runs, some)?;
            let other = bounds_of(alloc, units, runs, others)?;
            merged(alloc, &one, &other)
        }
    }
}

/// The units whose bound is the least one or a higher one.
fn reached(
    alloc: Global,
    units: &[Unit],
    bounds: &[Entry],
    least: u64,
) -> Result<Vec<Unit>, NoMemory>
    requires { All (λ entry. entry.unit < length units.now) bounds.now }
    ensures { IfOk result (λ some. some.items ≡ reaching_at units.now least bounds.now) }
{
    let mut some = Vec::new(alloc);
    for entry in bounds {
        if entry.value >= least {
            some.push(units[entry.unit])?;
        }
    }
    Ok(some)
}

/// The listed units whose bound reaches the score of the last of `count` best ones; none where none
/// is asked for.
fn weighed_of(
    alloc: Global,
    units: &[Unit],
    lists: &[TermList],
    best: &[Ranked],
    count: usize,
) -> Result<Vec<Unit>, NoMemory>
    requires few { length lists.now ≤ RANK_WORDS_MAX }
    requires ascending { All (λ word. IsStrictlyIncreasing word.at) lists.now }
    ensures none { count ≡ 0 → IfOk result (λ some. some.items ≡ []) }
    ensures some { 0 < count → IfOk result (λ some. some.items ≡ reaching_at units.now
        (if length best.now == count then (ranked_or_none best.now (count - 1)).score else 0)
        (entries (bound_if_listed count_at units.now lists.now) (length units.now) units.now)) }
{
    if count == 0 {
        return Ok(Vec::new(alloc));
    }
    let runs = runs_of(alloc, units)?;
    let bounds = bounds_of(alloc, units, &runs, lists)?;
    reached(alloc, units, &bounds, score_to_reach(best, count))
}

/// What `rank` answers, and in `weighed` the listed units that may be among the first `k`, in the
/// order of the units. Those are the units whose bound is at least the score of the last one shown,
/// or 0 where fewer than `k` are listed; with `k` 0 there are none. A unit's bound is the sum, over
/// the query's words with repeats that it holds, of 22/10 of the word's inverse document frequency,
/// rounded down: no count of the word can give it more. What is asked of the arguments is as for
/// `rank`. The one error is out of memory.
///
/// The ranking is made as `rank` makes it, and then each word is swept once more for the bounds.
/// Mostly it takes longer to find the units that need no weighing than to weigh them.
pub fn rank_pruned<F: Fn(u32, u64, u64) -> u64>(
    alloc: Global,
    units: &[Unit],
    lists: &[TermList],
    k: u32,
    ranker: &Ranker<F>,
) -> Result<Pruned, NoMemory>
    requires weigher { IsWeigher (F.pre ranker.now.weigh) (F.post ranker.now.weigh) ranker.now.n ranker.now.t }
    requires rankable { CanRank units.now lists.now ranker.now.n ranker.now.t }
    ensures listed { IfOk result (λ pruned. pruned.ranking.listed ≡ length (listed count_at units.now lists.now)) }
    ensures top { IfOk result (λ pruned. pruned.ranking.top ≡ take k (listed count_at units.now lists.now)) }
    ensures weighed { IfOk result (λ pruned. pruned.weighed ≡ reaching count_at units.now lists.now k) }
{
    let ranking = rank(alloc, units, lists, k, ranker)?;
    let best = ranking.top.as_slice();
    let weighed = Sequence::from(weighed_of(alloc, units, lists, best, k as usize)?);
    Ok(Pruned { ranking, weighed })
}
