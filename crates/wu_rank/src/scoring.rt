//! The scores of units, and the first of them.
ghost use Rattle.std.specs.Prelude.{◌≡◌, ℕ, ◌+◌, ◌*◌, ◌<◌, ◌≤◌, ◌^◌, [], ◌∷◌, length, map, take, IfOk};
ghost use Rattle.std.specs.List.{All, AllByRecursion};
ghost use Rattle.wu_rank.specs.Bm25.{IsWeigher};
ghost use Rattle.wu_rank.specs.Entries.{entries, weighed, IsWithin};
ghost use Rattle.wu_rank.specs.Scores.{CanRank, count_at, score_if_listed, length_of};
ghost use Rattle.wu_rank.specs.Order.{listed};
ghost use Rattle.wu_rank.specs.Sweeps.{AreRuns};

use crate::bm25::Ranker;
use crate::choosing::choose;
use crate::counting::{extent_length, inverse_frequency};
use crate::entries::Entry;
use crate::merging::merged;
use crate::results::{Ranking, Unit};
use crate::sweeping::{counts_of, runs_of};
use std::alloc::Global;
use wu_base::{NoMemory, Sequence, TermList};

/// Puts the weights of a word with this inverse document frequency in place of its counts.
fn weigh_counts<F: Fn(u32, u64, u64) -> u64>(
    counts: &mut [Entry],
    units: &[Unit],
    idf: u32,
    ranker: &Ranker<F>,
)
    requires weigher { IsWeigher (F.pre ranker.now.weigh) (F.post ranker.now.weigh) ranker.now.n ranker.now.t }
    requires rarity { idf ≤ 2 ^ 22 }
    requires short { All (λ unit. length_of unit.extent < 2 ^ 26) units.now }
    requires within { All (IsWithin units.now) counts.old }
    ensures { counts.new ≡ map (weighed units.now idf ranker.now.n ranker.now.t) counts.old }
{
    for i in 0..counts.len() {
        let Entry { unit, value } = counts[i];
        let length = extent_length(units[unit].extent);
        counts[i] = Entry {
            unit,
            value: ranker.weigh(idf, value, length),
        };
    }
}

/// What the word of the list adds to the scores of the units that hold it.
fn parts_of<F: Fn(u32, u64, u64) -> u64>(
    alloc: Global,
    units: &[Unit],
    runs: &[usize],
    list: &TermList,
    ranker: &Ranker<F>,
) -> Result<Vec<Entry>, NoMemory>
    requires weigher { IsWeigher (F.pre ranker.now.weigh) (F.post ranker.now.weigh) ranker.now.n ranker.now.t }
    requires rankable { CanRank units.now (list.now ∷ []) ranker.now.n ranker.now.t }
    requires runs { AreRuns units.now runs.now }
    ensures value { IfOk result (λ parts. parts.items ≡ entries (score_if_listed count_at units.now (list.now ∷ [])) (length units.now) units.now) }
    ensures small { IfOk result (λ parts. AllByRecursion (λ part. part.value ≤ 2 ^ 24) parts.items) }
{
    let mut parts = counts_of(alloc, units, runs, list)?;
    let idf = inverse_frequency(units.len() as u64, parts.len() as u64);
    weigh_counts(parts.as_mut_slice(), units, idf, ranker);
    Ok(parts)
}

/// The scores of the units that hold a word of the lists. The words are halved, and the scores for both
/// halves added, so that each entry takes part in no more sums than the logarithm of the number of words.
fn scores_of<F: Fn(u32, u64, u64) -> u64>(
    alloc: Global,
    units: &[Unit],
    runs: &[usize],
    lists: &[TermList],
    ranker: &Ranker<F>,
) -> Result<Vec<Entry>, NoMemory>
    requires weigher { IsWeigher (F.pre ranker.now.weigh) (F.post ranker.now.weigh) ranker.now.n ranker.now.t }
    requires rankable { CanRank units.now lists.now ranker.now.n ranker.now.t }
    requires runs { AreRuns units.now runs.now }
    ensures value { IfOk result (λ scores. scores.items ≡ entries (score_if_listed count_at units.now lists.now) (length units.now) units.now) }
    ensures small { IfOk result (λ scores. AllByRecursion (λ entry. entry.value ≤ length lists.now * 2 ^ 24) scores.items) }
{
    match lists {
        [] => Ok(Vec::new(alloc)),
        [list] => parts_of(alloc, units, runs, list, ranker),
        _ => {
            let (some, others) = lists.split_at(lists.len() / 2);
            let one = scores_of(alloc, units, runs, some, ranker)?;
            let other = scores_of(alloc, units, runs, others, ranker)?;
            merged(alloc, &one, &other)
        }
    }
}

/// The number of units that hold a query word, and the first `k` of them: by score, falling, then
/// by place, then by start, then by end. A score is the sum of the BM25 weights of the query's words,
/// each in units of 1/65536 and rounded down, and a word that no unit holds adds nothing. The lists, at
/// most RANK_WORDS_MAX, have the ascending addresses of each of the words, of a repeated one as often as
/// the query has it. Each unit has fewer than 2^26 addresses. The ranker's closure may be called in the
/// ranges that `bm25_weigh` names for `idf`, `f` and `l`, and answers what that does for the ranker's `n`
/// and `t`: where there is a unit, the number of the units and their summed length. Over no units nothing
/// is listed. The one error is out of memory.
///
/// Each word's addresses are swept once over each part of the units that ascends. Memory is taken for these
/// parts, and for each pair of a word and a unit that holds it. The first `k` are chosen in linear time on
/// average, and only they are sorted.
pub fn rank<F: Fn(u32, u64, u64) -> u64>(
    alloc: Global,
    units: &[Unit],
    lists: &[TermList],
    k: u32,
    ranker: &Ranker<F>,
) -> Result<Ranking, NoMemory>
    requires weigher { IsWeigher (F.pre ranker.now.weigh) (F.post ranker.now.weigh) ranker.now.n ranker.now.t }
    requires rankable { CanRank units.now lists.now ranker.now.n ranker.now.t }
    ensures listed { IfOk result (λ ranking. ranking.listed ≡ length (listed count_at units.now lists.now)) }
    ensures top { IfOk result (λ ranking. ranking.top ≡ take k (listed count_at units.now lists.now)) }
{
    let runs = runs_of(alloc, units)?;
    let scores = scores_of(alloc, units, &runs, lists, ranker)?;
    let listed = scores.len() as u64;
    let top = Sequence::from(choose(alloc, units, &scores, k as usize)?);
    Ok(Ranking { listed, top })
}
