//! The first units of a ranking, chosen from all that are listed.
ghost use Rattle.std.specs.Prelude.{◌≡◌, ◌-◌, ◌==◌, ◌<◌, if◌then◌else◌, List, [], ◌∷◌, ◌++◌, length, map, take, IfOk};
ghost use Rattle.std.specs.List.{All};
ghost use Rattle.wu_rank.specs.declared.results.Ranked.{Ranked};
ghost use Rattle.wu_rank.specs.Entries.{ranked_at};
ghost use Rattle.wu_rank.specs.Choices.{IsChoice, ranked_or_none};
ghost use Rattle.wu_rank.specs.Order.{in_order};

use crate::entries::Entry;
use crate::ordering::first;
use crate::results::{Ranked, Unit};
use std::alloc::Global;
use wu_base::NoMemory;

/// Of the units seen so far the first ones of a ranking, and maybe others.
#[derive(Drop)]
struct Choice {
    ranked: Vec<Ranked>,
    /// No unit of a lower score is one of the first.
    least: u64,
}

/// The first `count` of the entries' units, in the order of a ranking, with the entries' values as their
/// scores. On average it takes linear time, and time to sort as many units as it gives. It keeps no more
/// than twice as many and a thousand at a time.
pub(crate) fn choose(
    alloc: Global,
    units: &[Unit],
    scores: &[Entry],
    count: usize,
) -> Result<Vec<Ranked>, NoMemory>
    requires { All (λ entry. entry.unit < length units.now) scores.now }
    ensures { IfOk result (λ best. best.items ≡ take count (in_order (map (ranked_at units.now) scores.now))) }
{
    let mut choice = Choice {
        ranked: Vec::new(alloc),
        least: 0,
    };
    for entry in scores {
        choice = with_entry(alloc, choice, units, *entry, count)?;
    }
    first(alloc, choice.ranked, count)
}

/// The choice, where the entry's unit is seen too.
fn with_entry(
    alloc: Global,
    choice: Choice,
    units: &[Unit],
    entry: Entry,
    count: usize,
) -> Result<Choice, NoMemory>
    requires { entry.unit < length units.now }
    ensures { IfOk result (λ next. (seen : List Ranked) → IsChoice count seen choice.ranked.items choice.least
        → IsChoice count (seen ++ ranked_at units.now entry ∷ []) next.ranked.items next.least) }
{
    let Choice { mut ranked, least } = choice;
    if entry.value < least {
        return Ok(Choice { ranked, least });
    }
    ranked.push(Ranked {
        score: entry.value,
        unit: units[entry.unit],
    })?;
    if ranked.len() < room_for(count) {
        return Ok(Choice { ranked, least });
    }
    let ranked = first(alloc, ranked, count)?;
    let least = score_to_reach(&ranked, count);
    Ok(Choice { ranked, least })
}

/// How many units are kept until only the first of them are.
fn room_for(count: usize) -> usize {
    count.saturating_mul(2).saturating_add(1_000)
}

/// The score of the last of `count` units, 0 for fewer.
pub(crate) fn score_to_reach(ranked: &[Ranked], count: usize) -> u64
    ensures { result ≡ (if length ranked.now == count then (ranked_or_none ranked.now (count - 1)).score else 0) }
{
    match ranked {
        [.., last] if ranked.len() == count => last.score,
        _ => 0,
    }
}
