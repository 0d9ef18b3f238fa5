//! Pruned rankings, by weighing every unit.
use std::alloc::Global;
use std::cmp::Ordering;
use wu_base::{Extent, NoMemory, Sequence, TermList};
use wu_log2::lg;
use wu_rank::{Pruned, Ranked, Ranking, Unit, bm25_weigh};

/// A listed unit, with its score and its bound.
#[derive(Clone, Copy)]
struct Plain {
    ranked: Ranked,
    bound: u64,
}

/// How many of the addresses the extent has.
fn count_in(addresses: &[u64], extent: Extent) -> u64 {
    let before = addresses.partition_point(|address| *address < extent.start);
    let up_to = addresses.partition_point(|address| *address <= extent.end);
    up_to.saturating_sub(before) as u64
}

/// The inverse document frequency of the list's word among the units.
fn rarity(units: &[Unit], list: &TermList) -> u32 {
    let mut held: u64 = 0;
    for unit in units {
        if count_in(list.at.as_slice(), unit.extent) > 0 {
            held = held.saturating_add(1);
        }
    }
    if held == 0 || units.is_empty() {
        return 0;
    }
    lg(units.len() as u64).saturating_sub(lg(held))
}

/// The weight, where it may be asked for.
fn weight(idf: u32, f: u64, extent: Extent, n: u64, t: u128) -> u64 {
    let l = extent.end.saturating_sub(extent.start).saturating_add(1);
    let in_range = idf <= 1 << 22 && f <= l && l < 1 << 26;
    if in_range && n >= 1 && n <= 1 << 47 && t >= 1 && t < 1 << 73 {
        bm25_weigh(idf, f, l, n, t)
    } else {
        0
    }
}

/// The unit, if it is listed.
fn plain_of(unit: Unit, lists: &[TermList], rarities: &[u32], n: u64, t: u128) -> Option<Plain> {
    let mut listed = false;
    let mut score: u64 = 0;
    let mut bound: u64 = 0;
    for i in 0..lists.len().min(rarities.len()) {
        let idf = rarities[i];
        let f = count_in(lists[i].at.as_slice(), unit.extent);
        if f > 0 {
            listed = true;
            score = score.saturating_add(weight(idf, f, unit.extent, n, t));
            bound = bound.saturating_add(u64::from(idf) * 22 / 10);
        }
    }
    let ranked = Ranked { score, unit };
    if listed {
        Some(Plain { ranked, bound })
    } else {
        None
    }
}

/// By score, falling, then by place, start and end.
fn compare(a: &Plain, b: &Plain) -> Ordering {
    let (one, other) = (a.ranked, b.ranked);
    other
        .score
        .cmp(&one.score)
        .then(one.unit.place.cmp(&other.unit.place))
        .then(one.unit.extent.start.cmp(&other.unit.extent.start))
        .then(one.unit.extent.end.cmp(&other.unit.extent.end))
}

/// The listed units, in the order of the units.
fn all_plain(
    alloc: Global,
    units: &[Unit],
    lists: &[TermList],
    n: u64,
    t: u128,
) -> Result<Vec<Plain>, NoMemory> {
    let mut rarities = Vec::new(alloc);
    for list in lists {
        rarities.push(rarity(units, list))?;
    }
    let mut all = Vec::new(alloc);
    for unit in units {
        if let Some(plain) = plain_of(*unit, lists, &rarities, n, t) {
            all.push(plain)?;
        }
    }
    Ok(all)
}

/// The units whose bound is at least the last score, where any is shown.
fn reaching(alloc: Global, all: &[Plain], k: u32, last: u64) -> Result<Vec<Unit>, NoMemory> {
    let mut some = Vec::new(alloc);
    for plain in all {
        if k > 0 && plain.bound >= last {
            some.push(plain.ranked.unit)?;
        }
    }
    Ok(some)
}

/// The pruned ranking of the units, of summed length `t`.
pub fn rank_plainly(
    alloc: Global,
    units: &[Unit],
    lists: &[TermList],
    k: u32,
    t: u128,
) -> Result<Pruned, NoMemory> {
    let all = all_plain(alloc, units, lists, units.len() as u64, t)?;
    let mut sorted = Vec::from_slice(alloc, &all)?;
    sorted.sort_unstable_by(compare);
    let shown = sorted.len().min(k as usize);
    let mut top = Vec::new(alloc);
    for i in 0..shown {
        top.push(sorted[i].ranked)?;
    }
    let last = match top.last() {
        Some(ranked) if shown == k as usize => ranked.score,
        _ => 0,
    };
    Ok(Pruned {
        ranking: Ranking {
            listed: all.len() as u64,
            top: Sequence::from(top),
        },
        weighed: Sequence::from(reaching(alloc, &all, k, last)?),
    })
}
