//! The order of a ranking, and its first units.
ghost use Rattle.std.specs.Prelude.{◌≡◌, take, IfOk};
ghost use Rattle.wu_rank.specs.Order.{compare_ranked, in_order};

use crate::results::Ranked;
use std::alloc::Global;
use std::cmp::Ordering;
use wu_base::NoMemory;

/// By score, falling, then by place, then by start; and by end, where one place has two units
/// with one start.
fn compare(a: &Ranked, b: &Ranked) -> Ordering
    ensures { result ≡ compare_ranked a.now b.now }
{
    b.score
        .cmp(&a.score)
        .then(a.unit.place.cmp(&b.unit.place))
        .then(a.unit.extent.start.cmp(&b.unit.extent.start))
        .then(a.unit.extent.end.cmp(&b.unit.extent.end))
}

/// The first `count` of them, in the order of a ranking. Selecting them takes linear
/// time on average, and only they are sorted.
pub(crate) fn first(
    alloc: Global,
    mut all: Vec<Ranked>,
    count: usize,
) -> Result<Vec<Ranked>, NoMemory>
    ensures { IfOk result (λ best. best.items ≡ take count (in_order all.items)) }
{
    if count >= all.len() {
        all.sort_unstable_by(compare);
        return Ok(all);
    }
    let (front, _, _) = all.as_mut_slice().select_nth_unstable_by(count, compare);
    let mut best = Vec::from_slice(alloc, front)?;
    best.sort_unstable_by(compare);
    Ok(best)
}
