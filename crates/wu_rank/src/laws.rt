//! Laws on rankings.
ghost use Rattle.std.specs.Prelude.{◌≡◌, ◌≤◌, List};
ghost use Rattle.std.specs.List.Sorted.{IsPermutation};
ghost use Rattle.wu_base.specs.declared.addresses.TermList.{TermList};
ghost use Rattle.wu_rank.specs.declared.results.Ranked.{Ranked};
ghost use Rattle.wu_rank.specs.declared.results.Unit.{Unit as RankedUnit};
ghost use Rattle.wu_rank.specs.Pruning.{bound};
ghost use Rattle.wu_rank.specs.Scores.{count_at, score};
ghost use Rattle.wu_rank.specs.Order.{IsInOrder, in_order, listed};

/// Units have one order: a sorted list of the same units is that of `in_order`.
pub fn one_order()
    ensures sorted { (units : List Ranked) → IsInOrder units (in_order units) }
    ensures alone { (units ranking : List Ranked) → IsInOrder units ranking → ranking ≡ in_order units }
{}

/// The order in which the units are given doesn't matter: the same units are listed, in the same
/// order and with the same scores.
pub fn any_order_of_units()
    ensures { (units other : List RankedUnit) (lists : List TermList) → IsPermutation units other
        → listed count_at other lists ≡ listed count_at units lists }
{}

/// No unit's score is above its bound, which tells only which of the words the unit holds.
pub fn score_within_bound()
    ensures { (units : List RankedUnit) (lists : List TermList) (unit : RankedUnit)
        → score count_at units lists unit ≤ bound count_at units lists unit }
{}
