//! Lists in ascending order, without repeats.
ghost use Rattle.std.specs.Prelude.{◌≡◌, ◌↔◌, Contains};
ghost use Rattle.std.specs.declared.cmp.Ordering.TheVariants.{Equal};
ghost use Rattle.std.specs.List.{list_any};
ghost use Rattle.std.specs.List.Sorted.{IsStrictlySortedBy};
ghost use Rattle.wu_base.specs.SortedOnce.{sorted_once};

/// The items in ascending order, each of them once. Items that compare equal have to be equal. Takes
/// no memory.
pub fn sorted_once<T: Ord + Drop>(mut items: Vec<T>) -> Vec<T>
    requires exact { (x y : T) → T.cmp x y ≡ Equal → x ≡ y }
    ensures items { result.items ≡ sorted_once T.cmp items.items }
    ensures ascending { IsStrictlySortedBy T.cmp result.items }
    ensures members { (item : T) → Contains result.items item ↔ Contains items.items item }
{
    items.sort_unstable();
    items.dedup();
    items
}

/// Whether the item is among items that ascend without repeats. Takes time logarithmic in their number.
pub fn is_among<T: Ord>(item: &T, items: &[T]) -> bool
    requires ascending { IsStrictlySortedBy T.cmp items.now }
    ensures { result ≡ list_any (λ other. T.eq other item.now) items.now }
{
    items.binary_search(item).is_ok()
}
