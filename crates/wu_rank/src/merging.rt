//! The sum of two sparse vectors.
ghost use Rattle.std.specs.Prelude.{◌≡◌, ◌<◌, ◌^◌, IfOk};
ghost use Rattle.std.specs.List.{AllByRecursion};
ghost use Rattle.wu_rank.specs.Entries.{first_sum, sparse_sum};

use crate::entries::Entry;
use std::alloc::Global;
use wu_base::NoMemory;

/// The entries of both, in the order of the units; where both have a unit, the sum of its entries.
pub(crate) fn merged(alloc: Global, one: &[Entry], other: &[Entry]) -> Result<Vec<Entry>, NoMemory>
    requires one { AllByRecursion (λ entry. entry.value < 2 ^ 63) one.now }
    requires other { AllByRecursion (λ entry. entry.value < 2 ^ 63) other.now }
    ensures { IfOk result (λ sum. sum.items ≡ sparse_sum one.now other.now) }
{
    let mut sum = Vec::with_capacity(alloc, one.len().max(other.len()))?;
    let mut left = one;
    let mut right = other;
    while !left.is_empty() && !right.is_empty() {
        let (a, b) = (left[0], right[0]);
        sum.push(first_sum(a, b))?;
        left = &left[usize::from(a.unit <= b.unit)..];
        right = &right[usize::from(b.unit <= a.unit)..];
    }
    sum.extend_from_slice(left)?;
    sum.extend_from_slice(right)?;
    Ok(sum)
}

/// The entry of the first of their units. No branch tells which it is, since nothing would predict it.
fn first_sum(a: Entry, b: Entry) -> Entry
    requires a { a.value < 2 ^ 63 }
    requires b { b.value < 2 ^ 63 }
    ensures { result ≡ first_sum a b }
{
    let of_a = if a.unit <= b.unit { a.value } else { 0 };
    let of_b = if b.unit <= a.unit { b.value } else { 0 };
    Entry {
        unit: a.unit.min(b.unit),
        value: of_a + of_b,
    }
}
