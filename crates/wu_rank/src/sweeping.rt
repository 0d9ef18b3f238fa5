//! In which units a word stands, and how often, by one sweep of its ascending addresses over the units.
ghost use Rattle.std.specs.Prelude.{◌≡◌, ℕ, ◌<◌, ◌≤◌, Some, None, nat_lt, if◌then◌else◌, [], ◌++◌, length, take, IfOk, OnOk};
ghost use Rattle.std.specs.List.Sorted.{IsStrictlyIncreasing};
ghost use Rattle.wu_rank.specs.Entries.{with_entry, entries, times_in};
ghost use Rattle.wu_rank.specs.Sweeps.{AscendFrom, UnitsAscend, AreRuns};

use crate::entries::Entry;
use crate::galloping::{count_ended, count_up_to, split_below};
use crate::results::Unit;
use std::alloc::Global;
use wu_base::{NoMemory, TermList};

/// The lengths of the longest parts of the list, one after the other, in which the units ascend.
pub(crate) fn runs_of(alloc: Global, units: &[Unit]) -> Result<Vec<usize>, NoMemory>
    ensures { IfOk result (λ runs. AreRuns units.now runs.items) }
{
    let mut runs = Vec::new(alloc);
    let mut rest = units;
    while !rest.is_empty() {
        let run = run_length(rest);
        runs.push(run)?;
        rest = rest.split_at(run).1;
    }
    Ok(runs)
}

/// How many of the first units ascend, at least one where there is one.
fn run_length(units: &[Unit]) -> usize
    ensures within { result ≤ length units.now }
    ensures some { 0 < length units.now → 0 < result }
    ensures ascend { UnitsAscend (take result units.now) }
{
    for i in 1..units.len() {
        let (before, unit) = (units[i - 1].extent, units[i].extent);
        if unit.start < before.start || unit.end < before.end {
            return i;
        }
    }
    units.len()
}

/// How often the word of the list stands in each of the units that hold it. Takes time logarithmic in
/// the number of its addresses for each run, and for each unit that holds it, and in the number of the
/// units between two of these.
pub(crate) fn counts_of(
    alloc: Global,
    units: &[Unit],
    runs: &[usize],
    list: &TermList,
) -> Result<Vec<Entry>, NoMemory>
    requires runs { AreRuns units.now runs.now }
    requires ascend { IsStrictlyIncreasing list.now.at }
    ensures { IfOk result (λ counts. counts.items ≡ entries (times_in list.now.at) (length units.now) units.now) }
{
    let mut counts = Vec::new(alloc);
    let mut rest = units;
    for run in runs {
        let (ascending, later) = rest.split_at(*run);
        sweep(
            &mut counts,
            units.len() - later.len(),
            ascending,
            list.at.as_slice(),
        )?;
        rest = later;
    }
    Ok(counts)
}

/// Appends how often a word with these addresses stands in each of the units that hold it. `end` is the
/// place behind the last of the units.
fn sweep(
    counts: &mut Vec<Entry>,
    end: usize,
    units: &[Unit],
    addresses: &[u64],
) -> Result<(), NoMemory>
    requires within { length units.now ≤ end }
    requires order { UnitsAscend units.now }
    requires ascend { AscendFrom 0 addresses.now }
    ensures { OnOk result (counts.new.items ≡ counts.old.items ++ entries (times_in addresses.now) end units.now) }
{
    let mut rest = addresses;
    let mut left = units;
    while let [unit, later @ ..] = left {
        rest = split_below(rest, unit.extent.start).1;
        let count = count_up_to(rest, unit.extent.end) as u64;
        put_count(counts, end - left.len(), count)?;
        left = units_for(later, rest);
    }
    Ok(())
}

/// Appends the count, if it isn't 0.
fn put_count(counts: &mut Vec<Entry>, unit: usize, count: u64) -> Result<(), NoMemory>
    ensures { OnOk result (counts.new.items ≡ counts.old.items ++ with_entry unit (if nat_lt 0 count then Some count else None) []) }
{
    if count > 0 {
        counts.push(Entry { unit, value: count })?;
    }
    Ok(())
}

/// The units without those first ones that end before the first of the addresses; none where no address
/// is left. Takes time logarithmic in the number of those that it leaves out.
fn units_for<'a>(units: &'a [Unit], addresses: &[u64]) -> &'a [Unit]
    requires order { UnitsAscend units.now }
    requires ascend { AscendFrom 0 addresses.now }
    ensures within { length result.now ≤ length units.now }
    ensures same { (end : ℕ) → entries (times_in addresses.now) end result.now ≡ entries (times_in addresses.now) end units.now }
    ensures order { UnitsAscend result.now }
{
    match addresses {
        [first, ..] => units.split_at(count_ended(units, *first)).1,
        [] => &[],
    }
}
