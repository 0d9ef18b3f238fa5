//! Ascending addresses and ascending units, walked side by side by galloping: J. L. Bentley and A. C. Yao, An almost
//! optimal algorithm for unbounded searching, 1976.
ghost use Rattle.std.specs.Prelude.{◌≡◌, ◌<◌, ◌≤◌, ◌++◌, length, take, drop};
ghost use Rattle.std.specs.List.{AllByRecursion};
ghost use Rattle.wu_rank.specs.Sweeps.{AscendFrom, UnitsAscend};

use crate::results::Unit;

/// The addresses below the limit, and the others. Takes time logarithmic in the number of those below.
pub(crate) fn split_below(addresses: &[u64], limit: u64) -> (&[u64], &[u64])
    requires { AscendFrom 0 addresses.now }
    ensures whole { result.0.now ++ result.1.now ≡ addresses.now }
    ensures below { AllByRecursion (λ address. address < limit) result.0.now }
    ensures others { AscendFrom limit result.1.now }
{
    addresses.split_at(count_below(addresses, limit))
}

/// How many of the addresses are at most the last one. Takes time logarithmic in their number.
pub(crate) fn count_up_to(addresses: &[u64], last: u64) -> usize
    requires { AscendFrom 0 addresses.now }
    ensures within { result ≤ length addresses.now }
    ensures up_to { AllByRecursion (λ address. address ≤ last) (take result addresses.now) }
    ensures others { AllByRecursion (λ address. last < address) (drop result addresses.now) }
{
    match last.checked_add(1) {
        Some(limit) => count_below(addresses, limit),
        None => addresses.len(),
    }
}

/// How many of the addresses are below the limit.
fn count_below(addresses: &[u64], limit: u64) -> usize
    requires { AscendFrom 0 addresses.now }
    ensures within { result ≤ length addresses.now }
    ensures below { AllByRecursion (λ address. address < limit) (take result addresses.now) }
    ensures others { AllByRecursion (λ address. limit ≤ address) (drop result addresses.now) }
{
    let end = reach_of_limit(addresses, limit);
    addresses[..end].partition_point(|address| *address < limit)
}

/// At most twice as many of the first addresses as are below the limit, or one: none of the others is.
fn reach_of_limit(addresses: &[u64], limit: u64) -> usize
    requires { AscendFrom 0 addresses.now }
    ensures within { result ≤ length addresses.now }
    ensures others { AllByRecursion (λ address. limit ≤ address) (drop result addresses.now) }
{
    let mut end = 1;
    while end < addresses.len() {
        if addresses[end] >= limit {
            return end;
        }
        end *= 2;
    }
    addresses.len()
}

/// How many of the first units end before the address. Takes time logarithmic in their number.
pub(crate) fn count_ended(units: &[Unit], address: u64) -> usize
    requires { UnitsAscend units.now }
    ensures within { result ≤ length units.now }
    ensures ended { AllByRecursion (λ unit. unit.extent.end < address) (take result units.now) }
{
    let end = reach_of_ended(units, address);
    units[..end].partition_point(|unit| unit.extent.end < address)
}

/// At most twice as many of the first units as end before the address, or one: none of the others does.
fn reach_of_ended(units: &[Unit], address: u64) -> usize
    requires { UnitsAscend units.now }
    ensures { result ≤ length units.now }
{
    let mut end = 1;
    while end < units.len() {
        if units[end].extent.end >= address {
            return end;
        }
        end *= 2;
    }
    units.len()
}
