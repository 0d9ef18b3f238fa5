//! Looking up terms and addresses.
ghost use Rattle.std.specs.Prelude.{◌≡◌, ◌<◌, drop, length, slice_index, ◌≤◌, ℕ, filter, map, nat_le, MatchOption};
ghost use Rattle.std.specs.List.{AllByRecursion};
ghost use Rattle.std.specs.List.Sorted.{IsStrictlySortedBy, IsStrictlyIncreasing};
ghost use Rattle.std.specs.Cmp.Lexicographic.{slice_cmp};
ghost use Rattle.std.specs.Ordering.{nat_cmp};
ghost use Rattle.wu_solve.specs.Addresses.{is_among, has_address, AreLists, EndsBelow, IsOther, IsListOf};

use wu_base::{Bytes, TermList};

/// How many addresses are looked at one by one before the steps double.
const NEAR: usize = 4;

/// How many addresses in front are below the bound. The first few are looked at one by one: of a
/// frequent term it is mostly one of these.
#[inline(always)]
pub fn below(addresses: &[u64], bound: u64) -> usize
    requires { IsStrictlyIncreasing addresses.now }
    ensures { EndsBelow addresses.now bound result }
{
    let near = addresses.len().min(NEAR);
    let mut passed = 0;
    while passed < near && addresses[passed] < bound {
        passed += 1;
    }
    if passed < NEAR {
        return passed;
    }
    passed + below_far(&addresses[passed..], bound)
}

/// The same, found by steps that double.
fn below_far(addresses: &[u64], bound: u64) -> usize
    requires { IsStrictlyIncreasing addresses.now }
    ensures { EndsBelow addresses.now bound result }
{
    let mut passed = 0;
    let mut step = 1;
    while step <= addresses.len() - passed && addresses[passed + (step - 1)] < bound {
        passed += step;
        step = step.saturating_mul(2);
    }
    let reach = (step - 1).min(addresses.len() - passed);
    let near = &addresses[passed..passed + reach];
    passed + near.partition_point(|address| *address < bound)
}

/// The addresses from the bound on.
#[inline]
pub fn addresses_from(addresses: &[u64], bound: u64) -> &[u64]
    requires { IsStrictlyIncreasing addresses.now }
    ensures { result.now ≡ filter (λ a. nat_le bound a) addresses.now }
{
    &addresses[below(addresses, bound)..]
}

/// What is left behind so many.
#[inline(always)]
pub fn behind(addresses: &[u64], count: usize) -> &[u64]
    requires { count ≤ length addresses.now }
    ensures { result.now ≡ drop count addresses.now }
{
    &addresses[count..]
}

/// The place of the term's list, in lists that ascend by their terms' bytes; None exactly where the
/// term has no list. Takes no memory.
pub fn find_term(lists: &[TermList], term: &[u8]) -> Option<usize>
    requires { IsStrictlySortedBy (slice_cmp nat_cmp) (map (λ list. list.term) lists.now) }
    ensures { MatchOption result (AllByRecursion (IsOther term.now) lists.now) (IsListOf term.now lists.now) }
{
    match lists.binary_search_by(|list| list.term.as_slice().cmp(&term)) {
        Ok(place) => Some(place),
        Err(_) => None,
    }
}

/// The term's addresses; none, if it has no list.
pub fn addresses_of<'a>(lists: &'a [TermList], term: &[u8]) -> &'a [u64]
    requires { AreLists lists.now }
    ensures ascending { IsStrictlyIncreasing result.now }
    ensures same { (address : ℕ) → is_among result.now address ≡ has_address lists.now term.now address }
{
    match find_term(lists, term) {
        Some(place) => lists[place].at.as_slice(),
        None => &[],
    }
}

/// Where a term's list was found, and where in it an address was sought last. What is found never
/// depends on it.
#[derive(Clone, Copy)]
pub struct Remembered {
    pub list: usize,
    pub place: usize,
}

/// Whether the term has the address, sought from the remembered place on.
pub fn has_address(
    lists: &[TermList],
    term: &[u8],
    remembered: &mut Remembered,
    address: u64,
) -> bool
    requires { AreLists lists.now }
    ensures { result ≡ has_address lists.now term.now address }
{
    match list_of(lists, term, remembered.list) {
        Some(list) => {
            let addresses = lists[list].at.as_slice();
            let place = address_at(addresses, remembered.place, address);
            *remembered = Remembered { list, place };
            is_at(addresses, place, address)
        }
        None => false,
    }
}

/// The place of the term's list, which may be the remembered one.
fn list_of(lists: &[TermList], term: &[u8], remembered: usize) -> Option<usize>
    requires { IsStrictlySortedBy (slice_cmp nat_cmp) (map (λ list. list.term) lists.now) }
    ensures { MatchOption result (AllByRecursion (IsOther term.now) lists.now) (IsListOf term.now lists.now) }
{
    if remembered < lists.len() && lists[remembered].term.as_slice() == term {
        return Some(remembered);
    }
    find_term(lists, term)
}

/// Whether the address stands at the place where those below it end.
#[inline(always)]
pub fn is_at(addresses: &[u64], place: usize, address: u64) -> bool
    requires ascending { IsStrictlyIncreasing addresses.now }
    requires ends { EndsBelow addresses.now address place }
    ensures { result ≡ is_among addresses.now address }
{
    place < addresses.len() && addresses[place] == address
}

/// Where the addresses below the bound end, sought from the remembered place on, if all before it are
/// below.
#[inline(always)]
pub fn address_at(addresses: &[u64], remembered: usize, bound: u64) -> usize
    requires { IsStrictlyIncreasing addresses.now }
    ensures { EndsBelow addresses.now bound result }
{
    let passed = passed_over(addresses, remembered, bound);
    passed + below(&addresses[passed..], bound)
}

/// The remembered place, if all addresses before it are below the bound; otherwise 0.
#[inline(always)]
fn passed_over(addresses: &[u64], remembered: usize, bound: u64) -> usize
    requires { IsStrictlyIncreasing addresses.now }
    ensures within { result ≤ length addresses.now }
    ensures front { (k : ℕ) → k < result → slice_index addresses.now k < bound }
{
    if remembered == 0 || addresses.len() < remembered {
        return 0;
    }
    if bound <= addresses[remembered - 1] {
        return 0;
    }
    remembered
}

/// The place of a term with the fewest addresses.
pub fn rarest(terms: &[Bytes], lists: &[TermList]) -> usize
    requires some { 0 < length terms.now }
    requires lists { AreLists lists.now }
    ensures { result < length terms.now }
{
    let mut rarest = 0;
    let mut fewest = usize::MAX;
    for i in 0..terms.len() {
        let count = addresses_of(lists, terms[i].as_slice()).len();
        if count < fewest {
            rarest = i;
            fewest = count;
        }
    }
    rarest
}
