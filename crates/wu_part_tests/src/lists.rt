//! Lists of addresses that make a part.
ghost use Rattle.std.specs.Prelude.{◌≡◌, ℕ, List, ◌<◌, eqb, nat_lt, IfOk, IsTrue, length, map};
ghost use Rattle.std.specs.List.{AllByRecursion, IsDistinct, flat_map, list_all};
ghost use Rattle.std.specs.List.Sorted.{IsStrictlySortedBy};
ghost use Rattle.std.specs.Cmp.Lexicographic.{slice_cmp};
ghost use Rattle.std.specs.Ordering.{nat_cmp};
ghost use Rattle.wu_base.specs.declared.limits.TheConstants.{ADDRESSES_MAX};
ghost use Rattle.wu_part.specs.Parts.{IsList};
ghost use Rattle.wu_part_tests.specs.CheckedLists.{MakePart};

use std::alloc::{AllocError, Global};
use wu_base::{ADDRESSES_MAX, Bytes, Sequence, TermList, WORD_MAX, sorted_once};
use wu_rows::{NoAnswer, ascending_numbers, byte_strings, pieces};

/// The lists of these terms, with `|` between each two, and of their addresses, with `|` between
/// two lists.
pub fn lists_of(alloc: Global, terms: &str, addresses: &str) -> Result<Vec<TermList>, NoAnswer>
    ensures { IfOk result (λ lists. MakePart lists.items) }
{
    let terms = sorted_terms(byte_strings(alloc, terms)?);
    let fields = pieces(alloc, addresses)?;
    let lists = term_lists(alloc, &terms, &fields)?;
    if lists.is_empty() || !are_distinct(&all_addresses(alloc, &lists)?) {
        return Err(NoAnswer::BadRow);
    }
    Ok(lists)
}

fn sorted_terms(terms: Vec<Bytes>) -> Vec<Bytes>
    ensures { IsStrictlySortedBy (slice_cmp nat_cmp) result.items }
{
    sorted_once(terms)
}

/// A list for each term, of the addresses of its field.
fn term_lists(alloc: Global, terms: &[Bytes], fields: &[&str]) -> Result<Vec<TermList>, NoAnswer>
    requires { IsStrictlySortedBy (slice_cmp nat_cmp) terms.now }
    ensures are { IfOk result (λ lists. AllByRecursion IsList lists.items) }
    ensures ascending { IfOk result (λ lists. IsStrictlySortedBy (slice_cmp nat_cmp) (map (λ list. list.term) lists.items)) }
{
    if terms.len() != fields.len() {
        return Err(NoAnswer::BadRow);
    }
    let mut lists = Vec::new(alloc);
    for place in 0..terms.len() {
        lists.push(list_of(alloc, terms[place].as_slice(), fields[place])?)?;
    }
    Ok(lists)
}

fn list_of(alloc: Global, term: &[u8], field: &str) -> Result<TermList, NoAnswer>
    ensures { IfOk result (λ list. IsList list × (list.term ≡ term.now)) }
{
    let at = ascending_numbers(alloc, field)?;
    if term.is_empty() || term.len() > WORD_MAX || at.is_empty() || !are_addresses(&at) {
        return Err(NoAnswer::BadRow);
    }
    Ok(TermList {
        term: Bytes::from_slice(alloc, term)?,
        at: Sequence::from(at),
    })
}

fn are_addresses(numbers: &[u64]) -> bool
    ensures { result ≡ list_all (λ number. nat_lt number ADDRESSES_MAX) numbers.now }
{
    numbers.iter().all(|number| *number < ADDRESSES_MAX)
}

fn all_addresses(alloc: Global, lists: &[TermList]) -> Result<Vec<u64>, AllocError>
    ensures { IfOk result (λ all. all.items ≡ flat_map (λ list. list.at) lists.now) }
{
    let mut all = Vec::new(alloc);
    for list in lists {
        all.extend_from_slice(list.at.as_slice())?;
    }
    Ok(all)
}

/// Whether no number stands twice.
fn are_distinct(numbers: &[u64]) -> bool
    ensures { IsTrue result → IsDistinct eqb numbers.now }
{
    for place in (0..numbers.len()).rev() {
        if numbers[place + 1..].contains(&numbers[place]) {
            return false;
        }
    }
    true
}
