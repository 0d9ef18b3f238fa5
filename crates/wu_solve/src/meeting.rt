//! The frames that may have an extent: those in which a needed term stands.
ghost use Rattle.std.specs.Prelude.{◌≡◌, ◌<◌, All, Contains, List, ℕ, count_by, filter, length, nat_lt, IfOk, IfSome};
ghost use Rattle.std.specs.List.Sorted.{IsStrictlyIncreasing};
ghost use Rattle.wu_gcl.specs.Regions.{region_of};
ghost use Rattle.wu_solve.specs.Addresses.{AreLists, AreAddressesOf};
ghost use Rattle.wu_solve.specs.Frames.{has_one_of};
ghost use Rattle.wu_solve.specs.Solving.{frame_hits, frames_hits, IsFrame};
ghost use Rattle.wu_base.specs.Ranges.{AreApart};

use crate::framing::{end_of, frame_at};
use crate::lookup::{addresses_from, addresses_of, rarest};
use crate::needed::needed_terms;
use crate::ways::{Way, way_of};
use std::alloc::Global;
use wu_base::{Bytes, NoMemory, Range, TermList};
use wu_gcl::Expr;

/// With so many addresses of a needed term for each frame, its frames aren't sought: most frames have
/// it.
const MANY: usize = 4;

/// Frames that serve as well as these: all but those without an address of the rarest needed term. None,
/// if all frames do: no term is needed, or the rarest has many addresses for each frame, and the
/// expression lists only the places of words.
pub fn frames_with_needed(
    alloc: Global,
    expr: &Expr,
    frames: &[Range],
    lists: &[TermList],
) -> Result<Option<Vec<Range>>, NoMemory>
    requires lists { AreLists lists.now }
    requires frames { All IsFrame frames.now }
    requires apart { AreApart frames.now }
    ensures hits { IfOk result (λ some. IfSome some (λ met. frames_hits (region_of expr.now) lists.now met.items
        ≡ frames_hits (region_of expr.now) lists.now frames.now)) }
    ensures files { IfOk result (λ some. IfSome some (λ met. count_by (λ frame. nat_lt 0 (length (frame_hits (region_of expr.now) lists.now frame))) met.items
        ≡ count_by (λ frame. nat_lt 0 (length (frame_hits (region_of expr.now) lists.now frame))) frames.now)) }
    ensures frames { IfOk result (λ some. IfSome some (λ met. All IsFrame met.items)) }
    ensures apart { IfOk result (λ some. IfSome some (λ met. AreApart met.items)) }
{
    let terms = needed_terms(alloc, expr)?;
    match rarest_addresses(&terms, lists) {
        Some(addresses) => {
            if addresses.len() / MANY >= frames.len() && is_of_words(expr) {
                return Ok(None);
            }
            let met = frames_met(alloc, addresses, frames)?;
            Ok(Some(met))
        }
        None => Ok(None),
    }
}

/// Whether the expression lists no more in a frame than the places of its words, and what stands
/// near them. Only the time depends on it.
fn is_of_words(expr: &Expr) -> bool {
    match expr {
        Expr::Phrase(_) => true,
        Expr::Both(op, left, right) => match way_of(*op, left, right) {
            Way::Windows(_) | Way::RightNear(_) => is_of_words(left),
            Way::LeftNear(_) => is_of_words(right),
            Way::Lists => is_of_words(left) && is_of_words(right),
        },
        _ => false,
    }
}

/// The addresses of a term with the fewest of them.
fn rarest_addresses<'a>(terms: &[Bytes], lists: &'a [TermList]) -> Option<&'a [u64]>
    requires { AreLists lists.now }
    ensures { IfSome result (λ addresses. (term : List ℕ) × Contains terms.now term × AreAddressesOf lists.now term addresses.now) }
{
    if terms.is_empty() {
        return None;
    }
    let place = rarest(terms, lists);
    Some(addresses_of(lists, terms[place].as_slice()))
}

/// The frames in which one of the addresses lies, by walking both side by side: where there are few
/// of either, the others are passed over by steps that double. The one error is out of memory.
pub fn frames_met(
    alloc: Global,
    addresses: &[u64],
    frames: &[Range],
) -> Result<Vec<Range>, NoMemory>
    requires ascending { IsStrictlyIncreasing addresses.now }
    requires frames { All IsFrame frames.now }
    requires apart { AreApart frames.now }
    ensures { IfOk result (λ v. v.items ≡ filter (has_one_of addresses.now) frames.now) }
{
    let mut met = Vec::new(alloc);
    let mut rest = addresses;
    let mut place = 0;
    while let Some(address) = rest.first() {
        place = frame_at(frames, place, *address);
        if place == frames.len() {
            return Ok(met);
        }
        let frame = frames[place];
        if *address < frame.start {
            rest = addresses_from(rest, frame.start);
        } else {
            met.push(frame)?;
            rest = addresses_from(rest, end_of(&frame));
        }
    }
    Ok(met)
}
