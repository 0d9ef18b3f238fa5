//! Chains of places. Each posting has a place, counted from 0, and all terms share one vector of links: at each place there is
//! the place before it of the same term. A new posting appends a link, and changes none.
ghost use Rattle.std.specs.Prelude.{◌≡◌, ◌+◌, ◌/◌, ◌^◌, ◌<◌, ◌≤◌, ◌∷◌, ◌++◌, [], length, filter, nat_le, reverse, IfOk, OnOk, OnErr};
ghost use Rattle.std.specs.Vec.{vec_capacity, vec_len};
ghost use Rattle.wu_lists.specs.Ascending.{AscendBetween};
ghost use Rattle.wu_parts.specs.Lists.{with_address};
ghost use Rattle.wu_parts.specs.Addressing.{IsRising};
ghost use Rattle.wu_parts.specs.Chains.{AreChains, end_of, lists_of, moved, places_of};

use crate::addressing::Addressing;
use indexmap::IndexMap;
use std::alloc::Global;
use wu_base::{ADDRESSES_MAX, NoMemory};

/// By how many links the room for them grows at least.
const LEAST_GROWTH: usize = 1024;

/// The places of one term: the newest one, and how many there are. The link at the first one is never
/// followed.
#[derive(Clone, Copy, Debug, PartialEq, Eq)]
pub(crate) struct Chain {
    newest: u32,
    count: u32,
}

impl Chain {
    /// The chain with one more place, whose link names the one that was the newest.
    fn with(self, place: u32) -> Chain
        requires { self.count + 1 < 2 ^ 32 }
        ensures { result ≡ record { newest = place; count = self.count + 1 } }
    {
        Chain {
            newest: place,
            count: self.count + 1,
        }
    }

    /// The chain without its newest place.
    fn older(self, links: &[u32]) -> Chain
        requires some { 0 < self.count }
        requires place { self.newest < length links.now }
        ensures places { places_of links.now self ≡ places_of links.now result ++ self.newest ∷ [] }
        ensures count { result.count + 1 ≡ self.count }
    {
        Chain {
            newest: links[self.newest as usize],
            count: self.count - 1,
        }
    }
}

/// Gives the term the place at the end of the links. A term that is there is not copied, and is hashed once;
/// a new one is hashed once more as it is put in. There are fewer than 2^32 places, then it is out of memory.
/// Out of memory, all is as it was.
pub(crate) fn put(
    alloc: Global,
    chains: &mut IndexMap<Vec<u8>, Chain>,
    links: &mut Vec<u32>,
    term: &[u8],
) -> Result<(), NoMemory>
    requires { AreChains links.old.items chains.old.entries }

    ensures lists { OnOk result (lists_of links.new.items chains.new.entries ≡ with_address term.now (length links.old.items) (lists_of links.old.items chains.old.entries)) }
    ensures links { OnOk result (length links.new.items ≡ length links.old.items + 1) }
    ensures bounded { OnOk result (length links.new.items < 2 ^ 32) }

    ensures same_lists { OnErr result (lists_of links.new.items chains.new.entries ≡ lists_of links.old.items chains.old.entries) }
    ensures same_links { OnErr result (links.new.items ≡ links.old.items) }
{
    let place = next_place(links.len())?;
    match chains.get_mut(term) {
        Some(chain) => {
            push_link(links, chain.newest)?;
            *chain = chain.with(place);
            Ok(())
        }
        None => {
            let first = Chain {
                newest: place,
                count: 1,
            };
            make_room(links)?;
            chains.insert(Vec::from_slice(alloc, term)?, first)?;
            links.push(place)?;
            Ok(())
        }
    }
}

/// Appends the link. Out of memory, the links are as they were.
#[inline]
fn push_link(links: &mut Vec<u32>, link: u32) -> Result<(), NoMemory>
    ensures ok { OnOk result (links.new.items ≡ links.old.items ++ link ∷ []) }
    ensures err { OnErr result (links.new.items ≡ links.old.items) }
{
    make_room(links)?;
    links.push(link)?;
    Ok(())
}

/// Makes room for one more link. It grows by a quarter at a time, since most of memory is links, and half of them may
/// stay unused where it is doubled. Out of memory, the room is as it was.
#[inline]
fn make_room(links: &mut Vec<u32>) -> Result<(), NoMemory>
    ensures items { links.new.items ≡ links.old.items }
    ensures room { OnOk result (vec_len links.new + 1 ≤ vec_capacity links.new) }
    ensures kept { vec_len links.old < vec_capacity links.old → vec_capacity links.new ≡ vec_capacity links.old }
    ensures grown { OnOk result (vec_capacity links.old ≤ vec_len links.old
        → vec_capacity links.new ≡ vec_len links.old + (vec_len links.old / 4 + LEAST_GROWTH)) }
    ensures err { OnErr result (vec_capacity links.new ≡ vec_capacity links.old) }
{
    if links.len() < links.capacity() {
        return Ok(());
    }
    links.reserve_exact(links.len() / 4 + LEAST_GROWTH)?;
    Ok(())
}

/// Forgets the chains, and gives the memory of the links back. The map is a new, empty one; no clause speaks of its
/// room.
pub(crate) fn forget(alloc: Global, chains: &mut IndexMap<Vec<u8>, Chain>, links: &mut Vec<u32>)
    ensures chains { chains.new.entries ≡ [] }
    ensures links { links.new.items ≡ [] }
    ensures room { vec_capacity links.new ≡ 0 }
{
    *chains = IndexMap::new(alloc);
    *links = Vec::new(alloc);
}

/// The place after so many.
fn next_place(places: usize) -> Result<u32, NoMemory>
    ensures place { IfOk result (λ place. place ≡ places) }
    ensures bounded { IfOk result (λ place. place + 1 < 2 ^ 32) }
    ensures err { OnErr result (2 ^ 32 ≤ places + 1) }
{
    match u32::try_from(places) {
        Ok(place) if place < u32::MAX => Ok(place),
        _ => Err(NoMemory),
    }
}

/// The addresses of the chain's places from `low` on, ascending. Takes time for each of them, and not
/// for those below.
pub(crate) fn addresses_from(
    alloc: Global,
    chain: Chain,
    links: &[u32],
    addressing: &Addressing,
    low: u64,
) -> Result<Vec<u64>, NoMemory>
    requires chain { AscendBetween 0 (length links.now) (places_of links.now chain) }
    requires rising { IsRising addressing.now }
    requires bounded { end_of addressing.now links.now ≤ ADDRESSES_MAX }
    ensures addresses { IfOk result (λ found. found.items ≡ filter (nat_le low) (moved addressing.now (places_of links.now chain))) }
    ensures ascend { IfOk result (λ found. AscendBetween 0 ADDRESSES_MAX found.items) }
{
    let mut found = addresses_back_to(alloc, chain, links, addressing, low)?;
    found.reverse();
    Ok(found)
}

/// The same addresses, descending.
fn addresses_back_to(
    alloc: Global,
    chain: Chain,
    links: &[u32],
    addressing: &Addressing,
    low: u64,
) -> Result<Vec<u64>, NoMemory>
    requires chain { AscendBetween 0 (length links.now) (places_of links.now chain) }
    requires rising { IsRising addressing.now }
    requires bounded { end_of addressing.now links.now ≤ ADDRESSES_MAX }
    ensures { IfOk result (λ found. reverse found.items ≡ filter (nat_le low) (moved addressing.now (places_of links.now chain))) }
{
    let mut found = Vec::new(alloc);
    let mut left = chain;
    while left.count > 0 {
        let address = addressing.address_of(left.newest);
        if address < low {
            return Ok(found);
        }
        found.push(address)?;
        left = left.older(links);
    }
    Ok(found)
}
