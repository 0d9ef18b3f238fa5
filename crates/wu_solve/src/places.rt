//! Addresses that stand near extents: the others aren't listed.
ghost use Rattle.std.specs.Prelude.{◌≡◌, ◌^◌, ◌<◌, ◌≤◌, ◌++◌, All, IfOk, OnOk};
ghost use Rattle.std.specs.List.Sorted.{IsStrictlyIncreasing};
ghost use Rattle.wu_solve.specs.Listing.{IsAscending};
ghost use Rattle.wu_solve.specs.Spanning.{ArePlacesNear, beyond, places_to};

use crate::lookup::{addresses_from, behind};
use std::alloc::Global;
use wu_base::{Extent, NoMemory};

/// The addresses that lie in one of the extents, each as an extent. Those that lie in none are passed
/// over by steps that double.
pub fn places_near(
    alloc: Global,
    addresses: &[u64],
    extents: &[Extent],
) -> Result<Vec<Extent>, NoMemory>
    requires addresses { IsStrictlyIncreasing addresses.now }
    requires extents { IsAscending extents.now }
    requires ordered { All (λ x. x.start ≤ x.end) extents.now }
    ensures { IfOk result (λ v. ArePlacesNear addresses.now extents.now v.items) }
{
    let mut found = Vec::new(alloc);
    let mut rest = addresses;
    for extent in extents {
        let from = addresses_from(rest, extent.start);
        rest = put_places(&mut found, from, extent.end)?;
    }
    Ok(found)
}

/// Puts the addresses up to the bound. Gives those beyond it.
fn put_places<'a>(
    found: &mut Vec<Extent>,
    addresses: &'a [u64],
    bound: u64,
) -> Result<&'a [u64], NoMemory>
    ensures rest { IfOk result (λ rest. rest.now ≡ beyond bound addresses.now) }
    ensures put { OnOk result (found.new.items ≡ found.old.items ++ places_to bound addresses.now) }
{
    let mut rest = addresses;
    while let Some(address) = rest.first() {
        if bound < *address {
            return Ok(rest);
        }
        found.push(Extent {
            start: *address,
            end: *address,
        })?;
        rest = behind(rest, 1);
    }
    Ok(rest)
}
