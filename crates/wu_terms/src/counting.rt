//! The files that have a term.
ghost use Rattle.std.specs.Prelude.{◌≡◌, ◌<◌, ◌≤◌, ◌++◌, ℕ, List};
ghost use Rattle.std.specs.List.{AllByRecursion, list_any};
ghost use Rattle.std.specs.List.Sorted.{IsStrictlyIncreasing, IsStrictlySortedBy};
ghost use Rattle.std.specs.Ordering.{nat_cmp};
ghost use Rattle.wu_base.specs.Ranges.{frames_with, is_in};
ghost use Rattle.wu_terms.specs.Listings.{StartInOrder};

use wu_base::Range;

/// How many of the frames have one of the addresses, which ascend. A frame is where a file's tokens stand;
/// none starts before one that stands before it. Takes time for each frame, logarithmic in the number of
/// addresses, and no memory.
pub fn files_with(at: &[u64], frames: &[Range]) -> u64
    requires ascending { IsStrictlyIncreasing at.now }
    requires order { StartInOrder frames.now }
    ensures { result ≡ frames_with frames.now at.now }
{
    let mut rest = at;
    let mut count = 0;
    for frame in frames {
        rest = addresses_from(rest, frame.start);
        if begins_in(rest, frame) {
            count += 1;
        }
    }
    count
}

/// The addresses without those first ones that are below the limit.
fn addresses_from(addresses: &[u64], limit: u64) -> &[u64]
    requires { IsStrictlySortedBy nat_cmp addresses.now }
    ensures whole { (front : List ℕ) × (addresses.now ≡ front ++ result.now) × AllByRecursion (λ address. address < limit) front }
    ensures from { AllByRecursion (λ address. limit ≤ address) result.now }
    ensures ascending { IsStrictlySortedBy nat_cmp result.now }
{
    let place = addresses.partition_point(|address| *address < limit);
    addresses.split_at(place).1
}

/// Whether the frame has the first of the addresses, none of which is below its start: so whether it has one.
fn begins_in(addresses: &[u64], frame: &Range) -> bool
    requires ascending { IsStrictlySortedBy nat_cmp addresses.now }
    requires from { AllByRecursion (λ address. frame.now.start ≤ address) addresses.now }
    ensures { result ≡ list_any (is_in frame.now) addresses.now }
{
    match addresses {
        [first, ..] => *first - frame.start < frame.len,
        [] => false,
    }
}
