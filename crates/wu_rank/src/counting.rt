//! The lengths of units, and how rare a word is among them.
ghost use Rattle.std.specs.Prelude.{◌≡◌, ◌-◌, ◌==◌, ◌<◌, ◌≤◌, ◌^◌, if◌then◌else◌};
ghost use Rattle.std.specs.List.{All};
ghost use Rattle.wu_log2.specs.Logarithm.{lg};
ghost use Rattle.wu_rank.specs.Scores.{length_of, total_length};

use crate::results::Unit;
use wu_base::Extent;
use wu_log2::{lg, lg_never_falls};

/// How many addresses the extent has.
pub(crate) fn extent_length(extent: Extent) -> u64
    requires { length_of extent < 2 ^ 26 }
    ensures { result ≡ length_of extent }
{
    match extent.end.checked_sub(extent.start) {
        Some(past_first) => past_first + 1,
        None => 0,
    }
}

/// The summed length of the units, in addresses; each unit is shorter than 2^26. Over no units it is
/// 0. Takes no memory.
pub fn summed_length(units: &[Unit]) -> u128
    requires { All (λ unit. length_of unit.extent < 2 ^ 26) units.now }
    ensures { result ≡ total_length units.now }
{
    let mut sum = 0;
    for unit in units {
        sum += u128::from(extent_length(unit.extent));
    }
    sum
}

/// The inverse document frequency of a word that `held` of the `all` units hold, in units of 1/65536,
/// and 0 for a word that no unit holds.
pub(crate) fn inverse_frequency(all: u64, held: u64) -> u32
    requires { held ≤ all }
    ensures value { result ≡ (if held == 0 then 0 else lg all - lg held) }
    ensures small { result ≤ 2 ^ 22 }
{
    if held == 0 {
        return 0;
    }
    lg_never_falls(held, all);
    lg(all) - lg(held)
}
