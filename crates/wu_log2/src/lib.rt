//! The binary logarithm in whole numbers, in units of 1/65536: by repeated squaring, as Knuth gives it for
//! base ten in The Art of Computer Programming, volume 1, section 1.2.2.
#![tactic(auto)]

ghost use Rattle.std.specs.Prelude.{◌≡◌, ℕ, ◌+◌, ◌*◌, ◌^◌, ◌<◌, ◌≤◌};
ghost use Rattle.wu_log2.specs.Logarithm.{lg};

/// How many binary digits the logarithm has after its point.
const FRACTION_DIGITS: u32 = 16;

/// The binary logarithm of `n`, in units of 1/65536: at most the true one, and less than two
/// units below it. `n` is at least 1. Takes no memory.
///
/// The whole part is the place of the highest set bit. Each digit of the fraction comes from
/// squaring the mantissa, a number from 1 up to 2 in units of 2^-31: where the square reaches 2
/// the digit is 1 and the square is halved.
pub fn lg(n: u64) -> u32
    requires { 1 ≤ n }
    ensures value { result ≡ lg n }
    ensures small { result < 2 ^ 22 }
    ensures at_least { 2 ^ result ≤ n ^ 65536 }
    ensures within { n ^ 65536 < 2 ^ (result + 2) }
{
    let place = n.ilog2();
    let mut digits = place;
    let mut mantissa = ((u128::from(n) << 31) >> place) as u64;
    'fraction: for _ in 0..FRACTION_DIGITS {
        let square = mantissa * mantissa;
        if square >= 1 << 63 {
            digits = 2 * digits + 1;
            mantissa = square >> 32;
        } else {
            digits *= 2;
            mantissa = square >> 31;
        }
    }
    digits
}

/// A law: the logarithm never falls as its number rises, from 1 to 2^64 - 1.
pub fn lg_never_falls(low: u64, high: u64)
    requires positive { 1 ≤ low }
    requires ordered { low ≤ high }
    ensures { lg low ≤ lg high }
{}

/// A law: the logarithm of 2^`power` is exactly 65536 times `power`, for a `power` from 0 to 63.
pub fn lg_of_power(power: u32)
    requires { power < 64 }
    ensures { lg (2 ^ power) ≡ 65536 * power }
{}
