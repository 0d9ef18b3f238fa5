//! The octal digits of a mode, and their bits.
ghost use Rattle.std.specs.Prelude.{◌≡◌};
ghost use Rattle.wu_access.specs.Access.{group_digit, is_granted, other_digit, owner_digit};

use crate::Want;

/// The bits of others.
#[inline(always)]
pub(crate) fn other_digit(mode: u16) -> u16
    ensures { result ≡ other_digit mode }
{
    mode % 0o10
}

/// The bits of the group.
#[inline(always)]
pub(crate) fn group_digit(mode: u16) -> u16
    ensures { result ≡ group_digit mode }
{
    mode / 0o10 % 0o10
}

/// The bits of the owner.
#[inline(always)]
pub(crate) fn owner_digit(mode: u16) -> u16
    ensures { result ≡ owner_digit mode }
{
    mode / 0o100 % 0o10
}

/// Whether an octal digit has the bit that is wanted.
#[inline(always)]
pub(crate) fn grants(digit: u16, want: Want) -> bool
    ensures { result ≡ is_granted digit want }
{
    match want {
        Want::Read => digit / 4 % 2 == 1,
        Want::Execute => digit % 2 == 1,
    }
}
