//! Decimal numbers and octal modes.
ghost use Rattle.std.specs.Prelude.{◌≡◌, ◌++◌, ◌∷◌, ◌+◌, ◌-◌, ◌*◌, ◌≤◌, ◌^◌, ◌<◌, ◌&&◌, [], true, nat_le, length, slice_index, MatchBool, ◌⊎◌, OnOk, OnErr, IfSome, MatchOption, decimal, if◌then◌else◌};
ghost use Rattle.std.specs.List.{list_all};
ghost use Rattle.std.specs.Char.{is_ascii_digit};
ghost use Rattle.std.specs.Str.Parse.{digits_value};
ghost use Rattle.wu_fields.specs.Numbers.{number_of, mode_of, is_octal_digit};

use itoa::Buffer;
use wu_base::NoMemory;

/// The number that the field spells in decimal. `None` exactly where the field isn't a decimal
/// number up to `max` without leading zeros.
#[tactic(auto, unfolding(crate::specs::Numbers::number_of))]
pub fn read_decimal(field: &[u8], max: u64) -> Option<u64>
    ensures value { result ≡ number_of field.now max }
    ensures spelled { IfSome result (λ n. field.now ≡ decimal n) }
    ensures within { IfSome result (λ n. n ≤ max) }
{
    if is_padded(field) {
        return None;
    }
    number_up_to(field, max)
}

/// Whether the field is empty, or begins with a zero and goes on.
fn is_padded(field: &[u8]) -> bool
    ensures { MatchBool result
        (length field.now ≡ 0 ⊎ (1 < length field.now) × (slice_index field.now 0 ≡ 48))
        ((0 < length field.now) × (slice_index field.now 0 ≡ 48 → length field.now ≡ 1)) }
{
    field.is_empty() || field.len() > 1 && field[0] == b'0'
}

/// The number that the digits spell. `None` exactly where some byte is no digit or the number is
/// over `max`.
fn number_up_to(digits: &[u8], max: u64) -> Option<u64>
    ensures value { result ≡ (if list_all is_ascii_digit digits.now && nat_le (digits_value 10 digits.now) max then Some (digits_value 10 digits.now) else None) }
    ensures within { IfSome result (λ n. n ≤ max) }
{
    let mut number = 0u64;
    for &byte in digits {
        if !byte.is_ascii_digit() {
            return None;
        }
        number = match with_digit(number, byte) {
            Some(longer) => longer,
            None => return None,
        };
    }
    if number <= max { Some(number) } else { None }
}

/// The number with one more digit at its end. `None` exactly where 64 bits don't hold it.
fn with_digit(number: u64, digit: u8) -> Option<u64>
    requires { is_ascii_digit digit ≡ true }
    ensures { MatchOption result (2 ^ 64 ≤ number * 10 + (digit - 48)) (λ longer. longer ≡ number * 10 + (digit - 48)) }
{
    match number.checked_mul(10) {
        Some(tens) => tens.checked_add(u64::from(digit - b'0')),
        None => None,
    }
}

/// The mode that three or four octal digits spell, at most 0o7777. `None` exactly where the field is
/// none.
#[tactic(auto, unfolding(crate::specs::Numbers::mode_of))]
pub fn read_octal_mode(field: &[u8]) -> Option<u16>
    ensures value { result ≡ mode_of field.now }
    ensures small { IfSome result (λ mode. mode < 8 ^ 4) }
{
    match field {
        [owner, group, other] => mode_of_digits(b'0', *owner, *group, *other),
        [special, owner, group, other] => mode_of_digits(*special, *owner, *group, *other),
        _ => None,
    }
}

/// The mode of four octal digits. `None` exactly where one of the bytes is none.
#[tactic(auto, unfolding(crate::specs::Numbers::mode_of))]
fn mode_of_digits(special: u8, owner: u8, group: u8, other: u8) -> Option<u16>
    ensures value { result ≡ mode_of (special ∷ owner ∷ group ∷ other ∷ []) }
    ensures small { IfSome result (λ mode. mode < 8 ^ 4) }
{
    if is_octal_digit(special)
        && is_octal_digit(owner)
        && is_octal_digit(group)
        && is_octal_digit(other)
    {
        let high = u16::from(special - b'0') * 8 + u16::from(owner - b'0');
        let low = u16::from(group - b'0') * 8 + u16::from(other - b'0');
        Some(high * 64 + low)
    } else {
        None
    }
}

/// Whether the byte is a digit from 0 to 7.
fn is_octal_digit(byte: u8) -> bool
    ensures { result ≡ is_octal_digit byte }
{
    matches!(byte, b'0'..=b'7')
}

/// Appends the number in decimal. Out of memory, `out` is as it was.
pub fn put_decimal(out: &mut Vec<u8>, number: u64) -> Result<(), NoMemory>
    ensures ok { OnOk result (out.new.items ≡ out.old.items ++ decimal number) }
    ensures err { OnErr result (out.new.items ≡ out.old.items) }
{
    let mut buffer = Buffer::new();
    out.extend_from_slice(buffer.format(number).as_bytes())?;
    Ok(())
}

/// A law: a number that is written in decimal is read back where it is at most `max`, and is
/// refused where it is over it.
pub fn written_numbers_are_read_back(number: u64, max: u64)
    ensures { number_of (decimal number) max ≡ (if nat_le number max then Some number else None) }
{}
