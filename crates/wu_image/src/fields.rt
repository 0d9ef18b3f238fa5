//! Numbers and names in a checkpoint's bytes.
ghost use Rattle.std.specs.Prelude.{◌≡◌, ℕ, List, [], ◌∷◌, ◌++◌, IfSome, IfNone, OnOk, length, map};
ghost use Rattle.wu_image.specs.Items.{Item, Number, Id, Raw, StartsWith, Appends};

use wu_base::NoMemory;
use wu_vbyte::put_number;

/// The number that the bytes start with, and the rest. `None` exactly where they start with no number.
#[inline]
pub(crate) fn next_number(bytes: &[u8]) -> Option<(u64, &[u8])>
    ensures found { IfSome result (λ next. StartsWith bytes.now (Number next.0 ∷ []) next.1.now) }
    ensures none { IfNone result ((number : ℕ) (items : List Item) (rest : List ℕ)
        → StartsWith bytes.now (Number number ∷ items) rest → ⊥) }
{
    wu_vbyte::next_number(bytes)
}

/// The number of a user, a group or a node that the bytes start with, and the rest. `None` exactly where
/// they start with no number of 32 bits.
#[inline]
pub(crate) fn next_id(bytes: &[u8]) -> Option<(u32, &[u8])>
    ensures found { IfSome result (λ next. StartsWith bytes.now (Id next.0 ∷ []) next.1.now) }
    ensures none { IfNone result ((id : ℕ) (items : List Item) (rest : List ℕ) → StartsWith bytes.now (Id id ∷ items) rest → ⊥) }
{
    let Some((number, rest)) = next_number(bytes) else {
        return None;
    };
    if number <= u64::from(u32::MAX) {
        Some((number as u32, rest))
    } else {
        None
    }
}

/// Fills `numbers` with as many numbers as the bytes start with, and gives the rest. `None` exactly where
/// they don't start with so many.
pub(crate) fn next_numbers<'a>(bytes: &'a [u8], numbers: &mut [u64]) -> Option<&'a [u8]>
    ensures found { IfSome result (λ rest. StartsWith bytes.now (map Number numbers.new) rest.now) }
    ensures none { IfNone result ((others : List ℕ) (rest : List ℕ) → length others ≡ length numbers.old
        → StartsWith bytes.now (map Number others) rest → ⊥) }
    ensures length { length numbers.new ≡ length numbers.old }
{
    let mut rest = bytes;
    for place in 0..numbers.len() {
        let Some((number, left)) = next_number(rest) else {
            return None;
        };
        numbers[place] = number;
        rest = left;
    }
    Some(rest)
}

/// The bytes of a name, after their number, that the bytes start with, and the rest. `None` exactly where
/// they start with no such bytes.
pub(crate) fn next_name(bytes: &[u8]) -> Option<(&[u8], &[u8])>
    ensures found { IfSome result (λ next. StartsWith bytes.now (Number (length next.0.now) ∷ Raw next.0.now ∷ []) next.1.now) }
    ensures none { IfNone result ((name : List ℕ) (items : List Item) (rest : List ℕ)
        → StartsWith bytes.now (Number (length name) ∷ Raw name ∷ items) rest → ⊥) }
{
    let Some((length, rest)) = next_number(bytes) else {
        return None;
    };
    if length <= rest.len() as u64 {
        Some(rest.split_at(length as usize))
    } else {
        None
    }
}

/// Appends the numbers. Out of memory, `out` may have gained bytes, as after each of the others here.
pub(crate) fn put_numbers(out: &mut Vec<u8>, numbers: &[u64]) -> Result<(), NoMemory>
    ensures { OnOk result (Appends out.old.items (map Number numbers.now) out.new.items) }
{
    for number in numbers {
        put_number(out, *number)?;
    }
    Ok(())
}

/// Appends the numbers of users, groups or nodes.
pub(crate) fn put_ids(out: &mut Vec<u8>, ids: &[u32]) -> Result<(), NoMemory>
    ensures { OnOk result (Appends out.old.items (map Id ids.now) out.new.items) }
{
    for id in ids {
        put_number(out, u64::from(*id))?;
    }
    Ok(())
}

/// Appends a name after its length.
pub(crate) fn put_name(out: &mut Vec<u8>, name: &[u8]) -> Result<(), NoMemory>
    ensures { OnOk result (Appends out.old.items (Number (length name.now) ∷ Raw name.now ∷ []) out.new.items) }
{
    put_number(out, name.len() as u64)?;
    out.extend_from_slice(name)?;
    Ok(())
}
