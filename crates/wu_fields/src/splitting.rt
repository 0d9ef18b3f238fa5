//! The fields of a line.
ghost use Rattle.std.specs.Prelude.{◌≡◌, IfOk, map, Option, List, ℕ};
ghost use Rattle.std.specs.Option.{option_map};
ghost use Rattle.wu_fields.specs.Fields.{fields_of, unescaped, byte_of};

use bstr::ByteSlice;
use std::alloc::Global;
use wu_base::{Bytes, NoMemory};

/// The fields of the line, in order and unescaped: what stands between its TABs. `None` exactly where
/// a backslash isn't followed by a backslash, `t` or `n` in the same field. The empty line has one
/// field, which is empty. The one error is out of memory.
pub fn split_fields(alloc: Global, line: &[u8]) -> Result<Option<Vec<Bytes>>, NoMemory>
    ensures { IfOk result (λ fields. option_map (λ v. v.items) fields ≡ fields_of line.now) }
{
    let mut fields = Vec::new(alloc);
    for written in line.split(|byte| *byte == b'\t') {
        match unescape(alloc, written)? {
            Some(field) => fields.push(field)?,
            None => return Ok(None),
        }
    }
    Ok(Some(fields))
}

/// The field that these bytes are written for. `None` exactly where a backslash has no letter.
fn unescape(alloc: Global, written: &[u8]) -> Result<Option<Bytes>, NoMemory>
    ensures { IfOk result (λ field. field ≡ unescaped written.now) }
{
    match written.find_byte(b'\\') {
        Some(_) => unescape_bytes(alloc, written),
        None => Ok(Some(Bytes::from_slice(alloc, written)?)),
    }
}

/// The same, byte by byte.
fn unescape_bytes(alloc: Global, written: &[u8]) -> Result<Option<Bytes>, NoMemory>
    ensures { IfOk result (λ field. field ≡ unescaped written.now) }
{
    let mut field = Vec::with_capacity(alloc, written.len())?;
    let mut after_backslash = false;
    for &byte in written {
        if after_backslash {
            match byte_of(byte) {
                Some(meant) => field.push(meant)?,
                None => return Ok(None),
            }
            after_backslash = false;
        } else if byte == b'\\' {
            after_backslash = true;
        } else {
            field.push(byte)?;
        }
    }
    if after_backslash {
        return Ok(None);
    }
    Ok(Some(Bytes::from(field)))
}

/// The byte that the letter stands for after a backslash.
#[tactic(auto, using(std::proofs::lemmas::Bool::Decides::nat_tests), unfolding(crate::specs::Fields::byte_of))]
fn byte_of(letter: u8) -> Option<u8>
    ensures { result ≡ byte_of letter }
{
    match letter {
        b'\\' => Some(b'\\'),
        b't' => Some(b'\t'),
        b'n' => Some(b'\n'),
        _ => None,
    }
}
