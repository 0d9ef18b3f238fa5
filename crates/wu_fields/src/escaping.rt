//! Writing a field.
ghost use Rattle.std.specs.Prelude.{◌≡◌, ◌++◌, ◌<◌, ◌==◌, false, is_none, OnOk, OnErr, List, ℕ, Some, length};
ghost use Rattle.std.specs.List.{list_any, list_all};
ghost use Rattle.wu_fields.specs.Fields.{escaped, letter_of, fields_of, line_of};

use bstr::ByteSlice;
use wu_base::NoMemory;

/// Appends the field, escaped. Out of memory, `out` is as it was.
#[tactic(auto, using(crate::proofs::FieldLemmas::escaped_plain))]
pub fn put_field(out: &mut Vec<u8>, field: &[u8]) -> Result<(), NoMemory>
    ensures ok { OnOk result (out.new.items ≡ out.old.items ++ escaped field.now) }
    ensures err { OnErr result (out.new.items ≡ out.old.items) }
{
    if is_plain(field) {
        out.extend_from_slice(field)?;
        return Ok(());
    }
    let before = out.len();
    if append_escaped(out, field).is_ok() {
        Ok(())
    } else {
        out.truncate(before);
        Err(NoMemory)
    }
}

/// Appends the field, escaped. Out of memory, `out` may have gained bytes.
fn append_escaped(out: &mut Vec<u8>, field: &[u8]) -> Result<(), NoMemory>
    ensures ok { OnOk result (out.new.items ≡ out.old.items ++ escaped field.now) }
    ensures err { OnErr result ((more : List ℕ) × (out.new.items ≡ out.old.items ++ more)) }
{
    for &byte in field {
        match letter_of(byte) {
            Some(letter) => out.extend_from_slice(&[b'\\', letter])?,
            None => out.push(byte)?,
        }
    }
    Ok(())
}

/// Whether no byte of the field is escaped.
fn is_plain(field: &[u8]) -> bool
    ensures { result ≡ list_all (λ byte. is_none (letter_of byte)) field.now }
{
    field.find_byteset(b"\\\t\n").is_none()
}

/// The letter that stands for the byte after a backslash, if the byte is escaped.
#[tactic(auto, using(std::proofs::lemmas::Bool::Decides::nat_tests), unfolding(crate::specs::Fields::letter_of))]
fn letter_of(byte: u8) -> Option<u8>
    ensures { result ≡ letter_of byte }
{
    match byte {
        b'\\' => Some(b'\\'),
        b'\t' => Some(b't'),
        b'\n' => Some(b'n'),
        _ => None,
    }
}

/// The line that is written for fields, one or more, with a TAB between each two, is split into
/// these fields again.
pub fn written_fields_are_read_back()
    ensures { (fields : List (List ℕ)) → 0 < length fields → fields_of (line_of fields) ≡ Some fields }
{}

/// A line without an LF that is split into fields is the one that is written for them.
pub fn read_fields_are_written_back()
    ensures { (line : List ℕ) (fields : List (List ℕ)) → list_any (λ byte. byte == 10) line ≡ false → fields_of line ≡ Some fields → line ≡ line_of fields }
{}
