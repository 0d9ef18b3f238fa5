//! The header of a part.
ghost use Rattle.std.specs.Prelude.{◌≡◌, ℕ, List, ◌++◌, IfSome, IfNone, OnOk, length};
ghost use Rattle.wu_part.specs.Headers.{SpellsHeader};

use wu_base::NoMemory;

/// The first bytes of a part.
const MARK: [u8; 8] = *b"WUMPUSP1";

/// How many bytes a header has.
pub const HEADER_LEN: usize = 16;

/// The length in bytes of the directory that follows this header. `None` exactly where the bytes are
/// no header. Takes no memory.
pub fn read_header(bytes: &[u8]) -> Option<u64>
    ensures found { IfSome result (λ length. SpellsHeader length bytes.now) }
    ensures none { IfNone result ((length : ℕ) → SpellsHeader length bytes.now → ⊥) }
{
    if bytes.len() != HEADER_LEN {
        return None;
    }
    if !bytes.starts_with(&MARK) {
        return None;
    }
    Some(u64::from_be_bytes([
        bytes[8], bytes[9], bytes[10], bytes[11], bytes[12], bytes[13], bytes[14], bytes[15],
    ]))
}

/// Appends the header of a part with a directory of so many bytes. Out of memory, `out` may have
/// gained bytes.
pub(crate) fn put_header(out: &mut Vec<u8>, directory_length: u64) -> Result<(), NoMemory>
    ensures { OnOk result ((code : List ℕ) × SpellsHeader directory_length code × (out.new.items ≡ out.old.items ++ code)) }
{
    out.extend_from_slice(&MARK)?;
    out.extend_from_slice(&directory_length.to_be_bytes())?;
    Ok(())
}
