//! The directory in the bytes of a recorded part.
ghost use Rattle.std.specs.Prelude.{◌≡◌, ℕ, List, ◌++◌, IfNone, IfOk, IfSome, MatchBool, MatchOption, length};
ghost use Rattle.wu_part.specs.Directories.{PartDirectory};
ghost use Rattle.wu_part.specs.Headers.{SpellsHeader};
ghost use Rattle.wu_part.specs.Parts.{IsDirectoryOf, IsRecorded};

use std::alloc::Global;
use wu_base::{NoMemory, PartRec};
use wu_part::{Directory, HEADER_LEN, read_directory, read_header};

/// The directory of the recorded part, of which these are the bytes. None where they have none, or
/// one that tells something else. The one error is out of memory.
pub fn directory_in(
    alloc: Global,
    part: &PartRec,
    bytes: &[u8],
) -> Result<Option<Directory>, NoMemory>
    ensures found { IfOk result (λ found. IfSome found (λ directory. IsDirectoryOf directory bytes.now × IsRecorded part.now directory)) }
    ensures none { IfOk result (λ found. IfNone found ((directory : PartDirectory) → IsDirectoryOf directory bytes.now
        → IsRecorded part.now directory → ⊥)) }
{
    let Some(code) = code_in(bytes) else {
        return Ok(None);
    };
    match read_directory(alloc, code, bytes.len() as u64)? {
        Some(directory) => Ok(if_told(directory, part)),
        None => Ok(None),
    }
}

/// The directory, where it tells what is recorded of the part.
fn if_told(directory: Directory, part: &PartRec) -> Option<Directory>
    ensures { MatchOption result (IsRecorded part.now directory → ⊥) (λ told. (told ≡ directory) × IsRecorded part.now told) }
{
    if tells(&directory, part) {
        Some(directory)
    } else {
        None
    }
}

/// The bytes of a part's directory: as many after the header as it tells. None where there is no
/// header, or there aren't so many.
fn code_in(bytes: &[u8]) -> Option<&[u8]>
    ensures found { IfSome result (λ code. (header blocks : List ℕ) × (bytes.now ≡ header ++ (code.now ++ blocks))
        × SpellsHeader (length code.now) header) }
    ensures none { IfNone result ((header code blocks : List ℕ) → bytes.now ≡ header ++ (code ++ blocks)
        → SpellsHeader (length code) header → ⊥) }
{
    if bytes.len() < HEADER_LEN {
        return None;
    }
    let (header, rest) = bytes.split_at(HEADER_LEN);
    match read_header(header) {
        Some(length) if length <= rest.len() as u64 => Some(&rest[..length as usize]),
        _ => None,
    }
}

/// Whether the directory tells what is recorded of the part.
fn tells(directory: &Directory, part: &PartRec) -> bool
    ensures { MatchBool result (IsRecorded part.now directory.now) (IsRecorded part.now directory.now → ⊥) }
{
    directory.size() == part.size
        && directory.generation() == part.generation
        && directory.low() == part.low
        && directory.high() == part.high
        && directory.stored() == part.stored
}
