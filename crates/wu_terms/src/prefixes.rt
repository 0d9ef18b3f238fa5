//! The prefix that a field asks for.
ghost use Rattle.std.specs.Prelude.{◌≡◌, IfOk};
ghost use Rattle.wu_terms.specs.Prefixes.{is_run, prefix_in};

use std::alloc::Global;
use wu_base::{Bytes, NoMemory};
use wu_token::{Word, is_word_byte};

/// The prefix of the field: the empty one of an empty field, and of a field that is one run its word, so
/// that a prefix is folded and cut as a word is. `None` exactly where the field isn't empty and isn't one
/// run. The only error is out of memory.
pub fn prefix_of(alloc: Global, field: &[u8]) -> Result<Option<Bytes>, NoMemory>
    ensures { IfOk result (λ prefix. prefix ≡ prefix_in field.now) }
{
    if field.is_empty() {
        return Ok(Some(Bytes::from_slice(alloc, field)?));
    }
    if !is_run(field) {
        return Ok(None);
    }
    let word = Word::of_run(field);
    Ok(Some(Bytes::from_slice(alloc, word.as_slice())?))
}

/// Whether all of the bytes belong to words.
fn is_run(bytes: &[u8]) -> bool
    ensures { result ≡ is_run bytes.now }
{
    bytes.iter().all(|byte| is_word_byte(*byte))
}
