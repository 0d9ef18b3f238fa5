//! What is counted of a store in which nothing is wrong.
ghost use Rattle.std.specs.Prelude.{◌≡◌, ◌^◌, ◌<◌, sum_by};
ghost use Rattle.wu_check.specs.Wrong.{counts_of, live_of, parts_of};

use crate::checking::Checked;
use wu_base::PartRec;
use wu_image::{Checkpoint, FileRec};

/// The parts that count: none in the first version of a store. Takes no memory.
pub(crate) fn counted_parts(version: u8, checkpoint: &Checkpoint) -> &[PartRec]
    ensures { result.now ≡ parts_of version checkpoint.now }
{
    if version == 2 {
        checkpoint.parts.as_slice()
    } else {
        &[]
    }
}

/// How many files, live addresses, postings and parts a store of that version has. In the first
/// version the postings are those of the texts.
pub(crate) fn counts(version: u8, files: &[FileRec], parts: &[PartRec]) -> Checked
    requires live { live_of files.now < 2 ^ 64 }
    requires stored { sum_by (λ part. part.stored) parts.now < 2 ^ 64 }
    ensures { result ≡ counts_of version files.now parts.now }
{
    let live = live(files);
    Checked::Sound {
        files: files.len() as u64,
        live,
        stored: if version == 2 { stored(parts) } else { live },
        parts: parts.len() as u64,
    }
}

/// How many addresses the ranges have.
fn live(files: &[FileRec]) -> u64
    requires { live_of files.now < 2 ^ 64 }
    ensures { result ≡ live_of files.now }
{
    files.iter().map(|file| file.range.len).sum()
}

/// How many postings the parts have.
fn stored(parts: &[PartRec]) -> u64
    requires { sum_by (λ part. part.stored) parts.now < 2 ^ 64 }
    ensures { result ≡ sum_by (λ part. part.stored) parts.now }
{
    parts.iter().map(|part| part.stored).sum()
}
