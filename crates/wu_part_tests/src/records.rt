//! Parts of which a row gives the bytes.
ghost use Rattle.std.specs.Prelude.{◌≡◌, IfOk};
ghost use Rattle.wu_part.specs.Parts.{IsRecorded};

use std::alloc::Global;
use wu_base::PartRec;
use wu_part::Directory;
use wu_part_rows::directory_in;
use wu_rows::{NoAnswer, bytes};

/// A part with its directory, as it is recorded.
#[derive(Drop)]
pub struct Part {
    pub recorded: PartRec,
    pub directory: Directory,
}

/// The part with the bytes of the field, in a blob of that number.
pub fn part_of(alloc: Global, blob: u64, field: &str) -> Result<Part, NoAnswer>
    ensures { IfOk result (λ part. IsRecorded part.recorded part.directory) }
{
    let bytes = bytes(alloc, field)?;
    match directory_in(alloc, &bytes)? {
        Some(directory) => Ok(Part {
            recorded: record_of(blob, &directory),
            directory,
        }),
        None => Err(NoAnswer::BadRow),
    }
}

/// What is recorded of a part with that directory.
fn record_of(blob: u64, directory: &Directory) -> PartRec
    ensures { IsRecorded result directory.now }
{
    PartRec {
        blob,
        size: directory.size(),
        generation: directory.generation(),
        low: directory.low(),
        high: directory.high(),
        stored: directory.stored(),
    }
}
