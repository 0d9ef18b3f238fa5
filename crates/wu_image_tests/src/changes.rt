//! A checkpoint with each of its bytes changed.
use crate::checkpoints::is_written_back;
use std::alloc::Global;
use std::io;
use wu_image::{Checkpoint, read_checkpoint};
use wu_rows::NoAnswer;

/// A file with the text `apple`, in one part.
const CHECKPOINT: [u8; 42] =
    *b"WUMPUSC2\x07\x04\x01\x00\x02\x01\x00\x00\x00\xed\x03\x02\x01\x05\x05\x80\x03\x05\x01\x02\x05\x01\x01\x01a\x02\x01\x02R\x00\x02\x04\x05\x00";

/// What stands in place of a byte.
const OTHERS: [u8; 8] = [0x00, 0x01, 0x02, 0x2f, 0x7f, 0x80, 0x81, 0xff];

/// How many changed checkpoints are read so far.
#[derive(Drop)]
struct Counts {
    none: u64,
    same: u64,
    other: u64,
}

/// Changes each byte of the checkpoint in turn, and prints how many of the changed ones are none,
/// and how many are written back as they were read.
pub fn compare_changes(rt: &(impl Print + AllocGlobal)) -> io::Result<()> {
    let counts = changed(rt.alloc())?;
    let (none, same, other) = (counts.none, counts.same, counts.other);
    println!(rt;
        "checkpoints with a byte changed: {none} are none, {same} are written back, {other} are written as other bytes"
    )
}

fn changed(alloc: Global) -> Result<Counts, NoAnswer> {
    let mut counts = Counts {
        none: 0,
        same: 0,
        other: 0,
    };
    let mut bytes = CHECKPOINT;
    for place in 0..bytes.len() {
        for other in OTHERS {
            let byte = bytes[place];
            if other != byte {
                bytes[place] = other;
                count(alloc, &bytes, &mut counts)?;
                bytes[place] = byte;
            }
        }
    }
    Ok(counts)
}

fn count(alloc: Global, bytes: &[u8], counts: &mut Counts) -> Result<(), NoAnswer> {
    match read_checkpoint(alloc, bytes)? {
        Some(checkpoint) => count_checkpoint(alloc, &checkpoint, bytes, counts),
        None => {
            counts.none = counts.none.saturating_add(1);
            Ok(())
        }
    }
}

fn count_checkpoint(
    alloc: Global,
    checkpoint: &Checkpoint,
    bytes: &[u8],
    counts: &mut Counts,
) -> Result<(), NoAnswer> {
    if is_written_back(alloc, checkpoint, bytes)? {
        counts.same = counts.same.saturating_add(1);
    } else {
        counts.other = counts.other.saturating_add(1);
    }
    Ok(())
}
