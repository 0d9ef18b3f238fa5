//! A part with each of its bits changed.
use crate::blobs::{Reached, reached_in};
use crate::lists::lists_of;
use std::alloc::Global;
use std::io;
use wu_part::encode;
use wu_rows::NoAnswer;

/// How many changed parts are read so far.
#[derive(Drop)]
struct Counts {
    nothing: u64,
    header: u64,
    directory: u64,
    blocks: u64,
}

impl Counts {
    fn add(&mut self, reached: Reached) {
        match reached {
            Reached::Nothing => self.nothing = self.nothing.saturating_add(1),
            Reached::Header => self.header = self.header.saturating_add(1),
            Reached::Directory => self.directory = self.directory.saturating_add(1),
            Reached::Blocks => self.blocks = self.blocks.saturating_add(1),
        }
    }
}

/// Changes each bit of the part of the text `apple` in turn, and prints how far the bytes are then
/// read.
pub fn compare_changes(rt: &(impl Print + AllocGlobal)) -> io::Result<()> {
    let counts = changed(rt.alloc())?;
    let (nothing, header) = (counts.nothing, counts.header);
    let (directory, blocks) = (counts.directory, counts.blocks);
    println!(rt;
        "parts with a bit changed: {nothing} have no header, {header} no directory, {directory} a block that is no spelling, {blocks} are parts"
    )
}

fn changed(alloc: Global) -> Result<Counts, NoAnswer> {
    let lists = lists_of(alloc, "</file>|</line>|<file>|<line>|apple", "6|5|2|3|4")?;
    let mut blob = encode(alloc, &lists, 0)?;
    let mut counts = Counts {
        nothing: 0,
        header: 0,
        directory: 0,
        blocks: 0,
    };
    for place in 0..blob.len() {
        for bit in 0..8u32 {
            let byte = blob[place];
            blob[place] = byte ^ (1u8 << bit);
            counts.add(reached_in(alloc, &blob)?);
            blob[place] = byte;
        }
    }
    Ok(counts)
}
