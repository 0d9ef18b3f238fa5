//! Fetching of many postings over many frames.
ghost use Rattle.std.specs.Prelude.{◌≤◌, OnOk};

use crate::fetching::{fetch_all, fetch_live};
use std::alloc::Global;
use std::io;
use wu_parts::Parts;
use wu_parts_rows::{By, Index, empty_index, put_text};
use wu_rows::NoAnswer;
use wu_space::Space;
use wu_space_rows::release;

/// How many files there are.
const FILES: u32 = 10_000;

/// A text that has a common term ten times, and one that has a rare term too.
const COMMON_TEXT: &[u8] = b"w w w w w\nw w w w w\n";

const RARE_TEXT: &[u8] = b"w w w w w\nw w w rare w w\n";

/// What was fetched of a term over so many frames, out of all its addresses.
#[derive(Clone, Copy)]
struct Fetched {
    term: &'static str,
    frames: u32,
    count: usize,
    of: usize,
    agrees: bool,
}

/// Compares what is fetched over 10,000, 10 and 1 frames with a plain filter of all addresses.
pub fn compare_fetches(rt: &(impl Print + AllocGlobal)) -> io::Result<()> {
    let mut index = empty_index(rt.alloc(), 1, 1, "")?;
    print_all(rt, fetches(rt.alloc(), &mut index))
}

fn print_all(rt: &impl Print, fetches: Result<Vec<Fetched>, NoAnswer>) -> io::Result<()> {
    for fetched in &fetches? {
        print(rt, *fetched)?;
    }
    Ok(())
}

fn print(rt: &impl Print, fetched: Fetched) -> io::Result<()> {
    let (term, frames) = (fetched.term, fetched.frames);
    let (count, of) = (fetched.count, fetched.of);
    let which = if fetched.agrees {
        "those"
    } else {
        "other ones than those"
    };
    println!(rt;
        "{term} over {frames} frames: {count} of {of} addresses, {which} of a plain filter"
    )
}

fn fetches(alloc: Global, index: &mut Index) -> Result<Vec<Fetched>, NoAnswer>
    requires { index.old.parts.memory.end ≤ index.old.space.next }
{
    put_files(alloc, &mut index.parts, &mut index.space)?;
    let mut fetches = Vec::new(alloc);
    for step in [1, 1000, FILES] {
        keep_each(&mut index.space, step);
        for term in ["w", "rare"] {
            fetches.push(compared(&index.parts, &index.space, term, FILES / step)?)?;
        }
    }
    Ok(fetches)
}

/// Puts the texts of all files into memory; the one numbered 5,000 has the rare term.
fn put_files(alloc: Global, parts: &mut Parts, space: &mut Space) -> Result<(), NoAnswer>
    requires { parts.old.memory.end ≤ space.old.next }
    ensures { OnOk result (parts.new.memory.end ≤ space.new.next) }
{
    for ino in 0..FILES {
        let text = if ino == 5000 { RARE_TEXT } else { COMMON_TEXT };
        put_text(alloc, By::Text, parts, space, ino, text)?;
    }
    Ok(())
}

/// Gives up all files whose numbers no multiple of the step is.
fn keep_each(space: &mut Space, step: u32) {
    for ino in 0..FILES {
        if step == 0 || ino % step > 0 {
            release(space, ino);
        }
    }
}

fn compared(
    parts: &Parts,
    space: &Space,
    term: &'static str,
    frames: u32,
) -> Result<Fetched, NoAnswer> {
    let all = fetch_all(parts, term.as_bytes())?;
    let found = fetch_live(parts, space, term.as_bytes())?;
    Ok(Fetched {
        term,
        frames,
        count: found.len(),
        of: all.len(),
        agrees: agrees(space, all.as_slice(), found.as_slice()),
    })
}

/// Whether those are found of all the addresses that a file has.
fn agrees(space: &Space, all: &[u64], found: &[u64]) -> bool {
    let mut found = found.iter();
    for address in all {
        if space.owner_at(*address).is_some() && found.next() != Some(address) {
            return false;
        }
    }
    found.next().is_none()
}
