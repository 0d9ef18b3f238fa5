//! What is fetched of the lists of parts over a store in memory.
ghost use Rattle.std.specs.Prelude.{◌+◌, ◌≤◌, All};
ghost use Rattle.wu_base.specs.declared.limits.TheConstants.{ADDRESSES_MAX};
ghost use Rattle.wu_base.specs.Ranges.{AreApart};

use std::alloc::Global;
use wu_base::{Range, Trouble};
use wu_lists::{Lists, Tally, count_of};
use wu_outside::{Fault, MemStore, ReadRange, Store};
use wu_part::Directory;
use wu_part_rows::directory_in;
use wu_rows::{NoAnswer, bytes, number, number_text, numbers, numbers_text, plain_text};
use wu_space_rows::ranges_of;

/// How many blocks are kept at the begin of a table.
const CAPACITY: usize = 16;

/// What the rows of a table are put to: a store, the directories of its parts, and what is kept of
/// these. A table begins with an empty store in which no call fails.
#[derive(Drop)]
pub struct Listed {
    store: MemStore,
    directories: Vec<(u64, Directory)>,
    lists: Lists,
}

impl Listed {
    /// An empty store in which no call fails, and neither directories nor kept blocks. Fails only
    /// where there is no memory.
    pub fn new(alloc: Global) -> Result<Listed, NoAnswer> {
        Ok(Listed {
            lists: Lists::new(alloc, CAPACITY)?,
            store: MemStore::new(alloc, Vec::new(alloc), u64::MAX),
            directories: Vec::new(alloc),
        })
    }

    /// The answer to the row.
    pub fn answer(&mut self, alloc: Global, fields: &[&str]) -> Result<String, NoAnswer> {
        let [call, arguments @ ..] = fields else {
            return Err(NoAnswer::BadRow);
        };
        match *call {
            "keep" => self.keep(alloc, arguments),
            "fail" => self.fail(alloc, arguments),
            "directory" => self.hold(alloc, arguments),
            "put" => self.put(alloc, arguments),
            "remove" => self.remove(alloc, arguments),
            "count" => self.counted(alloc, arguments),
            _ => {
                let before = self.store.reads().len();
                let asked = self.asked(alloc, call, arguments);
                with_ranges(asked, self.store.reads(), before)
            }
        }
    }

    /// Keeps so many blocks from now on, and none of those before.
    fn keep(&mut self, alloc: Global, arguments: &[&str]) -> Result<String, NoAnswer> {
        let [capacity] = arguments else {
            return Err(NoAnswer::BadRow);
        };
        let capacity = number(capacity)?.max(1);
        self.lists = Lists::new(alloc, capacity as usize)?;
        plain_text(alloc, "none kept")
    }

    /// Goes on with an empty store of which these calls fail.
    fn fail(&mut self, alloc: Global, arguments: &[&str]) -> Result<String, NoAnswer> {
        let [fails] = arguments else {
            return Err(NoAnswer::BadRow);
        };
        let fails = numbers(alloc, fails)?;
        self.store = MemStore::new(alloc, fails, u64::MAX);
        plain_text(alloc, "empty")
    }

    /// Holds the directory of a part, and gives the number of its terms.
    fn hold(&mut self, alloc: Global, arguments: &[&str]) -> Result<String, NoAnswer> {
        let [blob, part] = arguments else {
            return Err(NoAnswer::BadRow);
        };
        let blob = number(blob)?;
        let part = bytes(alloc, part)?;
        self.directories.retain(|held| held.0 != blob);
        let Some(directory) = directory_in(alloc, &part)? else {
            return Err(NoAnswer::BadRow);
        };
        let terms = directory.term_count() as u64;
        self.directories.push((blob, directory))?;
        number_text(alloc, terms)
    }

    /// How many addresses the part has of the term, by its directory.
    fn counted(&self, alloc: Global, arguments: &[&str]) -> Result<String, NoAnswer> {
        let [blob, term] = arguments else {
            return Err(NoAnswer::BadRow);
        };
        let term = bytes(alloc, term)?;
        match directory_at(&self.directories, number(blob)?) {
            Some(directory) => number_text(alloc, count_of(directory, &term)),
            None => Err(NoAnswer::BadRow),
        }
    }

    fn put(&mut self, alloc: Global, arguments: &[&str]) -> Result<String, NoAnswer> {
        let [blob, part] = arguments else {
            return Err(NoAnswer::BadRow);
        };
        let blob = number(blob)?;
        let part = bytes(alloc, part)?;
        outcome(alloc, self.store.put(blob, &part), "put")
    }

    fn remove(&mut self, alloc: Global, arguments: &[&str]) -> Result<String, NoAnswer> {
        let [blob] = arguments else {
            return Err(NoAnswer::BadRow);
        };
        outcome(alloc, self.store.remove(number(blob)?), "removed")
    }

    /// What is fetched of the term in the frames, or how much of it there is, or that it was
    /// touched there; or the trouble.
    fn asked(&mut self, alloc: Global, call: &str, arguments: &[&str]) -> Result<String, NoAnswer> {
        let [blob, term, frames] = arguments else {
            return Err(NoAnswer::BadRow);
        };
        let blob = number(blob)?;
        let term = bytes(alloc, term)?;
        let frames = ranges_of(alloc, frames)?;
        let Some(directory) = directory_at(&self.directories, blob) else {
            return Err(NoAnswer::BadRow);
        };
        let (lists, store) = (&mut self.lists, &mut self.store);
        match call {
            "fetch" => fetched(alloc, lists, store, (blob, directory), &term, &frames),
            "tally" => tallied(alloc, lists, store, (blob, directory), &term, &frames),
            "touch" => touched(alloc, lists, store, (blob, directory), &term, &frames),
            _ => Err(NoAnswer::BadRow),
        }
    }
}

/// What is fetched of the term in the frames from the part in that blob.
fn fetched(
    alloc: Global,
    lists: &mut Lists,
    store: &mut MemStore,
    part: (u64, &Directory),
    term: &[u8],
    frames: &[Range],
) -> Result<String, NoAnswer>
    requires apart { AreApart frames.now }
    requires bounded { All (λ frame. frame.start + frame.len ≤ ADDRESSES_MAX) frames.now }
{
    match lists.fetch(store, part.0, part.1, term, frames) {
        Ok(found) => numbers_text(alloc, found.as_slice()),
        Err(trouble) => trouble_text(alloc, trouble),
    }
}

/// How many addresses that are, and in how many of the frames.
fn tallied(
    alloc: Global,
    lists: &mut Lists,
    store: &mut MemStore,
    part: (u64, &Directory),
    term: &[u8],
    frames: &[Range],
) -> Result<String, NoAnswer>
    requires apart { AreApart frames.now }
    requires bounded { All (λ frame. frame.start + frame.len ≤ ADDRESSES_MAX) frames.now }
{
    let mut tally = Tally::new();
    match lists.tally_into(store, part.0, part.1, term, frames, &mut tally) {
        Ok(()) => tally_text(alloc, tally),
        Err(trouble) => trouble_text(alloc, trouble),
    }
}

/// The two numbers of a tally.
fn tally_text(alloc: Global, tally: Tally) -> Result<String, NoAnswer> {
    let hits = tally.hits;
    let frames = tally.frames;
    Ok(format!(in alloc; "{hits} in {frames}")?)
}

fn touched(
    alloc: Global,
    lists: &mut Lists,
    store: &mut MemStore,
    part: (u64, &Directory),
    term: &[u8],
    frames: &[Range],
) -> Result<String, NoAnswer>
    requires apart { AreApart frames.now }
    requires bounded { All (λ frame. frame.start + frame.len ≤ ADDRESSES_MAX) frames.now }
{
    match lists.touch(store, part.0, part.1, term, frames) {
        Ok(()) => plain_text(alloc, "touched"),
        Err(trouble) => trouble_text(alloc, trouble),
    }
}

/// The word where the change was done.
fn outcome(alloc: Global, done: Result<(), Fault>, word: &str) -> Result<String, NoAnswer> {
    match done {
        Ok(()) => plain_text(alloc, word),
        Err(_) => plain_text(alloc, "failed"),
    }
}

/// The directory of the part in that blob.
fn directory_at(directories: &[(u64, Directory)], blob: u64) -> Option<&Directory> {
    for (number, directory) in directories {
        if *number == blob {
            return Some(directory);
        }
    }
    None
}

fn trouble_text(alloc: Global, trouble: Trouble) -> Result<String, NoAnswer> {
    match trouble {
        Trouble::Damaged { blob } => Ok(format!(in alloc; "damaged {blob}")?),
        Trouble::StoreFault => plain_text(alloc, "store fault"),
        Trouble::NoMemory => Err(NoAnswer::NoMemory),
    }
}

/// The text with the ranges that were read since, each as a blob, a place and a length.
fn with_ranges(
    text: Result<String, NoAnswer>,
    ranges: &[ReadRange],
    before: usize,
) -> Result<String, NoAnswer> {
    let mut text = text?;
    for range in ranges.iter().skip(before) {
        let blob = range.blob;
        let at = range.at;
        let len = range.len;
        write!(text, " {blob}:{at}+{len}")?;
    }
    Ok(text)
}
