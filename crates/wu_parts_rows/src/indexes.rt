//! A Parts over a store in memory, with the space of its files.
ghost use Rattle.std.specs.Prelude.{◌≡◌, ◌+◌, ◌≤◌, All, IfOk, OnOk};
ghost use Rattle.wu_base.specs.Ranges.{AreApart};

use std::alloc::{AllocError, Global};
use wu_base::{ADDRESSES_MAX, Ino, NoMemory, Range, Sequence, Trouble, Worked};
use wu_outside::MemStore;
use wu_parts::Parts;
use wu_rows::{NoAnswer, bytes, numbers, plain_text};
use wu_space::Space;
use wu_space_rows::are_bounded;

/// A Parts, the space of its files, its store, and how many numbers of files stand below that of
/// the next step.
#[derive(Drop)]
pub struct Index {
    pub parts: Parts,
    pub space: Space,
    pub store: MemStore,
    pub earlier: Ino,
}

/// An empty index, whose memory is full at so many postings. The calls of the store of these
/// numbers fail.
pub fn empty_index(
    alloc: Global,
    flush_at: u64,
    next_blob: u64,
    fails: &str,
) -> Result<Index, NoAnswer>
    ensures { IfOk result (λ index. index.parts.memory.end ≤ index.space.next) }
{
    let fails = numbers(alloc, fails)?;
    Ok(Index {
        parts: Parts::new(alloc, flush_at, next_blob)?,
        space: Space::new(alloc, 0),
        store: MemStore::new(alloc, fails, u64::MAX),
        earlier: 0,
    })
}

/// Why what a row asks for ends early.
#[derive(Clone, Copy)]
pub enum Stop {
    NoAnswer(NoAnswer),
    Trouble(Trouble),
}

impl From<NoAnswer> for Stop {
    fn from(no_answer: NoAnswer) -> Stop {
        Stop::NoAnswer(no_answer)
    }
}

impl From<NoMemory> for Stop {
    fn from(_error: NoMemory) -> Stop {
        Stop::NoAnswer(NoAnswer::NoMemory)
    }
}

impl From<AllocError> for Stop {
    fn from(_error: AllocError) -> Stop {
        Stop::NoAnswer(NoAnswer::NoMemory)
    }
}

impl From<Trouble> for Stop {
    fn from(trouble: Trouble) -> Stop {
        match trouble {
            Trouble::NoMemory => Stop::NoAnswer(NoAnswer::NoMemory),
            _ => Stop::Trouble(trouble),
        }
    }
}

/// The text, or that of the trouble.
pub fn stopped_text(alloc: Global, told: Result<String, Stop>) -> Result<String, NoAnswer> {
    match told {
        Ok(text) => Ok(text),
        Err(Stop::NoAnswer(no_answer)) => Err(no_answer),
        Err(Stop::Trouble(Trouble::Damaged { blob })) => {
            Ok(format!(in alloc; "damaged {blob}")?)
        }
        Err(Stop::Trouble(_)) => plain_text(alloc, "store fault"),
    }
}

/// Flushes memory.
pub fn flush(parts: &mut Parts, store: &mut MemStore, space: &Space) -> Result<(), Stop>
    ensures { OnOk result (parts.new.memory.end ≡ parts.old.memory.end) }
{
    if parts.next_blob() >= 1_000_000 || parts.flushes() >= 1_000_000 {
        return Err(Stop::NoAnswer(NoAnswer::BadRow));
    }
    Ok(parts.flush(store, space)?)
}

/// Does up to so many units of background work.
pub fn work(parts: &mut Parts, store: &mut MemStore, space: &Space, n: u32) -> Result<Worked, Stop>
    ensures { OnOk result (parts.new.memory.end ≡ parts.old.memory.end) }
{
    if parts.next_blob() >= 1_000_000 || space.next() > ADDRESSES_MAX {
        return Err(Stop::NoAnswer(NoAnswer::BadRow));
    }
    Ok(parts.work(store, space, n)?)
}

/// The term's addresses in the files that are live.
pub fn fetch(
    alloc: Global,
    parts: &mut Parts,
    store: &mut MemStore,
    space: &Space,
    term: &str,
) -> Result<Sequence<u64>, Stop>
    ensures { OnOk result (parts.new.memory.end ≡ parts.old.memory.end) }
{
    let term = bytes(alloc, term)?;
    let frames = live_frames(space)?;
    Ok(parts.fetch(store, &term, &frames)?)
}

/// The ranges of the files that are live.
pub fn live_frames(space: &Space) -> Result<Vec<Range>, Stop>
    ensures apart { IfOk result (λ frames. AreApart frames.items) }
    ensures bounded { IfOk result (λ frames. All (λ frame. frame.start + frame.len ≤ ADDRESSES_MAX) frames.items) }
{
    let frames = space.live_ranges(0, ADDRESSES_MAX)?;
    if !are_bounded(&frames) {
        return Err(Stop::NoAnswer(NoAnswer::BadRow));
    }
    Ok(frames)
}
