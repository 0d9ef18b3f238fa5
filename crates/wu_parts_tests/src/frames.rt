//! What a Parts tells of a term over frames.
ghost use Rattle.std.specs.Prelude.{◌≡◌, OnOk};

use std::alloc::Global;
use wu_base::Range;
use wu_outside::MemStore;
use wu_parts::Parts;
use wu_parts_rows::{Stop, live_frames};
use wu_rows::{NoAnswer, bytes, numbers_text};
use wu_space::Space;
use wu_space_rows::are_bounded;

/// How many addresses the term has in the files that are live, and how many of these have one.
pub fn tally(
    alloc: Global,
    parts: &mut Parts,
    store: &mut MemStore,
    space: &Space,
    term: &str,
) -> Result<String, Stop>
    ensures { OnOk result (parts.new.memory.end ≡ parts.old.memory.end) }
{
    let term = bytes(alloc, term)?;
    let frames = live_frames(space)?;
    let tally = parts.tally(store, &term, &frames)?;
    let hits = tally.hits;
    let files = tally.frames;
    Ok(format!(in alloc; "{hits} in {files}")?)
}

/// Those of the term's addresses that lie in the frame, gathered first in the files that are live,
/// and how many there are at least.
pub fn gather(
    alloc: Global,
    parts: &mut Parts,
    store: &mut MemStore,
    space: &Space,
    term: &str,
    frame: Range,
) -> Result<String, Stop>
    ensures { OnOk result (parts.new.memory.end ≡ parts.old.memory.end) }
{
    let term = bytes(alloc, term)?;
    let frames = live_frames(space)?;
    let gathered = parts.gather(store, &term, &frames)?;
    let near = [frame];
    if !are_bounded(&near) {
        return Err(Stop::NoAnswer(NoAnswer::BadRow));
    }
    let found = gathered.within(alloc, &near)?;
    let addresses = numbers_text(alloc, found.as_slice())?;
    let count = gathered.count();
    Ok(format!(in alloc; "{addresses} of {count}")?)
}
