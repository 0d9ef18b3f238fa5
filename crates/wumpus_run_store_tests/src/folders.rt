//! Sessions one after the other over one folder.
use std::alloc::Global;
use wu_outside::DirStore;
use wu_rows::{NoAnswer, words};
use wumpus_run_rows::ending;

/// The folder, in the one that the program runs in.
const FOLDER: &str = "store-of-sessions";

/// How the session that the words ask for ends over the folder, and what it has written then.
pub fn session(
    rt: &HostRuntime,
    alloc: Global,
    words_field: &str,
    field: &str,
) -> Result<String, NoAnswer> {
    let words = words(alloc, words_field)?;
    let mut store = DirStore::new(rt, FOLDER)?;
    ending(alloc, words.as_slice(), Vec::new(alloc), &mut store, field)
}
