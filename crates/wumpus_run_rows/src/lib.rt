//! Sessions, and how they end, as rows write them.
#![tactic(auto)]

use std::alloc::Global;
use wu_outside::{MemSink, MemSource, Store};
use wu_rows::{NoAnswer, plain_text, script, shown};
use wumpus_run::{Status, run};

/// How the session that the words ask for over the script ends over the store, where these of its
/// reads fail, and what it has written then.
pub fn ending<D: Store>(
    alloc: Global,
    words: &[&str],
    fails: Vec<u64>,
    store: &mut D,
    field: &str,
) -> Result<String, NoAnswer> {
    let mut source = MemSource::new(script(alloc, field)?, fails);
    let mut sink = MemSink::new(alloc, Vec::new(alloc));
    let status = run(alloc, words, &mut source, &mut sink, store);
    ending_text(alloc, status, sink.gained())
}

/// The name of the status, and the output.
pub fn ending_text(alloc: Global, status: Status, output: &[u8]) -> Result<String, NoAnswer> {
    let name = name_of(alloc, status)?;
    let output = shown(alloc, output)?;
    Ok(format!(in alloc; "{name}: {output}")?)
}

/// The name of the status.
pub fn name_of(alloc: Global, status: Status) -> Result<String, NoAnswer> {
    match status {
        Status::Done => plain_text(alloc, "done"),
        Status::Usage => plain_text(alloc, "usage"),
        Status::ReadFault => plain_text(alloc, "read fault"),
        Status::WriteFault => plain_text(alloc, "write fault"),
        Status::NoMemory => plain_text(alloc, "no memory"),
        Status::InputTooLong => plain_text(alloc, "input too long"),
        Status::StoreFault => plain_text(alloc, "store fault"),
        Status::Damaged { blob } => Ok(format!(in alloc; "damaged at blob {blob}")?),
        Status::Spent { next } => Ok(format!(in alloc; "spent at {next}")?),
    }
}
