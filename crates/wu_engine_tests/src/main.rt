//! Compares what an engine answers over a part that isn't the one that it put, and why none can be
//! opened, with the tables on standard input.
#![tactic(auto)]

ghost use Rattle.std.specs.Prelude.{◌≡◌, ◌+◌, ◌<◌, ◌≤◌, ◌^◌, true, length};
ghost use Rattle.wu_base.specs.declared.limits.TheConstants.{ADDRESSES_MAX, TEXT_MAX};
ghost use Rattle.wu_engine.specs.Stands.{taken_by};
ghost use Rattle.wu_token.specs.Tokens.{tokens_of};
ghost use Rattle.wu_tree.specs.Steps.{IsEvent};

use std::alloc::Global;
use std::io;
use wu_access::Perm;
use wu_ask::{Answered, Ask, Query};
use wu_base::{ADDRESSES_MAX, BLOBS_SPENT_AT, Bytes, FLUSH_DEFAULT, Trouble};
use wu_engine::{BeginFault, Engine, Verdict};
use wu_gcl::parse;
use wu_outside::{MemStore, Store};
use wu_rows::{NoAnswer, Subject, bytes, compare_tables};
use wu_token::token_count;
use wu_tree::Event;

fn main(rt: HostRuntime) -> io::Result<()> {
    compare_tables(&rt, &mut Rows {})
}

/// The rows of the tables, which are answered each for itself.
#[derive(Drop)]
struct Rows {}

impl Subject for Rows {
    fn begin(&mut self, _alloc: Global) -> Result<(), NoAnswer> {
        Ok(())
    }

    fn answer(&mut self, alloc: Global, kind: &str, fields: &[&str]) -> Result<String, NoAnswer> {
        let [field] = fields else {
            return Err(NoAnswer::BadRow);
        };
        match kind {
            "changed part" => counted_over(alloc, field),
            "begin fault" => text_of_fault(alloc, field),
            _ => Err(NoAnswer::BadRow),
        }
    }
}

/// The blob of the part, and how many bytes it has.
const PART: u64 = 2;

const SIZE: usize = 82;

/// What a count of the word is answered by an engine that gave a file the word alone and flushed,
/// where the last byte of the part that it put was changed to this one after that; where there is
/// none the part is as it was put.
fn counted_over(alloc: Global, field: &str) -> Result<String, NoAnswer> {
    let last = bytes(alloc, field)?;
    let mut store = MemStore::new(alloc, Vec::new(alloc), u64::MAX);
    begin_and_count(alloc, &mut store, last.as_slice())
}

/// The same over a new store.
fn begin_and_count(alloc: Global, store: &mut MemStore, last: &[u8]) -> Result<String, NoAnswer> {
    match Engine::begin(alloc, store, u64::from(FLUSH_DEFAULT)) {
        Ok(mut engine) => change_and_count(alloc, &mut engine, store, last),
        Err(_) => Err(NoAnswer::BadRow),
    }
}

/// The same with an engine that was just begun.
fn change_and_count(
    alloc: Global,
    engine: &mut Engine,
    store: &mut MemStore,
    last: &[u8],
) -> Result<String, NoAnswer> {
    let create = Event::Create {
        ino: 2,
        parent: 1,
        name: Bytes::from_slice(alloc, b"a")?,
        perm: Perm {
            uid: 5,
            gid: 5,
            mode: 0o600,
        },
    };
    update(engine, store, &create, b"")?;
    update(engine, store, &Event::Text { ino: 2 }, b"apple")?;
    flush(engine, store)?;
    change_last(store, last)?;
    count(alloc, engine, store)
}

/// Whether there are so many addresses left, and blobs and flushes for an event.
fn has_room(engine: &Engine, tokens: u64) -> bool
    requires { tokens ≤ ADDRESSES_MAX }
    ensures { result ≡ true → (engine.now.space.next + tokens ≤ ADDRESSES_MAX)
        × (engine.now.parts.next_blob + 2 < 2 ^ 63) × (engine.now.parts.flushes + 1 < 2 ^ 63) }
{
    engine.space.next() <= ADDRESSES_MAX - tokens
        && engine.parts.next_blob() < BLOBS_SPENT_AT
        && engine.parts.flushes() < BLOBS_SPENT_AT
}

/// Applies an event that takes as many addresses as the text has tokens, and isn't refused.
fn update(
    engine: &mut Engine,
    store: &mut MemStore,
    event: &Event,
    text: &[u8],
) -> Result<(), NoAnswer>
    requires event { IsEvent event.now }
    requires short { length text.now ≤ TEXT_MAX }
    requires tokens { taken_by event.now text.now ≡ length (tokens_of text.now) }
{
    if !has_room(engine, token_count(text)) {
        return Err(NoAnswer::BadRow);
    }
    match engine.update(store, event, text) {
        Ok(Verdict::Made) => Ok(()),
        _ => Err(NoAnswer::BadRow),
    }
}

fn flush(engine: &mut Engine, store: &mut MemStore) -> Result<(), NoAnswer> {
    if !has_room(engine, 0) {
        return Err(NoAnswer::BadRow);
    }
    match engine.flush(store) {
        Ok(()) => Ok(()),
        Err(_) => Err(NoAnswer::BadRow),
    }
}

/// Puts the part again with this last byte.
fn change_last(store: &mut MemStore, last: &[u8]) -> Result<(), NoAnswer> {
    let [last] = last else {
        return Ok(());
    };
    let mut part = [0; SIZE];
    match store.read(PART, 0, &mut part) {
        Ok(Some(SIZE)) => {}
        _ => return Err(NoAnswer::BadRow),
    }
    part[SIZE - 1] = *last;
    match store.put(PART, &part) {
        Ok(()) => Ok(()),
        Err(_) => Err(NoAnswer::BadRow),
    }
}

/// What the count of the word is answered.
fn count(alloc: Global, engine: &mut Engine, store: &mut MemStore) -> Result<String, NoAnswer> {
    let Ok(expr) = parse(alloc, b"\"apple\"")? else {
        return Err(NoAnswer::BadRow);
    };
    let query = Query {
        uid: 5,
        ask: Ask::Count { expr },
    };
    match engine.query(store, &query) {
        Ok(Answered::Count { hits, files }) => Ok(format!(in alloc; "{hits} in {files}")?),
        Err(Trouble::Damaged { blob }) => Ok(format!(in alloc; "damaged at blob {blob}")?),
        _ => Err(NoAnswer::BadRow),
    }
}

/// The text of the error of this name, for which an engine can't be opened.
fn text_of_fault(alloc: Global, name: &str) -> Result<String, NoAnswer> {
    let fault = match name {
        "NoMemory" => BeginFault::NoMemory,
        "StoreFault" => BeginFault::StoreFault,
        "Damaged 7" => BeginFault::Damaged { blob: 7 },
        "Spent 9" => BeginFault::Spent { next: 9 },
        _ => return Err(NoAnswer::BadRow),
    };
    Ok(format!(in alloc; "{fault}")?)
}
