//! A demonstration: the session of a large script that is made from a number, told in one line.
ghost use Rattle.std.specs.Prelude.{◌≡◌, ℕ, ◌+◌, ◌++◌, ◌∷◌, ◌<◌, ◌^◌, List, [], true, length, decimal, IfOk, MatchBool, OnOk};
ghost use Rattle.wumpus_run.specs.Demo.{IsDemoLine, IsFew, IsReady, IsShown, IsTallyOf, IsUnderWay, counted, no_reply, tally_line};
ghost use Rattle.wumpus_run.specs.Session.{IsCounted};

use crate::answering::reply_to;
use crate::items::{is_end, write_reply};
use crate::statuses::{Status, status_of_fault};
use crate::tallies::Tally;
use std::alloc::Global;
use wu_base::{FLUSH_DEFAULT, NoMemory};
use wu_demo::make_script;
use wu_engine::Engine;
use wu_fields::put_decimal;
use wu_outside::{PlainSource, PlainStore, Sink};
use wu_script::{Reader, Reply};

/// A script of a demonstration has fewer bytes.
const SCRIPT_MAX: u64 = 4_194_304;

/// Runs the session of the number's script over objects in memory, and writes the line that tells how many replies there
/// were, how many of them were `ok`, `refused` and `count`, and the sum of the hits that the counts told.
pub fn demo<O: Sink>(alloc: Global, number: u64, sink: &mut O) -> Status
    ensures shown { IsShown number result (O.gained sink.old) (O.gained sink.new) }
    ensures write_fault { IsCounted Status.WriteFault result (O.faults sink.old) (O.faults sink.new) }
{
    let line = match line_of(alloc, number) {
        Ok(line) => line,
        Err(NoMemory) => return Status::NoMemory,
    };
    match write_reply(sink, line.as_slice()) {
        Ok(()) => Status::Done,
        Err(fault) => status_of_fault(fault),
    }
}

/// The line of the number.
fn line_of(alloc: Global, number: u64) -> Result<Vec<u8>, NoMemory>
    ensures { IfOk result (λ line. IsDemoLine number line.items) }
{
    let script = make_script(alloc, number)?;
    let tally = tally_of(alloc, script)?;
    put_tally(alloc, number, &tally)
}

/// The line that tells what was counted.
fn put_tally(alloc: Global, number: u64, tally: &Tally) -> Result<Vec<u8>, NoMemory>
    ensures { IfOk result (λ line. line.items ≡ tally_line number tally.now) }
{
    let mut line = Vec::new(alloc);
    line.extend_from_slice(b"demo\t")?;
    put_decimal(&mut line, number)?;
    put_number(&mut line, tally.commands)?;
    put_number(&mut line, tally.oks)?;
    put_number(&mut line, tally.refused)?;
    put_number(&mut line, tally.counts)?;
    put_hits(alloc, &mut line, tally.hits)?;
    line.push(b'\n')?;
    Ok(line)
}

/// Appends a number after a TAB.
pub(crate) fn put_number(line: &mut Vec<u8>, number: u64) -> Result<(), NoMemory>
    ensures { OnOk result (line.new.items ≡ line.old.items ++ 9 ∷ [] ++ decimal number) }
{
    line.push(b'\t')?;
    put_decimal(line, number)
}

/// Appends a sum of hits after a TAB.
fn put_hits(alloc: Global, line: &mut Vec<u8>, hits: u128) -> Result<(), NoMemory>
    ensures { OnOk result (line.new.items ≡ line.old.items ++ 9 ∷ [] ++ decimal hits) }
{
    let digits = format!(in alloc; "{hits}")?;
    line.push(b'\t')?;
    line.extend_from_slice(digits.as_bytes())?;
    Ok(())
}

/// What is counted in the session of a script. Its source and its store are in memory and never fail, and the script is
/// within the limit of the input: so where the session ends early, it ran out of memory.
fn tally_of(alloc: Global, script: Vec<u8>) -> Result<Tally, NoMemory>
    requires short { length script.items < 2 ^ 22 }
    ensures { IfOk result (IsTallyOf script.items) }
{
    let mut source = PlainSource::new(script);
    let mut store = PlainStore::new(alloc);
    let mut reader = Reader::new(alloc, SCRIPT_MAX)?;
    let mut engine = match Engine::begin(alloc, &mut store, u64::from(FLUSH_DEFAULT)) {
        Ok(engine) => engine,
        Err(_) => return Err(NoMemory),
    };
    count_items(&mut source, &mut reader, &mut engine, &mut store)
}

/// Counts the replies to the items of a script in turn.
fn count_items(
    source: &mut PlainSource,
    reader: &mut Reader,
    engine: &mut Engine,
    store: &mut PlainStore,
) -> Result<Tally, NoMemory>
    requires { IsReady source.old reader.old engine.old no_reply }
    ensures { (script : List ℕ) → IsUnderWay script source.old reader.old engine.old store.old no_reply → IfOk result (IsTallyOf script) }
{
    let mut tally = Tally::new();
    'items: while count_next(source, reader, engine, store, &mut tally)? {}
    Ok(tally)
}

/// Answers the next item of the script and counts the reply. Answers whether there was an item.
fn count_next(
    source: &mut PlainSource,
    reader: &mut Reader,
    engine: &mut Engine,
    store: &mut PlainStore,
    tally: &mut Tally,
) -> Result<bool, NoMemory>
    requires { IsReady source.old reader.old engine.old tally.old }
    ensures ready { IfOk result (λ more. more ≡ true → IsReady source.new reader.new engine.new tally.new) }
    ensures smaller { IfOk result (λ more. more ≡ true
        → length reader.new.bytes + reader.new.spare < length reader.old.bytes + reader.old.spare) }
    ensures counted { (script : List ℕ) → IsUnderWay script source.old reader.old engine.old store.old tally.old → IfOk result (λ more.
        MatchBool more (IsUnderWay script source.new reader.new engine.new store.new tally.new) (IsTallyOf script tally.new)) }
{
    let item = match reader.next(source) {
        Ok(item) => item,
        Err(_) => return Err(NoMemory),
    };
    if is_end(&item) {
        return Ok(false);
    }
    match reply_to(engine, store, item) {
        Ok(reply) => count_reply(tally, reply),
        Err(_) => return Err(NoMemory),
    }
    Ok(true)
}

/// Counts the reply to an item, and lets it go.
fn count_reply(tally: &mut Tally, reply: Option<Reply>)
    requires few { IsFew 4194304 tally.old }
    ensures counted { tally.new ≡ counted tally.old reply }
    ensures few { (most : ℕ) → IsFew most tally.old → IsFew (most + 1) tally.new }
{
    tally.count(&reply);
}
