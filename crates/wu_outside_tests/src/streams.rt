//! Sources, sinks and whole writes.
ghost use Rattle.std.specs.Prelude.{◌≡◌, Some, false};

use crate::stores::put_counts;
use std::alloc::Global;
use wu_base::Bytes;
use wu_outside::{
    Failed, Fault, MemSink, MemSource, PlainSink, PlainSource, Sink, Source, write_all,
};
use wu_rows::{NoAnswer, byte_strings, bytes, bytes_text, number, numbers};

/// The answer of the call to the arguments.
pub fn answer(alloc: Global, call: &str, arguments: &[&str]) -> Result<String, NoAnswer> {
    match call {
        "PlainSource" => bytes_given_plainly(alloc, arguments),
        "MemSource" => bytes_given(alloc, arguments),
        "PlainSink" => bytes_gained(alloc, arguments),
        "MemSink" => bytes_gained_with_faults(alloc, arguments),
        "write_all" => byte_by_byte(alloc, arguments),
        "Failed" | "Fault::Failed" | "Fault::NoMemory" => text_of_error(alloc, call),
        _ => Err(NoAnswer::BadRow),
    }
}

fn text_of_error(alloc: Global, name: &str) -> Result<String, NoAnswer> {
    match name {
        "Failed" => Ok(format!(in alloc; "{Failed}")?),
        "Fault::Failed" => Ok(format!(in alloc; "{}", Fault::Failed)?),
        _ => Ok(format!(in alloc; "{}", Fault::NoMemory)?),
    }
}

fn bytes_given_plainly(alloc: Global, arguments: &[&str]) -> Result<String, NoAnswer> {
    let [text] = arguments else {
        return Err(NoAnswer::BadRow);
    };
    let mut source = PlainSource::new(bytes(alloc, text)?);
    let given = read_all(alloc, &mut source)?;
    bytes_text(alloc, &given)
}

/// The bytes that a source gives up to its end, read three at a time, `!` for each read that
/// failed.
fn read_all<I: Source>(alloc: Global, source: &mut I) -> Result<Vec<u8>, NoAnswer>
    requires { I.ended source.old ≡ false }
{
    let mut given = Vec::new(alloc);
    for _ in 0..20u32 {
        let mut buf = [0u8; 3];
        match source.read(&mut buf) {
            Ok(0) => return Ok(given),
            Ok(count) => given.extend_from_slice(&buf[..count.min(3)])?,
            Err(Failed) => given.push(b'!')?,
        }
    }
    Ok(given)
}

/// The bytes given, how many calls there were and how many of them failed.
fn bytes_given(alloc: Global, arguments: &[&str]) -> Result<String, NoAnswer> {
    let [text, fails] = arguments else {
        return Err(NoAnswer::BadRow);
    };
    let text = bytes(alloc, text)?;
    let fails = numbers(alloc, fails)?;
    let mut source = MemSource::new(text, fails);
    let given = read_all(alloc, &mut source);
    given_text(alloc, given, source.calls(), source.faults())
}

fn given_text(
    alloc: Global,
    given: Result<Vec<u8>, NoAnswer>,
    calls: u64,
    faults: u64,
) -> Result<String, NoAnswer> {
    let given = given?;
    counted_text(alloc, &given, calls, faults)
}

fn counted_text(alloc: Global, bytes: &[u8], calls: u64, faults: u64) -> Result<String, NoAnswer> {
    let mut text = bytes_text(alloc, bytes)?;
    put_counts(&mut text, calls, faults)?;
    Ok(text)
}

/// Writes the pieces whole, each after the one before it, also where that one failed.
fn write_each<O: Sink>(sink: &mut O, pieces: &[Bytes]) {
    for piece in pieces {
        let _ = write_all(sink, piece.as_slice());
    }
}

/// What a sink gained of the pieces, written whole, and of one write; how much of that it took.
fn bytes_gained(alloc: Global, arguments: &[&str]) -> Result<String, NoAnswer> {
    let [pieces, last] = arguments else {
        return Err(NoAnswer::BadRow);
    };
    let pieces = byte_strings(alloc, pieces)?;
    let mut sink = PlainSink::new(alloc);
    write_each(&mut sink, &pieces);
    let count = sink.write(last.as_bytes()).unwrap_or(0);
    gained_text(alloc, sink.gained(), count)
}

fn gained_text(alloc: Global, gained: &[u8], count: usize) -> Result<String, NoAnswer> {
    let gained = bytes_text(alloc, gained)?;
    Ok(format!(in alloc; "{gained} {count}")?)
}

/// The same of the pieces, where the named calls fail; how many calls there were and how many
/// failed.
fn bytes_gained_with_faults(alloc: Global, arguments: &[&str]) -> Result<String, NoAnswer> {
    let [pieces, fails] = arguments else {
        return Err(NoAnswer::BadRow);
    };
    let pieces = byte_strings(alloc, pieces)?;
    let fails = numbers(alloc, fails)?;
    let mut sink = MemSink::new(alloc, fails);
    write_each(&mut sink, &pieces);
    counted_text(alloc, sink.gained(), sink.calls(), sink.faults())
}

/// A sink that takes one byte at a time, and from one write on nothing.
#[derive(Drop)]
struct OneByte {
    plain: PlainSink,
    writes: u64,
    faults: u64,
}

impl Sink for OneByte {
    ghost gained = { λ s. Some s.plain };

    ghost faults = { λ s. s.faults };

    fn write(&mut self, piece: &[u8]) -> Result<usize, Fault> {
        if piece.is_empty() {
            return Ok(0);
        }
        if self.writes == 0 {
            self.faults = self.faults.saturating_add(1);
            return Ok(0);
        }
        self.writes -= 1;
        self.plain.write(&piece[..1])
    }
}

/// What a sink that takes so many bytes, one by one, gained of the pieces up to the first fault,
/// whether all were written, and how many writes failed.
fn byte_by_byte(alloc: Global, arguments: &[&str]) -> Result<String, NoAnswer> {
    let [pieces, writes] = arguments else {
        return Err(NoAnswer::BadRow);
    };
    let writes = number(writes)?;
    let mut sink = OneByte {
        plain: PlainSink::new(alloc),
        writes,
        faults: 0,
    };
    let done = are_written(&mut sink, &byte_strings(alloc, pieces)?);
    let faults = sink.faults;
    let gained = bytes_text(alloc, sink.plain.gained())?;
    Ok(format!(in alloc; "{gained} {done} {faults}")?)
}

/// Whether the pieces were written, each after the one before it.
fn are_written(sink: &mut OneByte, pieces: &[Bytes]) -> bool {
    for piece in pieces {
        if write_all(sink, piece.as_slice()).is_err() {
            return false;
        }
    }
    true
}
