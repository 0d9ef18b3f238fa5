//! The program `wumpus`: a session over standard input and output.
#![tactic(auto)]

ghost use Rattle.std.specs.Prelude.{◌≡◌, ◌≤◌, false, map, string_bytes, IfErr, IfOk, None};
ghost use Rattle.std.specs.Process.{exit_status};
ghost use Rattle.wu_options.specs.CommandLines.{command_line_of, texts_of};
ghost use Rattle.wumpus_run.specs.Checks.{ChecksStore, IfCheck};
ghost use Rattle.wumpus_run.specs.Courses.{TakesCourse};
ghost use Rattle.wumpus_run.specs.Demo.{IfDemo, IsShown};
ghost use Rattle.wumpus_run.specs.Ended.{IsOutcome, KeepsBlobs};
ghost use Rattle.wumpus_run.specs.Session.{FromImage, IsUsage, code_of, moment, settings_of};

mod arguments;
mod messages;
mod progress;

use crate::arguments::arguments;
use crate::messages::Message;
use crate::progress::{ErasingSink, WatchedStore, erase};
use std::alloc::{AllocError, Global};
use std::fs::File;
use std::io::IsTerminal;
use std::process::ExitCode;
use wu_options::{CommandLine, read_command_line};
use wu_outside::{DirStore, Failure, Sink, Source, StdIn, StdOut, Store};
use wumpus_run::{Status, run};

/// The folder of the store, in the folder that the program runs in.
const FOLDER: &str = "wumpus-store";

fn main(rt: HostRuntime) -> ExitCode {
    run_to_end(&rt, arguments(&rt))
}

/// How a session ended, and for a person at a terminal which file of the store failed and why.
#[derive(Drop)]
struct Ended {
    status: Status,
    reason: Option<String>,
}

impl Ended {
    /// Without a reason.
    fn plainly(status: Status) -> Ended
        ensures { result.status ≡ status }
    {
        Ended {
            status,
            reason: None,
        }
    }
}

/// Runs the session that the arguments ask for, tells what ended it, and how the process ends.
fn run_to_end(rt: &HostRuntime, found: Result<Vec<String>, Status>) -> ExitCode
    ensures codes { exit_status result ≤ 8 }
    ensures unread { IfErr found (λ status. exit_status result ≡ code_of status) }
    ensures usage { IfOk found (λ arguments. exit_status result ≡ code_of Status.Usage
        → command_line_of (map string_bytes arguments.items) ≡ None) }
{
    tell(rt, &session(rt, found))
}

/// Prints what ended the session. The process ends with the code of its status.
fn tell(rt: &HostRuntime, ended: &Ended) -> ExitCode
    ensures { exit_status result ≡ code_of ended.now.status }
{
    if ended.status != Status::Done {
        let message = Message {
            status: ended.status,
        };
        // The exit status tells the same where these lines can't be written.
        let _ = eprintln!(rt; "wumpus: {message}");
        if let Some(reason) = &ended.reason {
            let _ = eprintln!(rt; "wumpus: {reason}");
        }
    }
    exit_code(ended.status)
}

/// How the process ends: with the code of its session's status.
fn exit_code(status: Status) -> ExitCode
    ensures { exit_status result ≡ code_of status }
{
    ExitCode::from(status.code())
}

/// Runs the session that the command-line arguments ask for. Where they couldn't be read, the status is the one that says why.
fn session(rt: &HostRuntime, found: Result<Vec<String>, Status>) -> Ended
    ensures unread { IfErr found (λ status. result.status ≡ status) }
    ensures usage { IfOk found (λ arguments. IsUsage result.status (command_line_of (map string_bytes arguments.items))) }
{
    match found {
        Ok(arguments) => session_of(rt, &arguments),
        Err(status) => Ended::plainly(status),
    }
}

/// Runs the session that these arguments, those after the program's name, ask for, over the standard streams and the store in FOLDER.
/// The status is that of `run`, or `NoMemory` where there is no memory to begin it.
fn session_of(rt: &HostRuntime, arguments: &[String]) -> Ended
    ensures usage { IsUsage result.status (command_line_of (map string_bytes arguments.now)) }
{
    let Ok(texts) = texts_of_arguments(rt.alloc(), arguments) else {
        return Ended::plainly(Status::NoMemory);
    };
    // Where the standard input is closed, this folder, which can't be read as a file, takes its descriptor, and no file of the store
    // does, if "/" can be opened for reading.
    let _stand_in = File::open(rt, "/");
    let (Ok(mut source), Ok(sink)) = (StdIn::new(rt.stdin()), StdOut::new(rt.stdout())) else {
        return Ended::plainly(Status::NoMemory);
    };
    let Ok(store) = DirStore::new(rt, FOLDER) else {
        return Ended::plainly(Status::NoMemory);
    };
    let ran = run_over(rt, texts.as_slice(), &mut source, sink, store);
    ended_with(rt, ran.status, ran.store.last_failure())
}

/// A session that was run: how it ended, and its sink and its store.
#[derive(Drop)]
struct Ran<O, D> {
    status: Status,
    sink: O,
    store: D,
}

/// Runs the session that the words ask for, over these objects. Where they ask for a check and a
/// person is there, she is shown how far it is.
fn run_over<I: Source, O: Sink + Drop, D: Store + Drop>(
    rt: &HostRuntime,
    words: &[&str],
    source: &mut I,
    sink: O,
    store: D,
) -> Ran<O, D>
    requires { I.ended source.old ≡ false }
    ensures usage { IsUsage result.status (command_line_of (texts_of words.now)) }
    ensures demo { IfDemo (command_line_of (texts_of words.now))
        (λ number. IsShown number result.status (O.gained sink) (O.gained result.sink)) }
    ensures check { IfCheck (command_line_of (texts_of words.now)) (ChecksStore result.status
        (moment I.Source O.Sink D.Store source.old sink store)
        (moment I.Source O.Sink D.Store source.new result.sink result.store)) }
    ensures session { IsOutcome result.status (settings_of (texts_of words.now))
        (moment I.Source O.Sink D.Store source.old sink store)
        (moment I.Source O.Sink D.Store source.new result.sink result.store) }
    ensures course { FromImage (D.holds store) (λ s. TakesCourse s result.status (settings_of (texts_of words.now))
        (moment I.Source O.Sink D.Store source.old sink store)
        (moment I.Source O.Sink D.Store source.new result.sink result.store)) }
    ensures blobs { KeepsBlobs
        (moment I.Source O.Sink D.Store source.old sink store)
        (moment I.Source O.Sink D.Store source.new result.sink result.store) }
{
    if is_watched(rt, words) {
        return run_watched(rt, words, source, sink, store);
    }
    let (mut sink, mut store) = (sink, store);
    let status = run(rt.alloc(), words, source, &mut sink, &mut store);
    Ran {
        status,
        sink,
        store,
    }
}

/// The same with a line on standard error that tells how far the check is, and is erased at its end.
fn run_watched<I: Source, O: Sink + Drop, D: Store + Drop>(
    rt: &HostRuntime,
    words: &[&str],
    source: &mut I,
    sink: O,
    store: D,
) -> Ran<O, D>
    requires { I.ended source.old ≡ false }
    ensures usage { IsUsage result.status (command_line_of (texts_of words.now)) }
    ensures demo { IfDemo (command_line_of (texts_of words.now))
        (λ number. IsShown number result.status (O.gained sink) (O.gained result.sink)) }
    ensures check { IfCheck (command_line_of (texts_of words.now)) (ChecksStore result.status
        (moment I.Source O.Sink D.Store source.old sink store)
        (moment I.Source O.Sink D.Store source.new result.sink result.store)) }
    ensures session { IsOutcome result.status (settings_of (texts_of words.now))
        (moment I.Source O.Sink D.Store source.old sink store)
        (moment I.Source O.Sink D.Store source.new result.sink result.store) }
    ensures course { FromImage (D.holds store) (λ s. TakesCourse s result.status (settings_of (texts_of words.now))
        (moment I.Source O.Sink D.Store source.old sink store)
        (moment I.Source O.Sink D.Store source.new result.sink result.store)) }
    ensures blobs { KeepsBlobs
        (moment I.Source O.Sink D.Store source.old sink store)
        (moment I.Source O.Sink D.Store source.new result.sink result.store) }
{
    let mut sink = ErasingSink { rt, sink };
    let mut store = WatchedStore::new(rt, store);
    let status = run(rt.alloc(), words, source, &mut sink, &mut store);
    erase(rt);
    Ran {
        status,
        sink: sink.sink,
        store: store.into_inner(),
    }
}

/// How the session ended, with the reason for a person who is there.
fn ended_with(rt: &HostRuntime, status: Status, failure: Option<&Failure>) -> Ended
    ensures { result.status ≡ status }
{
    Ended {
        status,
        reason: reason_for(rt, status, failure),
    }
}

/// Whether the words ask for a check and a person is there to see how far it is.
fn is_watched(rt: &HostRuntime, words: &[&str]) -> bool {
    rt.stderr().is_terminal()
        && matches!(
            read_command_line(rt.alloc(), words),
            Ok(Some(CommandLine::Check))
        )
}

/// Which file of the store failed and why, where that ended the session and a person is there to read it.
fn reason_for(rt: &HostRuntime, status: Status, failure: Option<&Failure>) -> Option<String> {
    match failure {
        Some(failure) if status == Status::StoreFault && rt.stderr().is_terminal() => {
            format!(in rt.alloc(); "{failure}").ok()
        }
        _ => None,
    }
}

/// The texts of these arguments, each once and in their order. The one error is out of memory.
fn texts_of_arguments(alloc: Global, arguments: &[String]) -> Result<Vec<&str>, AllocError>
    ensures { IfOk result (λ texts. texts_of texts.items ≡ map string_bytes arguments.now) }
{
    let mut texts = Vec::new(alloc);
    for argument in arguments {
        texts.push(argument.as_str())?;
    }
    Ok(texts)
}

#[cfg(test)]
mod tests;
