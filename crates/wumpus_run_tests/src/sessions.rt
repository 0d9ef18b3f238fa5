//! Sessions over scripts.
use std::alloc::{AllocError, Global};
use wu_outside::{MemSink, MemSource, PlainStore};
use wu_rows::{NoAnswer, numbers, script, shown, words};
use wumpus_run::{Status, run};
use wumpus_run_rows::{ending, ending_text, name_of};

/// How a session ended, what it wrote, and how often it read and wrote.
#[derive(Drop)]
struct Ending {
    status: Status,
    output: Vec<u8>,
    reads: u64,
    writes: u64,
}

/// The session that the words ask for over the script. The named reads and writes fail.
fn run_session(
    alloc: Global,
    words: &[&str],
    script: Vec<u8>,
    reads: Vec<u64>,
    writes: Vec<u64>,
) -> Result<Ending, AllocError> {
    let mut source = MemSource::new(script, reads);
    let mut sink = MemSink::new(alloc, writes);
    let mut store = PlainStore::new(alloc);
    let status = run(alloc, words, &mut source, &mut sink, &mut store);
    Ok(Ending {
        status,
        output: Vec::from_slice(alloc, sink.gained())?,
        reads: source.calls(),
        writes: sink.calls(),
    })
}

/// The commands of a session so far, and the replies to them. The store is that of the sessions of
/// one command each.
#[derive(Drop)]
pub struct Session {
    script: Vec<u8>,
    replies: Vec<u8>,
    store: PlainStore,
}

impl Session {
    /// A session without commands, over a store that holds nothing.
    pub fn new(alloc: Global) -> Session {
        Session {
            script: Vec::new(alloc),
            replies: Vec::new(alloc),
            store: PlainStore::new(alloc),
        }
    }

    /// What a session over the commands so far and this one writes more than one over those before.
    /// A session over this command alone writes the same where each of those before had its own
    /// session over the same store.
    pub fn reply(&mut self, alloc: Global, command: &str) -> Result<String, NoAnswer> {
        let script = self.with(alloc, command)?;
        let output = whole_output(alloc, script)?;
        let reply = self.rest(alloc, output)?;
        if self.own_reply(alloc, command)?.as_str() == reply.as_str() {
            Ok(reply)
        } else {
            Err(NoAnswer::BadRow)
        }
    }

    /// What a session over the command writes, from what the sessions before it saved.
    fn own_reply(&mut self, alloc: Global, command: &str) -> Result<String, NoAnswer> {
        let line = format!(in alloc; "{command}\\n")?;
        let ended = ending(
            alloc,
            &["run"],
            Vec::new(alloc),
            &mut self.store,
            line.as_str(),
        )?;
        match ended.as_str().strip_prefix("done: ") {
            Some(reply) => Ok(String::from_str(alloc, reply)?),
            None => Err(NoAnswer::BadRow),
        }
    }

    /// The same of the session that the words ask for, which runs once.
    pub fn reply_by(
        &mut self,
        alloc: Global,
        field: &str,
        command: &str,
    ) -> Result<String, NoAnswer> {
        let words = words(alloc, field)?;
        let script = self.with(alloc, command)?;
        let output = output_by(alloc, words.as_slice(), script.as_slice())?;
        self.rest(alloc, output)
    }

    /// The script of the commands so far, of which this is the last now.
    fn with(&mut self, alloc: Global, command: &str) -> Result<Vec<u8>, NoAnswer> {
        self.script
            .extend_from_slice(script(alloc, command)?.as_slice())?;
        self.script.push(b'\n')?;
        Ok(Vec::from_slice(alloc, self.script.as_slice())?)
    }

    /// What the output has after the replies so far, of which this is the last now.
    fn rest(&mut self, alloc: Global, output: Vec<u8>) -> Result<String, NoAnswer> {
        if !output.as_slice().starts_with(self.replies.as_slice()) {
            return Err(NoAnswer::BadRow);
        }
        let reply = shown(alloc, &output[self.replies.len()..])?;
        self.replies = output;
        Ok(reply)
    }
}

/// What a session over the script writes.
pub fn output(alloc: Global, field: &str) -> Result<String, NoAnswer> {
    let output = whole_output(alloc, script(alloc, field)?)?;
    shown(alloc, output.as_slice())
}

/// What a session over the script writes, which ends as it should. It writes the same where memory
/// is full at each event that adds a posting, and at 7 postings.
pub fn whole_output(alloc: Global, script: Vec<u8>) -> Result<Vec<u8>, NoAnswer> {
    let output = output_by(alloc, &["run"], script.as_slice())?;
    for option in ["--flush=1", "--flush=7"] {
        let flushed = output_by(alloc, &["run", option], script.as_slice())?;
        if flushed.as_slice() != output.as_slice() {
            return Err(NoAnswer::BadRow);
        }
    }
    Ok(output)
}

/// What the session that the words ask for writes, which ends as it should.
fn output_by(alloc: Global, words: &[&str], script: &[u8]) -> Result<Vec<u8>, NoAnswer> {
    let script = Vec::from_slice(alloc, script)?;
    let ending = run_session(alloc, words, script, Vec::new(alloc), Vec::new(alloc))?;
    match ending.status {
        Status::Done => Ok(ending.output),
        _ => Err(NoAnswer::BadRow),
    }
}

/// The line of the demonstration of the number.
pub fn demo_line(alloc: Global, number: &str) -> Result<String, NoAnswer> {
    let output = output_by(alloc, &["demo", number], b"")?;
    shown(alloc, output.as_slice())
}

/// How the session that the words ask for ends, and how often it reads and writes.
pub fn calls(alloc: Global, field: &str, script_field: &str) -> Result<String, NoAnswer> {
    let words = words(alloc, field)?;
    let script = script(alloc, script_field)?;
    let ending = run_session(
        alloc,
        words.as_slice(),
        script,
        Vec::new(alloc),
        Vec::new(alloc),
    )?;
    let name = name_of(alloc, ending.status)?;
    Ok(format!(in alloc; "{name} {} {}", ending.reads, ending.writes)?)
}

/// How a session ends where these reads and writes fail, and what it has written then.
pub fn faulty(alloc: Global, reads: &str, writes: &str, field: &str) -> Result<String, NoAnswer> {
    let script = script(alloc, field)?;
    let ending = run_session(
        alloc,
        &["run"],
        script,
        numbers(alloc, reads)?,
        numbers(alloc, writes)?,
    )?;
    told(alloc, &ending)
}

/// No session of a row reads or writes as often.
const CALLS_MAX: u64 = 64;

/// The same of the session that the words ask for, where one of its `reads` or of its `writes`
/// fails: the first one, the next one, and so on up to the number at which the session is done, as
/// it makes no such call.
pub fn faulty_in_turn(
    alloc: Global,
    calls: &str,
    words_field: &str,
    field: &str,
) -> Result<String, NoAnswer> {
    let words = words(alloc, words_field)?;
    let mut text = String::new(alloc);
    for call in 0..CALLS_MAX {
        let (reads, writes) = failing_call(alloc, calls, call)?;
        let script = script(alloc, field)?;
        let ending = run_session(alloc, words.as_slice(), script, reads, writes)?;
        let told = told(alloc, &ending)?;
        write!(text, "{call} {told}")?;
        if ending.status == Status::Done {
            return Ok(text);
        }
        text.push_str(" | ")?;
    }
    Err(NoAnswer::BadRow)
}

/// The reads and the writes that fail: the one call of the one or the other.
fn failing_call(alloc: Global, calls: &str, call: u64) -> Result<(Vec<u64>, Vec<u64>), NoAnswer> {
    let fails = Vec::from_slice(alloc, &[call])?;
    match calls {
        "reads" => Ok((fails, Vec::new(alloc))),
        "writes" => Ok((Vec::new(alloc), fails)),
        _ => Err(NoAnswer::BadRow),
    }
}

/// How a session ended, and what it had written.
fn told(alloc: Global, ending: &Ending) -> Result<String, NoAnswer> {
    ending_text(alloc, ending.status, ending.output.as_slice())
}
