//! Sessions whose script comes in small pieces.
ghost use Rattle.std.specs.Prelude.{◌≡◌, ◌≤◌, Some, false};

use std::alloc::Global;
use wu_outside::{Failed, MemSink, PlainSource, PlainStore, Source};
use wu_rows::{NoAnswer, number, script, shown};
use wumpus_run::run;

/// A source that gives at most so many bytes at once, and one more at each read up to seven.
#[derive(Drop)]
struct Pieces {
    plain: PlainSource,
    most: usize,
    most_asked: usize,
    ghost some: { 1 ≤ most },
}

impl Source for Pieces {
    ghost left = { λ s. Some s.plain.left };

    ghost ended = { λ s. s.plain.ended };

    ghost last_read = { λ s. s.plain.last_read };

    ghost most_asked = { λ s. s.most_asked };

    ghost faults = { λ _. 0 };

    fn read(&mut self, buf: &mut [u8]) -> Result<usize, Failed> {
        self.most_asked = self.most_asked.max(buf.len());
        let room = buf.len().min(self.most);
        self.most = if self.most < 7 { self.most + 1 } else { 1 };
        self.plain.read(&mut buf[..room])
    }
}

/// What a session over the script writes, which comes in pieces of at most so many bytes.
pub fn output(alloc: Global, most: &str, field: &str) -> Result<String, NoAnswer> {
    let most = number(most)?.max(1) as usize;
    let plain = PlainSource::new(script(alloc, field)?);
    let mut source = Pieces {
        plain,
        most,
        most_asked: 0,
    };
    let mut sink = MemSink::new(alloc, Vec::new(alloc));
    let mut store = PlainStore::new(alloc);
    let status = run(alloc, &["run"], &mut source, &mut sink, &mut store);
    if status.code() != 0 {
        return Err(NoAnswer::BadRow);
    }
    shown(alloc, sink.gained())
}
