//! The standard streams: the trusted edge. Each counts its errors. What a file or a terminal gives or
//! takes no contract can say, so over the streams of the process they tell nothing of their content;
//! over a reader or a writer whose bytes are known they tell these.
ghost use Rattle.std.specs.Prelude.{◌≡◌, ◌≤◌, ◌<◌, length, max, false, IfOk, IfErr, IsOkAnd, MatchResult};
ghost use Rattle.std.specs.Io.KnownBytes.{ReadConsumes, WriteAppends};
ghost use Rattle.wu_outside.specs.Ends.{GivesEnd};
ghost use Rattle.wu_outside.specs.Faults.{HasCause, HasWriteCause, CountsFault};

use crate::system::count_error;
use crate::traits::{Failed, Fault, Sink, Source};
use std::io::{Read, Stdin, Stdout, Write};
use wu_base::NoMemory;

/// The standard input, or another reader. A short read is handed on as it is, so that a person at a
/// terminal is answered at once; each error counts as a fault, an interrupted call included.
#[derive(Drop)]
pub struct StdIn<R = Stdin> {
    reader: R,
    ended: bool,
    last_read: usize,
    most_asked: usize,
    faults: u64,
}

impl<R: Read> StdIn<R> {
    /// The object of the stream, which hasn't given its end and has no fault yet. Takes no memory
    /// today.
    pub fn new(reader: R) -> Result<StdIn<R>, NoMemory>
        ensures left { IsOkAnd result (λ s. ⟦<StdIn<R> as Source>⟧.left s ≡ R.remaining reader) }
        ensures going { IsOkAnd result (λ s. ⟦<StdIn<R> as Source>⟧.ended s ≡ false) }
        ensures none_asked { IsOkAnd result (λ s. ⟦<StdIn<R> as Source>⟧.most_asked s ≡ 0) }
        ensures none_failed { IsOkAnd result (λ s. ⟦<StdIn<R> as Source>⟧.faults s ≡ 0) }
    {
        Ok(StdIn {
            reader,
            ended: false,
            last_read: 0,
            most_asked: 0,
            faults: 0,
        })
    }
}

impl<R: Read> Source for StdIn<R> {
    ghost left = { λ s. R.remaining s.reader };

    ghost ended = { λ s. s.ended };

    ghost last_read = { λ s. s.last_read };

    ghost most_asked = { λ s. s.most_asked };

    ghost faults = { λ s. s.faults };

    fn read(&mut self, buf: &mut [u8]) -> Result<usize, Failed>
        requires { self.old.ended ≡ false }
        ensures within { IfOk result (λ n. n ≤ length buf.new) }
        ensures bytes { ReadConsumes (R.remaining self.old.reader) (R.remaining self.new.reader) result buf.new }
        ensures cause { HasCause self.old.faults self.new.faults result }
        ensures end { MatchResult result
            (λ n. GivesEnd self.old.ended self.new.ended n (length buf.new))
            (λ _. self.new.ended ≡ self.old.ended) }
        ensures gave { MatchResult result
            (λ n. self.new.last_read ≡ n)
            (λ _. self.new.last_read ≡ self.old.last_read) }
        ensures asked { MatchResult result
            (λ _. self.new.most_asked ≡ max self.old.most_asked (length buf.new))
            (λ _. self.new.most_asked ≡ self.old.most_asked) }
        ensures counted { MatchResult result
            (λ _. self.new.faults ≡ self.old.faults)
            (λ _. CountsFault self.old.faults self.new.faults) }
    {
        let count = count_error(&mut self.faults, self.reader.read(buf))?;
        self.ended = count == 0 && !buf.is_empty();
        self.last_read = count;
        self.most_asked = self.most_asked.max(buf.len());
        Ok(count)
    }
}

/// The standard output, or another writer. Each error counts as a fault, an interrupted call included,
/// and so does a write that takes nothing of a piece that isn't empty.
#[derive(Drop)]
pub struct StdOut<W = Stdout> {
    writer: W,
    faults: u64,
}

impl<W: Write> StdOut<W> {
    /// The object of the stream, with no fault yet. Takes no memory today.
    pub fn new(writer: W) -> Result<StdOut<W>, NoMemory>
        ensures gained { IsOkAnd result (λ s. ⟦<StdOut<W> as Sink>⟧.gained s ≡ W.contents writer) }
        ensures none_failed { IsOkAnd result (λ s. ⟦<StdOut<W> as Sink>⟧.faults s ≡ 0) }
    {
        Ok(StdOut { writer, faults: 0 })
    }
}

impl<W: Write> Sink for StdOut<W> {
    ghost gained = { λ s. W.contents s.writer };

    ghost faults = { λ s. s.faults };

    fn write(&mut self, piece: &[u8]) -> Result<usize, Fault>
        ensures within { IfOk result (λ n. n ≤ length piece.now) }
        ensures bytes { WriteAppends (W.contents self.old.writer) (W.contents self.new.writer) result piece.now }
        ensures cause { HasWriteCause self.old.faults self.new.faults piece.now result }
        ensures nothing_taken { result ≡ Ok 0 → 0 < length piece.now → CountsFault self.old.faults self.new.faults }
        ensures failed { IfErr result
            (λ fault. (fault ≡ Fault.Failed) × CountsFault self.old.faults self.new.faults) }
    {
        let count = count_error(&mut self.faults, self.writer.write(piece))?;
        if count == 0 && !piece.is_empty() {
            self.faults = self.faults.saturating_add(1);
        }
        Ok(count)
    }
}
