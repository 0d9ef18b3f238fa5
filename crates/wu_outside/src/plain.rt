//! Objects in memory without faults: each tells its content, and its count of faults is always 0.
ghost use Rattle.std.specs.Prelude.{◌≡◌, List, ℕ, ◌≤◌, min, max, [], drop, length, Some, false, vec_len, IfOk, IsOk, IsOkAnd};
ghost use Rattle.std.specs.Io.KnownBytes.{ReadConsumes, WriteAppends};
ghost use Rattle.wu_outside.specs.Ends.{GivesEnd};
ghost use Rattle.wu_outside.specs.Faults.{HasWriteCause};
ghost use Rattle.wu_outside.specs.Known.{KnownSource};

use crate::traits::{Failed, Fault, Sink, Source};
use std::alloc::Global;
use std::marker::Model;

/// A source of known bytes. Contracts see the bytes that are left, whether a read gave the end, how
/// many bytes the last one gave, and how many one asked for at most.
#[derive(Debug, Drop)]
pub struct PlainSource {
    bytes: Vec<u8>,
    at: usize,
    ended: bool,
    last_read: usize,
    most_asked: usize,
}

impl Model for PlainSource {
    ghost Value = { KnownSource };

    ghost view = { λ s. record { left = drop s.at s.bytes.items; ended = s.ended; last_read = s.last_read; most_asked = s.most_asked } };

    ghost invariant = { λ s. s.at ≤ vec_len s.bytes };
}

impl PlainSource {
    /// A source that gives these bytes and then its end.
    pub fn new(bytes: Vec<u8>) -> PlainSource
        ensures { result ≡ record { left = bytes.items; ended = false; last_read = 0; most_asked = 0 } }
    {
        PlainSource {
            bytes,
            at: 0,
            ended: false,
            last_read: 0,
            most_asked: 0,
        }
    }
}

impl Source for PlainSource {
    ghost left = { λ s. Some s.left };

    ghost ended = { λ s. s.ended };

    ghost last_read = { λ s. s.last_read };

    ghost most_asked = { λ s. s.most_asked };

    ghost faults = { λ _. 0 };

    /// Gives as many of the bytes as are left and have room.
    fn read(&mut self, buf: &mut [u8]) -> Result<usize, Failed>
        requires { self.old.ended ≡ false }
        ensures bytes { ReadConsumes (Some self.old.left) (Some self.new.left) result buf.new }
        ensures all_that_fits { IsOkAnd result (λ n. n ≡ min (length self.old.left) (length buf.new)) }
        ensures end { IfOk result (λ n. GivesEnd self.old.ended self.new.ended n (length buf.new)) }
        ensures gave { IfOk result (λ n. self.new.last_read ≡ n) }
        ensures asked { self.new.most_asked ≡ max self.old.most_asked (length buf.new) }
    {
        let rest = &self.bytes[self.at..];
        let count = rest.len().min(buf.len());
        buf[..count].copy_from_slice(&rest[..count]);
        self.at += count;
        self.ended = count == 0 && !buf.is_empty();
        self.last_read = count;
        self.most_asked = self.most_asked.max(buf.len());
        Ok(count)
    }
}

/// A sink that keeps what it gains. Contracts see those bytes.
#[derive(Debug, Drop)]
pub struct PlainSink {
    bytes: Vec<u8>,
}

impl Model for PlainSink {
    ghost Value = { List ℕ };

    ghost view = { λ s. s.bytes.items };
}

impl PlainSink {
    /// A sink that has gained nothing.
    pub fn new(alloc: Global) -> PlainSink
        ensures { result ≡ [] }
    {
        PlainSink {
            bytes: Vec::new(alloc),
        }
    }

    /// What it gained so far.
    pub fn gained(&self) -> &[u8]
        ensures { result.now ≡ self.now }
    {
        self.bytes.as_slice()
    }
}

impl Sink for PlainSink {
    ghost gained = { λ s. Some s };

    ghost faults = { λ _. 0 };

    /// Takes the whole piece, or runs out of memory.
    fn write(&mut self, piece: &[u8]) -> Result<usize, Fault>
        ensures bytes { WriteAppends (Some self.old) (Some self.new) result piece.now }
        ensures cause { HasWriteCause 0 0 piece.now result }
        ensures whole { IfOk result (λ n. n ≡ length piece.now) }
    {
        self.bytes.extend_from_slice(piece)?;
        Ok(piece.len())
    }
}
