//! Objects in memory that count their calls and fail where they are told to, for tests. They tell
//! their content.
ghost use Rattle.std.specs.Prelude.{◌≡◌, ◌≤◌, min, max, length, [], Some, None, true, false, IfOk, OnErr, MatchResult, Err};
ghost use Rattle.std.specs.Io.KnownBytes.{ReadConsumes, WriteAppends};
ghost use Rattle.wu_outside.specs.Ends.{GivesEnd};
ghost use Rattle.wu_outside.specs.Faults.{HasCause, HasWriteCause};
ghost use Rattle.wu_outside.specs.Known.{ScheduledSource, ScheduledSink};
ghost use Rattle.wu_outside.specs.Schedule.{is_failing, after_call};
ghost use Rattle.wu_outside.specs.declared.traits.Fault.TheVariants.{Failed as CallFailed};

use crate::plain::{PlainSink, PlainSource};
use crate::schedule::Schedule;
use crate::traits::{Failed, Fault, Sink, Source};
use std::alloc::Global;
use std::marker::Model;

/// A source of known bytes that counts its reads. Contracts see the source, and the schedule of its
/// calls.
#[derive(Debug, Drop)]
pub struct MemSource {
    plain: PlainSource,
    schedule: Schedule,
}

impl Model for MemSource {
    ghost Value = { ScheduledSource };

    ghost view = { λ s. record { source = s.plain; schedule = s.schedule } };
}

impl MemSource {
    /// A source that gives these bytes and then its end. The named calls, counted from 0, fail.
    pub fn new(bytes: Vec<u8>, fails: Vec<u64>) -> MemSource
        ensures bytes { result.source ≡ record { left = bytes.items; ended = false; last_read = 0; most_asked = 0 } }
        ensures calls { result.schedule ≡ record { calls = 0; faults = 0; fails = fails.items; stop_from = None } }
    {
        MemSource {
            plain: PlainSource::new(bytes),
            schedule: Schedule::new(fails),
        }
    }

    /// How many reads there were, those that failed among them. The count stands still at 2^64 - 1.
    pub fn calls(&self) -> u64
        ensures { result ≡ self.now.schedule.calls }
    {
        self.schedule.calls()
    }

    /// How many reads failed. The count stands still at 2^64 - 1.
    pub fn faults(&self) -> u64
        ensures { result ≡ self.now.schedule.faults }
    {
        self.schedule.faults()
    }
}

impl Source for MemSource {
    ghost left = { λ s. Some s.source.left };

    ghost ended = { λ s. s.source.ended };

    ghost last_read = { λ s. s.source.last_read };

    ghost most_asked = { λ s. s.source.most_asked };

    ghost faults = { λ s. s.schedule.faults };

    /// Gives as many of the bytes as are left and have room. A read that is to fail changes nothing
    /// but the counts.
    fn read(&mut self, buf: &mut [u8]) -> Result<usize, Failed>
        requires { self.old.source.ended ≡ false }
        ensures bytes { ReadConsumes (Some self.old.source.left) (Some self.new.source.left) result buf.new }
        ensures all_that_fits { IfOk result (λ n. n ≡ min (length self.old.source.left) (length buf.new)) }
        ensures end { IfOk result (λ n. GivesEnd self.old.source.ended self.new.source.ended n (length buf.new)) }
        ensures gave { IfOk result (λ n. self.new.source.last_read ≡ n) }
        ensures asked { IfOk result (λ _. self.new.source.most_asked ≡ max self.old.source.most_asked (length buf.new)) }
        ensures fails { MatchResult result
            (λ _. is_failing self.old.schedule ≡ false)
            (λ _. is_failing self.old.schedule ≡ true) }
        ensures refused { is_failing self.old.schedule ≡ true → self.new.source ≡ self.old.source }
        ensures counted { self.new.schedule ≡ after_call self.old.schedule }
        ensures cause { HasCause self.old.schedule.faults self.new.schedule.faults result }
    {
        self.schedule.pass()?;
        self.plain.read(buf)
    }
}

/// A sink that keeps what it gains and counts its writes. Contracts see the bytes gained, and the
/// schedule of its calls.
#[derive(Debug, Drop)]
pub struct MemSink {
    plain: PlainSink,
    schedule: Schedule,
}

impl Model for MemSink {
    ghost Value = { ScheduledSink };

    ghost view = { λ s. record { gained = s.plain; schedule = s.schedule } };
}

impl MemSink {
    /// A sink that has gained nothing. The named calls, counted from 0, fail.
    pub fn new(alloc: Global, fails: Vec<u64>) -> MemSink
        ensures bytes { result.gained ≡ [] }
        ensures calls { result.schedule ≡ record { calls = 0; faults = 0; fails = fails.items; stop_from = None } }
    {
        MemSink {
            plain: PlainSink::new(alloc),
            schedule: Schedule::new(fails),
        }
    }

    /// What it gained so far.
    pub fn gained(&self) -> &[u8]
        ensures { result.now ≡ self.now.gained }
    {
        self.plain.gained()
    }

    /// How many writes there were, those that failed among them. The count stands still at 2^64 - 1.
    pub fn calls(&self) -> u64
        ensures { result ≡ self.now.schedule.calls }
    {
        self.schedule.calls()
    }

    /// How many writes failed. The count stands still at 2^64 - 1.
    pub fn faults(&self) -> u64
        ensures { result ≡ self.now.schedule.faults }
    {
        self.schedule.faults()
    }
}

impl Sink for MemSink {
    ghost gained = { λ s. Some s.gained };

    ghost faults = { λ s. s.schedule.faults };

    /// Takes the whole piece, or runs out of memory. A write that is to fail changes nothing but the
    /// counts.
    fn write(&mut self, piece: &[u8]) -> Result<usize, Fault>
        ensures bytes { WriteAppends (Some self.old.gained) (Some self.new.gained) result piece.now }
        ensures whole { IfOk result (λ n. n ≡ length piece.now) }
        ensures failed { is_failing self.old.schedule ≡ true → result ≡ Err CallFailed }
        ensures refused { OnErr result (self.new.gained ≡ self.old.gained) }
        ensures counted { self.new.schedule ≡ after_call self.old.schedule }
        ensures cause { HasWriteCause self.old.schedule.faults self.new.schedule.faults piece.now result }
    {
        self.schedule.pass()?;
        self.plain.write(piece)
    }
}
