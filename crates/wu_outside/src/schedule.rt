//! Calls that are counted, of which some are to fail.
ghost use Rattle.std.specs.Prelude.{◌≡◌, ◌==◌, nat_le, None, Some, [], true, false, MatchResult};
ghost use Rattle.std.specs.List.{list_any};
ghost use Rattle.std.specs.Option.{option_map_or};
ghost use Rattle.wu_outside.specs.Faults.{HasCause};
ghost use Rattle.wu_outside.specs.Schedule.{is_failing, after_call};

use crate::traits::Failed;
use std::alloc::Global;
use std::marker::Model;

/// How many calls there were and how many of them failed, which calls are to fail, counted from 0,
/// and from which on all fail.
#[derive(Debug, Drop)]
pub struct Schedule {
    calls: u64,
    faults: u64,
    fails: Vec<u64>,
    stop_from: Option<u64>,
}

impl Model for Schedule {
    ghost use Rattle.wu_outside.specs.Schedule.{Schedule as Calls};

    ghost Value = { Calls };

    ghost view = { λ s. record { calls = s.calls; faults = s.faults; fails = s.fails.items; stop_from = s.stop_from } };
}

impl Schedule {
    /// A schedule in which the named calls fail.
    pub fn new(fails: Vec<u64>) -> Schedule
        ensures { result ≡ record { calls = 0; faults = 0; fails = fails.items; stop_from = None } }
    {
        Schedule {
            calls: 0,
            faults: 0,
            fails,
            stop_from: None,
        }
    }

    /// A schedule in which the named calls fail, and all from one call on.
    pub fn stopping(fails: Vec<u64>, stop_from: u64) -> Schedule
        ensures { result ≡ record { calls = 0; faults = 0; fails = fails.items; stop_from = Some stop_from } }
    {
        Schedule {
            calls: 0,
            faults: 0,
            fails,
            stop_from: Some(stop_from),
        }
    }

    /// A schedule in which no call fails.
    pub fn calm(alloc: Global) -> Schedule
        ensures { result ≡ record { calls = 0; faults = 0; fails = []; stop_from = None } }
    {
        Schedule::new(Vec::new(alloc))
    }

    /// How many calls there were. The count stands still at 2^64 - 1.
    pub fn calls(&self) -> u64
        ensures { result ≡ self.now.calls }
    {
        self.calls
    }

    /// How many calls failed. The count stands still at 2^64 - 1.
    pub fn faults(&self) -> u64
        ensures { result ≡ self.now.faults }
    {
        self.faults
    }

    /// Whether the next call is to fail.
    fn is_failing(&self) -> bool
        ensures { result ≡ is_failing self.now }
    {
        let named = contains(self.fails.as_slice(), self.calls);
        let stopped = is_reached(self.stop_from, self.calls);
        named || stopped
    }

    /// Counts a call, which fails where it is to.
    pub fn pass(&mut self) -> Result<(), Failed>
        ensures failed { MatchResult result (λ _. is_failing self.old ≡ false) (λ _. is_failing self.old ≡ true) }
        ensures counted { self.new ≡ after_call self.old }
        ensures cause { HasCause self.old.faults self.new.faults result }
    {
        let fails = self.is_failing();
        self.calls = self.calls.saturating_add(1);
        if fails {
            self.faults = self.faults.saturating_add(1);
            return Err(Failed);
        }
        Ok(())
    }
}

/// Whether the list has the call.
fn contains(calls: &[u64], wanted: u64) -> bool
    ensures { result ≡ list_any (λ call. call == wanted) calls.now }
{
    calls.iter().any(|call| *call == wanted)
}

/// Whether there is such a first call, and it was reached.
fn is_reached(first: Option<u64>, call: u64) -> bool
    ensures { result ≡ option_map_or (λ from. nat_le from call) first false }
{
    match first {
        Some(from) => from <= call,
        None => false,
    }
}
