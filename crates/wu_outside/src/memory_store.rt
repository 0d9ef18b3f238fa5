//! A store in memory that counts its calls, fails where it is told to, and tells what a crash leaves.
ghost use Rattle.std.specs.Prelude.{◌≡◌, List, ℕ, [], ◌∷◌, ◌++◌, Some, None, true, length, option_map, reverse, refl, IfOk, OnOk, OnErr, Err};
ghost use Rattle.wu_outside.specs.Content.{ReadsFrom, GivesRoot};
ghost use Rattle.wu_outside.specs.Crash.{LeftNow};
ghost use Rattle.wu_outside.specs.Faults.{HasFaultCause};
ghost use Rattle.wu_outside.specs.Logs.{LoggedStore, moments_of, content_of, crash_log};
ghost use Rattle.wu_outside.specs.Ranges.{asked_size, root_range};
ghost use Rattle.wu_outside.specs.Schedule.{is_failing, after_call};
ghost use Rattle.wu_outside.specs.declared.logs.Entry.TheVariants.{HasPut, HasRemoved, HasSetRoot, HasSynced};
ghost use Rattle.wu_outside.specs.declared.traits.Fault.TheVariants.{Failed as CallFailed};

use crate::copies::{read_blob, read_root, size_of_blob};
use crate::logs::{Entry, crash, find_blob, find_root};
use crate::ranges::ReadRange;
use crate::schedule::Schedule;
use crate::traits::{Fault, Store};
use std::alloc::Global;
use std::marker::Model;
use wu_base::{Bytes, NoMemory};

/// A store that keeps the list of all its changes and syncs since it was made. It tells what it
/// holds, the ranges read, and what a crash at each moment might have left. A call that is to fail
/// changes nothing but the counts.
#[derive(Debug, Drop)]
pub struct MemStore {
    allocator: Global,
    log: Vec<Entry>,
    ranges: Vec<ReadRange>,
    schedule: Schedule,
}

impl Model for MemStore {
    ghost Value = { LoggedStore };

    ghost view = { λ s. record { log = reverse s.log.items; ranges = s.ranges.items; schedule = s.schedule } };
}

impl MemStore {
    /// An empty store. The named calls, counted from 0, fail, and so do all from `stop_from` on.
    /// Takes no memory.
    pub fn new(alloc: Global, fails: Vec<u64>, stop_from: u64) -> MemStore
        ensures log { result.log ≡ [] }
        ensures ranges { result.ranges ≡ [] }
        ensures calls { result.schedule ≡ record { calls = 0; faults = 0; fails = fails.items; stop_from = Some stop_from } }
    {
        MemStore {
            allocator: alloc,
            log: Vec::new(alloc),
            ranges: Vec::new(alloc),
            schedule: Schedule::stopping(fails, stop_from),
        }
    }

    /// The store after a crash at this moment, with one of the contents that a crash may leave now. All up
    /// to the last sync stands. Of the changes since then, numbered from 0 in their order, number i is kept
    /// where bit `i mod 64` of `choice` is 1, counted from the lowest; a put that isn't kept leaves the blob
    /// absent. What is left counts as synced. No range is read of it so far, its counts of calls and of
    /// faults are 0, and no call of it is to fail. The one error is out of memory.
    pub fn crashed(&self, choice: u64) -> Result<MemStore, NoMemory>
        ensures log { IfOk result (λ left. left.log ≡ HasSynced ∷ crash_log choice self.now.log) }
        ensures outcome { IfOk result (λ left. LeftNow (moments_of self.now.log) (content_of left.log)) }
        ensures ranges { IfOk result (λ left. left.ranges ≡ []) }
        ensures calls { IfOk result (λ left. left.schedule ≡ record { calls = 0; faults = 0; fails = []; stop_from = None }) }
    {
        let mut log = crash(self.allocator, self.log.as_slice(), choice)?;
        log.push(Entry::HasSynced)?;
        Ok(MemStore {
            allocator: self.allocator,
            log,
            ranges: Vec::new(self.allocator),
            schedule: Schedule::calm(self.allocator),
        })
    }

    /// The ranges read so far, one of blob 0 for each read of the root, and one without bytes for
    /// each size that was asked, in order.
    pub fn reads(&self) -> &[ReadRange]
        ensures { result.now ≡ self.now.ranges }
    {
        self.ranges.as_slice()
    }

    /// How many calls there were, those that failed among them. The count stands still at 2^64 - 1.
    pub fn calls(&self) -> u64
        ensures { result ≡ self.now.schedule.calls }
    {
        self.schedule.calls()
    }

    /// How many calls failed. The count stands still at 2^64 - 1.
    pub fn faults(&self) -> u64
        ensures { result ≡ self.now.schedule.faults }
    {
        self.schedule.faults()
    }
}

impl Store for MemStore {
    ghost holds = { λ s. Some (content_of s.log) };

    ghost reads = { λ s. Some s.ranges };

    ghost moments = { λ s. Some (moments_of s.log) };

    ghost faults = { λ s. s.schedule.faults };

    fn size(&mut self, blob: u64) -> Result<Option<u64>, Fault>
        ensures size { IfOk result (λ size. size ≡ option_map length ((content_of self.old.log).blobs blob)) }
        ensures log { self.new.log ≡ self.old.log }
        ensures noted { OnOk result (self.new.ranges ≡ self.old.ranges ++ asked_size blob ∷ []) }
        ensures refused { OnErr result (self.new.ranges ≡ self.old.ranges) }
        ensures failed { is_failing self.old.schedule ≡ true → result ≡ Err CallFailed }
        ensures counted { self.new.schedule ≡ after_call self.old.schedule }
        ensures cause { HasFaultCause self.old.schedule.faults self.new.schedule.faults result }
    {
        self.schedule.pass()?;
        let size = size_of_blob(find_blob(self.log.as_slice(), blob));
        self.ranges.push(ReadRange::of_size(blob))?;
        Ok(size)
    }

    fn read(&mut self, blob: u64, at: u64, buf: &mut [u8]) -> Result<Option<usize>, Fault>
        ensures bytes { IfOk result (λ count. ReadsFrom ((content_of self.old.log).blobs blob) at count buf.new) }
        ensures noted { OnOk result (self.new.ranges ≡ self.old.ranges ++ record { blob = blob; at = at; len = length buf.new } ∷ []) }
        ensures refused { OnErr result (self.new.ranges ≡ self.old.ranges) }
        ensures log { self.new.log ≡ self.old.log }
        ensures failed { is_failing self.old.schedule ≡ true → result ≡ Err CallFailed }
        ensures counted { self.new.schedule ≡ after_call self.old.schedule }
        ensures cause { HasFaultCause self.old.schedule.faults self.new.schedule.faults result }
    {
        self.schedule.pass()?;
        let count = read_blob(find_blob(self.log.as_slice(), blob), at, buf);
        let len = buf.len() as u64;
        self.ranges.push(ReadRange { blob, at, len })?;
        Ok(count)
    }

    fn put(&mut self, blob: u64, bytes: &[u8]) -> Result<(), Fault>
        ensures done { OnOk result (self.new.log ≡ HasPut blob bytes.now ∷ self.old.log) }
        ensures refused { OnErr result (self.new.log ≡ self.old.log) }
        ensures ranges { self.new.ranges ≡ self.old.ranges }
        ensures failed { is_failing self.old.schedule ≡ true → result ≡ Err CallFailed }
        ensures counted { self.new.schedule ≡ after_call self.old.schedule }
        ensures cause { HasFaultCause self.old.schedule.faults self.new.schedule.faults result }
    {
        self.schedule.pass()?;
        let bytes = Bytes::from_slice(self.allocator, bytes)?;
        self.log.push(Entry::HasPut(blob, bytes))?;
        Ok(())
    }

    fn remove(&mut self, blob: u64) -> Result<(), Fault>
        ensures done { OnOk result (self.new.log ≡ HasRemoved blob ∷ self.old.log) }
        ensures refused { OnErr result (self.new.log ≡ self.old.log) }
        ensures ranges { self.new.ranges ≡ self.old.ranges }
        ensures failed { is_failing self.old.schedule ≡ true → result ≡ Err CallFailed }
        ensures counted { self.new.schedule ≡ after_call self.old.schedule }
        ensures cause { HasFaultCause self.old.schedule.faults self.new.schedule.faults result }
    {
        self.schedule.pass()?;
        self.log.push(Entry::HasRemoved(blob))?;
        Ok(())
    }

    fn root(&mut self, buf: &mut [u8]) -> Result<Option<usize>, Fault>
        ensures bytes { IfOk result (λ count. GivesRoot (content_of self.old.log).root count buf.new) }
        ensures noted { OnOk result (self.new.ranges ≡ self.old.ranges ++ root_range (length buf.new) ∷ []) }
        ensures refused { OnErr result (self.new.ranges ≡ self.old.ranges) }
        ensures log { self.new.log ≡ self.old.log }
        ensures failed { is_failing self.old.schedule ≡ true → result ≡ Err CallFailed }
        ensures counted { self.new.schedule ≡ after_call self.old.schedule }
        ensures cause { HasFaultCause self.old.schedule.faults self.new.schedule.faults result }
    {
        self.schedule.pass()?;
        let count = read_root(find_root(self.log.as_slice()), buf);
        self.ranges.push(ReadRange::of_root(buf.len() as u64))?;
        Ok(count)
    }

    fn set_root(&mut self, bytes: &[u8]) -> Result<(), Fault>
        ensures done { OnOk result (self.new.log ≡ HasSetRoot bytes.now ∷ self.old.log) }
        ensures refused { OnErr result (self.new.log ≡ self.old.log) }
        ensures ranges { self.new.ranges ≡ self.old.ranges }
        ensures failed { is_failing self.old.schedule ≡ true → result ≡ Err CallFailed }
        ensures counted { self.new.schedule ≡ after_call self.old.schedule }
        ensures cause { HasFaultCause self.old.schedule.faults self.new.schedule.faults result }
    {
        self.schedule.pass()?;
        let bytes = Bytes::from_slice(self.allocator, bytes)?;
        self.log.push(Entry::HasSetRoot(bytes))?;
        Ok(())
    }

    fn sync(&mut self) -> Result<(), Fault>
        ensures done { OnOk result (self.new.log ≡ HasSynced ∷ self.old.log) }
        ensures refused { OnErr result (self.new.log ≡ self.old.log) }
        ensures ranges { self.new.ranges ≡ self.old.ranges }
        ensures failed { is_failing self.old.schedule ≡ true → result ≡ Err CallFailed }
        ensures counted { self.new.schedule ≡ after_call self.old.schedule }
        ensures cause { HasFaultCause self.old.schedule.faults self.new.schedule.faults result }
    {
        self.schedule.pass()?;
        self.log.push(Entry::HasSynced)?;
        Ok(())
    }

    ghost told_alike = { λ _. refl };
}
