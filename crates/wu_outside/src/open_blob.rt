//! A blob whose file stays open.
ghost use Rattle.wu_outside.specs.Faults.{HasFaultCause};
ghost use Rattle.std.specs.Io.KnownBytes.{Consumes};
ghost use Rattle.std.specs.Prelude.{◌≡◌, ◌==◌, ◌≤◌, ◌<◌, ◌+◌, ◌-◌, ◌^◌, ◌⊎◌, length, min, take, drop, vec_len, None, Some, IfOk, IfSome, OnOk, OnErr};

use crate::copies::copy_from;
use crate::disk::{LAST_PLACE, read_at};
use crate::system::Failures;
use crate::traits::Fault;
use std::alloc::{AllocError, Global};
use std::io::{Read, Seek};

/// How many bytes are read at once where a read goes on after the last one.
const WINDOW: usize = 16_384;

/// An open file of a blob, with a window of its bytes.
#[derive(Drop)]
pub struct OpenBlob<F> {
    blob: u64,
    path: String,
    file: F,
    /// The place after the last read, once there was one.
    next: Option<u64>,
    window: Vec<u8>,
    window_at: u64,
    window_len: usize,
}

impl<F: Read + Seek> OpenBlob<F> {
    /// The blob of this number, over its file, which has this path.
    pub fn new(alloc: Global, blob: u64, path: String, file: F) -> Result<OpenBlob<F>, AllocError>
    where
        F: Drop,
        ensures blob { IfOk result (λ one. one.blob ≡ blob) }
        ensures fresh { IfOk result (λ one. one.next ≡ None) }
        ensures empty { IfOk result (λ one. one.window_len ≡ 0) }
    {
        Ok(OpenBlob {
            blob,
            path,
            file,
            next: None,
            window: vec![in alloc; 0u8; WINDOW]?,
            window_at: 0,
            window_len: 0,
        })
    }

    /// Whether it is the blob of this number.
    pub fn is_of(&self, blob: u64) -> bool
        ensures { result ≡ (self.now.blob == blob) }
    {
        self.blob == blob
    }

    /// Reads from a place on, as far as the blob goes and there is room. Where the read goes on after
    /// the last one, the window is filled.
    pub fn read_at(
        &mut self,
        failures: &mut Failures,
        at: u64,
        buf: &mut [u8],
    ) -> Result<usize, Fault>
        ensures cause { HasFaultCause failures.old.count failures.new.count result }
        ensures within { IfOk result (λ n. n ≤ length buf.new) }
        ensures held { IfOk result (λ n. self.old.window_at ≤ at →
            let held = take (length buf.new) (drop (at - self.old.window_at) (take self.old.window_len self.old.window.items)) in
            take (length held) buf.new ≡ held) }
        ensures reaches { IfOk result (λ n. (self.new.window_at ≡ self.old.window_at)
            ⊎ (min (at + n) (2 ^ 64 - 1) ≤ self.new.window_at + self.new.window_len)) }
        ensures next { IfOk result (λ n. self.new.next ≡ Some (min (at + n) (2 ^ 64 - 1))) }
        ensures blob { self.new.blob ≡ self.old.blob }
    {
        let goes_on = self.next == Some(at);
        let held = self.take_held(at, buf);
        let rest = &mut buf[held..];
        let rest_at = at.saturating_add(held as u64);
        let more = if rest.is_empty() {
            0
        } else if goes_on && rest.len() < WINDOW {
            self.read_on(failures, rest_at, rest)?
        } else {
            read_at(failures, self.path.as_str(), &mut self.file, rest_at, rest)?
        };
        let count = held + more;
        self.next = Some(at.saturating_add(count as u64));
        Ok(count)
    }

    /// Fills the window from a place on, and copies the first bytes that it has then.
    fn read_on(&mut self, failures: &mut Failures, at: u64, buf: &mut [u8]) -> Result<usize, Fault>
        ensures cause { HasFaultCause failures.old.count failures.new.count result }
        ensures within { IfOk result (λ n. n ≤ length buf.new) }
        ensures filled { OnOk result (self.new.window_at ≡ at) }
        ensures reaches { IfOk result (λ n. n ≤ self.new.window_len) }
        ensures given { IfOk result (λ n. take n buf.new
            ≡ take (length buf.new) (take self.new.window_len self.new.window.items)) }
        ensures blob { self.new.blob ≡ self.old.blob }
    {
        self.fill(failures, at)?;
        Ok(self.take_held(at, buf))
    }

    /// Copies what the window holds from a place on.
    fn take_held(&self, at: u64, buf: &mut [u8]) -> usize
        ensures within { result ≤ length buf.new }
        ensures few { result ≤ self.now.window_len }
        ensures before { at < self.now.window_at → result ≡ 0 }
        ensures held { self.now.window_at ≤ at → take result buf.new
            ≡ take (length buf.new) (drop (at - self.now.window_at) (take self.now.window_len self.now.window.items)) }
    {
        let held = &self.window[..self.window_len.min(self.window.len())];
        if at < self.window_at {
            return 0;
        }
        copy_from(held, at - self.window_at, buf)
    }

    /// Fills the window from a place on. After an error it holds nothing.
    fn fill(&mut self, failures: &mut Failures, at: u64) -> Result<(), Fault>
        ensures cause { HasFaultCause failures.old.count failures.new.count result }
        ensures filled { OnOk result (self.new.window_at ≡ at) }
        ensures taken { OnOk result (at ≤ LAST_PLACE → (sought : F)
            × IfSome (F.stream_position self.old.file) (λ _. F.stream_position sought ≡ Some at)
            × Consumes (F.remaining sought) (F.remaining self.new.file) (take self.new.window_len self.new.window.items)) }
        ensures within { self.new.window_len ≤ vec_len self.new.window }
        ensures failed { OnErr result (self.new.window_len ≡ 0) }
        ensures blob { self.new.blob ≡ self.old.blob }
    {
        self.window_len = 0;
        self.window_at = at;
        self.window_len = read_at(
            failures,
            self.path.as_str(),
            &mut self.file,
            at,
            self.window.as_mut_slice(),
        )?;
        Ok(())
    }
}
