//! What a source gave and no item has used yet.
ghost use Rattle.std.specs.Prelude.{◌≡◌, ◌≤◌, ◌<◌, ◌+◌, max, [], false, true, length, Ok, Err, OnOk, IfErr, IfOk, MatchOption, MatchResult, take, drop, slice_range, vec_len};
ghost use Rattle.std.specs.Io.KnownBytes.{Consumes, Keeps, IsAtEnd};
ghost use Rattle.wu_base.specs.declared.limits.TheConstants.{READ_MAX as MostAtOnce};
ghost use Rattle.wu_outside.specs.Ends.{GivesEnd};
ghost use Rattle.wu_outside.specs.Faults.{HasCause};
ghost use Rattle.wu_script.specs.Holding.{Held, Uses, Follows, EndsEarly, HasReadCause, GivesAtMost, asked_at_once};

use crate::ends::ReadEnd;
use std::alloc::Global;
use std::marker::Model;
use wu_base::{NoMemory, READ_MAX};
use wu_outside::{Failed, Source};

/// A buffer between a source and the items. Contracts see the bytes that were given and not used
/// yet, how many more may be given, and whether the source gave its end.
#[derive(Debug, Drop)]
pub struct Input {
    buffer: Vec<u8>,
    at: usize,
    end: usize,
    spare: u64,
    ended: bool,
}

impl Model for Input {
    ghost Value = { Held };

    ghost view = { λ s. record { bytes = slice_range s.buffer.items s.at s.end; spare = s.spare; ended = s.ended } };

    ghost invariant = { λ s. (s.at ≤ s.end) × (s.end ≤ vec_len s.buffer) × (vec_len s.buffer ≡ MostAtOnce) };
}

impl Input {
    /// Nothing was given yet; so many bytes may be.
    pub fn new(alloc: Global, spare: u64) -> Result<Input, NoMemory>
        ensures { IfOk result (λ input. input ≡ record { bytes = []; spare = spare; ended = false }) }
    {
        Ok(Input {
            buffer: vec![in alloc; 0u8; READ_MAX]?,
            at: 0,
            end: 0,
            spare,
            ended: false,
        })
    }

    /// The bytes that were given and not used yet.
    pub fn bytes(&self) -> &[u8]
        ensures value { result.now ≡ self.now.bytes }
        ensures few { length result.now ≤ MostAtOnce }
    {
        &self.buffer[self.at..self.end]
    }

    /// Uses the first bytes.
    pub fn use_first(&mut self, count: usize)
        requires { count ≤ length self.old.bytes }
        ensures { self.new ≡ record self.old { bytes = drop count self.old.bytes } }
    {
        self.at += count;
    }

    /// Whether a byte is held. Where none is, and the source hasn't given its end, it is asked first.
    pub fn fill<I: Source>(&mut self, source: &mut I) -> Result<bool, ReadEnd>
        requires { Follows (I.ended source.old) (I.last_read source.old) self.old }
        ensures given { OnOk result (Uses (I.left source.old) (I.left source.new) self.old self.new []) }
        ensures some { result ≡ Ok true → 0 < length self.new.bytes }
        ensures none { result ≡ Ok false → (self.new.bytes ≡ []) × (self.new.ended ≡ true) }
        ensures follows { OnOk result (Follows (I.ended source.new) (I.last_read source.new) self.new) }
        ensures still { 0 < length self.old.bytes → (result ≡ Ok true) × (self.new ≡ self.old) × (source.new ≡ source.old) }
        ensures early { IfErr result (EndsEarly (λ bytes. bytes ≡ []) (I.left source.old) (I.left source.new) (I.last_read source.new) self.old) }
        ensures brief { GivesAtMost (asked_at_once self.old.spare) (I.left source.old) (I.left source.new) (I.last_read source.old) (I.last_read source.new) }
        ensures asked { I.most_asked source.new ≤ max (I.most_asked source.old) (asked_at_once self.old.spare) }
        ensures cause { HasReadCause (I.faults source.old) (I.faults source.new) result }
    {
        if !self.bytes().is_empty() {
            return Ok(true);
        }
        if self.ended {
            return Ok(false);
        }
        match self.refill(source) {
            Ok(()) => Ok(!self.ended),
            Err(end) => Err(end),
        }
    }

    /// Asks the source for more, where every byte was used: for at most READ_MAX bytes, and at most
    /// as many as it may give, or for one byte where it may give none. It gives its end with no byte.
    fn refill<I: Source>(&mut self, source: &mut I) -> Result<(), ReadEnd>
        requires used { self.old.bytes ≡ [] }
        requires going { self.old.ended ≡ false }
        requires asked { I.ended source.old ≡ false }
        ensures given { OnOk result (Uses (I.left source.old) (I.left source.new) self.old self.new []) }
        ensures progress { OnOk result (self.new.ended ≡ false → 0 < length self.new.bytes) }
        ensures over { OnOk result (self.new.ended ≡ true → self.new.bytes ≡ []) }
        ensures follows { OnOk result (Follows (I.ended source.new) (I.last_read source.new) self.new) }
        ensures early { IfErr result (EndsEarly (λ bytes. bytes ≡ []) (I.left source.old) (I.left source.new) (I.last_read source.new) self.old) }
        ensures brief { GivesAtMost (asked_at_once self.old.spare) (I.left source.old) (I.left source.new) (I.last_read source.old) (I.last_read source.new) }
        ensures asked { I.most_asked source.new ≤ max (I.most_asked source.old) (asked_at_once self.old.spare) }
        ensures cause { HasReadCause (I.faults source.old) (I.faults source.new) result }
    {
        self.at = 0;
        self.end = 0;
        let room = room_for(self.spare);
        match read_front(source, &mut self.buffer, room) {
            Ok(0) => self.ended = true,
            Ok(count) => match spare_after(self.spare, count) {
                Some(spare) => {
                    self.spare = spare;
                    self.end = count;
                    self.ended = false;
                }
                None => return Err(ReadEnd::InputTooLong),
            },
            Err(_) => return Err(ReadEnd::ReadFault),
        }
        Ok(())
    }
}

/// Reads into the first bytes of the buffer.
fn read_front<I: Source>(source: &mut I, buffer: &mut [u8], room: usize) -> Result<usize, Failed>
    requires going { I.ended source.old ≡ false }
    requires some { 0 < room }
    requires within { room ≤ length buffer.old }
    ensures within { IfOk result (λ n. n ≤ room) }
    ensures given { MatchResult result
        (λ n. Consumes (I.left source.old) (I.left source.new) (take n buffer.new) × (n ≡ 0 → IsAtEnd (I.left source.new)))
        (λ _. Keeps (I.left source.old) (I.left source.new)) }
    ensures end { MatchResult result
        (λ n. GivesEnd (I.ended source.old) (I.ended source.new) n room)
        (λ _. I.ended source.new ≡ I.ended source.old) }
    ensures gave { MatchResult result
        (λ n. I.last_read source.new ≡ n)
        (λ _. I.last_read source.new ≡ I.last_read source.old) }
    ensures asked { I.most_asked source.new ≤ max (I.most_asked source.old) room }
    ensures cause { HasCause (I.faults source.old) (I.faults source.new) result }
{
    source.read(&mut buffer[..room])
}

/// How many more bytes may be given after so many, or None where these were too many.
fn spare_after(spare: u64, count: usize) -> Option<u64>
    ensures { MatchOption result (spare < count) (λ left. left + count ≡ spare) }
{
    spare.checked_sub(count as u64)
}

/// How many bytes to ask for.
fn room_for(spare: u64) -> usize
    ensures { result ≡ asked_at_once spare }
{
    (spare.min(READ_MAX as u64) as usize).max(1)
}
