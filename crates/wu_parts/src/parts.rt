//! The parts of the index, and the postings in memory.
ghost use Rattle.std.specs.Prelude.{◌≡◌, ◌⊎◌, ℕ, ◌+◌, ◌-◌, ◌<◌, ◌≤◌, ◌^◌, ◌∷◌, ◌++◌, List, Option, [], All, IsTrue, ◌↔◌, length, map, min, slice_get, IfOk, IfErr, OnOk, OnErr};
ghost use Rattle.wu_base.specs.declared.troubles.Trouble.TheVariants.{NoMemory as RanOutOfMemory};
ghost use Rattle.wu_layout.specs.Postings.{Posting, live_of};
ghost use Rattle.wu_outside.specs.Content.{MayDo, with_blob};
ghost use Rattle.wu_outside.specs.Crash.{Put, try_change};
ghost use Rattle.wu_token.specs.Words.{IsTerm};
ghost use Rattle.wu_token.specs.Tokens.{tokens_of};
ghost use Rattle.wu_parts.specs.Memory.{HasPostings};
ghost use Rattle.wu_parts.specs.Causes.{IsStoreCause};
ghost use Rattle.wu_parts.specs.Contents.{GainsTerms, counted_of, no_contents, stored_in, stored_in_parts};
ghost use Rattle.wu_parts.specs.Flushing.{EmptiesMemory, Flushes};
ghost use Rattle.wu_parts.specs.Loading.{AreLoadable, IsLoadCause, IsLoaded, ReadsFronts};
ghost use Rattle.wu_parts.specs.StoredParts.{directories_of, records_of};

use crate::loading::{end_of, open_parts};
use crate::memory::MemoryPostings;
use crate::working::Running;
use crate::writing::{StoredPart, put_part};
use std::alloc::Global;
use std::marker::Model;
use wu_base::{ADDRESSES_MAX, NoMemory, PartRec, Range, TEXT_MAX, Trouble};
use wu_lists::{Lists, count_of};
use wu_outside::Store;
use wu_space::Space;
use wu_token::Token;

/// How many blocks of parts are kept.
pub const BLOCKS_KEPT: usize = 1024;

/// The postings that were added since the last flush, the parts in the store, and the background work on
/// them that is under way. After out of memory a Parts is only dropped, where the call doesn't say what stands.
#[derive(Drop)]
pub struct Parts {
    pub(crate) alloc: Global,
    pub(crate) memory: MemoryPostings,
    pub(crate) parts: Vec<StoredPart>,
    pub(crate) lists: Lists,
    pub(crate) flush_at: u64,
    pub(crate) next_blob: u64,
    pub(crate) flushes: u64,
    pub(crate) stale: Vec<u64>,
    pub(crate) job: Option<Running>,
}

impl Model for Parts {
    ghost use Rattle.wu_parts.specs.Contents.{Contents};

    ghost Value = { Contents };

    ghost use Rattle.wu_parts.specs.StoredParts.{AreSound};
    ghost use Rattle.wu_parts.specs.ViewOfParts.{contents_of};

    ghost view = { contents_of };

    ghost invariant = { λ p. AreSound p.memory.low p.next_blob p.flushes p.parts.items p.job };
}

impl Parts {
    /// No postings and no parts. Memory is full at `flush_at` postings; `next_blob` is the first number that
    /// [`Parts::draw_blob`] gives. The only error is out of memory.
    pub fn new(alloc: Global, flush_at: u64, next_blob: u64) -> Result<Parts, NoMemory>
        ensures { IfOk result (λ parts. parts ≡ no_contents flush_at next_blob) }
    {
        Ok(Parts {
            alloc,
            memory: MemoryPostings::new(alloc),
            parts: Vec::new(alloc),
            lists: Lists::new(alloc, BLOCKS_KEPT)?,
            flush_at,
            next_blob,
            flushes: 0,
            stale: Vec::new(alloc),
            job: None,
        })
    }

    /// The parts of these records, as the store has them, without a posting in memory. Memory is full at
    /// `flush_at` postings; `next_blob` is the first number that [`Parts::draw_blob`] gives, and `flushes` is how
    /// many flushes made a part. From left to right the spans ascend and are apart, and generations never rise; no
    /// part has more postings than its span has addresses; the blobs are below `next_blob`; `flushes` is at least the
    /// sum of 2^g over the parts' generations g, and below 2^63.
    ///
    /// Of each part, from left to right, the header of 16 bytes and then the directory are read, each in one read,
    /// and no block. No change is made to the store.
    ///
    /// Errors are out of memory; a fault of the store, only where it had one in this call; and the leftmost part that
    /// is damaged, whose header was read in this call: its blob is absent, or has another size in bytes than recorded,
    /// or no directory, or one that tells another generation, span or number of postings.
    pub fn load<D: Store>(
        alloc: Global,
        store: &mut D,
        records: &[PartRec],
        flush_at: u64,
        next_blob: u64,
        flushes: u64,
    ) -> Result<Parts, Trouble>
        requires { AreLoadable records.now next_blob flushes }
        ensures loaded { IfOk result (IsLoaded (D.holds store.old) records.now flush_at next_blob flushes
            (D.reads store.old) (D.reads store.new)) }
        ensures fronts { ReadsFronts (D.holds store.old) records.now (D.reads store.old) (D.reads store.new) }
        ensures holds { D.holds store.new ≡ D.holds store.old }
        ensures moments { D.moments store.new ≡ D.moments store.old }
        ensures calm { OnOk result (D.faults store.new ≡ D.faults store.old) }
        ensures cause { IfErr result (IsLoadCause (D.holds store.old) records.now (D.faults store.old) (D.faults store.new)
            (D.reads store.old) (D.reads store.new)) }
    {
        let parts = open_parts(alloc, store, records)?;
        Ok(Parts {
            alloc,
            memory: MemoryPostings::from_address(alloc, end_of(records)),
            parts,
            lists: Lists::new(alloc, BLOCKS_KEPT)?,
            flush_at,
            next_blob,
            flushes,
            stale: Vec::new(alloc),
            job: None,
        })
    }

    /// Puts the tokens' terms into memory, at the addresses of the range, one each in their order: there are as many
    /// tokens as addresses. A term has 1 to 64 bytes. The range stands after all addresses that were added or loaded,
    /// and ends at or before 2^47. The only error is out of memory.
    pub fn add(&mut self, tokens: &[Token], range: Range) -> Result<(), NoMemory>
        requires count { length tokens.now ≡ range.len }
        requires terms { All (λ token. IsTerm token.term) tokens.now }
        requires after { self.old.memory.end ≤ range.start }
        requires bounded { range.start + range.len ≤ ADDRESSES_MAX }
        ensures terms { OnOk result (GainsTerms range.start (map (λ token. token.term) tokens.now) self.old self.new) }
        ensures others { self.new ≡ record self.old { memory = self.new.memory } }
    {
        self.memory.add(tokens, range.start)
    }

    /// Puts the terms of a text's tokens into memory, at the addresses from `start` on, one each, and gives
    /// their number: what [`Parts::add`] does with the tokens of the text, and without a list of them. The text
    /// has at most 16,777,216 bytes; `start` stands after all addresses that were added or loaded, and the tokens'
    /// addresses end at or before 2^47. The only error is out of memory.
    pub fn add_text(&mut self, text: &[u8], start: u64) -> Result<u64, NoMemory>
        requires short { length text.now ≤ TEXT_MAX }
        requires after { self.old.memory.end ≤ start }
        requires bounded { start + length (tokens_of text.now) ≤ ADDRESSES_MAX }
        ensures count { IfOk result (λ count. count ≡ length (tokens_of text.now)) }
        ensures terms { OnOk result (GainsTerms start (tokens_of text.now) self.old self.new) }
        ensures others { self.new ≡ record self.old { memory = self.new.memory } }
    {
        self.memory.add_text(text, start)
    }

    /// Makes a part of the live postings in memory, right of all others, and forgets memory: the dead ones are
    /// dropped, and where none is live no part is made and the store is not asked. A posting is live where its
    /// address lies in a range of `space`. The number of the next blob and that of the flushes, each with 1 added,
    /// are below 2^63.
    ///
    /// The part is put into the blob of the next number; nothing is read of the store. Nothing but the number of the
    /// next blob is changed before the store has the part. Errors are out of memory, when the store has what it had,
    /// and a fault of the store, only where it had one in this call. After an error all but that number is kept.
    pub fn flush<D: Store>(&mut self, store: &mut D, space: &Space) -> Result<(), Trouble>
        requires blob { self.old.next_blob + 1 < 2 ^ 63 }
        requires flushes { self.old.flushes + 1 < 2 ^ 63 }
        ensures flushed { OnOk result ((low high : ℕ) (postings : List Posting) → HasPostings low high self.old.memory postings
            → Flushes (live_of (map (λ file. file.1) space.now.ranges) postings) self.old self.new
            (D.holds store.old, D.moments store.old) (D.holds store.new, D.moments store.new)) }
        ensures changes { OnOk result (EmptiesMemory self.old self.new) }
        ensures unchanged { OnErr result (self.new ≡ record self.old { next_blob = self.new.next_blob }) }
        ensures drawn { OnErr result ((self.new.next_blob ≡ self.old.next_blob + 1) ⊎ ((self.new ≡ self.old) × (store.new ≡ store.old))) }

        // Where no number is drawn, the store is as it was; and none is drawn where no posting in memory is live.
        ensures untouched { self.new.next_blob ≡ self.old.next_blob → store.new ≡ store.old }
        ensures undrawn { (low high : ℕ) (postings : List Posting) → HasPostings low high self.old.memory postings
            → live_of (map (λ file. file.1) space.now.ranges) postings ≡ [] → self.new.next_blob ≡ self.old.next_blob }

        // Whatever is answered, only the blob of the next number may differ.
        ensures elsewhere { (written : Option (List ℕ))
            × MayDo (with_blob self.old.next_blob written) (D.holds store.old) (D.holds store.new) }
        ensures tried { (written : Option (List ℕ))
            × MayDo (try_change (Put self.old.next_blob) (with_blob self.old.next_blob written))
            (D.moments store.old) (D.moments store.new) }
        ensures memory { IfErr result (λ trouble. trouble ≡ RanOutOfMemory
            → (D.holds store.new ≡ D.holds store.old) × (D.moments store.new ≡ D.moments store.old)) }
        ensures unread { D.reads store.new ≡ D.reads store.old }
        ensures calm { OnOk result (D.faults store.new ≡ D.faults store.old) }
        ensures cause { IfErr result (IsStoreCause (D.faults store.old) (D.faults store.new)) }
    {
        let _untouched = &*store;
        let lists = self.memory.live_lists(space)?;
        if lists.is_empty() {
            self.memory.clear();
            return Ok(());
        }
        self.parts.reserve(1)?;
        let blob = self.next_blob;
        self.next_blob = blob + 1;
        let part = put_part(self.alloc, store, blob, lists)?;
        self.parts.push(part)?;
        self.flushes += 1;
        self.memory.clear();
        Ok(())
    }

    /// Whether memory has at least so many postings as make it full.
    pub fn full(&self) -> bool
        ensures { IsTrue result ↔ (self.now.flush_at ≤ self.now.memory.stored) }
    {
        self.memory.stored() >= self.flush_at
    }

    /// How many postings there are, in memory and in parts, those of texts that are gone too.
    pub fn stored(&self) -> u64
        ensures { result ≡ stored_in self.now }
    {
        self.memory.stored() + stored_in_all(self.parts.as_slice())
    }

    /// How many addresses the parts have of the term, those of texts that are gone too, or `u64::MAX`
    /// where that is less. Takes no memory and reads nothing, and time logarithmic in the number of
    /// terms for each part.
    pub fn count_of(&self, term: &[u8]) -> u64
        ensures { result ≡ min (counted_of term.now self.now.directories) (2 ^ 64 - 1) }
    {
        count_in_all(&self.parts, term)
    }

    /// How many parts there are.
    pub fn count(&self) -> u64
        ensures { result ≡ length self.now.parts }
    {
        self.parts.len() as u64
    }

    /// What is recorded of the part at that place from the left, or None where there are no more.
    pub fn part(&self, i: usize) -> Option<PartRec>
        ensures { result ≡ slice_get self.now.parts i }
    {
        match self.parts.get(i) {
            Some(part) => Some(part.recorded),
            None => None,
        }
    }

    /// How many flushes made a part.
    pub fn flushes(&self) -> u64
        ensures { result ≡ self.now.flushes }
    {
        self.flushes
    }

    /// The number of the blob that is drawn next.
    pub fn next_blob(&self) -> u64
        ensures { result ≡ self.now.next_blob }
    {
        self.next_blob
    }

    /// Gives the number of a new blob, which is given once. The next number is below 2^63. There is no error.
    pub fn draw_blob(&mut self) -> u64
        requires { self.old.next_blob < 2 ^ 63 }
        ensures blob { result ≡ self.old.next_blob }
        ensures next { self.new ≡ record self.old { next_blob = self.old.next_blob + 1 } }
    {
        let blob = self.next_blob;
        self.next_blob += 1;
        blob
    }

    /// Notes that the blob is no longer needed. Out of memory, all is as it was.
    pub fn retire(&mut self, blob: u64) -> Result<(), NoMemory>
        ensures ok { OnOk result (self.new ≡ record self.old { stale = self.old.stale ++ blob ∷ [] }) }
        ensures err { OnErr result (self.new ≡ self.old) }
    {
        self.stale.push(blob)?;
        Ok(())
    }

    /// The numbers of the blobs that are no longer needed, in the order in which they were noted.
    pub fn stale(&self) -> &[u64]
        ensures { result.now ≡ self.now.stale }
    {
        self.stale.as_slice()
    }

    /// Forgets the blobs that are no longer needed, since they were removed. Takes no memory.
    pub fn clear_stale(&mut self)
        ensures { self.new ≡ record self.old { stale = [] } }
    {
        self.stale.clear();
    }
}

/// How many postings the parts have.
fn stored_in_all(parts: &[StoredPart]) -> u64
    requires { stored_in_parts (records_of parts.now) < 2 ^ 64 }
    ensures { result ≡ stored_in_parts (records_of parts.now) }
{
    parts.iter().map(|part| part.recorded.stored).sum()
}

/// How many addresses the parts have of the term, or `u64::MAX` where that is less.
fn count_in_all(parts: &[StoredPart], term: &[u8]) -> u64
    ensures { result ≡ min (counted_of term.now (directories_of parts.now)) (2 ^ 64 - 1) }
{
    let mut count: u64 = 0;
    for part in parts {
        count = count.saturating_add(count_of(&part.directory, term));
    }
    count
}
