//! Postings in memory.
ghost use Rattle.std.specs.Prelude.{◌≡◌, ℕ, List, [], ◌+◌, ◌-◌, ◌++◌, ◌^◌, ◌<◌, ◌≤◌, All, length, map, filter, OnOk, OnErr, IfOk};
ghost use Rattle.std.specs.Map.{keys_of};
ghost use Rattle.wu_layout.specs.Layouts.{lists_of};
ghost use Rattle.wu_layout.specs.Postings.{Posting, is_live, live_of};
ghost use Rattle.wu_base.specs.Ranges.{AreApart};
ghost use Rattle.wu_token.specs.Words.{IsTerm};
ghost use Rattle.wu_token.specs.Tokens.{tokens_of};
ghost use Rattle.wu_token.specs.Pieces.{line_terms, piece_of};
ghost use Rattle.wu_parts.specs.Candidates.{GainsCandidates};
ghost use Rattle.wu_parts.specs.Memory.{HasPostings, emptied, held, no_postings};
ghost use Rattle.wu_lists.specs.Ascending.{AscendBetween, AreInOrder};
ghost use Rattle.wu_lists.specs.Tallying.{Counts};
ghost use Rattle.wu_parts.specs.Lists.{with_posting, with_terms};
ghost use Rattle.wu_parts.specs.LiveLists.{AreEncodable};

use crate::addressing::Addressing;
use crate::chains::{Chain, addresses_from, forget, put};
use crate::flushing::{by_term, cut_to_live};
use crate::frames::first_start;
use indexmap::IndexMap;
use std::alloc::Global;
use std::marker::Model;
use wu_base::{ADDRESSES_MAX, NoMemory, Range, Sequence, TEXT_MAX};
use wu_lists::{Tally, put_within, tally_within};
use wu_part::Builder;
use wu_space::Space;
use wu_terms::Candidates;
use wu_token::{FILE_END, FILE_START, LINE_END, LINE_START, Lines, Piece, Token, Word};

/// The postings that are in memory, as chains of places: each posting has one, and `addressing` tells
/// the address of each. Contracts see the addresses of each term, the number of postings, the first
/// address above all of them, and one below none of them: where the last flush ended.
#[derive(Drop)]
pub(crate) struct MemoryPostings {
    alloc: Global,
    chains: IndexMap<Vec<u8>, Chain>,
    before: Vec<u32>,
    addressing: Addressing,
    low: u64,
}

impl Model for MemoryPostings {
    ghost use Rattle.wu_parts.specs.Memory.{Memory};

    ghost Value = { Memory };

    ghost use Rattle.wu_parts.specs.Chains.{memory_of, IsKept};

    ghost view = { λ m. memory_of m.low m.addressing m.before.items m.chains.entries };

    ghost invariant = { λ m. IsKept m.low m.addressing m.before.items m.chains.entries };
}

impl MemoryPostings {
    /// No postings. Takes no memory.
    pub(crate) fn new(alloc: Global) -> MemoryPostings
        ensures { result ≡ no_postings }
    {
        MemoryPostings::from_address(alloc, 0)
    }

    /// No postings, and none to come below the address. Takes no memory.
    pub(crate) fn from_address(alloc: Global, address: u64) -> MemoryPostings
        requires { address ≤ ADDRESSES_MAX }
        ensures { result ≡ record { lists = []; stored = 0; low = address; end = address } }
    {
        MemoryPostings {
            alloc,
            chains: IndexMap::new(alloc),
            before: Vec::new(alloc),
            addressing: Addressing::from_start(alloc, address),
            low: address,
        }
    }

    /// How many postings there are.
    pub(crate) fn stored(&self) -> u64
        ensures stored { result ≡ self.now.stored }
        ensures room { self.now.low + self.now.stored ≤ self.now.end }
        ensures bounded { self.now.end ≤ ADDRESSES_MAX }
    {
        self.before.len() as u64
    }

    /// The first address above all postings.
    fn end(&self) -> u64
        ensures { result ≡ self.now.end }
    {
        self.addressing.address_of(self.before.len() as u32)
    }

    /// Makes the address the one of the next posting. Out of memory, all is as it was.
    fn pass_to(&mut self, address: u64) -> Result<(), NoMemory>
        requires after { self.old.end ≤ address }
        requires bounded { address ≤ ADDRESSES_MAX }
        ensures ok { OnOk result (self.new ≡ record self.old { end = address }) }
        ensures err { OnErr result (self.new ≡ self.old) }
    {
        if self.before.is_empty() {
            self.addressing = Addressing::from_start(self.alloc, address);
            return Ok(());
        }
        if self.end() == address {
            return Ok(());
        }
        self.addressing.break_at(self.before.len() as u32, address)?;
        Ok(())
    }

    /// Notes that the term stands at the end. Out of memory, all is as it was.
    fn push(&mut self, term: &[u8]) -> Result<(), NoMemory>
        requires term { IsTerm term.now }
        requires bounded { self.old.end < ADDRESSES_MAX }
        ensures ok { OnOk result (self.new ≡ with_posting self.old self.old.end term.now) }
        ensures err { OnErr result (self.new ≡ self.old) }
    {
        put(self.alloc, &mut self.chains, &mut self.before, term)?;
        Ok(())
    }

    /// Notes the terms of the tokens at the addresses from `start` on, one each. Out of memory, some of
    /// them may have been noted.
    pub(crate) fn add(&mut self, tokens: &[Token], start: u64) -> Result<(), NoMemory>
        requires terms { All (λ token. IsTerm token.term) tokens.now }
        requires after { self.old.end ≤ start }
        requires bounded { start + length tokens.now ≤ ADDRESSES_MAX }
        ensures terms { OnOk result (self.new ≡ with_terms self.old start (map (λ token. token.term) tokens.now)) }
        ensures low { self.new.low ≡ self.old.low }
    {
        if tokens.is_empty() {
            return Ok(());
        }
        self.pass_to(start)?;
        for token in tokens {
            self.push(token.term.as_slice())?;
        }
        Ok(())
    }

    /// Notes the terms of a text's tokens at the addresses from `start` on, one each, and gives their
    /// number. Takes no memory but for postings. Out of memory, some of them may have been noted.
    pub(crate) fn add_text(&mut self, text: &[u8], start: u64) -> Result<u64, NoMemory>
        requires short { length text.now ≤ TEXT_MAX }
        requires after { self.old.end ≤ start }
        requires bounded { start + length (tokens_of text.now) ≤ ADDRESSES_MAX }
        ensures count { IfOk result (λ count. count ≡ length (tokens_of text.now)) }
        ensures terms { OnOk result (self.new ≡ with_terms self.old start (tokens_of text.now)) }
        ensures low { self.new.low ≡ self.old.low }
    {
        self.pass_to(start)?;
        self.push(FILE_START)?;
        for line in Lines::of_text(text) {
            self.add_line(line)?;
        }
        self.push(FILE_END)?;
        Ok(self.end() - start)
    }

    /// Notes the terms of a line from the end on.
    fn add_line(&mut self, line: Piece) -> Result<(), NoMemory>
        requires { self.old.end + length (line_terms (piece_of line)) ≤ ADDRESSES_MAX }
        ensures terms { OnOk result (self.new ≡ with_terms self.old self.old.end (line_terms (piece_of line.entry))) }
        ensures low { self.new.low ≡ self.old.low }
    {
        self.push(LINE_START)?;
        for run in line.runs() {
            self.push(Word::of_run(run.bytes).as_slice())?;
        }
        self.push(LINE_END)?;
        Ok(())
    }

    /// The lists of the live postings, by the bytes of their terms: those of a part, which is being built of them. Each
    /// posting that stands at a dead address is left out.
    pub(crate) fn live_lists(&self, space: &Space) -> Result<Builder, NoMemory>
        ensures lists { IfOk result (λ lists. (low high : ℕ) (postings : List Posting) → HasPostings low high self.now postings
            → lists.lists ≡ lists_of (live_of (map (λ file. file.1) space.now.ranges) postings)) }
        ensures encodable { IfOk result (λ lists. AreEncodable lists.lists) }
        ensures has { (postings : List Posting) × HasPostings self.now.low self.now.end self.now postings }
        ensures bounded { self.now.end ≤ ADDRESSES_MAX }
    {
        space.keeps_the_rules();
        let live = space.live_ranges(self.addressing.start(), self.end())?;
        let entries = by_term(self.alloc, &self.chains)?;
        cut_to_live(self.alloc, &entries, &self.before, &self.addressing, &live)
    }

    /// Adds the terms of which there are postings. Out of memory, some of them may have been added.
    pub(crate) fn add_terms(&self, words: &mut Candidates) -> Result<(), NoMemory>
        ensures { OnOk result (GainsCandidates (keys_of self.now.lists) words.old words.new) }
    {
        for (term, _) in self.chains.iter() {
            words.add_term(term.as_slice())?;
        }
        Ok(())
    }

    /// Forgets the postings, and gives their memory back. No address below the end is used again.
    pub(crate) fn clear(&mut self)
        ensures { self.new ≡ emptied self.old }
    {
        self.low = self.end();
        self.addressing = Addressing::from_start(self.alloc, self.low);
        forget(self.alloc, &mut self.chains, &mut self.before);
    }

    /// The addresses of the term that lie in the frames, ascending. Takes no time for those below the first
    /// frame. The only error is out of memory.
    pub(crate) fn fetch(&self, term: &[u8], frames: &[Range]) -> Result<Sequence<u64>, NoMemory>
        requires apart { AreApart frames.now }
        requires bounded { All (λ frame. frame.start + frame.len ≤ ADDRESSES_MAX) frames.now }
        ensures addresses { IfOk result (λ found. found ≡ filter (is_live frames.now) (held self.now term.now)) }
        ensures ascend { IfOk result (AscendBetween self.now.low self.now.end) }
        ensures bounded { self.now.end ≤ ADDRESSES_MAX }
    {
        let mut found = Vec::new(self.alloc);
        self.fetch_into(term, frames, &mut found)?;
        Ok(Sequence::from(found))
    }

    /// Appends the addresses that [`MemoryPostings::fetch`] gives. Out of memory, some may have been appended.
    pub(crate) fn fetch_into(
        &self,
        term: &[u8],
        frames: &[Range],
        found: &mut Vec<u64>,
    ) -> Result<(), NoMemory>
        requires apart { AreApart frames.now }
        requires bounded { All (λ frame. frame.start + frame.len ≤ ADDRESSES_MAX) frames.now }
        ensures addresses { OnOk result (found.new.items ≡ found.old.items ++ filter (is_live frames.now) (held self.now term.now)) }
        ensures ascend { AscendBetween self.now.low self.now.end (filter (is_live frames.now) (held self.now term.now)) }
        ensures bounded { self.now.end ≤ ADDRESSES_MAX }
    {
        let addresses = self.addresses_near(term, frames)?;
        put_within(found, &addresses, frames)
    }

    /// Counts the addresses that [`MemoryPostings::fetch`] gives, and the frames that have one. That is exact as long
    /// as the addresses that are counted ascend. Out of memory, nothing was counted.
    pub(crate) fn tally_into(
        &self,
        term: &[u8],
        frames: &[Range],
        tally: &mut Tally,
    ) -> Result<(), NoMemory>
        requires apart { AreApart frames.now }
        requires bounded { All (λ frame. frame.start + frame.len ≤ ADDRESSES_MAX) frames.now }
        ensures addresses { OnOk result (Counts frames.now (filter (is_live frames.now) (held self.now term.now)) tally.old tally.new) }
        ensures ascend { AscendBetween self.now.low self.now.end (filter (is_live frames.now) (held self.now term.now)) }
        ensures bounded { self.now.end ≤ ADDRESSES_MAX }
        ensures unchanged { OnErr result (tally.new ≡ tally.old) }
    {
        // A list is made here too, since a chain is walked backwards.
        let addresses = self.addresses_near(term, frames)?;
        tally_within(tally, &addresses, frames);
        Ok(())
    }

    /// The addresses of the term from the start of the first frame on, ascending.
    fn addresses_near(&self, term: &[u8], frames: &[Range]) -> Result<Vec<u64>, NoMemory>
        requires apart { AreApart frames.now }
        requires bounded { All (λ frame. frame.start + frame.len ≤ ADDRESSES_MAX) frames.now }
        ensures order { AreInOrder 0 (2 ^ 64 - 1) frames.now }
        ensures live { IfOk result (λ near. filter (is_live frames.now) near.items ≡ filter (is_live frames.now) (held self.now term.now)) }
        ensures near { IfOk result (λ near. AscendBetween 0 (2 ^ 64 - 1) near.items) }
        ensures ascend { AscendBetween self.now.low self.now.end (filter (is_live frames.now) (held self.now term.now)) }
        ensures bounded { self.now.end ≤ ADDRESSES_MAX }
    {
        match self.chains.get(term) {
            Some(chain) => {
                let low = first_start(frames);
                addresses_from(self.alloc, *chain, &self.before, &self.addressing, low)
            }
            None => Ok(Vec::new(self.alloc)),
        }
    }
}
