//! Jobs on parts, as a log-structured index has them: Büttcher, Clarke and Cormack, Information Retrieval,
//! chapter 7.
ghost use Rattle.std.specs.Prelude.{◌≡◌, ℕ, ◌+◌, ◌-◌, ◌^◌, ◌<◌, ◌≤◌, ◌∷◌, ◌++◌, [], eqb, length, map, min, sum_by, All, IfOk, IfErr};
ghost use Rattle.std.specs.Prelude.{IfSome, IfNone, OnOk, OnErr};
ghost use Rattle.std.specs.Ordering.{nat_cmp};
ghost use Rattle.std.specs.Cmp.Lexicographic.{slice_cmp};
ghost use Rattle.std.specs.List.{AllByRecursion, IsDistinct, flat_map};
ghost use Rattle.std.specs.List.Sorted.{IsStrictlySortedBy};
ghost use Rattle.wu_base.specs.declared.limits.TheConstants.{ADDRESSES_MAX, GENERATION_MAX};
ghost use Rattle.wu_part.specs.Directories.{PartDirectory};
ghost use Rattle.wu_part.specs.Parts.{IsList, IsRecorded, SpellsPart};
ghost use Rattle.wu_part.specs.Writing.{first_of};
ghost use Rattle.wu_base.specs.Ranges.{AreApart};
ghost use Rattle.wu_job.specs.Jobs.{Answers, DoesTerm, StandWithin, list_for, started};
ghost use Rattle.wu_job.specs.Keeping.{addresses_in};
ghost use Rattle.wu_job.specs.Reading.{IsFoundDamaged};
ghost use Rattle.wu_job.specs.Sources.{AreSources, parts_of};
ghost use Rattle.wu_job.specs.Steps.{HasWholeRanges, IsBroken, IsCause, IsDamaged, ReadsFront, adds, step_ranges};

use crate::lists::live_addresses;
use crate::live::{Cut, LiveRange, first_live, ranked, total};
use crate::marks::{Marks, mark_all};
use crate::sources::{First, Front, Places, Source, are_whole, count_terms, first_of, front_at};
use std::alloc::Global;
use std::marker::Model;
use std::mem;
use wu_base::{
    ADDRESSES_MAX, Bytes, GENERATION_MAX, NoMemory, PartRec, Range, Sequence, TermList, Trouble,
};
use wu_outside::Store;
use wu_part::{Builder, Directory, History};

/// What a step of a job answers.
#[derive(Debug, Drop)]
pub enum Progress {
    /// There are terms left: `units_left()` is at least 1.
    More,
    /// No term is left. The bytes of the new part, or `None` exactly where no posting is left.
    Done(Option<Vec<u8>>),
}

/// The first term that is left, with its live addresses.
#[derive(Drop)]
struct NewList {
    first: First,
    cut: Cut,
}

/// A job on one part or two, between two steps. It keeps copies of their directories and the live ranges of its
/// start, writes the lists that it makes, and goes through the terms of its parts, each once, in byte order. Postings
/// that die while it goes on are kept. After a step that answered a trouble a job is only dropped.
#[derive(Drop)]
pub struct Job {
    alloc: Global,
    left: Source,
    right: Option<Source>,
    places: Places,
    live: Vec<LiveRange>,
    /// A mark for each live address: whether it stands in a list that was made.
    marks: Marks,
    generation: u32,
    /// Writes the lists that are made. Where no term is left, it was taken for the new part.
    done: Builder,
    /// The lists that were made, which only clauses read.
    made: History,
    units_left: u64,
}

impl Model for Job {
    ghost use Rattle.wu_job.specs.Jobs.{JobState};

    ghost Value = { JobState };

    ghost use Rattle.wu_job.specs.Keeping.{IsSound, state_of};

    ghost view = { state_of };

    ghost invariant = { IsSound };
}

impl Job {
    ghost use Rattle.wu_job.specs.Jobs.{AreKept, IsRight, MakesList};
    ghost use Rattle.wu_job.specs.Keeping.{AreFound, IsFirst, IsNewCut, IsNext};

    /// The merge of two neighbours to one part of the next generation, without the postings that are dead now: the
    /// merging of Büttcher, Clarke and Cormack, Information Retrieval, chapter 7. No term is done yet, and there is
    /// one at least.
    ///
    /// Each record tells what its directory tells. Both parts are of one generation, below `GENERATION_MAX`, and
    /// the last address of the left one is below the first of the right one. `live` are the live ranges now,
    /// ascending, none overlapping with another, and each ends at `ADDRESSES_MAX` at the latest.
    ///
    /// Takes time near linear in the sizes of the directories and in the numbers of live ranges and live addresses,
    /// and memory for the directories, the ranges, a bit for each of these addresses, and as many bytes as the
    /// parts have. The one error is out of memory.
    pub fn start_merge(
        alloc: Global,
        left: &PartRec,
        left_dir: &Directory,
        right: &PartRec,
        right_dir: &Directory,
        live: &[Range],
    ) -> Result<Job, NoMemory>
        requires left { IsRecorded left.now left_dir.now }
        requires right { IsRecorded right.now right_dir.now }
        requires alike { left.now.generation ≡ right.now.generation }
        requires generation { left.now.generation < GENERATION_MAX }
        requires order { left.now.high < right.now.low }
        requires apart { AreApart live.now }
        requires bounded { All (λ range. range.start + range.len ≤ ADDRESSES_MAX) live.now }
        ensures job { IfOk result (λ job. job ≡ started (record { recorded = left.now; directory = left_dir.now }
            ∷ record { recorded = right.now; directory = right_dir.now } ∷ []) live.now (left.now.generation + 1)) }
        ensures some { IfOk result (λ job. 0 < length job.terms_left) }
    {
        let first = Source {
            recorded: *left,
            directory: left_dir.copy(alloc)?,
        };
        let second = Source {
            recorded: *right,
            directory: right_dir.copy(alloc)?,
        };
        started(alloc, first, Some(second), live, left.generation + 1)
    }

    /// The rewriting of a part at its own generation, without the postings that are dead now: the collecting of
    /// garbage of Büttcher, Clarke and Cormack, Information Retrieval, chapter 7. No term is done yet, and there is
    /// one at least.
    ///
    /// The record `part` tells what its directory `dir` tells. `live` are the live ranges now, ascending, none
    /// overlapping with another, and each ends at `ADDRESSES_MAX` at the latest.
    ///
    /// Takes time near linear in the size of the directory and in the numbers of live ranges and live addresses,
    /// and memory for the directory, the ranges, a bit for each of these addresses, and as many bytes as the part
    /// has. The one error is out of memory.
    pub fn start_collect(
        alloc: Global,
        part: &PartRec,
        dir: &Directory,
        live: &[Range],
    ) -> Result<Job, NoMemory>
        requires part { IsRecorded part.now dir.now }
        requires apart { AreApart live.now }
        requires bounded { All (λ range. range.start + range.len ≤ ADDRESSES_MAX) live.now }
        ensures job { IfOk result (λ job. job ≡ started (record { recorded = part.now; directory = dir.now } ∷ []) live.now
            part.now.generation) }
        ensures some { IfOk result (λ job. 0 < length job.terms_left) }
    {
        let source = Source {
            recorded: *part,
            directory: dir.copy(alloc)?,
        };
        started(alloc, source, None, live, part.generation)
    }

    /// How many steps there are to do, one for each term that is left: 0 exactly where the job is done. Takes no
    /// memory, and constant time.
    pub fn units_left(&self) -> u64
        ensures { result ≡ length self.now.terms_left }
    {
        self.units_left
    }

    /// Returns nothing and does nothing, in constant time: its clause says that the addresses of the lists that
    /// were made lie from the first address of the first part to the last one of the last part, as they do at
    /// every moment. Proofs of callers cite it.
    pub fn stays_within_its_parts(&self)
        ensures { StandWithin self.now.parts (flat_map (λ list. list.at) self.now.done) }
    {
        let _units_left = self.units_left;
    }

    /// Does the first term that is left, of which there is one at least: reads its blocks in the parts, from left to
    /// right, each whole in one read and no other range of a blob, and keeps of its addresses those that were live when
    /// the job began. Done comes exactly with the last term. On Ok each block lay whole in its blob and was the spelling
    /// of addresses as the directory tells, and no address that was kept stands in two lists.
    ///
    /// Of the parts that have the term one is damaged, named by its blob, exactly where the blob is absent or ends
    /// before the end of one of the term's blocks, where such a block isn't the spelling of addresses as the directory
    /// tells, or where a live address of the term stands in a list that was made, as far as no other error comes
    /// first. The other errors are a fault of the store, only where its count rose, and out of memory. After an error
    /// some of these blocks were read, from the first one on, and the job is only dropped.
    pub fn step<D: Store>(&mut self, store: &mut D) -> Result<Progress, Trouble>
        requires { 0 < length self.old.terms_left }
        ensures term { OnOk result (DoesTerm (D.holds store.old) self.old self.new) }
        ensures right { OnOk result (IfSome (D.holds store.old) (λ content. IsRight content self.old → IsRight content self.new)) }
        ensures distinct { OnOk result (IsDistinct eqb (flat_map (λ list. list.at) self.new.done)) }
        ensures answer { IfOk result (Answers self.new) }
        ensures whole { OnOk result (IfSome (D.holds store.old) (λ content.
            HasWholeRanges content (step_ranges self.old.terms_left self.old.parts))) }
        ensures holds { D.holds store.new ≡ D.holds store.old }
        ensures still { D.moments store.new ≡ D.moments store.old }
        ensures reads { OnOk result (D.reads store.new ≡ adds (step_ranges self.old.terms_left self.old.parts) (D.reads store.old)) }
        ensures front { IfErr result (ReadsFront (step_ranges self.old.terms_left self.old.parts) (D.reads store.old)
            (D.reads store.new)) }
        ensures calm { OnOk result (D.faults store.new ≡ D.faults store.old) }
        ensures cause { IfErr result (IsCause (IsDamaged (D.holds store.old) self.old) (D.faults store.old) (D.faults store.new)) }
        ensures broken { IfErr result (λ trouble. (blob : ℕ) → trouble ≡ Trouble.Damaged blob
            → IsBroken (D.holds store.old) self.old blob) }
    {
        let list = self.read_first(store)?;
        Ok(self.put(list.first, list.cut)?)
    }

    /// The first term that is left, and its live addresses. Its entries are found in the parts' directories once.
    fn read_first<D: Store>(&self, store: &mut D) -> Result<NewList, Trouble>
        requires { 0 < length self.now.terms_left }
        ensures next { IfOk result (λ list. IsNext self.now list.first.term list.first.after) }
        ensures new { IfOk result (λ list. IsNewCut self.now list.cut) }
        ensures held { IfOk result (λ list. IfSome (D.holds store.old) (λ content.
            AreKept content self.now.parts self.now.live list.first.term list.cut.addresses.items)) }
        ensures whole { OnOk result (IfSome (D.holds store.old) (λ content.
            HasWholeRanges content (step_ranges self.now.terms_left self.now.parts))) }
        ensures holds { D.holds store.new ≡ D.holds store.old }
        ensures still { D.moments store.new ≡ D.moments store.old }
        ensures reads { OnOk result (D.reads store.new ≡ adds (step_ranges self.now.terms_left self.now.parts) (D.reads store.old)) }
        ensures front { IfErr result (ReadsFront (step_ranges self.now.terms_left self.now.parts) (D.reads store.old)
            (D.reads store.new)) }
        ensures calm { OnOk result (D.faults store.new ≡ D.faults store.old) }
        ensures cause { IfErr result (IsCause (IsFoundDamaged (D.holds store.old) self.now) (D.faults store.old) (D.faults store.new)) }
    {
        are_whole(&self.left, &self.right);
        let front = front_at(&self.left, &self.right, self.places);
        let first = first_of(self.alloc, &self.left, &self.right, self.places, &front)?;
        let cut = self.read_live(store, front, first.term.as_slice())?;
        Ok(NewList { first, cut })
    }

    /// The live addresses of the term in the parts, of which none stands in a list that was made.
    fn read_live<D: Store>(
        &self,
        store: &mut D,
        front: Front<'_>,
        term: &[u8],
    ) -> Result<Cut, Trouble>
        requires first { IsFirst term.now self.now }
        requires front { AreFound self.now.parts term.now front.left front.right }
        ensures new { IfOk result (IsNewCut self.now) }
        ensures held { IfOk result (λ cut. IfSome (D.holds store.old) (λ content.
            AreKept content self.now.parts self.now.live term.now cut.addresses.items)) }
        ensures whole { OnOk result (IfSome (D.holds store.old) (λ content.
            HasWholeRanges content (step_ranges self.now.terms_left self.now.parts))) }
        ensures holds { D.holds store.new ≡ D.holds store.old }
        ensures still { D.moments store.new ≡ D.moments store.old }
        ensures reads { OnOk result (D.reads store.new ≡ adds (step_ranges self.now.terms_left self.now.parts) (D.reads store.old)) }
        ensures front { IfErr result (ReadsFront (step_ranges self.now.terms_left self.now.parts) (D.reads store.old)
            (D.reads store.new)) }
        ensures calm { OnOk result (D.faults store.new ≡ D.faults store.old) }
        ensures cause { IfErr result (IsCause (IsFoundDamaged (D.holds store.old) self.now) (D.faults store.old) (D.faults store.new)) }
    {
        are_whole(&self.left, &self.right);
        let alloc = self.alloc;
        let mut cut = live_addresses(
            alloc,
            store,
            &self.left,
            front.left,
            term,
            &self.live,
            &self.marks,
        )?;
        match &self.right {
            None => Ok(cut),
            Some(right) => {
                let more = live_addresses(
                    alloc,
                    store,
                    right,
                    front.right,
                    term,
                    &self.live,
                    &self.marks,
                )?;
                cut.append(&more)?;
                Ok(cut)
            }
        }
    }

    /// Keeps the term's list, where it has an address, and goes on to the next term. After the last one the part is
    /// handed out.
    fn put(&mut self, first: First, cut: Cut) -> Result<Progress, NoMemory>
        requires next { IsNext self.old first.term first.after }
        requires new { IsNewCut self.old cut }
        ensures made { OnOk result (MakesList first.term cut.addresses.items self.old self.new) }
        ensures distinct { OnOk result (IsDistinct eqb (addresses_in self.new.done)) }
        ensures answer { IfOk result (Answers self.new) }
    {
        put_list(&mut self.done, &mut self.made, first.term, cut.addresses)?;
        mark_all(&mut self.marks, &cut.places);
        self.places = first.after;
        self.units_left -= 1;
        if self.units_left > 0 {
            return Ok(Progress::More);
        }
        let done = mem::replace(&mut self.done, Builder::new(self.alloc, 0));
        let made = part_of(done, self.generation)?;
        Ok(Progress::Done(made))
    }
}

/// A job on these parts that has done no term.
fn started(
    alloc: Global,
    left: Source,
    right: Option<Source>,
    live: &[Range],
    generation: u32,
) -> Result<Job, NoMemory>
    requires sources { AreSources left right }
    requires apart { AreApart live.now }
    requires bounded { All (λ range. range.start + range.len ≤ ADDRESSES_MAX) live.now }
    requires generation { generation ≤ GENERATION_MAX }
    ensures job { IfOk result (λ job. job ≡ started (parts_of left right) live.now generation) }
    ensures some { IfOk result (λ job. 0 < length job.terms_left) }
{
    let units_left = count_terms(&left, &right);
    let live = ranked(alloc, live)?;
    let marks = Marks::none(alloc, total(&live))?;
    let low = first_live(&live, left.directory.low());
    let done = Builder::with_room(alloc, low, size_of_parts(&left, &right))?;
    Ok(Job {
        alloc,
        left,
        right,
        places: Places::START,
        live,
        marks,
        generation,
        done,
        made: History::new(),
        units_left,
    })
}

/// How many bytes the parts have, which the new part mostly has too at most.
fn size_of_parts(left: &Source, right: &Option<Source>) -> usize
    ensures { result ≡ min (sum_by (λ part. part.recorded.size) (parts_of left.now right.now)) (2 ^ 64 - 1) }
{
    let other = match right {
        Some(source) => source.recorded.size,
        None => 0,
    };
    left.recorded.size.saturating_add(other) as usize
}

/// Adds the term's list, where it has an address. Out of memory, the lists are as they were.
fn put_list(
    lists: &mut Builder,
    made: &mut History,
    term: Bytes,
    addresses: Vec<u64>,
) -> Result<(), NoMemory>
    requires lists { AllByRecursion IsList (list_for term addresses.items) }
    requires low { AllByRecursion (λ list. lists.old.low ≤ first_of list.at) (list_for term addresses.items) }
    ensures ok { OnOk result (lists.new ≡ record lists.old { lists = lists.old.lists ++ list_for term addresses.items }) }
    ensures made { OnOk result (made.new.lists ≡ made.old.lists ++ list_for term addresses.items) }
    ensures err { OnErr result ((lists.new ≡ lists.old) × (made.new.lists ≡ made.old.lists)) }
{
    if addresses.is_empty() {
        return Ok(());
    }
    let list = TermList {
        term,
        at: Sequence::from(addresses),
    };
    lists.add(&list)?;
    *made = History::with(made, &list);
    Ok(())
}

/// The bytes of the part of the lists, or None where there are none, which takes no memory.
fn part_of(lists: Builder, generation: u32) -> Result<Option<Vec<u8>>, NoMemory>
    requires ascending { IsStrictlySortedBy (slice_cmp nat_cmp) (map (λ list. list.term) lists.lists) }
    requires distinct { IsDistinct eqb (addresses_in lists.lists) }
    requires generation { generation ≤ GENERATION_MAX }
    ensures some { IfOk result (λ part. IfSome part (λ bytes. (0 < length lists.lists) × (directory : PartDirectory)
        × (directory.generation ≡ generation) × SpellsPart directory lists.lists bytes.items)) }
    ensures none { IfOk result (λ part. IfNone part (lists.lists ≡ [])) }
    ensures err { OnErr result (0 < length lists.lists) }
{
    if lists.is_empty() {
        return Ok(None);
    }
    let bytes = lists.finish(generation)?;
    Ok(Some(bytes))
}
