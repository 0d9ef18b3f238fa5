//! The answer to a query, over the frames of the user who asks.
ghost use Rattle.std.specs.Prelude.{◌≡◌, ℕ, IfOk, IfErr, OnOk};
ghost use Rattle.std.specs.List.{AllByRecursion};
ghost use Rattle.wu_ask.specs.Questions.{question_of, IsSoundAsk};
ghost use Rattle.wu_frames.specs.UserFrames.{HasAsked};
ghost use Rattle.wu_outside.specs.Reading.{OnlyReads};
ghost use Rattle.wu_parts.specs.Candidates.{terms_held};
ghost use Rattle.wu_query.specs.Answer.{answer};
ghost use Rattle.wu_query.specs.Asked.{blocks_for, terms_asked};
ghost use Rattle.wu_query.specs.Causes.{IsDamagedFor, IsDamagedOver};
ghost use Rattle.wu_query.specs.Finding.{AreTextsOf, CanBeRead, IsQueryCause, KeepsTexts};
ghost use Rattle.wu_query.specs.Permitted.{AreReadForQuery, ReadsSuch};
ghost use Rattle.wu_query.specs.Reads.{AreTexts, ReadsForQuery, ReadsInTurn, texts_read};
ghost use Rattle.wu_query.specs.Soundness.{IsSound};
ghost use Rattle.wu_query.specs.States.{State};
ghost use Rattle.wu_query.specs.Searched.{Indexes, IsIndexOf, TellsPostings};
ghost use Rattle.wu_query.specs.Units.{CanBeSearched};
ghost use Rattle.wu_query.specs.View.{view_of};

use crate::counting::count;
use crate::exporting::export;
use crate::finding::find;
use crate::listing::paths;
use crate::ranking::{Wanted, ranked};
use crate::terms::user_terms;
use std::alloc::Global;
use std::collections::BTreeMap;
use wu_ask::{Answered, Ask, Query};
use wu_base::{Ino, Trouble};
use wu_frames::{FrameCache, Frames};
use wu_image::FileRec;
use wu_outside::Store;
use wu_parts::Parts;
use wu_space::Space;
use wu_tree::Tree;

/// The answer to the query. The user's frames are kept for her next one.
///
/// Errors are out of memory; a fault of the store, only where it had one in this call; and a blob, damaged: a part of
/// which this call read a block that the query needs, or a text that it read.
pub fn answered<D: Store>(
    alloc: Global,
    store: &mut D,
    tree: &Tree,
    space: &Space,
    parts: &mut Parts,
    files: &BTreeMap<Ino, FileRec>,
    kept: &mut FrameCache,
    query: &Query,
) -> Result<Answered, Trouble>
    requires sound { IsSound tree.now space.now parts.old files.now.entries kept.old }
    requires ask { IsSoundAsk query.now.ask }
    ensures answer { IfOk result (λ answered. (s : State) → tree.now ≡ s.tree → IsIndexOf space.now.ranges s
        → TellsPostings parts.old (D.holds store.old) s → KeepsTexts files.now.entries (D.holds store.old) s
        → answered ≡ answer (view_of s query.now.uid) (question_of query.now.ask)) }
    ensures sound { IsSound tree.now space.now parts.new files.now.entries kept.new }
    ensures reads { OnOk result (ReadsForQuery tree.now space.now.ranges query.now.uid (question_of query.now.ask)
        parts.old parts.new.kept
        (λ texts. AreTexts (D.holds store.old) files.now.entries (question_of query.now.ask) texts × ((s : State) → tree.now ≡ s.tree
        → IsIndexOf space.now.ranges s → TellsPostings parts.old (D.holds store.old) s → KeepsTexts files.now.entries (D.holds store.old) s
        → texts ≡ texts_read s query.now.uid (question_of query.now.ask)))
        (D.holds store.old) (D.reads store.old) (D.reads store.new)) }
    ensures permitted { (s : State) → tree.now ≡ s.tree → IsIndexOf space.now.ranges s
        → TellsPostings parts.old (D.holds store.old) s → KeepsTexts files.now.entries (D.holds store.old) s
        → ReadsSuch (AreReadForQuery s query.now.uid (question_of query.now.ask)) (D.reads store.old) (D.reads store.new) }
    ensures others { parts.new ≡ record parts.old { kept = parts.new.kept } }
    ensures frames { OnOk result (HasAsked query.now.uid kept.old kept.new) }
    ensures store { OnlyReads D.Store store.old store.new result }
    ensures cause { IfErr result (IsQueryCause (IsDamagedFor tree.now space.now.ranges query.now.uid (question_of query.now.ask)
        parts.old files.now.entries (D.holds store.old))
        (D.faults store.old) (D.faults store.new) (D.reads store.old) (D.reads store.new)) }
{
    space.keeps_the_rules();
    kept.prepare(tree, space, query.uid)?;
    match kept.kept(query.uid) {
        Some(frames) => answer(alloc, store, frames, space, parts, files, &query.ask),
        // They were just prepared.
        None => unreachable!(),
    }
}

/// The answer to the question, over a user's frames.
fn answer<D: Store>(
    alloc: Global,
    store: &mut D,
    frames: &Frames,
    space: &Space,
    parts: &mut Parts,
    files: &BTreeMap<Ino, FileRec>,
    ask: &Ask,
) -> Result<Answered, Trouble>
    requires fit { CanBeSearched frames.now }
    requires sound { IsSoundAsk ask.now }
    requires records { AllByRecursion CanBeRead files.now.entries }
    ensures answer { IfOk result (λ answered. (s : State) (uid : ℕ) → Indexes frames.now space.now.ranges s uid
        → TellsPostings parts.old (D.holds store.old) s → KeepsTexts files.now.entries (D.holds store.old) s
        → answered ≡ answer (view_of s uid) (question_of ask.now)) }
    ensures reads { OnOk result (ReadsInTurn (blocks_for parts.old frames.now.ranges
        (terms_asked (terms_held parts.old) (question_of ask.now)))
        (AreTextsOf frames.now parts.old files.now.entries (D.holds store.old) (question_of ask.now))
        (D.holds store.old) parts.old.kept parts.new.kept (D.reads store.old) (D.reads store.new)) }
    ensures permitted { (s : State) (uid : ℕ) → Indexes frames.now space.now.ranges s uid
        → TellsPostings parts.old (D.holds store.old) s → KeepsTexts files.now.entries (D.holds store.old) s
        → ReadsSuch (AreReadForQuery s uid (question_of ask.now)) (D.reads store.old) (D.reads store.new) }
    ensures others { parts.new ≡ record parts.old { kept = parts.new.kept } }
    ensures store { OnlyReads D.Store store.old store.new result }
    ensures cause { IfErr result (IsQueryCause (IsDamagedOver frames.now (question_of ask.now) parts.old files.now.entries (D.holds store.old))
        (D.faults store.old) (D.faults store.new) (D.reads store.old) (D.reads store.new)) }
{
    match ask {
        Ask::Count { expr } => count(alloc, store, frames, parts, expr),
        Ask::Find { k, expr } => find(alloc, store, frames, parts, files, *k, expr),
        Ask::Rank { k, unit, words } => ranked(
            alloc,
            store,
            frames,
            space,
            parts,
            Wanted::Best { k: *k },
            unit,
            words.as_slice(),
        ),
        Ask::Paths => Ok(paths(alloc, &frames.seen)?),
        Ask::Terms { k, prefix, top } => user_terms(
            alloc,
            store,
            frames,
            parts,
            *k,
            prefix.as_slice(),
            *top,
        ),
        Ask::Export => export(alloc, store, frames, files),
        Ask::Weighed { k, unit, words } => ranked(
            alloc,
            store,
            frames,
            space,
            parts,
            Wanted::Weighed { k: *k },
            unit,
            words.as_slice(),
        ),
    }
}
