//! Where terms stand in a user's frames.
ghost use Rattle.std.specs.Prelude.{◌≡◌, [], ◌∷◌, ◌++◌, All, map, nat_eq, IfOk, IfErr, OnOk};
ghost use Rattle.std.specs.Cmp.Lexicographic.{pointwise};
ghost use Rattle.std.specs.List.{list_any};
ghost use Rattle.std.specs.List.Sorted.{IsStrictlyIncreasing};
ghost use Rattle.wu_lists.specs.Keeping.{Asks};
ghost use Rattle.wu_outside.specs.Reading.{OnlyReads};
ghost use Rattle.wu_query.specs.Asked.{blocks_for};
ghost use Rattle.wu_query.specs.States.{State};
ghost use Rattle.wu_query.specs.Searched.{TellsPostings};
ghost use Rattle.wu_query.specs.Units.{CanBeSearched, IsCauseFor, found_in, list_at, terms_among};

use std::alloc::Global;
use wu_base::{Bytes, TermList, Trouble};
use wu_frames::Frames;
use wu_outside::Store;
use wu_parts::Parts;

/// For each of the terms its addresses in the frames, those in parts and those in memory. The terms are asked
/// for in turn.
pub fn lists_of<D: Store>(
    alloc: Global,
    store: &mut D,
    terms: &[Bytes],
    frames: &Frames,
    parts: &mut Parts,
) -> Result<Vec<TermList>, Trouble>
    requires { CanBeSearched frames.now }
    ensures lists { IfOk result (λ lists. (s : State) → TellsPostings parts.old (D.holds store.old) s
        → lists.items ≡ map (list_at (found_in frames.now.ranges s)) terms.now) }
    ensures named { IfOk result (λ lists. map (λ list. list.term) lists.items ≡ terms.now) }
    ensures ascending { IfOk result (λ lists. All (λ list. IsStrictlyIncreasing list.at) lists.items) }
    ensures blocks { OnOk result (Asks (blocks_for parts.old frames.now.ranges terms.now) (D.holds store.old)
        parts.old.kept parts.new.kept (D.reads store.old) (D.reads store.new)) }
    ensures others { parts.new ≡ record parts.old { kept = parts.new.kept } }
    ensures store { OnlyReads D.Store store.old store.new result }
    ensures cause { IfErr result (IsCauseFor parts.old frames.now.ranges terms.now (D.holds store.old)
        (D.faults store.old) (D.faults store.new) (D.reads store.old) (D.reads store.new)) }
{
    let mut lists = Vec::with_capacity(alloc, terms.len())?;
    for term in terms {
        lists.push(list_of(store, term, frames, parts)?)?;
    }
    Ok(lists)
}

/// The same of those terms that are among the words. Of the others the blocks are asked for in turn too, as if
/// they were fetched.
pub fn lists_of_words<D: Store>(
    alloc: Global,
    store: &mut D,
    terms: &[Bytes],
    words: &[Bytes],
    frames: &Frames,
    parts: &mut Parts,
) -> Result<Vec<TermList>, Trouble>
    requires { CanBeSearched frames.now }
    ensures lists { IfOk result (λ lists. (s : State) → TellsPostings parts.old (D.holds store.old) s
        → lists.items ≡ map (list_at (found_in frames.now.ranges s)) (terms_among words.now terms.now)) }
    ensures ascending { IfOk result (λ lists. All (λ list. IsStrictlyIncreasing list.at) lists.items) }
    ensures blocks { OnOk result (Asks (blocks_for parts.old frames.now.ranges terms.now) (D.holds store.old)
        parts.old.kept parts.new.kept (D.reads store.old) (D.reads store.new)) }
    ensures others { parts.new ≡ record parts.old { kept = parts.new.kept } }
    ensures store { OnlyReads D.Store store.old store.new result }
    ensures cause { IfErr result (IsCauseFor parts.old frames.now.ranges terms.now (D.holds store.old)
        (D.faults store.old) (D.faults store.new) (D.reads store.old) (D.reads store.new)) }
{
    let mut lists = Vec::new(alloc);
    for term in terms {
        put_list(store, &mut lists, term, words, frames, parts)?;
    }
    Ok(lists)
}

/// Puts the term's list at the end, if the term is among the words. If it isn't, its blocks are only asked for.
fn put_list<D: Store>(
    store: &mut D,
    lists: &mut Vec<TermList>,
    term: &Bytes,
    words: &[Bytes],
    frames: &Frames,
    parts: &mut Parts,
) -> Result<(), Trouble>
    requires { CanBeSearched frames.now }
    ensures lists { OnOk result ((s : State) → TellsPostings parts.old (D.holds store.old) s → lists.new.items
        ≡ lists.old.items ++ map (list_at (found_in frames.now.ranges s)) (terms_among words.now (term.now ∷ []))) }
    ensures ascending { OnOk result (All (λ list. IsStrictlyIncreasing list.at) lists.old.items
        → All (λ list. IsStrictlyIncreasing list.at) lists.new.items) }
    ensures blocks { OnOk result (Asks (blocks_for parts.old frames.now.ranges (term.now ∷ [])) (D.holds store.old)
        parts.old.kept parts.new.kept (D.reads store.old) (D.reads store.new)) }
    ensures others { parts.new ≡ record parts.old { kept = parts.new.kept } }
    ensures store { OnlyReads D.Store store.old store.new result }
    ensures cause { IfErr result (IsCauseFor parts.old frames.now.ranges (term.now ∷ []) (D.holds store.old)
        (D.faults store.old) (D.faults store.new) (D.reads store.old) (D.reads store.new)) }
{
    if !is_among(words, term) {
        return Ok(parts.touch(store, term.as_slice(), frames.ranges.as_slice())?);
    }
    lists.push(list_of(store, term, frames, parts)?)?;
    Ok(())
}

/// Whether the word is one of the terms.
pub(crate) fn is_among(terms: &[Bytes], word: &Bytes) -> bool
    ensures { result ≡ list_any (pointwise nat_eq word.now) terms.now }
{
    terms.iter().any(|term| word == term)
}

fn list_of<D: Store>(
    store: &mut D,
    term: &Bytes,
    frames: &Frames,
    parts: &mut Parts,
) -> Result<TermList, Trouble>
    requires { CanBeSearched frames.now }
    ensures list { IfOk result (λ list. (s : State) → TellsPostings parts.old (D.holds store.old) s
        → list ≡ list_at (found_in frames.now.ranges s) term.now) }
    ensures named { IfOk result (λ list. list.term ≡ term.now) }
    ensures ascending { IfOk result (λ list. IsStrictlyIncreasing list.at) }
    ensures blocks { OnOk result (Asks (blocks_for parts.old frames.now.ranges (term.now ∷ [])) (D.holds store.old)
        parts.old.kept parts.new.kept (D.reads store.old) (D.reads store.new)) }
    ensures others { parts.new ≡ record parts.old { kept = parts.new.kept } }
    ensures store { OnlyReads D.Store store.old store.new result }
    ensures cause { IfErr result (IsCauseFor parts.old frames.now.ranges (term.now ∷ []) (D.holds store.old)
        (D.faults store.old) (D.faults store.new) (D.reads store.old) (D.reads store.new)) }
{
    let at = parts.fetch(store, term.as_slice(), frames.ranges.as_slice())?;
    Ok(TermList {
        term: term.clone()?,
        at,
    })
}
