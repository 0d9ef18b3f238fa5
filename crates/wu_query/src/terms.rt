//! A user's terms.
ghost use Rattle.std.specs.Prelude.{◌≡◌, ◌++◌, ◌∷◌, ℕ, [], map, IfOk, IfErr, OnOk};
ghost use Rattle.wu_ask.specs.Questions.{ListingTerms};
ghost use Rattle.wu_lists.specs.Keeping.{Asks};
ghost use Rattle.wu_outside.specs.Reading.{OnlyReads};
ghost use Rattle.wu_parts.specs.Candidates.{terms_held};
ghost use Rattle.wu_space.specs.Addresses.{Ranges};
ghost use Rattle.wu_terms.specs.Terms.{words_with};
ghost use Rattle.wu_query.specs.Answer.{answer, term_line};
ghost use Rattle.wu_query.specs.Asked.{blocks_for};
ghost use Rattle.wu_query.specs.Searched.{Indexes, TellsPostings};
ghost use Rattle.wu_query.specs.States.{State};
ghost use Rattle.wu_query.specs.TermLines.{words_found};
ghost use Rattle.wu_query.specs.Units.{CanBeSearched, IsCauseFor};
ghost use Rattle.wu_query.specs.View.{view_of};

use std::alloc::Global;
use wu_ask::{Answered, TermLine};
use wu_base::{Bytes, NoMemory, Sequence, Trouble};
use wu_frames::Frames;
use wu_outside::Store;
use wu_parts::Parts;
use wu_terms::{TermFiles, list_terms};

/// How many words of the user's files begin with the prefix, and the first `k` of them, or where
/// `top` of the most frequent ones, each with the number of her files that have it.
///
/// The index's words with the prefix are candidates, words of other users' files too: their blocks
/// are asked for in turn, as far as the frames need them, and those words are left out that none of
/// the frames has. No list of addresses is made of blocks.
pub fn user_terms<D: Store>(
    alloc: Global,
    store: &mut D,
    frames: &Frames,
    parts: &mut Parts,
    k: u32,
    prefix: &[u8],
    top: bool,
) -> Result<Answered, Trouble>
    requires { CanBeSearched frames.now }
    ensures answer { IfOk result (λ answered. (live : Ranges) (s : State) (uid : ℕ)
        → Indexes frames.now live s uid → TellsPostings parts.old (D.holds store.old) s
        → answered ≡ answer (view_of s uid) (ListingTerms k prefix.now top)) }
    ensures blocks { OnOk result (Asks
        (blocks_for parts.old frames.now.ranges (words_with prefix.now (terms_held parts.old)))
        (D.holds store.old) parts.old.kept parts.new.kept (D.reads store.old) (D.reads store.new)) }
    ensures others { parts.new ≡ record parts.old { kept = parts.new.kept } }
    ensures store { OnlyReads D.Store store.old store.new result }
    ensures cause { IfErr result (IsCauseFor parts.old frames.now.ranges
        (words_with prefix.now (terms_held parts.old)) (D.holds store.old)
        (D.faults store.old) (D.faults store.new) (D.reads store.old) (D.reads store.new)) }
{
    let words = parts.candidates(prefix)?;
    let found = words_found(alloc, store, &words, frames, parts)?;
    let listing = list_terms(found, k, top);
    let shown = lines_of_terms(alloc, &listing.shown)?;
    Ok(Answered::Terms {
        total: listing.total,
        top,
        shown: Sequence::from(shown),
    })
}

/// Those of the words that one of the frames has, each with the number of the frames that have it.
/// The words are asked for in turn.
fn words_found<D: Store>(
    alloc: Global,
    store: &mut D,
    words: &[Bytes],
    frames: &Frames,
    parts: &mut Parts,
) -> Result<Vec<TermFiles>, Trouble>
    requires { CanBeSearched frames.now }
    ensures found { IfOk result (λ found. (s : State)
        → TellsPostings parts.old (D.holds store.old) s
        → found.items ≡ words_found frames.now.ranges s words.now) }
    ensures blocks { OnOk result (Asks (blocks_for parts.old frames.now.ranges words.now)
        (D.holds store.old) parts.old.kept parts.new.kept (D.reads store.old) (D.reads store.new)) }
    ensures others { parts.new ≡ record parts.old { kept = parts.new.kept } }
    ensures store { OnlyReads D.Store store.old store.new result }
    ensures cause { IfErr result (IsCauseFor parts.old frames.now.ranges words.now
        (D.holds store.old) (D.faults store.old) (D.faults store.new)
        (D.reads store.old) (D.reads store.new)) }
{
    let mut found = Vec::new(alloc);
    for word in words {
        put_word(store, &mut found, word, frames, parts)?;
    }
    Ok(found)
}

/// Puts the word at the end with the number of the frames that have it, if one has.
fn put_word<D: Store>(
    store: &mut D,
    found: &mut Vec<TermFiles>,
    word: &Bytes,
    frames: &Frames,
    parts: &mut Parts,
) -> Result<(), Trouble>
    requires { CanBeSearched frames.now }
    ensures found { OnOk result ((s : State) → TellsPostings parts.old (D.holds store.old) s
        → found.new.items ≡ found.old.items ++ words_found frames.now.ranges s (word.now ∷ [])) }
    ensures blocks { OnOk result (Asks (blocks_for parts.old frames.now.ranges (word.now ∷ []))
        (D.holds store.old) parts.old.kept parts.new.kept (D.reads store.old) (D.reads store.new)) }
    ensures others { parts.new ≡ record parts.old { kept = parts.new.kept } }
    ensures store { OnlyReads D.Store store.old store.new result }
    ensures cause { IfErr result (IsCauseFor parts.old frames.now.ranges (word.now ∷ [])
        (D.holds store.old) (D.faults store.old) (D.faults store.new)
        (D.reads store.old) (D.reads store.new)) }
{
    let tally = parts.tally(store, word.as_slice(), frames.ranges.as_slice())?;
    if tally.frames == 0 {
        return Ok(());
    }
    found.push(TermFiles {
        files: tally.frames,
        word: word.clone()?,
    })?;
    Ok(())
}

/// The words as they are shown.
fn lines_of_terms(alloc: Global, terms: &[TermFiles]) -> Result<Vec<TermLine>, NoMemory>
    ensures { IfOk result (λ lines. lines.items ≡ map term_line terms.now) }
{
    let mut lines = Vec::with_capacity(alloc, terms.len())?;
    for term in terms {
        lines.push(TermLine {
            word: term.word.clone()?,
            files: term.files,
        })?;
    }
    Ok(lines)
}
