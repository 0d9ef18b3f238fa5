//! How many extents an expression has over a user's frames.
ghost use Rattle.std.specs.Prelude.{◌≡◌, ℕ, [], ◌∷◌, IfOk, IfErr, OnOk};
ghost use Rattle.wu_ask.specs.Questions.{Counting};
ghost use Rattle.wu_gcl.specs.Regions.{Region, region_of};
ghost use Rattle.wu_lists.specs.Keeping.{Asks};
ghost use Rattle.wu_outside.specs.Reading.{OnlyReads};
ghost use Rattle.wu_space.specs.Addresses.{Ranges};
ghost use Rattle.wu_query.specs.Answer.{answer};
ghost use Rattle.wu_query.specs.Asked.{IsTermAlone, blocks_for, terms_of as named_in};
ghost use Rattle.wu_query.specs.States.{State};
ghost use Rattle.wu_query.specs.Searched.{Indexes, TellsPostings};
ghost use Rattle.wu_query.specs.Units.{CanBeSearched, IsCauseFor};
ghost use Rattle.wu_query.specs.View.{view_of};

use crate::postings::postings_near;
use std::alloc::Global;
use wu_ask::Answered;
use wu_base::Trouble;
use wu_frames::Frames;
use wu_gcl::{Expr, terms_of};
use wu_outside::Store;
use wu_parts::Parts;
use wu_solve::only_term;

/// How many extents the expression has over the user's view, and in how many of its files. They are
/// made of the postings of its terms, as far as these are needed, where it isn't a term alone.
pub fn count<D: Store>(
    alloc: Global,
    store: &mut D,
    frames: &Frames,
    parts: &mut Parts,
    expr: &Expr,
) -> Result<Answered, Trouble>
    requires { CanBeSearched frames.now }
    ensures answer { IfOk result (λ answered. (live : Ranges) (s : State) (uid : ℕ) → Indexes frames.now live s uid
        → TellsPostings parts.old (D.holds store.old) s → answered ≡ answer (view_of s uid) (Counting (region_of expr.now))) }
    ensures blocks { OnOk result (Asks (blocks_for parts.old frames.now.ranges (named_in (region_of expr.now))) (D.holds store.old)
        parts.old.kept parts.new.kept (D.reads store.old) (D.reads store.new)) }
    ensures others { parts.new ≡ record parts.old { kept = parts.new.kept } }
    ensures store { OnlyReads D.Store store.old store.new result }
    ensures cause { IfErr result (IsCauseFor parts.old frames.now.ranges (named_in (region_of expr.now)) (D.holds store.old)
        (D.faults store.old) (D.faults store.new) (D.reads store.old) (D.reads store.new)) }
{
    if let Some(term) = only_term(expr) {
        return count_term(store, frames, parts, term);
    }
    let terms = terms_of(alloc, expr)?;
    let postings = postings_near(alloc, store, expr, &terms, frames, parts)?;
    let counts = postings.count(alloc, expr, frames.ranges.as_slice())?;
    Ok(Answered::Count {
        hits: counts.hits,
        files: counts.files,
    })
}

/// The same of an expression that is the term alone: each of the term's addresses is an extent, and no list is made.
fn count_term<D: Store>(
    store: &mut D,
    frames: &Frames,
    parts: &mut Parts,
    term: &[u8],
) -> Result<Answered, Trouble>
    requires { CanBeSearched frames.now }
    ensures answer { IfOk result (λ answered. (region : Region) → IsTermAlone region term.now → (live : Ranges) (s : State) (uid : ℕ)
        → Indexes frames.now live s uid → TellsPostings parts.old (D.holds store.old) s
        → answered ≡ answer (view_of s uid) (Counting region)) }
    ensures blocks { OnOk result (Asks (blocks_for parts.old frames.now.ranges (term.now ∷ [])) (D.holds store.old)
        parts.old.kept parts.new.kept (D.reads store.old) (D.reads store.new)) }
    ensures others { parts.new ≡ record parts.old { kept = parts.new.kept } }
    ensures store { OnlyReads D.Store store.old store.new result }
    ensures cause { IfErr result (IsCauseFor parts.old frames.now.ranges (term.now ∷ []) (D.holds store.old)
        (D.faults store.old) (D.faults store.new) (D.reads store.old) (D.reads store.new)) }
{
    let tally = parts.tally(store, term, frames.ranges.as_slice())?;
    Ok(Answered::Count {
        hits: tally.hits,
        files: tally.frames,
    })
}
