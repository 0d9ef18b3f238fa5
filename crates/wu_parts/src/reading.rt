//! A walk over the parts for a term.
ghost use Rattle.std.specs.Prelude.{◌≡◌, ◌+◌, ◌≤◌, true, All, IfErr, OnErr, OnOk};
ghost use Rattle.std.specs.List.{AllByRecursion};
ghost use Rattle.wu_base.specs.Ranges.{AreApart};
ghost use Rattle.wu_part.specs.Parts.{IsRecorded};
ghost use Rattle.wu_lists.specs.Gaining.{Gains};
ghost use Rattle.wu_lists.specs.Keeping.{Asks, AsksFirst};
ghost use Rattle.wu_parts.specs.Causes.{IsPartsCause};
ghost use Rattle.wu_parts.specs.Holdings.{all_needed};
ghost use Rattle.wu_parts.specs.StoredParts.{AreGatheredFrom, pairs_of};

use crate::writing::StoredPart;
use wu_base::{ADDRESSES_MAX, Range, Trouble};
use wu_lists::{AddressSink, Lists};
use wu_outside::Store;

/// Asks for the blocks of the term that the frames need in the parts, from left to right. A sink that wants them
/// gains the blocks' addresses.
pub(crate) fn walk_parts<D: Store, S: AddressSink>(
    store: &mut D,
    lists: &mut Lists,
    parts: &[StoredPart],
    term: &[u8],
    frames: &[Range],
    found: &mut S,
) -> Result<(), Trouble>
    requires apart { AreApart frames.now }
    requires bounded { All (λ frame. frame.start + frame.len ≤ ADDRESSES_MAX) frames.now }
    requires told { AllByRecursion (λ part. IsRecorded part.recorded part.directory) parts.now }
    ensures addresses { OnOk result (S.wanted ≡ true → Gains (S.gained frames.now)
        (AreGatheredFrom parts.now term.now frames.now (D.holds store.old) lists.old) found.old found.new) }
    ensures blocks { OnOk result (Asks (all_needed (pairs_of parts.now) term.now frames.now) (D.holds store.old) lists.old lists.new
        (D.reads store.old) (D.reads store.new)) }
    ensures kept { OnErr result (AsksFirst (all_needed (pairs_of parts.now) term.now frames.now) (D.holds store.old) lists.old lists.new) }
    ensures holds { D.holds store.new ≡ D.holds store.old }
    ensures moments { D.moments store.new ≡ D.moments store.old }
    ensures calm { OnOk result (D.faults store.new ≡ D.faults store.old) }
    ensures cause { IfErr result (IsPartsCause lists.old (pairs_of parts.now) term.now frames.now
        (D.holds store.old) (D.faults store.old) (D.faults store.new) (D.reads store.old) (D.reads store.new)) }
{
    for part in parts {
        let blob = part.recorded.blob;
        lists.walk(store, blob, &part.directory, term, frames, found)?;
    }
    Ok(())
}
