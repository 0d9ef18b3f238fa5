//! Laws on the layout of the index and its steps.
ghost use Rattle.std.specs.Prelude.{◌≡◌, ℕ, Bool, true, false};
ghost use Rattle.wu_layout.specs.Layouts.{Text, Layout, first_layout, ranges_of};
ghost use Rattle.wu_layout.specs.Invariants.{IsLayoutOf, AreFewParts};
ghost use Rattle.wu_layout.specs.Steps.{release, place, flush, flush_if_full, work, save, rest, is_idle};
ghost use Rattle.wu_layout.specs.Changes.{DropsFile, AddsFile, KeepsLivePostings};

/// Each step keeps the invariants of the layout, whether or not a job is under way.
pub fn each_step_keeps_the_layout()
    ensures first { (text_of : ℕ → Text) → IsLayoutOf (λ ino. false) text_of first_layout }
    ensures release { (is_file is_file_after : ℕ → Bool) (text_of text_of_after : ℕ → Text) (layout : Layout) (ino : ℕ)
        → DropsFile ino is_file is_file_after text_of text_of_after → IsLayoutOf is_file text_of layout
        → IsLayoutOf is_file_after text_of_after (release ino layout) }
    ensures place { (is_file is_file_after : ℕ → Bool) (text_of text_of_after : ℕ → Text) (layout : Layout) (ino : ℕ) (text : Text)
        → AddsFile ino text is_file is_file_after text_of text_of_after → IsLayoutOf is_file text_of layout
        → IsLayoutOf is_file_after text_of_after (place ino text layout) }
    ensures flush { (is_file : ℕ → Bool) (text_of : ℕ → Text) (flush_at : ℕ) (layout : Layout) → IsLayoutOf is_file text_of layout
        → IsLayoutOf is_file text_of (flush layout) × IsLayoutOf is_file text_of (flush_if_full flush_at layout) }
    ensures work { (is_file : ℕ → Bool) (text_of : ℕ → Text) (units : ℕ) (layout : Layout) → IsLayoutOf is_file text_of layout
        → IsLayoutOf is_file text_of (work units layout) }
    ensures save { (is_file : ℕ → Bool) (text_of : ℕ → Text) (layout : Layout) → IsLayoutOf is_file text_of layout
        → IsLayoutOf is_file text_of (save layout) × IsLayoutOf is_file text_of (rest layout) }
{}

/// A flush, a save and any number of units of background work keep each live posting, and no posting
/// that was dropped comes back.
pub fn live_postings_stay()
    ensures flush { (is_file : ℕ → Bool) (text_of : ℕ → Text) (layout : Layout) → IsLayoutOf is_file text_of layout
        → KeepsLivePostings layout (flush layout) × KeepsLivePostings layout (save layout) }
    ensures work { (is_file : ℕ → Bool) (text_of : ℕ → Text) (units : ℕ) (layout : Layout) → IsLayoutOf is_file text_of layout
        → KeepsLivePostings layout (work units layout) }
{}

/// Where background work has no more to do there are few parts, and most of each is live.
pub fn background_work_ends_with_few_parts()
    ensures { (is_file : ℕ → Bool) (text_of : ℕ → Text) (layout : Layout) → IsLayoutOf is_file text_of layout
        → is_idle layout ≡ true → AreFewParts (ranges_of layout.files) layout.flushes layout.parts }
{}
