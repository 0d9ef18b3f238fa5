//! Laws of states and of replies.
ghost use Rattle.std.specs.Prelude.{◌≡◌, ◌↔◌, ℕ, List, ◌∷◌, map, Option, Some};
ghost use Rattle.std.specs.List.{All};
ghost use Rattle.wu_outside.specs.Content.{Content};
ghost use Rattle.wu_check.specs.Wrong.{IsChecked, IsSound, IsWrong};
ghost use Rattle.wu_check.specs.declared.checking.Checked.{Checked};
ghost use Rattle.wu_ask.specs.Questions.{Question};
ghost use Rattle.wu_script.specs.Commands.{Operation};
ghost use Rattle.wu_script.specs.Said.{Asks, Operates, Reading, Said, said_of};
ghost use Rattle.wu_script.specs.Items.{items_of};
ghost use Rattle.wu_query.specs.States.{State, IsState};
ghost use Rattle.wu_query.specs.View.{view_of};
ghost use Rattle.wu_engine.specs.Opening.{HoldsImage};
ghost use Rattle.wu_engine.specs.Reports.{stat_of};
ghost use Rattle.wu_engine.specs.States.{first_state};
ghost use Rattle.wumpus_run.specs.Checks.{IsImageOfOne, sound_with};
ghost use Rattle.wumpus_run.specs.Replies.{Rules, last_state, met, reply_to};
ghost use Rattle.wumpus_run.specs.Rebuilt.{AreQueriesOf, HasShortNumbers, IsRebuilt, IsToldTheSame};

/// Equal views are answered alike: where a user has the same view in two states, each question of
/// hers gets the same reply in both, whatever else there is.
pub fn equal_views_are_answered_alike()
    ensures { (one other : State) (uid : ℕ) (question : Question) → view_of one uid ≡ view_of other uid
        → reply_to one (Asks uid question) ≡ reply_to other (Asks uid question) }
{}

/// In a session from a state on, every state that an item of the script meets is one, and so is the state that the
/// script leaves: its tree keeps the rules, its texts are exactly those of its regular files, in the order of their
/// numbers and none too long, and all of them are indexed.
pub fn a_script_keeps_a_state()
    ensures met { (flush_at : ℕ) (read : Reading) (s : State) (bytes : List ℕ) → IsState s
        → All (λ m. IsState m.0) (met flush_at s (map (said_of read) (items_of bytes))) }
    ensures last { (flush_at : ℕ) (read : Reading) (s : State) (bytes : List ℕ) → IsState s
        → IsState (last_state flush_at s (map (said_of read) (items_of bytes))) }
{}

/// Flushes, background work and saves show in no view: from a state on, the items of a script leave each user the same
/// view wherever memory is full, and also where an operation comes first: a flush, any number of units of work, a save,
/// or the question how large the index is.
pub fn no_view_depends_on_flushes_work_or_saves()
    ensures full { (one other : ℕ) (s : State) (saids : List Said) (uid : ℕ)
        → view_of (last_state one s saids) uid ≡ view_of (last_state other s saids) uid }
    ensures operated { (flush_at : ℕ) (operation : Operation) (s : State) (saids : List Said) (uid : ℕ)
        → view_of (last_state flush_at s (Operates operation ∷ saids)) uid ≡ view_of (last_state flush_at s saids) uid }
{}

/// An export makes a view again: from the root directory alone each item of the script that is
/// exported to a user in a state is an event that is accepted, and then she has the view that she
/// has in that state. A script's numbers have 32 bits, and so the state's nodes have to have such
/// numbers; those of each state that a session meets do.
pub fn an_export_makes_the_view_again()
    ensures { (rules : Rules) (s : State) (uid : ℕ) → IsState s → HasShortNumbers s.tree
        → IsRebuilt rules s uid }
{}

/// What a user is told follows from what she could copy: a session that starts from nothing, whose
/// input is her export and then any queries of hers, is answered by `ok` for each item of the
/// export, and then, byte for byte, by what these queries are answered in that state. Among the
/// queries there may be lines that are refused, empty lines and comments.
pub fn a_copy_is_answered_alike()
    ensures { (rules : Rules) (s : State) (uid : ℕ) (queries : List ℕ) → IsState s
        → HasShortNumbers s.tree → AreQueriesOf rules uid queries → IsToldTheSame rules s uid queries }
{}

/// No node has a number beyond 32 bits: none in the root directory alone, none in a state of which
/// a store holds an image, and none in a state that a session from such a state on meets or leaves.
pub fn numbers_stay_within_32_bits()
    ensures first { HasShortNumbers first_state.tree }
    ensures saved { (holds : Option Content) (s : State) → HoldsImage holds s
        → HasShortNumbers s.tree }
    ensures met { (flush_at : ℕ) (read : Reading) (s : State) (bytes : List ℕ)
        → HasShortNumbers s.tree → All (λ m. HasShortNumbers m.0.tree)
        (met flush_at s (map (said_of read) (items_of bytes))) }
    ensures last { (flush_at : ℕ) (read : Reading) (s : State) (bytes : List ℕ)
        → HasShortNumbers s.tree
        → HasShortNumbers (last_state flush_at s (map (said_of read) (items_of bytes))).tree }
{}

/// A store that was saved is sound: where its content is an image of a state, a check finds nothing
/// wrong in it, and counts what `stat` tells of that state. Nothing else is found.
pub fn a_saved_store_is_sound()
    ensures sound { (content : Content) (s : State) → HoldsImage (Some content) s
        → IsChecked content (sound_with (stat_of s)) }
    ensures alone { (content : Content) (s : State) (checked : Checked)
        → HoldsImage (Some content) s → IsChecked content checked
        → checked ≡ sound_with (stat_of s) }
{}

/// A check says `ok` exactly where the store is an image of the one state that its contents spell:
/// what is sound is an image of a state, and of no other, whose numbers are counted, and each image
/// is sound. What is called broken is an image of no state.
pub fn a_sound_store_is_of_one_state()
    ensures sound { (content : Content) (counts : Checked) → IsSound content counts
        ↔ ((s : State) × IsImageOfOne content s × (counts ≡ sound_with (stat_of s))) }
    ensures broken { (content : Content) (blob : ℕ) (s : State) → IsWrong content blob
        → HoldsImage (Some content) s → ⊥ }
{}
