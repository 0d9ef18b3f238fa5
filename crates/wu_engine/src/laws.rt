//! Laws of states.
ghost use Rattle.std.specs.Prelude.{◌≡◌, ℕ, ◌+◌, ◌≤◌, List, length, Option, None, Result, MatchResult, option_map};
ghost use Rattle.wu_base.specs.declared.limits.TheConstants.{TEXT_MAX};
ghost use Rattle.wu_outside.specs.Content.{Does, Writes, with_blob};
ghost use Rattle.wu_outside.specs.Crash.{Moments, Put, Remove, settle, try_change};
ghost use Rattle.wu_outside.specs.Surviving.{Leaves, LeavesNow, NamesOnly};
ghost use Rattle.wu_outside.specs.declared.traits.Fault.{Fault};
ghost use Rattle.wu_tree.specs.Steps.{IsEvent};
ghost use Rattle.wu_tree.specs.declared.events.Event.{Event};
ghost use Rattle.wu_query.specs.States.{State, IsState};
ghost use Rattle.wu_engine.specs.Crashes.{IsImageOf};
ghost use Rattle.wu_engine.specs.Naming.{IsNamed};
ghost use Rattle.wu_engine.specs.Stands.{taken_by};
ghost use Rattle.wu_engine.specs.States.{after_event, first_state, flushed_state, worked_state};

/// Each event, accepted or refused, and each flush make a state of a state: the tree keeps its rules, there are
/// texts of exactly its regular files, none of them too long, and the layout is one of these files and texts.
/// The next address rises by no more than the event takes. An event draws two blobs at most, one for a text and
/// one for the part of a flush that follows, and a flush draws one. Units of background work too make a state of
/// a state: they give no address, draw one blob each at most, and count no flush.
pub fn each_event_keeps_a_state()
    ensures first { IsState first_state }
    ensures step { (flush_at : ℕ) (s : State) (event : Event) (text : List ℕ) → IsState s → IsEvent event → length text ≤ TEXT_MAX
        → IsState (after_event flush_at s event text) }
    ensures next { (flush_at : ℕ) (s : State) (event : Event) (text : List ℕ)
        → (after_event flush_at s event text).layout.next ≤ s.layout.next + taken_by event text }
    ensures next_blob { (flush_at : ℕ) (s : State) (event : Event) (text : List ℕ)
        → (after_event flush_at s event text).layout.blob ≤ s.layout.blob + 2 }
    ensures flushes { (flush_at : ℕ) (s : State) (event : Event) (text : List ℕ)
        → (after_event flush_at s event text).layout.flushes ≤ s.layout.flushes + 1 }
    ensures flush { (s : State) → IsState s → IsState (flushed_state s) }
    ensures flush_takes { (s : State) → (flushed_state s).layout.next ≡ s.layout.next }
    ensures flush_draws { (s : State) → (flushed_state s).layout.blob ≤ s.layout.blob + 1 }
    ensures flush_counts { (s : State) → (flushed_state s).layout.flushes ≤ s.layout.flushes + 1 }
    ensures work { (n : ℕ) (s : State) → IsState s → IsState (worked_state n s) }
    ensures work_takes { (n : ℕ) (s : State) → (worked_state n s).layout.next ≡ s.layout.next }
    ensures work_draws { (n : ℕ) (s : State) → (worked_state n s).layout.blob ≤ s.layout.blob + n }
    ensures work_counts { (n : ℕ) (s : State) → (worked_state n s).layout.flushes ≡ s.layout.flushes }
{}

/// A law: an image of a state is one by its root and by the blobs that the state names. What a store has besides, as
/// what a crash left of blobs that no root names yet or none names any more, makes no difference. So where a crash leaves
/// only images of the state, that stays true while a blob that the state doesn't name is put or removed, and while the
/// store is synced, also where the call fails.
pub fn strays_make_no_difference()
    ensures strays { (s : State) → NamesOnly (IsNamed s.layout) (IsImageOf s) }
    ensures put { (s : State) (old new : Option Moments) (blob : ℕ) (bytes : List ℕ) (result : Result (Unit {0}) Fault)
        → (IsNamed s.layout blob → ⊥) → Writes (λ written. try_change (Put blob) (with_blob blob written)) bytes old new result
        → LeavesNow old (IsImageOf s) → Leaves old new (IsImageOf s) }
    ensures removal { (s : State) (old new : Option Moments) (blob : ℕ) (result : Result (Unit {0}) Fault)
        → (IsNamed s.layout blob → ⊥) → Does (try_change (Remove blob) (with_blob blob None)) old new result
        → LeavesNow old (IsImageOf s) → Leaves old new (IsImageOf s) }
    ensures sync { (s : State) (old new : Option Moments) (result : Result (Unit {0}) Fault)
        → MatchResult result (λ _. new ≡ option_map settle old) (λ _. new ≡ old)
        → LeavesNow old (IsImageOf s) → Leaves old new (IsImageOf s) }
{}
