//! The law of lives.
ghost use Rattle.std.specs.Prelude.{◌≡◌, ◌⊎◌, ℕ, List};
ghost use Rattle.wu_query.specs.States.{State};
ghost use Rattle.wu_engine.specs.Opening.{HoldsImage};
ghost use Rattle.wu_script.specs.Said.{IsReading, Reading};
ghost use Rattle.wu_secrecy.specs.Histories.{TellAlike, turns_in};
ghost use Rattle.wu_secrecy.specs.Lives.{GoesOn, History, IsLife, IsRun, Restarts, Run};
ghost use Rattle.wu_secrecy.specs.Lives.{Started, SurvivesStop};
ghost use Rattle.wu_secrecy.specs.Restarted.{IsAsIfGoneOn};
ghost use Rattle.wumpus_run.specs.declared.statuses.Status.TheVariants.{Done};

/// The life of a machine is a history of sessions, of which
/// [`two_machines_tell_her_alike`](crate::two_machines_tell_her_alike) speaks. Where each run over
/// a store finds it as the run before left it, or as a crash after that left it, there is a state
/// for each run of which its store held an image and from which it took its course: at first the
/// one of which the store held an image then, and later the state that the last run left, where it
/// was done, else its last save whose reply its sink has, or the next one. A crash while a run goes
/// on leaves an image of a state that the run might have found, or of one that it saves.
pub fn a_life_is_a_history()
    ensures history { (read : Reading) → IsReading read → (first : State) (runs : List Run)
        → IsLife first runs → History read first runs }
    ensures alike { (read : Reading) (first second : State) (ones others : List Run)
        (one : History read first ones) (other : History read second others)
        (uid : ℕ) → TellAlike uid (turns_in one.courses) (turns_in other.courses) }
    ensures stop { (read : Reading) → IsReading read → (first : State) (earlier : List Started)
        (run : Run) (s : State) → IsRun run → HoldsImage run.before.holds s
        → SurvivesStop read first earlier (run, s) }
{}

/// A restart changes no reply. After a run that was done, the next one, over what that left or what
/// a crash then left, answers its input as if the run before had gone on with it: each query of a
/// user meets the view that she would have had then, and its reply is the same bytes; and so is the
/// view that she has in the end. After a run that ended otherwise, it goes on from its last save, of
/// which [`a_life_is_a_history`] speaks.
pub fn a_restart_changes_no_reply()
    ensures { (read : Reading) → IsReading read → (run next : Run) (s t : State) → IsRun run
        → run.status ≡ Done → HoldsImage run.before.holds s
        → GoesOn run next ⊎ Restarts run next → HoldsImage next.before.holds t
        → (uid : ℕ) → IsAsIfGoneOn read run s next t uid }
{}
