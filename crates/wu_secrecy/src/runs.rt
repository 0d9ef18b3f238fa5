//! Runs, and the turns that they answered.
ghost use Rattle.std.specs.Prelude.{◌≡◌, ℕ, List, Some, false};
ghost use Rattle.wu_outside.specs.Crash.{Moments};
ghost use Rattle.wu_script.specs.Said.{Reading};
ghost use Rattle.wu_options.specs.CommandLines.{command_line_of, texts_of};
ghost use Rattle.wu_options.specs.declared.command_lines.Settings.{Settings};
ghost use Rattle.wu_query.specs.States.{State};
ghost use Rattle.wumpus_run.specs.Ended.{IsOutcome};
ghost use Rattle.wumpus_run.specs.Session.{FromImage, IsUsage, moment, settings_of};
ghost use Rattle.wu_secrecy.specs.Histories.{BeginsAlike, Course, HasCourse, IsCourseOf, TellAlike, session_from};
ghost use Rattle.wu_secrecy.specs.Lives.{IsRun};

use std::alloc::Global;
use wu_outside::{Sink, Source, Store};
use wumpus_run::{Status, run};

/// Runs a session by [`run`](wumpus_run::run), of whose contract it hands on `usage` and `session`.
/// However the session ended, the first items of its input were answered in turn, and the sink
/// gained their replies and a part of the next one's: so it is a session that has a course, and
/// over a store that tells what a crash leaves it is a run of a life.
pub fn run_in_turns<I: Source, O: Sink, D: Store>(
    alloc: Global,
    words: &[&str],
    source: &mut I,
    sink: &mut O,
    store: &mut D,
) -> Status
    requires { I.ended source.old ≡ false }
    ensures usage { IsUsage result (command_line_of (texts_of words.now)) }
    ensures session { IsOutcome result (settings_of (texts_of words.now))
        (moment I.Source O.Sink D.Store source.old sink.old store.old)
        (moment I.Source O.Sink D.Store source.new sink.new store.new) }
    ensures course { FromImage (D.holds store.old) (λ s.
        HasCourse (session_from s (settings_of (texts_of words.now)) result
        (moment I.Source O.Sink D.Store source.old sink.old store.old)
        (moment I.Source O.Sink D.Store source.new sink.new store.new))) }
    ensures life { (told : Settings) (input : List ℕ) (old new : Moments)
        → settings_of (texts_of words.now) ≡ Some told → I.left source.old ≡ Some input
        → D.moments store.old ≡ Some old → D.moments store.new ≡ Some new
        → IsRun (record {
          told = told;
          input = input;
          status = result;
          before = moment I.Source O.Sink D.Store source.old sink.old store.old;
          now = moment I.Source O.Sink D.Store source.new sink.new store.new;
          old = old;
          new = new;
        }) }
{
    run(alloc, words, source, sink, store)
}

/// Two runs over any objects tell a user alike: where her first n queries were the same and over
/// equal views, the first n replies that their sinks gained are the same bytes; and of a query
/// under way the one sent the beginning of what the other replied. Each is a session that
/// [`run`](wumpus_run::run) ran, and the results say how they ended.
pub fn two_runs_tell_her_alike<I: Source, O: Sink, D: Store, J: Source, P: Sink, E: Store>(
    alloc: Global,
    words: &[&str],
    source: &mut I,
    sink: &mut O,
    store: &mut D,
    other_words: &[&str],
    other_source: &mut J,
    other_sink: &mut P,
    other_store: &mut E,
) -> (Status, Status)
    requires one { I.ended source.old ≡ false }
    requires other { J.ended other_source.old ≡ false }
    ensures usage { IsUsage result.0 (command_line_of (texts_of words.now)) }
    ensures session { IsOutcome result.0 (settings_of (texts_of words.now))
        (moment I.Source O.Sink D.Store source.old sink.old store.old)
        (moment I.Source O.Sink D.Store source.new sink.new store.new) }
    ensures other_usage { IsUsage result.1 (command_line_of (texts_of other_words.now)) }
    ensures other_session { IsOutcome result.1 (settings_of (texts_of other_words.now))
        (moment J.Source P.Sink E.Store other_source.old other_sink.old other_store.old)
        (moment J.Source P.Sink E.Store other_source.new other_sink.new other_store.new) }
    ensures one { FromImage (D.holds store.old) (λ s.
        HasCourse (session_from s (settings_of (texts_of words.now)) result.0
        (moment I.Source O.Sink D.Store source.old sink.old store.old)
        (moment I.Source O.Sink D.Store source.new sink.new store.new))) }
    ensures other { FromImage (E.holds other_store.old) (λ s.
        HasCourse (session_from s (settings_of (texts_of other_words.now)) result.1
        (moment J.Source P.Sink E.Store other_source.old other_sink.old other_store.old)
        (moment J.Source P.Sink E.Store other_source.new other_sink.new other_store.new))) }
    ensures alike { (read : Reading) (s t : State) (one other : Course)
        → IsCourseOf read (session_from s (settings_of (texts_of words.now)) result.0
        (moment I.Source O.Sink D.Store source.old sink.old store.old)
        (moment I.Source O.Sink D.Store source.new sink.new store.new)) one
        → IsCourseOf read (session_from t (settings_of (texts_of other_words.now)) result.1
        (moment J.Source P.Sink E.Store other_source.old other_sink.old other_store.old)
        (moment J.Source P.Sink E.Store other_source.new other_sink.new other_store.new)) other
        → (uid : ℕ)
        → TellAlike uid one.answered other.answered × BeginsAlike uid one other.answered }
{
    let one = run_in_turns(alloc, words, source, sink, store);
    let other = run_in_turns(alloc, other_words, other_source, other_sink, other_store);
    (one, other)
}
