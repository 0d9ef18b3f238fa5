//! Laws of turns, sessions and histories.
ghost use Rattle.std.specs.Prelude.{◌≡◌, ℕ, List, [], ◌∷◌, map, codes, Some};
ghost use Rattle.wu_query.specs.States.{State};
ghost use Rattle.wu_query.specs.View.{view_of};
ghost use Rattle.wu_engine.specs.States.{first_state};
ghost use Rattle.wu_script.specs.Commands.{Asking, Entry, QuerySyntax};
ghost use Rattle.wu_script.specs.Said.{Reading, said_of};
ghost use Rattle.wumpus_run.specs.Replies.{Rules, output_of, said_bytes};
ghost use Rattle.wu_secrecy.specs.Answers.{answer_to, bytes_over};
ghost use Rattle.wu_secrecy.specs.Example.{alone, beside_another};
ghost use Rattle.wu_secrecy.specs.Histories.{AreCoursesOf, BeginsAlike, Course, IsCourseOf, IsPartOf, Sends, Session, TellAlike, turns_in};
ghost use Rattle.wu_secrecy.specs.Turns.{Turn, asked_by, output_in, told_to, turns_of};

/// The replies of a session's turns are its output, as the contract of `run` has it.
pub fn turns_are_the_output()
    ensures { (rules : Rules) (s : State) (entries : List Entry)
        → output_in (turns_of rules s entries) ≡ output_of rules s entries }
{}

/// The reply to a query is a function of its line and of its user's view, and of nothing else in
/// the state.
pub fn a_reply_is_over_her_view()
    ensures { (read : Reading) (s : State) (uid : ℕ) (wish : QuerySyntax)
        → said_bytes s (said_of read (Asking uid wish))
        ≡ bytes_over read (Asking uid wish) (view_of s uid) }
{}

/// A session from any state tells a user what her queries say over her views; so two sessions in
/// which she asks the same over equal views tell her the same bytes.
pub fn a_session_tells_her_alike()
    ensures told { (rules : Rules) (s : State) (entries : List Entry) (uid : ℕ)
        → told_to uid (turns_of rules s entries)
        ≡ map (answer_to rules.read) (asked_by uid (turns_of rules s entries)) }
    ensures alike { (one other : Rules) (s t : State) (entries others : List Entry) (uid : ℕ)
        → one.read ≡ other.read
        → asked_by uid (turns_of one s entries) ≡ asked_by uid (turns_of other t others)
        → told_to uid (turns_of one s entries) ≡ told_to uid (turns_of other t others) }
{}

/// Noninterference over whole histories. For any two lists of sessions, from whatever states they
/// went on and however each ended: where the first n queries of a user that were answered are the
/// same, and at each of them her views are equal, the first n replies are the same bytes. Events,
/// texts, other users and their queries, limits of memory, flushes, background work, saves,
/// restarts and crashes may differ as they like. Of a query that was under way when its session
/// ended, what was sent is the beginning of the reply that the same query over an equal view gets
/// elsewhere. The courses of the sessions are what their sinks gained.
pub fn two_machines_tell_her_alike()
    ensures alike { (read : Reading) (ones others : List Session) (one other : List Course)
        → AreCoursesOf read ones one → AreCoursesOf read others other
        → (uid : ℕ) → TellAlike uid (turns_in one) (turns_in other) }
    ensures under_way { (read : Reading) (session : Session) (course : Course)
        (others : List Session) (other : List Course)
        → IsCourseOf read session course → AreCoursesOf read others other
        → (uid : ℕ) → BeginsAlike uid course (turns_in other) }
    ensures begins { (read : Reading) (session : Session) (course : Course)
        → IsCourseOf read session course
        → (turn : Turn) → course.under_way ≡ Some turn → IsPartOf course.part turn.reply }
    ensures told { (read : Reading) (sessions : List Session) (courses : List Course)
        → AreCoursesOf read sessions courses → (uid : ℕ)
        → told_to uid (turns_in courses) ≡ map (answer_to read) (asked_by uid (turns_in courses)) }
    ensures sends { (read : Reading) (session : Session) (course : Course)
        → IsCourseOf read session course → Sends session course }
{}

/// An example: user 7 asks for her paths, once where she is alone and once where user 8 keeps a
/// file of his, searches it, and has all saved. Her queries are the same and over equal views, and
/// her reply is the same two lines; his is another.
pub fn two_histories_that_she_cannot_tell_apart()
    ensures asked { (one other : Rules)
        → asked_by 7 (turns_of one first_state alone)
        ≡ asked_by 7 (turns_of other first_state beside_another) }
    ensures alone { (rules : Rules)
        → told_to 7 (turns_of rules first_state alone) ≡ codes "paths\t1\n/a\n" ∷ [] }
    ensures beside { (rules : Rules)
        → told_to 7 (turns_of rules first_state beside_another) ≡ codes "paths\t1\n/a\n" ∷ [] }
    ensures another { (rules : Rules)
        → told_to 8 (turns_of rules first_state beside_another) ≡ codes "paths\t1\n/b\n" ∷ [] }
{}
