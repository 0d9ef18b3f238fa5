//! Laws of what can change a user's view.
ghost use Rattle.std.specs.Prelude.{◌≡◌, ◌≢◌, ℕ, true, false, Option, List, [], map};
ghost use Rattle.std.specs.List.{AllByRecursion};
ghost use Rattle.wu_script.specs.Commands.{Operation};
ghost use Rattle.wu_script.specs.Items.{items_of};
ghost use Rattle.wu_script.specs.Said.{Reading, said_of};
ghost use Rattle.wu_access.specs.declared.acls.Acl.{Acl};
ghost use Rattle.wu_tree.specs.FileSystems.{FileSystem};
ghost use Rattle.wu_tree.specs.Steps.{IsEvent, next};
ghost use Rattle.wu_tree.specs.declared.events.Event.{Event};
ghost use Rattle.wu_tree.specs.declared.events.Event.TheVariants.{Chmod, Chown, Text, User};
ghost use Rattle.wu_tree.specs.declared.events.Event.TheVariants.{Acl as SetAcl};
ghost use Rattle.wu_query.specs.States.{IsState, State};
ghost use Rattle.wu_query.specs.View.{view_of};
ghost use Rattle.wu_engine.specs.States.{after_event};
ghost use Rattle.wumpus_run.specs.Replies.{Rules, after_operation, last_state, met};
ghost use Rattle.wu_secrecy.specs.Turns.{purged, told_to, turns_of};
ghost use Rattle.wu_secrecy.specs.Unseen.{IsBelowClosed, IsUnseen, admits, is_reachable, is_searchable};
ghost use Rattle.wu_secrecy.specs.UnseenItems.{IsUnseenItem};

/// What a user may search is changed by nothing but what shows there. An event leaves her view as
/// it was, texts and all, where it is a text of a file that she may not search; a mode, an owner,
/// an access list or groups by which each node that she can reach lets her in as before; or a
/// change of links none of which leads her, from a directory that is open for her, to a node that
/// lets her in. So do flushes, background work and saves, and a whole script of such items.
pub fn her_view_is_moved_by_what_she_may_see()
    ensures event { (flush_at uid : ℕ) (s : State) (event : Event) (text : List ℕ)
        → IsState s → IsEvent event → IsUnseen s.tree uid event
        → view_of (after_event flush_at s event text) uid ≡ view_of s uid }
    ensures operation { (s : State) (operation : Operation) (uid : ℕ)
        → view_of (after_operation s operation) uid ≡ view_of s uid }
    ensures script { (flush_at uid : ℕ) (read : Reading) (s : State) (bytes : List ℕ) → IsState s
        → AllByRecursion (λ m. IsUnseenItem uid m.0 m.1)
        (met flush_at s (map (said_of read) (items_of bytes)))
        → view_of (last_state flush_at s (map (said_of read) (items_of bytes))) uid
        ≡ view_of s uid }
{}

/// What an administrator may rely on of a closed directory: links that are made, moved or removed
/// in it or below it leave the view of each user as it was to whom it is closed, and so does a
/// text, a mode, an owner or an access list of a node to which no link leads her from an open
/// directory. A file below it that has another link, in a directory that is open for her, she may
/// see through that one.
pub fn events_below_a_closed_directory()
    ensures { (flush_at uid : ℕ) (s : State) (event : Event) (text : List ℕ)
        → IsState s → IsEvent event → IsBelowClosed s.tree uid event
        → view_of (after_event flush_at s event text) uid ≡ view_of s uid }
{}

/// Events that change no links leave her view as it was: a text of a file that she may not search;
/// a mode, an owner or an access list, where she can't reach the node or it lets her in as before;
/// and the groups of another user.
pub fn events_that_change_no_links()
    ensures text { (flush_at uid ino : ℕ) (s : State) (text : List ℕ)
        → IsState s → is_searchable s.tree uid ino ≡ false
        → view_of (after_event flush_at s (Text ino) text) uid ≡ view_of s uid }
    ensures mode { (flush_at uid ino mode : ℕ) (s : State) → IsState s → IsEvent (Chmod ino mode)
        → (is_reachable s.tree uid ino ≡ true
        → admits (next s.tree (Chmod ino mode)) uid ino ≡ admits s.tree uid ino)
        → view_of (after_event flush_at s (Chmod ino mode) []) uid ≡ view_of s uid }
    ensures owner { (flush_at uid ino owner group : ℕ) (s : State) → IsState s
        → (is_reachable s.tree uid ino ≡ true
        → admits (next s.tree (Chown ino owner group)) uid ino ≡ admits s.tree uid ino)
        → view_of (after_event flush_at s (Chown ino owner group) []) uid ≡ view_of s uid }
    ensures list { (flush_at uid ino : ℕ) (acl : Option Acl) (mask : ℕ) (s : State) → IsState s
        → IsEvent (SetAcl ino acl mask)
        → (is_reachable s.tree uid ino ≡ true
        → admits (next s.tree (SetAcl ino acl mask)) uid ino ≡ admits s.tree uid ino)
        → view_of (after_event flush_at s (SetAcl ino acl mask) []) uid ≡ view_of s uid }
    ensures groups { (flush_at uid other : ℕ) (groups : List ℕ) (s : State)
        → IsState s → uid ≢ other
        → view_of (after_event flush_at s (User other groups) []) uid ≡ view_of s uid }
{}

/// Noninterference as Goguen and Meseguer state it, by purging: in a session in which nothing that
/// anybody does shows to her, a user is told exactly what she is told in the session that has her
/// queries alone.
pub fn what_is_unseen_can_be_left_out()
    ensures { (rules : Rules) (uid : ℕ) (s : State) (bytes : List ℕ) → IsState s
        → AllByRecursion (λ m. IsUnseenItem uid m.0 m.1)
        (met rules.flush_at s (map (said_of rules.read) (items_of bytes)))
        → told_to uid (turns_of rules s (items_of bytes))
        ≡ told_to uid (turns_of rules s (purged uid (items_of bytes))) }
{}
