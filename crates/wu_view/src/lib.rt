//! A user's view of a tree: the files that she may search, each with the paths that are open for her.
//! Paths are resolved as in POSIX.1, which asks for search permission, here execute, on each directory
//! in which a name of the path is looked up.
#![tactic(auto)]

ghost use Rattle.std.specs.Prelude.{◌≡◌, ◌↔◌, ℕ, true, IfOk, IsTrue, List, map};
ghost use Rattle.std.specs.List.{Contains};
ghost use Rattle.std.specs.List.Sorted.{IsStrictlySortedBy};
ghost use Rattle.wu_view.specs.Views.{Grants, IsOpenPath, is_readable, least_path, open_paths, path_cmp, view_of};
ghost use Rattle.wu_access.specs.declared.UserRec.{UserRec};
ghost use Rattle.wu_tree.specs.FileSystems.{is_file};

mod groups;
mod links;
mod ordered_walks;
mod views;
mod walkers;
mod walks;

use std::alloc::Global;
pub use views::View;
use walkers::Walker;
use wu_access::{Want, check_is_decided_by_cases};
use wu_base::{Bytes, Ino, NoMemory, Sequence, Uid, sorted_once};
use wu_tree::Tree;

/// A file that a user may search. Files are ordered by their paths, that is by the least of them.
#[derive(Debug, PartialEq, Eq, PartialOrd, Ord, Drop)]
pub struct Seen {
    /// The paths that are open for her, at least one, in byte order and without repeats. A path is `/` and the
    /// names from the root to the file, joined by `/`.
    pub paths: Sequence<Bytes>,
    /// The file's number.
    pub ino: Ino,
}

/// The files that a user may search, by their least open paths: those that grant her read and have a path
/// on which each directory, the root included, grants her execute. Read on directories isn't asked. User 0
/// may search all files; a user who was never given has no groups. The only error is out of memory.
///
/// Goes once through the entries of each directory that the user may reach, and of no other; then the paths
/// are sorted. So the time is near linear in these entries and in the bytes of the answer. The memory grows
/// with the bytes of the answer, which has one path for each open link to a file: a file with `n` hard links
/// counts `n` times, with a path of up to 65,280 bytes each.
pub fn searchable(alloc: Global, tree: &Tree, uid: Uid) -> Result<Vec<Seen>, NoMemory>
    ensures view { IfOk result (λ view. view.items ≡ view_of tree.now uid) }
    ensures by_least_path { IfOk result (λ view. IsStrictlySortedBy path_cmp (map least_path view.items)) }
{
    tree.keeps_the_rules();
    let walker = Walker::new(alloc, tree, uid)?;
    let found = walks::open_links(alloc, &walker)?;
    let files = groups::by_file(alloc, found)?;
    let seen = groups::seen(alloc, files)?;
    let view = sorted_once(seen);
    Ok(view)
}

/// A user's view, as `searchable` gives it, kept without the paths: none is made until it is asked
/// for. The only error is out of memory.
///
/// Goes once through the entries of each directory that the user may reach, and of no other, so
/// the time is near linear in these entries. The memory grows with the entries of the directories
/// on one path and with what the view keeps: a file with `n` hard links counts `n` times, with
/// names and not paths.
pub fn view_of(alloc: Global, tree: &Tree, uid: Uid) -> Result<View, NoMemory>
    ensures { IfOk result (λ view. view ≡ view_of tree.now uid) }
{
    tree.keeps_the_rules();
    let walker = Walker::new(alloc, tree, uid)?;
    let links = ordered_walks::open_links_in_order(alloc, &walker)?;
    let kept = View::of_links(alloc, links)?;
    Ok(kept)
}

/// A law: the open paths of a file are those that lead to it from the root by names of links, through
/// directories each of which, the root included, grants the user execute; and the files that she may search
/// are files that grant her read. What a node grants is told case by case.
pub fn open_paths_lead_from_the_root(tree: &Tree)
    ensures reads { (user : UserRec) (ino : ℕ) → IsTrue (is_readable tree.now user ino) ↔ (IsTrue (is_file tree.now ino) × Grants tree.now user Want.Read ino) }
    ensures paths { (user : UserRec) (ino : ℕ) (path : List ℕ) → is_file tree.now ino ≡ true → (Contains (open_paths tree.now user ino) path ↔ IsOpenPath tree.now user path ino) }
{
    tree.keeps_the_rules();
    check_is_decided_by_cases();
}
