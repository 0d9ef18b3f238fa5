//! The frames that are kept, after an event.
ghost use Rattle.std.specs.Prelude.{◌≡◌, IfOk};
ghost use Rattle.wu_space.specs.Addresses.{Addresses};
ghost use Rattle.wu_tree.specs.FileSystems.{FileSystem, acl_of, node_of};
ghost use Rattle.wu_frames.specs.UserFrames.{CacheMatchesTree};
ghost use Rattle.wu_engine.specs.Renewing.{AreLeft, Touches, perm_touched, touched_of};

use std::alloc::Global;
use wu_access::Acl;
use wu_base::{Ino, NoMemory, Range, Uid};
use wu_frames::{FrameCache, LinkChanges, copied_acl, links_changed};
use wu_space::Space;
use wu_tree::{Event, Node, Tree};

/// What an event changes of that of which frames are made, with what it was before.
#[derive(Drop)]
pub(crate) enum Touched {
    /// The range of a file.
    RangeOf(Ino, Range),
    /// The permissions of a node, or its access list.
    PermOf(Ino, Node, Option<Acl>),
    /// The groups of a user.
    GroupsOf(Uid),
    /// Links, and the ranges of files that come or go with them.
    Links(LinkChanges),
    /// Nothing: there is no such file or node, and the event is refused.
    Nothing,
}

/// What the event changes, if it is accepted. Takes memory for access lists of the nodes that it concerns alone. The
/// only error is out of memory.
pub(crate) fn touched_by(
    alloc: Global,
    tree: &Tree,
    space: &Space,
    event: &Event,
) -> Result<Touched, NoMemory>
    ensures { IfOk result (λ touched. touched ≡ touched_of tree.now space.now.ranges event.now) }
{
    match event {
        Event::User { uid, .. } => Ok(Touched::GroupsOf(*uid)),
        Event::Text { ino } => match space.range_of(*ino) {
            Some(range) => Ok(Touched::RangeOf(*ino, range)),
            None => Ok(Touched::Nothing),
        },
        Event::Chmod { ino, .. } => perm_touched(alloc, tree, *ino),
        Event::Chown { ino, .. } => perm_touched(alloc, tree, *ino),
        Event::Acl { ino, .. } => perm_touched(alloc, tree, *ino),
        _ => Ok(Touched::Links(links_changed(alloc, tree, event)?)),
    }
}

/// The permissions of the node and its access list, if it is there.
fn perm_touched(alloc: Global, tree: &Tree, ino: Ino) -> Result<Touched, NoMemory>
    ensures { IfOk result (λ touched. touched ≡ perm_touched ino (node_of tree.now ino) (acl_of tree.now ino)) }
{
    match tree.node(ino) {
        Some(node) => Ok(Touched::PermOf(ino, node, copied_acl(alloc, tree, ino)?)),
        None => Ok(Touched::Nothing),
    }
}

/// Brings the frames that are kept up to an event that happened. They are mended after a text; after other
/// permissions of a node or another access list, other groups of a user, or links that were made, removed or moved
/// those stay that it doesn't change.
pub(crate) fn renew_frames(frames: &mut FrameCache, tree: &Tree, space: &Space, touched: Touched)
    ensures right { (fs : FileSystem) (before : Addresses) → Touches fs before tree.now space.now touched
        → CacheMatchesTree fs before.ranges frames.old → CacheMatchesTree tree.now space.now.ranges frames.new }
    ensures left { (fs : FileSystem) (before : Addresses) → Touches fs before tree.now space.now touched
        → CacheMatchesTree fs before.ranges frames.old → AreLeft tree.now touched frames.old frames.new }
{
    space.keeps_the_rules();
    match touched {
        Touched::RangeOf(ino, old) => match space.range_of(ino) {
            Some(new) => frames.move_range(ino, old, new),
            None => frames.clear(),
        },
        Touched::PermOf(ino, before, acl) => frames.recheck(tree, ino, before, acl),
        Touched::GroupsOf(uid) => frames.forget(uid),
        Touched::Links(links) => frames.relink(tree, links),
        Touched::Nothing => frames.clear(),
    }
}
