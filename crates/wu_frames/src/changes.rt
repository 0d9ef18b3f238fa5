//! What an event changes, and whom it spares.
ghost use Rattle.std.specs.Prelude.{◌≡◌};
ghost use Rattle.wu_frames.specs.Changes.{is_spared};

use crate::links::{self, LinkChanges};
use crate::permissions;
use wu_access::Acl;
use wu_base::{Ino, Uid};
use wu_tree::{Node, Tree};

/// What an event changes of that by which users see files.
#[derive(Drop)]
pub(crate) enum Change {
    /// The permissions of the node of that number, which was that one and had that access list.
    PermOf(Ino, Node, Option<Acl>),
    /// Links that it makes and removes.
    Links(LinkChanges),
}

/// Whether the change is none for the user: the node grants her what it granted before, or she sees none of the links.
pub(crate) fn is_spared(tree: &Tree, change: &Change, uid: Uid) -> bool
    ensures { result ≡ is_spared tree.now change.now uid }
{
    match change {
        Change::PermOf(ino, before, acl) => {
            permissions::grants_as_before(tree, *ino, before, acl.as_ref(), uid)
        }
        Change::Links(links) => links::sees_none(tree, links, uid),
    }
}
