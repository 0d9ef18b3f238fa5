//! What a node grants a user.
ghost use Rattle.std.specs.Prelude.{◌≡◌, IfOk, option_copied};
ghost use Rattle.wu_tree.specs.FileSystems.{acl_of};
ghost use Rattle.wu_access.specs.Access.{is_allowed};
ghost use Rattle.wu_frames.specs.Permissions.{grants_as_before, user_in, want_of};

use std::alloc::Global;
use wu_access::{Acl, Perm, Want, allows_by_groups};
use wu_base::{Ino, NoMemory, Uid};
use wu_tree::{Kind, Node, Tree};

/// Whether the node grants the user what it granted her when it was the one given, with that access list.
pub(crate) fn grants_as_before(
    tree: &Tree,
    ino: Ino,
    before: &Node,
    acl: Option<&Acl>,
    uid: Uid,
) -> bool
    ensures { result ≡ grants_as_before tree.now ino before.now (option_copied acl.entry) uid }
{
    let want = want_of(before.kind);
    let now = match tree.node(ino) {
        Some(node) => grants(tree, uid, &node.perm, tree.acl_of(ino), want),
        None => false,
    };
    grants(tree, uid, &before.perm, acl, want) == now
}

/// What a view asks of a node of that kind.
pub(crate) fn want_of(kind: Kind) -> Want
    ensures { result ≡ want_of kind }
{
    match kind {
        Kind::File => Want::Read,
        Kind::Directory => Want::Execute,
    }
}

/// Whether the permissions, with that access list or none, grant the user that. Her groups are read where the tree has
/// them, so that no change depends on memory.
pub(crate) fn grants(tree: &Tree, uid: Uid, perm: &Perm, acl: Option<&Acl>, want: Want) -> bool
    ensures { result ≡ is_allowed (user_in tree.now uid) perm.now (option_copied acl.entry) want }
{
    allows_by_groups(uid, tree.groups_of(uid), perm, acl, want)
}

/// The access list of that node once more, for when the node has another one or is gone. The only error is out of
/// memory.
pub fn copied_acl(alloc: Global, tree: &Tree, ino: Ino) -> Result<Option<Acl>, NoMemory>
    ensures { IfOk result (λ acl. acl ≡ acl_of tree.now ino) }
{
    match tree.acl_of(ino) {
        Some(acl) => Ok(Some(acl.copied(alloc)?)),
        None => Ok(None),
    }
}
