//! A user who walks through a tree.
ghost use Rattle.std.specs.Prelude.{◌≡◌, [], map, Some, IfOk, MatchOption, option_copied};
ghost use Rattle.std.specs.Ordering.{nat_cmp};
ghost use Rattle.std.specs.List.Sorted.{IsStrictlySortedBy};
ghost use Rattle.wu_tree.specs.FileSystems.{entries_of, groups_of};
ghost use Rattle.wu_view.specs.Views.{user_with};
ghost use Rattle.wu_view.specs.Walks.{met_at, met_node};

use std::alloc::Global;
use std::collections::BTreeMap;
use std::marker::Model;
use wu_access::{Acl, UserRec, Want, allows};
use wu_base::{Ino, NoMemory, Sequence, Uid};
use wu_tree::{Kind, Node, Tree};

/// What a user meets at a node.
#[derive(Clone, Copy)]
pub(crate) enum Met {
    /// A file that grants her read.
    Readable,
    /// A directory that grants her execute.
    Passable,
    /// A node that denies her this, or none.
    Closed,
}

/// A user who walks through a tree. Contracts see the tree and the user.
#[derive(Drop)]
pub(crate) struct Walker<'a> {
    tree: &'a Tree,
    user: UserRec,
    /// Whether a node of the tree has an access list. Where none has, none is looked up.
    has_acls: bool,
}

impl<'a> Model for Walker<'a> {
    ghost use Rattle.std.specs.Prelude.{◌≡◌, false, []};
    ghost use Rattle.std.specs.List.Sorted.{IsStrictlySortedBy};
    ghost use Rattle.std.specs.Ordering.{nat_cmp};
    ghost use Rattle.wu_view.specs.Walks.{UserInTree};

    ghost Value = { UserInTree };

    ghost view = { λ w. record { tree = w.tree.now; user = w.user } };

    ghost invariant = { λ w. IsStrictlySortedBy nat_cmp w.user.groups × (w.has_acls ≡ false → w.tree.now.acls ≡ []) };
}

impl<'a> Walker<'a> {
    /// The user of that number with her groups; one who was never given has none.
    pub(crate) fn new(alloc: Global, tree: &'a Tree, uid: Uid) -> Result<Walker<'a>, NoMemory>
        ensures tree { IfOk result (λ walker. walker.tree ≡ tree.now) }
        ensures user { IfOk result (λ walker. walker.user ≡ user_with uid (groups_of tree.now uid)) }
    {
        let groups = Sequence::from(Vec::from_slice(alloc, tree.groups_of(uid))?);
        Ok(Walker {
            tree,
            user: UserRec { uid, groups },
            has_acls: tree.acls().next().is_some(),
        })
    }

    /// The names in a directory, as [`Tree::entries`] gives them.
    pub(crate) fn entries(&self, directory: Ino) -> Option<&BTreeMap<Vec<u8>, Ino>>
        ensures { MatchOption result (entries_of self.now.tree.links directory ≡ [])
            (λ names. map (λ e. (e.0.items, e.1)) names.now.entries ≡ entries_of self.now.tree.links directory) }
    {
        self.tree.entries(directory)
    }

    /// What the user meets at the node of that number.
    pub(crate) fn meet(&self, ino: Ino) -> Met
        ensures { result ≡ met_at self.now.tree self.now.user ino }
    {
        let Some(node) = self.tree.node(ino) else {
            return Met::Closed;
        };
        if !self.has_acls {
            return meet_node(&self.user, &node, None);
        }
        meet_node(&self.user, &node, self.tree.acl_of(ino))
    }
}

/// What the user meets at that node, which has that access list or none.
#[inline(always)]
fn meet_node(user: &UserRec, node: &Node, acl: Option<&Acl>) -> Met
    requires { IsStrictlySortedBy nat_cmp user.now.groups }
    ensures { result ≡ met_node user.now (option_copied acl.entry) (Some node.now) }
{
    let (want, met) = match node.kind {
        Kind::File => (Want::Read, Met::Readable),
        Kind::Directory => (Want::Execute, Met::Passable),
    };
    if allows(user, &node.perm, acl, want) {
        met
    } else {
        Met::Closed
    }
}
