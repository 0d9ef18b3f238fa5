//! The changes of a tree, each for an event that the rules accept. A change that needs memory takes it
//! first, so that the tree is as it was where there is none.
ghost use Rattle.std.specs.Prelude.{◌≡◌, ◌+◌, ◌<◌, ◌≤◌, true, false, None, Some, OnOk, OnErr, IfOk, ◌==◌, ◌≢◌};
ghost use Rattle.std.specs.Ordering.{nat_cmp};
ghost use Rattle.std.specs.List.Sorted.{IsStrictlySortedBy};
ghost use Rattle.wu_base.specs.SortedOnce.{sorted_once};
ghost use Rattle.wu_tree.specs.FileSystems.{child_of, depth, is_directory, is_file, is_name, is_used, link_count, node_of, IsLeaf};

use crate::events::{Kind, Node};
use crate::heights::raise;
use crate::inodes::{Hold, Inode};
use crate::moves::drop_inode_link;
use crate::trees::Tree;
use std::alloc::Global;
use wu_access::{Perm, UserRec};
use wu_base::{DEPTH_MAX, Gid, Ino, NoMemory, Sequence, Uid, sorted_once};

impl Tree {
    ghost use Rattle.wu_tree.specs.Steps.{named_by, with_link, with_node, with_perm, with_user, without_link};

    /// Puts a new node and its link into a directory.
    pub(crate) fn add_node(
        &mut self,
        ino: Ino,
        parent: Ino,
        name: &[u8],
        node: Node,
    ) -> Result<(), NoMemory>
        requires low { 1 ≤ ino }
        requires mode { node.perm.mode ≤ 0xFFF }
        requires named { is_name name.now ≡ true }
        requires directory { is_directory self.old parent ≡ true }
        requires new { node_of self.old ino ≡ None }
        requires free { child_of self.old parent name.now ≡ None }
        requires shallow { node.kind ≡ Kind.Directory → depth self.old.links parent < DEPTH_MAX }
        ensures ok { OnOk result (self.new ≡ with_node self.old ino parent name.now node) }
        ensures err { OnErr result (self.new ≡ self.old) }
    {
        let inode = Inode {
            perm: node.perm,
            hold: Hold::first(node.kind, parent),
            height: 0,
        };
        raise(&mut self.inodes, parent, inode.height_over());
        self.inodes.insert(ino, inode)?;
        if let Err(error) = self.links.insert(self.alloc, parent, name, ino) {
            self.inodes.remove(&ino);
            return Err(error);
        }
        Ok(())
    }

    /// Gives a node other permissions.
    pub(crate) fn set_perm(&mut self, ino: Ino, perm: Perm)
        requires mode { perm.mode ≤ 0xFFF }
        ensures { self.new ≡ with_perm (λ _. perm) self.old ino (node_of self.old ino) }
    {
        if let Some(inode) = self.inodes.get_mut(&ino) {
            inode.perm = perm;
        }
    }

    /// Puts one more link to a file into a directory.
    pub(crate) fn add_link(&mut self, ino: Ino, parent: Ino, name: &[u8]) -> Result<(), NoMemory>
        requires named { is_name name.now ≡ true }
        requires directory { is_directory self.old parent ≡ true }
        requires file { is_file self.old ino ≡ true }
        requires free { child_of self.old parent name.now ≡ None }
        ensures ok { OnOk result (self.new ≡ with_link self.old ino parent name.now) }
        ensures err { OnErr result (self.new ≡ self.old) }
    {
        let count = self.next_count(ino)?;
        self.links.insert(self.alloc, parent, name, ino)?;
        if let Some(inode) = self.inodes.get_mut(&ino) {
            inode.hold = Hold::Links { count };
        }
        Ok(())
    }

    /// How many links a file has with one more. There is no memory for so many that they can't be counted.
    fn next_count(&self, ino: Ino) -> Result<u64, NoMemory>
        requires { is_file self.now ino ≡ true }
        ensures { IfOk result (λ count. count ≡ link_count self.now.links ino + 1) }
    {
        match self.inodes.get(&ino) {
            Some(inode) => match inode.hold {
                Hold::Links { count } => count.checked_add(1).ok_or(NoMemory),
                Hold::Entries { .. } => Err(NoMemory),
            },
            None => Err(NoMemory),
        }
    }

    /// Takes a link out, and its node where that was the last.
    pub(crate) fn drop_link(&mut self, parent: Ino, name: &[u8])
        requires used { is_used self.old parent name.now ≡ true }
        requires leaf { IsLeaf self.old (named_by self.old parent name.now) }
        ensures { self.new ≡ without_link self.old parent name.now }
    {
        if let Some(child) = self.child(parent, name) {
            self.links.remove(parent, name);
            drop_inode_link(&mut self.inodes, &mut self.acls, child);
        }
    }

    /// Whether a node that has links has but one.
    pub(crate) fn has_one_link(&self, child: Ino) -> bool
        requires { 1 ≤ link_count self.now.links child }
        ensures { result ≡ (link_count self.now.links child == 1) }
    {
        match self.inodes.get(&child) {
            Some(inode) => inode.hold.has_one_link(),
            None => true,
        }
    }

    /// Puts a user into these groups and no others.
    pub(crate) fn set_user(&mut self, uid: Uid, groups: &[Gid]) -> Result<(), NoMemory>
        ensures ok { OnOk result (self.new ≡ with_user self.old uid groups.now) }
        ensures err { OnErr result (self.new ≡ self.old) }
    {
        let groups = ascending(self.alloc, groups)?;
        self.users.insert(uid, UserRec { uid, groups })?;
        Ok(())
    }
}

/// The numbers ascending and without repeats.
#[tactic(auto, using(std::proofs::lemmas::Map::Lookups::exact_unsigned))]
fn ascending(alloc: Global, numbers: &[Gid]) -> Result<Sequence<Gid>, NoMemory>
    ensures numbers { IfOk result (λ s. s ≡ sorted_once nat_cmp numbers.now) }
    ensures ascend { IfOk result (λ s. IsStrictlySortedBy nat_cmp s) }
{
    let numbers = Vec::from_slice(alloc, numbers)?;
    Ok(Sequence::from(sorted_once(numbers)))
}
