//! Renaming: a link moves to another place, and replaces what stood there.
ghost use Rattle.std.specs.Prelude.{◌≡◌, ◌≢◌, None, Some, OnOk, OnErr};
ghost use Rattle.std.specs.Ordering.{nat_cmp};
ghost use Rattle.std.specs.BTreeMap.{get};
ghost use Rattle.wu_tree.specs.FileSystems.{child_of, IsLeaf};
ghost use Rattle.wu_tree.specs.Inodes.{with_acl_lost, with_link_lost, with_parent};

use crate::heights::raise_over;
use crate::inodes::Inode;
use crate::trees::Tree;
use std::collections::BTreeMap;
use wu_access::Acl;
use wu_base::{Ino, NoMemory};

impl Tree {
    ghost use Rattle.wu_tree.specs.LinkMoves.{IsMove};
    ghost use Rattle.wu_tree.specs.Steps.{with_link_moved, without_link};

    /// Moves a link to a place where nothing stands.
    pub(crate) fn move_to_free(
        &mut self,
        parent: Ino,
        name: &[u8],
        new_parent: Ino,
        new_name: &[u8],
        child: Ino,
    ) -> Result<(), NoMemory>
        requires moves { IsMove self.old parent name.now new_parent new_name.now child }
        requires free { child_of self.old new_parent new_name.now ≡ None }
        ensures ok { OnOk result (self.new ≡ with_link_moved self.old parent name.now new_parent new_name.now child) }
        ensures err { OnErr result (self.new ≡ self.old) }
    {
        self.links.insert(self.alloc, new_parent, new_name, child)?;
        raise_over(&mut self.inodes, new_parent, child);
        self.links.remove(parent, name);
        move_inode(&mut self.inodes, child, new_parent);
        Ok(())
    }

    /// Moves a link to a place where a link to another node stands, which goes.
    pub(crate) fn move_onto(
        &mut self,
        parent: Ino,
        name: &[u8],
        new_parent: Ino,
        new_name: &[u8],
        child: Ino,
        target: Ino,
    ) -> Result<(), NoMemory>
        requires moves { IsMove self.old parent name.now new_parent new_name.now child }
        requires target { child_of self.old new_parent new_name.now ≡ Some target }
        requires other { target ≢ child }
        requires leaf { IsLeaf self.old target }
        ensures ok { OnOk result (self.new ≡ with_link_moved (without_link self.old new_parent new_name.now) parent name.now new_parent new_name.now child) }
        ensures err { OnErr result (self.new ≡ self.old) }
    {
        self.links.insert(self.alloc, new_parent, new_name, child)?;
        raise_over(&mut self.inodes, new_parent, child);
        self.links.remove(parent, name);
        drop_inode_link(&mut self.inodes, &mut self.acls, target);
        move_inode(&mut self.inodes, child, new_parent);
        Ok(())
    }
}

/// A node loses a link, and goes with its last, and its access list with it.
pub(crate) fn drop_inode_link(
    inodes: &mut BTreeMap<Ino, Inode>,
    acls: &mut BTreeMap<Ino, Acl>,
    ino: Ino,
)
    ensures nodes { inodes.new.entries ≡ with_link_lost (get nat_cmp inodes.old ino) ino inodes.old.entries }
    ensures acls { acls.new.entries ≡ with_acl_lost (get nat_cmp inodes.old ino) ino acls.old.entries }
{
    let last = match inodes.get(&ino) {
        Some(inode) => inode.hold.has_one_link(),
        None => return,
    };
    if last {
        inodes.remove(&ino);
        acls.remove(&ino);
    } else if let Some(inode) = inodes.get_mut(&ino) {
        inode.hold = inode.hold.fewer_links();
    }
}

/// A node moves to another parent.
fn move_inode(inodes: &mut BTreeMap<Ino, Inode>, ino: Ino, parent: Ino)
    ensures { inodes.new.entries ≡ with_parent parent (get nat_cmp inodes.old ino) ino inodes.old.entries }
{
    if let Some(inode) = inodes.get_mut(&ino) {
        inode.hold = inode.hold.moved_to(parent);
    }
}
