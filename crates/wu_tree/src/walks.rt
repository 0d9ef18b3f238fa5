//! Walks over all that a tree has, in order.
ghost use Rattle.std.specs.Prelude.{◌≡◌, map};
ghost use Rattle.wu_tree.specs.FileSystems.{entries_of};

use crate::events::Node;
use crate::inodes::Inode;
use crate::trees::Tree;
use std::collections::btree_map::{Iter, Values};
use std::marker::Model;
use wu_access::{Acl, UserRec};
use wu_base::{Ino, Uid};

/// The nodes that are left of a walk over a tree's nodes, in order of number. Contracts see the list of them.
#[derive(Drop)]
pub struct Nodes<'a> {
    rest: Iter<'a, Ino, Inode>,
}

impl<'a> Model for Nodes<'a> {
    ghost use Rattle.std.specs.Prelude.{ℕ, List};
    ghost use Rattle.wu_tree.specs.declared.events.Node.{Node};
    ghost use Rattle.wu_tree.specs.Inodes.{nodes_in};

    ghost Value = { List (ℕ × Node) };

    ghost view = { λ s. nodes_in s.rest };
}

impl<'a> Iterator for Nodes<'a> {
    ghost use Rattle.std.specs.Iterator.{YieldsFirst, item_count};

    type Item = (Ino, Node);

    ghost next_gives = { YieldsFirst (λ left. left) };

    ghost remaining = { item_count (λ left. left) };

    fn next(&mut self) -> Option<(Ino, Node)> {
        let (ino, inode) = self.rest.next()?;
        Some((*ino, inode.node()))
    }
}

/// The users that are left of a walk over a tree's users, in order of number. Contracts see the list of them.
#[derive(Drop)]
pub struct Users<'a> {
    rest: Values<'a, Uid, UserRec>,
}

impl<'a> Model for Users<'a> {
    ghost use Rattle.std.specs.Prelude.{List};
    ghost use Rattle.wu_access.specs.declared.UserRec.{UserRec};

    ghost Value = { List UserRec };

    ghost view = { λ s. s.rest };
}

impl<'a> Iterator for Users<'a> {
    ghost use Rattle.std.specs.Iterator.{YieldsFirstRef, item_count};

    type Item = &'a UserRec;

    ghost next_gives = { YieldsFirstRef (λ left. left) };

    ghost remaining = { item_count (λ left. left) };

    fn next(&mut self) -> Option<&'a UserRec> {
        self.rest.next()
    }
}

/// The access lists that are left of a walk over those of a tree, in order of the numbers of their nodes, each with
/// that number. Contracts see the list of them.
#[derive(Drop)]
pub struct Acls<'a> {
    rest: Iter<'a, Ino, Acl>,
}

impl<'a> Model for Acls<'a> {
    ghost use Rattle.std.specs.Prelude.{ℕ, List};
    ghost use Rattle.wu_access.specs.declared.acls.Acl.{Acl};

    ghost Value = { List (ℕ × Acl) };

    ghost view = { λ s. s.rest };
}

impl<'a> Iterator for Acls<'a> {
    ghost use Rattle.std.specs.Iterator.{YieldsFirstBy, item_count};

    type Item = (Ino, &'a Acl);

    ghost next_gives = { YieldsFirstBy (λ item. (item.0, item.1.now)) (λ left. left) };

    ghost remaining = { item_count (λ left. left) };

    fn next(&mut self) -> Option<(Ino, &'a Acl)> {
        let (ino, acl) = self.rest.next()?;
        Some((*ino, acl))
    }
}

/// The names that are left of a walk over a directory, in byte order, each with the number of the node that has
/// it. Contracts see the list of them.
#[derive(Drop)]
pub struct Entries<'a> {
    rest: Option<Iter<'a, Vec<u8>, Ino>>,
}

impl<'a> Model for Entries<'a> {
    ghost use Rattle.std.specs.Prelude.{ℕ, List};
    ghost use Rattle.wu_tree.specs.Walks.{names_left};

    ghost Value = { List (List ℕ × ℕ) };

    ghost view = { λ s. names_left (λ k. k.items) s.rest };
}

impl<'a> Iterator for Entries<'a> {
    ghost use Rattle.std.specs.Iterator.{YieldsFirstBy, item_count};

    type Item = (&'a [u8], Ino);

    ghost next_gives = { YieldsFirstBy (λ entry. (entry.0.now, entry.1)) (λ left. left) };

    ghost remaining = { item_count (λ left. left) };

    fn next(&mut self) -> Option<(&'a [u8], Ino)> {
        let (name, child) = self.rest.as_mut()?.next()?;
        Some((name.as_slice(), *child))
    }
}

impl Tree {
    /// All nodes, in order of number. Takes no memory; a walk takes time that grows with the number of nodes.
    pub fn nodes(&self) -> Nodes<'_>
        ensures { result ≡ self.now.nodes }
    {
        Nodes {
            rest: self.inodes.iter(),
        }
    }

    /// All users that were given, in order of number. Takes no memory; a walk takes time that grows with the
    /// number of users.
    pub fn users(&self) -> Users<'_>
        ensures { map (λ user. (user.uid, user.groups)) result ≡ self.now.users }
    {
        Users {
            rest: self.users.values(),
        }
    }

    /// The access lists of all nodes that have one, in order of the nodes' numbers, each with that number. Takes no
    /// memory; a walk takes time that grows with the number of lists.
    pub fn acls(&self) -> Acls<'_>
        ensures { result ≡ self.now.acls }
    {
        Acls {
            rest: self.acls.iter(),
        }
    }

    /// A directory's names in byte order, each with the number of the node that has it: none where the directory
    /// has no entries, is a file, or isn't there. Takes no memory; a walk takes time that grows with the number
    /// of names.
    pub fn names(&self, dir: Ino) -> Entries<'_>
        ensures { result ≡ entries_of self.now.links dir }
    {
        match self.entries(dir) {
            Some(names) => Entries {
                rest: Some(names.iter()),
            },
            None => Entries { rest: None },
        }
    }
}
