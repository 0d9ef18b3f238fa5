//! A tree, and what it tells.
ghost use Rattle.std.specs.Prelude.{◌≡◌, ◌≢◌, true, IfOk, IfSome, ◌≤◌, [], map, MatchOption, option_copied, slice_get};
ghost use Rattle.std.specs.Option.{option_map};
ghost use Rattle.std.specs.Ordering.{nat_cmp};
ghost use Rattle.std.specs.List.Sorted.{IsStrictlySortedBy};

use crate::events::Node;
use crate::inodes::{Hold, Inode};
use crate::links::Links;
use std::alloc::Global;
use std::collections::BTreeMap;
use std::marker::Model;
use wu_access::{Acl, Perm, UserRec};
use wu_base::{DEPTH_MAX, Gid, Ino, NoMemory, ROOT, Uid};

/// A tree of directories and files, and the users with their groups. Contracts see the file system that it
/// stands for: its nodes, its links, its users and its nodes' access lists. The numbers of nodes, users and
/// groups have 32 bits.
#[derive(Drop)]
pub struct Tree {
    pub(crate) alloc: Global,
    pub(crate) inodes: BTreeMap<Ino, Inode>,
    pub(crate) links: Links,
    pub(crate) users: BTreeMap<Uid, UserRec>,
    /// Of the nodes that have one, so that the others keep no room for it.
    pub(crate) acls: BTreeMap<Ino, Acl>,
}

impl Model for Tree {
    ghost use Rattle.wu_tree.specs.FileSystems.{FileSystem};

    ghost Value = { FileSystem };

    ghost use Rattle.wu_tree.specs.Inodes.{file_system, IsSound};

    ghost view = { λ t. file_system t.inodes.entries t.links t.users.entries t.acls.entries };

    ghost invariant = { λ t. IsSound t.inodes.entries t.links t.users.entries t.acls.entries };
}

impl Tree {
    ghost use Rattle.wu_tree.specs.FileSystems.{FileSystem, acl_of, child_of, depth as depth_of, entries_of, file_count as count_of_files, groups_of, has_entries, is_directory, is_kind_file, node_of, parent_of, root_alone};
    ghost use Rattle.wu_tree.specs.Rules.{IsTree};

    /// The root directory alone, with owner 0, group 0 and mode 755 octal, no access list and no users. The tree keeps the
    /// allocator for its changes. The one error is out of memory.
    pub fn new(alloc: Global) -> Result<Tree, NoMemory>
        ensures { IfOk result (λ tree. tree ≡ root_alone) }
    {
        let root = Inode {
            perm: Perm {
                uid: 0,
                gid: 0,
                mode: 0o755,
            },
            hold: Hold::Entries { parent: ROOT },
            height: 0,
        };
        let mut inodes = BTreeMap::new(alloc);
        inodes.insert(ROOT, root)?;
        Ok(Tree {
            alloc,
            inodes,
            links: Links::new(alloc),
            users: BTreeMap::new(alloc),
            acls: BTreeMap::new(alloc),
        })
    }

    /// The node of that number, or None where there is none. Its mode has at most four octal digits. Takes no
    /// memory, and time logarithmic in the number of nodes.
    pub fn node(&self, ino: Ino) -> Option<Node>
        ensures node { result ≡ node_of self.now ino }
        ensures mode { IfSome result (λ node. node.perm.mode ≤ 0xFFF) }
    {
        match self.inodes.get(&ino) {
            Some(inode) => Some(inode.node()),
            None => None,
        }
    }

    /// The access list of that node, or None where there is no such node or it has no list. Takes no memory, and
    /// time logarithmic in the number of lists.
    #[inline(always)]
    pub fn acl_of(&self, ino: Ino) -> Option<&Acl>
        ensures { option_copied result ≡ acl_of self.now ino }
    {
        self.acls.get(&ino)
    }

    /// The number of the node that has that name in that directory, or None where the directory has no such
    /// name, is a file, or isn't there. Takes no memory, and time logarithmic in the number of directories
    /// and in that of the directory's names.
    pub fn child(&self, dir: Ino, name: &[u8]) -> Option<Ino>
        ensures { result ≡ child_of self.now dir name.now }
    {
        self.links.child(dir, name)
    }

    /// The names in a directory, in byte order, each with the number of the node that has it; or None where
    /// the directory has no entries, is a file, or isn't there. The map is borrowed from the tree: going
    /// through it takes time that grows with the number of its names. Takes no memory, and time logarithmic
    /// in the number of directories.
    pub fn entries(&self, dir: Ino) -> Option<&BTreeMap<Vec<u8>, Ino>>
        ensures { MatchOption result (entries_of self.now.links dir ≡ []) (λ names. map (λ e. (e.0.items, e.1)) names.now.entries ≡ entries_of self.now.links dir) }
    {
        self.links.names(dir)
    }

    /// The `i`-th name in a directory, counted from 0, in byte order, with the number of the node that has it;
    /// or None where the directory has no more than `i` names. Takes no memory, and time that grows with `i`.
    pub fn entry(&self, dir: Ino, i: usize) -> Option<(&[u8], Ino)>
        ensures { option_map (λ entry. (entry.0.now, entry.1)) result ≡ slice_get (entries_of self.now.links dir) i }
    {
        match self.entries(dir) {
            Some(names) => match names.iter().nth(i) {
                Some((name, child)) => Some((name.as_slice(), *child)),
                None => None,
            },
            None => None,
        }
    }

    /// The `i`-th node, counted from 0, in order of number, or None where there are no more than `i` nodes.
    /// Takes no memory, and time that grows with `i`.
    pub fn node_at(&self, i: usize) -> Option<(Ino, Node)>
        ensures { result ≡ slice_get self.now.nodes i }
    {
        match self.inodes.iter().nth(i) {
            Some((ino, inode)) => Some((*ino, inode.node())),
            None => None,
        }
    }

    /// The `i`-th user, counted from 0, in order of number, or None where no more than `i` users were given.
    /// Takes no memory, and time that grows with `i`.
    pub fn user_at(&self, i: usize) -> Option<&UserRec>
        ensures { option_map (λ user. (user.now.uid, user.now.groups)) result ≡ slice_get self.now.users i }
    {
        self.users.values().nth(i)
    }

    /// The numbers of the user's groups, ascending and without repeats. One who was never given has none.
    /// Takes no memory, and time logarithmic in the number of users.
    pub fn groups_of(&self, uid: Uid) -> &[Gid]
        ensures groups { result.now ≡ groups_of self.now uid }
        ensures ascend { IsStrictlySortedBy nat_cmp result.now }
    {
        match self.users.get(&uid) {
            Some(user) => user.groups.as_slice(),
            None => &[],
        }
    }

    /// How many files there are. Takes no memory, and time that grows with the number of nodes.
    pub fn file_count(&self) -> u64
        ensures { result ≡ count_of_files self.now }
    {
        self.inodes
            .values()
            .filter(|inode| inode.hold.is_file())
            .count() as u64
    }

    /// Returns nothing and does nothing, in constant time: its clause says that the tree's nodes, links,
    /// users and access lists keep the rules of a tree, as they do at every moment. Proofs of callers cite it.
    pub fn keeps_the_rules(&self)
        ensures { IsTree self.now }
    {
        let _ = &self.links;
    }

    /// The number of the directory in which a directory other than the root stands. Takes no memory, and time
    /// logarithmic in the number of nodes.
    pub fn parent(&self, directory: Ino) -> Option<Ino>
        requires found { is_directory self.now directory ≡ true }
        requires below { directory ≢ 1 }
        ensures parent { result ≡ parent_of self.now.links directory }
        ensures directory { IfSome result (λ parent. is_directory self.now parent ≡ true) }
    {
        self.inodes.get(&directory)?.hold.parent()
    }

    /// Whether the directory has entries.
    pub(crate) fn has_entries(&self, directory: Ino) -> bool
        ensures { result ≡ has_entries self.now.links directory }
    {
        self.links.has_entries(directory)
    }

    /// How deep a directory lies, from 1, the root's depth, to 255. Takes that many look-ups less one.
    pub(crate) fn depth(&self, directory: Ino) -> usize
        requires { is_directory self.now directory ≡ true }
        ensures depth { result ≡ depth_of self.now.links directory }
        ensures small { result ≤ DEPTH_MAX }
    {
        self.keeps_the_rules();
        let mut depth = 1;
        let mut current = directory;
        while current != ROOT {
            match self.parent(current) {
                Some(parent) => current = parent,
                None => return depth,
            }
            depth += 1;
        }
        depth
    }
}
