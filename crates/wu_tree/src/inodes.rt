//! What a tree keeps of a node.
ghost use Rattle.std.specs.Prelude.{◌≡◌};
ghost use Rattle.wu_tree.specs.Inodes.{fewer_links, first_hold, has_one_link, height_over, kind_of, moved_hold, node_in, parent_in};
ghost use Rattle.wu_tree.specs.FileSystems.{is_kind_file};

use crate::events::{Kind, Node};
use wu_access::Perm;
use wu_base::Ino;

/// What a tree keeps of a node: its permissions, and of its links as much as saves a search among them.
#[derive(Clone, Copy)]
pub(crate) struct Inode {
    pub(crate) perm: Perm,
    pub(crate) hold: Hold,
    /// Of a directory: at most so many levels of directories lie below it, or any number where it is 255. A
    /// file has 0.
    pub(crate) height: u8,
}

/// What a tree keeps of the links that name a node, by which they hold it in the tree. It also tells the
/// node's kind.
#[derive(Clone, Copy)]
pub(crate) enum Hold {
    /// Of a directory, which may have entries: the number of its parent, the directory in which its one link
    /// stands. The root, which has no link, counts as its own parent.
    Entries { parent: Ino },
    /// Of a file: how many links name it, at least one.
    Links { count: u64 },
}

impl Inode {
    /// The node as callers see it.
    pub(crate) fn node(&self) -> Node
        ensures { result ≡ node_in self.now }
    {
        Node {
            kind: self.hold.kind(),
            perm: self.perm,
        }
    }

    /// The least height of a directory in which the node stands. Files don't count.
    pub(crate) fn height_over(&self) -> u8
        ensures { result ≡ height_over self.now }
    {
        if self.hold.is_file() {
            0
        } else {
            self.height.saturating_add(1)
        }
    }
}

impl Hold {
    /// How a new node is held: a directory in its parent, a file by its first link.
    pub(crate) fn first(kind: Kind, parent: Ino) -> Hold
        ensures { result ≡ first_hold kind parent }
    {
        match kind {
            Kind::Directory => Hold::Entries { parent },
            Kind::File => Hold::Links { count: 1 },
        }
    }

    /// Whether the node has one link and no more. So has each directory.
    pub(crate) fn has_one_link(&self) -> bool
        ensures { result ≡ has_one_link self.now }
    {
        match self {
            Hold::Entries { .. } => true,
            Hold::Links { count } => *count == 1,
        }
    }

    /// The hold of a file with one link fewer. A directory's stays.
    pub(crate) fn fewer_links(&self) -> Hold
        ensures { result ≡ fewer_links self.now }
    {
        match self {
            Hold::Entries { parent } => Hold::Entries { parent: *parent },
            Hold::Links { count } => Hold::Links {
                count: count.saturating_sub(1),
            },
        }
    }

    /// The hold of a directory in another parent. A file's stays.
    pub(crate) fn moved_to(&self, parent: Ino) -> Hold
        ensures { result ≡ moved_hold parent self.now }
    {
        match self {
            Hold::Entries { .. } => Hold::Entries { parent },
            Hold::Links { count } => Hold::Links { count: *count },
        }
    }

    /// Whether it is a file's.
    pub(crate) fn is_file(&self) -> bool
        ensures { result ≡ is_kind_file (kind_of self.now) }
    {
        match self {
            Hold::Entries { .. } => false,
            Hold::Links { .. } => true,
        }
    }

    /// A directory's parent.
    pub(crate) fn parent(&self) -> Option<Ino>
        ensures { result ≡ parent_in self.now }
    {
        match self {
            Hold::Entries { parent } => Some(*parent),
            Hold::Links { .. } => None,
        }
    }

    fn kind(&self) -> Kind
        ensures { result ≡ kind_of self.now }
    {
        match self {
            Hold::Entries { .. } => Kind::Directory,
            Hold::Links { .. } => Kind::File,
        }
    }
}
