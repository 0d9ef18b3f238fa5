//! What a tree is made of, what happens to it, and what is answered.
use thiserror::Error;
use wu_access::{Acl, Perm};
use wu_base::{Bytes, Gid, Ino, Sequence, Uid};

/// What a node is.
#[derive(Clone, Copy, Debug, PartialEq, Eq)]
pub enum Kind {
    /// It has entries: names, each of a node.
    Directory,
    /// It has a text, which stands elsewhere.
    File,
}

/// A node, without its number.
#[derive(Clone, Copy, Debug, PartialEq, Eq)]
pub struct Node {
    /// Whether it is a directory or a file.
    pub kind: Kind,
    /// Its owner, its group and its mode.
    pub perm: Perm,
}

/// A link: the name that a node has in a directory.
#[derive(Drop)]
pub struct LinkRec {
    /// The number of the directory.
    pub parent: Ino,
    /// From 1 to 255 bytes, none of them `/` or NUL, and neither `.` nor `..`.
    pub name: Bytes,
    /// The number of the node.
    pub child: Ino,
}

/// What happened to the machine's files and users. Nodes, users and groups stand as their numbers. A name
/// is any bytes: an event whose name may not be one is refused.
#[derive(Drop)]
pub enum Event {
    /// A user is in these groups and no others.
    User {
        /// The user.
        uid: Uid,
        /// The groups, in any order, and maybe some more than once.
        groups: Sequence<Gid>,
    },
    /// A directory was made.
    Mkdir {
        /// The new directory, not 0.
        ino: Ino,
        /// The directory in which it stands.
        parent: Ino,
        /// The name that it has there.
        name: Bytes,
        /// Its owner, its group and its mode.
        perm: Perm,
    },
    /// A file without bytes was made.
    Create {
        /// The new file, not 0.
        ino: Ino,
        /// The directory in which its link stands.
        parent: Ino,
        /// The name that it has there.
        name: Bytes,
        /// Its owner, its group and its mode.
        perm: Perm,
    },
    /// A file was given another text, which the tree doesn't hold.
    Text {
        /// The file.
        ino: Ino,
    },
    /// A file got one more link.
    Link {
        /// The file.
        ino: Ino,
        /// The directory in which the new link stands.
        parent: Ino,
        /// The name that the file has there.
        name: Bytes,
    },
    /// A link to a file went, and the file with it where that was its last.
    Unlink {
        /// The directory in which the link stood.
        parent: Ino,
        /// The name that the file had there.
        name: Bytes,
    },
    /// An empty directory went.
    Rmdir {
        /// The directory in which it stood.
        parent: Ino,
        /// The name that it had there.
        name: Bytes,
    },
    /// A link was moved to another place, where it replaced what stood there.
    Rename {
        /// The directory in which the link stood.
        parent: Ino,
        /// The name that it had there.
        name: Bytes,
        /// The directory in which it stands now.
        new_parent: Ino,
        /// The name that it has there.
        new_name: Bytes,
    },
    /// A node's mode was changed, and with it the mask of its access list, if it has one.
    Chmod {
        /// The node.
        ino: Ino,
        /// The permission bits of the new mode, from 0 to 7777 octal.
        mode: u16,
    },
    /// A node's owner and group were changed.
    Chown {
        /// The node.
        ino: Ino,
        /// The new owner.
        uid: Uid,
        /// The new group.
        gid: Gid,
    },
    /// A node's access list was set, or taken away.
    Acl {
        /// The node.
        ino: Ino,
        /// The new list, with bits of at most 7 and entries that ascend by number without repeats; or None where
        /// the node has none any more.
        acl: Option<Acl>,
        /// The list's mask, from 0 to 7. It has no meaning beside None.
        mask: u8,
    },
}

/// Why an event is refused.
#[derive(Clone, Copy, Debug, PartialEq, Eq, Error)]
pub enum Refusal {
    /// A name has no byte or more than 255, holds `/` or NUL, or is `.` or `..`.
    #[error("not a file name")]
    BadName,
    /// There is no such node, or no such name in the directory.
    #[error("no such file or directory")]
    NoSuch,
    /// A node is a file that had to be a directory, or the other way round.
    #[error("a file where a directory is needed, or a directory where a file is")]
    Kind,
    /// The number or the name is in use.
    #[error("the number or the name is in use")]
    Exists,
    /// The directory has entries.
    #[error("the directory is not empty")]
    NotEmpty,
    /// A directory would come to stand in itself, or below itself.
    #[error("a directory can't be moved into itself")]
    Loop,
    /// A directory would have a depth of more than 255, where the root has depth 1.
    #[error("a directory would lie deeper than 255")]
    Deep,
}

/// What an accepted event did to the files, by their numbers.
#[derive(Clone, Copy, Debug, PartialEq, Eq)]
pub struct Effect {
    /// The file that was made.
    pub made: Option<Ino>,
    /// The file that lost its last link, and is gone.
    pub dropped: Option<Ino>,
    /// The file that was given a text.
    pub texted: Option<Ino>,
}
