//! What a batch changes.
use wu_access::{Acl, Perm, UserRec};
use wu_base::{Bytes, Gid, Ino, Sequence, Uid};
use wu_tree::Kind;

/// The mirror's own directory, through which moves pass. Only user 0 may pass it.
pub const CLOSED: Ino = 2;

/// Where a name stands.
#[derive(Drop)]
pub struct Place {
    /// The number of the directory.
    pub parent: Ino,
    /// The name in it.
    pub name: Bytes,
}

/// An owner and a group.
#[derive(Clone, Copy)]
pub struct Owners {
    /// The owner.
    pub uid: Uid,
    /// The group.
    pub gid: Gid,
}

/// What becomes of a node's access list. The mask isn't told: it is the group's digit of the mode.
#[derive(Drop)]
pub enum ListChange {
    /// It stays as it is, or there is none before and after.
    Same,
    /// The node has this list afterwards.
    Set(Acl),
    /// The node has no list any more.
    Removed,
}

/// How the rights of a node change that stays.
#[derive(Drop)]
pub struct RightsChange {
    /// The mode before the batch, at most four octal digits.
    pub before: u16,
    /// The mode after it.
    pub after: u16,
    /// Owner and group after it, where they aren't those before it.
    pub owners: Option<Owners>,
    /// What becomes of the access list.
    pub list: ListChange,
}

/// What becomes of a node.
#[derive(Drop)]
pub enum Fate {
    /// It is there before the batch and after it.
    Stays {
        /// How its rights change.
        rights: RightsChange,
        /// Whether a name of it is there before and after the batch.
        has_other_name: bool,
    },
    /// It is there only after the batch.
    Made {
        /// Its owner, its group and its mode.
        perm: Perm,
        /// Its access list.
        acl: Option<Acl>,
    },
    /// It is there only before the batch.
    Goes,
}

/// What a batch changes of one node.
#[derive(Drop)]
pub struct Change {
    /// The node.
    pub ino: Ino,
    /// Whether it is a directory or a file.
    pub kind: Kind,
    /// What becomes of it.
    pub fate: Fate,
    /// Whether it is given a text between the two halves of the batch: always where it had another
    /// text before. A file that is made has the empty text.
    pub has_new_text: bool,
    /// Its names that go.
    pub going: Sequence<Place>,
    /// Its names that come.
    pub coming: Sequence<Place>,
}

/// What a batch changes: the groups of users, and nodes with their names. Each directory stands behind
/// the one in which it comes to stand, or stood where it goes, if that one is in the batch too.
#[derive(Drop)]
pub struct Batch {
    /// The users whose groups change, with their groups after the batch. Where there are any, the root
    /// is among the changes.
    pub users: Sequence<UserRec>,
    /// The nodes of which something changes, each once.
    pub changes: Sequence<Change>,
}

/// The order of a batch: the events before its texts, and those after them.
#[derive(Drop)]
pub struct Plan {
    /// The events before the texts.
    pub head: Vec<wu_tree::Event>,
    /// The events after the texts.
    pub tail: Vec<wu_tree::Event>,
}
