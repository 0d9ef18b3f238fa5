//! The checkpoint of a store.
use crate::records::FileRec;
use wu_base::{PartRec, Sequence};
use wu_tree::Tree;

/// What a checkpoint tells: the next address, the next blob number, the number of flushes that made a
/// part, the file tree, what is recorded of each regular file, by its number, and the parts from left to
/// right.
#[derive(Drop)]
pub struct Checkpoint {
    pub next_address: u64,
    pub next_blob: u64,
    pub flushes: u64,
    pub tree: Tree,
    pub files: Sequence<FileRec>,
    pub parts: Sequence<PartRec>,
}

/// The versions of the format of checkpoints. Both are read, and the second is written.
#[derive(Clone, Copy)]
pub enum Version {
    /// Without access lists.
    First,
    /// With access lists, which stand behind the parts.
    Second,
}

/// The first bytes of a checkpoint of the first version, and of the second.
pub(crate) const FIRST_MARK: [u8; 8] = *b"WUMPUSC1";

pub(crate) const SECOND_MARK: [u8; 8] = *b"WUMPUSC2";
