//! Records of texts.

use wu_base::{Ino, Range};

/// What is recorded of a regular file: the length of its text in bytes, the blob that holds the text, and
/// the live range of the text's tokens. In a checkpoint the blob is 0 exactly for the empty text, which
/// is in no blob.
#[derive(Clone, Copy, Debug, PartialEq, Eq)]
pub struct FileRec {
    pub ino: Ino,
    pub len: u32,
    pub blob: u64,
    pub range: Range,
}
