//! The range of one read of a blob.
ghost use Rattle.std.specs.Prelude.{◌≡◌};
ghost use Rattle.wu_outside.specs.Ranges.{asked_size, root_range};

/// A range of a blob that was read: its place and the length of the buffer, in bytes. It may go past
/// the blob's end. A size that was asked is noted as a range without bytes, and a read of the root as
/// one of blob 0.
#[derive(Clone, Copy, Debug, PartialEq, Eq)]
pub struct ReadRange {
    /// The blob's number.
    pub blob: u64,
    /// The place of the first byte, from 0.
    pub at: u64,
    /// The length of the buffer.
    pub len: u64,
}

impl ReadRange {
    /// The range without bytes that is noted where the size of a blob is asked.
    pub(crate) fn of_size(blob: u64) -> ReadRange
        ensures { result ≡ asked_size blob }
    {
        ReadRange {
            blob,
            at: 0,
            len: 0,
        }
    }

    /// The range that is noted where the root is read into a buffer of so many bytes.
    pub(crate) fn of_root(len: u64) -> ReadRange
        ensures { result ≡ root_range len }
    {
        ReadRange {
            blob: 0,
            at: 0,
            len,
        }
    }
}
