//! The entries of a directory.
ghost use Rattle.std.specs.Prelude.{◌≡◌, min};
ghost use Rattle.wu_vbyte.specs.declared.blocks.TheConstants.{BLOCK_LEN};

use wu_base::{Bytes, Sequence};
use wu_vbyte::BLOCK_LEN;

/// A block of a term: its addresses go from `first` to `last`, and its bytes are the `len` bytes from
/// the place `at` of the part's blob on.
#[derive(Clone, Copy, Debug, PartialEq, Eq)]
pub struct BlockEntry {
    pub first: u64,
    pub last: u64,
    pub at: u64,
    pub len: u64,
}

/// A term, how many addresses it has, and the blocks that hold them.
#[derive(Debug, Drop)]
pub struct TermEntry {
    pub term: Bytes,
    pub count: u64,
    pub blocks: Sequence<BlockEntry>,
}

/// How many of so many addresses are in the first block.
#[inline]
pub(crate) fn first_count(count: u64) -> u64
    ensures { result ≡ min count BLOCK_LEN }
{
    if count < BLOCK_LEN as u64 {
        count
    } else {
        BLOCK_LEN as u64
    }
}
