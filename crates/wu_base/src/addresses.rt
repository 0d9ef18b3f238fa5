//! Numbers of users, groups and nodes, places in the space of addresses, and parts of the index.
use crate::byte_strings::Bytes;
use crate::sequences::Sequence;

/// A user's number. User 0 passes every access check.
pub type Uid = u32;

/// A group's number.
pub type Gid = u32;

/// A node's number, at least 1.
pub type Ino = u32;

/// The root directory's number.
pub const ROOT: Ino = 1;

/// The addresses from `start` to `end`, both included: none where `end` is below `start`.
#[derive(Clone, Copy, Debug, PartialEq, Eq)]
pub struct Extent {
    pub start: u64,
    pub end: u64,
}

/// The `len` addresses from `start` on.
#[derive(Clone, Copy, Debug, PartialEq, Eq)]
pub struct Range {
    pub start: u64,
    pub len: u64,
}

/// A term and the addresses where it stands, ascending.
#[derive(Debug, PartialEq, Eq, Drop)]
pub struct TermList {
    pub term: Bytes,
    pub at: Sequence<u64>,
}

/// A part of the index, as it is recorded outside it: a blob of `size` bytes that holds `stored`
/// postings, with addresses from `low` to `high`, both included. Any numbers may stand in a record;
/// those of a part are in the ranges named here.
#[derive(Clone, Copy, Debug, PartialEq, Eq)]
pub struct PartRec {
    /// The blob's number, at least 1.
    pub blob: u64,
    /// The blob's length in bytes.
    pub size: u64,
    /// From 0 to `GENERATION_MAX`.
    pub generation: u32,
    /// The least address, at most `high`.
    pub low: u64,
    /// The greatest address, below `ADDRESSES_MAX`.
    pub high: u64,
    /// How many postings there are, from 1 to `high - low + 1`.
    pub stored: u64,
}
