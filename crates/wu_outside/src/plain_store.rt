//! A store in memory without faults.
ghost use Rattle.std.specs.Prelude.{◌≡◌, List, ℕ, [], Some, None, refl};
ghost use Rattle.wu_outside.specs.Stored.{PlainBlobs, plain_content};

use crate::copies::{read_blob, read_root, size_of_blob};
use crate::ranges::ReadRange;
use crate::traits::{Fault, Store};
use std::alloc::Global;
use std::collections::BTreeMap;
use std::marker::Model;
use wu_base::Bytes;

/// A store that keeps its blobs in a map, and its root. It tells what it holds and the ranges read,
/// and nothing of crashes. Its count of faults is always 0.
#[derive(Debug, Drop)]
pub struct PlainStore {
    allocator: Global,
    blobs: BTreeMap<u64, Bytes>,
    root: Option<Bytes>,
    ranges: Vec<ReadRange>,
}

impl Model for PlainStore {
    ghost Value = { PlainBlobs };

    ghost view = { λ s. record { entries = s.blobs.entries; root = s.root; ranges = s.ranges.items } };
}

impl PlainStore {
    /// An empty store. Takes no memory.
    pub fn new(alloc: Global) -> PlainStore
        ensures { result ≡ record { entries = []; root = None; ranges = [] } }
    {
        PlainStore {
            allocator: alloc,
            blobs: BTreeMap::new(alloc),
            root: None,
            ranges: Vec::new(alloc),
        }
    }

    /// The ranges read so far, one of blob 0 for each read of the root, and one without bytes for
    /// each size that was asked, in order.
    pub fn reads(&self) -> &[ReadRange]
        ensures { result.now ≡ self.now.ranges }
    {
        self.ranges.as_slice()
    }
}

impl Store for PlainStore {
    ghost holds = { λ s. Some (plain_content s) };

    ghost reads = { λ s. Some s.ranges };

    ghost moments = { λ _. None };

    ghost faults = { λ _. 0 };

    fn size(&mut self, blob: u64) -> Result<Option<u64>, Fault> {
        let size = size_of_blob(self.blobs.get(&blob));
        self.ranges.push(ReadRange::of_size(blob))?;
        Ok(size)
    }

    fn read(&mut self, blob: u64, at: u64, buf: &mut [u8]) -> Result<Option<usize>, Fault> {
        let count = read_blob(self.blobs.get(&blob), at, buf);
        let len = buf.len() as u64;
        self.ranges.push(ReadRange { blob, at, len })?;
        Ok(count)
    }

    fn put(&mut self, blob: u64, bytes: &[u8]) -> Result<(), Fault> {
        let bytes = Bytes::from_slice(self.allocator, bytes)?;
        self.blobs.insert(blob, bytes)?;
        Ok(())
    }

    fn remove(&mut self, blob: u64) -> Result<(), Fault> {
        self.blobs.remove(&blob);
        Ok(())
    }

    fn root(&mut self, buf: &mut [u8]) -> Result<Option<usize>, Fault> {
        let count = read_root(self.root.as_ref(), buf);
        self.ranges.push(ReadRange::of_root(buf.len() as u64))?;
        Ok(count)
    }

    fn set_root(&mut self, bytes: &[u8]) -> Result<(), Fault> {
        self.root = Some(Bytes::from_slice(self.allocator, bytes)?);
        Ok(())
    }

    fn sync(&mut self) -> Result<(), Fault> {
        Ok(())
    }

    ghost told_alike = { λ _. Prim.tt };
}
