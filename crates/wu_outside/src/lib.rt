//! The outside of Wumpus: where a script comes from, where replies go and where the index is kept,
//! as traits whose contracts say what an honest object does, and the objects that the program and
//! its tests use.
#![tactic(auto)]

mod copies;
mod disk;
mod folder;
mod held_folder;
mod logs;
mod memory;
mod memory_store;
mod open_blob;
mod plain;
mod plain_store;
mod ranges;
mod schedule;
mod standard;
mod synced_file;
mod system;
mod traits;
mod writing;

pub use folder::DirStore;
pub use held_folder::LockFolder;
pub use memory::{MemSink, MemSource};
pub use memory_store::MemStore;
pub use plain::{PlainSink, PlainSource};
pub use plain_store::PlainStore;
pub use ranges::ReadRange;
pub use standard::{StdIn, StdOut};
pub use system::Failure;
pub use traits::{Failed, Fault, Sink, Source, Store};
pub use writing::write_all;
