//! Parts of the index: the bytes of a part, and its directory. A part is an index partition (Büttcher, Clarke and
//! Cormack, Information Retrieval, chapter 7), and is written once. The addresses of each term are compressed in
//! blocks, as gaps in bytes (chapter 6 there); the directory tells where each block stands, and what it spans.
#![tactic(auto)]

mod builders;
mod cursors;
mod directories;
mod entries;
mod entry_bytes;
mod entry_reading;
mod headers;
mod histories;
mod laws;
mod lists;
mod marks;
mod reading;
mod totals;
mod walks;
mod writing;

pub use builders::{Builder, encode};
pub use cursors::Entry;
pub use directories::Directory;
pub use entries::{BlockEntry, TermEntry};
pub use headers::{HEADER_LEN, read_header};
pub use histories::History;
pub use laws::{each_directory_has_one_spelling, each_part_has_one_spelling};
pub use reading::{keep_directory, read_block, read_directory};
pub use walks::Terms;
