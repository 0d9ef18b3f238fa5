//! What is saved in a store: the root, the checkpoint that it names, and what is recorded of a file's
//! text beside it.
#![tactic(auto)]

mod acls;
mod checkpoints;
mod fields;
mod laws;
mod lists;
mod nodes;
mod reading;
mod records;
mod roots;
mod rules;
mod writing;

pub use checkpoints::Checkpoint;
pub use laws::{
    each_checkpoint_has_one_spelling, each_root_has_one_spelling, other_blobs_count_for_nothing,
};
pub use reading::read_checkpoint;
pub use records::FileRec;
pub use roots::{ROOT_LEN, Root, read_root, write_root};
pub use writing::write_checkpoint;
