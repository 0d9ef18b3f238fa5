//! A tree of directories and files with owners, groups, modes and access lists, and the users with their
//! groups. It changes by events, each of which is one atomic step: accepted whole, or refused and without
//! effect. What links, removal and renaming do is as in POSIX.1, and what an access list says is as in acl(5).
#![tactic(auto)]

mod acls;
mod changes;
mod depths;
mod events;
mod heights;
mod inodes;
mod links;
mod moves;
mod names;
mod rebuild;
mod refusals;
mod steps;
mod tallies;
mod trees;
mod walks;

pub use events::{Effect, Event, Kind, LinkRec, Node, Refusal};
pub use steps::effects_tell_files;
pub use trees::Tree;
pub use walks::{Acls, Entries, Nodes, Users};
