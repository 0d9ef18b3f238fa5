//! A user's frames: where the tokens of the files that she may search stand in the space of addresses.
//! That a query sees these alone is after Büttcher and Clarke, "A Security Model for Full-Text File System
//! Search in Multi-User Environments", FAST 2005.
#![tactic(auto)]

mod caches;
mod changes;
mod links;
mod making;
mod mending;
mod permissions;
mod walks;

pub use caches::{FrameCache, USERS_KEPT};
pub use links::{ChangedLink, LinkChanges, links_changed};
pub use mending::MENDS_MAX;
pub use permissions::copied_acl;
use wu_base::{Ino, Range, Sequence};
use wu_view::View;

/// The live range of a file that a user may search.
#[derive(Clone, Copy, Debug, PartialEq, Eq)]
pub struct Frame {
    pub range: Range,
    pub ino: Ino,
    /// Which file of her view it is, counted from 0.
    pub place: u32,
}

/// The frames of a user, with her view.
#[derive(Drop)]
pub struct Frames {
    /// Ascending by address.
    pub by_address: Sequence<Frame>,
    /// Her view: the files that she may search, by their least open paths.
    pub seen: View,
    /// The ranges of the frames, ascending.
    pub ranges: Sequence<Range>,
    /// How many addresses the ranges have together.
    pub total: u64,
    /// How often a file among them had a new text since she last asked.
    pub mends: u32,
}
