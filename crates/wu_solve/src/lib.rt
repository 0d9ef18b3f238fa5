//! The extents that a region expression means, found by merging the lists of its terms' addresses.
//! The expressions and their meaning are after Clarke, Cormack and Burkowski, "An Algebra for Structured
//! Text Search and a Framework for its Implementation", The Computer Journal 38(1), 1995.
//!
//! In the list of every expression starts and ends both ascend strictly, so that each operator walks
//! the lists of its operands once, side by side. A list is that of all frames, one behind the other;
//! frames without an address of a needed term are left out before, unless that term has four addresses
//! or more for each frame.
#![tactic(auto)]

mod containment;
mod counting;
mod first_extents;
mod framing;
mod laws;
mod lookup;
mod meeting;
mod merging;
mod nearby;
mod needed;
mod operands;
mod overlaps;
mod places;
mod solving;
mod spanning;
mod ways;
mod windows;

pub use counting::{Counts, count, count_apart, only_term};
pub use framing::frames_within;
pub use laws::{extents_ascend, frames_of_texts, needed_terms_stand};
pub use lookup::find_term;
pub use meeting::frames_met;
pub use needed::needed_terms;
pub use solving::{solve, solve_apart};
