//! The checker of stores, which finds what an opening can't: a part of the index that disagrees with
//! the texts. The root and the checkpoint are read, and then texts and parts side by side by address.
//! A blob is read whole; the lists of a part are read from its bytes, each block once; the numbers of
//! their terms are put at the places of the addresses of the texts' ranges; and a text's tokens are
//! compared with the terms of these numbers.
#![tactic(auto)]

mod blobs;
mod checking;
mod comparing;
mod counting;
mod directories;
mod indexing;
mod laws;
mod numbering;
mod places;
mod saved;
mod texts;
mod walking;

pub use blobs::read_whole;
pub use checking::{Checked, check};
pub use comparing::{Compared, compare, compare_text};
pub use directories::directory_in;
pub use indexing::{PartIndex, addresses_of, index_part};
pub use laws::{
    a_part_has_its_postings, a_sound_store_is_an_image, a_store_has_one_finding,
    an_image_is_of_one_state, an_image_is_sound,
};
