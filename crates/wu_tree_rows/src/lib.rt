//! Nodes, access lists, events and whole trees as rows write them.
#![tactic(auto)]

mod acls;
mod events;
mod nodes;
mod rebuilding;
mod refusals;

pub use acls::{acl_of, all_acls, put_item};
pub use events::{answered, event, name_of_word};
pub use nodes::text as node_text;
pub use rebuilding::{chain_made, made};
pub use refusals::text as refusal_text;
