//! Compares what trees answer to events, what they tell then, what users see of them, and what
//! makes a tree with the tables on standard input.
#![tactic(auto)]

mod told;
mod views;

use std::alloc::Global;
use std::io;
use wu_rows::{NoAnswer, Subject, compare_tables, words};
use wu_tree::{Tree, effects_tell_files};
use wu_tree_rows::{answered, chain_made, made, refusal_text};
use wu_view::open_paths_lead_from_the_root;

fn main(rt: HostRuntime) -> io::Result<()> {
    let mut rows = Rows::new(rt.alloc())?;
    rows.tree.keeps_the_rules();
    effects_tell_files(&rows.tree);
    open_paths_lead_from_the_root(&rows.tree);
    compare_tables(&rt, &mut rows)
}

/// The tree to which the rows of a table are put, the root alone at the beginning of each.
#[derive(Drop)]
struct Rows {
    tree: Tree,
}

impl Rows {
    fn new(alloc: Global) -> Result<Rows, NoAnswer> {
        Ok(Rows {
            tree: Tree::new(alloc)?,
        })
    }

    /// What the tree answers to an event, or tells at a call, in a table of this kind; or whether a
    /// tree is made.
    fn of_tree(&mut self, alloc: Global, kind: &str, fields: &[&str]) -> Result<String, NoAnswer> {
        match fields {
            [event] => {
                let words = words(alloc, event)?;
                answered(alloc, &mut self.tree, words.as_slice())
            }
            [depth, letters] if kind == "chain" => {
                chain_made(alloc, &mut self.tree, depth, letters)
            }
            [call, arguments] => self.told(alloc, call, arguments),
            _ => made(alloc, &mut self.tree, fields),
        }
    }

    /// What the tree or the view of a user tells at the call.
    fn told(&self, alloc: Global, call: &str, arguments: &str) -> Result<String, NoAnswer> {
        let words = words(alloc, arguments)?;
        match call {
            "searchable" | "view_of" | "to_seen" | "ino_at" | "least_path_at" | "seen_at" => {
                views::answered(alloc, &self.tree, call, words.as_slice())
            }
            _ => told::answered(alloc, &self.tree, call, words.as_slice()),
        }
    }
}

impl Subject for Rows {
    fn begin(&mut self, alloc: Global) -> Result<(), NoAnswer> {
        *self = Rows::new(alloc)?;
        Ok(())
    }

    fn answer(&mut self, alloc: Global, kind: &str, fields: &[&str]) -> Result<String, NoAnswer> {
        match (kind, fields) {
            ("refusal", [name]) => refusal_text(alloc, name),
            _ => self.of_tree(alloc, kind, fields),
        }
    }
}
