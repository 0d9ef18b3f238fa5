//! Compares what spaces of addresses tell, and what is fetched of the lists of parts, with the
//! tables on standard input.
#![tactic(auto)]

mod lists;
mod plain;
mod spaces;

use crate::lists::Listed;
use std::alloc::Global;
use std::io;
use wu_rows::{NoAnswer, Subject, compare_tables};
use wu_space::Space;

/// What the rows of a table are put to: a space without files, and lists over an empty store at the
/// beginning of each.
#[derive(Drop)]
struct Rows {
    space: Space,
    listed: Listed,
}

fn main(rt: HostRuntime) -> io::Result<()> {
    let mut rows = Rows::new(rt.alloc())?;
    compare_tables(&rt, &mut rows)
}

impl Rows {
    fn new(alloc: Global) -> Result<Rows, NoAnswer> {
        Ok(Rows {
            space: Space::new(alloc, 0),
            listed: Listed::new(alloc)?,
        })
    }
}

impl Subject for Rows {
    fn begin(&mut self, alloc: Global) -> Result<(), NoAnswer> {
        *self = Rows::new(alloc)?;
        Ok(())
    }

    fn answer(&mut self, alloc: Global, kind: &str, fields: &[&str]) -> Result<String, NoAnswer> {
        match kind {
            "space" => spaces::answer(alloc, &mut self.space, fields),
            "lists" => self.listed.answer(alloc, fields),
            _ => Err(NoAnswer::BadRow),
        }
    }
}
