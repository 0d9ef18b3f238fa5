//! Compares what command lines, lines and scripts say, and how replies are written, with the
//! tables on standard input.
#![tactic(auto)]

mod commands;
mod items;
mod lines;
mod reading;
mod reasons;
mod replies;
mod sources;

use std::alloc::Global;
use std::io;
use wu_rows::{NoAnswer, Subject, compare_tables};

fn main(rt: HostRuntime) -> io::Result<()> {
    compare_tables(&rt, &mut Rows {})
}

/// The rows of the tables, which are answered each for itself.
#[derive(Drop)]
struct Rows {}

impl Subject for Rows {
    fn begin(&mut self, _alloc: Global) -> Result<(), NoAnswer> {
        Ok(())
    }

    fn answer(&mut self, alloc: Global, kind: &str, fields: &[&str]) -> Result<String, NoAnswer> {
        match kind {
            "command line" => commands::asked_for(alloc, fields),
            "line" => lines::said(alloc, fields),
            "items" => items::read(alloc, fields),
            "reading" => reading::ended(alloc, fields),
            "asked" => reading::asked(alloc, fields),
            "end" => reading::end_text(alloc, fields),
            "reply" => replies::written(alloc, fields),
            _ => Err(NoAnswer::BadRow),
        }
    }
}
