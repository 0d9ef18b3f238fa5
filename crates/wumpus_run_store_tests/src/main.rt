//! Compares what sessions leave in stores, and what they write where calls of the store fail or it
//! stops, with the tables on standard input.
#![tactic(auto)]

mod folders;
mod stored;
mod stores;

use crate::stored::Stored;
use std::alloc::Global;
use std::io;
use wu_rows::{NoAnswer, Subject, compare_tables};

fn main(rt: HostRuntime) -> io::Result<()> {
    let alloc = rt.alloc();
    let mut tables = Tables {
        rt: &rt,
        stored: Stored::new(alloc, Vec::new(alloc)),
    };
    compare_tables(&rt, &mut tables)
}

/// The tables of this program: the store is that of the rows so far.
#[derive(Drop)]
struct Tables<'a> {
    rt: &'a HostRuntime,
    stored: Stored,
}

impl Tables<'_> {
    fn of_two(
        &mut self,
        alloc: Global,
        kind: &str,
        first: &str,
        second: &str,
    ) -> Result<String, NoAnswer> {
        match kind {
            "stored" | "each stop" => self.stored.change(alloc, first, second),
            "stored reads" => self.stored.reading(alloc, first, second),
            "folder" => folders::session(self.rt, alloc, first, second),
            _ => Err(NoAnswer::BadRow),
        }
    }

    fn of_three(
        &mut self,
        alloc: Global,
        kind: &str,
        words: &str,
        second: &str,
        third: &str,
    ) -> Result<String, NoAnswer> {
        match kind {
            "stored" => self.stored.session(alloc, words, second, third),
            "store faults" => stores::failing(alloc, words, second, third),
            "each store fault" => stores::failing_in_turn(alloc, words, second, third),
            "each stop" => {
                stores::crashed_in_turn(alloc, &mut self.stored, words, second, third)
            }
            _ => Err(NoAnswer::BadRow),
        }
    }
}

impl Subject for Tables<'_> {
    fn begin(&mut self, alloc: Global) -> Result<(), NoAnswer> {
        self.stored = Stored::new(alloc, Vec::new(alloc));
        Ok(())
    }

    fn answer(&mut self, alloc: Global, kind: &str, fields: &[&str]) -> Result<String, NoAnswer> {
        match fields {
            [script] if kind == "lost blobs" => stores::losing(alloc, script),
            [first, second] => self.of_two(alloc, kind, first, second),
            [words, second, third] => self.of_three(alloc, kind, words, second, third),
            _ => Err(NoAnswer::BadRow),
        }
    }
}
