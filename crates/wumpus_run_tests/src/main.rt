//! Compares what sessions write and how they end with the tables on standard input.
#![tactic(auto)]

mod growing;
mod pieces;
mod sessions;
mod statuses;

use crate::sessions::Session;
use std::alloc::Global;
use std::io;
use wu_rows::{NoAnswer, Subject, compare_tables};

fn main(rt: HostRuntime) -> io::Result<()> {
    let mut tables = Tables {
        session: Session::new(rt.alloc()),
    };
    compare_tables(&rt, &mut tables)?;
    growing::compare_depths(&rt)?;
    growing::compare_strangers(&rt)
}

/// The tables of this program: the session is that of the rows so far.
#[derive(Drop)]
struct Tables {
    session: Session,
}

impl Tables {
    fn of_one(&mut self, alloc: Global, kind: &str, field: &str) -> Result<String, NoAnswer> {
        match kind {
            "session" => self.session.reply(alloc, field),
            "output" => sessions::output(alloc, field),
            "demo" => sessions::demo_line(alloc, field),
            "code" => statuses::code(alloc, field),
            _ => Err(NoAnswer::BadRow),
        }
    }

    fn of_two(
        &mut self,
        alloc: Global,
        kind: &str,
        first: &str,
        second: &str,
    ) -> Result<String, NoAnswer> {
        match kind {
            "words session" => self.session.reply_by(alloc, first, second),
            "calls" => sessions::calls(alloc, first, second),
            "pieces" => pieces::output(alloc, first, second),
            _ => Err(NoAnswer::BadRow),
        }
    }
}

impl Subject for Tables {
    fn begin(&mut self, alloc: Global) -> Result<(), NoAnswer> {
        self.session = Session::new(alloc);
        Ok(())
    }

    fn answer(&mut self, alloc: Global, kind: &str, fields: &[&str]) -> Result<String, NoAnswer> {
        match fields {
            [field] => self.of_one(alloc, kind, field),
            [first, second] => self.of_two(alloc, kind, first, second),
            [first, second, script] => of_faults(alloc, kind, first, second, script),
            _ => Err(NoAnswer::BadRow),
        }
    }
}

fn of_faults(
    alloc: Global,
    kind: &str,
    first: &str,
    second: &str,
    script: &str,
) -> Result<String, NoAnswer> {
    match kind {
        "faults" => sessions::faulty(alloc, first, second, script),
        "each fault" => sessions::faulty_in_turn(alloc, first, second, script),
        _ => Err(NoAnswer::BadRow),
    }
}
