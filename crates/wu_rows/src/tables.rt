//! Tables whose rows are answered in turn, each in the state that the rows before it left.
use crate::comparing::{NoAnswer, Tally, fields_of, is_expected};
use std::alloc::Global;
use std::io;

/// What the rows of tables are put to.
pub trait Subject {
    /// Forgets what earlier tables left.
    fn begin(&mut self, alloc: Global) -> Result<(), NoAnswer>;

    /// The answer to the row of these fields, in a table of this kind.
    fn answer(&mut self, alloc: Global, kind: &str, fields: &[&str]) -> Result<String, NoAnswer>;
}

/// Compares the answers of the rows of standard input with the expected ones. Prints each row that differs, and for each table how many
/// rows agree. A line of `= `, a kind, TAB and a title begins a table of that kind. A row has its fields with TAB between them, and then
/// its answer.
pub fn compare_tables<R: Input + Print + AllocGlobal, S: Subject>(
    rt: &R,
    subject: &mut S,
) -> io::Result<()> {
    let mut kind = String::new(rt.alloc());
    let mut tally = Tally::of_call(rt.alloc(), "")?;
    for line in rt.lines(rt.alloc()) {
        let line = line?;
        let row = line.as_str();
        if row.is_empty() || row.starts_with('#') {
            continue;
        }
        match row.strip_prefix("= ") {
            Some(heading) => {
                tally.print(rt)?;
                let (name, title) = parts_of(heading);
                kind = String::from_str(rt.alloc(), name)?;
                tally = Tally::of_call(rt.alloc(), title)?;
                is_expected(rt, row, begun(rt.alloc(), title, subject))?;
            }
            None => {
                let given = given(rt.alloc(), kind.as_str(), row, subject);
                tally.add(is_expected(rt, row, given)?);
            }
        }
    }
    tally.print(rt)
}

/// The kind of a table and its title.
fn parts_of(heading: &str) -> (&str, &str) {
    match heading.split_once('\t') {
        Some(parts) => parts,
        None => (heading, heading),
    }
}

/// The title of the table that begins.
fn begun<S: Subject>(alloc: Global, title: &str, subject: &mut S) -> Result<String, NoAnswer> {
    subject.begin(alloc)?;
    Ok(String::from_str(alloc, title)?)
}

/// The answer to the row.
fn given<S: Subject>(
    alloc: Global,
    kind: &str,
    row: &str,
    subject: &mut S,
) -> Result<String, NoAnswer> {
    let fields = fields_of(alloc, row)?;
    match fields.as_slice() {
        [asked @ .., _] => subject.answer(alloc, kind, asked),
        [] => Err(NoAnswer::BadRow),
    }
}
