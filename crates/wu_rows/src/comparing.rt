//! Comparing the answers of calls with those of a table.
use std::alloc::{AllocError, AllocFailed, Global};
use std::io;
use std::io::ErrorKind;
use wu_base::NoMemory;

/// Why a row has no answer.
#[derive(Clone, Copy, Debug, PartialEq, Eq)]
pub enum NoAnswer {
    /// There is no such call, or it may not be made with these arguments.
    BadRow,
    NoMemory,
}

impl From<NoMemory> for NoAnswer {
    fn from(_error: NoMemory) -> NoAnswer {
        NoAnswer::NoMemory
    }
}

impl From<AllocError> for NoAnswer {
    fn from(_error: AllocError) -> NoAnswer {
        NoAnswer::NoMemory
    }
}

impl<T: Drop> From<AllocFailed<T>> for NoAnswer {
    fn from(_error: AllocFailed<T>) -> NoAnswer {
        NoAnswer::NoMemory
    }
}

impl From<NoAnswer> for io::Error {
    fn from(no_answer: NoAnswer) -> io::Error {
        match no_answer {
            NoAnswer::BadRow => io::Error::from(ErrorKind::InvalidInput),
            NoAnswer::NoMemory => io::Error::from(AllocError),
        }
    }
}

/// How many rows with the same call stand together, and how many of them agree.
#[derive(Drop)]
pub struct Tally {
    call: String,
    rows: u64,
    agreed: u64,
}

impl Tally {
    /// No rows yet, of a call or of a table with this title. Fails only where there is no memory.
    pub fn of_call(alloc: Global, call: &str) -> Result<Tally, AllocError> {
        Ok(Tally {
            call: String::from_str(alloc, call)?,
            rows: 0,
            agreed: 0,
        })
    }

    /// Counts a row, and whether it agrees. The counts stand still at 2^64 - 1.
    pub fn add(&mut self, agrees: bool) {
        self.rows = self.rows.saturating_add(1);
        self.agreed = self.agreed.saturating_add(u64::from(agrees));
    }

    /// Prints how many rows there are and how many of them agree; nothing where there are none. Fails only where printing does.
    pub fn print(&self, rt: &impl Print) -> io::Result<()> {
        let call = self.call.as_str();
        let rows = self.rows;
        let agreed = self.agreed;
        if rows == 0 {
            Ok(())
        } else if agreed == rows {
            println!(rt; "{call}: {rows} rows agree")
        } else {
            println!(rt; "{call}: {agreed} of {rows} rows agree")
        }
    }
}

/// Compares the answers of the rows of standard input with the expected ones. Prints each row that differs, and for each call how many
/// rows agree. `answer` is given a crate, a call of it, and the arguments.
pub fn compare<R: Input + Print + AllocGlobal, F>(rt: &R, answer: F) -> io::Result<()>
where
    F: Fn(Global, &str, &str, &[&str]) -> Result<String, NoAnswer> + Drop,
    requires { F.IsAlwaysCallable answer }
{
    let mut tally = Tally::of_call(rt.alloc(), "")?;
    for line in rt.lines(rt.alloc()) {
        let line = line?;
        let row = line.as_str();
        if row.is_empty() || row.starts_with('#') {
            continue;
        }
        let call = call_of(row);
        if call != tally.call.as_str() {
            tally.print(rt)?;
            tally = Tally::of_call(rt.alloc(), call)?;
        }
        tally.add(agrees(rt, row, &answer)?);
    }
    tally.print(rt)
}

/// The name of the row's call.
fn call_of(row: &str) -> &str {
    match row.split_once('\t') {
        Some((call, _)) => call,
        None => row,
    }
}

/// Whether the row has its expected answer. Prints it where it has not.
fn agrees<R: Print + AllocGlobal, F>(rt: &R, row: &str, answer: &F) -> io::Result<bool>
where
    F: Fn(Global, &str, &str, &[&str]) -> Result<String, NoAnswer>,
    requires { F.IsAlwaysCallable answer.now }
{
    is_expected(rt, row, given(rt.alloc(), row, answer))
}

/// Whether what is given for the row is its expected answer. Prints it where it is not.
pub fn is_expected<R: Print + AllocGlobal>(
    rt: &R,
    row: &str,
    given: Result<String, NoAnswer>,
) -> io::Result<bool> {
    let expected = match row.rsplit_once('\t') {
        Some((_, expected)) => expected,
        None => "",
    };
    match given {
        Ok(text) => {
            if text.as_str() == expected {
                return Ok(true);
            }
            println!(rt; "{row}: got {text}")?;
        }
        Err(NoAnswer::BadRow) => println!(rt; "{row}: bad row")?,
        Err(NoAnswer::NoMemory) => return Err(io::Error::from(NoAnswer::NoMemory)),
    }
    Ok(false)
}

/// The answer of the row's call.
fn given<F>(alloc: Global, row: &str, answer: &F) -> Result<String, NoAnswer>
where
    F: Fn(Global, &str, &str, &[&str]) -> Result<String, NoAnswer>,
    requires { F.IsAlwaysCallable answer.now }
{
    let fields = fields_of(alloc, row)?;
    let [path, arguments @ .., _] = fields.as_slice() else {
        return Err(NoAnswer::BadRow);
    };
    match path.split_once("::") {
        Some((library, call)) => answer(alloc, library, call, arguments),
        None => Err(NoAnswer::BadRow),
    }
}

/// The fields of the row.
pub fn fields_of(alloc: Global, row: &str) -> Result<Vec<&str>, NoAnswer> {
    let mut fields = Vec::new(alloc);
    for field in row.split('\t') {
        fields.push(field)?;
    }
    Ok(fields)
}
