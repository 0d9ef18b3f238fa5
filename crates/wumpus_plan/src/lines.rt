//! The lines of the input, as they are counted.
use crate::stops::{Flaw, Stop};
use std::alloc::Global;
use std::io::BufRead;
use wu_script::{Command, Line, read_command};
use wu_tree::Event;

/// The lines of a reader. The last one that was read is kept.
#[derive(Drop)]
pub struct Lines<R> {
    reader: R,
    line: Vec<u8>,
    number: u64,
}

impl<R: BufRead + Drop> Lines<R> {
    /// The lines of the reader, of which none was read.
    pub fn new(alloc: Global, reader: R) -> Lines<R> {
        Lines {
            reader,
            line: Vec::new(alloc),
            number: 0,
        }
    }

    /// Reads the next line; false at the end of the input.
    pub fn advance(&mut self) -> Result<bool, Stop> {
        self.line.clear();
        self.number = self.number.saturating_add(1);
        if self.reader.read_until(b'\n', &mut self.line)? == 0 {
            return Ok(false);
        }
        match self.line.pop() {
            Some(b'\n') => Ok(true),
            _ => Err(self.stop(Flaw::Cut)),
        }
    }

    /// Reads the next line, which has to be there.
    pub fn expect(&mut self) -> Result<(), Stop> {
        if self.advance()? {
            Ok(())
        } else {
            Err(self.stop(Flaw::Cut))
        }
    }

    /// The line that was read, without its LF.
    pub fn line(&self) -> &[u8] {
        self.line.as_slice()
    }

    /// How many lines were read.
    pub fn number(&self) -> u64 {
        self.number
    }

    /// What ends the program at the line that was read.
    pub fn stop(&self, flaw: Flaw) -> Stop {
        Stop::Line {
            line: self.number,
            flaw,
        }
    }

    /// Reads the next line, which has to be an event of the script.
    pub fn event(&mut self, alloc: Global, flaw: Flaw) -> Result<Event, Stop> {
        self.expect()?;
        match read_command(alloc, self.line())? {
            Line::Command(Command::Update(event)) => Ok(event),
            _ => Err(self.stop(flaw)),
        }
    }
}
