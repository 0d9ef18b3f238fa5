//! The program `wumpus-plan`: it reads what batches of the mirror change, and writes for each the events by which the
//! program is told of it, in an order that shows nobody more than before the batch or after it. It keeps nothing from
//! one batch to the next, and touches no file.
#![tactic(auto)]

mod lines;
mod reading;
mod stops;
mod writing;

ghost use Rattle.std.specs.Prelude.{◌≡◌, [], OnOk};
ghost use Rattle.std.specs.Io.KnownBytes.{Appends};
ghost use Rattle.std.specs.List.{flat_map};
ghost use Rattle.wu_mirror.specs.Misfits.{Fits};
ghost use Rattle.wumpus_plan.specs.Lines.{Passes, answer_of, line_of};

use crate::lines::Lines;
use crate::reading::read_batch;
use crate::stops::Stop;
use crate::writing::{put_event, put_header};
use std::alloc::Global;
use std::io::{self, BufRead, BufReader, Write};
use std::process::ExitCode;
use wu_mirror::{Batch, Misfit, Plan, find_misfit, plan};
use wu_tree::Event;

/// So many bytes of lines are written at once.
const PIECE: usize = 65_536;

fn main(rt: HostRuntime) -> ExitCode {
    match serve(&rt) {
        Ok(()) => ExitCode::SUCCESS,
        Err(stop) => {
            // The status tells the same where this line can't be written.
            let _ = eprintln!(rt; "wumpus-plan: {stop}");
            ExitCode::FAILURE
        }
    }
}

/// Plans each batch of the standard input.
fn serve(rt: &HostRuntime) -> Result<(), Stop> {
    let alloc = rt.alloc();
    let mut lines = Lines::new(alloc, BufReader::new(alloc, rt.reader())?);
    let mut out = io::writer(rt);
    for _ in 0..u64::MAX {
        match read_batch(alloc, &mut lines)? {
            Some(batch) => answer(alloc, &mut out, lines.number(), &batch)?,
            None => return Ok(()),
        }
    }
    Ok(())
}

/// Writes the plan of a batch whose last line is that one: a header with the number of events before the texts and
/// of those after them, and a line for each. A batch that doesn't fit has none.
fn answer<W: Write>(alloc: Global, out: &mut W, line: u64, batch: &Batch) -> Result<(), Stop>
    ensures written { OnOk result (Appends (W.contents out.old) (W.contents out.new) (answer_of batch.now)) }
    ensures fits { OnOk result (Fits batch.now) }
{
    if let Some(Misfit { number, fault }) = find_misfit(alloc, batch)? {
        return Err(Stop::Batch {
            line,
            number,
            fault,
        });
    }
    let Plan { head, tail } = plan(alloc, batch)?;
    let mut bytes = Vec::new(alloc);
    put_header(&mut bytes, head.len() as u64, tail.len() as u64)?;
    write_events(out, &mut bytes, head.as_slice())?;
    write_events(out, &mut bytes, tail.as_slice())?;
    out.write_all(bytes.as_slice())?;
    out.flush()?;
    Ok(())
}

/// Puts the lines of the events behind the bytes, and writes these where they are many.
fn write_events<W: Write>(out: &mut W, bytes: &mut Vec<u8>, events: &[Event]) -> Result<(), Stop>
    ensures { OnOk result (Passes (W.contents out.old) bytes.old.items (W.contents out.new) bytes.new.items (flat_map line_of events.now)) }
{
    for event in events {
        write_event(out, bytes, event)?;
    }
    Ok(())
}

fn write_event<W: Write>(out: &mut W, bytes: &mut Vec<u8>, event: &Event) -> Result<(), Stop>
    ensures { OnOk result (Passes (W.contents out.old) bytes.old.items (W.contents out.new) bytes.new.items (line_of event.now)) }
{
    put_event(bytes, event)?;
    if bytes.len() >= PIECE {
        out.write_all(bytes.as_slice())?;
        bytes.clear();
    }
    Ok(())
}
