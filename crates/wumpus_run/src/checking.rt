//! A check of the store: what is wrong in it is told in one line.
ghost use Rattle.std.specs.Prelude.{◌≡◌, ◌⊎◌, IfOk, IfSome};
ghost use Rattle.std.specs.Io.KnownBytes.{Appends};
ghost use Rattle.wu_outside.specs.Gains.{GainsPrefix};
ghost use Rattle.wu_check.specs.Reads.{MayBeRead, ReadsFrontOf};
ghost use Rattle.wumpus_run.specs.Checks.{check_line, FindsStore, status_of_reading};
ghost use Rattle.wumpus_run.specs.Session.{IsCounted};

use crate::demo::put_number;
use crate::items::write_reply;
use crate::statuses::{Status, status_of_fault};
use std::alloc::Global;
use wu_base::NoMemory;
use wu_check::{Checked, check};
use wu_fields::put_decimal;
use wu_outside::{Fault, Sink, Store};

/// Checks the store, which stays as it is and is read once, and writes what is found to the sink,
/// in one line.
pub fn check_store<O: Sink, D: Store>(alloc: Global, sink: &mut O, store: &mut D) -> Status
    ensures found { FindsStore result (D.holds store.old) (O.gained sink.old) (O.gained sink.new) }
    ensures holds { D.holds store.new ≡ D.holds store.old }
    ensures moments { D.moments store.new ≡ D.moments store.old }
    ensures ranges { IfSome (D.holds store.old) (λ content. ReadsFrontOf (MayBeRead content)
        (D.reads store.old) (D.reads store.new)) }
    ensures write_fault { IsCounted Status.WriteFault result (O.faults sink.old) (O.faults sink.new) }
    ensures store_fault { IsCounted Status.StoreFault result (D.faults store.old) (D.faults store.new) }
{
    match check(alloc, store) {
        Ok(checked) => tell(alloc, sink, &checked),
        Err(fault) => status_of_reading(fault),
    }
}

/// How a check ends where the store couldn't be read.
fn status_of_reading(fault: Fault) -> Status
    ensures { result ≡ status_of_reading fault }
{
    match fault {
        Fault::Failed => Status::StoreFault,
        Fault::NoMemory => Status::NoMemory,
    }
}

/// Writes the line that tells what was found.
fn tell<O: Sink>(alloc: Global, sink: &mut O, checked: &Checked) -> Status
    ensures ends { (result ≡ Status.Done) ⊎ ((result ≡ Status.WriteFault) ⊎ (result ≡ Status.NoMemory)) }
    ensures done { result ≡ Status.Done → Appends (O.gained sink.old) (O.gained sink.new) (check_line checked.now) }
    ensures prefix { GainsPrefix (O.gained sink.old) (O.gained sink.new) (check_line checked.now) }
    ensures write_fault { IsCounted Status.WriteFault result (O.faults sink.old) (O.faults sink.new) }
{
    let line = match line_of(alloc, checked) {
        Ok(line) => line,
        Err(NoMemory) => return Status::NoMemory,
    };
    match write_reply(sink, line.as_slice()) {
        Ok(()) => Status::Done,
        Err(fault) => status_of_fault(fault),
    }
}

/// The line.
fn line_of(alloc: Global, checked: &Checked) -> Result<Vec<u8>, NoMemory>
    ensures { IfOk result (λ line. line.items ≡ check_line checked.now) }
{
    let mut line = Vec::new(alloc);
    match *checked {
        Checked::Sound {
            files,
            live,
            stored,
            parts,
        } => {
            line.extend_from_slice(b"check\tok\t")?;
            put_decimal(&mut line, files)?;
            put_number(&mut line, live)?;
            put_number(&mut line, stored)?;
            put_number(&mut line, parts)?;
        }
        Checked::Broken { blob } => {
            line.extend_from_slice(b"check\tbroken\t")?;
            put_decimal(&mut line, blob)?;
        }
    }
    line.push(b'\n')?;
    Ok(line)
}
