//! The command-line arguments after the program's name.
ghost use Rattle.std.specs.Prelude.{◌≡◌, ◌⊎◌, Err, IfErr, IfOk};
ghost use Rattle.std.specs.IoError.{error_kind};
ghost use Rattle.std.specs.Vec.Iter.{into_iter_items};
ghost use Rattle.wumpus.specs.Arguments.{status_of_unread};

use std::alloc::{AllocError, Global};
use std::env::FillError;
use std::io::ErrorKind;
use std::rt::Env;
use std::{env, io};
use wumpus_run::Status;

/// The command-line arguments after the program's name. Errors: `NoMemory`: out of memory; `Usage`: an argument isn't UTF-8.
pub fn arguments(rt: &(impl Env + AllocGlobal)) -> Result<Vec<String>, Status>
    ensures { IfErr result (λ status. (status ≡ Status.NoMemory) ⊎ (status ≡ Status.Usage)) }
{
    arguments_of(rt.alloc(), env::args(&(AfterName { rt }, rt.alloc())))
}

/// The arguments that were found, all of them and in their order; else how the program ends.
fn arguments_of(alloc: Global, found: io::Result<env::Args>) -> Result<Vec<String>, Status>
    ensures texts { IfOk found (λ args. IfOk result (λ arguments. arguments.items ≡ into_iter_items args)) }
    ensures memory { IfOk found (λ args. IfErr result (λ status. status ≡ Status.NoMemory)) }
    ensures unread { IfErr found (λ error. result ≡ Err (status_of_unread (error_kind error))) }
{
    match found {
        Ok(args) => match args.collect(alloc) {
            Ok(arguments) => Ok(arguments),
            Err(AllocError) => Err(Status::NoMemory),
        },
        Err(error) => Err(status_of_unread(error.kind())),
    }
}

/// How the program ends where its arguments couldn't be read. That one isn't UTF-8 is told as
/// `InvalidData`.
fn status_of_unread(kind: ErrorKind) -> Status
    ensures { result ≡ status_of_unread kind }
{
    match kind {
        ErrorKind::OutOfMemory => Status::NoMemory,
        _ => Status::Usage,
    }
}

/// The process without its name, which is never read: any bytes may be the name.
#[derive(Drop)]
struct AfterName<'a, R> {
    rt: &'a R,
}

impl<R: Env> Env for AfterName<'_, R> {
    fn arg(&self, i: usize, buf: &mut [u8]) -> Result<usize, FillError> {
        match i.checked_add(1) {
            Some(place) => self.rt.arg(place, buf),
            None => Err(FillError::NotPresent),
        }
    }

    fn var(&self, name: &str, buf: &mut [u8]) -> Result<usize, FillError> {
        self.rt.var(name, buf)
    }

    fn var_at(&self, i: usize, buf: &mut [u8]) -> Result<usize, FillError> {
        self.rt.var_at(i, buf)
    }
}
