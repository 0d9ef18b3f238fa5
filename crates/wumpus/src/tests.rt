use crate::arguments::arguments;
use crate::run_to_end;
use std::env::FillError;
use std::process::ExitCode;
use std::rt::Env;
use wumpus_run::Status;

#[test]
fn without_arguments_the_program_ends_with_status_1(rt: HostRuntime) {
    assert_eq!(rt; run_to_end(&rt, arguments(&rt)), ExitCode::from(1));
}

/// A process with these arguments, its name the first.
#[derive(Drop)]
struct Started<'a> {
    arguments: &'a [&'a [u8]],
}

impl Env for Started<'_> {
    fn arg(&self, i: usize, buf: &mut [u8]) -> Result<usize, FillError> {
        let Some(argument) = self.arguments.get(i) else {
            return Err(FillError::NotPresent);
        };
        let Some(front) = buf.get_mut(..argument.len()) else {
            return Err(FillError::TooLong);
        };
        front.copy_from_slice(argument);
        Ok(argument.len())
    }

    fn var(&self, _name: &str, _buf: &mut [u8]) -> Result<usize, FillError> {
        Err(FillError::NotPresent)
    }

    fn var_at(&self, _i: usize, _buf: &mut [u8]) -> Result<usize, FillError> {
        Err(FillError::NotPresent)
    }
}

#[test]
fn the_arguments_alone_have_to_be_utf_8(rt: HostRuntime) {
    let odd: &[u8] = b"\xff";
    let run: &[u8] = b"run";
    for (given, want) in [
        (&[odd, run] as &[&[u8]], Ok(1)),
        (&[run, odd], Err(Status::Usage)),
        (&[odd], Ok(0)),
        (&[], Ok(0)),
    ] {
        let found = arguments(&(Started { arguments: given }, rt.alloc()));
        assert_eq!(rt; found.map(|words| words.len()), want);
    }
}
