//! What the system answers, handed on: each error counts as a fault, an interrupted call included.
ghost use Rattle.std.specs.Prelude.{◌≡◌, None, Some, Err, IfErr, IfSome, MatchResult, option_copied, string_bytes};
ghost use Rattle.std.specs.IoError.{error_kind};
ghost use Rattle.wu_outside.specs.Faults.{HandsOn, HandsOnFound, HasCause, HasFaultCause};
ghost use Rattle.wu_outside.specs.declared.traits.Fault.TheVariants.{Failed as CallFailed};

use crate::traits::{Failed, Fault};
use std::alloc::{AllocError, Global};
use std::io::ErrorKind;
use std::{fmt, io};

/// The value of a call of the system. An error counts.
pub fn count_error<T: Drop>(faults: &mut u64, answer: io::Result<T>) -> Result<T, Failed>
    ensures handed_on { HandsOn faults.old faults.new answer result }
    ensures cause { HasCause faults.old faults.new result }
{
    match answer {
        Ok(value) => Ok(value),
        Err(_) => {
            *faults = faults.saturating_add(1);
            Err(Failed)
        }
    }
}

/// Why a call of a store in a folder failed: the path of the file, and the reason.
#[derive(Debug, Drop)]
pub struct Failure {
    path: String,
    reason: io::Error,
}

impl fmt::Display for Failure {
    fn fmt<W: fmt::Write>(&self, f: &mut fmt::Formatter<W>) -> fmt::Result {
        write!(f, "{}: {}", self.path, self.reason)
    }
}

/// How many calls of the system failed, and the last one that did.
#[derive(Debug, Drop)]
pub struct Failures {
    alloc: Global,
    count: u64,
    last: Option<Failure>,
}

impl Failures {
    /// None so far. Takes no memory.
    pub fn new(alloc: Global) -> Failures
        ensures count { result.count ≡ 0 }
        ensures none { result.last ≡ None }
    {
        Failures {
            alloc,
            count: 0,
            last: None,
        }
    }

    /// How many calls failed. The count stands still at 2^64 - 1.
    pub fn count(&self) -> u64
        ensures { result ≡ self.now.count }
    {
        self.count
    }

    /// The last one that failed. None also where there was no memory to keep its path.
    pub fn last(&self) -> Option<&Failure>
        ensures { option_copied result ≡ self.now.last }
    {
        self.last.as_ref()
    }

    /// The value of a call of the system on a file. An error counts, and is kept with the path.
    pub fn note<T: Drop>(&mut self, path: &str, answer: io::Result<T>) -> Result<T, Fault>
        ensures handed_on { HandsOn self.old.count self.new.count answer result }
        ensures failed { IfErr result (λ fault. fault ≡ CallFailed) }
        ensures kept { MatchResult answer
            (λ _. self.new.last ≡ self.old.last)
            (λ error. IfSome self.new.last (λ last. (string_bytes last.path ≡ path.now) × (last.reason ≡ error))) }
        ensures cause { HasFaultCause self.old.count self.new.count result }
    {
        if let Err(reason) = &answer {
            let path = String::from_str(self.alloc, path);
            self.keep(path, *reason);
        }
        Ok(count_error(&mut self.count, answer)?)
    }

    /// The value of a call of the system on a file, None where the file isn't there. Any other error
    /// counts, and is kept with the path.
    pub fn note_found<T: Drop>(
        &mut self,
        path: &str,
        answer: io::Result<T>,
    ) -> Result<Option<T>, Fault>
        ensures handed_on { HandsOnFound (λ error. error_kind error ≡ ErrorKind.NotFound) self.old.count self.new.count answer result }
        ensures kept { MatchResult result
            (λ _. self.new.last ≡ self.old.last)
            (λ _. IfSome self.new.last (λ last. (string_bytes last.path ≡ path.now) × (answer ≡ Err last.reason))) }
        ensures cause { HasFaultCause self.old.count self.new.count result }
    {
        match answer {
            Ok(value) => Ok(Some(value)),
            Err(error) if error.kind() == ErrorKind::NotFound => Ok(None),
            Err(error) => {
                self.note(path, Err::<T, io::Error>(error))?;
                Ok(None)
            }
        }
    }

    /// Keeps why a call failed, where there was memory for the path.
    fn keep(&mut self, path: Result<String, AllocError>, reason: io::Error)
        ensures count { self.new.count ≡ self.old.count }
        ensures kept { MatchResult path
            (λ path. self.new.last ≡ Some (record { path = path; reason = reason }))
            (λ _. self.new.last ≡ None) }
    {
        self.last = match path {
            Ok(path) => Some(Failure { path, reason }),
            Err(_) => None,
        };
    }
}
