//! A file whose bytes have survived, so that it may take the name of another. No other module can
//! make one.
ghost use Rattle.std.specs.Prelude.{◌≡◌, IfOk};
ghost use Rattle.wu_outside.specs.Faults.{HasFaultCause};

use crate::system::Failures;
use crate::traits::Fault;
use std::fs;
use std::fs::OpenFile;
use std::rt::Files;

/// A file whose bytes were made to survive a crash, by its path.
#[derive(Drop)]
pub struct SyncedFile<'a> {
    path: &'a str,
}

impl<'a> SyncedFile<'a> {
    /// Makes the open file of this path survive a crash.
    pub fn sync<F: OpenFile>(
        failures: &mut Failures,
        path: &'a str,
        file: &F,
    ) -> Result<SyncedFile<'a>, Fault>
        ensures path { IfOk result (λ synced. synced.path.now ≡ path.now) }
        ensures cause { HasFaultCause failures.old.count failures.new.count result }
    {
        failures.note(path, file.sync_all())?;
        Ok(SyncedFile { path })
    }

    /// Gives it this name, at once, in place of the file that had it.
    pub fn rename<'b, R: Files>(
        self,
        failures: &mut Failures,
        files: &R,
        path: &'b str,
    ) -> Result<SyncedFile<'b>, Fault>
        ensures path { IfOk result (λ synced. synced.path.now ≡ path.now) }
        ensures cause { HasFaultCause failures.old.count failures.new.count result }
    {
        failures.note(path, fs::rename(files, self.path, path))?;
        Ok(SyncedFile { path })
    }
}
