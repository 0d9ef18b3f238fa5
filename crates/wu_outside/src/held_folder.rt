//! The folder of a store, which one session has at a time.
ghost use Rattle.std.specs.Prelude.{◌≡◌, OnOk, bit_and};
ghost use Rattle.std.specs.Fs.{IsDir, file_type, metadata_mode};
ghost use Rattle.wu_outside.specs.Faults.{HasFaultCause};

use crate::system::Failures;
use crate::traits::Fault;
use std::fs::{File, Metadata, OpenFile, TryLockError};
use std::os::unix::fs::MetadataExt;
use std::rt::Files;
use std::{fs, io};

/// Whose owner is the user that the process acts for.
const PROCESS: &str = "/proc/self";

/// The permission bits by which group and others may write.
const OTHERS_WRITE: u32 = 0o022;

/// An open folder whose lock can be taken.
pub trait LockFolder {
    /// Takes the lock, where nobody else has it. It is kept until the folder is closed.
    fn try_lock(&self) -> Result<(), TryLockError>;
}

impl LockFolder for File {
    fn try_lock(&self) -> Result<(), TryLockError> {
        File::try_lock(self)
    }
}

/// The folder, open and locked. None where it is absent. A failed call where another session has it,
/// where it is no folder but a symbolic link, say, where it belongs to another user than the one that
/// the process acts for, and where group or others may write to it.
pub fn take_folder<R: Files>(
    failures: &mut Failures,
    files: &R,
    path: &str,
) -> Result<Option<R::File>, Fault>
where
    R::File: LockFolder,
    ensures cause { HasFaultCause failures.old.count failures.new.count result }
{
    let Some(metadata) = failures.note_found(path, fs::symlink_metadata(files, path))? else {
        return Ok(None);
    };
    let user = failures.note(PROCESS, fs::metadata(files, PROCESS))?.uid();
    failures.note(path, accept_folder(&metadata, metadata.uid(), user))?;
    let folder = failures.note(path, fs::open(files, path))?;
    failures.note(path, lock(&folder))?;
    Ok(Some(folder))
}

/// Only a folder of the user's own will do, to which nobody else may write.
fn accept_folder(metadata: &Metadata, owner: u32, user: u32) -> io::Result<()>
    ensures folder { OnOk result (IsDir (file_type metadata.now)) }
    ensures owned { OnOk result (owner ≡ user) }
    ensures closed { OnOk result (bit_and (metadata_mode metadata.now) 18 ≡ 0) }
{
    if metadata.is_symlink() {
        return Err(io::Error::other("it is a symbolic link"));
    }
    if !metadata.is_dir() {
        return Err(io::Error::other("it is not a folder"));
    }
    if owner != user {
        return Err(io::Error::other("it belongs to another user"));
    }
    if metadata.mode() & OTHERS_WRITE != 0 {
        return Err(io::Error::other("its group or others may write to it"));
    }
    Ok(())
}

/// Takes the lock of the folder.
fn lock<F: LockFolder>(folder: &F) -> io::Result<()> {
    match folder.try_lock() {
        Ok(()) => Ok(()),
        Err(TryLockError::WouldBlock) => Err(io::Error::other("another session has it")),
        Err(TryLockError::Error(error)) => Err(error),
    }
}

/// Makes the folder's list of names survive a crash. A failed call where the path has another folder
/// by now, or none.
pub fn sync_held<R: Files>(
    failures: &mut Failures,
    files: &R,
    path: &str,
    held: &R::File,
) -> Result<(), Fault>
    ensures cause { HasFaultCause failures.old.count failures.new.count result }
{
    let named = failures.note(path, fs::symlink_metadata(files, path))?;
    let own = failures.note(path, held.metadata())?;
    failures.note(path, accept_same(&named, &own))?;
    failures.note(path, held.sync_all())
}

/// Only the same folder will do.
fn accept_same(named: &Metadata, own: &Metadata) -> io::Result<()> {
    if named.dev() == own.dev() && named.ino() == own.ino() {
        Ok(())
    } else {
        Err(io::Error::other("another folder took its place"))
    }
}
