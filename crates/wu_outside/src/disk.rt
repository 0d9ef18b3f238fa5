//! Files on disk, for the store in a folder: the trusted edge. Each error of the system is noted, and
//! no file is reached through a symbolic link.
ghost use Rattle.std.specs.Prelude.{◌≡◌, ◌≢◌, ◌≤◌, ◌<◌, ◌↔◌, length, take, IfOk, IfSome, IsErr, IsErrAnd, IsOk, OnOk, MatchResult};
ghost use Rattle.std.specs.Io.KnownBytes.{Appends, Consumes, IsAtEnd};
ghost use Rattle.std.specs.Fs.{IsFile, file_type, metadata_len};
ghost use Rattle.std.specs.IoError.{error_kind};
ghost use Rattle.wu_outside.specs.Faults.{HasFaultCause};

use crate::synced_file::SyncedFile;
use crate::system::Failures;
use crate::traits::Fault;
use std::fs::{DirBuilder, Metadata, OpenFile};
use std::io::{ErrorKind, Read, Seek, SeekFrom, Write};
use std::os::unix::fs::DirBuilderExt;
use std::rt::Files;
use std::{fs, io};

/// The last place in a file from which one can read.
pub const LAST_PLACE: u64 = u64::MAX / 2;

/// Looks at the file, before it is reached by its name. None where there is none; what is there but is
/// no regular file, as a symbolic link, is a failed call.
pub fn look<R: Files>(
    failures: &mut Failures,
    files: &R,
    path: &str,
) -> Result<Option<Metadata>, Fault>
    ensures file { IfOk result (λ found. IfSome found (λ metadata. IsFile (file_type metadata))) }
    ensures cause { HasFaultCause failures.old.count failures.new.count result }
{
    let found = failures.note_found(path, fs::symlink_metadata(files, path))?;
    if let Some(metadata) = &found {
        failures.note(path, accept_file(metadata))?;
    }
    Ok(found)
}

/// Only a regular file will do.
fn accept_file(metadata: &Metadata) -> io::Result<()>
    ensures { IsOk result ↔ IsFile (file_type metadata.now) }
{
    if metadata.is_file() {
        Ok(())
    } else if metadata.is_symlink() {
        Err(io::Error::other("it is a symbolic link"))
    } else {
        Err(io::Error::other("it is not a regular file"))
    }
}

/// The file, opened for reading. None where there is none.
pub fn open_file<R: Files>(
    failures: &mut Failures,
    files: &R,
    path: &str,
) -> Result<Option<R::File>, Fault>
    ensures cause { HasFaultCause failures.old.count failures.new.count result }
{
    let found = look(failures, files, path)?;
    open_found(failures, files, path, found)
}

/// Opens what was found by a look, which is a regular file. None where there was none, or is by now.
fn open_found<R: Files>(
    failures: &mut Failures,
    files: &R,
    path: &str,
    found: Option<Metadata>,
) -> Result<Option<R::File>, Fault>
    requires { IfSome found (λ metadata. IsFile (file_type metadata)) }
    ensures cause { HasFaultCause failures.old.count failures.new.count result }
{
    if found.is_none() {
        return Ok(None);
    }
    failures.note_found(path, fs::open(files, path))
}

/// Makes the folder, for its owner alone, where it is absent.
pub fn make_folder<R: Files>(failures: &mut Failures, files: &R, path: &str) -> Result<(), Fault>
    ensures cause { HasFaultCause failures.old.count failures.new.count result }
{
    let mut builder = DirBuilder::new();
    builder.mode(0o700);
    failures.note(path, accept_existing(builder.create(files, path)))
}

/// What came of making a folder, where one that exists will do.
fn accept_existing(outcome: io::Result<()>) -> io::Result<()>
    ensures { MatchResult result
        (λ _. IsErr outcome → IsErrAnd outcome (λ error. error_kind error ≡ ErrorKind.AlreadyExists))
        (λ error. (outcome ≡ Err error) × (error_kind error ≢ ErrorKind.AlreadyExists)) }
{
    match outcome {
        Ok(()) => Ok(()),
        Err(error) if error.kind() == ErrorKind::AlreadyExists => Ok(()),
        Err(error) => Err(error),
    }
}

/// Makes a file survive a crash, where it is there.
pub fn sync_file<R: Files>(failures: &mut Failures, files: &R, path: &str) -> Result<(), Fault>
    ensures cause { HasFaultCause failures.old.count failures.new.count result }
{
    match open_file(failures, files, path)? {
        None => Ok(()),
        Some(file) => failures.note(path, file.sync_all()),
    }
}

/// Makes a folder's list of names survive a crash.
pub fn sync_folder<R: Files>(failures: &mut Failures, files: &R, path: &str) -> Result<(), Fault>
    ensures cause { HasFaultCause failures.old.count failures.new.count result }
{
    let folder = failures.note(path, fs::open(files, path))?;
    failures.note(path, folder.sync_all())
}

/// Gives the file these bytes alone, whatever it had, and leaves it open.
pub fn write_file<R: Files>(
    failures: &mut Failures,
    files: &R,
    path: &str,
    bytes: &[u8],
) -> Result<R::File, Fault>
    ensures cause { HasFaultCause failures.old.count failures.new.count result }
{
    look(failures, files, path)?;
    let mut file = failures.note(path, fs::create(files, path))?;
    write_bytes(failures, path, &mut file, bytes)?;
    Ok(file)
}

/// Writes all of the bytes.
fn write_bytes<F: Write>(
    failures: &mut Failures,
    path: &str,
    file: &mut F,
    bytes: &[u8],
) -> Result<(), Fault>
    ensures written { OnOk result (Appends (F.contents file.old) (F.contents file.new) bytes.now) }
    ensures cause { HasFaultCause failures.old.count failures.new.count result }
{
    let mut at = 0;
    while at < bytes.len() {
        let count = failures.note(path, file.write(&bytes[at..]))?;
        failures.note(path, refuse_none(count))?;
        at += count;
    }
    Ok(())
}

/// A write that takes nothing is an error.
fn refuse_none(count: usize) -> io::Result<()>
    ensures { IsOk result ↔ (0 < count) }
{
    if count == 0 {
        return Err(io::Error::from(ErrorKind::WriteZero));
    }
    Ok(())
}

/// Gives the file these bytes alone, at once: they are written to another file, which takes its name
/// once it has survived. What has the name then is a file that has.
pub fn replace_file<'a, R: Files>(
    failures: &mut Failures,
    files: &R,
    path: &'a str,
    fresh: &str,
    bytes: &[u8],
) -> Result<SyncedFile<'a>, Fault>
    ensures path { IfOk result (λ synced. synced.path.now ≡ path.now) }
    ensures cause { HasFaultCause failures.old.count failures.new.count result }
{
    look(failures, files, path)?;
    let file = write_file(failures, files, fresh, bytes)?;
    let synced = SyncedFile::sync(failures, fresh, &file)?;
    synced.rename(failures, files, path)
}

/// Removes the file, where it is there.
pub fn remove_file<R: Files>(failures: &mut Failures, files: &R, path: &str) -> Result<(), Fault>
    ensures cause { HasFaultCause failures.old.count failures.new.count result }
{
    if look(failures, files, path)?.is_some() {
        failures.note_found(path, fs::remove_file(files, path))?;
    }
    Ok(())
}

/// The length of a file, and its first bytes. None where there is none.
pub fn read_front<R: Files>(
    failures: &mut Failures,
    files: &R,
    path: &str,
    buf: &mut [u8],
) -> Result<Option<usize>, Fault>
    ensures cause { HasFaultCause failures.old.count failures.new.count result }
{
    match open_file(failures, files, path)? {
        None => Ok(None),
        Some(mut file) => {
            let metadata = failures.note(path, file.metadata())?;
            let len = read_front_of(failures, path, &mut file, &metadata, buf)?;
            Ok(Some(len))
        }
    }
}

/// The length of an open file by its metadata, also where it is longer than the buffer, and its first
/// bytes.
fn read_front_of<F: Read + Seek>(
    failures: &mut Failures,
    path: &str,
    file: &mut F,
    metadata: &Metadata,
    buf: &mut [u8],
) -> Result<usize, Fault>
    ensures len { IfOk result (λ len. len ≡ metadata_len metadata.now) }
    ensures cause { HasFaultCause failures.old.count failures.new.count result }
{
    read_at(failures, path, file, 0, buf)?;
    Ok(metadata.len() as usize)
}

/// Reads from a place on, as far as the file goes and there is room.
pub fn read_at<F: Read + Seek>(
    failures: &mut Failures,
    path: &str,
    file: &mut F,
    at: u64,
    buf: &mut [u8],
) -> Result<usize, Fault>
    ensures within { IfOk result (λ n. n ≤ length buf.new) }
    ensures beyond { LAST_PLACE < at → result ≡ Ok 0 }
    ensures taken { IfOk result (λ n. at ≤ LAST_PLACE → (sought : F)
        × IfSome (F.stream_position file.old) (λ _. F.stream_position sought ≡ Some at)
        × Consumes (F.remaining sought) (F.remaining file.new) (take n buf.new)) }
    ensures cause { HasFaultCause failures.old.count failures.new.count result }
{
    if at > LAST_PLACE {
        return Ok(0);
    }
    seek_to(failures, path, file, at)?;
    fill(failures, path, file, buf)
}

/// Goes to a place, from which the next read is.
fn seek_to<F: Seek>(failures: &mut Failures, path: &str, file: &mut F, at: u64) -> Result<(), Fault>
    ensures place { OnOk result (IfSome (F.stream_position file.old) (λ _. F.stream_position file.new ≡ Some at)) }
    ensures cause { HasFaultCause failures.old.count failures.new.count result }
{
    failures.note(path, file.seek(SeekFrom::Start(at)))?;
    Ok(())
}

/// Reads as far as the file goes and there is room.
fn fill<F: Read>(
    failures: &mut Failures,
    path: &str,
    file: &mut F,
    buf: &mut [u8],
) -> Result<usize, Fault>
    ensures within { IfOk result (λ n. n ≤ length buf.new) }
    ensures taken { IfOk result (λ n. Consumes (F.remaining file.old) (F.remaining file.new) (take n buf.new)) }
    ensures end { IfOk result (λ n. n < length buf.new → IsAtEnd (F.remaining file.new)) }
    ensures cause { HasFaultCause failures.old.count failures.new.count result }
{
    let mut count = 0;
    while count < buf.len() {
        let more = failures.note(path, file.read(&mut buf[count..]))?;
        count += more;
        if more == 0 {
            return Ok(count);
        }
    }
    Ok(count)
}
