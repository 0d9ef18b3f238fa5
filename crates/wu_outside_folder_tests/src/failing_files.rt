//! A store in a real folder, over calls of the system that fail in turn.
use std::alloc::Allocator;
use std::cell::Cell;
use std::fs::{File, FileTimes, Files, Metadata, OpenFile, OpenOptions, Permissions, TryLockError};
use std::io::{ErrorKind, Read, Seek, SeekFrom, Write};
use std::{fs, io};
use wu_outside::{DirStore, LockFolder};
use wu_outside_rows::Call::{Put, Read as ReadBlob, Remove, Root, SetRoot, Size, Sync};
use wu_outside_rows::{Call, answer};
use wu_rows::NoAnswer;

/// The folder of the store.
const FOLDER: &str = "failing";

/// Calls that touch all methods, the first ones over an absent folder.
const CALLS: &[Call<'static>] = &[
    Size(1),
    Sync,
    Root(8),
    Put(1, b"apple"),
    Put(2, b"pear"),
    ReadBlob(1, 0, 2),
    ReadBlob(1, 2, 8),
    Size(2),
    SetRoot(b"root"),
    Sync,
    Root(8),
    Remove(2),
    Sync,
];

/// How many calls of the system there were, and the one that fails.
#[derive(Drop)]
struct Tally {
    calls: Cell<u64>,
    failing: u64,
}

impl Tally {
    /// Counts a call, which fails where it is the one.
    fn pass(&self) -> io::Result<()> {
        let call = self.calls.get();
        self.calls.set(call.saturating_add(1));
        if call == self.failing {
            return Err(io::Error::from(ErrorKind::PermissionDenied));
        }
        Ok(())
    }
}

/// The system's files, of which one call fails.
#[derive(Drop)]
struct FailingFiles<'a, R> {
    files: &'a R,
    tally: &'a Tally,
}

/// One of them, opened.
#[derive(Drop)]
struct FailingFile<'a, F> {
    file: F,
    tally: &'a Tally,
}

impl<F: Read> Read for FailingFile<'_, F> {
    fn read(&mut self, buf: &mut [u8]) -> io::Result<usize> {
        self.tally.pass()?;
        self.file.read(buf)
    }
}

impl<F: Write> Write for FailingFile<'_, F> {
    fn write(&mut self, buf: &[u8]) -> io::Result<usize> {
        self.tally.pass()?;
        self.file.write(buf)
    }

    fn flush(&mut self) -> io::Result<()> {
        self.file.flush()
    }
}

impl<F: Seek> Seek for FailingFile<'_, F> {
    fn seek(&mut self, to: SeekFrom) -> io::Result<u64> {
        self.tally.pass()?;
        self.file.seek(to)
    }
}

impl<F: OpenFile> OpenFile for FailingFile<'_, F> {
    fn metadata(&self) -> io::Result<Metadata> {
        self.tally.pass()?;
        self.file.metadata()
    }

    fn set_len(&self, size: u64) -> io::Result<()> {
        self.tally.pass()?;
        self.file.set_len(size)
    }

    fn sync_all(&self) -> io::Result<()> {
        self.tally.pass()?;
        self.file.sync_all()
    }

    fn sync_data(&self) -> io::Result<()> {
        self.tally.pass()?;
        self.file.sync_data()
    }
}

impl<F: LockFolder> LockFolder for FailingFile<'_, F> {
    fn try_lock(&self) -> Result<(), TryLockError> {
        match self.tally.pass() {
            Ok(()) => self.file.try_lock(),
            Err(error) => Err(TryLockError::Error(error)),
        }
    }
}

impl<'a, R: Files> Files for FailingFiles<'a, R> {
    type File = FailingFile<'a, R::File>;

    type Dir = R::Dir;

    fn open_file(&self, how: &OpenOptions, path: &str) -> io::Result<FailingFile<'a, R::File>> {
        self.tally.pass()?;
        let file = self.files.open_file(how, path)?;
        Ok(FailingFile {
            file,
            tally: self.tally,
        })
    }

    fn open_dir(&self, path: &str) -> io::Result<R::Dir> {
        self.files.open_dir(path)
    }

    fn metadata(&self, path: &str) -> io::Result<Metadata> {
        self.tally.pass()?;
        self.files.metadata(path)
    }

    fn symlink_metadata(&self, path: &str) -> io::Result<Metadata> {
        self.tally.pass()?;
        self.files.symlink_metadata(path)
    }

    fn copy(&self, from: &str, to: &str) -> io::Result<u64> {
        self.files.copy(from, to)
    }

    fn rename(&self, from: &str, to: &str) -> io::Result<()> {
        self.tally.pass()?;
        self.files.rename(from, to)
    }

    fn remove_file(&self, path: &str) -> io::Result<()> {
        self.tally.pass()?;
        self.files.remove_file(path)
    }

    fn create_dir(&self, path: &str) -> io::Result<()> {
        self.tally.pass()?;
        self.files.create_dir(path)
    }

    fn create_dir_with_mode(&self, path: &str, mode: u32) -> io::Result<()> {
        self.tally.pass()?;
        self.files.create_dir_with_mode(path, mode)
    }

    fn remove_dir(&self, path: &str) -> io::Result<()> {
        self.files.remove_dir(path)
    }

    fn remove_dir_all<B: Allocator>(&self, alloc: B, path: &str) -> io::Result<()> {
        self.files.remove_dir_all(alloc, path)
    }
}

/// What came of the calls of a store while one call of the system failed.
#[derive(Clone, Copy)]
struct Outcome {
    /// How many calls of the system there were.
    system: u64,
    /// How many calls of the store failed.
    failed: u64,
    /// How many faults the store counted.
    faults: u64,
}

/// Prints in how many runs, in each of which one call of the system fails, exactly one call of the
/// store is answered as a failed one, and counted.
pub fn compare_system_calls<R: Files + Print + AllocGlobal>(rt: &R) -> io::Result<()>
where
    R::File: LockFolder,
{
    let calm = outcome_of(rt, u64::MAX)?;
    let mut told = 0u64;
    for failing in 0..calm.system {
        let outcome = outcome_of(rt, failing)?;
        told = told.saturating_add(u64::from(outcome.failed == 1 && outcome.faults == 1));
    }
    println!(rt;
        "each call of the system failing: {told} of {} runs answer and count it once, and {} calls fail without",
        calm.system,
        calm.failed.saturating_add(calm.faults)
    )
}

/// The calls on a store in a new folder, of which that call of the system fails.
fn outcome_of<R: Files + AllocGlobal>(rt: &R, failing: u64) -> Result<Outcome, NoAnswer>
where
    R::File: LockFolder,
{
    let tally = Tally {
        calls: Cell::new(0),
        failing,
    };
    let outcome = outcome_over(rt, &tally);
    let _ = fs::remove_dir_all(rt, FOLDER);
    outcome
}

fn outcome_over<R: Files + AllocGlobal>(rt: &R, tally: &Tally) -> Result<Outcome, NoAnswer>
where
    R::File: LockFolder,
{
    let files = (FailingFiles { files: rt, tally }, rt.alloc());
    let mut store = DirStore::new(&files, FOLDER)?;
    let mut failed = 0u64;
    for call in CALLS {
        let given = answer(rt.alloc(), &mut store, *call)?;
        failed = failed.saturating_add(u64::from(given.as_str() == "failed"));
    }
    Ok(Outcome {
        system: tally.calls.get(),
        failed,
        faults: store.faults(),
    })
}
