//! Which files a store in a folder makes survive, by their names and in turn.
use std::alloc::{Allocator, Global};
use std::cell::RefCell;
use std::fs::{File, FileTimes, Files, Metadata, OpenFile, OpenOptions, Permissions, TryLockError};
use std::io;
use std::io::{ErrorKind, Read, Seek, SeekFrom, Write};
use wu_outside::{DirStore, LockFolder};
use wu_outside_rows::answers_of;
use wu_rows::NoAnswer;

/// What was synced, renamed and removed, each after a space.
type Notes = RefCell<String>;

/// The system's files, of which it is noted what is synced, renamed and removed.
#[derive(Drop)]
struct NotedFiles<'a, R> {
    files: &'a R,
    alloc: Global,
    notes: &'a Notes,
}

/// One of them, opened by that path.
#[derive(Drop)]
struct NotedFile<'a, F> {
    file: F,
    path: String,
    notes: &'a Notes,
}

/// Notes a word and the path that it is of.
fn note(notes: &Notes, word: &str, path: &str) -> io::Result<()> {
    match notes.try_borrow_mut() {
        Ok(mut text) => append(&mut text, word, path),
        Err(_) => Err(io::Error::from(ErrorKind::Other)),
    }
}

fn append(text: &mut String, word: &str, path: &str) -> io::Result<()> {
    text.push(' ')?;
    text.push_str(word)?;
    text.push_str(path)?;
    Ok(())
}

impl<F: Read> Read for NotedFile<'_, F> {
    fn read(&mut self, buf: &mut [u8]) -> io::Result<usize> {
        self.file.read(buf)
    }
}

impl<F: Write> Write for NotedFile<'_, F> {
    fn write(&mut self, buf: &[u8]) -> io::Result<usize> {
        self.file.write(buf)
    }

    fn flush(&mut self) -> io::Result<()> {
        self.file.flush()
    }
}

impl<F: Seek> Seek for NotedFile<'_, F> {
    fn seek(&mut self, to: SeekFrom) -> io::Result<u64> {
        self.file.seek(to)
    }
}

impl<F: OpenFile> OpenFile for NotedFile<'_, F> {
    fn metadata(&self) -> io::Result<Metadata> {
        self.file.metadata()
    }

    fn set_len(&self, size: u64) -> io::Result<()> {
        self.file.set_len(size)
    }

    fn sync_all(&self) -> io::Result<()> {
        note(self.notes, "", self.path.as_str())?;
        self.file.sync_all()
    }

    fn sync_data(&self) -> io::Result<()> {
        note(self.notes, "data of ", self.path.as_str())?;
        self.file.sync_data()
    }
}

impl<F: LockFolder> LockFolder for NotedFile<'_, F> {
    fn try_lock(&self) -> Result<(), TryLockError> {
        self.file.try_lock()
    }
}

impl<'a, R: Files> Files for NotedFiles<'a, R> {
    type File = NotedFile<'a, R::File>;

    type Dir = R::Dir;

    fn open_file(&self, how: &OpenOptions, path: &str) -> io::Result<NotedFile<'a, R::File>> {
        let file = self.files.open_file(how, path)?;
        let path = String::from_str(self.alloc, path)?;
        Ok(NotedFile {
            file,
            path,
            notes: self.notes,
        })
    }

    fn open_dir(&self, path: &str) -> io::Result<R::Dir> {
        self.files.open_dir(path)
    }

    fn metadata(&self, path: &str) -> io::Result<Metadata> {
        self.files.metadata(path)
    }

    fn symlink_metadata(&self, path: &str) -> io::Result<Metadata> {
        self.files.symlink_metadata(path)
    }

    fn copy(&self, from: &str, to: &str) -> io::Result<u64> {
        self.files.copy(from, to)
    }

    fn rename(&self, from: &str, to: &str) -> io::Result<()> {
        note(self.notes, "as ", to)?;
        self.files.rename(from, to)
    }

    fn remove_file(&self, path: &str) -> io::Result<()> {
        note(self.notes, "no ", path)?;
        self.files.remove_file(path)
    }

    fn create_dir(&self, path: &str) -> io::Result<()> {
        self.files.create_dir(path)
    }

    fn create_dir_with_mode(&self, path: &str, mode: u32) -> io::Result<()> {
        self.files.create_dir_with_mode(path, mode)
    }

    fn remove_dir(&self, path: &str) -> io::Result<()> {
        self.files.remove_dir(path)
    }

    fn remove_dir_all<B: Allocator>(&self, alloc: B, path: &str) -> io::Result<()> {
        self.files.remove_dir_all(alloc, path)
    }
}

/// The answers of the calls on the store in the folder, and then, each after a space: the path of
/// what was synced, `as` and the new path of what was renamed, `no` and that of what was removed.
pub fn answers_with_syncs<R: Files + AllocGlobal>(
    rt: &R,
    arguments: &[&str],
) -> Result<String, NoAnswer>
where
    R::File: LockFolder,
{
    let [folder, calls] = arguments else {
        return Err(NoAnswer::BadRow);
    };
    let notes = RefCell::new(String::new(rt.alloc()));
    let mut text = answers_over(rt, &notes, folder, calls)?;
    match notes.try_borrow() {
        Ok(noted) => text.push_str(noted.as_str())?,
        Err(_) => return Err(NoAnswer::BadRow),
    }
    Ok(text)
}

fn answers_over<R: Files + AllocGlobal>(
    rt: &R,
    notes: &Notes,
    folder: &str,
    calls: &str,
) -> Result<String, NoAnswer>
where
    R::File: LockFolder,
{
    let noted = NotedFiles {
        files: rt,
        alloc: rt.alloc(),
        notes,
    };
    let files = (noted, rt.alloc());
    let mut store = DirStore::new(&files, folder)?;
    answers_of(rt.alloc(), &mut store, calls)
}
