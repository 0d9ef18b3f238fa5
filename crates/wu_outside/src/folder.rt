//! A store in a folder: blob n in the file `b` and the decimal n, the root in the file `root`.
ghost use Rattle.std.specs.Prelude.{◌≡◌, ◌==◌, ◌⊎◌, filter, not, [], None, true, position, IfOk, IfSome, IsSome, OnOk, OnErr, option_copied};
ghost use Rattle.std.specs.Ordering.{nat_cmp};
ghost use Rattle.std.specs.BTreeSet.{insert_key};
ghost use Rattle.wu_outside.specs.Faults.{HasFaultCause};

use crate::disk::{
    look, make_folder, open_file, read_front, remove_file, replace_file, sync_file, sync_folder,
    write_file,
};
use crate::held_folder::{LockFolder, sync_held, take_folder};
use crate::open_blob::OpenBlob;
use crate::system::{Failure, Failures};
use crate::traits::{Fault, Store};
use std::alloc::{AllocError, Global};
use std::collections::BTreeSet;
use std::io;
use std::io::{ErrorKind, Read, Seek};
use std::path::Path;
use std::rt::Files;
use wu_base::NoMemory;

/// How many blobs stay open.
const OPEN_MAX: usize = 8;

/// A store in a folder, which the first `sync`, `put` or `set_root` makes, for its owner alone, where
/// it is absent. It tells nothing of its content. Each error of the system counts as a fault, but
/// for that of an absent file.
///
/// The first call that finds the folder takes its lock, and the store keeps it until it is dropped:
/// where another has it, the call fails. A folder that is a symbolic link, belongs to another user
/// than the one that the process acts for, or may be written by group or others is a failed call too,
/// and so is a file of the store that is no regular file.
///
/// A put is written at once, and made to survive by the next `sync`: each file that was put since
/// the last one, the folder, and at the first sync the folder above it. The root is written to
/// `root.new`, made to survive and renamed.
#[derive(Drop)]
pub struct DirStore<'a, R: Files + AllocGlobal> {
    files: &'a R,
    folder: String,
    held: Option<R::File>,
    open_blobs: Vec<OpenBlob<R::File>>,
    unsynced: BTreeSet<u64>,
    is_named: bool,
    failures: Failures,
}

impl<'a, R: Files + AllocGlobal> DirStore<'a, R>
where
    R::File: LockFolder,
{
    /// The store in this folder, which isn't touched yet, with no fault counted. The one error is out of
    /// memory.
    pub fn new(files: &'a R, folder: &str) -> Result<DirStore<'a, R>, NoMemory>
        ensures count { IfOk result (λ store. store.failures.count ≡ 0) }
        ensures none_failed { IfOk result (λ store. store.failures.last ≡ None) }
    {
        Ok(DirStore {
            files,
            folder: String::from_str(files.alloc(), folder)?,
            held: None,
            open_blobs: Vec::new(files.alloc()),
            unsynced: BTreeSet::new(files.alloc()),
            is_named: false,
            failures: Failures::new(files.alloc()),
        })
    }

    /// How many faults there were. The count stands still at 2^64 - 1.
    pub fn faults(&self) -> u64
        ensures { result ≡ self.now.failures.count }
    {
        self.failures.count()
    }

    /// The last call of the system that failed, for a person to read. None also where there was no
    /// memory to keep it.
    pub fn last_failure(&self) -> Option<&Failure>
        ensures { option_copied result ≡ self.now.failures.last }
    {
        self.failures.last()
    }

    /// Takes the folder, the first time that it is there, and answers whether it is taken.
    fn hold(&mut self) -> Result<bool, Fault>
        ensures cause { HasFaultCause self.old.failures.count self.new.failures.count result }
        ensures held { result ≡ Ok true → IsSome self.new.held }
        ensures still_open { self.new.open_blobs.items ≡ self.old.open_blobs.items }
        ensures unsynced { self.new.unsynced.keys ≡ self.old.unsynced.keys }
        ensures named { self.new.is_named ≡ self.old.is_named }
    {
        if self.held.is_none() {
            self.held = take_folder(&mut self.failures, self.files, self.folder.as_str())?;
        }
        Ok(self.held.is_some())
    }

    /// Makes the folder where it is absent, and takes it, the first time.
    fn need_folder(&mut self) -> Result<(), Fault>
        ensures cause { HasFaultCause self.old.failures.count self.new.failures.count result }
        ensures held { OnOk result (IsSome self.new.held) }
        ensures still_open { self.new.open_blobs.items ≡ self.old.open_blobs.items }
        ensures unsynced { self.new.unsynced.keys ≡ self.old.unsynced.keys }
        ensures named { self.new.is_named ≡ self.old.is_named }
    {
        if self.hold()? {
            return Ok(());
        }
        make_folder(&mut self.failures, self.files, self.folder.as_str())?;
        if self.hold()? {
            return Ok(());
        }
        let absent = Err(io::Error::from(ErrorKind::NotFound));
        self.failures.note(self.folder.as_str(), absent)
    }

    /// The blob's open file, taken out of those that stay open, or newly opened. None where there is
    /// no file.
    fn take_open(&mut self, blob: u64) -> Result<Option<OpenBlob<R::File>>, Fault>
        ensures cause { HasFaultCause self.old.failures.count self.new.failures.count result }
        ensures blob { IfOk result (λ found. IfSome found (λ one. one.blob ≡ blob)) }
    {
        if let Some(place) = find_open(self.open_blobs.as_slice(), blob) {
            return Ok(Some(self.open_blobs.remove(place)));
        }
        let path = blob_path(self.files.alloc(), self.folder.as_str(), blob)?;
        match open_file(&mut self.failures, self.files, path.as_str())? {
            None => Ok(None),
            Some(file) => Ok(Some(OpenBlob::new(self.files.alloc(), blob, path, file)?)),
        }
    }

    /// Keeps a blob open, in place of the one that was read longest ago where there are too many.
    fn keep_open(&mut self, kept: OpenBlob<R::File>)
        ensures { self.new.failures.count ≡ self.old.failures.count }
    {
        if self.open_blobs.len() >= OPEN_MAX {
            self.open_blobs.remove(0);
        }
        let _ = self.open_blobs.push(kept);
    }

    /// Closes the blob, if it is open, so that no window gives bytes that it had.
    fn close(&mut self, blob: u64)
        ensures closed { self.new.open_blobs.items ≡ filter (λ one. not (one.blob == blob)) self.old.open_blobs.items }
        ensures unsynced { self.new.unsynced.keys ≡ self.old.unsynced.keys }
        ensures named { self.new.is_named ≡ self.old.is_named }
        ensures count { self.new.failures.count ≡ self.old.failures.count }
    {
        self.open_blobs.retain(|one| !one.is_of(blob));
    }
}

impl<'a, R: Files + AllocGlobal> Store for DirStore<'a, R>
where
    R::File: LockFolder,
{
    ghost holds = { λ _. None };

    ghost reads = { λ _. None };

    ghost moments = { λ _. None };

    ghost faults = { λ s. s.failures.count };

    fn size(&mut self, blob: u64) -> Result<Option<u64>, Fault> {
        if !self.hold()? {
            return Ok(None);
        }
        let path = blob_path(self.files.alloc(), self.folder.as_str(), blob)?;
        match look(&mut self.failures, self.files, path.as_str())? {
            None => Ok(None),
            Some(metadata) => Ok(Some(metadata.len())),
        }
    }

    fn read(&mut self, blob: u64, at: u64, buf: &mut [u8]) -> Result<Option<usize>, Fault> {
        if !self.hold()? {
            return Ok(None);
        }
        match self.take_open(blob)? {
            None => Ok(None),
            Some(mut open) => {
                let count = open.read_at(&mut self.failures, at, buf)?;
                self.keep_open(open);
                Ok(Some(count))
            }
        }
    }

    fn put(&mut self, blob: u64, bytes: &[u8]) -> Result<(), Fault>
        ensures noted { OnOk result (self.new.unsynced.keys ≡ insert_key nat_cmp self.old.unsynced.keys blob) }
        ensures refused { OnErr result ((self.new.unsynced.keys ≡ self.old.unsynced.keys)
            ⊎ (self.new.unsynced.keys ≡ insert_key nat_cmp self.old.unsynced.keys blob)) }
        ensures closed { self.new.open_blobs.items ≡ filter (λ one. not (one.blob == blob)) self.old.open_blobs.items }
        ensures named { self.new.is_named ≡ self.old.is_named }
        ensures cause { HasFaultCause self.old.failures.count self.new.failures.count result }
    {
        self.close(blob);
        self.need_folder()?;
        self.unsynced.insert(blob)?;
        let path = blob_path(self.files.alloc(), self.folder.as_str(), blob)?;
        write_file(&mut self.failures, self.files, path.as_str(), bytes)?;
        Ok(())
    }

    fn remove(&mut self, blob: u64) -> Result<(), Fault>
        ensures closed { self.new.open_blobs.items ≡ filter (λ one. not (one.blob == blob)) self.old.open_blobs.items }
        ensures unsynced { self.new.unsynced.keys ≡ self.old.unsynced.keys }
        ensures named { self.new.is_named ≡ self.old.is_named }
        ensures cause { HasFaultCause self.old.failures.count self.new.failures.count result }
    {
        self.close(blob);
        if !self.hold()? {
            return Ok(());
        }
        let path = blob_path(self.files.alloc(), self.folder.as_str(), blob)?;
        remove_file(&mut self.failures, self.files, path.as_str())
    }

    fn root(&mut self, buf: &mut [u8]) -> Result<Option<usize>, Fault> {
        if !self.hold()? {
            return Ok(None);
        }
        let path = file_path(self.files.alloc(), self.folder.as_str(), "root")?;
        read_front(&mut self.failures, self.files, path.as_str(), buf)
    }

    fn set_root(&mut self, bytes: &[u8]) -> Result<(), Fault> {
        self.need_folder()?;
        let path = file_path(self.files.alloc(), self.folder.as_str(), "root")?;
        let fresh = file_path(self.files.alloc(), self.folder.as_str(), "root.new")?;
        replace_file(
            &mut self.failures,
            self.files,
            path.as_str(),
            fresh.as_str(),
            bytes,
        )?;
        Ok(())
    }

    fn sync(&mut self) -> Result<(), Fault>
        ensures emptied { OnOk result (self.new.unsynced.keys ≡ []) }
        ensures named { OnOk result (self.new.is_named ≡ true) }
        ensures unsynced { OnErr result (self.new.unsynced.keys ≡ self.old.unsynced.keys) }
        ensures unnamed { OnErr result (self.new.is_named ≡ self.old.is_named) }
        ensures cause { HasFaultCause self.old.failures.count self.new.failures.count result }
    {
        self.need_folder()?;
        let folder = self.folder.as_str();
        sync_blobs(&mut self.failures, self.files, folder, &self.unsynced)?;
        if let Some(held) = &self.held {
            sync_held(&mut self.failures, self.files, folder, held)?;
        }
        if !self.is_named {
            sync_folder(&mut self.failures, self.files, folder_above(folder))?;
            self.is_named = true;
        }
        self.unsynced.clear();
        Ok(())
    }

    ghost told_alike = { λ _. Prim.tt };
}

/// Makes the files of these blobs survive a crash, where they are there.
fn sync_blobs<R: Files + AllocGlobal>(
    failures: &mut Failures,
    files: &R,
    folder: &str,
    blobs: &BTreeSet<u64>,
) -> Result<(), Fault>
    ensures cause { HasFaultCause failures.old.count failures.new.count result }
{
    for blob in blobs {
        let path = blob_path(files.alloc(), folder, *blob)?;
        sync_file(failures, files, path.as_str())?;
    }
    Ok(())
}

/// The place of the blob among the open ones.
fn find_open<F: Read + Seek>(kept: &[OpenBlob<F>], blob: u64) -> Option<usize>
    ensures { result ≡ position (λ one. one.blob == blob) kept.now }
{
    kept.iter().position(|one| one.is_of(blob))
}

/// The path of the blob's file.
fn blob_path(alloc: Global, folder: &str, blob: u64) -> Result<String, AllocError> {
    format!(in alloc; "{folder}/b{blob}")
}

/// The path of a file in the folder.
fn file_path(alloc: Global, folder: &str, name: &str) -> Result<String, AllocError> {
    format!(in alloc; "{folder}/{name}")
}

/// The folder that has this one.
fn folder_above(folder: &str) -> &str {
    match Path::new(folder).parent() {
        Some(above) if !above.as_str().is_empty() => above.as_str(),
        _ => ".",
    }
}
