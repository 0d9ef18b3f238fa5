//! The list of all changes and syncs of a store in memory.
ghost use Rattle.std.specs.Prelude.{◌≡◌, ◌++◌, ◌==◌, ◌%◌, [], ◌∷◌, ◌≤◌, length, reverse, option_copied, IfOk, OnOk};
ghost use Rattle.std.specs.Int.{bit_at};
ghost use Rattle.wu_outside.specs.Logs.{content_of, changes_since_sync, is_kept, left_of, left_of_all, crash_log};
ghost use Rattle.wu_outside.specs.LogSteps.{blob_after, root_after};

use std::alloc::Global;
use wu_base::{Bytes, NoMemory};

/// A change or a sync that was done.
#[derive(Debug, Drop)]
pub enum Entry {
    /// The blob got these bytes.
    HasPut(u64, Bytes),
    /// The blob was made absent.
    HasRemoved(u64),
    /// The root got these bytes.
    HasSetRoot(Bytes),
    /// All before was made to survive a crash.
    HasSynced,
}

/// The bytes of a blob after all entries of the log, if it is there.
pub fn find_blob(log: &[Entry], blob: u64) -> Option<&Bytes>
    ensures { option_copied result ≡ (content_of (reverse log.now)).blobs blob }
{
    let mut found = None;
    for entry in log {
        found = pick_blob(found, entry, blob);
    }
    found
}

/// The bytes of a blob after one more entry.
fn pick_blob<'a>(found: Option<&'a Bytes>, entry: &'a Entry, blob: u64) -> Option<&'a Bytes>
    ensures { option_copied result ≡ blob_after entry.now blob (option_copied found.entry) }
{
    match entry {
        Entry::HasPut(other, bytes) => { if blob == *other { Some(bytes) } else { found } }
        Entry::HasRemoved(other) => { if blob == *other { None } else { found } }
        Entry::HasSetRoot(_) | Entry::HasSynced => found,
    }
}

/// The bytes of the root after all entries of the log, if there is one.
pub fn find_root(log: &[Entry]) -> Option<&Bytes>
    ensures { option_copied result ≡ (content_of (reverse log.now)).root }
{
    let mut found = None;
    for entry in log {
        found = pick_root(found, entry);
    }
    found
}

/// The bytes of the root after one more entry.
fn pick_root<'a>(found: Option<&'a Bytes>, entry: &'a Entry) -> Option<&'a Bytes>
    ensures { option_copied result ≡ root_after entry.now (option_copied found.entry) }
{
    match entry {
        Entry::HasSetRoot(bytes) => Some(bytes),
        Entry::HasPut(_, _) | Entry::HasRemoved(_) | Entry::HasSynced => found,
    }
}

/// The log after a crash: all up to the last sync, and of the changes since then what is left of
/// them by the bits of `choice`.
pub fn crash(alloc: Global, log: &[Entry], choice: u64) -> Result<Vec<Entry>, NoMemory>
    ensures { IfOk result (λ left. reverse left.items ≡ crash_log choice (reverse log.now)) }
{
    let start = log.len() - count_changes(log);
    let mut left = copy_all(alloc, &log[..start])?;
    leave(alloc, &mut left, &log[start..], choice)?;
    Ok(left)
}

/// How many entries came after the last sync.
fn count_changes(log: &[Entry]) -> usize
    ensures count { result ≡ changes_since_sync (reverse log.now) }
    ensures within { result ≤ length log.now }
{
    let mut count = 0;
    for entry in log {
        count = match entry {
            Entry::HasSynced => 0,
            Entry::HasPut(_, _) | Entry::HasRemoved(_) | Entry::HasSetRoot(_) => count + 1,
        };
    }
    count
}

/// A copy of all entries.
fn copy_all(alloc: Global, log: &[Entry]) -> Result<Vec<Entry>, NoMemory>
    ensures { IfOk result (λ copies. copies.items ≡ log.now) }
{
    let mut copies = Vec::new(alloc);
    for entry in log {
        copies.push(copy(alloc, entry)?)?;
    }
    Ok(copies)
}

/// A copy of an entry.
fn copy(alloc: Global, entry: &Entry) -> Result<Entry, NoMemory>
    ensures { IfOk result (λ other. other ≡ entry.now) }
{
    Ok(match entry {
        Entry::HasPut(blob, bytes) => {
            Entry::HasPut(*blob, Bytes::from_slice(alloc, bytes.as_slice())?)
        }
        Entry::HasRemoved(blob) => Entry::HasRemoved(*blob),
        Entry::HasSetRoot(bytes) => {
            Entry::HasSetRoot(Bytes::from_slice(alloc, bytes.as_slice())?)
        }
        Entry::HasSynced => Entry::HasSynced,
    })
}

/// Appends what is left of each of the changes.
fn leave(
    alloc: Global,
    left: &mut Vec<Entry>,
    changes: &[Entry],
    choice: u64,
) -> Result<(), NoMemory>
    ensures { OnOk result (reverse left.new.items ≡ left_of_all choice (reverse changes.now) ++ reverse left.old.items) }
{
    for (number, entry) in changes.iter().enumerate() {
        leave_one(alloc, left, entry, keeps(choice, number))?;
    }
    Ok(())
}

/// Appends what is left of a change.
fn leave_one(
    alloc: Global,
    left: &mut Vec<Entry>,
    entry: &Entry,
    kept: bool,
) -> Result<(), NoMemory>
    ensures { OnOk result (reverse left.new.items ≡ left_of kept entry.now ++ reverse left.old.items) }
{
    if kept {
        left.push(copy(alloc, entry)?)?;
        return Ok(());
    }
    match entry {
        Entry::HasPut(blob, _) => left.push(Entry::HasRemoved(*blob))?,
        Entry::HasRemoved(_) | Entry::HasSetRoot(_) | Entry::HasSynced => {}
    }
    Ok(())
}

/// Whether the bit of the choice keeps the change of this number.
fn keeps(choice: u64, number: usize) -> bool
    ensures { result ≡ is_kept choice number }
{
    choice >> (number % 64) & 1 == 1
}
