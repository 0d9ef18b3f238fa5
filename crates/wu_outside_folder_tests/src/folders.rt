//! The store in a folder of the disk.
use crate::synced_files::answers_with_syncs;
use std::alloc::Global;
use std::fs::{OpenOptions, Permissions};
use std::os::unix::fs::{PermissionsExt, symlink};
use std::rt::Files;
use std::{fs, io};
use wu_outside::{DirStore, Failed, Fault, LockFolder, Sink, Source, StdIn, StdOut, Store};
use wu_outside_rows::answers_of;
use wu_rows::{NoAnswer, bytes_text, number_text, plain_text};

/// The answer of the call to the arguments.
pub fn answer<R: Files + AllocGlobal>(
    files: &R,
    alloc: Global,
    call: &str,
    arguments: &[&str],
) -> Result<String, NoAnswer>
where
    R::File: LockFolder,
{
    match call {
        "StdIn" => first_read(files, arguments),
        "StdOut" => first_write(files, arguments),
        "DirStore" => answers(files, arguments),
        "DirStore::last_failure" => failure_in(files, arguments),
        "DirStore synced" => answers_with_syncs(files, arguments),
        "DirStore twice" => answers_of_two(files, arguments),
        "fs::mode" => mode_of(files, arguments),
        "fs::read" => content_of(files, arguments),
        "fs::set_mode" => with_mode(files, arguments),
        _ => outcome(alloc, done(files, call, arguments)?),
    }
}

/// Calls the system on a path, or on a path and a text.
fn done<R: Files + AllocGlobal>(
    files: &R,
    call: &str,
    arguments: &[&str],
) -> Result<io::Result<()>, NoAnswer> {
    match arguments {
        [path] => done_to(files, call, path),
        [path, text] => done_with(files, call, path, text),
        _ => Err(NoAnswer::BadRow),
    }
}

fn done_to<R: Files + AllocGlobal>(
    files: &R,
    call: &str,
    path: &str,
) -> Result<io::Result<()>, NoAnswer> {
    match call {
        "fs::create_dir" => Ok(fs::create_dir(files, path)),
        "fs::remove_file" => Ok(fs::remove_file(files, path)),
        "fs::remove_dir_all" => Ok(fs::remove_dir_all(files, path)),
        _ => Err(NoAnswer::BadRow),
    }
}

fn done_with<R: Files + AllocGlobal>(
    files: &R,
    call: &str,
    path: &str,
    text: &str,
) -> Result<io::Result<()>, NoAnswer> {
    match call {
        "fs::write" => Ok(fs::write(files, path, text)),
        "fs::symlink" => Ok(symlink(files, path, text)),
        _ => Err(NoAnswer::BadRow),
    }
}

/// The answers of the calls on the store in the folder; also around a removal of the folder, or a
/// cut of a file.
fn answers<R: Files + AllocGlobal>(files: &R, arguments: &[&str]) -> Result<String, NoAnswer>
where
    R::File: LockFolder,
{
    match arguments {
        [folder, calls] => answers_in(files, folder, calls),
        [folder, calls, later] => answers_around_a_removal(files, folder, calls, later),
        [folder, calls, file, text, later] => {
            answers_around_a_cut(files, folder, calls, file, text, later)
        }
        _ => Err(NoAnswer::BadRow),
    }
}

/// The answers of the calls on the store in the folder, and how many failed.
fn answers_in<R: Files + AllocGlobal>(
    files: &R,
    folder: &str,
    calls: &str,
) -> Result<String, NoAnswer>
where
    R::File: LockFolder,
{
    let mut store = DirStore::new(files, folder)?;
    let answers = answers_of(files.alloc(), &mut store, calls);
    with_faults(answers, store.faults())
}

fn with_faults(answers: Result<String, NoAnswer>, faults: u64) -> Result<String, NoAnswer> {
    let mut text = answers?;
    write!(text, " {faults} failed")?;
    Ok(text)
}

/// The same, where between two lists of calls the file gets this text.
fn answers_around_a_cut<R: Files + AllocGlobal>(
    files: &R,
    folder: &str,
    calls: &str,
    file: &str,
    text: &str,
    later: &str,
) -> Result<String, NoAnswer>
where
    R::File: LockFolder,
{
    let mut store = DirStore::new(files, folder)?;
    let before = answers_of(files.alloc(), &mut store, calls);
    let cut = fs::write(files, file, text).is_ok();
    let after = answers_of(files.alloc(), &mut store, later);
    with_faults(joined(before, cut, after), store.faults())
}

/// The answers before and after the cut, if it was made.
fn joined(
    before: Result<String, NoAnswer>,
    cut: bool,
    after: Result<String, NoAnswer>,
) -> Result<String, NoAnswer> {
    if !cut {
        return Err(NoAnswer::BadRow);
    }
    let mut answers = before?;
    answers.push_str(after?.as_str())?;
    Ok(answers)
}

/// The last call of the system that failed in the calls on the store in the folder, or `none`.
fn failure_in<R: Files + AllocGlobal>(files: &R, arguments: &[&str]) -> Result<String, NoAnswer>
where
    R::File: LockFolder,
{
    let [folder, calls] = arguments else {
        return Err(NoAnswer::BadRow);
    };
    let mut store = DirStore::new(files, folder)?;
    answers_of(files.alloc(), &mut store, calls)?;
    match store.last_failure() {
        Some(failure) => Ok(format!(in files.alloc(); "{failure}")?),
        None => plain_text(files.alloc(), "none"),
    }
}

/// The answers of the calls of a store, of those of another one over the same folder meanwhile, and
/// of the same ones of a third once these two are gone.
fn answers_of_two<R: Files + AllocGlobal>(files: &R, arguments: &[&str]) -> Result<String, NoAnswer>
where
    R::File: LockFolder,
{
    let [folder, calls, other] = arguments else {
        return Err(NoAnswer::BadRow);
    };
    let mut text = answers_of_first_two(files, folder, calls, other)?;
    text.push_str(" then ")?;
    text.push_str(answers_in(files, folder, other)?.as_str())?;
    Ok(text)
}

fn answers_of_first_two<R: Files + AllocGlobal>(
    files: &R,
    folder: &str,
    calls: &str,
    other: &str,
) -> Result<String, NoAnswer>
where
    R::File: LockFolder,
{
    let mut store = DirStore::new(files, folder)?;
    let mut text = answers_of(files.alloc(), &mut store, calls)?;
    text.push_str(" meanwhile ")?;
    text.push_str(answers_in(files, folder, other)?.as_str())?;
    Ok(text)
}

/// The answers of the calls on the store in the folder, and of more after its removal; how many
/// failed.
fn answers_around_a_removal<R: Files + AllocGlobal>(
    files: &R,
    folder: &str,
    calls: &str,
    later: &str,
) -> Result<String, NoAnswer>
where
    R::File: LockFolder,
{
    let mut store = DirStore::new(files, folder)?;
    let before = answers_of(files.alloc(), &mut store, calls);
    let cut = fs::remove_dir_all(files, folder).is_ok();
    let after = answers_of(files.alloc(), &mut store, later);
    with_faults(joined(before, cut, after), store.faults())
}

/// How many bytes the first read of the file gives, or `failed`.
fn first_read<R: Files + AllocGlobal>(files: &R, arguments: &[&str]) -> Result<String, NoAnswer> {
    let [path] = arguments else {
        return Err(NoAnswer::BadRow);
    };
    let Ok(file) = fs::open(files, *path) else {
        return Err(NoAnswer::BadRow);
    };
    let mut source = StdIn::new(file)?;
    let mut buf = [0u8; 8];
    match source.read(&mut buf) {
        Ok(count) => number_text(files.alloc(), count as u64),
        Err(Failed) => plain_text(files.alloc(), "failed"),
    }
}

/// How many bytes the first write to the file takes, or `failed`.
fn first_write<R: Files + AllocGlobal>(files: &R, arguments: &[&str]) -> Result<String, NoAnswer> {
    let [path, text] = arguments else {
        return Err(NoAnswer::BadRow);
    };
    let Ok(file) = OpenOptions::new().write(true).open(files, *path) else {
        return Err(NoAnswer::BadRow);
    };
    let mut sink = StdOut::new(file)?;
    match sink.write(text.as_bytes()) {
        Ok(count) => number_text(files.alloc(), count as u64),
        Err(Fault::Failed) => plain_text(files.alloc(), "failed"),
        Err(Fault::NoMemory) => Err(NoAnswer::NoMemory),
    }
}

/// Gives the file these permission bits, written in octal.
fn with_mode<R: Files + AllocGlobal>(files: &R, arguments: &[&str]) -> Result<String, NoAnswer> {
    let [path, mode] = arguments else {
        return Err(NoAnswer::BadRow);
    };
    let Ok(mode) = u32::from_str_radix(mode, 8) else {
        return Err(NoAnswer::BadRow);
    };
    let given = fs::set_permissions(files, *path, Permissions::from_mode(mode));
    outcome(files.alloc(), given)
}

/// The permission bits of the file, or `absent`.
fn mode_of<R: Files + AllocGlobal>(files: &R, arguments: &[&str]) -> Result<String, NoAnswer> {
    let [path] = arguments else {
        return Err(NoAnswer::BadRow);
    };
    match fs::metadata(files, *path) {
        Ok(metadata) => {
            let mode = metadata.permissions().mode() & 0o777;
            Ok(format!(in files.alloc(); "{mode:o}")?)
        }
        Err(_) => plain_text(files.alloc(), "absent"),
    }
}

fn content_of<R: Files + AllocGlobal>(files: &R, arguments: &[&str]) -> Result<String, NoAnswer> {
    let [path] = arguments else {
        return Err(NoAnswer::BadRow);
    };
    match fs::read(files, *path) {
        Ok(bytes) => bytes_text(files.alloc(), &bytes),
        Err(_) => plain_text(files.alloc(), "absent"),
    }
}

fn outcome(alloc: Global, done: io::Result<()>) -> Result<String, NoAnswer> {
    match done {
        Ok(()) => plain_text(alloc, "ok"),
        Err(_) => plain_text(alloc, "failed"),
    }
}

/// How many bytes are read at once.
const STEP: usize = 997;

/// Reads ten long blobs in turn, of which eight stay open, and prints how many reads give the bytes
/// that were put.
pub fn compare_long_reads<R: Files + Print + AllocGlobal>(rt: &R) -> io::Result<()>
where
    R::File: LockFolder,
{
    let same = long_reads(rt)?;
    println!(rt; "long blobs in a folder: {same} of 410 reads give what was put")?;
    fs::remove_dir_all(rt, "long")
}

/// How many reads give the bytes that were put.
fn long_reads<R: Files + AllocGlobal>(files: &R) -> Result<u64, NoAnswer>
where
    R::File: LockFolder,
{
    let bytes = long_bytes(files.alloc())?;
    let mut store = DirStore::new(files, "long")?;
    Ok(same_reads(&mut store, &bytes))
}

fn long_bytes(alloc: Global) -> Result<Vec<u8>, NoAnswer> {
    let mut bytes = Vec::new(alloc);
    for number in 0..40_000u32 {
        bytes.push((number % 251) as u8)?;
    }
    Ok(bytes)
}

/// How many reads give the bytes that were put.
fn same_reads<D: Store>(store: &mut D, bytes: &[u8]) -> u64 {
    for blob in 0..10u64 {
        let _ = store.put(blob, bytes);
    }
    let mut same = 0u64;
    for (step, wanted) in bytes.chunks(STEP).enumerate() {
        let at = (step as u64).saturating_mul(STEP as u64);
        for blob in 0..10u64 {
            same = same.saturating_add(u64::from(is_read(store, blob, at, wanted)));
        }
    }
    same
}

/// Whether a read from the place gives these bytes.
fn is_read<D: Store>(store: &mut D, blob: u64, at: u64, wanted: &[u8]) -> bool {
    let mut buf = [0u8; STEP];
    match store.read(blob, at, &mut buf) {
        Ok(Some(count)) => count <= STEP && &buf[..count] == wanted,
        _ => false,
    }
}
