//! The commands of the script.
ghost use Rattle.std.specs.Prelude.{◌≡◌, ◌++◌, ◌∷◌, [], ◌<◌, ◌^◌, ◌+◌, length, drop, map, decimal, OnOk};
ghost use Rattle.wu_export.specs.Exports.{commands_of, directory_entry, file_entries, file_entry, last_name, link_entry, number_of, parent_path, path_entries, text_entries, text_line};
ghost use Rattle.wu_export.specs.Exports.{command_of};
ghost use Rattle.wu_export.specs.Finding.{placed};

use crate::directories::Directories;
use crate::paths::{Path, cut};
use wu_base::{Bytes, NoMemory};
use wu_fields::{put_decimal, put_field};

/// Appends the commands that make the directories.
pub(crate) fn put_directories(out: &mut Vec<u8>, directories: &Directories) -> Result<(), NoMemory>
    ensures { OnOk result (out.new.items ≡ out.old.items ++ commands_of (map (directory_entry directories.now) (drop 1 directories.now))) }
{
    for path in directories.below_root() {
        put_directory(out, directories, path.bytes())?;
    }
    Ok(())
}

/// Appends the command that makes the directory of that path.
fn put_directory(out: &mut Vec<u8>, directories: &Directories, path: &[u8]) -> Result<(), NoMemory>
    ensures { OnOk result (out.new.items ≡ out.old.items ++ command_of (directory_entry directories.now path.now)) }
{
    put_place(
        out,
        b"mkdir",
        directories.number_of(path),
        directories,
        path,
    )?;
    out.extend_from_slice(b"\t0\t0\t755\n")?;
    Ok(())
}

/// Appends the commands that make the file of that number, which has these paths and that text.
pub(crate) fn put_shown(
    out: &mut Vec<u8>,
    directories: &Directories,
    number: u64,
    paths: &[Bytes],
    text: &[u8],
) -> Result<(), NoMemory>
    ensures { OnOk result (out.new.items ≡ out.old.items ++ commands_of (file_entries directories.now number
        (record { paths = paths.now; text = text.now }))) }
{
    put_paths(out, directories, number, paths)?;
    put_text(out, number, text)
}

/// Appends the commands that make a file at its least path, and link it at the others.
fn put_paths(
    out: &mut Vec<u8>,
    directories: &Directories,
    number: u64,
    paths: &[Bytes],
) -> Result<(), NoMemory>
    ensures { OnOk result (out.new.items ≡ out.old.items ++ commands_of (path_entries directories.now number paths.now)) }
{
    let [least, ..] = paths else {
        return Ok(());
    };
    put_file(out, directories, number, least.as_slice())?;
    put_links(out, directories, number, others(paths))?;
    Ok(())
}

/// The paths but the first.
fn others(paths: &[Bytes]) -> &[Bytes]
    ensures { result.now ≡ drop 1 paths.now }
{
    match paths {
        [_, others @ ..] => others,
        [] => &[],
    }
}

/// Appends the command that makes a file at that path.
fn put_file(
    out: &mut Vec<u8>,
    directories: &Directories,
    number: u64,
    path: &[u8],
) -> Result<(), NoMemory>
    ensures { OnOk result (out.new.items ≡ out.old.items ++ command_of (file_entry directories.now number path.now)) }
{
    put_place(out, b"create", number, directories, path)?;
    out.extend_from_slice(b"\t0\t0\t644\n")?;
    Ok(())
}

/// Appends the commands that link a file at these paths.
fn put_links(
    out: &mut Vec<u8>,
    directories: &Directories,
    number: u64,
    paths: &[Bytes],
) -> Result<(), NoMemory>
    ensures { OnOk result (out.new.items ≡ out.old.items ++ commands_of (map (link_entry directories.now number) paths.now)) }
{
    for path in paths {
        put_link(out, directories, number, path.as_slice())?;
    }
    Ok(())
}

/// Appends the command that links a file at that path.
fn put_link(
    out: &mut Vec<u8>,
    directories: &Directories,
    number: u64,
    path: &[u8],
) -> Result<(), NoMemory>
    ensures { OnOk result (out.new.items ≡ out.old.items ++ command_of (link_entry directories.now number path.now)) }
{
    put_place(out, b"link", number, directories, path)?;
    out.push(b'\n')?;
    Ok(())
}

/// Appends a command's word, a node's number, and the number of the directory of its path and its name there.
fn put_place(
    out: &mut Vec<u8>,
    word: &[u8],
    number: u64,
    directories: &Directories,
    path: &[u8],
) -> Result<(), NoMemory>
    ensures bytes { OnOk result (out.new.items ≡ out.old.items
        ++ placed word.now number (number_of directories.now (parent_path path.now)) (last_name path.now)) }
    ensures small { OnOk result (number_of directories.now (parent_path path.now) < 2 ^ 64) }
{
    let (parent, name) = cut(path);
    out.extend_from_slice(word)?;
    put_number(out, number)?;
    put_number(out, directories.number_of(parent))?;
    out.push(b'\t')?;
    put_field(out, name)
}

/// Appends the command that gives a file its text, where it isn't empty.
fn put_text(out: &mut Vec<u8>, number: u64, text: &[u8]) -> Result<(), NoMemory>
    ensures { OnOk result (out.new.items ≡ out.old.items ++ commands_of (text_entries number text.now)) }
{
    if text.is_empty() {
        return Ok(());
    }
    put_text_line(out, number, text.len() as u64)?;
    out.extend_from_slice(text)?;
    out.push(b'\n')?;
    Ok(())
}

/// Appends the line before a text of so many bytes.
fn put_text_line(out: &mut Vec<u8>, number: u64, size: u64) -> Result<(), NoMemory>
    ensures { OnOk result (out.new.items ≡ out.old.items ++ text_line number size) }
{
    put_word(out, b"text", number, size)?;
    out.push(b'\n')?;
    Ok(())
}

/// Appends a word and two numbers, with a TAB between each two.
fn put_word(out: &mut Vec<u8>, word: &[u8], first: u64, second: u64) -> Result<(), NoMemory>
    ensures { OnOk result (out.new.items ≡ out.old.items ++ (word.now ++ 9 ∷ (decimal first ++ 9 ∷ decimal second))) }
{
    out.extend_from_slice(word)?;
    put_number(out, first)?;
    put_number(out, second)
}

/// Appends a TAB and the number.
fn put_number(out: &mut Vec<u8>, number: u64) -> Result<(), NoMemory>
    ensures { OnOk result (out.new.items ≡ out.old.items ++ (9 ∷ decimal number)) }
{
    out.push(b'\t')?;
    put_decimal(out, number)
}

/// Room for a command beside a name or a text: enough for numbers of 32 bits, as those of nodes are.
pub(crate) const COMMAND_MAX: usize = 48;

/// How many bytes the commands of these paths may have, where each byte of a name may be escaped. It is a
/// wish for memory alone, and no promise.
pub(crate) fn room_for(paths: &[Path]) -> usize {
    let mut room = 0usize;
    for path in paths {
        let (_, name) = cut(path.bytes());
        room = room
            .saturating_add(name.len().saturating_mul(2))
            .saturating_add(COMMAND_MAX);
    }
    room
}
