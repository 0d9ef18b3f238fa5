//! The walk that meets the files in the order of their open paths. A path through a directory goes
//! on with `/`, so the entries of a directory are taken in the order of their names, where the name
//! of a directory ends in `/`.
ghost use Rattle.std.specs.Prelude.{◌≡◌, ◌++◌, ◌<◌, length, OnOk, IfOk, map};
ghost use Rattle.wu_view.specs.LinkLists.{Extends, path_at};
ghost use Rattle.wu_view.specs.OrderedWalks.{directory_entry, entries_in_order, file_entry};
ghost use Rattle.wu_view.specs.OrderedWalks.{open_entries, ordered, ordered_whole};

use crate::links::LinkList;
use crate::walkers::{Met, Walker};
use std::alloc::Global;
use std::collections::BTreeMap;
use wu_base::{Bytes, DEPTH_MAX, Ino, NoMemory, ROOT, sorted_once};

/// An entry of a directory that is a file that grants the user read, or a directory that grants her
/// execute.
#[derive(Debug, PartialEq, Eq, PartialOrd, Ord, Drop)]
pub(crate) struct Entry {
    /// Its name; that of a directory ends in `/`.
    name: Bytes,
    is_directory: bool,
    ino: Ino,
}

/// The links to files that grant the user read, of which each directory up to the root grants her
/// execute, in the order of their paths.
pub(crate) fn open_links_in_order(alloc: Global, walker: &Walker<'_>) -> Result<LinkList, NoMemory>
    ensures { IfOk result (λ list. list.links ≡ ordered_whole walker.now.tree walker.now.user) }
{
    let mut list = LinkList::new(alloc);
    if let Met::Passable = walker.meet(ROOT) {
        walk(alloc, walker, DEPTH_MAX, ROOT, 0, &mut list)?;
    }
    Ok(list)
}

/// Adds the links to files that are found in a directory, which has that place among the
/// directories of the list, and below it in at most `depth` directories one below the other.
fn walk(
    alloc: Global,
    walker: &Walker<'_>,
    depth: usize,
    directory: Ino,
    place: usize,
    list: &mut LinkList,
) -> Result<(), NoMemory>
    requires { place < length list.old.directories }
    ensures links { OnOk result (list.new.links
        ≡ list.old.links
        ++ ordered walker.now.tree walker.now.user depth directory (path_at list.old.directories place)) }
    ensures directories { OnOk result (Extends list.old.directories list.new.directories) }
{
    if depth == 0 {
        return Ok(());
    }
    for entry in entries_in_order(alloc, walker, directory)? {
        let Entry {
            name,
            is_directory,
            ino,
        } = entry;
        if !is_directory {
            list.add_link(ino, place, name)?;
            continue;
        }
        let below = list.add_directory(place, name)?;
        walk(alloc, walker, depth - 1, ino, below, list)?;
    }
    Ok(())
}

/// The entries of a directory that are files that grant the user read, or directories that grant
/// her execute, in the order of the paths that begin with them.
fn entries_in_order(
    alloc: Global,
    walker: &Walker<'_>,
    directory: Ino,
) -> Result<Vec<Entry>, NoMemory>
    ensures { IfOk result (λ entries.
        entries.items ≡ entries_in_order walker.now.tree walker.now.user directory) }
{
    let Some(names) = walker.entries(directory) else {
        return Ok(Vec::new(alloc));
    };
    let entries = open_entries(alloc, walker, names)?;
    Ok(sorted_once(entries))
}

/// Of the entries of a directory those that are files that grant the user read, or directories that
/// grant her execute.
fn open_entries(
    alloc: Global,
    walker: &Walker<'_>,
    names: &BTreeMap<Vec<u8>, Ino>,
) -> Result<Vec<Entry>, NoMemory>
    ensures { IfOk result (λ entries. entries.items
        ≡ open_entries walker.now.tree walker.now.user (map (λ e. (e.0.items, e.1)) names.now.entries)) }
{
    let mut entries = Vec::new(alloc);
    for (name, child) in names {
        match walker.meet(*child) {
            Met::Readable => entries.push(file_entry(alloc, name.as_slice(), *child)?)?,
            Met::Passable => entries.push(directory_entry(alloc, name.as_slice(), *child)?)?,
            Met::Closed => {}
        }
    }
    Ok(entries)
}

/// The entry of a file.
fn file_entry(alloc: Global, name: &[u8], ino: Ino) -> Result<Entry, NoMemory>
    ensures { IfOk result (λ entry. entry ≡ file_entry name.now ino) }
{
    Ok(Entry {
        name: Bytes::from_slice(alloc, name)?,
        is_directory: false,
        ino,
    })
}

/// The entry of a directory: its name ends in `/`.
fn directory_entry(alloc: Global, name: &[u8], ino: Ino) -> Result<Entry, NoMemory>
    ensures { IfOk result (λ entry. entry ≡ directory_entry name.now ino) }
{
    let mut ended = Vec::with_capacity(alloc, name.len().saturating_add(1))?;
    ended.extend_from_slice(name)?;
    ended.push(b'/')?;
    Ok(Entry {
        name: Bytes::from(ended),
        is_directory: true,
        ino,
    })
}
