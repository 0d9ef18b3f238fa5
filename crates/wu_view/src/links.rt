//! Links to files, kept without their paths: of a directory's path only its last name is kept, once
//! for all that is below it.
ghost use Rattle.std.specs.Prelude.{◌≡◌, ◌<◌, ◌++◌, ◌∷◌, [], length, IfOk, OnOk};
ghost use Rattle.wu_view.specs.LinkLists.{in_link_list, link_path, path_at};
ghost use Rattle.wu_view.specs.LinkLists.{paths_of_directories};

use std::alloc::Global;
use std::marker::Model;
use wu_base::{Bytes, Ino, NoMemory};

/// A directory below the root, on the paths of files.
#[derive(Drop)]
pub(crate) struct Directory {
    /// Which directory it stands in: 0 is the root, and the others count from 1 on.
    parent: usize,
    /// Its name there, and `/`.
    name: Bytes,
}

/// A place among the directories.
#[derive(Drop)]
pub(crate) struct Link {
    /// Which directory it is: 0 is the root, and the others count from 1 on.
    directory: usize,
    /// The name there.
    name: Bytes,
}

/// A link to a file.
#[derive(Drop)]
pub(crate) struct FileLink {
    pub(crate) ino: Ino,
    pub(crate) link: Link,
}

/// Links to files, in an order. The memory grows with the number of the links and of the
/// directories above them, and with the bytes of their names. Contracts see the links by the
/// numbers of the files and the paths, and the paths of the directories, each of which ends in `/`.
#[derive(Drop)]
pub(crate) struct LinkList {
    /// Directory 0 is the root; the others are these, from 1 on. Each stands in an earlier one.
    directories: Vec<Directory>,
    links: Vec<FileLink>,
}

impl Model for LinkList {
    ghost use Rattle.std.specs.Prelude.{◌≤◌, length};
    ghost use Rattle.std.specs.List.{AllByRecursion};
    ghost use Rattle.wu_view.specs.LinkLists.{LinksByPath, in_link_list};

    ghost Value = { LinksByPath };

    ghost view = { λ l. in_link_list l.directories.items l.links.items };

    ghost invariant = { λ l. AllByRecursion (λ found. found.link.directory
        ≤ length l.directories.items) l.links.items };
}

impl LinkList {
    /// No links, and the root alone. Takes no memory.
    pub(crate) fn new(alloc: Global) -> LinkList
        ensures { result ≡ in_link_list [] [] }
    {
        LinkList {
            directories: Vec::new(alloc),
            links: Vec::new(alloc),
        }
    }

    /// Adds the directory that has that name, which ends in `/`, in a directory. Gives its place
    /// among the directories.
    pub(crate) fn add_directory(&mut self, parent: usize, name: Bytes) -> Result<usize, NoMemory>
        requires { parent < length self.old.directories }
        ensures place { IfOk result (λ place. place ≡ length self.old.directories) }
        ensures links { OnOk result (self.new.links ≡ self.old.links) }
        ensures directories { OnOk result (self.new.directories
            ≡ self.old.directories ++ (path_at self.old.directories parent ++ name) ∷ []) }
    {
        self.directories.push(Directory { parent, name })?;
        Ok(self.directories.len())
    }

    /// Adds the link to a file that has that name in a directory.
    pub(crate) fn add_link(
        &mut self,
        ino: Ino,
        directory: usize,
        name: Bytes,
    ) -> Result<(), NoMemory>
        requires { directory < length self.old.directories }
        ensures links { OnOk result (self.new.links
            ≡ self.old.links ++ (ino, path_at self.old.directories directory ++ name) ∷ []) }
        ensures directories { OnOk result (self.new.directories ≡ self.old.directories) }
    {
        self.links.push(FileLink {
            ino,
            link: Link { directory, name },
        })?;
        Ok(())
    }

    /// The directories below the root, and the links. Takes no memory.
    pub(crate) fn into_parts(self) -> (Vec<Directory>, Vec<FileLink>)
        ensures { in_link_list result.0.items result.1.items ≡ self }
    {
        let LinkList { directories, links } = self;
        (directories, links)
    }
}

/// The path of a link.
pub(crate) fn link_path(
    alloc: Global,
    directories: &[Directory],
    link: &Link,
) -> Result<Bytes, NoMemory>
    ensures { IfOk result (λ path. path
        ≡ link_path (paths_of_directories directories.now) link.now) }
{
    let mut path = Vec::new(alloc);
    put_directory(&mut path, directories, link.directory)?;
    path.extend_from_slice(link.name.as_slice())?;
    Ok(Bytes::from(path))
}

/// Appends the path of a directory, which ends in `/`.
fn put_directory(
    path: &mut Vec<u8>,
    directories: &[Directory],
    directory: usize,
) -> Result<(), NoMemory>
    ensures { OnOk result (path.new.items
        ≡ path.old.items ++ path_at (paths_of_directories directories.now) directory) }
{
    if directory == 0 {
        path.push(b'/')?;
        return Ok(());
    }
    let Some(last) = directories.get(directory - 1) else {
        return Ok(());
    };
    if last.parent < directory {
        put_directory(path, directories, last.parent)?;
        path.extend_from_slice(last.name.as_slice())?;
        return Ok(());
    }
    path.extend_from_slice(last.name.as_slice())?;
    Ok(())
}
