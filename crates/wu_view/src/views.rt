//! A user's view, kept without the paths.
ghost use Rattle.std.specs.Prelude.{◌≡◌, ℕ, List, length, map, slice_get, IfOk, OnOk};
ghost use Rattle.std.specs.BTreeMap.{get};
ghost use Rattle.std.specs.Option.{option_map};
ghost use Rattle.std.specs.Ordering.{nat_cmp};
ghost use Rattle.wu_view.specs.Groups.{grouped, with_found};
ghost use Rattle.wu_view.specs.KeptViews.{kept_file, place_of, with_further};
ghost use Rattle.wu_view.specs.LinkLists.{file_at, paths_of_directories};
ghost use Rattle.wu_view.specs.Views.{least_path};

use crate::Seen;
use crate::links::{Directory, FileLink, Link, LinkList, link_path};
use std::alloc::Global;
use std::collections::BTreeMap;
use std::marker::Model;
use wu_base::{Bytes, Ino, NoMemory, Sequence};

/// A file by its links, in the order of their paths.
#[derive(Drop)]
struct File {
    ino: Ino,
    first: Link,
    /// The others. Takes no memory where there are none.
    further: Sequence<Link>,
}

/// A user's view. Contracts see its files, each with its paths, which are made when they are asked
/// for. The memory grows with the number of the links to the files and of the directories that the
/// user may pass, and with the bytes of their names.
#[derive(Drop)]
pub struct View {
    /// The directories below the root. Each stands in an earlier one.
    directories: Vec<Directory>,
    files: Vec<File>,
}

impl Model for View {
    ghost use Rattle.std.specs.Prelude.{List};
    ghost use Rattle.wu_view.specs.declared.Seen.{Seen};

    ghost Value = { List Seen };

    ghost use Rattle.wu_view.specs.KeptViews.{in_view};

    ghost view = { λ v. in_view v.directories.items v.files.items };
}

impl View {
    /// The files that the links lead to, in the order of their first links, each with its links in
    /// order. The only error is out of memory.
    pub(crate) fn of_links(alloc: Global, list: LinkList) -> Result<View, NoMemory>
        ensures { IfOk result (λ view. view ≡ grouped list.links) }
    {
        let (directories, links) = list.into_parts();
        let files = by_file(alloc, links)?;
        Ok(View { directories, files })
    }

    /// How many files there are.
    pub fn len(&self) -> usize
        ensures { result ≡ length self.now }
    {
        self.files.len()
    }

    /// The number of the file at that place, counted from 0.
    pub fn ino_at(&self, place: usize) -> Option<Ino>
        ensures { result ≡ option_map (λ seen. seen.ino) (slice_get self.now place) }
    {
        match self.files.get(place) {
            Some(file) => Some(file.ino),
            None => None,
        }
    }

    /// The least path of the file at that place, counted from 0. The only error is out of memory.
    pub fn least_path_at(&self, alloc: Global, place: usize) -> Result<Option<Bytes>, NoMemory>
        ensures { IfOk result (λ path. path ≡ option_map least_path (slice_get self.now place)) }
    {
        match self.files.get(place) {
            Some(file) => {
                let path = link_path(alloc, self.directories.as_slice(), &file.first)?;
                Ok(Some(path))
            }
            None => Ok(None),
        }
    }

    /// The file at that place, counted from 0, with its paths. The only error is out of memory.
    pub fn seen_at(&self, alloc: Global, place: usize) -> Result<Option<Seen>, NoMemory>
        ensures { IfOk result (λ seen. seen ≡ slice_get self.now place) }
    {
        match self.files.get(place) {
            Some(file) => {
                let seen = with_paths(alloc, self.directories.as_slice(), file)?;
                Ok(Some(seen))
            }
            None => Ok(None),
        }
    }

    /// All files with their paths. The only error is out of memory.
    pub fn to_seen(&self, alloc: Global) -> Result<Vec<Seen>, NoMemory>
        ensures { IfOk result (λ seen. seen.items ≡ self.now) }
    {
        let all = all_with_paths(alloc, self.directories.as_slice(), self.files.as_slice())?;
        Ok(all)
    }
}

/// The file with its paths.
fn with_paths(alloc: Global, directories: &[Directory], file: &File) -> Result<Seen, NoMemory>
    ensures { IfOk result (λ seen. seen
        ≡ kept_file (paths_of_directories directories.now) file.now) }
{
    let mut paths = Vec::new(alloc);
    paths.push(link_path(alloc, directories, &file.first)?)?;
    let further = file.further.as_slice();
    for link in further {
        paths.push(link_path(alloc, directories, link)?)?;
    }
    Ok(Seen {
        paths: Sequence::from(paths),
        ino: file.ino,
    })
}

/// The files with their paths.
fn all_with_paths(
    alloc: Global,
    directories: &[Directory],
    files: &[File],
) -> Result<Vec<Seen>, NoMemory>
    ensures { IfOk result (λ all. all.items
        ≡ map (kept_file (paths_of_directories directories.now)) files.now) }
{
    let mut all = Vec::new(alloc);
    for file in files {
        all.push(with_paths(alloc, directories, file)?)?;
    }
    Ok(all)
}

/// The files that the links lead to, in the order of their first links, each with its links in
/// order.
fn by_file(alloc: Global, links: Vec<FileLink>) -> Result<Vec<File>, NoMemory>
    ensures { IfOk result (λ files. (paths : List (List ℕ))
        → map (kept_file paths) files.items ≡ grouped (map (file_at paths) links.items)) }
{
    let mut places = BTreeMap::new(alloc);
    let mut files = Vec::new(alloc);
    for found in links {
        add_link(alloc, &mut places, &mut files, found)?;
    }
    Ok(files)
}

/// Puts the link behind those of its file, or its file behind the others. The map has the place of
/// each file by its number.
fn add_link(
    alloc: Global,
    places: &mut BTreeMap<Ino, usize>,
    files: &mut Vec<File>,
    found: FileLink,
) -> Result<(), NoMemory>
    requires { (q : ℕ) → get nat_cmp places.old q ≡ place_of q files.old.items }
    ensures places { OnOk result ((q : ℕ)
        → get nat_cmp places.new q ≡ place_of q files.new.items) }
    ensures files { OnOk result ((paths : List (List ℕ)) → map (kept_file paths) files.new.items
        ≡ with_found (map (kept_file paths) files.old.items) (file_at paths found)) }
{
    let FileLink { ino, link } = found;
    match places.get(&ino) {
        Some(place) => add_further(files, *place, link),
        None => {
            places.insert(ino, files.len())?;
            files.push(File {
                ino,
                first: link,
                further: Sequence::new(alloc),
            })?;
            Ok(())
        }
    }
}

/// Puts the link behind those of the file at that place.
fn add_further(files: &mut Vec<File>, place: usize, link: Link) -> Result<(), NoMemory>
    ensures { OnOk result (files.new.items ≡ with_further files.old.items place link) }
{
    match files.get_mut(place) {
        Some(file) => file.further.push(link),
        None => Ok(()),
    }
}
