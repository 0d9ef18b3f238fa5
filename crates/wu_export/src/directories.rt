//! The directories on the paths of a view.
ghost use Rattle.std.specs.Prelude.{◌≡◌, [], ◌∷◌, ◌++◌, ◌≤◌, ◌<◌, ◌-◌, ◌^◌, List, ℕ, drop, length, count_by, IfOk, OnOk};
ghost use Rattle.std.specs.List.{flat_map, range_with_len};
ghost use Rattle.std.specs.List.Sorted.{IsStrictlySortedBy};
ghost use Rattle.wu_view.specs.Views.{path_cmp};
ghost use Rattle.wu_export.specs.Exports.{before_slashes, comes_before, directories_on, first_file};
ghost use Rattle.wu_export.specs.Exports.{number_of};
ghost use Rattle.wu_export.specs.Exporting.{directories_through};
ghost use Rattle.wu_export.specs.Finding.{HaveTheSame};

use crate::paths::{Path, shared_length};
use std::alloc::Global;
use std::marker::Model;
use wu_base::{NoMemory, sorted_once};

/// The directories on the paths of a view, the root first. Contracts see the list of their paths, which
/// ascends without repeats.
#[derive(Drop)]
pub(crate) struct Directories<'a> {
    paths: Vec<Path<'a>>,
}

impl<'a> Model for Directories<'a> {
    ghost use Rattle.std.specs.Prelude.{List, ℕ};
    ghost use Rattle.std.specs.List.Sorted.{IsStrictlySortedBy};
    ghost use Rattle.wu_view.specs.Views.{path_cmp};

    ghost Value = { List (List ℕ) };

    ghost view = { λ d. d.paths.items };

    ghost invariant = { λ d. IsStrictlySortedBy path_cmp d.paths.items };
}

impl<'a> Directories<'a> {
    /// The directories on these paths of files.
    pub(crate) fn on(alloc: Global, all: Vec<Path<'a>>) -> Result<Directories<'a>, NoMemory>
        ensures { IfOk result (λ directories. directories ≡ directories_through all.entry.items) }
    {
        let files = sorted_once(all);
        let found = directories_on(alloc, &files)?;
        let paths = sorted_once(found);
        Ok(Directories { paths })
    }

    /// Their paths, without the root's.
    pub(crate) fn below_root(&self) -> &[Path<'a>]
        ensures { result.now ≡ drop 1 self.now }
    {
        match self.paths.as_slice() {
            [_, others @ ..] => others,
            [] => &[],
        }
    }

    /// The number of the directory of that path.
    pub(crate) fn number_of(&self, path: &[u8]) -> u64
        ensures value { result ≡ number_of self.now path.now }
        ensures small { result < 2 ^ 64 }
    {
        let before = count_before(self.paths.as_slice(), path);
        1 + before as u64
    }

    /// The number of the first file.
    pub(crate) fn first_file(&self) -> u64
        ensures value { result ≡ first_file self.now }
        ensures small { result ≤ 2 ^ 63 }
    {
        1 + self.paths.len() as u64
    }
}

/// How many of the paths come before that one.
fn count_before(paths: &[Path], path: &[u8]) -> usize
    requires { IsStrictlySortedBy path_cmp paths.now }
    ensures count { result ≡ count_by (comes_before path.now) paths.now }
    ensures within { result ≤ length paths.now }
{
    paths.partition_point(|directory| directory.comes_before(path))
}

/// The directories on these paths, each once where the paths ascend: those that go through a directory
/// then stand together.
fn directories_on<'a>(alloc: Global, files: &[Path<'a>]) -> Result<Vec<Path<'a>>, NoMemory>
    ensures { IfOk result (λ found. HaveTheSame found.items (flat_map directories_on files.now)) }
{
    let mut found = Vec::new(alloc);
    let mut before: &[u8] = &[];
    for file in files {
        let path = file.bytes();
        add_from(&mut found, path, shared_length(before, path))?;
        before = path;
    }
    Ok(found)
}

/// Appends what stands before each `/` of the path, from that place on.
fn add_from<'a>(found: &mut Vec<Path<'a>>, path: &'a [u8], start: usize) -> Result<(), NoMemory>
    requires { start ≤ length path.now }
    ensures { OnOk result (found.new.items ≡ found.old.items ++ before_slashes (range_with_len start (length path.now - start)) path.now) }
{
    for place in start..path.len() {
        add_at(found, path, place)?;
    }
    Ok(())
}

/// Appends what stands before that place of the path, where a `/` stands there.
fn add_at<'a>(found: &mut Vec<Path<'a>>, path: &'a [u8], place: usize) -> Result<(), NoMemory>
    requires { place < length path.now }
    ensures { OnOk result (found.new.items ≡ found.old.items ++ before_slashes (place ∷ []) path.now) }
{
    if path[place] == b'/' {
        found.push(Path::new(&path[..place]))?;
    }
    Ok(())
}
