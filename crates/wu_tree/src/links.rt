//! The links of a tree: in each directory the names and what they name.
ghost use Rattle.std.specs.Prelude.{◌≡◌, [], true, false, map, IfOk, MatchOption, OnOk, OnErr};
ghost use Rattle.std.specs.Ordering.{nat_cmp};
ghost use Rattle.std.specs.Cmp.Lexicographic.{slice_cmp};
ghost use Rattle.std.specs.List.Sorted.{IsStrictlySortedBy};
ghost use Rattle.std.specs.Map.{keys_of, lookup, remove_entry};
ghost use Rattle.std.specs.BTreeMap.{is_at, insert_entry};
ghost use Rattle.wu_tree.specs.FileSystems.{entries_of, place_cmp, has_entries};
ghost use Rattle.wu_tree.specs.Lists.{IsFirstRun, link_of, named_child};

use crate::events::LinkRec;
use std::alloc::Global;
use std::collections::BTreeMap;
use std::marker::Model;
use wu_base::{Ino, NoMemory};

/// Links by directory and name. A directory without entries has no map here.
#[derive(Drop)]
pub(crate) struct Links {
    directories: BTreeMap<Ino, BTreeMap<Vec<u8>, Ino>>,
}

impl Model for Links {
    ghost use Rattle.std.specs.Prelude.{List};
    ghost use Rattle.std.specs.Ordering.{nat_cmp};
    ghost use Rattle.std.specs.BTreeMap.{IsOrdered};
    ghost use Rattle.wu_tree.specs.FileSystems.{Link};
    ghost use Rattle.wu_tree.specs.Nested.{links_in};

    ghost Value = { List Link };

    ghost view = { λ s. links_in (λ k. k.items) s.directories.entries };

    ghost invariant = { λ s. IsOrdered nat_cmp s.directories };
}

impl Links {
    /// No links. Takes no memory.
    pub(crate) fn new(alloc: Global) -> Links
        ensures { result ≡ [] }
    {
        Links {
            directories: BTreeMap::new(alloc),
        }
    }

    /// These links, which ascend by directory and then by name, with copies of the names.
    pub(crate) fn from_sorted(alloc: Global, links: &[LinkRec]) -> Result<Links, NoMemory>
        requires { IsStrictlySortedBy place_cmp (keys_of (map link_of links.now)) }
        ensures { IfOk result (λ kept. kept ≡ map link_of links.now) }
    {
        let mut directories = Vec::new(alloc);
        let mut rest = links;
        while let Some((directory, here, others)) = first_directory(rest) {
            directories.push((directory, names_of(alloc, here)?))?;
            rest = others;
        }
        let directories = directories.into_iter().collect(alloc)?;
        Ok(Links { directories })
    }

    /// What the name in the directory names. Takes no memory.
    pub(crate) fn child(&self, directory: Ino, name: &[u8]) -> Option<Ino>
        ensures { result ≡ lookup (is_at (place_cmp (directory, name.now))) self.now }
    {
        self.directories.get(&directory)?.get(name).copied()
    }

    /// The names in a directory and what they name, or None where it has no entries. Takes no memory.
    pub(crate) fn names(&self, directory: Ino) -> Option<&BTreeMap<Vec<u8>, Ino>>
        ensures { MatchOption result (entries_of self.now directory ≡ []) (λ names. map (λ e. (e.0.items, e.1)) names.now.entries ≡ entries_of self.now directory) }
    {
        match self.directories.get(&directory) {
            Some(names) => Some(names),
            None => None,
        }
    }

    /// Whether the directory has entries. Takes no memory.
    pub(crate) fn has_entries(&self, directory: Ino) -> bool
        ensures { result ≡ has_entries self.now directory }
    {
        match self.directories.get(&directory) {
            Some(names) => !names.is_empty(),
            None => false,
        }
    }

    /// Puts a link to its place, with a copy of the name, instead of the one that may stand there. Out of
    /// memory, the links are as they were.
    pub(crate) fn insert(
        &mut self,
        alloc: Global,
        parent: Ino,
        name: &[u8],
        child: Ino,
    ) -> Result<(), NoMemory>
        ensures ok { OnOk result (self.new ≡ insert_entry place_cmp self.old (parent, name.now) child) }
        ensures err { OnErr result (self.new ≡ self.old) }
    {
        let name = Vec::from_slice(alloc, name)?;
        if self.has_entries(parent) {
            self.insert_into(parent, name, child)
        } else {
            self.insert_first(alloc, parent, name, child)
        }
    }

    /// Puts a link into a directory that has entries.
    fn insert_into(&mut self, parent: Ino, name: Vec<u8>, child: Ino) -> Result<(), NoMemory>
        requires { has_entries self.old parent ≡ true }
        ensures ok { OnOk result (self.new ≡ insert_entry place_cmp self.old (parent, name.items) child) }
        ensures err { OnErr result (self.new ≡ self.old) }
    {
        if let Some(names) = self.directories.get_mut(&parent) {
            names.insert(name, child)?;
        }
        Ok(())
    }

    /// Puts a link into a directory that has no entries.
    fn insert_first(
        &mut self,
        alloc: Global,
        parent: Ino,
        name: Vec<u8>,
        child: Ino,
    ) -> Result<(), NoMemory>
        requires { has_entries self.old parent ≡ false }
        ensures ok { OnOk result (self.new ≡ insert_entry place_cmp self.old (parent, name.items) child) }
        ensures err { OnErr result (self.new ≡ self.old) }
    {
        let mut names = BTreeMap::new(alloc);
        names.insert(name, child)?;
        self.directories.insert(parent, names)?;
        Ok(())
    }

    /// Takes the link at a place out, where there is one. Takes no memory.
    pub(crate) fn remove(&mut self, parent: Ino, name: &[u8])
        ensures { self.new ≡ remove_entry (is_at (place_cmp (parent, name.now))) self.old }
    {
        self.remove_from(parent, name);
        self.drop_if_empty(parent);
    }

    /// Takes a name out of its directory.
    fn remove_from(&mut self, parent: Ino, name: &[u8])
        ensures { self.new ≡ remove_entry (is_at (place_cmp (parent, name.now))) self.old }
    {
        if let Some(names) = self.directories.get_mut(&parent) {
            names.remove(name);
        }
    }

    /// Gives back the memory of a directory without entries.
    fn drop_if_empty(&mut self, directory: Ino)
        ensures { self.new ≡ self.old }
    {
        if !self.has_entries(directory) {
            self.directories.remove(&directory);
        }
    }
}

/// The directory of the first link, the links in it, and the others.
fn first_directory(links: &[LinkRec]) -> Option<(Ino, &[LinkRec], &[LinkRec])>
    requires { IsStrictlySortedBy place_cmp (keys_of (map link_of links.now)) }
    ensures { MatchOption result (links.now ≡ []) (λ it. IsFirstRun links.now it.0 it.1.now it.2.now) }
{
    let directory = links.first()?.parent;
    let (here, others) = links.split_at(links.partition_point(|link| link.parent <= directory));
    Some((directory, here, others))
}

/// Copies of the links' names, which ascend, with what they name.
fn names_of(alloc: Global, links: &[LinkRec]) -> Result<BTreeMap<Vec<u8>, Ino>, NoMemory>
    requires { IsStrictlySortedBy (slice_cmp nat_cmp) (map (λ l. l.name) links.now) }
    ensures { IfOk result (λ names. map (λ e. (e.0.items, e.1)) names.entries ≡ map named_child links.now) }
{
    let mut names = Vec::with_capacity(alloc, links.len())?;
    for link in links {
        names.push((Vec::from_slice(alloc, link.name.as_slice())?, link.child))?;
    }
    let names = names.into_iter().collect(alloc)?;
    Ok(names)
}
