//! Heights of directories, by which most renamings are checked without a walk down. A height may be more than
//! how many levels of directories lie below, and is never less: it is raised where a directory comes to lie
//! below, and falls no sooner than the directories below are looked at.
ghost use Rattle.std.specs.Prelude.{◌≡◌, ◌≤◌, [], ℕ, true, is_some};
ghost use Rattle.std.specs.Ordering.{nat_cmp};
ghost use Rattle.std.specs.List.{AllByRecursion};
ghost use Rattle.std.specs.Map.{lookup};
ghost use Rattle.std.specs.BTreeMap.{get, is_at};
ghost use Rattle.wu_tree.specs.Lists.{WasWalked};
ghost use Rattle.wu_tree.specs.Inodes.{AreHeights, IsHeld, file_system, height_at, height_over_at, higher_of, with_height, without_heights};

use crate::inodes::Inode;
use crate::links::Links;
use crate::trees::Tree;
use std::collections::BTreeMap;
use wu_base::{DEPTH_MAX, Ino, ROOT};

/// The height that is kept of a node, and 0 where there is none.
pub(crate) fn height_of(inodes: &BTreeMap<Ino, Inode>, ino: Ino) -> u8
    ensures { result ≡ height_at inodes.now.entries ino }
{
    match inodes.get(&ino) {
        Some(inode) => inode.height,
        None => 0,
    }
}

/// The least height of a directory in which that node stands.
fn height_over(inodes: &BTreeMap<Ino, Inode>, ino: Ino) -> u8
    ensures { result ≡ height_over_at inodes.now.entries ino }
{
    match inodes.get(&ino) {
        Some(inode) => inode.height_over(),
        None => 0,
    }
}

/// Makes a directory so high that a node may come to stand in it. Once round is enough unless the directory
/// lies below the node.
pub(crate) fn raise_over(inodes: &mut BTreeMap<Ino, Inode>, directory: Ino, child: Ino)
    requires there { is_some (lookup (is_at (nat_cmp directory)) inodes.old.entries) ≡ true }
    requires heights { AreHeights inodes.old.entries }
    ensures nodes { without_heights inodes.new.entries ≡ without_heights inodes.old.entries }
    ensures heights { AreHeights inodes.new.entries }
    ensures raised { height_over_at inodes.new.entries child ≤ height_at inodes.new.entries directory }
{
    while height_of(inodes, directory) < height_over(inodes, child) {
        let height = height_over(inodes, child);
        raise(inodes, directory, height);
    }
}

/// Makes a directory at least so high, and the directories above it higher, first the highest.
pub(crate) fn raise(inodes: &mut BTreeMap<Ino, Inode>, directory: Ino, height: u8)
    requires there { is_some (lookup (is_at (nat_cmp directory)) inodes.old.entries) ≡ true }
    requires heights { AreHeights inodes.old.entries }
    ensures nodes { without_heights inodes.new.entries ≡ without_heights inodes.old.entries }
    ensures heights { AreHeights inodes.new.entries }
    ensures raised { height ≤ height_at inodes.new.entries directory }
{
    let Some(inode) = inodes.get(&directory).copied() else {
        return;
    };
    if inode.height >= height {
        return;
    }
    match higher_of(directory, &inode) {
        Some(parent) => {
            raise(inodes, parent, height.saturating_add(1));
            let height = height_of(inodes, directory).max(height);
            set_height(inodes, directory, height);
        }
        None => set_height(inodes, directory, height),
    }
}

/// Lowers a directory and those below it, down to so many levels: each to what the directories in it ask, where
/// that is less than its height. Looks at each entry once, and no further where it is a file.
pub(crate) fn lower(inodes: &mut BTreeMap<Ino, Inode>, links: &Links, directory: Ino, levels: usize)
    requires held { AllByRecursion (λ e. IsHeld links.now e.0 e.1.hold) inodes.old.entries }
    requires heights { AreHeights inodes.old.entries }
    ensures nodes { without_heights inodes.new.entries ≡ without_heights inodes.old.entries }
    ensures heights { AreHeights inodes.new.entries }
    ensures lower { (ino : ℕ) → height_at inodes.new.entries ino ≤ height_at inodes.old.entries ino }
    ensures walked { WasWalked (file_system inodes.old.entries links.now [] []) inodes.old.entries inodes.new.entries levels directory }
{
    if levels == 0 {
        return;
    }
    let Some(names) = links.names(directory) else {
        set_height(inodes, directory, 0);
        return;
    };
    let mut height = 0;
    for child in names.values() {
        // A file asks for no height, and none stands below it.
        if height_over(inodes, *child) > 0 {
            lower(inodes, links, *child, levels - 1);
            height = height_over(inodes, *child).max(height);
        }
    }
    let height = height_of(inodes, directory).min(height);
    set_height(inodes, directory, height);
}

impl Tree {
    ghost use Rattle.wu_tree.specs.FileSystems.{is_directory};

    /// Lowers the heights of a directory and of those below it. Looks at each entry below it once.
    pub(crate) fn lower_heights(&mut self, directory: Ino)
        ensures { self.new ≡ self.old }
    {
        lower(&mut self.inodes, &self.links, directory, DEPTH_MAX);
    }

    /// Lowers the heights below a link that comes to stand in another directory, where they were too much to
    /// tell that no directory comes to lie too deep.
    pub(crate) fn lower_if_high(&mut self, parent: Ino, name: &[u8], new_parent: Ino)
        requires { is_directory self.old new_parent ≡ true }
        ensures { self.new ≡ self.old }
    {
        if let Some(child) = self.child(parent, name)
            && usize::from(height_of(&self.inodes, child)) + self.depth(new_parent) >= DEPTH_MAX
        {
            self.lower_heights(child);
        }
    }
}

/// The directory that is higher than a node: the parent of a directory but the root.
fn higher_of(ino: Ino, inode: &Inode) -> Option<Ino>
    ensures { result ≡ higher_of ino inode.now }
{
    if ino == ROOT {
        None
    } else {
        inode.hold.parent()
    }
}

/// Gives a node another height.
fn set_height(inodes: &mut BTreeMap<Ino, Inode>, ino: Ino, height: u8)
    ensures { inodes.new.entries ≡ with_height height (get nat_cmp inodes.old ino) ino inodes.old.entries }
{
    if let Some(inode) = inodes.get_mut(&ino) {
        inode.height = height;
    }
}
