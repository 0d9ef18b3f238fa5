//! How directories lie to each other. A step up goes from a directory to the one in which it stands, and
//! costs a look-up by number; at most 254 lead to the root.
ghost use Rattle.std.specs.Prelude.{◌≡◌, ◌+◌, ◌≤◌, true, cond, Some, None};

use crate::heights::height_of;
use crate::trees::Tree;
use wu_base::{DEPTH_MAX, Ino, ROOT};

impl Tree {
    ghost use Rattle.wu_tree.specs.FileSystems.{is_directory, is_within, path_up};
    ghost use Rattle.wu_tree.specs.Paths.{through, steps_to, reaches};
    ghost use Rattle.wu_tree.specs.Steps.{is_too_deep};

    /// Whether `directory` is `other` or lies below it. Goes up from `directory`.
    pub(crate) fn is_within(&self, other: Ino, directory: Ino) -> bool
        requires { is_directory self.now directory ≡ true }
        ensures { result ≡ is_within self.now.links other directory }
    {
        self.steps_up(directory, other).is_some()
    }

    /// Whether some directory at or below `child` would lie deeper than 255, were `child` an entry of
    /// `parent`. Goes up from both; the kept height of `child` tells it, or that `child` comes to lie no deeper
    /// than before. Where neither does, the entries below `child` are looked at, each at most once.
    pub(crate) fn is_too_deep(&self, child: Ino, parent: Ino) -> bool
        requires child { is_directory self.now child ≡ true }
        requires parent { is_directory self.now parent ≡ true }
        ensures { result ≡ is_too_deep self.now child parent }
    {
        self.keeps_the_rules();
        let depth = self.depth(parent);
        if depth < self.depth(child) {
            return false;
        }
        self.reaches(child, DEPTH_MAX - depth)
    }

    /// Whether some directory lies exactly `levels` steps below `directory`, which lies 0 steps below itself.
    /// Looks at each entry below `directory` at most once, and at none in a directory whose height is less.
    fn reaches(&self, directory: Ino, levels: usize) -> bool
        requires directory { is_directory self.now directory ≡ true }
        requires levels { levels ≤ DEPTH_MAX }
        ensures { result ≡ reaches self.now levels directory }
    {
        if levels == 0 {
            return true;
        }
        if usize::from(height_of(&self.inodes, directory)) < levels {
            return false;
        }
        let Some(names) = self.entries(directory) else {
            return false;
        };
        for child in names.values() {
            if self.is_directory(*child) && self.reaches(*child, levels - 1) {
                return true;
            }
        }
        false
    }

    /// How many steps up lead from one directory to another, or None where the other isn't met up to the root.
    fn steps_up(&self, from: Ino, to: Ino) -> Option<usize>
        requires { is_directory self.now from ≡ true }
        ensures { result ≡ cond (through to (path_up self.now.links from)) (Some (steps_to to (path_up self.now.links from))) None }
    {
        self.keeps_the_rules();
        let mut steps = 0;
        let mut current = from;
        while current != to {
            if current == ROOT {
                return None;
            }
            match self.parent(current) {
                Some(parent) => current = parent,
                None => return None,
            }
            steps += 1;
        }
        Some(steps)
    }
}
