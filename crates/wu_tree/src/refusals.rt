//! Why an event is refused: the first rule of its list that applies.
ghost use Rattle.std.specs.Prelude.{◌≡◌, true, IfNone, Some, [], ◌∷◌, nat_le};
ghost use Rattle.wu_tree.specs.Steps.{is_link_to as link_test};
ghost use Rattle.wu_tree.specs.declared.events.Refusal.TheVariants.{Kind as OfWrongKind};
ghost use Rattle.wu_base.specs.declared.limits.TheConstants.{DEPTH_MAX as Deepest};

use crate::events::{Event, Kind, Refusal};
use crate::names::is_name;
use crate::trees::Tree;
use wu_base::{DEPTH_MAX, Ino};

impl Tree {
    ghost use Rattle.wu_tree.specs.FileSystems.{depth as depth_of, is_directory, is_file, is_name as name_test, is_there, is_used};
    ghost use Rattle.wu_tree.specs.Steps.{absent_rules, create_rules, first_of, is_full, is_of_other_kind, link_rules, mkdir_rules, move_rules, place_rules, refusal_of, rename_rules, rmdir_rules, text_rules, unlink_rules};

    /// Why an event is refused, or None where it is accepted.
    pub(crate) fn refusal(&self, event: &Event) -> Option<Refusal>
        ensures { result ≡ refusal_of self.now event.now }
    {
        match event {
            Event::User { .. } => None,
            Event::Mkdir {
                ino,
                parent,
                name,
                ..
            } => self.refuse_mkdir(*ino, *parent, name.as_slice()),
            Event::Create {
                ino,
                parent,
                name,
                ..
            } => self.refuse_create(*ino, *parent, name.as_slice()),
            Event::Text { ino } => self.refuse_text(*ino),
            Event::Link { ino, parent, name } => self.refuse_link(*ino, *parent, name.as_slice()),
            Event::Unlink { parent, name } => self.refuse_unlink(*parent, name.as_slice()),
            Event::Rmdir { parent, name } => self.refuse_rmdir(*parent, name.as_slice()),
            Event::Rename {
                parent,
                name,
                new_parent,
                new_name,
            } => self.refuse_rename(*parent, name.as_slice(), *new_parent, new_name.as_slice()),
            Event::Chmod { ino, .. } | Event::Chown { ino, .. } | Event::Acl { ino, .. } => {
                self.refuse_absent(*ino)
            }
        }
    }

    /// Of a name in a directory.
    fn refuse_place(&self, parent: Ino, name: &[u8]) -> Option<Refusal>
        ensures rules { result ≡ first_of (place_rules self.now parent name.now) }
        ensures name { IfNone result (name_test name.now ≡ true) }
        ensures directory { IfNone result (is_directory self.now parent ≡ true) }
    {
        if !is_name(name) {
            return Some(Refusal::BadName);
        }
        match self.node(parent) {
            Some(node) => match node.kind {
                Kind::Directory => None,
                Kind::File => Some(Refusal::Kind),
            },
            None => Some(Refusal::NoSuch),
        }
    }

    fn is_there(&self, ino: Ino) -> bool
        ensures { result ≡ is_there self.now ino }
    {
        self.node(ino).is_some()
    }

    pub(crate) fn is_file(&self, ino: Ino) -> bool
        ensures { result ≡ is_file self.now ino }
    {
        match self.node(ino) {
            Some(node) => matches!(node.kind, Kind::File),
            None => false,
        }
    }

    pub(crate) fn is_directory(&self, ino: Ino) -> bool
        ensures { result ≡ is_directory self.now ino }
    {
        match self.node(ino) {
            Some(node) => matches!(node.kind, Kind::Directory),
            None => false,
        }
    }

    fn is_used(&self, directory: Ino, name: &[u8]) -> bool
        ensures { result ≡ is_used self.now directory name.now }
    {
        self.child(directory, name).is_some()
    }

    /// Whether a directory lies so deep that none may stand in it.
    fn is_deepest(&self, directory: Ino) -> bool
        requires { is_directory self.now directory ≡ true }
        ensures { result ≡ nat_le Deepest (depth_of self.now.links directory) }
    {
        self.depth(directory) >= DEPTH_MAX
    }

    /// Of a node that has to be a file.
    fn refuse_directory(&self, ino: Ino) -> Option<Refusal>
        ensures { result ≡ first_of ((is_directory self.now ino, OfWrongKind) ∷ []) }
    {
        if self.is_directory(ino) {
            Some(Refusal::Kind)
        } else {
            None
        }
    }

    fn refuse_mkdir(&self, ino: Ino, parent: Ino, name: &[u8]) -> Option<Refusal>
        ensures { result ≡ first_of (mkdir_rules self.now ino parent name.now) }
    {
        if let Some(refusal) = self.refuse_place(parent, name) {
            return Some(refusal);
        }
        if self.is_there(ino) || self.is_used(parent, name) {
            Some(Refusal::Exists)
        } else if self.is_deepest(parent) {
            Some(Refusal::Deep)
        } else {
            None
        }
    }

    fn refuse_create(&self, ino: Ino, parent: Ino, name: &[u8]) -> Option<Refusal>
        ensures { result ≡ first_of (create_rules self.now ino parent name.now) }
    {
        if let Some(refusal) = self.refuse_place(parent, name) {
            return Some(refusal);
        }
        if self.is_there(ino) || self.is_used(parent, name) {
            Some(Refusal::Exists)
        } else {
            None
        }
    }

    fn refuse_text(&self, ino: Ino) -> Option<Refusal>
        ensures { result ≡ first_of (text_rules self.now ino) }
    {
        if self.is_there(ino) {
            self.refuse_directory(ino)
        } else {
            Some(Refusal::NoSuch)
        }
    }

    fn refuse_link(&self, ino: Ino, parent: Ino, name: &[u8]) -> Option<Refusal>
        ensures { result ≡ first_of (link_rules self.now ino parent name.now) }
    {
        if !is_name(name) {
            Some(Refusal::BadName)
        } else if !self.is_there(ino) || !self.is_there(parent) {
            Some(Refusal::NoSuch)
        } else if self.is_directory(ino) || self.is_file(parent) {
            Some(Refusal::Kind)
        } else if self.is_used(parent, name) {
            Some(Refusal::Exists)
        } else {
            None
        }
    }

    fn refuse_unlink(&self, parent: Ino, name: &[u8]) -> Option<Refusal>
        ensures { result ≡ first_of (unlink_rules self.now parent name.now) }
    {
        if let Some(refusal) = self.refuse_place(parent, name) {
            return Some(refusal);
        }
        match self.child(parent, name) {
            Some(child) => self.refuse_directory(child),
            None => Some(Refusal::NoSuch),
        }
    }

    fn refuse_rmdir(&self, parent: Ino, name: &[u8]) -> Option<Refusal>
        ensures { result ≡ first_of (rmdir_rules self.now parent name.now) }
    {
        if let Some(refusal) = self.refuse_place(parent, name) {
            return Some(refusal);
        }
        match self.child(parent, name) {
            Some(child) => {
                if self.is_file(child) {
                    Some(Refusal::Kind)
                } else if self.has_entries(child) {
                    Some(Refusal::NotEmpty)
                } else {
                    None
                }
            }
            None => Some(Refusal::NoSuch),
        }
    }

    fn refuse_absent(&self, ino: Ino) -> Option<Refusal>
        ensures { result ≡ first_of (absent_rules self.now ino) }
    {
        if self.is_there(ino) {
            None
        } else {
            Some(Refusal::NoSuch)
        }
    }

    fn refuse_rename(
        &self,
        parent: Ino,
        name: &[u8],
        new_parent: Ino,
        new_name: &[u8],
    ) -> Option<Refusal>
        ensures { result ≡ first_of (rename_rules self.now parent name.now new_parent new_name.now) }
    {
        if !is_name(name) || !is_name(new_name) {
            return Some(Refusal::BadName);
        }
        if !self.is_there(parent) || !self.is_there(new_parent) {
            return Some(Refusal::NoSuch);
        }
        if self.is_file(parent) || self.is_file(new_parent) {
            return Some(Refusal::Kind);
        }
        match self.child(parent, name) {
            Some(child) => {
                let target = self.child(new_parent, new_name);
                if is_link_to(child, target) {
                    None
                } else {
                    self.refuse_move(child, new_parent, target)
                }
            }
            None => Some(Refusal::NoSuch),
        }
    }

    /// Of a node that is to get a name in a directory, where `target` is what the name named so far.
    fn refuse_move(&self, child: Ino, parent: Ino, target: Option<Ino>) -> Option<Refusal>
        requires { is_directory self.now parent ≡ true }
        ensures { result ≡ first_of (move_rules self.now child parent target) }
    {
        let is_directory = self.is_directory(child);
        if is_directory && self.is_within(child, parent) {
            Some(Refusal::Loop)
        } else if self.is_of_other_kind(child, target) {
            Some(Refusal::Kind)
        } else if self.is_full(target) {
            Some(Refusal::NotEmpty)
        } else if is_directory && self.is_too_deep(child, parent) {
            Some(Refusal::Deep)
        } else {
            None
        }
    }

    fn is_of_other_kind(&self, child: Ino, target: Option<Ino>) -> bool
        ensures { result ≡ is_of_other_kind self.now child target }
    {
        match target {
            Some(target) => {
                self.is_directory(child) && self.is_file(target)
                    || self.is_file(child) && self.is_directory(target)
            }
            None => false,
        }
    }

    fn is_full(&self, target: Option<Ino>) -> bool
        ensures { result ≡ is_full self.now target }
    {
        match target {
            Some(target) => self.is_directory(target) && self.has_entries(target),
            None => false,
        }
    }
}

/// Whether what stands at a place, if anything does, is a link to that node.
pub(crate) fn is_link_to(child: Ino, target: Option<Ino>) -> bool
    ensures { result ≡ link_test child target }
{
    match target {
        Some(target) => target == child,
        None => false,
    }
}
