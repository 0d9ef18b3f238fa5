//! The steps of a tree: each event is accepted whole or refused.
ghost use Rattle.std.specs.Prelude.{◌≡◌, ◌≤◌, ◌+◌, ◌-◌, None, Some, true, IfOk, IfSome, OnOk, OnErr, option_copied};
ghost use Rattle.wu_access.specs.Access.{IsAcl};
ghost use Rattle.wu_tree.specs.Effects.{EffectsTellFiles};

use crate::events::{Effect, Event, Kind, Node, Refusal};
use crate::trees::Tree;
use wu_access::{Acl, Perm};
use wu_base::{Gid, Ino, NoMemory, Uid};

/// Of an event that makes no file, drops none and gives none a text.
const NO_EFFECT: Effect = Effect {
    made: None,
    dropped: None,
    texted: None,
};

impl Tree {
    ghost use Rattle.wu_tree.specs.FileSystems.{is_there, node_of};
    ghost use Rattle.wu_tree.specs.Steps.{IsEvent, IsStep, absent_rules, create_rules, dropped_at, effect_of, first_of, link_rules, mkdir_rules, next, refusal_of, rename_effect, rename_rules, renamed, rmdir_rules, text_rules, unlink_rules, with_acl_set, with_link, with_node, with_perm, with_user, without_link};

    /// One event: its effect where it is accepted, or why it is refused, by the first rule of its list that
    /// applies. A refused event changes nothing, and neither does one for which there is no memory, which is
    /// the only error. Mkdir and Create carry no number 0, a mode has at most four octal digits, an access list
    /// has bits of at most 7 and entries that ascend by number without repeats, and a mask is at most 7.
    ///
    /// The time grows with the event's own bytes and with the number of look-ups by number or name, each of
    /// which is logarithmic in the tree. There are a few, and more at two events: Mkdir, and Rename of a
    /// directory, go from a directory up to the root, in at most 255 steps each time. Rename looks at the
    /// entries below a directory only where the height that is kept of it leaves open whether one below comes
    /// to lie too deep, at each once or twice; where it is accepted, it lowers the heights below.
    pub fn apply(&mut self, event: &Event) -> Result<Result<Effect, Refusal>, NoMemory>
        requires { IsEvent event.now }
        ensures step { IfOk result (λ answer. IsStep self.old event.now answer self.new) }
        ensures no_memory { OnErr result (self.new ≡ self.old) }
    {
        match self.refusal(event) {
            Some(refusal) => Ok(Err(refusal)),
            None => Ok(Ok(self.accept(event)?)),
        }
    }

    /// What an event does that no rule refuses.
    fn accept(&mut self, event: &Event) -> Result<Effect, NoMemory>
        requires event { IsEvent event.now }
        requires accepted { refusal_of self.old event.now ≡ None }
        ensures effect { IfOk result (λ effect. effect ≡ effect_of self.old event.now) }
        ensures next { OnOk result (self.new ≡ next self.old event.now) }
        ensures err { OnErr result (self.new ≡ self.old) }
    {
        match event {
            Event::User { uid, groups } => self.user(*uid, groups.as_slice()),
            Event::Mkdir {
                ino,
                parent,
                name,
                perm,
            } => self.mkdir(*ino, *parent, name.as_slice(), *perm),
            Event::Create {
                ino,
                parent,
                name,
                perm,
            } => self.create(*ino, *parent, name.as_slice(), *perm),
            Event::Text { ino } => Ok(texted(*ino)),
            Event::Link { ino, parent, name } => self.link(*ino, *parent, name.as_slice()),
            Event::Unlink { parent, name } => Ok(self.unlink(*parent, name.as_slice())),
            Event::Rmdir { parent, name } => Ok(self.rmdir(*parent, name.as_slice())),
            Event::Rename {
                parent,
                name,
                new_parent,
                new_name,
            } => self.rename(*parent, name.as_slice(), *new_parent, new_name.as_slice()),
            Event::Chmod { ino, mode } => Ok(self.chmod(*ino, *mode)),
            Event::Chown { ino, uid, gid } => Ok(self.chown(*ino, *uid, *gid)),
            Event::Acl { ino, acl, mask } => self.acl(*ino, acl.as_ref(), *mask),
        }
    }

    fn user(&mut self, uid: Uid, groups: &[Gid]) -> Result<Effect, NoMemory>
        ensures effect { IfOk result (λ effect. effect ≡ NO_EFFECT) }
        ensures next { OnOk result (self.new ≡ with_user self.old uid groups.now) }
        ensures err { OnErr result (self.new ≡ self.old) }
    {
        self.set_user(uid, groups)?;
        Ok(NO_EFFECT)
    }

    fn mkdir(&mut self, ino: Ino, parent: Ino, name: &[u8], perm: Perm) -> Result<Effect, NoMemory>
        requires low { 1 ≤ ino }
        requires mode { perm.mode ≤ 0xFFF }
        requires accepted { first_of (mkdir_rules self.old ino parent name.now) ≡ None }
        ensures effect { IfOk result (λ effect. effect ≡ NO_EFFECT) }
        ensures next { OnOk result (self.new ≡ with_node self.old ino parent name.now (record { kind = Kind.Directory; perm = perm })) }
        ensures err { OnErr result (self.new ≡ self.old) }
    {
        let kind = Kind::Directory;
        self.add_node(ino, parent, name, Node { kind, perm })?;
        Ok(NO_EFFECT)
    }

    fn create(&mut self, ino: Ino, parent: Ino, name: &[u8], perm: Perm) -> Result<Effect, NoMemory>
        requires low { 1 ≤ ino }
        requires mode { perm.mode ≤ 0xFFF }
        requires accepted { first_of (create_rules self.old ino parent name.now) ≡ None }
        ensures effect { IfOk result (λ effect. effect ≡ record NO_EFFECT { made = Some ino }) }
        ensures next { OnOk result (self.new ≡ with_node self.old ino parent name.now (record { kind = Kind.File; perm = perm })) }
        ensures err { OnErr result (self.new ≡ self.old) }
    {
        let kind = Kind::File;
        self.add_node(ino, parent, name, Node { kind, perm })?;
        Ok(Effect {
            made: Some(ino),
            ..NO_EFFECT
        })
    }

    fn link(&mut self, ino: Ino, parent: Ino, name: &[u8]) -> Result<Effect, NoMemory>
        requires { first_of (link_rules self.old ino parent name.now) ≡ None }
        ensures effect { IfOk result (λ effect. effect ≡ NO_EFFECT) }
        ensures next { OnOk result (self.new ≡ with_link self.old ino parent name.now) }
        ensures err { OnErr result (self.new ≡ self.old) }
    {
        self.add_link(ino, parent, name)?;
        Ok(NO_EFFECT)
    }

    fn unlink(&mut self, parent: Ino, name: &[u8]) -> Effect
        requires { first_of (unlink_rules self.old parent name.now) ≡ None }
        ensures effect { result ≡ record NO_EFFECT { dropped = dropped_at self.old parent name.now } }
        ensures next { self.new ≡ without_link self.old parent name.now }
    {
        let dropped = self.dropped_at(parent, name);
        self.drop_link(parent, name);
        Effect {
            dropped,
            ..NO_EFFECT
        }
    }

    fn rmdir(&mut self, parent: Ino, name: &[u8]) -> Effect
        requires { first_of (rmdir_rules self.old parent name.now) ≡ None }
        ensures effect { result ≡ NO_EFFECT }
        ensures next { self.new ≡ without_link self.old parent name.now }
    {
        self.drop_link(parent, name);
        NO_EFFECT
    }

    fn rename(
        &mut self,
        parent: Ino,
        name: &[u8],
        new_parent: Ino,
        new_name: &[u8],
    ) -> Result<Effect, NoMemory>
        requires { first_of (rename_rules self.old parent name.now new_parent new_name.now) ≡ None }
        ensures effect { IfOk result (λ effect. effect ≡ rename_effect self.old parent name.now new_parent new_name.now) }
        ensures next { OnOk result (self.new ≡ renamed self.old parent name.now new_parent new_name.now) }
        ensures err { OnErr result (self.new ≡ self.old) }
    {
        self.lower_if_high(parent, name, new_parent);
        self.move_link(parent, name, new_parent, new_name)
    }

    fn move_link(
        &mut self,
        parent: Ino,
        name: &[u8],
        new_parent: Ino,
        new_name: &[u8],
    ) -> Result<Effect, NoMemory>
        requires { first_of (rename_rules self.old parent name.now new_parent new_name.now) ≡ None }
        ensures effect { IfOk result (λ effect. effect ≡ rename_effect self.old parent name.now new_parent new_name.now) }
        ensures next { OnOk result (self.new ≡ renamed self.old parent name.now new_parent new_name.now) }
        ensures err { OnErr result (self.new ≡ self.old) }
    {
        let Some(child) = self.child(parent, name) else {
            return Ok(NO_EFFECT);
        };
        match self.child(new_parent, new_name) {
            Some(target) => {
                if target == child {
                    return Ok(NO_EFFECT);
                }
                let dropped = self.dropped_at(new_parent, new_name);
                self.move_onto(parent, name, new_parent, new_name, child, target)?;
                Ok(Effect {
                    dropped,
                    ..NO_EFFECT
                })
            }
            None => {
                self.move_to_free(parent, name, new_parent, new_name, child)?;
                Ok(NO_EFFECT)
            }
        }
    }

    fn chmod(&mut self, ino: Ino, mode: u16) -> Effect
        requires { mode ≤ 0xFFF }
        ensures effect { result ≡ NO_EFFECT }
        ensures next { self.new ≡ with_perm (λ perm. record perm { mode = mode }) self.old ino (node_of self.old ino) }
    {
        if let Some(node) = self.node(ino) {
            self.set_perm(ino, Perm { mode, ..node.perm });
        }
        NO_EFFECT
    }

    fn chown(&mut self, ino: Ino, uid: Uid, gid: Gid) -> Effect
        ensures effect { result ≡ NO_EFFECT }
        ensures next { self.new ≡ with_perm (λ perm. record perm { uid = uid; gid = gid }) self.old ino (node_of self.old ino) }
    {
        if let Some(node) = self.node(ino) {
            let mode = node.perm.mode;
            self.set_perm(ino, Perm { uid, gid, mode });
        }
        NO_EFFECT
    }

    fn acl(&mut self, ino: Ino, acl: Option<&Acl>, mask: u8) -> Result<Effect, NoMemory>
        requires acl { IfSome acl (λ acl. IsAcl acl.now) }
        requires mask { mask ≤ 7 }
        requires there { is_there self.old ino ≡ true }
        ensures effect { IfOk result (λ effect. effect ≡ NO_EFFECT) }
        ensures next { OnOk result (self.new ≡ with_acl_set self.old ino (option_copied acl.entry) mask) }
        ensures err { OnErr result (self.new ≡ self.old) }
    {
        match acl {
            Some(acl) => self.set_acl(ino, acl, mask)?,
            None => self.remove_acl(ino),
        }
        Ok(NO_EFFECT)
    }

    /// The file whose last link stands at that place, if it is one.
    fn dropped_at(&self, parent: Ino, name: &[u8]) -> Option<Ino>
        ensures { result ≡ dropped_at self.now parent name.now }
    {
        match self.child(parent, name) {
            Some(child) => {
                if self.is_file(child) && self.has_one_link(child) {
                    Some(child)
                } else {
                    None
                }
            }
            None => None,
        }
    }
}

/// The effect of a text: the tree stays as it is.
fn texted(ino: Ino) -> Effect
    ensures { result ≡ record NO_EFFECT { texted = Some ino } }
{
    Effect {
        texted: Some(ino),
        ..NO_EFFECT
    }
}

/// A law: of an event that is accepted, the effect tells which files there are afterwards. A node is a regular
/// file exactly where it isn't the file that was dropped, and is the one that was made or was a file before;
/// no file is both made and dropped; and a text was given to a file that is there. So who keeps a text for
/// each file need only follow the effects.
pub fn effects_tell_files(tree: &Tree)
    ensures { EffectsTellFiles tree.now }
{
    tree.keeps_the_rules();
}
