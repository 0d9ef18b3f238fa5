//! Compares the frames of users, made anew and kept between events, with the tables on standard
//! input.
#![tactic(auto)]

ghost use Rattle.std.specs.Prelude.{IfOk};
ghost use Rattle.wu_tree.specs.Steps.{IsEvent};

mod asking;

use std::alloc::Global;
use std::io;
use wu_access::Acl;
use wu_base::{Ino, NoMemory, Sequence};
use wu_frames::{FrameCache, LinkChanges, copied_acl, links_changed};
use wu_rows::{NoAnswer, Subject, compare_tables, number, plain_text, small_number, small_numbers};
use wu_space::Space;
use wu_space_rows::{place, release};
use wu_tree::{Effect, Event, Node, Tree};
use wu_tree_rows::event;

/// The tree and the space to which the rows of a table are put, and the frames that rows have kept.
/// A table begins with the root alone.
#[derive(Drop)]
struct Rows {
    tree: Tree,
    space: Space,
    kept: FrameCache,
}

/// A node before an event.
#[derive(Drop)]
struct Before {
    ino: Ino,
    node: Node,
    acl: Option<Acl>,
}

fn main(rt: HostRuntime) -> io::Result<()> {
    let mut rows = Rows::new(rt.alloc())?;
    compare_tables(&rt, &mut rows)
}

impl Subject for Rows {
    fn begin(&mut self, alloc: Global) -> Result<(), NoAnswer> {
        *self = Rows::new(alloc)?;
        Ok(())
    }

    fn answer(&mut self, alloc: Global, _kind: &str, fields: &[&str]) -> Result<String, NoAnswer> {
        let [call, arguments @ ..] = fields else {
            return Err(NoAnswer::BadRow);
        };
        match *call {
            "frames" | "view" | "total" | "in turn" => {
                asking::told(alloc, &self.tree, &self.space, fields)
            }
            "keep" => self.keep(alloc, arguments),
            "kept" => self.kept_of(alloc, arguments),
            "texts" => self.give_texts(alloc, arguments),
            "text" => self.text_written(alloc, arguments),
            _ => self.apply_written(alloc, fields),
        }
    }
}

impl Rows {
    /// The root alone, a space without files, and no kept frames. Fails only where there is no
    /// memory.
    fn new(alloc: Global) -> Result<Rows, NoAnswer> {
        let kept = FrameCache::new(alloc)?;
        Ok(Rows {
            tree: Tree::new(alloc)?,
            space: Space::new(alloc, 0),
            kept,
        })
    }

    fn keep(&mut self, alloc: Global, arguments: &[&str]) -> Result<String, NoAnswer> {
        let [users] = arguments else {
            return Err(NoAnswer::BadRow);
        };
        asking::keep(alloc, &mut self.kept, &self.tree, &self.space, users)
    }

    fn kept_of(&self, alloc: Global, arguments: &[&str]) -> Result<String, NoAnswer> {
        let [uid] = arguments else {
            return Err(NoAnswer::BadRow);
        };
        let uid = small_number(uid)?;
        asking::kept(alloc, &self.tree, &self.space, uid, self.kept.kept(uid))
    }

    /// What the tree answers to the event that the fields write.
    fn apply_written(&mut self, alloc: Global, fields: &[&str]) -> Result<String, NoAnswer> {
        let event = event_of(alloc, fields)?;
        self.apply(alloc, &event, 10)
    }

    fn text_written(&mut self, alloc: Global, arguments: &[&str]) -> Result<String, NoAnswer> {
        let [ino, len] = arguments else {
            return Err(NoAnswer::BadRow);
        };
        self.text(alloc, small_number(ino)?, number(len)?)
    }

    /// What the tree answers where the file gets a text of `len` addresses.
    fn text(&mut self, alloc: Global, ino: Ino, len: u64) -> Result<String, NoAnswer> {
        let event = Event::Text { ino };
        self.apply(alloc, &event, len)
    }

    /// What the tree answers to the event. A file that it makes or that gets a text is given `len`
    /// addresses, and a file that it drops loses its range.
    fn apply(&mut self, alloc: Global, event: &Event, len: u64) -> Result<String, NoAnswer>
        requires { IsEvent event.now }
    {
        let before = node_before(alloc, &self.tree, event)?;
        let links = links_changed(alloc, &self.tree, event)?;
        match self.tree.apply(event)? {
            Ok(effect) => {
                self.follow(event, effect, before, links, len)?;
                plain_text(alloc, "done")
            }
            Err(_) => plain_text(alloc, "refused"),
        }
    }

    /// Gives and takes addresses as the effect of the event asks for.
    fn follow(
        &mut self,
        event: &Event,
        effect: Effect,
        before: Option<Before>,
        links: LinkChanges,
        len: u64,
    ) -> Result<(), NoAnswer> {
        if let Some(ino) = effect.dropped {
            release(&mut self.space, ino);
        }
        if let Some(ino) = effect.made {
            place(&mut self.space, ino, len)?;
        }
        match effect.texted {
            Some(ino) => self.give_text(ino, len)?,
            None => self.renew(event, before, links),
        }
        Ok(())
    }

    /// Forgets the kept frames that the event may have changed, where `before` is the node to which
    /// it gave other permissions or another list, and `links` are those that it made and removed.
    fn renew(&mut self, event: &Event, before: Option<Before>, links: LinkChanges) {
        match (event, before) {
            (Event::User { uid, .. }, _) => self.kept.forget(*uid),
            (_, Some(was)) => { self.kept.recheck(&self.tree, was.ino, was.node, was.acl) }
            _ => self.kept.relink(&self.tree, links),
        }
    }

    /// Gives the file the next addresses, so many, in place of those that it has.
    fn give_text(&mut self, ino: Ino, len: u64) -> Result<(), NoAnswer> {
        let old = self.space.range_of(ino);
        release(&mut self.space, ino);
        let new = place(&mut self.space, ino, len)?;
        match old {
            Some(old) => self.kept.move_range(ino, old, new),
            None => self.kept.clear(),
        }
        Ok(())
    }

    /// Gives the file so many texts in turn, each of `len` addresses.
    fn give_texts(&mut self, alloc: Global, arguments: &[&str]) -> Result<String, NoAnswer> {
        let [ino, len, times] = arguments else {
            return Err(NoAnswer::BadRow);
        };
        let ino = small_number(ino)?;
        let len = number(len)?;
        let times = small_number(times)?;
        for _ in 0..times {
            let answer = self.text(alloc, ino, len)?;
            if answer.as_str() != "done" {
                return Ok(answer);
            }
        }
        plain_text(alloc, "done")
    }
}

/// The event that the fields write. The groups of a user stand in one field.
fn event_of(alloc: Global, fields: &[&str]) -> Result<Event, NoAnswer>
    ensures { IfOk result (λ event. IsEvent event) }
{
    match fields {
        ["user", uid, groups] => Ok(Event::User {
            uid: small_number(uid)?,
            groups: Sequence::from(small_numbers(alloc, groups)?),
        }),
        _ => event(alloc, fields),
    }
}

/// The node to which the event gives other permissions or another access list, as it is before.
fn node_before(alloc: Global, tree: &Tree, event: &Event) -> Result<Option<Before>, NoMemory> {
    match event {
        Event::Chmod { ino, .. } | Event::Chown { ino, .. } | Event::Acl { ino, .. } => {
            node_now(alloc, tree, *ino)
        }
        _ => Ok(None),
    }
}

fn node_now(alloc: Global, tree: &Tree, ino: Ino) -> Result<Option<Before>, NoMemory> {
    match tree.node(ino) {
        Some(node) => Ok(Some(Before {
            ino,
            node,
            acl: copied_acl(alloc, tree, ino)?,
        })),
        None => Ok(None),
    }
}
