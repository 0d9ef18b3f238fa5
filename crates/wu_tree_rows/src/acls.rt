//! Access lists as rows write them.
ghost use Rattle.std.specs.Prelude.{◌≤◌, IfOk, IsTrue};
ghost use Rattle.std.specs.List.{AllByRecursion};
ghost use Rattle.wu_access.specs.Access.{IsAcl};
ghost use Rattle.wu_tree.specs.Steps.{IsEvent};

use std::alloc::{AllocError, Global};
use wu_access::{Acl, AclEntry, Perm};
use wu_base::{Ino, NoMemory, Sequence};
use wu_rows::{NoAnswer, plain_text, small_number};
use wu_tree::{Event, Kind, Node, Tree};

/// The event that gives the node the access list whose entries the field writes as a script's line
/// does, or that takes its list away where there are none.
pub fn event(alloc: Global, ino: &str, entries: &str) -> Result<Event, NoAnswer>
    ensures { IfOk result (λ event. IsEvent event) }
{
    let ino = small_number(ino)?;
    if entries.is_empty() {
        return Ok(Event::Acl {
            ino,
            acl: None,
            mask: 0,
        });
    }
    let (acl, mask) = list_and_mask(alloc, entries)?;
    setting(alloc, ino, acl, mask)
}

/// The event that gives the node this access list, with that mask.
fn setting(alloc: Global, ino: Ino, acl: Acl, mask: u8) -> Result<Event, NoAnswer>
    ensures { IfOk result (λ event. IsEvent event) }
{
    let lists = [(1, acl)];
    if mask > 7 || !are_acls(alloc, &lists)? {
        return Err(NoAnswer::BadRow);
    }
    let [(_, acl)] = lists;
    Ok(Event::Acl {
        ino,
        acl: Some(acl),
        mask,
    })
}

/// Whether a tree of the root alone is rebuilt with these lists, which are then lists that a node
/// may have.
fn are_acls(alloc: Global, acls: &[(Ino, Acl)]) -> Result<bool, NoMemory>
    ensures { IfOk result (λ are. IsTrue are → AllByRecursion (λ acl. IsAcl acl.1) acls.now) }
{
    let perm = Perm {
        uid: 0,
        gid: 0,
        mode: 0o755,
    };
    let root = Node {
        kind: Kind::Directory,
        perm,
    };
    match Tree::rebuild(alloc, &[(1, root)], &[], &[], acls)? {
        Some(_tree) => Ok(true),
        None => Ok(false),
    }
}

/// The list of a field of entries, which begin with the owning group's and end with the mask.
fn list_and_mask(alloc: Global, field: &str) -> Result<(Acl, u8), NoAnswer> {
    let parts = parts_of(alloc, field)?;
    let [_, _, owning, entries @ .., _, _, mask] = parts.as_slice() else {
        return Err(NoAnswer::BadRow);
    };
    let mask = bits_of(mask)?;
    Ok((list(alloc, owning, entries)?, mask))
}

/// The tag, the number and the bits of each entry.
fn parts_of(alloc: Global, field: &str) -> Result<Vec<&str>, NoAnswer> {
    let mut parts = Vec::new(alloc);
    for entry in field.split(',') {
        for part in entry.split(':') {
            parts.push(part)?;
        }
    }
    Ok(parts)
}

/// The node and the list that the words spell: its number, the owning bits, and then for each entry
/// `u` or `g`, its number and its bits.
pub fn acl(alloc: Global, words: &[&str]) -> Result<(Ino, Acl), NoAnswer> {
    let [ino, owning, entries @ ..] = words else {
        return Err(NoAnswer::BadRow);
    };
    let ino = small_number(ino)?;
    Ok((ino, list(alloc, owning, entries)?))
}

fn list(alloc: Global, owning: &str, entries: &[&str]) -> Result<Acl, NoAnswer> {
    Ok(Acl {
        owning: bits_of(owning)?,
        users: entries_of(alloc, "u", entries)?,
        groups: entries_of(alloc, "g", entries)?,
    })
}

fn entries_of(alloc: Global, tag: &str, words: &[&str]) -> Result<Sequence<AclEntry>, NoAnswer> {
    let mut entries = Vec::new(alloc);
    for entry in words.chunks(3) {
        let [word, id, bits] = entry else {
            return Err(NoAnswer::BadRow);
        };
        if *word == tag {
            let id = small_number(id)?;
            let bits = bits_of(bits)?;
            entries.push(AclEntry { id, bits })?;
        }
    }
    Ok(Sequence::from(entries))
}

fn bits_of(field: &str) -> Result<u8, NoAnswer> {
    match u8::try_from(small_number(field)?) {
        Ok(bits) => Ok(bits),
        Err(_) => Err(NoAnswer::BadRow),
    }
}

/// The list as words that `acl` reads, but for the node's number.
fn written(alloc: Global, acl: &Acl) -> Result<String, NoAnswer> {
    let mut text = format!(in alloc; "{}", acl.owning)?;
    for entry in acl.users.as_slice() {
        write!(text, " u {} {}", entry.id, entry.bits)?;
    }
    for entry in acl.groups.as_slice() {
        write!(text, " g {} {}", entry.id, entry.bits)?;
    }
    Ok(text)
}

/// The access list of the node, or `none`.
pub fn acl_of(alloc: Global, tree: &Tree, ino: Ino) -> Result<String, NoAnswer> {
    match tree.acl_of(ino) {
        Some(acl) => written(alloc, acl),
        None => plain_text(alloc, "none"),
    }
}

/// The access lists of all nodes, with a comma between each two.
pub fn all_acls(alloc: Global, tree: &Tree) -> Result<String, NoAnswer> {
    let mut text = String::new(alloc);
    for (ino, acl) in tree.acls() {
        let acl = written(alloc, acl)?;
        put_item(&mut text, format!(in alloc; "{ino} {acl}")?.as_str())?;
    }
    Ok(text)
}

/// Appends an item, with a comma before it where it is not the first.
pub fn put_item(text: &mut String, item: &str) -> Result<(), AllocError> {
    if !text.is_empty() {
        text.push_str(", ")?;
    }
    text.push_str(item)
}
