//! The events that lines report.
ghost use Rattle.std.specs.Prelude.{◌≡◌, ◌≤◌, IfOk, IfSome};
ghost use Rattle.wu_tree.specs.Steps.{IsEvent};
ghost use Rattle.wu_script.specs.Commands.{id_of, node_of, ids_of, perm_of, new_node_of, mkdir_event, create_event, place_of, unlink_event};
ghost use Rattle.wu_script.specs.Commands.{rmdir_event, user_of, link_of, rename_of, chmod_of, chown_of};
ghost use Rattle.std.specs.Option.{option_map};

use std::alloc::Global;
use wu_access::Perm;
use wu_base::{Bytes, Ino, NoMemory, Sequence};
use wu_fields::{read_decimal, read_octal_mode};
use wu_tree::Event;

/// The number of a user or a group.
pub fn id_of(field: &Bytes) -> Option<u32>
    ensures { result ≡ id_of field.now }
{
    id_in(field.as_slice())
}

/// The number of a user or a group that these bytes spell.
#[tactic(auto, unfolding(crate::specs::Commands::id_of))]
pub fn id_in(field: &[u8]) -> Option<u32>
    ensures { result ≡ id_of field.now }
{
    let number = read_decimal(field, u32::MAX as u64)?;
    Some(number as u32)
}

/// The number of a node, which is at least 1.
#[tactic(auto, unfolding(crate::specs::Commands::node_of))]
pub fn node_of(field: &Bytes) -> Option<u32>
    ensures value { result ≡ node_of field.now }
    ensures some { IfSome result (λ node. 1 ≤ node) }
{
    match id_of(field) {
        Some(0) => None,
        other => other,
    }
}

/// The numbers, if each field is one.
fn ids_of(alloc: Global, fields: &[Bytes]) -> Result<Option<Sequence<u32>>, NoMemory>
    ensures { IfOk result (λ ids. ids ≡ ids_of fields.now) }
{
    let mut ids = Vec::new(alloc);
    for field in fields {
        match id_of(field) {
            Some(id) => ids.push(id)?,
            None => return Ok(None),
        }
    }
    Ok(Some(Sequence::from(ids)))
}

/// Owner, group and mode.
#[tactic(auto, unfolding(crate::specs::Commands::perm_of))]
fn perm_of(uid: &Bytes, gid: &Bytes, mode: &Bytes) -> Option<Perm>
    ensures value { result ≡ perm_of uid.now gid.now mode.now }
    ensures small { IfSome result (λ perm. perm.mode ≤ 0xFFF) }
{
    let uid = id_of(uid)?;
    let gid = id_of(gid)?;
    let mode = read_octal_mode(mode.as_slice())?;
    Some(Perm { uid, gid, mode })
}

/// `user`, and the user's groups.
#[tactic(auto, unfolding(crate::specs::Commands::user_of))]
pub fn user(alloc: Global, fields: &[Bytes]) -> Result<Option<Event>, NoMemory>
    ensures value { IfOk result (λ event. event ≡ user_of fields.now) }
    ensures sound { IfOk result (λ event. IfSome event IsEvent) }
{
    match fields {
        [] => Ok(None),
        [uid, groups @ ..] => {
            let Some(uid) = id_of(uid) else {
                return Ok(None);
            };
            match ids_of(alloc, groups)? {
                Some(groups) => Ok(Some(Event::User { uid, groups })),
                None => Ok(None),
            }
        }
    }
}

/// `chmod`, a node and a mode.
#[tactic(auto, unfolding(crate::specs::Commands::chmod_of))]
pub fn chmod(fields: &[Bytes]) -> Option<Event>
    ensures value { result ≡ chmod_of fields.now }
    ensures sound { IfSome result IsEvent }
{
    match fields {
        [ino, mode] => {
            let ino = node_of(ino)?;
            let mode = read_octal_mode(mode.as_slice())?;
            Some(Event::Chmod { ino, mode })
        }
        _ => None,
    }
}

/// A place that is emptied: a directory, and a name in it.
#[derive(Drop)]
pub struct Place {
    parent: Ino,
    name: Bytes,
}

/// The place that `unlink` and `rmdir` name.
#[tactic(auto, unfolding(crate::specs::Commands::place_of))]
fn read_place(alloc: Global, fields: &[Bytes]) -> Result<Option<Place>, NoMemory>
    ensures value { IfOk result (λ place. place ≡ place_of fields.now) }
    ensures sound { IfOk result (λ place. IfSome place (λ p. 1 ≤ p.parent)) }
{
    match fields {
        [parent, name] => match node_of(parent) {
            Some(parent) => Ok(Some(Place {
                parent,
                name: Bytes::from_slice(alloc, name.as_slice())?,
            })),
            None => Ok(None),
        },
        _ => Ok(None),
    }
}

/// `unlink`, a directory and a name.
pub fn unlink(alloc: Global, fields: &[Bytes]) -> Result<Option<Event>, NoMemory>
    ensures value { IfOk result (λ event. event ≡ option_map unlink_event (place_of fields.now)) }
    ensures sound { IfOk result (λ event. IfSome event IsEvent) }
{
    let place = read_place(alloc, fields)?;
    Ok(place.map(|Place { parent, name }| Event::Unlink { parent, name }))
}

/// `rmdir`, a directory and a name.
pub fn rmdir(alloc: Global, fields: &[Bytes]) -> Result<Option<Event>, NoMemory>
    ensures value { IfOk result (λ event. event ≡ option_map rmdir_event (place_of fields.now)) }
    ensures sound { IfOk result (λ event. IfSome event IsEvent) }
{
    let place = read_place(alloc, fields)?;
    Ok(place.map(|Place { parent, name }| Event::Rmdir { parent, name }))
}

/// `link`, a node, a directory and a name.
#[tactic(auto, unfolding(crate::specs::Commands::link_of))]
pub fn link(alloc: Global, fields: &[Bytes]) -> Result<Option<Event>, NoMemory>
    ensures value { IfOk result (λ event. event ≡ link_of fields.now) }
    ensures sound { IfOk result (λ event. IfSome event IsEvent) }
{
    match fields {
        [ino, parent, name] => {
            let Some(ino) = node_of(ino) else {
                return Ok(None);
            };
            match node_of(parent) {
                Some(parent) => Ok(Some(Event::Link {
                    ino,
                    parent,
                    name: Bytes::from_slice(alloc, name.as_slice())?,
                })),
                None => Ok(None),
            }
        }
        _ => Ok(None),
    }
}

/// `chown`, a node, an owner and a group.
#[tactic(auto, unfolding(crate::specs::Commands::chown_of))]
pub fn chown(fields: &[Bytes]) -> Option<Event>
    ensures value { result ≡ chown_of fields.now }
    ensures sound { IfSome result IsEvent }
{
    match fields {
        [ino, uid, gid] => {
            let ino = node_of(ino)?;
            let uid = id_of(uid)?;
            let gid = id_of(gid)?;
            Some(Event::Chown { ino, uid, gid })
        }
        _ => None,
    }
}

/// A node that is made: its number, its directory and its name there, owner, group and mode.
#[derive(Drop)]
pub struct NewNode {
    ino: Ino,
    parent: Ino,
    name: Bytes,
    perm: Perm,
}

/// The node that `mkdir` and `create` make.
#[tactic(auto, unfolding(crate::specs::Commands::new_node_of))]
fn read_new_node(alloc: Global, fields: &[Bytes]) -> Result<Option<NewNode>, NoMemory>
    ensures value { IfOk result (λ node. node ≡ new_node_of fields.now) }
    ensures sound { IfOk result (λ node. IfSome node (λ n. (1 ≤ n.ino) × (1 ≤ n.parent) × (n.perm.mode ≤ 0xFFF))) }
{
    match fields {
        [ino, parent, name, uid, gid, mode] => {
            let Some(ino) = node_of(ino) else {
                return Ok(None);
            };
            let Some(parent) = node_of(parent) else {
                return Ok(None);
            };
            match perm_of(uid, gid, mode) {
                Some(perm) => Ok(Some(NewNode {
                    ino,
                    parent,
                    name: Bytes::from_slice(alloc, name.as_slice())?,
                    perm,
                })),
                None => Ok(None),
            }
        }
        _ => Ok(None),
    }
}

/// `mkdir`, a node, a directory, a name, owner, group and mode.
pub fn mkdir(alloc: Global, fields: &[Bytes]) -> Result<Option<Event>, NoMemory>
    ensures value { IfOk result (λ event. event ≡ option_map mkdir_event (new_node_of fields.now)) }
    ensures sound { IfOk result (λ event. IfSome event IsEvent) }
{
    let node = read_new_node(alloc, fields)?;
    Ok(node.map(|node| Event::Mkdir {
        ino: node.ino,
        parent: node.parent,
        name: node.name,
        perm: node.perm,
    }))
}

/// `create`, likewise.
pub fn create(alloc: Global, fields: &[Bytes]) -> Result<Option<Event>, NoMemory>
    ensures value { IfOk result (λ event. event ≡ option_map create_event (new_node_of fields.now)) }
    ensures sound { IfOk result (λ event. IfSome event IsEvent) }
{
    let node = read_new_node(alloc, fields)?;
    Ok(node.map(|node| Event::Create {
        ino: node.ino,
        parent: node.parent,
        name: node.name,
        perm: node.perm,
    }))
}

/// `rename`, a directory and a name, and the same of the new place.
#[tactic(auto, unfolding(crate::specs::Commands::rename_of))]
pub fn rename(alloc: Global, fields: &[Bytes]) -> Result<Option<Event>, NoMemory>
    ensures value { IfOk result (λ event. event ≡ rename_of fields.now) }
    ensures sound { IfOk result (λ event. IfSome event IsEvent) }
{
    match fields {
        [parent, name, new_parent, new_name] => {
            let Some(parent) = node_of(parent) else {
                return Ok(None);
            };
            match node_of(new_parent) {
                Some(new_parent) => {
                    let name = Bytes::from_slice(alloc, name.as_slice())?;
                    let new_name = Bytes::from_slice(alloc, new_name.as_slice())?;
                    Ok(Some(Event::Rename {
                        parent,
                        name,
                        new_parent,
                        new_name,
                    }))
                }
                None => Ok(None),
            }
        }
        _ => Ok(None),
    }
}
