//! The events that remove names and place them.
ghost use Rattle.std.specs.Prelude.{◌≡◌, ◌++◌, IfOk, OnOk, decimal, map, option_copied};
ghost use Rattle.wu_mirror.specs.Plans.{brought_back, directory_made, directory_placed, directory_removed, directory_set_aside, file_made, file_names_gone, file_placed, first_come, first_gone, first_perm, is_empty, is_shut, linked, removed, set_aside, unlinked};

use crate::batches::{CLOSED, Change, Fate, Place};
use crate::rights::{first_mode, is_shut};
use std::alloc::Global;
use wu_access::{Acl, Perm};
use wu_base::{Bytes, Ino, NoMemory};
use wu_fields::put_decimal;
use wu_tree::{Event, Kind};

/// The name that a node has in the closed directory: its number.
fn aside_name(alloc: Global, ino: Ino) -> Result<Bytes, NoMemory>
    ensures { IfOk result (λ name. name ≡ decimal ino) }
{
    let mut name = Vec::new(alloc);
    put_decimal(&mut name, u64::from(ino))?;
    Ok(Bytes::from(name))
}

/// The event that sets the node aside, from that place to the closed directory.
fn set_aside(alloc: Global, ino: Ino, place: &Place) -> Result<Event, NoMemory>
    ensures { IfOk result (λ event. event ≡ set_aside ino place.now) }
{
    let name = place.name.clone()?;
    let new_name = aside_name(alloc, ino)?;
    Ok(Event::Rename {
        parent: place.parent,
        name,
        new_parent: CLOSED,
        new_name,
    })
}

/// The event that brings the node back from there to that place.
fn brought_back(alloc: Global, ino: Ino, place: &Place) -> Result<Event, NoMemory>
    ensures { IfOk result (λ event. event ≡ brought_back ino place.now) }
{
    let name = aside_name(alloc, ino)?;
    let new_name = place.name.clone()?;
    Ok(Event::Rename {
        parent: CLOSED,
        name,
        new_parent: place.parent,
        new_name,
    })
}

fn unlinked(place: &Place) -> Result<Event, NoMemory>
    ensures { IfOk result (λ event. event ≡ unlinked place.now) }
{
    let name = place.name.clone()?;
    Ok(Event::Unlink {
        parent: place.parent,
        name,
    })
}

fn linked(ino: Ino, place: &Place) -> Result<Event, NoMemory>
    ensures { IfOk result (λ event. event ≡ linked ino place.now) }
{
    let name = place.name.clone()?;
    Ok(Event::Link {
        ino,
        parent: place.parent,
        name,
    })
}

fn removed(place: &Place) -> Result<Event, NoMemory>
    ensures { IfOk result (λ event. event ≡ removed place.now) }
{
    let name = place.name.clone()?;
    Ok(Event::Rmdir {
        parent: place.parent,
        name,
    })
}

fn directory_made(ino: Ino, perm: Perm, place: &Place) -> Result<Event, NoMemory>
    ensures { IfOk result (λ event. event ≡ directory_made ino perm place.now) }
{
    let name = place.name.clone()?;
    Ok(Event::Mkdir {
        ino,
        parent: place.parent,
        name,
        perm,
    })
}

fn file_made(ino: Ino, perm: Perm, place: &Place) -> Result<Event, NoMemory>
    ensures { IfOk result (λ event. event ≡ file_made ino perm place.now) }
{
    let name = place.name.clone()?;
    Ok(Event::Create {
        ino,
        parent: place.parent,
        name,
        perm,
    })
}

/// What a node is made with.
fn first_perm(shut: bool, perm: Perm, acl: Option<&Acl>) -> Perm
    ensures { result ≡ first_perm shut perm (option_copied acl.entry) }
{
    let mode = first_mode(shut, acl, perm.mode);
    Perm { mode, ..perm }
}

/// Appends what removes the names of a file that go. A file that stays and keeps no name is set aside.
pub(crate) fn put_file_gone(
    alloc: Global,
    events: &mut Vec<Event>,
    change: &Change,
) -> Result<(), NoMemory>
    ensures { OnOk result (events.new.items ≡ events.old.items ++ file_names_gone change.now.kind change.now) }
{
    match change.kind {
        Kind::Directory => Ok(()),
        Kind::File => {
            let [first, others @ ..] = change.going.as_slice() else {
                return Ok(());
            };
            let event = first_gone(alloc, change.ino, &change.fate, first)?;
            events.push(event)?;
            put_unlinked(events, others)
        }
    }
}

/// How the first name of a file goes.
fn first_gone(alloc: Global, ino: Ino, fate: &Fate, place: &Place) -> Result<Event, NoMemory>
    ensures { IfOk result (λ event. event ≡ first_gone ino fate.now place.now) }
{
    match fate {
        Fate::Stays {
            has_other_name: false,
            ..
        } => set_aside(alloc, ino, place),
        Fate::Stays { .. } | Fate::Made { .. } | Fate::Goes => unlinked(place),
    }
}

fn put_unlinked(events: &mut Vec<Event>, places: &[Place]) -> Result<(), NoMemory>
    ensures { OnOk result (events.new.items ≡ events.old.items ++ map unlinked places.now) }
{
    for place in places {
        events.push(unlinked(place)?)?;
    }
    Ok(())
}

fn put_linked(events: &mut Vec<Event>, ino: Ino, places: &[Place]) -> Result<(), NoMemory>
    ensures { OnOk result (events.new.items ≡ events.old.items ++ map (linked ino) places.now) }
{
    for place in places {
        events.push(linked(ino, place)?)?;
    }
    Ok(())
}

/// Appends what sets a directory aside that stays under another name.
pub(crate) fn put_directory_aside(
    alloc: Global,
    events: &mut Vec<Event>,
    change: &Change,
) -> Result<(), NoMemory>
    ensures { OnOk result (events.new.items ≡ events.old.items ++ directory_set_aside change.now.kind change.now) }
{
    match (change.kind, &change.fate) {
        (Kind::Directory, Fate::Stays { .. }) => {
            put_set_aside(alloc, events, change.ino, change.going.as_slice())
        }
        _ => Ok(()),
    }
}

fn put_set_aside(
    alloc: Global,
    events: &mut Vec<Event>,
    ino: Ino,
    places: &[Place],
) -> Result<(), NoMemory>
    ensures { OnOk result (events.new.items ≡ events.old.items ++ map (set_aside ino) places.now) }
{
    for place in places {
        events.push(set_aside(alloc, ino, place)?)?;
    }
    Ok(())
}

/// Appends what removes a directory that goes.
pub(crate) fn put_directory_removed(
    events: &mut Vec<Event>,
    change: &Change,
) -> Result<(), NoMemory>
    ensures { OnOk result (events.new.items ≡ events.old.items ++ directory_removed change.now.kind change.now) }
{
    match (change.kind, &change.fate) {
        (Kind::Directory, Fate::Goes) => put_removed(events, change.going.as_slice()),
        _ => Ok(()),
    }
}

fn put_removed(events: &mut Vec<Event>, places: &[Place]) -> Result<(), NoMemory>
    ensures { OnOk result (events.new.items ≡ events.old.items ++ map removed places.now) }
{
    for place in places {
        events.push(removed(place)?)?;
    }
    Ok(())
}

/// Appends what makes a directory, or brings it to its place.
pub(crate) fn put_directory_placed(
    alloc: Global,
    events: &mut Vec<Event>,
    groups_change: bool,
    change: &Change,
) -> Result<(), NoMemory>
    ensures { OnOk result (events.new.items ≡ events.old.items ++ directory_placed groups_change change.now) }
{
    let places = change.coming.as_slice();
    match (change.kind, &change.fate) {
        (Kind::Directory, Fate::Stays { .. }) => {
            put_brought_back(alloc, events, change.ino, places)
        }
        (Kind::Directory, Fate::Made { perm, acl }) => {
            let perm = first_perm(is_shut(groups_change, change), *perm, acl.as_ref());
            put_directory_made(events, change.ino, perm, places)
        }
        _ => Ok(()),
    }
}

fn put_brought_back(
    alloc: Global,
    events: &mut Vec<Event>,
    ino: Ino,
    places: &[Place],
) -> Result<(), NoMemory>
    ensures { OnOk result (events.new.items ≡ events.old.items ++ map (brought_back ino) places.now) }
{
    for place in places {
        events.push(brought_back(alloc, ino, place)?)?;
    }
    Ok(())
}

fn put_directory_made(
    events: &mut Vec<Event>,
    ino: Ino,
    perm: Perm,
    places: &[Place],
) -> Result<(), NoMemory>
    ensures { OnOk result (events.new.items ≡ events.old.items ++ map (directory_made ino perm) places.now) }
{
    for place in places {
        events.push(directory_made(ino, perm, place)?)?;
    }
    Ok(())
}

/// Appends what places the names of a file that come.
pub(crate) fn put_file_placed(
    alloc: Global,
    events: &mut Vec<Event>,
    groups_change: bool,
    change: &Change,
) -> Result<(), NoMemory>
    ensures { OnOk result (events.new.items ≡ events.old.items ++ file_placed groups_change change.now) }
{
    match change.kind {
        Kind::Directory => Ok(()),
        Kind::File => {
            let [first, others @ ..] = change.coming.as_slice() else {
                return Ok(());
            };
            let event = first_come(alloc, groups_change, change, first)?;
            events.push(event)?;
            put_linked(events, change.ino, others)
        }
    }
}

/// How the first name of a file comes: the file is made with it, brought back where it was set aside, or linked.
fn first_come(
    alloc: Global,
    groups_change: bool,
    change: &Change,
    place: &Place,
) -> Result<Event, NoMemory>
    ensures { IfOk result (λ event. event ≡ first_come change.now.ino (is_shut groups_change change.now)
        change.now.fate (is_empty change.now.going) place.now) }
{
    match &change.fate {
        Fate::Made { perm, acl } => {
            let perm = first_perm(is_shut(groups_change, change), *perm, acl.as_ref());
            file_made(change.ino, perm, place)
        }
        Fate::Stays {
            has_other_name: false,
            ..
        } if !change.going.is_empty() => brought_back(alloc, change.ino, place),
        Fate::Stays { .. } | Fate::Goes => linked(change.ino, place),
    }
}
