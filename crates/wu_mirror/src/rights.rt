//! The events that take rights away and give them.
ghost use Rattle.std.specs.Prelude.{◌≡◌, ◌++◌, ◌<◌, IfOk, OnOk, option_copied};
ghost use Rattle.wu_access.specs.Access.{group_digit};
ghost use Rattle.wu_mirror.specs.Plans.{first_mode, given, is_shut, keeps_classes, keeps_list, left_mode, list_given, list_set, made_given, mode_set, mode_then, nobody, owners_given, taken};

use crate::batches::{Change, Fate, ListChange, Owners, RightsChange};
use std::alloc::Global;
use wu_access::Acl;
use wu_base::{Ino, NoMemory, ROOT, Sequence};
use wu_tree::Event;

/// Whether the node is shut while the batch is under way: it is given a text, or it is the root and
/// groups change.
pub(crate) fn is_shut(groups_change: bool, change: &Change) -> bool
    ensures { result ≡ is_shut groups_change change.now }
{
    change.has_new_text || change.ino == ROOT && groups_change
}

/// The mode that a node is made with: none where its text or its list comes first.
pub(crate) fn first_mode(shut: bool, acl: Option<&Acl>, mode: u16) -> u16
    ensures { result ≡ first_mode shut (option_copied acl.entry) mode }
{
    if shut || acl.is_some() { 0 } else { mode }
}

/// Appends the event that takes rights away.
pub(crate) fn put_taken(
    events: &mut Vec<Event>,
    groups_change: bool,
    change: &Change,
) -> Result<(), NoMemory>
    ensures { OnOk result (events.new.items ≡ events.old.items ++ taken groups_change change.now) }
{
    match &change.fate {
        Fate::Stays { rights, .. } => {
            let left = left_mode(is_shut(groups_change, change), rights);
            put_mode(events, change.ino, rights.before, left)
        }
        Fate::Made { .. } | Fate::Goes => Ok(()),
    }
}

/// What is left of the mode while the batch is under way.
fn left_mode(shut: bool, rights: &RightsChange) -> u16
    ensures { result ≡ left_mode shut rights.now }
{
    if shut || !keeps_classes(rights) {
        0
    } else {
        rights.before & rights.after
    }
}

/// Whether owner, group and list stay.
fn keeps_classes(rights: &RightsChange) -> bool
    ensures { result ≡ keeps_classes rights.now }
{
    rights.owners.is_none() && keeps_list(&rights.list)
}

fn keeps_list(list: &ListChange) -> bool
    ensures { result ≡ keeps_list list.now }
{
    match list {
        ListChange::Same => true,
        ListChange::Set(_) | ListChange::Removed => false,
    }
}

/// Appends the event that gives the node another mode, if it is another.
fn put_mode(events: &mut Vec<Event>, ino: Ino, old: u16, mode: u16) -> Result<(), NoMemory>
    ensures { OnOk result (events.new.items ≡ events.old.items ++ mode_set ino old mode) }
{
    if old != mode {
        events.push(Event::Chmod { ino, mode })?;
    }
    Ok(())
}

/// Appends the events that give the rights after the batch.
pub(crate) fn put_given(
    alloc: Global,
    events: &mut Vec<Event>,
    groups_change: bool,
    change: &Change,
) -> Result<(), NoMemory>
    ensures { OnOk result (events.new.items ≡ events.old.items ++ given groups_change change.now) }
{
    let shut = is_shut(groups_change, change);
    match &change.fate {
        Fate::Stays { rights, .. } => put_changed(alloc, events, change.ino, shut, rights),
        Fate::Made { perm, acl } => {
            put_made(alloc, events, change.ino, shut, acl.as_ref(), perm.mode)
        }
        Fate::Goes => Ok(()),
    }
}

/// Appends what gives a node that stays its owner, its list and its mode, in this order.
fn put_changed(
    alloc: Global,
    events: &mut Vec<Event>,
    ino: Ino,
    shut: bool,
    rights: &RightsChange,
) -> Result<(), NoMemory>
    ensures { OnOk result (events.new.items ≡ events.old.items ++ (owners_given ino rights.now.owners
        ++ list_given ino rights.now.list rights.now.after
        ++ mode_set ino (mode_then rights.now.list (left_mode shut rights.now) rights.now.after) rights.now.after)) }
{
    put_owners(events, ino, rights.owners)?;
    put_list(alloc, events, ino, &rights.list, rights.after)?;
    let left = left_mode(shut, rights);
    put_mode(
        events,
        ino,
        mode_then(&rights.list, left, rights.after),
        rights.after,
    )
}

fn put_owners(events: &mut Vec<Event>, ino: Ino, owners: Option<Owners>) -> Result<(), NoMemory>
    ensures { OnOk result (events.new.items ≡ events.old.items ++ owners_given ino owners) }
{
    if let Some(Owners { uid, gid }) = owners {
        events.push(Event::Chown { ino, uid, gid })?;
    }
    Ok(())
}

/// Appends what sets or removes the list. A list is removed by way of one that grants nothing, since its owning
/// bits become the group's.
fn put_list(
    alloc: Global,
    events: &mut Vec<Event>,
    ino: Ino,
    list: &ListChange,
    mode: u16,
) -> Result<(), NoMemory>
    ensures { OnOk result (events.new.items ≡ events.old.items ++ list_given ino list.now mode) }
{
    match list {
        ListChange::Same => {}
        ListChange::Set(acl) => events.push(list_event(alloc, ino, acl, mode)?)?,
        ListChange::Removed => {
            let acl = nobody(alloc);
            events.push(Event::Acl {
                ino,
                acl: Some(acl),
                mask: 0,
            })?;
            events.push(Event::Acl {
                ino,
                acl: None,
                mask: 0,
            })?;
        }
    }
    Ok(())
}

/// A list in which nobody is named and the owning group has no bits.
fn nobody(alloc: Global) -> Acl
    ensures { result ≡ nobody }
{
    Acl {
        owning: 0,
        users: Sequence::new(alloc),
        groups: Sequence::new(alloc),
    }
}

/// The event that sets the list, with the mask that the mode has.
fn list_event(alloc: Global, ino: Ino, acl: &Acl, mode: u16) -> Result<Event, NoMemory>
    ensures { IfOk result (λ event. event ≡ list_set ino acl.now mode) }
{
    let mask = group_digit(mode) as u8;
    let acl = acl.copied(alloc)?;
    Ok(Event::Acl {
        ino,
        acl: Some(acl),
        mask,
    })
}

/// The octal digit of the group.
fn group_digit(mode: u16) -> u16
    ensures value { result ≡ group_digit mode }
    ensures small { result < 8 }
{
    mode / 8 % 8
}

/// The mode that is there once the list is given.
fn mode_then(list: &ListChange, left: u16, mode: u16) -> u16
    ensures { result ≡ mode_then list.now left mode }
{
    match list {
        ListChange::Same => left,
        ListChange::Set(_) => group_digit(mode) * 8,
        ListChange::Removed => 0,
    }
}

/// Appends what gives a node that was made its list and its mode.
fn put_made(
    alloc: Global,
    events: &mut Vec<Event>,
    ino: Ino,
    shut: bool,
    acl: Option<&Acl>,
    mode: u16,
) -> Result<(), NoMemory>
    ensures { OnOk result (events.new.items ≡ events.old.items ++ made_given ino shut (option_copied acl.entry) mode) }
{
    match acl {
        Some(acl) => {
            events.push(list_event(alloc, ino, acl, mode)?)?;
            put_mode(events, ino, group_digit(mode) * 8, mode)
        }
        None => put_mode(events, ino, first_mode(shut, None, mode), mode),
    }
}
