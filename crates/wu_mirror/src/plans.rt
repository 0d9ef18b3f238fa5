//! The order of a batch.
ghost use Rattle.std.specs.Prelude.{◌≡◌, ◌++◌, IfOk, OnOk, map, reverse};
ghost use Rattle.std.specs.List.{flat_map};
ghost use Rattle.wu_mirror.specs.Plans.{directory_placed, directory_removed, directory_set_aside, file_names_gone, file_placed, given, groups_change, groups_set, head_of, placed_in, removed_in, tail_of, taken, taken_in};

use crate::batches::{Batch, Change, Plan};
use crate::names::{
    put_directory_aside, put_directory_placed, put_directory_removed, put_file_gone,
    put_file_placed,
};
use crate::rights::{put_given, put_taken};
use std::alloc::Global;
use wu_access::UserRec;
use wu_base::{NoMemory, Sequence};
use wu_tree::Event;

/// The events of a batch in an order that shows nobody more than before it or after it. The texts are
/// given between the two halves. The one error is out of memory.
///
/// The time is linear in what the batch changes, and the memory grows with the events.
pub fn plan(alloc: Global, batch: &Batch) -> Result<Plan, NoMemory>
    ensures head { IfOk result (λ plan. plan.head.items ≡ head_of batch.now) }
    ensures tail { IfOk result (λ plan. plan.tail.items ≡ tail_of batch.now) }
{
    let mut head = Vec::new(alloc);
    put_all_taken(alloc, &mut head, batch)?;
    put_all_removed(alloc, &mut head, batch)?;
    put_all_placed(alloc, &mut head, batch)?;
    let mut tail = Vec::new(alloc);
    put_all_given(alloc, &mut tail, batch)?;
    Ok(Plan { head, tail })
}

/// Whether groups change.
fn groups_change(batch: &Batch) -> bool
    ensures { result ≡ groups_change batch.now }
{
    !batch.users.is_empty()
}

/// Appends what takes rights away, and sets the groups.
fn put_all_taken(alloc: Global, events: &mut Vec<Event>, batch: &Batch) -> Result<(), NoMemory>
    ensures { OnOk result (events.new.items ≡ events.old.items ++ taken_in batch.now) }
{
    let groups_change = groups_change(batch);
    let changes = batch.changes.as_slice();
    for change in changes {
        put_taken(events, groups_change, change)?;
    }
    put_groups(alloc, events, batch.users.as_slice())
}

/// Appends what sets the groups of the users.
fn put_groups(alloc: Global, events: &mut Vec<Event>, users: &[UserRec]) -> Result<(), NoMemory>
    ensures { OnOk result (events.new.items ≡ events.old.items ++ map groups_set users.now) }
{
    for user in users {
        events.push(groups_set(alloc, user)?)?;
    }
    Ok(())
}

fn groups_set(alloc: Global, user: &UserRec) -> Result<Event, NoMemory>
    ensures { IfOk result (λ event. event ≡ groups_set user.now) }
{
    let groups = Vec::from_slice(alloc, user.groups.as_slice())?;
    Ok(Event::User {
        uid: user.uid,
        groups: Sequence::from(groups),
    })
}

/// Appends what removes the names that go: those of files first, and directories from the lowest up.
fn put_all_removed(alloc: Global, events: &mut Vec<Event>, batch: &Batch) -> Result<(), NoMemory>
    ensures { OnOk result (events.new.items ≡ events.old.items ++ removed_in batch.now) }
{
    let changes = batch.changes.as_slice();
    put_files_gone(alloc, events, changes)?;
    put_directories_aside(alloc, events, changes)?;
    put_directories_removed(events, changes)
}

fn put_files_gone(
    alloc: Global,
    events: &mut Vec<Event>,
    changes: &[Change],
) -> Result<(), NoMemory>
    ensures { OnOk result (events.new.items ≡ events.old.items ++ flat_map (λ change. file_names_gone change.kind change) changes.now) }
{
    for change in changes {
        put_file_gone(alloc, events, change)?;
    }
    Ok(())
}

fn put_directories_aside(
    alloc: Global,
    events: &mut Vec<Event>,
    changes: &[Change],
) -> Result<(), NoMemory>
    ensures { OnOk result (events.new.items ≡ events.old.items ++ flat_map (λ change. directory_set_aside change.kind change) changes.now) }
{
    for change in changes {
        put_directory_aside(alloc, events, change)?;
    }
    Ok(())
}

fn put_directories_removed(events: &mut Vec<Event>, changes: &[Change]) -> Result<(), NoMemory>
    ensures { OnOk result (events.new.items ≡ events.old.items ++ flat_map (λ change. directory_removed change.kind change) (reverse changes.now)) }
{
    for change in changes.iter().rev() {
        put_directory_removed(events, change)?;
    }
    Ok(())
}

/// Appends what places the names that come: directories from the highest down, and then files.
fn put_all_placed(alloc: Global, events: &mut Vec<Event>, batch: &Batch) -> Result<(), NoMemory>
    ensures { OnOk result (events.new.items ≡ events.old.items ++ placed_in batch.now) }
{
    let groups_change = groups_change(batch);
    let changes = batch.changes.as_slice();
    put_directories_placed(alloc, events, groups_change, changes)?;
    put_files_placed(alloc, events, groups_change, changes)
}

fn put_directories_placed(
    alloc: Global,
    events: &mut Vec<Event>,
    groups_change: bool,
    changes: &[Change],
) -> Result<(), NoMemory>
    ensures { OnOk result (events.new.items ≡ events.old.items ++ flat_map (directory_placed groups_change) changes.now) }
{
    for change in changes {
        put_directory_placed(alloc, events, groups_change, change)?;
    }
    Ok(())
}

fn put_files_placed(
    alloc: Global,
    events: &mut Vec<Event>,
    groups_change: bool,
    changes: &[Change],
) -> Result<(), NoMemory>
    ensures { OnOk result (events.new.items ≡ events.old.items ++ flat_map (file_placed groups_change) changes.now) }
{
    for change in changes {
        put_file_placed(alloc, events, groups_change, change)?;
    }
    Ok(())
}

/// Appends what gives the rights that everybody is to have.
fn put_all_given(alloc: Global, events: &mut Vec<Event>, batch: &Batch) -> Result<(), NoMemory>
    ensures { OnOk result (events.new.items ≡ events.old.items ++ tail_of batch.now) }
{
    let groups_change = groups_change(batch);
    let changes = batch.changes.as_slice();
    for change in changes {
        put_given(alloc, events, groups_change, change)?;
    }
    Ok(())
}
