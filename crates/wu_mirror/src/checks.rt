//! What a batch has to keep so that it can be planned.
ghost use Rattle.std.specs.Prelude.{◌≡◌, ◌⊎◌, ◌||◌, IfNone, IfOk, IfSome, IsSorted, None, Some, cond, map, nat_eq};
ghost use Rattle.std.specs.Ordering.{nat_cmp};
ghost use Rattle.std.specs.List.{IsDistinct, list_all, list_any};
ghost use Rattle.wu_tree.specs.FileSystems.{are_name_bytes, is_dots as dots_test, is_name as name_test, is_name_length};
ghost use Rattle.std.specs.BTreeSet.{contains};
ghost use Rattle.wu_mirror.specs.Acceptance.{AreInOrder, stands_at};
ghost use Rattle.wu_mirror.specs.Moments.{AreApart, is_told};
ghost use Rattle.wu_mirror.specs.Plans.{is_empty};
ghost use Rattle.wu_mirror.specs.Faults.{fault_of, fault_of_names as names_fault, fault_of_root as root_fault, first_below, first_fault, is_below as below_test, is_named, is_place, may_have_text, IsMisfitOf, IsTwice};
ghost use Rattle.wu_mirror.specs.declared.checks.Fault.TheVariants.{NameTwice, NumberTwice, UserTwice};
ghost use Rattle.wu_mirror.specs.Misfits.{Fits};

use crate::batches::{Batch, CLOSED, Change, Fate, Place};
use std::alloc::Global;
use std::collections::BTreeSet;
use thiserror::Error;
use wu_access::UserRec;
use wu_base::{Ino, NAME_MAX, NoMemory, ROOT, Uid};
use wu_tree::Kind;

/// Why a batch can't be planned.
#[derive(Clone, Copy, Debug, PartialEq, Eq, Error)]
pub enum Fault {
    /// The number is 0, or the closed directory's.
    #[error("a number that no node of a batch has")]
    Reserved,
    /// The root is made, goes, is a file, or has a name.
    #[error("the root has no name, and stays")]
    Root,
    /// The node is made without a name, keeps none, or goes with one.
    #[error("a node without a name, or one that goes and keeps one")]
    Unnamed,
    /// A directory has more than one name, before the batch or after it.
    #[error("a directory with two names")]
    ManyNames,
    /// A directory is given a text, or a node that goes.
    #[error("a text where no file is")]
    Text,
    /// A name is none that a node may have, or stands in the closed directory.
    #[error("not a file name, or in the closed directory")]
    Name,
    /// Another change has the same number.
    #[error("a number twice")]
    NumberTwice,
    /// The name goes twice, or comes twice.
    #[error("a name twice")]
    NameTwice,
    /// The directory stands before that in which it stands, or below itself.
    #[error("a directory before the one in which it stands, or below itself")]
    Order,
    /// Groups change, and the root isn't among the changes.
    #[error("groups change, and the root isn't in the batch")]
    OpenRoot,
    /// The user is there twice; the number is hers.
    #[error("a user twice")]
    UserTwice,
}

/// What is wrong in a batch, and the number of the node or user that it is wrong of.
#[derive(Clone, Copy, Debug, PartialEq, Eq)]
pub struct Misfit {
    /// The node, or the user.
    pub number: u32,
    /// What is wrong.
    pub fault: Fault,
}

/// What is wrong in the batch, if anything is: the first fault of one change by itself, then a user
/// that is there twice, then a root that is missing where groups change, and then what is wrong of
/// several changes. The one error is out of memory. The time is that of sorting numbers and names.
pub fn find_misfit(alloc: Global, batch: &Batch) -> Result<Option<Misfit>, NoMemory>
    ensures none { IfOk result (λ found. IfNone found (Fits batch.now)) }
    ensures some { IfOk result (λ found. IfSome found (IsMisfitOf batch.now)) }
{
    let changes = batch.changes.as_slice();
    if let Some(found) = change_misfit(changes) {
        return Ok(Some(found));
    }
    if let Some(found) = user_misfit(alloc, batch.users.as_slice())? {
        return Ok(Some(found));
    }
    if !keeps_root(batch) {
        return Ok(Some(Misfit {
            number: ROOT,
            fault: Fault::OpenRoot,
        }));
    }
    if let Some(found) = number_misfit(alloc, changes)? {
        return Ok(Some(found));
    }
    name_misfit(alloc, changes)
}

fn fault_at(change: &Change, fault: Fault) -> Misfit
    ensures number { result.number ≡ change.now.ino }
    ensures fault { result.fault ≡ fault }
{
    Misfit {
        number: change.ino,
        fault,
    }
}

/// Whether no groups change, or the root is among the changes.
fn keeps_root(batch: &Batch) -> bool
    ensures { result ≡ (is_empty batch.now.users || is_told batch.now.changes 1) }
{
    batch.users.is_empty() || has_root(batch.changes.as_slice())
}

/// Whether the root is among the changes.
fn has_root(changes: &[Change]) -> bool
    ensures { result ≡ is_told changes.now 1 }
{
    changes.iter().any(|change| change.ino == ROOT)
}

/// The first change in which something is wrong by itself, and what is.
fn change_misfit(changes: &[Change]) -> Option<Misfit>
    ensures { result ≡ first_fault changes.now }
{
    for change in changes {
        if let Some(fault) = fault_in(change) {
            return Some(fault_at(change, fault));
        }
    }
    None
}

/// What is wrong in one change by itself.
fn fault_in(change: &Change) -> Option<Fault>
    ensures { result ≡ fault_of change.now }
{
    if change.ino == 0 || change.ino == CLOSED {
        return Some(Fault::Reserved);
    }
    if change.has_new_text && !may_have_text(change.kind, &change.fate) {
        return Some(Fault::Text);
    }
    if !are_names(change.going.as_slice()) || !are_names(change.coming.as_slice()) {
        return Some(Fault::Name);
    }
    if change.ino == ROOT {
        return fault_of_root(change);
    }
    fault_of_names(
        change.kind,
        &change.fate,
        change.going.len(),
        change.coming.len(),
    )
}

/// Whether the node can be given a text: it is a file that is there after the batch.
fn may_have_text(kind: Kind, fate: &Fate) -> bool
    ensures { result ≡ may_have_text kind fate.now }
{
    match (kind, fate) {
        (Kind::File, Fate::Stays { .. } | Fate::Made { .. }) => true,
        (Kind::File, Fate::Goes) | (Kind::Directory, _) => false,
    }
}

/// What is wrong in a change of the root.
fn fault_of_root(change: &Change) -> Option<Fault>
    ensures { result ≡ root_fault change.now }
{
    match (change.kind, &change.fate) {
        (Kind::Directory, Fate::Stays { .. })
            if change.going.is_empty() && change.coming.is_empty() => None,
        _ => Some(Fault::Root),
    }
}

/// What is wrong in the number of names of a node other than the root.
fn fault_of_names(kind: Kind, fate: &Fate, going: usize, coming: usize) -> Option<Fault>
    ensures { result ≡ names_fault kind fate.now going coming }
{
    match kind {
        Kind::Directory if going > 1 || coming > 1 => Some(Fault::ManyNames),
        _ if is_named(kind, fate, going, coming) => None,
        _ => Some(Fault::Unnamed),
    }
}

/// Whether so many names go and come of a node of that fate.
fn is_named(kind: Kind, fate: &Fate, going: usize, coming: usize) -> bool
    ensures { result ≡ is_named kind fate.now going coming }
{
    match fate {
        Fate::Stays {
            has_other_name: true,
            ..
        } => match kind {
            Kind::Directory => going == 0 && coming == 0,
            Kind::File => true,
        },
        Fate::Stays { .. } => going > 0 && coming > 0,
        Fate::Made { .. } => going == 0 && coming > 0,
        Fate::Goes => going > 0 && coming == 0,
    }
}

/// Whether each place has a name that a node may have, and is in another directory than the closed one.
fn are_names(places: &[Place]) -> bool
    ensures { result ≡ list_all is_place places.now }
{
    places.iter().all(|place| is_place(place))
}

fn is_place(place: &Place) -> bool
    ensures { result ≡ is_place place.now }
{
    place.parent != CLOSED && place.parent != 0 && is_name(place.name.as_slice())
}

/// Whether the bytes are a name: 1 to NAME_MAX of them, none of them `/` or NUL, and neither `.` nor `..`.
fn is_name(name: &[u8]) -> bool
    ensures { result ≡ name_test name.now }
{
    has_name_length(name) && has_name_bytes(name) && !is_dots(name)
}

fn has_name_length(name: &[u8]) -> bool
    ensures { result ≡ is_name_length name.now }
{
    0 < name.len() && name.len() <= NAME_MAX
}

fn has_name_bytes(name: &[u8]) -> bool
    ensures { result ≡ are_name_bytes name.now }
{
    name.iter().all(|byte| *byte != b'/' && *byte != 0)
}

fn is_dots(name: &[u8]) -> bool
    ensures { result ≡ dots_test name.now }
{
    name == b".".as_slice() || name == b"..".as_slice()
}

/// The user that is there twice.
fn user_misfit(alloc: Global, users: &[UserRec]) -> Result<Option<Misfit>, NoMemory>
    ensures none { IfOk result (λ found. IfNone found (IsDistinct nat_eq (map (λ user. user.uid) users.now))) }
    ensures some { IfOk result (λ found. IfSome found (λ misfit.
        (misfit.fault ≡ UserTwice) × IsTwice misfit.number (map (λ user. user.uid) users.now))) }
{
    let mut numbers = uids_of(alloc, users)?;
    numbers.sort()?;
    match doubled(numbers.as_slice()) {
        Some(number) => Ok(Some(Misfit {
            number,
            fault: Fault::UserTwice,
        })),
        None => Ok(None),
    }
}

fn uids_of(alloc: Global, users: &[UserRec]) -> Result<Vec<Uid>, NoMemory>
    ensures { IfOk result (λ numbers. numbers.items ≡ map (λ user. user.uid) users.now) }
{
    let mut numbers: Vec<Uid> = Vec::new(alloc);
    for user in users {
        numbers.push(user.uid)?;
    }
    Ok(numbers)
}

/// Of numbers that ascend the first that stands there twice.
fn doubled(numbers: &[u32]) -> Option<u32>
    ensures none { IfNone result (IsSorted nat_cmp numbers.now → IsDistinct nat_eq numbers.now) }
    ensures some { IfSome result (λ number. IsTwice number numbers.now) }
{
    for place in 1..numbers.len() {
        if numbers[place - 1] == numbers[place] {
            return Some(numbers[place]);
        }
    }
    None
}

/// The number that is there twice, or the directory that stands before that in which it stands.
fn number_misfit(alloc: Global, changes: &[Change]) -> Result<Option<Misfit>, NoMemory>
    ensures none { IfOk result (λ found. IfNone found (AreApart changes.now)) }
    ensures some { IfOk result (λ found. IfSome found (λ misfit.
        ((misfit.fault ≡ NumberTwice) × IsTwice misfit.number (map (λ change. change.ino) changes.now)) ⊎ (first_below changes.now ≡ Some misfit))) }
    ensures order { IfOk result (λ found. IfNone found (AreInOrder changes.now)) }
{
    if let Some(number) = doubled_number(alloc, changes)? {
        return Ok(Some(Misfit {
            number,
            fault: Fault::NumberTwice,
        }));
    }
    order_misfit(alloc, changes)
}

/// The number that is there twice.
fn doubled_number(alloc: Global, changes: &[Change]) -> Result<Option<Ino>, NoMemory>
    ensures none { IfOk result (λ found. IfNone found (IsDistinct nat_eq (map (λ change. change.ino) changes.now))) }
    ensures some { IfOk result (λ found. IfSome found (λ number. IsTwice number (map (λ change. change.ino) changes.now))) }
{
    let mut numbers = numbers_of(alloc, changes)?;
    numbers.sort()?;
    Ok(doubled(numbers.as_slice()))
}

fn numbers_of(alloc: Global, changes: &[Change]) -> Result<Vec<Ino>, NoMemory>
    ensures { IfOk result (λ numbers. numbers.items ≡ map (λ change. change.ino) changes.now) }
{
    let mut numbers: Vec<Ino> = Vec::new(alloc);
    for change in changes {
        numbers.push(change.ino)?;
    }
    Ok(numbers)
}

/// The first directory that stands before that in which it stands, or below itself. The changes are walked from
/// the last to the first.
fn order_misfit(alloc: Global, changes: &[Change]) -> Result<Option<Misfit>, NoMemory>
    ensures { IfOk result (λ found. found ≡ first_below changes.now) }
{
    let mut behind: BTreeSet<Ino> = BTreeSet::new(alloc);
    let mut found = None;
    for back in 0..changes.len() {
        let change = &changes[changes.len() - 1 - back];
        behind.insert(change.ino)?;
        let is_out = is_below(&behind, change);
        found = first_of(is_out, fault_at(change, Fault::Order), found);
    }
    Ok(found)
}

fn first_of(is_first: bool, first: Misfit, other: Option<Misfit>) -> Option<Misfit>
    ensures { result ≡ cond is_first (Some first) other }
{
    if is_first { Some(first) } else { other }
}

/// Whether the change is of a directory that comes to stand, or stood where it goes, in one of these nodes.
fn is_below(nodes: &BTreeSet<Ino>, change: &Change) -> bool
    ensures { result ≡ below_test (λ ino. contains nat_cmp nodes.now ino) change.now }
{
    match change.kind {
        Kind::Directory => stand_in(nodes, places_of(change)),
        Kind::File => false,
    }
}

/// The places at which the node of the change stands: those that go where it goes, and else those that come.
fn places_of(change: &Change) -> &[Place]
    ensures { result.now ≡ stands_at change.now.fate change.now.going change.now.coming }
{
    match &change.fate {
        Fate::Goes => change.going.as_slice(),
        Fate::Stays { .. } | Fate::Made { .. } => change.coming.as_slice(),
    }
}

/// Whether one of the places is in one of these nodes.
fn stand_in(nodes: &BTreeSet<Ino>, places: &[Place]) -> bool
    ensures { result ≡ list_any (λ place. contains nat_cmp nodes.now place.parent) places.now }
{
    places.iter().any(|place| nodes.contains(&place.parent))
}

/// A name in a directory, and the node that it names.
type Named<'a> = (Ino, &'a [u8], Ino);

/// The node of which a name goes or comes that goes or comes twice.
fn name_misfit(alloc: Global, changes: &[Change]) -> Result<Option<Misfit>, NoMemory>
    ensures { IfOk result (λ found. IfSome found (λ misfit. misfit.fault ≡ NameTwice)) }
{
    let mut going = Vec::new(alloc);
    let mut coming = Vec::new(alloc);
    for change in changes {
        put_names(&mut going, change.ino, change.going.as_slice())?;
        put_names(&mut coming, change.ino, change.coming.as_slice())?;
    }
    if let Some(found) = doubled_name(&mut going)? {
        return Ok(Some(found));
    }
    doubled_name(&mut coming)
}

fn put_names<'a>(
    names: &mut Vec<Named<'a>>,
    ino: Ino,
    places: &'a [Place],
) -> Result<(), NoMemory> {
    for place in places {
        names.push((place.parent, place.name.as_slice(), ino))?;
    }
    Ok(())
}

/// The node that has a name that is there twice.
fn doubled_name(names: &mut Vec<Named>) -> Result<Option<Misfit>, NoMemory>
    ensures { IfOk result (λ found. IfSome found (λ misfit. misfit.fault ≡ NameTwice)) }
{
    names.sort()?;
    let pair = names
        .windows(2)
        .find(|pair| pair[0].0 == pair[1].0 && pair[0].1 == pair[1].1);
    match pair {
        Some([_, (_, _, number)]) => Ok(Some(Misfit {
            number: *number,
            fault: Fault::NameTwice,
        })),
        _ => Ok(None),
    }
}
