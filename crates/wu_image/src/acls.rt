//! Reading of access lists.
ghost use Rattle.std.specs.Prelude.{◌≡◌, ◌≤◌, ℕ, List, [], ◌∷◌, IfOk, IfSome, IfNone};
ghost use Rattle.std.specs.List.{AllByRecursion};
ghost use Rattle.wu_access.specs.declared.acls.Acl.{Acl};
ghost use Rattle.wu_access.specs.declared.acls.AclEntry.{AclEntry};
ghost use Rattle.wu_image.specs.Items.{Item, Number, StartsWith, list_items};
ghost use Rattle.wu_image.specs.Checkpoints.{CanTell, acl_entry_items, acl_items, acl_section};
ghost use Rattle.wu_image.specs.Reading.{FitsAcl, FitsEntry};

use crate::checkpoints::Version;
use crate::fields::{next_id, next_number};
use std::alloc::Global;
use wu_access::{Acl, AclEntry};
use wu_base::{Ino, NoMemory, Sequence};

/// The access lists that the bytes start with in that version, and the rest: in the first version none, and in the
/// second those that stand after their number. `None` exactly where they start with none such. Takes memory only
/// for lists that the bytes were found to hold; so do the others here.
pub(crate) fn take_acls(
    alloc: Global,
    version: Version,
    bytes: &[u8],
) -> Result<Option<(Vec<(Ino, Acl)>, &[u8])>, NoMemory>
    ensures found { IfOk result (λ taken. IfSome taken (λ next. AllByRecursion FitsAcl next.0.items × CanTell version next.0.items
        × StartsWith bytes.now (acl_section version next.0.items) next.1.now)) }
    ensures none { IfOk result (λ taken. IfNone taken ((acls : List (ℕ × Acl)) (rest : List ℕ) → AllByRecursion FitsAcl acls
        → StartsWith bytes.now (acl_section version acls) rest → ⊥)) }
{
    match version {
        Version::First => Ok(Some((Vec::new(alloc), bytes))),
        Version::Second => take_list(alloc, bytes),
    }
}

/// The access lists that the bytes start with, after their number, and the rest.
fn take_list(alloc: Global, bytes: &[u8]) -> Result<Option<(Vec<(Ino, Acl)>, &[u8])>, NoMemory>
    ensures found { IfOk result (λ taken. IfSome taken (λ next. AllByRecursion FitsAcl next.0.items
        × StartsWith bytes.now (list_items acl_items next.0.items) next.1.now)) }
    ensures none { IfOk result (λ taken. IfNone taken ((acls : List (ℕ × Acl)) (rest : List ℕ) → AllByRecursion FitsAcl acls
        → StartsWith bytes.now (list_items acl_items acls) rest → ⊥)) }
{
    let Some((count, after)) = next_number(bytes) else {
        return Ok(None);
    };
    let mut acls = Vec::new(alloc);
    let mut rest = after;
    for _ in 0..count {
        let (acl, left) = match take_acl(alloc, rest)? {
            Some(taken) => taken,
            None => return Ok(None),
        };
        acls.push(acl)?;
        rest = left;
    }
    Ok(Some((acls, rest)))
}

/// The access list that the bytes start with, with the number of its node, and the rest.
fn take_acl(alloc: Global, bytes: &[u8]) -> Result<Option<((Ino, Acl), &[u8])>, NoMemory>
    ensures found { IfOk result (λ taken. IfSome taken (λ next. FitsAcl next.0 × StartsWith bytes.now (acl_items next.0) next.1.now)) }
    ensures none { IfOk result (λ taken. IfNone taken ((acl : ℕ × Acl) (rest : List ℕ) → FitsAcl acl
        → StartsWith bytes.now (acl_items acl) rest → ⊥)) }
{
    let Some((ino, rest)) = next_id(bytes) else {
        return Ok(None);
    };
    let Some((owning, rest)) = next_bits(rest) else {
        return Ok(None);
    };
    let (users, rest) = match take_entries(alloc, rest)? {
        Some(taken) => taken,
        None => return Ok(None),
    };
    let (groups, rest) = match take_entries(alloc, rest)? {
        Some(taken) => taken,
        None => return Ok(None),
    };
    let acl = Acl {
        owning,
        users: Sequence::from(users),
        groups: Sequence::from(groups),
    };
    Ok(Some(((ino, acl), rest)))
}

/// The entries that the bytes start with, after their number, and the rest.
fn take_entries(alloc: Global, bytes: &[u8]) -> Result<Option<(Vec<AclEntry>, &[u8])>, NoMemory>
    ensures found { IfOk result (λ taken. IfSome taken (λ next. AllByRecursion FitsEntry next.0.items
        × StartsWith bytes.now (list_items acl_entry_items next.0.items) next.1.now)) }
    ensures none { IfOk result (λ taken. IfNone taken ((entries : List AclEntry) (rest : List ℕ) → AllByRecursion FitsEntry entries
        → StartsWith bytes.now (list_items acl_entry_items entries) rest → ⊥)) }
{
    let Some((count, after)) = next_number(bytes) else {
        return Ok(None);
    };
    let mut entries = Vec::new(alloc);
    let mut rest = after;
    for _ in 0..count {
        let Some((entry, left)) = take_entry(rest) else {
            return Ok(None);
        };
        entries.push(entry)?;
        rest = left;
    }
    Ok(Some((entries, rest)))
}

/// The entry that the bytes start with, and the rest.
fn take_entry(bytes: &[u8]) -> Option<(AclEntry, &[u8])>
    ensures found { IfSome result (λ next. FitsEntry next.0 × StartsWith bytes.now (acl_entry_items next.0) next.1.now) }
    ensures none { IfNone result ((entry : AclEntry) (rest : List ℕ) → FitsEntry entry
        → StartsWith bytes.now (acl_entry_items entry) rest → ⊥) }
{
    let Some((id, rest)) = next_id(bytes) else {
        return None;
    };
    let Some((bits, rest)) = next_bits(rest) else {
        return None;
    };
    Some((AclEntry { id, bits }, rest))
}

/// The bits that the bytes start with, and the rest. `None` exactly where they start with no number of at most 7.
fn next_bits(bytes: &[u8]) -> Option<(u8, &[u8])>
    ensures found { IfSome result (λ next. (next.0 ≤ 7) × StartsWith bytes.now (Number next.0 ∷ []) next.1.now) }
    ensures none { IfNone result ((bits : ℕ) (items : List Item) (rest : List ℕ) → bits ≤ 7
        → StartsWith bytes.now (Number bits ∷ items) rest → ⊥) }
{
    let Some((number, rest)) = next_number(bytes) else {
        return None;
    };
    if number <= 7 {
        Some((number as u8, rest))
    } else {
        None
    }
}
