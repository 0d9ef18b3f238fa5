//! Reading of users, links and parts.
ghost use Rattle.std.specs.Prelude.{◌+◌, ◌^◌, ◌<◌, ◌≤◌, ℕ, List, MatchBool, IfOk, IfSome, IfNone, map};
ghost use Rattle.std.specs.List.{AllByRecursion};
ghost use Rattle.wu_base.specs.declared.addresses.PartRec.{PartRec};
ghost use Rattle.wu_tree.specs.FileSystems.{Link};
ghost use Rattle.wu_tree.specs.Lists.{link_of, user_of};
ghost use Rattle.wu_image.specs.Items.{StartsWith, list_items};
ghost use Rattle.wu_image.specs.Checkpoints.{group_items, link_items, part_items, user_items};
ghost use Rattle.wu_image.specs.Reading.{FitsPart};

use crate::fields::{next_id, next_name, next_number, next_numbers};
use std::alloc::Global;
use wu_access::UserRec;
use wu_base::{Bytes, Gid, NoMemory, PartRec, Sequence};
use wu_tree::LinkRec;

/// The users that the bytes start with, after their number, and the rest. `None` exactly where they start
/// with none such. Takes memory only for users that the bytes were found to hold; so do the others here.
pub(crate) fn take_users(
    alloc: Global,
    bytes: &[u8],
) -> Result<Option<(Vec<UserRec>, &[u8])>, NoMemory>
    ensures found { IfOk result (λ taken. IfSome taken (λ next.
        StartsWith bytes.now (list_items user_items (map user_of next.0.items)) next.1.now)) }
    ensures none { IfOk result (λ taken. IfNone taken ((users : List (ℕ × List ℕ)) (rest : List ℕ)
        → StartsWith bytes.now (list_items user_items users) rest → ⊥)) }
{
    let Some((count, after)) = next_number(bytes) else {
        return Ok(None);
    };
    let mut users = Vec::new(alloc);
    let mut rest = after;
    for _ in 0..count {
        let (user, left) = match take_user(alloc, rest)? {
            Some(taken) => taken,
            None => return Ok(None),
        };
        users.push(user)?;
        rest = left;
    }
    Ok(Some((users, rest)))
}

/// The user that the bytes start with, and the rest.
fn take_user(alloc: Global, bytes: &[u8]) -> Result<Option<(UserRec, &[u8])>, NoMemory>
    ensures found { IfOk result (λ taken. IfSome taken (λ next. StartsWith bytes.now (user_items (user_of next.0)) next.1.now)) }
    ensures none { IfOk result (λ taken. IfNone taken ((user : ℕ × List ℕ) (rest : List ℕ)
        → StartsWith bytes.now (user_items user) rest → ⊥)) }
{
    let Some((uid, rest)) = next_id(bytes) else {
        return Ok(None);
    };
    let (groups, rest) = match take_groups(alloc, rest)? {
        Some(taken) => taken,
        None => return Ok(None),
    };
    let user = UserRec {
        uid,
        groups: Sequence::from(groups),
    };
    Ok(Some((user, rest)))
}

/// The groups that the bytes start with, after their number, and the rest.
fn take_groups(alloc: Global, bytes: &[u8]) -> Result<Option<(Vec<Gid>, &[u8])>, NoMemory>
    ensures found { IfOk result (λ taken. IfSome taken (λ next. StartsWith bytes.now (list_items group_items next.0.items) next.1.now)) }
    ensures none { IfOk result (λ taken. IfNone taken ((groups : List ℕ) (rest : List ℕ)
        → StartsWith bytes.now (list_items group_items groups) rest → ⊥)) }
{
    let Some((count, after)) = next_number(bytes) else {
        return Ok(None);
    };
    let mut groups = Vec::new(alloc);
    let mut rest = after;
    for _ in 0..count {
        let Some((group, left)) = next_id(rest) else {
            return Ok(None);
        };
        groups.push(group)?;
        rest = left;
    }
    Ok(Some((groups, rest)))
}

/// The links that the bytes start with, after their number, and the rest.
pub(crate) fn take_links(
    alloc: Global,
    bytes: &[u8],
) -> Result<Option<(Vec<LinkRec>, &[u8])>, NoMemory>
    ensures found { IfOk result (λ taken. IfSome taken (λ next.
        StartsWith bytes.now (list_items link_items (map link_of next.0.items)) next.1.now)) }
    ensures none { IfOk result (λ taken. IfNone taken ((links : List Link) (rest : List ℕ)
        → StartsWith bytes.now (list_items link_items links) rest → ⊥)) }
{
    let Some((count, after)) = next_number(bytes) else {
        return Ok(None);
    };
    let mut links = Vec::new(alloc);
    let mut rest = after;
    for _ in 0..count {
        let (link, left) = match take_link(alloc, rest)? {
            Some(taken) => taken,
            None => return Ok(None),
        };
        links.push(link)?;
        rest = left;
    }
    Ok(Some((links, rest)))
}

/// The link that the bytes start with, and the rest.
fn take_link(alloc: Global, bytes: &[u8]) -> Result<Option<(LinkRec, &[u8])>, NoMemory>
    ensures found { IfOk result (λ taken. IfSome taken (λ next. StartsWith bytes.now (link_items (link_of next.0)) next.1.now)) }
    ensures none { IfOk result (λ taken. IfNone taken ((link : Link) (rest : List ℕ) → StartsWith bytes.now (link_items link) rest → ⊥)) }
{
    let Some((parent, rest)) = next_id(bytes) else {
        return Ok(None);
    };
    let Some((name, rest)) = next_name(rest) else {
        return Ok(None);
    };
    let Some((child, rest)) = next_id(rest) else {
        return Ok(None);
    };
    let link = LinkRec {
        parent,
        name: Bytes::from_slice(alloc, name)?,
        child,
    };
    Ok(Some((link, rest)))
}

/// The parts that the bytes start with, after their number, and the rest.
pub(crate) fn take_parts(
    alloc: Global,
    bytes: &[u8],
) -> Result<Option<(Vec<PartRec>, &[u8])>, NoMemory>
    ensures found { IfOk result (λ taken. IfSome taken (λ next. AllByRecursion FitsPart next.0.items
        × StartsWith bytes.now (list_items part_items next.0.items) next.1.now)) }
    ensures none { IfOk result (λ taken. IfNone taken ((parts : List PartRec) (rest : List ℕ) → AllByRecursion FitsPart parts
        → StartsWith bytes.now (list_items part_items parts) rest → ⊥)) }
{
    let Some((count, after)) = next_number(bytes) else {
        return Ok(None);
    };
    let mut parts = Vec::new(alloc);
    let mut rest = after;
    for _ in 0..count {
        let Some((part, left)) = take_part(rest) else {
            return Ok(None);
        };
        parts.push(part)?;
        rest = left;
    }
    Ok(Some((parts, rest)))
}

/// The part that the bytes start with, and the rest.
fn take_part(bytes: &[u8]) -> Option<(PartRec, &[u8])>
    ensures found { IfSome result (λ next. FitsPart next.0 × StartsWith bytes.now (part_items next.0) next.1.now) }
    ensures none { IfNone result ((part : PartRec) (rest : List ℕ) → FitsPart part → StartsWith bytes.now (part_items part) rest → ⊥) }
{
    let mut numbers = [0; 6];
    let Some(rest) = next_numbers(bytes, &mut numbers) else {
        return None;
    };
    let [blob, size, generation, low, span, stored] = numbers;
    if generation > u64::from(u32::MAX) {
        return None;
    }
    if !has_end(low, span) {
        return None;
    }
    let part = PartRec {
        blob,
        size,
        generation: generation as u32,
        low,
        high: low + span,
        stored,
    };
    Some((part, rest))
}

/// Whether the address so far above the lowest is one of 64 bits.
fn has_end(low: u64, span: u64) -> bool
    ensures { MatchBool result (low + span < 2 ^ 64) (2 ^ 64 ≤ low + span) }
{
    span <= u64::MAX - low
}
