//! Who may read a node or pass through it: the access check of POSIX.1 by owner, group and other
//! permission bits, and by access lists as acl(5) has them; user 0 passes every check.
#![tactic(auto)]

ghost use Rattle.std.specs.Prelude.{◌≡◌, ◌↔◌, ◌==◌, ◌&&◌, IsTrue, cond, find, option_copied};
ghost use Rattle.std.specs.List.{list_any};
ghost use Rattle.std.specs.Ordering.{nat_cmp};
ghost use Rattle.std.specs.List.Sorted.{IsStrictlySortedBy};
ghost use Rattle.wu_access.specs.Access.{Allows, acl_rules, class_grants, decided, group_digit, is_allowed, is_among as is_among_them, is_granted, is_in_class, other_digit};

mod acls;
mod bits;
mod laws;

pub use acls::{Acl, AclEntry};
use bits::{grants, group_digit, other_digit, owner_digit};
pub use laws::{
    check_is_decided_by_cases, masks_bound_entries, plain_acls_change_nothing,
    strangers_get_what_others_get,
};
use wu_base::{Gid, Sequence, Uid, is_among};

/// A node's owner, group and permissions.
#[derive(Clone, Copy, Debug, PartialEq, Eq)]
pub struct Perm {
    /// The owner.
    pub uid: Uid,
    /// The group.
    pub gid: Gid,
    /// The mode, up to four octal digits. From the lowest digit upwards these are the bits of others,
    /// of the group and of the owner; the fourth digit has no effect. Where the node has an access
    /// list, the group's digit is the list's mask.
    pub mode: u16,
}

/// A user and her groups.
#[derive(Clone, Debug, PartialEq, Eq, Drop)]
pub struct UserRec {
    /// The user.
    pub uid: Uid,
    /// Her groups, ascending and without repeats.
    pub groups: Sequence<Gid>,
}

/// What a user wants to do with a node.
#[derive(Clone, Copy, Debug, PartialEq, Eq)]
pub enum Want {
    /// To read a file: the bit 4 of an octal digit.
    Read,
    /// To pass through a directory: the bit 1 of an octal digit.
    Execute,
}

/// Whether the user may do that with the node, which has that access list or none. The first of these that
/// applies to her decides:
///
/// 1. User 0 may do anything.
/// 2. The owner: the owner's bits.
/// 3. Without a list, one of the node's group: the group's bits.
/// 4. With a list, one whom an entry names: that entry and the mask have to grant it.
/// 5. With a list, one of the node's group or of a group that an entry names: the mask has to grant it, and one
///    of the entries for her groups, where the owning bits are the entry of the node's group.
/// 6. Anyone else: the bits of others.
///
/// The user's groups ascend without repeats, as each tree keeps them. Takes no memory. The list's entries are
/// gone through, and each of a group is looked for among hers by halves.
#[inline(always)]
pub fn allows(user: &UserRec, node: &Perm, acl: Option<&Acl>, want: Want) -> bool
    requires { IsStrictlySortedBy nat_cmp user.now.groups }
    ensures check { result ≡ is_allowed user.now node.now (option_copied acl.entry) want }
    ensures cases { IsTrue result ↔ Allows user.now node.now (option_copied acl.entry) want }
{
    allows_by_groups(user.uid, user.groups.as_slice(), node, acl, want)
}

/// The same as [`allows`], of the user of that number who is in these groups.
#[inline(always)]
pub fn allows_by_groups(
    uid: Uid,
    groups: &[Gid],
    node: &Perm,
    acl: Option<&Acl>,
    want: Want,
) -> bool
    requires { IsStrictlySortedBy nat_cmp groups.now }
    ensures check { result ≡ is_allowed (record { uid = uid; groups = groups.now }) node.now (option_copied acl.entry) want }
{
    if uid == 0 {
        true
    } else if uid == node.uid {
        grants(owner_digit(node.mode), want)
    } else {
        match acl {
            Some(acl) => allows_by_list(uid, groups, node, acl, want),
            None => allows_by_mode(groups, node, want),
        }
    }
}

/// What the mode grants one who isn't the owner, where the node has no list. Her groups are searched only where
/// the group's bits and those of others differ in it.
#[inline(always)]
fn allows_by_mode(groups: &[Gid], node: &Perm, want: Want) -> bool
    requires { IsStrictlySortedBy nat_cmp groups.now }
    ensures { result ≡ cond (is_among_them node.now.gid groups.now) (is_granted (group_digit node.now.mode) want) (is_granted (other_digit node.now.mode) want) }
{
    let group = grants(group_digit(node.mode), want);
    let other = grants(other_digit(node.mode), want);
    if group == other || groups.is_empty() {
        other
    } else if is_among(&node.gid, groups) {
        group
    } else {
        other
    }
}

/// What the list grants one who isn't the owner.
#[inline(never)]
fn allows_by_list(uid: Uid, groups: &[Gid], node: &Perm, acl: &Acl, want: Want) -> bool
    requires { IsStrictlySortedBy nat_cmp groups.now }
    ensures { result ≡ decided (acl_rules (record { uid = uid; groups = groups.now }) node.now acl.now want) }
{
    let mask = group_digit(node.mode);
    match entry_for(acl.users.as_slice(), uid) {
        Some(entry) => grants(mask, want) && grants(u16::from(entry.bits), want),
        None => {
            if is_in_class(groups, node, acl) {
                grants(mask, want) && class_grants(groups, node, acl, want)
            } else {
                grants(other_digit(node.mode), want)
            }
        }
    }
}

/// The entry for the user.
fn entry_for(entries: &[AclEntry], uid: Uid) -> Option<&AclEntry>
    ensures { option_copied result ≡ find (λ entry. entry.id == uid) entries.now }
{
    entries.iter().find(|entry| entry.id == uid)
}

/// Whether an entry of the group class is for one of the groups: the owning group's or a named one.
fn is_in_class(groups: &[Gid], node: &Perm, acl: &Acl) -> bool
    requires { IsStrictlySortedBy nat_cmp groups.now }
    ensures { result ≡ is_in_class groups.now node.now acl.now }
{
    is_among(&node.gid, groups) || is_one_named(groups, acl.groups.as_slice())
}

/// Whether an entry is for one of the groups.
fn is_one_named(groups: &[Gid], entries: &[AclEntry]) -> bool
    requires { IsStrictlySortedBy nat_cmp groups.now }
    ensures { result ≡ list_any (λ entry. is_among_them entry.id groups.now) entries.now }
{
    entries.iter().any(|entry| is_among(&entry.id, groups))
}

/// Whether an entry of the group class that is for one of the groups grants what is wanted.
fn class_grants(groups: &[Gid], node: &Perm, acl: &Acl, want: Want) -> bool
    requires { IsStrictlySortedBy nat_cmp groups.now }
    ensures { result ≡ class_grants groups.now node.now acl.now want }
{
    is_among(&node.gid, groups) && grants(u16::from(acl.owning), want)
        || one_grants(groups, acl.groups.as_slice(), want)
}

/// Whether an entry that is for one of the groups grants what is wanted.
fn one_grants(groups: &[Gid], entries: &[AclEntry], want: Want) -> bool
    requires { IsStrictlySortedBy nat_cmp groups.now }
    ensures { result ≡ list_any (λ entry. is_among_them entry.id groups.now && is_granted entry.bits want) entries.now }
{
    entries.iter().any(|entry| is_among(&entry.id, groups) && grants(u16::from(entry.bits), want))
}
