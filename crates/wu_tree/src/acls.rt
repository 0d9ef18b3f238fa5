//! The access lists of nodes.
ghost use Rattle.std.specs.Prelude.{◌≡◌, ◌≤◌, true, IfOk, OnOk, OnErr, map, nat_le};
ghost use Rattle.std.specs.Ordering.{nat_cmp};
ghost use Rattle.std.specs.List.{list_all};
ghost use Rattle.std.specs.List.Sorted.{IsStrictlySortedBy};
ghost use Rattle.std.specs.Map.{keys_of};
ghost use Rattle.wu_access.specs.Access.{IsAcl};
ghost use Rattle.wu_tree.specs.FileSystems.{acl_of, is_there, node_of};
ghost use Rattle.wu_tree.specs.Lists.{acl_test, acls_left, acls_past, acls_test, ascends, entries_test, is_empty};
ghost use Rattle.wu_tree.specs.Steps.{with_acl, with_group_digit, with_mask, with_perm, without_acl};

use crate::events::Node;
use crate::trees::Tree;
use std::alloc::Global;
use std::collections::BTreeMap;
use wu_access::{Acl, AclEntry, Perm};
use wu_base::{Ino, NoMemory};

impl Tree {
    /// Gives a node an access list, with that mask.
    pub(crate) fn set_acl(&mut self, ino: Ino, acl: &Acl, mask: u8) -> Result<(), NoMemory>
        requires acl { IsAcl acl.now }
        requires mask { mask ≤ 7 }
        requires there { is_there self.old ino ≡ true }
        ensures ok { OnOk result (self.new ≡ with_acl self.old ino acl.now mask) }
        ensures err { OnErr result (self.new ≡ self.old) }
    {
        let acl = acl.copied(self.alloc)?;
        self.acls.insert(ino, acl)?;
        self.set_mask(ino, mask);
        Ok(())
    }

    /// Takes a node's access list away, if it has one. Its owning bits become the mode's group bits.
    pub(crate) fn remove_acl(&mut self, ino: Ino)
        ensures { self.new ≡ without_acl self.old ino (acl_of self.old ino) }
    {
        if let Some(acl) = self.acls.remove(&ino) {
            self.set_mask(ino, acl.owning);
        }
    }

    /// Gives a node's mode other bits of the group.
    fn set_mask(&mut self, ino: Ino, mask: u8)
        requires { mask ≤ 7 }
        ensures { self.new ≡ with_perm (with_mask mask) self.old ino (node_of self.old ino) }
    {
        if let Some(node) = self.node(ino) {
            let mode = with_group_digit(node.perm.mode, mask);
            self.set_perm(ino, Perm { mode, ..node.perm });
        }
    }
}

/// A mode with other bits of the group.
fn with_group_digit(mode: u16, digit: u8) -> u16
    requires mode { mode ≤ 0xFFF }
    requires digit { digit ≤ 7 }
    ensures mode { result ≡ with_group_digit digit mode }
    ensures low { result ≤ 0xFFF }
{
    mode / 0o100 * 0o100 + u16::from(digit) * 0o10 + mode % 0o10
}

/// Whether these access lists ascend by number, are each that of a node, and may be. The nodes ascend too.
pub(crate) fn are_acls(nodes: &[(Ino, Node)], acls: &[(Ino, Acl)]) -> bool
    ensures { result ≡ acls_test nodes.now acls.now }
{
    acls_ascend(acls) && may_be(acls) && are_of_nodes(nodes, acls)
}

/// Whether each access list is one that a node may have.
fn may_be(acls: &[(Ino, Acl)]) -> bool
    ensures { result ≡ list_all (λ acl. acl_test acl.1) acls.now }
{
    acls.iter().all(|(_, acl)| is_acl(acl))
}

fn acls_ascend(acls: &[(Ino, Acl)]) -> bool
    ensures { result ≡ ascends nat_cmp (keys_of acls.now) }
{
    acls.is_sorted_by(|acl, next| acl.0 < next.0)
}

/// Whether a node may have the access list.
fn is_acl(acl: &Acl) -> bool
    ensures { result ≡ acl_test acl.now }
{
    acl.owning <= 7 && are_entries(acl.users.as_slice()) && are_entries(acl.groups.as_slice())
}

/// Whether bits are at most 7, and the entries ascend by number.
fn are_entries(entries: &[AclEntry]) -> bool
    ensures { result ≡ entries_test entries.now }
{
    have_low_bits(entries) && entries_ascend(entries)
}

fn have_low_bits(entries: &[AclEntry]) -> bool
    ensures { result ≡ list_all (λ entry. nat_le entry.bits 7) entries.now }
{
    entries.iter().all(|entry| entry.bits <= 7)
}

fn entries_ascend(entries: &[AclEntry]) -> bool
    ensures { result ≡ ascends nat_cmp (map (λ entry. entry.id) entries.now) }
{
    entries.is_sorted_by(|entry, next| entry.id < next.id)
}

/// Whether each access list is that of a node, in one walk over both, which ascend.
fn are_of_nodes(nodes: &[(Ino, Node)], acls: &[(Ino, Acl)]) -> bool
    ensures { result ≡ is_empty (acls_left nodes.now acls.now) }
{
    let mut left = acls;
    for (ino, _) in nodes {
        left = past_node(left, *ino);
    }
    left.is_empty()
}

/// The access lists without the first, if it is that of the node.
fn past_node(acls: &[(Ino, Acl)], ino: Ino) -> &[(Ino, Acl)]
    ensures { result.now ≡ acls_past ino acls.now }
{
    match acls.split_first() {
        Some((acl, others)) if acl.0 == ino => others,
        _ => acls,
    }
}

/// The access lists by number.
pub(crate) fn acls_of(alloc: Global, acls: &[(Ino, Acl)]) -> Result<BTreeMap<Ino, Acl>, NoMemory>
    requires { IsStrictlySortedBy nat_cmp (keys_of acls.now) }
    ensures { IfOk result (λ kept. kept.entries ≡ acls.now) }
{
    let mut kept = BTreeMap::new(alloc);
    for (ino, acl) in acls {
        kept.insert(*ino, acl.copied(alloc)?)?;
    }
    Ok(kept)
}
