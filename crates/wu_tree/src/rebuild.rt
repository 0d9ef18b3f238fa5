//! A tree from lists of all that it is made of.
ghost use Rattle.std.specs.Prelude.{◌≡◌, true, IfOk, MatchOption, map, []};
ghost use Rattle.std.specs.Ordering.{nat_cmp};
ghost use Rattle.std.specs.List.{list_all};
ghost use Rattle.std.specs.List.Sorted.{IsStrictlySortedBy};
ghost use Rattle.std.specs.Map.{keys_of};
ghost use Rattle.wu_tree.specs.FileSystems.{is_directory, place_cmp};
ghost use Rattle.wu_tree.specs.Inodes.{file_system};
ghost use Rattle.wu_tree.specs.Lists.{ascends, first_height, hold_of, inode_of, is_less, link_of, linked_test, listed, low_test};
ghost use Rattle.wu_tree.specs.Lists.{number_test, order_test, place_test, stand_test, user_of};
ghost use Rattle.wu_tree.specs.Rules.{IsTree};

use crate::acls::{acls_of, are_acls};
use crate::events::{Kind, LinkRec, Node};
use crate::heights::{height_of, lower};
use crate::inodes::{Hold, Inode};
use crate::links::Links;
use crate::names::is_name;
use crate::tallies::{Hung, LinkedNode, tally};
use crate::trees::Tree;
use std::alloc::Global;
use std::collections::BTreeMap;
use wu_access::{Acl, UserRec};
use wu_base::{DEPTH_MAX, Gid, Ino, NoMemory, ROOT, Sequence, Uid};

impl Tree {
    /// The tree of exactly these nodes, links, users and access lists, or None where they make no tree. They make
    /// one where users ascend by number, nodes by number, links by directory and then by name, and access lists
    /// by the number of the node that has it, without repeats, and where they keep the rules: a user's groups
    /// ascend without repeats; no node has number 0, and a mode is at most 7777 octal; node 1 is a directory, and
    /// no link names it; a link stands in a directory that is there and names a node that is there, and its name
    /// is a name; any other directory has one link, and is reached from node 1 at a depth of at most 255; a file
    /// has a link; an access list is of a node that is there, its bits are at most 7, and its entries ascend by
    /// number without repeats. The only error is out of memory.
    ///
    /// The time is near linear: for each link a binary search and a look-up, for each directory and user a few, and
    /// one walk over nodes and access lists together.
    pub fn rebuild(
        alloc: Global,
        nodes: &[(Ino, Node)],
        links: &[LinkRec],
        users: &[UserRec],
        acls: &[(Ino, Acl)],
    ) -> Result<Option<Tree>, NoMemory>
        ensures { IfOk result (λ made. MatchOption made (IsTree (listed nodes.now links.now users.now acls.now) → ⊥)
            (λ tree. IsTree (listed nodes.now links.now users.now acls.now) × (tree ≡ listed nodes.now links.now users.now acls.now))) }
    {
        if !are_in_order(nodes, links, users) {
            return Ok(None);
        }
        if !are_acls(nodes, acls) {
            return Ok(None);
        }
        let Some(hung) = tally(alloc, nodes, links)? else {
            return Ok(None);
        };
        let mut inodes = inodes_of(alloc, hung.as_slice())?;
        if !are_placed(&inodes, links) {
            return Ok(None);
        }
        // Asked before the walk down: with one link to each directory it comes to none twice.
        if !are_linked(hung.as_slice()) {
            return Ok(None);
        }
        // Nothing below needs it, and it is as large as the links.
        drop(hung);
        let links = Links::from_sorted(alloc, links)?;
        // Each directory is as high as can be, until the walk comes to it.
        lower(&mut inodes, &links, ROOT, DEPTH_MAX);
        if !are_low(nodes, &inodes) {
            return Ok(None);
        }
        let users = users_of(alloc, users)?;
        let acls = acls_of(alloc, acls)?;
        Ok(Some(Tree {
            alloc,
            inodes,
            links,
            users,
            acls,
        }))
    }
}

/// Whether nodes, users, their groups and links ascend, and numbers and modes are in range.
fn are_in_order(nodes: &[(Ino, Node)], links: &[LinkRec], users: &[UserRec]) -> bool
    ensures { result ≡ order_test nodes.now links.now users.now }
{
    nodes_ascend(nodes)
        && are_numbered(nodes)
        && users_ascend(users)
        && groups_ascend(users)
        && links_ascend(links)
}

/// Whether the nodes ascend by number.
fn nodes_ascend(nodes: &[(Ino, Node)]) -> bool
    ensures { result ≡ ascends nat_cmp (keys_of nodes.now) }
{
    nodes.is_sorted_by(|node, next| node.0 < next.0)
}

/// Whether the users ascend by number.
fn users_ascend(users: &[UserRec]) -> bool
    ensures { result ≡ ascends nat_cmp (keys_of (map user_of users.now)) }
{
    users.is_sorted_by(|user, next| user.uid < next.uid)
}

/// Whether the links ascend by directory, and then by name.
fn links_ascend(links: &[LinkRec]) -> bool
    ensures { result ≡ ascends place_cmp (keys_of (map link_of links.now)) }
{
    links.is_sorted_by(|link, next| precedes(link, next))
}

/// Whether a link comes before another.
fn precedes(link: &LinkRec, next: &LinkRec) -> bool
    ensures { result ≡ is_less (place_cmp (link_of link.now).0 (link_of next.now).0) }
{
    link.parent < next.parent || link.parent == next.parent && link.name < next.name
}

/// Whether each user's groups ascend.
fn groups_ascend(users: &[UserRec]) -> bool
    ensures { result ≡ list_all (λ user. ascends nat_cmp user.groups) users.now }
{
    users
        .iter()
        .all(|user| is_ascending(user.groups.as_slice()))
}

fn is_ascending(numbers: &[Gid]) -> bool
    ensures { result ≡ ascends nat_cmp numbers.now }
{
    numbers.is_sorted_by(|number, next| *number < *next)
}

/// Whether no node has number 0 or a mode over 7777 octal.
fn are_numbered(nodes: &[(Ino, Node)]) -> bool
    ensures { result ≡ list_all number_test nodes.now }
{
    nodes
        .iter()
        .all(|(ino, node)| *ino != 0 && node.perm.mode <= 0o7777)
}

/// The nodes by number, each with what ties it to the links.
fn inodes_of(alloc: Global, nodes: &[LinkedNode]) -> Result<BTreeMap<Ino, Inode>, NoMemory>
    requires { IsStrictlySortedBy nat_cmp (map (λ n. n.ino) nodes.now) }
    ensures { IfOk result (λ inodes. inodes.entries ≡ map (λ n. (n.ino, inode_of n.hung n.node)) nodes.now) }
{
    let inodes = nodes
        .iter()
        .map(|it| (it.ino, inode(it.node, it.hung)))
        .collect(alloc)?;
    Ok(inodes)
}

/// What is kept of a node that hangs so.
fn inode(node: Node, hung: Option<Hung>) -> Inode
    ensures { result ≡ inode_of hung node }
{
    Inode {
        perm: node.perm,
        hold: hold(node.kind, hung),
        height: first_height(node.kind),
    }
}

/// What ties a node to the links that hangs so. The root counts as its own parent.
fn hold(kind: Kind, hung: Option<Hung>) -> Hold
    ensures { result ≡ hold_of kind hung }
{
    match kind {
        Kind::Directory => match hung {
            Some(hung) => Hold::Entries {
                parent: hung.parent,
            },
            None => Hold::Entries { parent: ROOT },
        },
        Kind::File => match hung {
            Some(hung) => Hold::Links { count: hung.count },
            None => Hold::Links { count: 0 },
        },
    }
}

/// The height of a node before it is known how many levels lie below it.
fn first_height(kind: Kind) -> u8
    ensures { result ≡ first_height kind }
{
    match kind {
        Kind::Directory => u8::MAX,
        Kind::File => 0,
    }
}

fn is_directory(inodes: &BTreeMap<Ino, Inode>, ino: Ino) -> bool
    ensures { result ≡ is_directory (file_system inodes.now.entries [] [] []) ino }
{
    match inodes.get(&ino) {
        Some(inode) => !inode.hold.is_file(),
        None => false,
    }
}

/// Whether there is a root, and each link stands in a directory, by a name.
fn are_placed(inodes: &BTreeMap<Ino, Inode>, links: &[LinkRec]) -> bool
    ensures { result ≡ place_test (file_system inodes.now.entries [] [] []) links.now }
{
    is_directory(inodes, ROOT) && links_stand(inodes, links)
}

/// Whether each link stands in a directory, by a name. Looks a directory up but once for all the links in it.
fn links_stand(inodes: &BTreeMap<Ino, Inode>, links: &[LinkRec]) -> bool
    requires { is_directory (file_system inodes.now.entries [] [] []) 1 ≡ true }
    ensures { result ≡ list_all (λ link. stand_test (file_system inodes.now.entries [] [] []) (link_of link)) links.now }
{
    let mut directory = ROOT;
    for link in links {
        if link.parent != directory && !is_directory(inodes, link.parent) {
            return false;
        }
        directory = link.parent;
        if !is_name(link.name.as_slice()) {
            return false;
        }
    }
    true
}

/// The users by number.
fn users_of(alloc: Global, users: &[UserRec]) -> Result<BTreeMap<Uid, UserRec>, NoMemory>
    requires { IsStrictlySortedBy nat_cmp (keys_of (map user_of users.now)) }
    ensures { IfOk result (λ kept. kept.entries ≡ map (λ user. (user.uid, user)) users.now) }
{
    let mut kept = BTreeMap::new(alloc);
    for user in users {
        kept.insert(user.uid, copy(alloc, user)?)?;
    }
    Ok(kept)
}

fn copy(alloc: Global, user: &UserRec) -> Result<UserRec, NoMemory>
    ensures { IfOk result (λ copy. copy ≡ user.now) }
{
    let groups = Vec::from_slice(alloc, user.groups.as_slice())?;
    Ok(UserRec {
        uid: user.uid,
        groups: Sequence::from(groups),
    })
}

/// Whether each node has as many links as its kind has to.
fn are_linked(nodes: &[LinkedNode]) -> bool
    ensures { result ≡ list_all (λ n. linked_test n.ino n.node.kind n.hung) nodes.now }
{
    nodes
        .iter()
        .all(|it| is_linked(it.ino, it.node.kind, it.hung))
}

/// Whether a node has as many links as its kind has to: a directory but the root one, a file any.
fn is_linked(ino: Ino, kind: Kind, hung: Option<Hung>) -> bool
    ensures { result ≡ linked_test ino kind hung }
{
    match hung {
        Some(hung) => match kind {
            Kind::Directory => ino == ROOT || hung.count == 1,
            Kind::File => true,
        },
        None => match kind {
            Kind::Directory => ino == ROOT,
            Kind::File => false,
        },
    }
}

/// Whether no directory is as high as can be: the walk down from the root came to each, and none lies too deep.
fn are_low(nodes: &[(Ino, Node)], inodes: &BTreeMap<Ino, Inode>) -> bool
    ensures { result ≡ list_all (low_test inodes.now.entries) nodes.now }
{
    nodes.iter().all(|(ino, node)| match node.kind {
        Kind::Directory => height_of(inodes, *ino) < u8::MAX,
        Kind::File => true,
    })
}
