//! Nodes, links, users and access lists of which a tree is rebuilt.
use crate::acls::acl;
use crate::events::{name_of_word, numbers_of};
use crate::nodes::node;
use std::alloc::Global;
use wu_access::{Acl, Perm, UserRec};
use wu_base::{Bytes, Ino, NoMemory};
use wu_rows::{NoAnswer, flag_text, small_number, words};
use wu_tree::{Kind, LinkRec, Node, Tree};

/// Whether the nodes, links, users and access lists make a tree, which then stands in the place of
/// the other. Each is a list, with a comma between each two.
pub fn made(alloc: Global, tree: &mut Tree, fields: &[&str]) -> Result<String, NoAnswer> {
    match fields {
        [nodes, links, users] => made_by(alloc, tree, nodes, links, users, ""),
        [nodes, links, users, acls] => made_by(alloc, tree, nodes, links, users, acls),
        _ => Err(NoAnswer::BadRow),
    }
}

fn made_by(
    alloc: Global,
    tree: &mut Tree,
    nodes: &str,
    links: &str,
    users: &str,
    acls: &str,
) -> Result<String, NoAnswer> {
    let nodes = nodes_of(alloc, nodes)?;
    let acls = acls_of(alloc, acls)?;
    made_with(alloc, tree, nodes.as_slice(), links, users, acls.as_slice())
}

fn made_with(
    alloc: Global,
    tree: &mut Tree,
    nodes: &[(Ino, Node)],
    links: &str,
    users: &str,
    acls: &[(Ino, Acl)],
) -> Result<String, NoAnswer> {
    let users = users_of(alloc, users)?;
    let links = links_of(alloc, links)?;
    made_of(alloc, tree, nodes, links.as_slice(), users.as_slice(), acls)
}

fn made_of(
    alloc: Global,
    tree: &mut Tree,
    nodes: &[(Ino, Node)],
    links: &[LinkRec],
    users: &[UserRec],
    acls: &[(Ino, Acl)],
) -> Result<String, NoAnswer> {
    let made = put_rebuilt(alloc, tree, nodes, links, users, acls)?;
    flag_text(alloc, made)
}

/// Puts the tree that they make in the place of the other. Tells whether they make one.
fn put_rebuilt(
    alloc: Global,
    tree: &mut Tree,
    nodes: &[(Ino, Node)],
    links: &[LinkRec],
    users: &[UserRec],
    acls: &[(Ino, Acl)],
) -> Result<bool, NoMemory> {
    match Tree::rebuild(alloc, nodes, links, users, acls)? {
        Some(rebuilt) => {
            *tree = rebuilt;
            Ok(true)
        }
        None => Ok(false),
    }
}

fn nodes_of(alloc: Global, field: &str) -> Result<Vec<(Ino, Node)>, NoAnswer> {
    let mut nodes = Vec::new(alloc);
    for item in field.split(',') {
        let words = words(alloc, item)?;
        if !words.is_empty() {
            nodes.push(node(words.as_slice())?)?;
        }
    }
    Ok(nodes)
}

fn links_of(alloc: Global, field: &str) -> Result<Vec<LinkRec>, NoAnswer> {
    let mut links = Vec::new(alloc);
    for item in field.split(',') {
        let words = words(alloc, item)?;
        if !words.is_empty() {
            links.push(link(alloc, words.as_slice())?)?;
        }
    }
    Ok(links)
}

/// The link that the words spell: a directory, a name in it and what has it.
fn link(alloc: Global, words: &[&str]) -> Result<LinkRec, NoAnswer> {
    let [parent, name, child] = words else {
        return Err(NoAnswer::BadRow);
    };
    Ok(LinkRec {
        parent: small_number(parent)?,
        name: name_of_word(alloc, name)?,
        child: small_number(child)?,
    })
}

fn users_of(alloc: Global, field: &str) -> Result<Vec<UserRec>, NoAnswer> {
    let mut users = Vec::new(alloc);
    for item in field.split(',') {
        let words = words(alloc, item)?;
        if let [uid, groups @ ..] = words.as_slice() {
            users.push(UserRec {
                uid: small_number(uid)?,
                groups: numbers_of(alloc, groups)?,
            })?;
        }
    }
    Ok(users)
}

fn acls_of(alloc: Global, field: &str) -> Result<Vec<(Ino, Acl)>, NoAnswer> {
    let mut acls = Vec::new(alloc);
    for item in field.split(',') {
        let words = words(alloc, item)?;
        if !words.is_empty() {
            acls.push(acl(alloc, words.as_slice())?)?;
        }
    }
    Ok(acls)
}

/// Whether a chain of as many directories makes a tree, where each has a name of each of the
/// letters in the one before. It then stands in the place of the other.
pub fn chain_made(
    alloc: Global,
    tree: &mut Tree,
    depth: &str,
    letters: &str,
) -> Result<String, NoAnswer> {
    let depth = small_number(depth)?;
    let mut nodes = Vec::new(alloc);
    let mut links = Vec::new(alloc);
    for parent in 1..depth {
        nodes.push(directory(parent))?;
        put_links(alloc, &mut links, parent, letters)?;
    }
    nodes.push(directory(depth))?;
    made_of(alloc, tree, nodes.as_slice(), links.as_slice(), &[], &[])
}

/// Appends a link of each letter to the directory after the parent.
fn put_links(
    alloc: Global,
    links: &mut Vec<LinkRec>,
    parent: Ino,
    letters: &str,
) -> Result<(), NoAnswer> {
    for letter in letters.as_bytes() {
        links.push(LinkRec {
            parent,
            name: Bytes::from_slice(alloc, &[*letter])?,
            child: parent.saturating_add(1),
        })?;
    }
    Ok(())
}

fn directory(ino: Ino) -> (Ino, Node) {
    let perm = Perm {
        uid: 0,
        gid: 0,
        mode: 0o755,
    };
    let kind = Kind::Directory;
    (ino, Node { kind, perm })
}
