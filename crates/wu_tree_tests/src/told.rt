//! What a tree tells.
use std::alloc::Global;
use wu_access::UserRec;
use wu_base::Ino;
use wu_rows::{NoAnswer, flag_text, number_text, plain_text, shown, small_number};
use wu_tree::Tree;
use wu_tree_rows::{acl_of, all_acls, name_of_word, node_text, put_item};

/// What the tree tells at the call.
pub fn answered(
    alloc: Global,
    tree: &Tree,
    call: &str,
    arguments: &[&str],
) -> Result<String, NoAnswer> {
    match arguments {
        [] => of_all(alloc, tree, call),
        [of] => of_one(alloc, tree, call, of),
        [dir, of] => of_name(alloc, tree, call, small_number(dir)?, of),
        _ => Err(NoAnswer::BadRow),
    }
}

fn of_all(alloc: Global, tree: &Tree, call: &str) -> Result<String, NoAnswer> {
    match call {
        "nodes" => all_nodes(alloc, tree),
        "file_count" => number_text(alloc, tree.file_count()),
        "acls" => all_acls(alloc, tree),
        "users" => all_users(alloc, tree),
        _ => Err(NoAnswer::BadRow),
    }
}

fn of_one(alloc: Global, tree: &Tree, call: &str, of: &str) -> Result<String, NoAnswer> {
    let number = small_number(of)?;
    match call {
        "node" => node(alloc, tree, number),
        "node_at" => node_at(alloc, tree, number as usize),
        "acl_of" => acl_of(alloc, tree, number),
        "names" => all_names(alloc, tree, number),
        "entries" => flag_text(alloc, tree.entries(number).is_some()),
        "user_at" => user_at(alloc, tree, number as usize),
        "groups_of" => groups_text(alloc, tree.groups_of(number)),
        _ => Err(NoAnswer::BadRow),
    }
}

fn of_name(alloc: Global, tree: &Tree, call: &str, dir: Ino, of: &str) -> Result<String, NoAnswer> {
    match call {
        "entry" => entry(alloc, tree, dir, small_number(of)? as usize),
        "child" => child(alloc, tree, dir, of),
        _ => Err(NoAnswer::BadRow),
    }
}

fn node(alloc: Global, tree: &Tree, ino: Ino) -> Result<String, NoAnswer> {
    match tree.node(ino) {
        Some(node) => node_text(alloc, ino, &node),
        None => plain_text(alloc, "none"),
    }
}

fn node_at(alloc: Global, tree: &Tree, place: usize) -> Result<String, NoAnswer> {
    match tree.node_at(place) {
        Some((ino, node)) => node_text(alloc, ino, &node),
        None => plain_text(alloc, "none"),
    }
}

fn all_nodes(alloc: Global, tree: &Tree) -> Result<String, NoAnswer> {
    let mut text = String::new(alloc);
    for (ino, node) in tree.nodes() {
        put_item(&mut text, node_text(alloc, ino, &node)?.as_str())?;
    }
    Ok(text)
}

fn all_names(alloc: Global, tree: &Tree, dir: Ino) -> Result<String, NoAnswer> {
    let mut text = String::new(alloc);
    for (name, child) in tree.names(dir) {
        put_item(&mut text, name_text(alloc, name, child)?.as_str())?;
    }
    Ok(text)
}

fn entry(alloc: Global, tree: &Tree, dir: Ino, place: usize) -> Result<String, NoAnswer> {
    match tree.entry(dir, place) {
        Some((name, child)) => name_text(alloc, name, child),
        None => plain_text(alloc, "none"),
    }
}

fn child(alloc: Global, tree: &Tree, dir: Ino, name: &str) -> Result<String, NoAnswer> {
    let name = name_of_word(alloc, name)?;
    match tree.child(dir, name.as_slice()) {
        Some(child) => number_text(alloc, u64::from(child)),
        None => plain_text(alloc, "none"),
    }
}

fn name_text(alloc: Global, name: &[u8], child: Ino) -> Result<String, NoAnswer> {
    let mut line = Vec::from_slice(alloc, name)?;
    line.push(b'\n')?;
    let name = shown(alloc, line.as_slice())?;
    Ok(format!(in alloc; "{name} {child}")?)
}

fn user_at(alloc: Global, tree: &Tree, place: usize) -> Result<String, NoAnswer> {
    match tree.user_at(place) {
        Some(user) => user_text(alloc, user),
        None => plain_text(alloc, "none"),
    }
}

fn all_users(alloc: Global, tree: &Tree) -> Result<String, NoAnswer> {
    let mut text = String::new(alloc);
    for user in tree.users() {
        put_item(&mut text, user_text(alloc, user)?.as_str())?;
    }
    Ok(text)
}

fn user_text(alloc: Global, user: &UserRec) -> Result<String, NoAnswer> {
    let groups = groups_text(alloc, user.groups.as_slice())?;
    Ok(format!(in alloc; "{} {groups}", user.uid)?)
}

fn groups_text(alloc: Global, groups: &[u32]) -> Result<String, NoAnswer> {
    Ok(format!(in alloc; "{groups:?}")?)
}
