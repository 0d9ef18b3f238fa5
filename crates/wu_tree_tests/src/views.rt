//! What a user sees, and what her view tells that is kept without its paths.
use std::alloc::Global;
use wu_base::{Bytes, Ino, Uid};
use wu_rows::{NoAnswer, flag_text, number, optional_text, plain_text, shown, small_number};
use wu_tree::Tree;
use wu_view::{Seen, View, searchable, view_of};

/// What the view of a user tells at the call.
pub fn answered(
    alloc: Global,
    tree: &Tree,
    call: &str,
    arguments: &[&str],
) -> Result<String, NoAnswer> {
    match arguments {
        [uid] => of_all(alloc, tree, call, small_number(uid)?),
        [uid, place] => {
            let view = view_of(alloc, tree, small_number(uid)?)?;
            at_place(alloc, &view, call, number(place)? as usize)
        }
        _ => Err(NoAnswer::BadRow),
    }
}

fn of_all(alloc: Global, tree: &Tree, call: &str, uid: Uid) -> Result<String, NoAnswer> {
    match call {
        "searchable" => paths(alloc, tree, uid),
        "view_of" => files(alloc, tree, uid),
        "to_seen" => is_searchable(alloc, tree, uid),
        _ => Err(NoAnswer::BadRow),
    }
}

/// The paths that the user sees, in the order of her view.
fn paths(alloc: Global, tree: &Tree, uid: Uid) -> Result<String, NoAnswer> {
    let mut out = Vec::new(alloc);
    for seen in &searchable(alloc, tree, uid)? {
        put_paths(&mut out, seen.paths.as_slice())?;
    }
    shown(alloc, out.as_slice())
}

fn put_paths(out: &mut Vec<u8>, paths: &[Bytes]) -> Result<(), NoAnswer> {
    for path in paths {
        out.extend_from_slice(path.as_slice())?;
        out.push(b'\n')?;
    }
    Ok(())
}

/// The files with their paths, asked for one by one.
fn files(alloc: Global, tree: &Tree, uid: Uid) -> Result<String, NoAnswer> {
    let view = view_of(alloc, tree, uid)?;
    let mut out = Vec::new(alloc);
    for place in 0..view.len() {
        if let Some(seen) = view.seen_at(alloc, place)? {
            put_seen(alloc, &mut out, &seen)?;
        }
    }
    shown(alloc, out.as_slice())
}

/// Whether all files with their paths are those that are found with their paths.
fn is_searchable(alloc: Global, tree: &Tree, uid: Uid) -> Result<String, NoAnswer> {
    let kept = view_of(alloc, tree, uid)?.to_seen(alloc)?;
    let found = searchable(alloc, tree, uid)?;
    flag_text(alloc, kept.as_slice() == found.as_slice())
}

fn at_place(alloc: Global, view: &View, call: &str, place: usize) -> Result<String, NoAnswer> {
    match call {
        "ino_at" => ino(alloc, view.ino_at(place)),
        "least_path_at" => least_path(alloc, view, place),
        "seen_at" => seen(alloc, view, place),
        _ => Err(NoAnswer::BadRow),
    }
}

fn ino(alloc: Global, ino: Option<Ino>) -> Result<String, NoAnswer> {
    optional_text(alloc, ino.map(u64::from))
}

fn least_path(alloc: Global, view: &View, place: usize) -> Result<String, NoAnswer> {
    match view.least_path_at(alloc, place)? {
        Some(path) => {
            let mut line = Vec::from_slice(alloc, path.as_slice())?;
            line.push(b'\n')?;
            shown(alloc, line.as_slice())
        }
        None => plain_text(alloc, "none"),
    }
}

fn seen(alloc: Global, view: &View, place: usize) -> Result<String, NoAnswer> {
    match view.seen_at(alloc, place)? {
        Some(seen) => {
            let mut line = Vec::new(alloc);
            put_seen(alloc, &mut line, &seen)?;
            shown(alloc, line.as_slice())
        }
        None => plain_text(alloc, "none"),
    }
}

/// Appends the line of a file: its number, and each of its paths.
fn put_seen(alloc: Global, out: &mut Vec<u8>, seen: &Seen) -> Result<(), NoAnswer> {
    out.extend_from_slice(format!(in alloc; "{}", seen.ino)?.as_bytes())?;
    for path in seen.paths.as_slice() {
        out.push(b' ')?;
        out.extend_from_slice(path.as_slice())?;
    }
    out.push(b'\n')?;
    Ok(())
}
