//! Nodes as rows write them.
use std::alloc::Global;
use wu_access::Perm;
use wu_base::Ino;
use wu_rows::{NoAnswer, small_number};
use wu_tree::{Kind, Node};

/// The number and the node that the words spell: what it is, its number, its owner, its group and
/// its mode.
pub fn node(words: &[&str]) -> Result<(Ino, Node), NoAnswer> {
    let [kind, ino, uid, gid, mode] = words else {
        return Err(NoAnswer::BadRow);
    };
    let kind = match *kind {
        "directory" => Kind::Directory,
        "file" => Kind::File,
        _ => return Err(NoAnswer::BadRow),
    };
    let perm = Perm {
        uid: small_number(uid)?,
        gid: small_number(gid)?,
        mode: mode_of(mode)?,
    };
    Ok((small_number(ino)?, Node { kind, perm }))
}

/// The mode that the field spells in octal.
pub fn mode_of(field: &str) -> Result<u16, NoAnswer> {
    match u16::from_str_radix(field, 8) {
        Ok(mode) => Ok(mode),
        Err(_) => Err(NoAnswer::BadRow),
    }
}

/// A node as the words of a row.
pub fn text(alloc: Global, ino: Ino, node: &Node) -> Result<String, NoAnswer> {
    let kind = match node.kind {
        Kind::Directory => "directory",
        Kind::File => "file",
    };
    let perm = &node.perm;
    Ok(format!(in alloc; "{kind} {ino} {} {} {:o}", perm.uid, perm.gid, perm.mode)?)
}
