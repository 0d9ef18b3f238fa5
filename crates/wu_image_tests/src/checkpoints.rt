//! Answers of the calls on checkpoints.
use std::alloc::Global;
use wu_access::Acl;
use wu_base::Ino;
use wu_image::{Checkpoint, read_checkpoint, write_checkpoint};
use wu_rows::{NoAnswer, bytes_text, numbers_text, plain_text};
use wu_tree::{Kind, Node, Tree};

/// What the checkpoint tells, and `another` in front where it is written back as other bytes.
pub fn read(alloc: Global, bytes: &[u8]) -> Result<String, NoAnswer> {
    match read_checkpoint(alloc, bytes)? {
        Some(checkpoint) => text_of(alloc, &checkpoint, bytes),
        None => plain_text(alloc, "none"),
    }
}

fn text_of(alloc: Global, checkpoint: &Checkpoint, bytes: &[u8]) -> Result<String, NoAnswer> {
    let mut text = String::new(alloc);
    if !is_written_back(alloc, checkpoint, bytes)? {
        text.push_str("another ")?;
    }
    put_checkpoint(&mut text, alloc, checkpoint)?;
    Ok(text)
}

/// Whether the checkpoint is written as these bytes.
pub fn is_written_back(
    alloc: Global,
    checkpoint: &Checkpoint,
    bytes: &[u8],
) -> Result<bool, NoAnswer> {
    let written = write_checkpoint(
        alloc,
        checkpoint.next_address,
        checkpoint.next_blob,
        checkpoint.flushes,
        &checkpoint.tree,
        checkpoint.files.as_slice(),
        checkpoint.parts.as_slice(),
    )?;
    Ok(written.as_slice() == bytes)
}

fn put_checkpoint(
    text: &mut String,
    alloc: Global,
    checkpoint: &Checkpoint,
) -> Result<(), NoAnswer> {
    let numbers = [
        checkpoint.next_address,
        checkpoint.next_blob,
        checkpoint.flushes,
    ];
    text.push_str(numbers_text(alloc, &numbers)?.as_str())?;
    put_tree(text, alloc, &checkpoint.tree)?;
    for (ino, acl) in checkpoint.tree.acls() {
        put_acl(text, ino, acl)?;
    }
    for file in checkpoint.files.as_slice() {
        let (ino, len, blob) = (file.ino, file.len, file.blob);
        let (start, addresses) = (file.range.start, file.range.len);
        write!(text, " text {ino} {len} in {blob} at {start}+{addresses}")?;
    }
    for part in checkpoint.parts.as_slice() {
        let (blob, size, generation) = (part.blob, part.size, part.generation);
        let (low, high, stored) = (part.low, part.high, part.stored);
        write!(
            text,
            " part {blob} of {size} generation {generation} from {low} to {high} has {stored}"
        )?;
    }
    Ok(())
}

fn put_tree(text: &mut String, alloc: Global, tree: &Tree) -> Result<(), NoAnswer> {
    for user in tree.users() {
        let (uid, groups) = (user.uid, user.groups.as_slice());
        write!(text, " user {uid} {groups:?}")?;
    }
    for (ino, node) in tree.nodes() {
        put_node(text, ino, &node)?;
        for (name, child) in tree.names(ino) {
            text.push(' ')?;
            text.push_str(bytes_text(alloc, name)?.as_str())?;
            write!(text, "={child}")?;
        }
    }
    Ok(())
}

fn put_acl(text: &mut String, ino: Ino, acl: &Acl) -> Result<(), NoAnswer> {
    write!(text, " acl {ino} {}", acl.owning)?;
    for entry in acl.users.as_slice() {
        write!(text, " u {} {}", entry.id, entry.bits)?;
    }
    for entry in acl.groups.as_slice() {
        write!(text, " g {} {}", entry.id, entry.bits)?;
    }
    Ok(())
}

fn put_node(text: &mut String, ino: Ino, node: &Node) -> Result<(), NoAnswer> {
    let kind = match node.kind {
        Kind::Directory => "directory",
        Kind::File => "file",
    };
    let (uid, gid, mode) = (node.perm.uid, node.perm.gid, node.perm.mode);
    write!(text, " {kind} {ino} {uid} {gid} {mode:o}")?;
    Ok(())
}
