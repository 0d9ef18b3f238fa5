//! Writing of checkpoints.
ghost use Rattle.std.specs.Prelude.{◌≡◌, [], ◌∷◌, ◌+◌, ◌^◌, ◌≤◌, List, IfOk, OnErr, OnOk, length, map};
ghost use Rattle.std.specs.List.{flat_map};
ghost use Rattle.wu_tree.specs.Lists.{user_of};
ghost use Rattle.wu_tree.specs.FileSystems.{entries_of};
ghost use Rattle.wu_image.specs.Items.{Item, Number, StartsWith, Appends, list_items};
ghost use Rattle.wu_image.specs.LayoutRules.{AreLayoutRules};
ghost use Rattle.wu_image.specs.Checkpoints.{SpellsVersion, acl_entry_items, acl_items, file_numbers, first_text, kind_number, later_files, link_items, node_items, part_items, text_items, tree_items, user_items};
ghost use Rattle.wu_image.specs.declared.checkpoints.Version.TheVariants.{Second};
ghost use Rattle.wu_image.specs.Writing.{links_from, links_in_node};

use crate::checkpoints::SECOND_MARK;
use crate::fields::{put_ids, put_name, put_numbers};
use crate::records::FileRec;
use std::alloc::Global;
use wu_access::{Acl, AclEntry, UserRec};
use wu_base::{Ino, NoMemory, PartRec};
use wu_tree::{Kind, Node, Tree};

/// The spelling in the second version of the checkpoint with these numbers, this tree, these records of its
/// regular files, by their numbers, and these parts. The bytes are that where the records are those of exactly the regular
/// files and the rules of the layout hold; else they are some bytes. The only error is out of memory. The
/// time is near linear in the number of bytes.
pub fn write_checkpoint(
    alloc: Global,
    next_address: u64,
    next_blob: u64,
    flushes: u64,
    tree: &Tree,
    files: &[FileRec],
    parts: &[PartRec],
) -> Result<Vec<u8>, NoMemory>
    ensures { IfOk result (λ bytes. map (λ file. file.ino) files.now ≡ file_numbers tree.now.nodes
        → AreLayoutRules next_address next_blob flushes files.now parts.now
        → SpellsVersion Second (record {
          next_address = next_address;
          next_blob = next_blob;
          flushes = flushes;
          tree = tree.now;
          files = files.now;
          parts = parts.now;
        }) bytes.items) }
{
    let mut out = Vec::new(alloc);
    out.extend_from_slice(&SECOND_MARK)?;
    put_numbers(&mut out, &[next_address, next_blob, flushes])?;
    put_users(alloc, &mut out, tree)?;
    put_nodes(alloc, &mut out, tree, files)?;
    put_links(alloc, &mut out, tree)?;
    put_parts(&mut out, parts)?;
    put_acls(alloc, &mut out, tree)?;
    tree.keeps_the_rules();
    Ok(out)
}

/// Appends the users after their number.
fn put_users(alloc: Global, out: &mut Vec<u8>, tree: &Tree) -> Result<(), NoMemory>
    ensures { OnOk result (Appends out.old.items (list_items user_items tree.now.users) out.new.items) }
{
    let mut body = Vec::new(alloc);
    let mut count = 0;
    for user in tree.users() {
        put_user(&mut body, user)?;
        count = one_more(count)?;
    }
    put_list(out, count, &body)?;
    Ok(())
}

/// The count with one more. There is no memory for so many that they can't be counted.
fn one_more(count: u64) -> Result<u64, NoMemory>
    ensures more { IfOk result (λ more. more ≡ count + 1) }
    ensures err { OnErr result (2 ^ 64 ≤ count + 1) }
{
    count.checked_add(1).ok_or(NoMemory)
}

/// Appends how many items a list has, and its bytes.
fn put_list(out: &mut Vec<u8>, count: u64, body: &[u8]) -> Result<(), NoMemory>
    ensures { OnOk result ((items : List Item) → StartsWith body.now items []
        → Appends out.old.items (Number count ∷ items) out.new.items) }
{
    put_numbers(out, &[count])?;
    out.extend_from_slice(body)?;
    Ok(())
}

fn put_user(out: &mut Vec<u8>, user: &UserRec) -> Result<(), NoMemory>
    ensures { OnOk result (Appends out.old.items (user_items (user_of user.now)) out.new.items) }
{
    let groups = user.groups.as_slice();
    put_ids(out, &[user.uid])?;
    put_numbers(out, &[groups.len() as u64])?;
    put_ids(out, groups)?;
    Ok(())
}

/// Appends the nodes after their number, each file with the next of the records.
fn put_nodes(
    alloc: Global,
    out: &mut Vec<u8>,
    tree: &Tree,
    files: &[FileRec],
) -> Result<(), NoMemory>
    ensures { OnOk result (Appends out.old.items (Number (length tree.now.nodes) ∷ tree_items tree.now.nodes files.now) out.new.items) }
{
    let mut body = Vec::new(alloc);
    let mut count = 0;
    let mut files_left = files;
    for (ino, node) in tree.nodes() {
        put_node(&mut body, ino, &node)?;
        files_left = put_record(&mut body, node.kind, files_left)?;
        count = one_more(count)?;
    }
    put_list(out, count, &body)?;
    Ok(())
}

fn put_node(out: &mut Vec<u8>, ino: Ino, node: &Node) -> Result<(), NoMemory>
    ensures { OnOk result (Appends out.old.items (node_items (ino, node.now)) out.new.items) }
{
    put_ids(out, &[ino])?;
    put_numbers(out, &[kind_number_of(node.kind)])?;
    put_ids(out, &[node.perm.uid, node.perm.gid])?;
    put_numbers(out, &[u64::from(node.perm.mode)])?;
    Ok(())
}

/// The number that a kind is spelled by.
fn kind_number_of(kind: Kind) -> u64
    ensures { result ≡ kind_number kind }
{
    match kind {
        Kind::Directory => 0,
        Kind::File => 1,
    }
}

/// Appends the first of the records where the kind is a file's, and gives the records after it.
fn put_record<'a>(
    out: &mut Vec<u8>,
    kind: Kind,
    files: &'a [FileRec],
) -> Result<&'a [FileRec], NoMemory>
    ensures appends { OnOk result (Appends out.old.items (first_text kind files.now) out.new.items) }
    ensures later { IfOk result (λ later. later.now ≡ later_files kind files.now) }
{
    match kind {
        Kind::Directory => Ok(files),
        Kind::File => match files.split_first() {
            Some((file, later)) => {
                put_text(out, file)?;
                Ok(later)
            }
            None => Ok(files),
        },
    }
}

fn put_text(out: &mut Vec<u8>, file: &FileRec) -> Result<(), NoMemory>
    ensures { OnOk result (Appends out.old.items (text_items file.now) out.new.items) }
{
    put_numbers(
        out,
        &[
            u64::from(file.len),
            file.blob,
            file.range.start,
            file.range.len,
        ],
    )?;
    Ok(())
}

/// Appends the links after their number, directory by directory.
fn put_links(alloc: Global, out: &mut Vec<u8>, tree: &Tree) -> Result<(), NoMemory>
    ensures { OnOk result (Appends out.old.items (list_items link_items tree.now.links) out.new.items) }
{
    let mut body = Vec::new(alloc);
    let mut count = 0;
    for (ino, node) in tree.nodes() {
        count = put_links_in(&mut body, count, tree, ino, node.kind)?;
    }
    tree.keeps_the_rules();
    put_list(out, count, &body)?;
    Ok(())
}

/// Appends the links in a node, of which a file has none, and gives the count with these added.
fn put_links_in(
    out: &mut Vec<u8>,
    before: u64,
    tree: &Tree,
    ino: Ino,
    kind: Kind,
) -> Result<u64, NoMemory>
    ensures appends { OnOk result (Appends out.old.items (flat_map link_items (links_in_node kind ino tree.now.links)) out.new.items) }
    ensures count { IfOk result (λ count. count ≡ before + length (links_in_node kind ino tree.now.links)) }
{
    match kind {
        Kind::Directory => Ok(put_entries(out, before, tree, ino)?),
        Kind::File => Ok(before),
    }
}

/// Appends the links in a directory, and gives the count with these added.
fn put_entries(out: &mut Vec<u8>, before: u64, tree: &Tree, directory: Ino) -> Result<u64, NoMemory>
    ensures appends { OnOk result (Appends out.old.items (flat_map link_items (links_from directory (entries_of tree.now.links directory)))
        out.new.items) }
    ensures count { IfOk result (λ count. count ≡ before + length (entries_of tree.now.links directory)) }
{
    let mut count = before;
    for (name, child) in tree.names(directory) {
        put_ids(out, &[directory])?;
        put_name(out, name)?;
        put_ids(out, &[child])?;
        count = one_more(count)?;
    }
    Ok(count)
}

/// Appends the parts after their number.
fn put_parts(out: &mut Vec<u8>, parts: &[PartRec]) -> Result<(), NoMemory>
    ensures { OnOk result (Appends out.old.items (list_items part_items parts.now) out.new.items) }
{
    put_numbers(out, &[parts.len() as u64])?;
    for part in parts {
        put_part(out, part)?;
    }
    Ok(())
}

fn put_part(out: &mut Vec<u8>, part: &PartRec) -> Result<(), NoMemory>
    ensures { OnOk result (Appends out.old.items (part_items part.now) out.new.items) }
{
    put_numbers(
        out,
        &[
            part.blob,
            part.size,
            u64::from(part.generation),
            part.low,
            part.high.saturating_sub(part.low),
            part.stored,
        ],
    )?;
    Ok(())
}

/// Appends the access lists after their number.
fn put_acls(alloc: Global, out: &mut Vec<u8>, tree: &Tree) -> Result<(), NoMemory>
    ensures { OnOk result (Appends out.old.items (list_items acl_items tree.now.acls) out.new.items) }
{
    let mut body = Vec::new(alloc);
    let mut count = 0;
    for (ino, acl) in tree.acls() {
        put_acl(&mut body, ino, acl)?;
        count = one_more(count)?;
    }
    put_list(out, count, &body)?;
    Ok(())
}

fn put_acl(out: &mut Vec<u8>, ino: Ino, acl: &Acl) -> Result<(), NoMemory>
    ensures { OnOk result (Appends out.old.items (acl_items (ino, acl.now)) out.new.items) }
{
    put_ids(out, &[ino])?;
    put_numbers(out, &[u64::from(acl.owning)])?;
    put_acl_entries(out, acl.users.as_slice())?;
    put_acl_entries(out, acl.groups.as_slice())?;
    Ok(())
}

/// Appends the entries of an access list after their number.
fn put_acl_entries(out: &mut Vec<u8>, entries: &[AclEntry]) -> Result<(), NoMemory>
    ensures { OnOk result (Appends out.old.items (list_items acl_entry_items entries.now) out.new.items) }
{
    put_numbers(out, &[entries.len() as u64])?;
    for entry in entries {
        put_acl_entry(out, entry)?;
    }
    Ok(())
}

fn put_acl_entry(out: &mut Vec<u8>, entry: &AclEntry) -> Result<(), NoMemory>
    ensures { OnOk result (Appends out.old.items (acl_entry_items entry.now) out.new.items) }
{
    put_ids(out, &[entry.id])?;
    put_numbers(out, &[u64::from(entry.bits)])?;
    Ok(())
}
