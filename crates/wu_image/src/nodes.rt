//! Reading of a tree's nodes and of what is recorded of the files among them.
ghost use Rattle.std.specs.Prelude.{◌≡◌, ℕ, List, [], ◌∷◌, ◌++◌, ◌<◌, ◌^◌, IfOk, IfSome, IfNone, OnOk, Option};
ghost use Rattle.std.specs.List.{AllByRecursion};
ghost use Rattle.wu_tree.specs.declared.events.Kind.{Kind};
ghost use Rattle.wu_access.specs.declared.Perm.{Perm};
ghost use Rattle.wu_image.specs.Items.{Item, Number, Id, StartsWith, list_items};
ghost use Rattle.wu_image.specs.Checkpoints.{kind_number, text_items};
ghost use Rattle.wu_image.specs.Reading.{HasRecord, IsEntry, StartsWithTree, entry_items, record_items, record_list};
ghost use Rattle.wu_image.specs.declared.records.FileRec.{FileRec};
ghost use Rattle.wu_image.specs.declared.nodes.Entry.{Entry};

use crate::fields::{next_id, next_number, next_numbers};
use crate::records::FileRec;
use std::alloc::Global;
use wu_access::Perm;
use wu_base::{Ino, NoMemory, Range};
use wu_tree::{Kind, Node};

/// The nodes of a tree, and what is recorded of its files, in the same order.
#[derive(Drop)]
pub(crate) struct Inodes {
    pub(crate) nodes: Vec<(Ino, Node)>,
    pub(crate) files: Vec<FileRec>,
}

/// A node, and what is recorded of it where it is a file.
#[derive(Clone, Copy)]
pub(crate) struct Entry {
    pub(crate) ino: Ino,
    pub(crate) node: Node,
    pub(crate) file: Option<FileRec>,
}

/// The nodes and the records of the files among them that the bytes start with, after the number of the
/// nodes, and the rest. `None` exactly where they start with none such. Takes memory only for nodes that
/// the bytes were found to hold.
pub(crate) fn take_nodes(alloc: Global, bytes: &[u8]) -> Result<Option<(Inodes, &[u8])>, NoMemory>
    ensures found { IfOk result (λ taken. IfSome taken (λ next.
        StartsWithTree bytes.now next.0.nodes.items next.0.files.items next.1.now)) }
    ensures none { IfOk result (λ taken. IfNone taken ((entries : List Entry) (rest : List ℕ) → AllByRecursion IsEntry entries
        → StartsWith bytes.now (list_items entry_items entries) rest → ⊥)) }
{
    let Some((count, after)) = next_number(bytes) else {
        return Ok(None);
    };
    let mut nodes = Vec::new(alloc);
    let mut files = Vec::new(alloc);
    let mut rest = after;
    for _ in 0..count {
        let Some((entry, left)) = take_entry(rest) else {
            return Ok(None);
        };
        nodes.push((entry.ino, entry.node))?;
        keep_record(&mut files, entry.file)?;
        rest = left;
    }
    Ok(Some((Inodes { nodes, files }, rest)))
}

/// Puts a record, if there is one, at the end.
fn keep_record(files: &mut Vec<FileRec>, file: Option<FileRec>) -> Result<(), NoMemory>
    ensures { OnOk result (files.new.items ≡ files.old.items ++ record_list file) }
{
    match file {
        Some(file) => {
            files.push(file)?;
            Ok(())
        }
        None => Ok(()),
    }
}

/// The node that the bytes start with, with its record, and the rest.
fn take_entry(bytes: &[u8]) -> Option<(Entry, &[u8])>
    ensures found { IfSome result (λ next. IsEntry next.0 × StartsWith bytes.now (entry_items next.0) next.1.now) }
    ensures none { IfNone result ((entry : Entry) (rest : List ℕ) → IsEntry entry → StartsWith bytes.now (entry_items entry) rest → ⊥) }
{
    let Some((ino, rest)) = next_id(bytes) else {
        return None;
    };
    let Some((kind, rest)) = take_kind(rest) else {
        return None;
    };
    let Some((perm, rest)) = take_perm(rest) else {
        return None;
    };
    let Some((file, rest)) = take_record(rest, kind, ino) else {
        return None;
    };
    let node = Node { kind, perm };
    Some((Entry { ino, node, file }, rest))
}

/// The kind that the bytes start with, and the rest.
fn take_kind(bytes: &[u8]) -> Option<(Kind, &[u8])>
    ensures found { IfSome result (λ next. StartsWith bytes.now (Number (kind_number next.0) ∷ []) next.1.now) }
    ensures none { IfNone result ((kind : Kind) (items : List Item) (rest : List ℕ)
        → StartsWith bytes.now (Number (kind_number kind) ∷ items) rest → ⊥) }
{
    let Some((number, rest)) = next_number(bytes) else {
        return None;
    };
    match kind_of(number) {
        Some(kind) => Some((kind, rest)),
        None => None,
    }
}

/// The kind of this number.
fn kind_of(number: u64) -> Option<Kind>
    ensures found { IfSome result (λ kind. kind_number kind ≡ number) }
    ensures none { IfNone result ((kind : Kind) → kind_number kind ≡ number → ⊥) }
{
    match number {
        0 => Some(Kind::Directory),
        1 => Some(Kind::File),
        _ => None,
    }
}

/// The owner, the group and the mode that the bytes start with, and the rest.
fn take_perm(bytes: &[u8]) -> Option<(Perm, &[u8])>
    ensures found { IfSome result (λ next. (next.0.mode < 2 ^ 16)
        × StartsWith bytes.now (Id next.0.uid ∷ Id next.0.gid ∷ Number next.0.mode ∷ []) next.1.now) }
    ensures none { IfNone result ((perm : Perm) (items : List Item) (rest : List ℕ) → perm.mode < 2 ^ 16
        → StartsWith bytes.now (Id perm.uid ∷ Id perm.gid ∷ Number perm.mode ∷ items) rest → ⊥) }
{
    let Some((uid, rest)) = next_id(bytes) else {
        return None;
    };
    let Some((gid, rest)) = next_id(rest) else {
        return None;
    };
    let Some((mode, rest)) = next_number(rest) else {
        return None;
    };
    if mode <= u64::from(u16::MAX) {
        let perm = Perm {
            uid,
            gid,
            mode: mode as u16,
        };
        Some((perm, rest))
    } else {
        None
    }
}

/// The record that the bytes start with, where the kind is a file's, and the rest.
fn take_record(bytes: &[u8], kind: Kind, ino: Ino) -> Option<(Option<FileRec>, &[u8])>
    ensures found { IfSome result (λ next. HasRecord kind ino next.0 × StartsWith bytes.now (record_items next.0) next.1.now) }
    ensures none { IfNone result ((file : Option FileRec) (rest : List ℕ) → HasRecord kind ino file
        → StartsWith bytes.now (record_items file) rest → ⊥) }
{
    match kind {
        Kind::Directory => Some((None, bytes)),
        Kind::File => match take_text(bytes, ino) {
            Some((file, rest)) => Some((Some(file), rest)),
            None => None,
        },
    }
}

/// The record of a file that the bytes start with, and the rest.
fn take_text(bytes: &[u8], ino: Ino) -> Option<(FileRec, &[u8])>
    ensures found { IfSome result (λ next. (next.0.ino ≡ ino) × (next.0.len < 2 ^ 32)
        × StartsWith bytes.now (text_items next.0) next.1.now) }
    ensures none { IfNone result ((file : FileRec) (rest : List ℕ) → file.len < 2 ^ 32
        → StartsWith bytes.now (text_items file) rest → ⊥) }
{
    let mut numbers = [0; 4];
    let Some(rest) = next_numbers(bytes, &mut numbers) else {
        return None;
    };
    let [len, blob, start, addresses] = numbers;
    if len <= u64::from(u32::MAX) {
        let file = FileRec {
            ino,
            len: len as u32,
            blob,
            range: Range {
                start,
                len: addresses,
            },
        };
        Some((file, rest))
    } else {
        None
    }
}
