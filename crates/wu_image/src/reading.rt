//! Reading of checkpoints.
ghost use Rattle.std.specs.Prelude.{◌≡◌, ℕ, List, [], ◌++◌, MatchBool, IfOk, IfSome, IfNone};
ghost use Rattle.wu_image.specs.declared.checkpoints.Checkpoint.{Checkpoint};
ghost use Rattle.wu_image.specs.Checkpoints.{SpellsCheckpoint, mark_of};
ghost use Rattle.wu_image.specs.declared.checkpoints.Version.{Version};
ghost use Rattle.wu_image.specs.Lists.{IsListed, checkpoint_of};

use crate::acls::take_acls;
use crate::checkpoints::{Checkpoint, FIRST_MARK, SECOND_MARK, Version};
use crate::fields::next_numbers;
use crate::lists::{take_links, take_parts, take_users};
use crate::nodes::take_nodes;
use crate::records::FileRec;
use crate::rules::keep_rules;
use std::alloc::Global;
use wu_access::{Acl, UserRec};
use wu_base::{Ino, NoMemory, PartRec, Sequence};
use wu_tree::{LinkRec, Node, Tree};

/// The checkpoint whose spelling, in either version, the bytes are. `None` exactly where they are no spelling of
/// one, or where its tree or what it records of texts and parts breaks a rule. The one error is out of memory. Takes
/// memory only for what the bytes were found to hold, and time that is near linear in their number.
pub fn read_checkpoint(alloc: Global, bytes: &[u8]) -> Result<Option<Checkpoint>, NoMemory>
    ensures found { IfOk result (λ read. IfSome read (λ checkpoint. SpellsCheckpoint checkpoint bytes.now)) }
    ensures none { IfOk result (λ read. IfNone read ((checkpoint : Checkpoint) → SpellsCheckpoint checkpoint bytes.now → ⊥)) }
{
    let lists = match take_lists(alloc, bytes)? {
        Some(lists) => lists,
        None => return Ok(None),
    };
    let tree = match Tree::rebuild(alloc, &lists.nodes, &lists.links, &lists.users, &lists.acls)? {
        Some(tree) => tree,
        None => return Ok(None),
    };
    let keep = keep_rules(
        alloc,
        lists.next_address,
        lists.next_blob,
        lists.flushes,
        &lists.files,
        &lists.parts,
    )?;
    if !keep {
        return Ok(None);
    }
    Ok(Some(Checkpoint {
        next_address: lists.next_address,
        next_blob: lists.next_blob,
        flushes: lists.flushes,
        tree,
        files: Sequence::from(lists.files),
        parts: Sequence::from(lists.parts),
    }))
}

/// All that a checkpoint is made of, as the bytes tell it.
#[derive(Drop)]
struct Lists {
    next_address: u64,
    next_blob: u64,
    flushes: u64,
    users: Vec<UserRec>,
    nodes: Vec<(Ino, Node)>,
    files: Vec<FileRec>,
    links: Vec<LinkRec>,
    parts: Vec<PartRec>,
    acls: Vec<(Ino, Acl)>,
}

/// All that the bytes tell of a checkpoint. `None` only where they are no checkpoint's.
fn take_lists(alloc: Global, bytes: &[u8]) -> Result<Option<Lists>, NoMemory>
    ensures found { IfOk result (λ read. IfSome read (λ lists. IsListed (checkpoint_of lists) bytes.now)) }
    ensures none { IfOk result (λ read. IfNone read ((checkpoint : Checkpoint) → IsListed checkpoint bytes.now → ⊥)) }
{
    let Some((version, code)) = after_mark(bytes) else {
        return Ok(None);
    };
    let mut numbers = [0; 3];
    let Some(rest) = next_numbers(code, &mut numbers) else {
        return Ok(None);
    };
    let (users, rest) = match take_users(alloc, rest)? {
        Some(taken) => taken,
        None => return Ok(None),
    };
    let (inodes, rest) = match take_nodes(alloc, rest)? {
        Some(taken) => taken,
        None => return Ok(None),
    };
    let (links, rest) = match take_links(alloc, rest)? {
        Some(taken) => taken,
        None => return Ok(None),
    };
    let (parts, rest) = match take_parts(alloc, rest)? {
        Some(taken) => taken,
        None => return Ok(None),
    };
    let (acls, rest) = match take_acls(alloc, version, rest)? {
        Some(taken) => taken,
        None => return Ok(None),
    };
    if !is_end(rest) {
        return Ok(None);
    }
    let [next_address, next_blob, flushes] = numbers;
    Ok(Some(Lists {
        next_address,
        next_blob,
        flushes,
        users,
        nodes: inodes.nodes,
        files: inodes.files,
        links,
        parts,
        acls,
    }))
}

/// The version that a checkpoint's first bytes tell, and what follows them. `None` exactly where the bytes begin
/// otherwise.
fn after_mark(bytes: &[u8]) -> Option<(Version, &[u8])>
    ensures found { IfSome result (λ marked. bytes.now ≡ mark_of marked.0 ++ marked.1.now) }
    ensures none { IfNone result ((version : Version) (code : List ℕ) → bytes.now ≡ mark_of version ++ code → ⊥) }
{
    if let Some(code) = after(bytes, &FIRST_MARK) {
        return Some((Version::First, code));
    }
    match after(bytes, &SECOND_MARK) {
        Some(code) => Some((Version::Second, code)),
        None => None,
    }
}

/// What follows a mark. `None` exactly where the bytes don't begin with it.
fn after<'a>(bytes: &'a [u8], mark: &[u8]) -> Option<&'a [u8]>
    ensures found { IfSome result (λ code. bytes.now ≡ mark.now ++ code.now) }
    ensures none { IfNone result ((code : List ℕ) → bytes.now ≡ mark.now ++ code → ⊥) }
{
    bytes.strip_prefix(mark)
}

/// Whether the bytes have ended.
fn is_end(rest: &[u8]) -> bool
    ensures { MatchBool result (rest.now ≡ []) (rest.now ≡ [] → ⊥) }
{
    rest.is_empty()
}
