//! Access lists, as a line has them: `g::B`, then `u:U:B` for users and then `g:G:B` for groups, as many as there
//! are, by ascending numbers, and last `m::B`, with a comma between each two. `B` is a digit from 0 to 7. The form
//! is that of acl(5), with digits in place of the letters `rwx`.
ghost use Rattle.std.specs.Prelude.{◌≡◌, ◌≤◌, IfOk, IfSome, map, not, position};
ghost use Rattle.std.specs.Ordering.{nat_cmp};
ghost use Rattle.std.specs.List.{after_first, before_first, position_or_len};
ghost use Rattle.std.specs.Option.{option_map};
ghost use Rattle.wu_tree.specs.Lists.{ascends};
ghost use Rattle.wu_tree.specs.Steps.{IsEvent};
ghost use Rattle.wu_script.specs.Commands.{acl_in, acl_of, after_owning, bits_of, entries_in, group_or_owning};
ghost use Rattle.wu_script.specs.Commands.{groups_at_front, is_colon, is_group, is_mask, is_owning, is_user};
ghost use Rattle.wu_script.specs.Commands.{mask_alone, mask_in, piece_of, pieces_of, setting_of, users_at_front, whose};

use crate::events::{id_in, node_of};
use std::alloc::Global;
use wu_access::{Acl, AclEntry};
use wu_base::{Bytes, Ino, NoMemory, Sequence};
use wu_tree::Event;

/// Whose an entry is.
#[derive(Clone, Copy)]
pub(crate) enum Tag {
    /// The owning group's.
    Owning,
    /// A named user's.
    User,
    /// A named group's.
    Group,
    /// The mask.
    Mask,
}

/// An entry. Its number is 0 where it has none.
#[derive(Clone, Copy)]
pub(crate) struct Piece {
    pub(crate) tag: Tag,
    pub(crate) entry: AclEntry,
}

/// `acl`, a node and the entries of its access list, or no entry where it has none any more.
#[tactic(auto, unfolding(crate::specs::Commands::acl_of))]
pub(crate) fn acl(alloc: Global, fields: &[Bytes]) -> Result<Option<Event>, NoMemory>
    ensures value { IfOk result (λ event. event ≡ acl_of fields.now) }
    ensures sound { IfOk result (λ event. IfSome event IsEvent) }
{
    match fields {
        [ino, entries] => match node_of(ino) {
            Some(ino) => setting(alloc, ino, entries.as_slice()),
            None => Ok(None),
        },
        _ => Ok(None),
    }
}

/// What the entries make of the node's access list.
fn setting(alloc: Global, ino: Ino, entries: &[u8]) -> Result<Option<Event>, NoMemory>
    ensures value { IfOk result (λ event. event ≡ setting_of ino entries.now) }
    ensures sound { IfOk result (λ event. IfSome event IsEvent) }
{
    if entries.is_empty() {
        return Ok(Some(Event::Acl {
            ino,
            acl: None,
            mask: 0,
        }));
    }
    let Some(pieces) = pieces_of(alloc, entries)? else {
        return Ok(None);
    };
    match acl_in(alloc, pieces.as_slice())? {
        Some((acl, mask)) => Ok(Some(Event::Acl {
            ino,
            acl: Some(acl),
            mask,
        })),
        None => Ok(None),
    }
}

/// The entries of a field, if each is one.
fn pieces_of(alloc: Global, field: &[u8]) -> Result<Option<Vec<Piece>>, NoMemory>
    ensures { IfOk result (λ pieces. option_map (λ v. v.items) pieces ≡ pieces_of field.now) }
{
    let mut pieces = Vec::new(alloc);
    for written in field.split(|byte| *byte == b',') {
        match piece_of(written) {
            Some(piece) => pieces.push(piece)?,
            None => return Ok(None),
        }
    }
    Ok(Some(pieces))
}

/// An entry, which has three parts.
fn piece_of(written: &[u8]) -> Option<Piece>
    ensures { result ≡ piece_of written.now }
{
    let (word, rest) = cut(written);
    let (number, bits) = cut(rest);
    let (tag, id) = whose(word, number)?;
    let bits = bits_of(bits)?;
    Some(Piece {
        tag,
        entry: AclEntry { id, bits },
    })
}

/// What stands before the first colon, and what stands behind it. Where there is none, all stands before it.
fn cut(bytes: &[u8]) -> (&[u8], &[u8])
    ensures before { result.0.now ≡ before_first is_colon bytes.now }
    ensures after { result.1.now ≡ after_first is_colon bytes.now }
{
    let (before, rest) = bytes.split_at(before_colon(bytes));
    match rest {
        [] => (before, rest),
        [_colon, after @ ..] => (before, after),
    }
}

/// How many bytes stand before the first colon, or all of them where there is none.
fn before_colon(bytes: &[u8]) -> usize
    ensures { result ≡ position_or_len is_colon bytes.now }
{
    first_colon(bytes).unwrap_or(bytes.len())
}

fn first_colon(bytes: &[u8]) -> Option<usize>
    ensures { result ≡ position is_colon bytes.now }
{
    bytes.iter().position(|byte| *byte == b':')
}

/// Whose an entry is, and the number of that user or group.
#[tactic(auto, unfolding(crate::specs::Commands::whose))]
fn whose(word: &[u8], number: &[u8]) -> Option<(Tag, u32)>
    ensures { result ≡ whose word.now number.now }
{
    if word == b"u".as_slice() {
        Some((Tag::User, id_in(number)?))
    } else if word == b"g".as_slice() {
        group_or_owning(number)
    } else if word == b"m".as_slice() {
        mask_alone(number)
    } else {
        None
    }
}

/// A named group's entry, or the owning group's.
fn group_or_owning(number: &[u8]) -> Option<(Tag, u32)>
    ensures { result ≡ group_or_owning number.now }
{
    match number {
        [] => Some((Tag::Owning, 0)),
        [..] => Some((Tag::Group, id_in(number)?)),
    }
}

/// The mask, which has no number.
fn mask_alone(number: &[u8]) -> Option<(Tag, u32)>
    ensures { result ≡ mask_alone number.now }
{
    match number {
        [] => Some((Tag::Mask, 0)),
        [..] => None,
    }
}

/// One digit from 0 to 7.
#[tactic(auto, unfolding(crate::specs::Commands::bits_of))]
fn bits_of(digits: &[u8]) -> Option<u8>
    ensures { result ≡ bits_of digits.now }
{
    match digits {
        [digit] if b'0' <= *digit && *digit < b'8' => Some(*digit - b'0'),
        _ => None,
    }
}

/// The access list that the entries make, and its mask.
#[tactic(auto, unfolding(crate::specs::Commands::acl_in))]
fn acl_in(alloc: Global, pieces: &[Piece]) -> Result<Option<(Acl, u8)>, NoMemory>
    ensures { IfOk result (λ read. read ≡ acl_in pieces.now) }
{
    match pieces {
        [] => Ok(None),
        [first, rest @ ..] => {
            if is_owning(first.tag) {
                after_owning(alloc, first.entry.bits, rest)
            } else {
                Ok(None)
            }
        }
    }
}

/// The same of the entries behind the owning group's.
fn after_owning(alloc: Global, owning: u8, pieces: &[Piece]) -> Result<Option<(Acl, u8)>, NoMemory>
    ensures { IfOk result (λ read. read ≡ after_owning owning pieces.now) }
{
    let (users, later) = pieces.split_at(users_at_front(pieces));
    let (groups, last) = later.split_at(groups_at_front(later));
    let Some(users) = entries_in(alloc, users)? else {
        return Ok(None);
    };
    let Some(groups) = entries_in(alloc, groups)? else {
        return Ok(None);
    };
    match mask_in(last) {
        Some(mask) => Ok(Some((
            Acl {
                owning,
                users: Sequence::from(users),
                groups: Sequence::from(groups),
            },
            mask,
        ))),
        None => Ok(None),
    }
}

/// How many entries at the front are users'.
fn users_at_front(pieces: &[Piece]) -> usize
    ensures { result ≡ users_at_front pieces.now }
{
    first_but_users(pieces).unwrap_or(pieces.len())
}

fn first_but_users(pieces: &[Piece]) -> Option<usize>
    ensures { result ≡ position (λ piece. not (is_user piece.tag)) pieces.now }
{
    pieces.iter().position(|piece| !is_user(piece.tag))
}

/// How many entries at the front are groups'.
fn groups_at_front(pieces: &[Piece]) -> usize
    ensures { result ≡ groups_at_front pieces.now }
{
    first_but_groups(pieces).unwrap_or(pieces.len())
}

fn first_but_groups(pieces: &[Piece]) -> Option<usize>
    ensures { result ≡ position (λ piece. not (is_group piece.tag)) pieces.now }
{
    pieces.iter().position(|piece| !is_group(piece.tag))
}

/// The entries, if their numbers ascend.
#[tactic(auto, unfolding(crate::specs::Commands::entries_in))]
fn entries_in(alloc: Global, pieces: &[Piece]) -> Result<Option<Vec<AclEntry>>, NoMemory>
    ensures { IfOk result (λ entries. option_map (λ v. v.items) entries ≡ entries_in pieces.now) }
{
    if !numbers_ascend(pieces) {
        return Ok(None);
    }
    Ok(Some(all_entries(alloc, pieces)?))
}

fn numbers_ascend(pieces: &[Piece]) -> bool
    ensures { result ≡ ascends nat_cmp (map (λ piece. piece.entry.id) pieces.now) }
{
    pieces.is_sorted_by(|piece, next| piece.entry.id < next.entry.id)
}

fn all_entries(alloc: Global, pieces: &[Piece]) -> Result<Vec<AclEntry>, NoMemory>
    ensures { IfOk result (λ entries. entries.items ≡ map (λ piece. piece.entry) pieces.now) }
{
    let entries = pieces.iter().map(|piece| piece.entry).collect(alloc)?;
    Ok(entries)
}

/// The mask, if that is all.
fn mask_in(pieces: &[Piece]) -> Option<u8>
    ensures { result ≡ mask_in pieces.now }
{
    match pieces {
        [piece] if is_mask(piece.tag) => Some(piece.entry.bits),
        _ => None,
    }
}

fn is_owning(tag: Tag) -> bool
    ensures { result ≡ is_owning tag }
{
    matches!(tag, Tag::Owning)
}

fn is_user(tag: Tag) -> bool
    ensures { result ≡ is_user tag }
{
    matches!(tag, Tag::User)
}

fn is_group(tag: Tag) -> bool
    ensures { result ≡ is_group tag }
{
    matches!(tag, Tag::Group)
}

fn is_mask(tag: Tag) -> bool
    ensures { result ≡ is_mask tag }
{
    matches!(tag, Tag::Mask)
}
