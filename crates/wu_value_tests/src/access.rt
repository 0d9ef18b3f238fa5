//! Answers of the access check.
ghost use Rattle.std.specs.Prelude.{IfOk};
ghost use Rattle.std.specs.Ordering.{nat_cmp};
ghost use Rattle.std.specs.List.Sorted.{IsStrictlySortedBy};

use std::alloc::Global;
use wu_access::{Acl, AclEntry, Perm, UserRec, Want, allows, allows_by_groups};
use wu_base::{Sequence, sorted_once};
use wu_rows::{NoAnswer, flag_text, small_number, small_numbers};

/// The answer of the call to the arguments.
pub fn answer(alloc: Global, call: &str, arguments: &[&str]) -> Result<String, NoAnswer> {
    let [uid, groups, owner, group, mode, want, entries @ ..] = arguments else {
        return Err(NoAnswer::BadRow);
    };
    let acl = acl_of(alloc, entries)?;
    let node = Perm {
        uid: small_number(owner)?,
        gid: small_number(group)?,
        mode: mode_of(mode)?,
    };
    let want = want_of(want)?;
    let user = user(alloc, uid, groups)?;
    match call {
        "allows" => flag_text(alloc, allows(&user, &node, acl.as_ref(), want)),
        "allows_by_groups" => {
            let groups = user.groups.as_slice();
            let acl = acl.as_ref();
            flag_text(alloc, allows_by_groups(user.uid, groups, &node, acl, want))
        }
        _ => Err(NoAnswer::BadRow),
    }
}

#[tactic(auto, using(std::proofs::lemmas::Map::Lookups::exact_unsigned))]
fn user(alloc: Global, uid: &str, groups: &str) -> Result<UserRec, NoAnswer>
    ensures { IfOk result (λ user. IsStrictlySortedBy nat_cmp user.groups) }
{
    let groups = sorted_once(small_numbers(alloc, groups)?);
    Ok(UserRec {
        uid: small_number(uid)?,
        groups: Sequence::from(groups),
    })
}

/// The access list of these fields: the owning bits, users with their bits and groups with theirs; or none.
fn acl_of(alloc: Global, fields: &[&str]) -> Result<Option<Acl>, NoAnswer> {
    match fields {
        [] => Ok(None),
        [owning, users, groups] => Ok(Some(Acl {
            owning: bits_of(small_number(owning)?)?,
            users: entries_of(alloc, users)?,
            groups: entries_of(alloc, groups)?,
        })),
        _ => Err(NoAnswer::BadRow),
    }
}

fn entries_of(alloc: Global, field: &str) -> Result<Sequence<AclEntry>, NoAnswer> {
    let numbers = small_numbers(alloc, field)?;
    let mut entries = Vec::new(alloc);
    for pair in numbers.chunks(2) {
        let [id, bits] = pair else {
            return Err(NoAnswer::BadRow);
        };
        let bits = bits_of(*bits)?;
        entries.push(AclEntry { id: *id, bits })?;
    }
    Ok(Sequence::from(entries))
}

fn bits_of(number: u32) -> Result<u8, NoAnswer> {
    match u8::try_from(number) {
        Ok(bits) => Ok(bits),
        Err(_) => Err(NoAnswer::BadRow),
    }
}

/// The mode that the octal digits spell.
fn mode_of(digits: &str) -> Result<u16, NoAnswer> {
    match u16::from_str_radix(digits, 8) {
        Ok(mode) => Ok(mode),
        Err(_) => Err(NoAnswer::BadRow),
    }
}

fn want_of(word: &str) -> Result<Want, NoAnswer> {
    match word {
        "read" => Ok(Want::Read),
        "execute" => Ok(Want::Execute),
        _ => Err(NoAnswer::BadRow),
    }
}
