//! Events as lines of the script.
ghost use Rattle.std.specs.Prelude.{◌≡◌, ◌++◌, ◌∷◌, [], codes, OnOk, option_copied};
ghost use Rattle.std.specs.List.{flat_map};
ghost use Rattle.wumpus_plan.specs.Lines.{entry, first_digit, header_of, line_of, list_field, made_fields, mode_field, number_field, octal_digit, place_fields};

use wu_access::{Acl, AclEntry, Perm};
use wu_base::{Bytes, Ino, NoMemory};
use wu_fields::{put_decimal, put_field};
use wu_tree::Event;

/// Appends the line of the event. An event that gives a text has none, and isn't among those of a plan.
pub fn put_event(out: &mut Vec<u8>, event: &Event) -> Result<(), NoMemory>
    ensures { OnOk result (out.new.items ≡ out.old.items ++ line_of event.now) }
{
    match event {
        Event::User { uid, groups } => put_user(out, *uid, groups.as_slice())?,
        Event::Mkdir {
            ino,
            parent,
            name,
            perm,
        } => put_made(out, b"mkdir", *ino, *parent, name, *perm)?,
        Event::Create {
            ino,
            parent,
            name,
            perm,
        } => put_made(out, b"create", *ino, *parent, name, *perm)?,
        Event::Text { .. } => return Ok(()),
        Event::Link { ino, parent, name } => {
            put_word(out, b"link", *ino)?;
            put_place(out, *parent, name)?;
        }
        Event::Unlink { parent, name } => put_removal(out, b"unlink", *parent, name)?,
        Event::Rmdir { parent, name } => put_removal(out, b"rmdir", *parent, name)?,
        Event::Rename {
            parent,
            name,
            new_parent,
            new_name,
        } => {
            put_removal(out, b"rename", *parent, name)?;
            put_place(out, *new_parent, new_name)?;
        }
        Event::Chmod { ino, mode } => {
            put_word(out, b"chmod", *ino)?;
            put_mode(out, *mode)?;
        }
        Event::Chown { ino, uid, gid } => {
            put_word(out, b"chown", *ino)?;
            put_number(out, *uid)?;
            put_number(out, *gid)?;
        }
        Event::Acl { ino, acl, mask } => {
            put_word(out, b"acl", *ino)?;
            put_list(out, acl.as_ref(), *mask)?;
        }
    }
    out.push(b'\n')?;
    Ok(())
}

/// Appends the header of a plan: how many lines stand before the texts, and how many after them.
pub fn put_header(out: &mut Vec<u8>, head: u64, tail: u64) -> Result<(), NoMemory>
    ensures { OnOk result (out.new.items ≡ out.old.items ++ header_of head tail) }
{
    out.extend_from_slice(b"plan\t")?;
    put_decimal(out, head)?;
    out.push(b'\t')?;
    put_decimal(out, tail)?;
    out.push(b'\n')?;
    Ok(())
}

fn put_user(out: &mut Vec<u8>, uid: u32, groups: &[u32]) -> Result<(), NoMemory>
    ensures { OnOk result (out.new.items ≡ out.old.items ++ (codes "user" ++ number_field uid ++ flat_map number_field groups.now)) }
{
    put_word(out, b"user", uid)?;
    put_numbers(out, groups)
}

/// Appends a TAB and the number, for each.
fn put_numbers(out: &mut Vec<u8>, numbers: &[u32]) -> Result<(), NoMemory>
    ensures { OnOk result (out.new.items ≡ out.old.items ++ flat_map number_field numbers.now) }
{
    for number in numbers {
        put_number(out, *number)?;
    }
    Ok(())
}

fn put_made(
    out: &mut Vec<u8>,
    word: &[u8],
    ino: Ino,
    parent: Ino,
    name: &Bytes,
    perm: Perm,
) -> Result<(), NoMemory>
    ensures { OnOk result (out.new.items ≡ out.old.items ++ (word.now ++ made_fields ino parent name.now perm)) }
{
    put_word(out, word, ino)?;
    put_place(out, parent, name)?;
    put_number(out, perm.uid)?;
    put_number(out, perm.gid)?;
    put_mode(out, perm.mode)
}

fn put_removal(out: &mut Vec<u8>, word: &[u8], parent: Ino, name: &Bytes) -> Result<(), NoMemory>
    ensures { OnOk result (out.new.items ≡ out.old.items ++ (word.now ++ place_fields parent name.now)) }
{
    out.extend_from_slice(word)?;
    put_place(out, parent, name)
}

/// Appends the first word of a line, and a number.
fn put_word(out: &mut Vec<u8>, word: &[u8], number: u32) -> Result<(), NoMemory>
    ensures { OnOk result (out.new.items ≡ out.old.items ++ (word.now ++ number_field number)) }
{
    out.extend_from_slice(word)?;
    put_number(out, number)
}

/// Appends a TAB and the number.
fn put_number(out: &mut Vec<u8>, number: u32) -> Result<(), NoMemory>
    ensures { OnOk result (out.new.items ≡ out.old.items ++ number_field number) }
{
    out.push(b'\t')?;
    put_decimal(out, u64::from(number))
}

/// Appends a directory's number, and a name.
fn put_place(out: &mut Vec<u8>, parent: Ino, name: &Bytes) -> Result<(), NoMemory>
    ensures { OnOk result (out.new.items ≡ out.old.items ++ place_fields parent name.now) }
{
    put_number(out, parent)?;
    out.push(b'\t')?;
    put_field(out, name.as_slice())
}

/// Appends a TAB and the mode: three octal digits, or four where the first isn't 0.
fn put_mode(out: &mut Vec<u8>, mode: u16) -> Result<(), NoMemory>
    ensures { OnOk result (out.new.items ≡ out.old.items ++ mode_field mode) }
{
    out.push(b'\t')?;
    put_first_digit(out, mode)?;
    put_digit(out, mode / 64)?;
    put_digit(out, mode / 8)?;
    put_digit(out, mode)
}

/// Appends the first of four octal digits, where it isn't 0.
fn put_first_digit(out: &mut Vec<u8>, mode: u16) -> Result<(), NoMemory>
    ensures { OnOk result (out.new.items ≡ out.old.items ++ first_digit mode) }
{
    if mode / 512 % 8 != 0 {
        put_digit(out, mode / 512)?;
    }
    Ok(())
}

/// Appends the lowest octal digit of the number.
fn put_digit(out: &mut Vec<u8>, number: u16) -> Result<(), NoMemory>
    ensures { OnOk result (out.new.items ≡ out.old.items ++ octal_digit number ∷ []) }
{
    out.push(b'0' + (number % 8) as u8)?;
    Ok(())
}

/// Appends a TAB and the entries of the list, or nothing behind it where there is none.
fn put_list(out: &mut Vec<u8>, acl: Option<&Acl>, mask: u8) -> Result<(), NoMemory>
    ensures { OnOk result (out.new.items ≡ out.old.items ++ list_field (option_copied acl.entry) mask) }
{
    out.push(b'\t')?;
    let Some(acl) = acl else {
        return Ok(());
    };
    out.extend_from_slice(b"g::")?;
    put_bits(out, acl.owning)?;
    put_entries(out, b",u:", acl.users.as_slice())?;
    put_entries(out, b",g:", acl.groups.as_slice())?;
    out.extend_from_slice(b",m::")?;
    put_bits(out, mask)
}

fn put_entries(out: &mut Vec<u8>, lead: &[u8], entries: &[AclEntry]) -> Result<(), NoMemory>
    ensures { OnOk result (out.new.items ≡ out.old.items ++ flat_map (entry lead.now) entries.now) }
{
    for one in entries {
        put_entry(out, lead, *one)?;
    }
    Ok(())
}

fn put_entry(out: &mut Vec<u8>, lead: &[u8], one: AclEntry) -> Result<(), NoMemory>
    ensures { OnOk result (out.new.items ≡ out.old.items ++ entry lead.now one) }
{
    out.extend_from_slice(lead)?;
    put_decimal(out, u64::from(one.id))?;
    out.push(b':')?;
    put_bits(out, one.bits)
}

fn put_bits(out: &mut Vec<u8>, bits: u8) -> Result<(), NoMemory>
    ensures { OnOk result (out.new.items ≡ out.old.items ++ octal_digit bits ∷ []) }
{
    put_digit(out, u16::from(bits))
}
