//! Events as rows write them, and what a tree answers.
ghost use Rattle.std.specs.Prelude.{◌≤◌, IfOk};
ghost use Rattle.wu_tree.specs.Steps.{IsEvent};

use crate::acls;
use crate::nodes::mode_of;
use crate::refusals::name_of;
use std::alloc::Global;
use wu_access::Perm;
use wu_base::{Bytes, Ino, Sequence};
use wu_rows::{NoAnswer, plain_text, script, small_number};
use wu_tree::{Effect, Event, Refusal, Tree};

/// What the tree answers to the event of these words. `chain` makes directories as deep as the
/// number says, each in the one before.
pub fn answered(alloc: Global, tree: &mut Tree, words: &[&str]) -> Result<String, NoAnswer> {
    if let ["chain", depth] = words {
        return make_chain(alloc, tree, small_number(depth)?);
    }
    let event = event(alloc, words)?;
    happened(alloc, tree, &event)
}

fn happened(alloc: Global, tree: &mut Tree, event: &Event) -> Result<String, NoAnswer>
    requires { IsEvent event.now }
{
    answer_text(alloc, tree.apply(event)?)
}

fn make_chain(alloc: Global, tree: &mut Tree, depth: Ino) -> Result<String, NoAnswer> {
    for parent in 1..depth {
        let answer = make_directory(alloc, tree, parent)?;
        if answer.as_str().starts_with("refused") {
            return Ok(answer);
        }
    }
    plain_text(alloc, "done")
}

fn make_directory(alloc: Global, tree: &mut Tree, parent: Ino) -> Result<String, NoAnswer> {
    let event = directory(alloc, parent)?;
    happened(alloc, tree, &event)
}

/// The event that makes the directory `d` in the one of this number, with the number after it.
fn directory(alloc: Global, parent: Ino) -> Result<Event, NoAnswer>
    ensures { IfOk result (λ event. IsEvent event) }
{
    Ok(Event::Mkdir {
        ino: parent.saturating_add(1),
        parent,
        name: Bytes::from_slice(alloc, b"d")?,
        perm: perm("755")?,
    })
}

fn answer_text(alloc: Global, answer: Result<Effect, Refusal>) -> Result<String, NoAnswer> {
    match answer {
        Ok(effect) => effect_text(alloc, &effect),
        Err(refusal) => {
            let name = name_of(refusal);
            Ok(format!(in alloc; "refused {name}")?)
        }
    }
}

fn effect_text(alloc: Global, effect: &Effect) -> Result<String, NoAnswer> {
    match (effect.made, effect.dropped, effect.texted) {
        (None, None, None) => plain_text(alloc, "done"),
        (Some(ino), None, None) => Ok(format!(in alloc; "made {ino}")?),
        (None, Some(ino), None) => Ok(format!(in alloc; "dropped {ino}")?),
        (None, None, Some(ino)) => Ok(format!(in alloc; "texted {ino}")?),
        _ => plain_text(alloc, "more than one"),
    }
}

/// The event that the words spell. What is made is user 0's and group 0's.
pub fn event(alloc: Global, words: &[&str]) -> Result<Event, NoAnswer>
    ensures { IfOk result (λ event. IsEvent event) }
{
    match words {
        ["mkdir" | "create", ..] => made(alloc, words),
        ["link" | "unlink" | "rmdir" | "rename", ..] => linked(alloc, words),
        _ => changed(alloc, words),
    }
}

fn made(alloc: Global, words: &[&str]) -> Result<Event, NoAnswer>
    ensures { IfOk result (λ event. IsEvent event) }
{
    let [call, ino, parent, name, mode] = words else {
        return Err(NoAnswer::BadRow);
    };
    let ino = small_number(ino)?.max(1);
    let parent = small_number(parent)?;
    let name = name_of_word(alloc, name)?;
    let perm = perm(mode)?;
    if *call == "mkdir" {
        Ok(Event::Mkdir {
            ino,
            parent,
            name,
            perm,
        })
    } else {
        Ok(Event::Create {
            ino,
            parent,
            name,
            perm,
        })
    }
}

fn linked(alloc: Global, words: &[&str]) -> Result<Event, NoAnswer>
    ensures { IfOk result (λ event. IsEvent event) }
{
    match words {
        ["link", ino, parent, name] => Ok(Event::Link {
            ino: small_number(ino)?,
            parent: small_number(parent)?,
            name: name_of_word(alloc, name)?,
        }),
        ["unlink", parent, name] => Ok(Event::Unlink {
            parent: small_number(parent)?,
            name: name_of_word(alloc, name)?,
        }),
        ["rmdir", parent, name] => Ok(Event::Rmdir {
            parent: small_number(parent)?,
            name: name_of_word(alloc, name)?,
        }),
        ["rename", parent, name, new_parent, new_name] => Ok(Event::Rename {
            parent: small_number(parent)?,
            name: name_of_word(alloc, name)?,
            new_parent: small_number(new_parent)?,
            new_name: name_of_word(alloc, new_name)?,
        }),
        _ => Err(NoAnswer::BadRow),
    }
}

fn changed(alloc: Global, words: &[&str]) -> Result<Event, NoAnswer>
    ensures { IfOk result (λ event. IsEvent event) }
{
    match words {
        ["text", ino] => Ok(Event::Text {
            ino: small_number(ino)?,
        }),
        ["chmod", ino, mode] => Ok(Event::Chmod {
            ino: small_number(ino)?,
            mode: mode_of(mode)?.min(0o7777),
        }),
        ["chown", ino, uid, gid] => Ok(Event::Chown {
            ino: small_number(ino)?,
            uid: small_number(uid)?,
            gid: small_number(gid)?,
        }),
        ["user", uid, groups @ ..] => Ok(Event::User {
            uid: small_number(uid)?,
            groups: numbers_of(alloc, groups)?,
        }),
        ["acl", ino] => acls::event(alloc, ino, ""),
        ["acl", ino, entries] => acls::event(alloc, ino, entries),
        _ => Err(NoAnswer::BadRow),
    }
}

fn perm(mode: &str) -> Result<Perm, NoAnswer>
    ensures { IfOk result (λ perm. perm.mode ≤ 0xFFF) }
{
    Ok(Perm {
        uid: 0,
        gid: 0,
        mode: mode_of(mode)?.min(0o7777),
    })
}

/// The name that the word is written for.
pub fn name_of_word(alloc: Global, word: &str) -> Result<Bytes, NoAnswer> {
    Ok(Bytes::from(script(alloc, word)?))
}

/// The numbers that the words spell.
pub fn numbers_of(alloc: Global, words: &[&str]) -> Result<Sequence<u32>, NoAnswer> {
    let mut numbers = Vec::new(alloc);
    for word in words {
        numbers.push(small_number(word)?)?;
    }
    Ok(Sequence::from(numbers))
}
