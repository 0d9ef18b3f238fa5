//! Batches, as they are read. Each is a header with the number of users and of changes, a line for each user,
//! and for each change a line and as many more as that says:
//!
//!     batch   USERS   CHANGES
//!     user    UID     GID..
//!     stays   INO   KIND   MODE   TEXT   NAMES   LINES
//!     made    INO   KIND   TEXT   LINES
//!     goes    INO   KIND   LINES
//!
//! `KIND` is `directory` or `file`, and `TEXT` is `text` where the file is given one, else `same`. `NAMES` is `other`
//! where a name stays, else `none`. The further lines are those of the script: `unlink` or `rmdir` for a name that
//! goes, `link` for one that comes, `mkdir` or `create` for the first name of what is made, and `chmod`, `chown` and
//! `acl` for what the node has after the batch.
use crate::lines::Lines;
use crate::stops::{Flaw, Stop};
use std::alloc::Global;
use std::io::BufRead;
use wu_access::{Acl, Perm, UserRec};
use wu_base::{Bytes, Ino, Sequence};
use wu_fields::{read_decimal, read_octal_mode, split_fields};
use wu_mirror::{Batch, Change, Fate, ListChange, Owners, Place, RightsChange};
use wu_tree::{Event, Kind};

/// The next batch, or none at the end of the input.
pub fn read_batch<R: BufRead + Drop>(
    alloc: Global,
    lines: &mut Lines<R>,
) -> Result<Option<Batch>, Stop> {
    if !lines.advance()? {
        return Ok(None);
    }
    let header = header_of(alloc, lines.line())?;
    let Some((user_count, change_count)) = header else {
        return Err(lines.stop(Flaw::Header));
    };
    let users = read_users(alloc, lines, user_count)?;
    let changes = read_changes(alloc, lines, change_count)?;
    Ok(Some(Batch {
        users: Sequence::from(users),
        changes: Sequence::from(changes),
    }))
}

/// How many users and changes the header tells, if it is one.
fn header_of(alloc: Global, line: &[u8]) -> Result<Option<(u64, u64)>, Stop> {
    let Some(fields) = split_fields(alloc, line)? else {
        return Ok(None);
    };
    match fields.as_slice() {
        [word, users, changes] if word.as_slice() == b"batch".as_slice() => {
            Ok(counts_of(users, changes))
        }
        _ => Ok(None),
    }
}

fn counts_of(users: &Bytes, changes: &Bytes) -> Option<(u64, u64)> {
    let users = number_in(users)?;
    let changes = number_in(changes)?;
    Some((u64::from(users), u64::from(changes)))
}

/// The number of 32 bits that the field spells.
fn number_in(field: &Bytes) -> Option<u32> {
    let number = read_decimal(field.as_slice(), u64::from(u32::MAX))?;
    u32::try_from(number).ok()
}

fn read_users<R: BufRead + Drop>(
    alloc: Global,
    lines: &mut Lines<R>,
    count: u64,
) -> Result<Vec<UserRec>, Stop> {
    let mut users = Vec::new(alloc);
    for _ in 0..count {
        users.push(read_user(alloc, lines)?)?;
    }
    Ok(users)
}

fn read_user<R: BufRead + Drop>(alloc: Global, lines: &mut Lines<R>) -> Result<UserRec, Stop> {
    match lines.event(alloc, Flaw::User)? {
        Event::User { uid, groups } => Ok(UserRec { uid, groups }),
        _ => Err(lines.stop(Flaw::User)),
    }
}

fn read_changes<R: BufRead + Drop>(
    alloc: Global,
    lines: &mut Lines<R>,
    count: u64,
) -> Result<Vec<Change>, Stop> {
    let mut changes = Vec::new(alloc);
    for _ in 0..count {
        changes.push(read_change(alloc, lines)?)?;
    }
    Ok(changes)
}

/// What the first line of a change tells.
#[derive(Clone, Copy)]
enum Head {
    Stays { mode: u16, has_other_name: bool },
    Made,
    Goes,
}

/// The first line of a change.
#[derive(Clone, Copy)]
struct Heading {
    ino: Ino,
    kind: Kind,
    head: Head,
    has_new_text: bool,
    further: u32,
}

fn read_change<R: BufRead + Drop>(alloc: Global, lines: &mut Lines<R>) -> Result<Change, Stop> {
    lines.expect()?;
    let Some(heading) = heading_in(alloc, lines.line())? else {
        return Err(lines.stop(Flaw::Change));
    };
    let mut draft = Draft::new(alloc, heading);
    for _ in 0..heading.further {
        let event = lines.event(alloc, Flaw::Part)?;
        if let Err(flaw) = draft.add(event)? {
            return Err(lines.stop(flaw));
        }
    }
    match draft.finished() {
        Ok(change) => Ok(change),
        Err(flaw) => Err(lines.stop(flaw)),
    }
}

/// The heading that the line is, if it is one.
fn heading_in(alloc: Global, line: &[u8]) -> Result<Option<Heading>, Stop> {
    match split_fields(alloc, line)? {
        Some(fields) => Ok(heading_of(fields.as_slice())),
        None => Ok(None),
    }
}

fn heading_of(fields: &[Bytes]) -> Option<Heading> {
    let [word, ino, kind, others @ .., further] = fields else {
        return None;
    };
    let ino = number_in(ino)?;
    let kind = kind_of(kind.as_slice())?;
    let further = number_in(further)?;
    let (head, has_new_text) = head_of(word.as_slice(), others)?;
    Some(Heading {
        ino,
        kind,
        head,
        has_new_text,
        further,
    })
}

/// What the word and the fields between the kind and the number of lines tell.
fn head_of(word: &[u8], fields: &[Bytes]) -> Option<(Head, bool)> {
    if word == b"stays".as_slice() {
        let [mode, text, names] = fields else {
            return None;
        };
        let mode = read_octal_mode(mode.as_slice())?;
        let has_new_text = choice_of(text.as_slice(), b"text", b"same")?;
        let has_other_name = choice_of(names.as_slice(), b"other", b"none")?;
        let head = Head::Stays {
            mode,
            has_other_name,
        };
        Some((head, has_new_text))
    } else if word == b"made".as_slice() {
        let [text] = fields else {
            return None;
        };
        let has_new_text = choice_of(text.as_slice(), b"text", b"same")?;
        Some((Head::Made, has_new_text))
    } else if word == b"goes".as_slice() && fields.is_empty() {
        Some((Head::Goes, false))
    } else {
        None
    }
}

fn kind_of(field: &[u8]) -> Option<Kind> {
    if choice_of(field, b"directory", b"file")? {
        Some(Kind::Directory)
    } else {
        Some(Kind::File)
    }
}

/// Whether the field is the one word or the other, if it is either.
fn choice_of(field: &[u8], yes: &[u8], no: &[u8]) -> Option<bool> {
    if field == yes {
        Some(true)
    } else if field == no {
        Some(false)
    } else {
        None
    }
}

/// A change of which not all lines were read.
#[derive(Drop)]
struct Draft {
    alloc: Global,
    heading: Heading,
    perm: Option<Perm>,
    mode: Option<u16>,
    owners: Option<Owners>,
    list: Option<ListChange>,
    mask: u8,
    going: Vec<Place>,
    coming: Vec<Place>,
}

impl Draft {
    fn new(alloc: Global, heading: Heading) -> Draft {
        Draft {
            alloc,
            heading,
            perm: None,
            mode: None,
            owners: None,
            list: None,
            mask: 0,
            going: Vec::new(alloc),
            coming: Vec::new(alloc),
        }
    }

    /// Adds what the line tells, unless it is no part of the change.
    fn add(&mut self, event: Event) -> Result<Result<(), Flaw>, Stop> {
        match event {
            Event::Unlink { parent, name } | Event::Rmdir { parent, name } => {
                self.going.push(Place { parent, name })?;
                Ok(Ok(()))
            }
            Event::Link { ino, parent, name } => self.add_name(ino, Place { parent, name }),
            Event::Mkdir {
                ino,
                parent,
                name,
                perm,
            } => self.add_first(Kind::Directory, ino, perm, Place { parent, name }),
            Event::Create {
                ino,
                parent,
                name,
                perm,
            } => self.add_first(Kind::File, ino, perm, Place { parent, name }),
            Event::Chmod { ino, mode } => Ok(self.set_mode(ino, mode)),
            Event::Chown { ino, uid, gid } => Ok(self.set_owners(ino, Owners { uid, gid })),
            Event::Acl { ino, acl, mask } => Ok(self.set_list(ino, acl, mask)),
            Event::User { .. } | Event::Text { .. } | Event::Rename { .. } => Ok(Err(Flaw::Part)),
        }
    }

    /// Whether the line may speak of that node, and told nothing before where it may tell one thing.
    fn check(&self, ino: Ino, is_new: bool) -> Result<(), Flaw> {
        if ino != self.heading.ino {
            Err(Flaw::Number)
        } else if is_new {
            Ok(())
        } else {
            Err(Flaw::Part)
        }
    }

    fn add_name(&mut self, ino: Ino, place: Place) -> Result<Result<(), Flaw>, Stop> {
        let checked = self.check(ino, true);
        if checked.is_ok() {
            self.coming.push(place)?;
        }
        Ok(checked)
    }

    fn add_first(
        &mut self,
        kind: Kind,
        ino: Ino,
        perm: Perm,
        place: Place,
    ) -> Result<Result<(), Flaw>, Stop> {
        let is_new = matches!(self.heading.head, Head::Made)
            && self.perm.is_none()
            && self.heading.kind == kind;
        let checked = self.check(ino, is_new);
        if checked.is_ok() {
            self.perm = Some(perm);
            self.coming.push(place)?;
        }
        Ok(checked)
    }

    fn stays(&self) -> bool {
        matches!(self.heading.head, Head::Stays { .. })
    }

    fn set_mode(&mut self, ino: Ino, mode: u16) -> Result<(), Flaw> {
        self.check(ino, self.stays() && self.mode.is_none())?;
        self.mode = Some(mode);
        Ok(())
    }

    fn set_owners(&mut self, ino: Ino, owners: Owners) -> Result<(), Flaw> {
        self.check(ino, self.stays() && self.owners.is_none())?;
        self.owners = Some(owners);
        Ok(())
    }

    fn set_list(&mut self, ino: Ino, acl: Option<Acl>, mask: u8) -> Result<(), Flaw> {
        let may_have = !matches!(self.heading.head, Head::Goes);
        self.check(ino, may_have && self.list.is_none())?;
        self.mask = mask;
        self.list = match acl {
            Some(acl) => Some(ListChange::Set(acl)),
            None => Some(ListChange::Removed),
        };
        Ok(())
    }

    /// The change, once all its lines were read.
    fn finished(self) -> Result<Change, Flaw> {
        let Draft {
            heading,
            perm,
            mode,
            owners,
            list,
            mask,
            going,
            coming,
            ..
        } = self;
        let list = list.unwrap_or(ListChange::Same);
        let fate = match heading.head {
            Head::Stays {
                mode: before,
                has_other_name,
            } => staying(before, mode, owners, list, mask, has_other_name)?,
            Head::Made => made(perm, list, mask)?,
            Head::Goes => Fate::Goes,
        };
        Ok(Change {
            ino: heading.ino,
            kind: heading.kind,
            fate,
            has_new_text: heading.has_new_text,
            going: Sequence::from(going),
            coming: Sequence::from(coming),
        })
    }
}

/// What becomes of a node that stays.
fn staying(
    before: u16,
    mode: Option<u16>,
    owners: Option<Owners>,
    list: ListChange,
    mask: u8,
    has_other_name: bool,
) -> Result<Fate, Flaw> {
    let after = mode.unwrap_or(before);
    if matches!(list, ListChange::Set(_)) && !is_masked(after, mask) {
        return Err(Flaw::Mask);
    }
    Ok(Fate::Stays {
        rights: RightsChange {
            before,
            after,
            owners,
            list,
        },
        has_other_name,
    })
}

/// What becomes of a node that is made.
fn made(perm: Option<Perm>, list: ListChange, mask: u8) -> Result<Fate, Flaw> {
    let Some(perm) = perm else {
        return Err(Flaw::Unmade);
    };
    match list {
        ListChange::Same => Ok(Fate::Made { perm, acl: None }),
        ListChange::Removed => Err(Flaw::Part),
        ListChange::Set(acl) => {
            if is_masked(perm.mode, mask) {
                Ok(Fate::Made {
                    perm,
                    acl: Some(acl),
                })
            } else {
                Err(Flaw::Mask)
            }
        }
    }
}

/// Whether the mask is the group's digit of the mode.
fn is_masked(mode: u16, mask: u8) -> bool {
    mode / 8 % 8 == u16::from(mask)
}
