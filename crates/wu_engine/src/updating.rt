//! How an event that is accepted changes the index and the store.
ghost use Rattle.std.specs.Prelude.{◌≡◌, None, Some, ◌+◌, ◌++◌, ◌<◌, ◌≤◌, ◌^◌, false};
ghost use Rattle.std.specs.Prelude.{IfErr, IfOk, IfSome, IsSome, OnOk, length, option_map};
ghost use Rattle.wu_base.specs.declared.limits.TheConstants.{ADDRESSES_MAX, TEXT_MAX};
ghost use Rattle.wu_outside.specs.Faults.{HasFaultCause};
ghost use Rattle.wu_space.specs.Addresses.{range_of};
ghost use Rattle.wu_parts.specs.Causes.{IsStoreCause};
ghost use Rattle.wu_parts.specs.Memory.{Gains};
ghost use Rattle.wu_engine.specs.Calls.{DrawsAtMost};
ghost use Rattle.wu_engine.specs.Puts.{MayPut, MayTryPut, MayTryPuts};
ghost use Rattle.wu_engine.specs.Stands.{KeepsOthers};
ghost use Rattle.wu_engine.specs.Indexing.{Follows, FlushesFull, IsIndexable, KeepsParts};
ghost use Rattle.wu_engine.specs.Indexing.{blob_for, blob_of, catalog_after, catalog_of, catalog_with};
ghost use Rattle.wu_engine.specs.Indexing.{catalog_without, drawn_for, is_stored, stored_at};
ghost use Rattle.wu_engine.specs.Indexing.{terms_after, terms_given};

use std::collections::BTreeMap;
use wu_base::{Ino, NoMemory, Range, Trouble};
use wu_image::FileRec;
use wu_outside::{Fault, Store};
use wu_parts::Parts;
use wu_space::Space;
use wu_tree::Effect;

/// Follows an event that happened: puts the text that it gives to a file into the store, does to the index what
/// the event did to the files, and flushes memory, where it is full then. After an error space, parts and files
/// are only dropped.
pub(crate) fn follow<D: Store>(
    space: &mut Space,
    parts: &mut Parts,
    files: &mut BTreeMap<Ino, FileRec>,
    store: &mut D,
    effect: Effect,
    text: &[u8],
) -> Result<(), Trouble>
    requires indexable { IsIndexable effect text.now space.old (drawn_for effect.texted text.now parts.old) }
    requires blobs { parts.old.next_blob + 2 < 2 ^ 63 }
    requires flushes { parts.old.flushes + 1 < 2 ^ 63 }
    ensures done { OnOk result (Follows effect text.now space.old space.new files.old.entries files.new.entries parts.old parts.new
        (D.holds store.old, D.moments store.old) (D.holds store.new, D.moments store.new)) }
    ensures untouched { OnOk result (is_stored effect.texted text.now ≡ false
        → parts.old.memory.stored + length (terms_after effect text.now) < parts.old.flush_at
        → (store.new ≡ store.old) × (parts.new.next_blob ≡ parts.old.next_blob)) }
    ensures given { space.old.next ≤ space.new.next }
    ensures taken { space.new.next ≤ space.old.next + length (terms_after effect text.now) }
    ensures numbers { DrawsAtMost 2 parts.old parts.new }
    ensures elsewhere { KeepsOthers parts.old.next_blob (parts.old.next_blob + 2) (D.holds store.old) (D.holds store.new) }
    ensures tried { MayTryPuts parts.old.next_blob (parts.old.next_blob + 2) 2 (D.moments store.old) (D.moments store.new) }
    ensures reads { D.reads store.new ≡ D.reads store.old }
    ensures calm { OnOk result (D.faults store.new ≡ D.faults store.old) }
    ensures cause { IfErr result (IsStoreCause (D.faults store.old) (D.faults store.new)) }
{
    let blob = store_text(parts, store, effect.texted, text)?;
    index(space, parts, files, effect, text, blob)?;
    flush_if_full(parts, store, space)
}

/// Flushes memory, where it is full. After an error the parts are only dropped.
fn flush_if_full<D: Store>(parts: &mut Parts, store: &mut D, space: &Space) -> Result<(), Trouble>
    requires blob { parts.old.next_blob + 1 < 2 ^ 63 }
    requires flushes { parts.old.flushes + 1 < 2 ^ 63 }
    ensures flushed { OnOk result (FlushesFull space.now.ranges parts.old parts.new
        (D.holds store.old, D.moments store.old) (D.holds store.new, D.moments store.new)) }
    ensures untouched { OnOk result (parts.old.memory.stored < parts.old.flush_at → (store.new ≡ store.old) × (parts.new ≡ parts.old)) }
    ensures numbers { DrawsAtMost 1 parts.old parts.new }
    ensures elsewhere { KeepsOthers parts.old.next_blob (parts.old.next_blob + 1) (D.holds store.old) (D.holds store.new) }
    ensures tried { MayTryPut parts.old.next_blob (D.moments store.old) (D.moments store.new) }
    ensures reads { D.reads store.new ≡ D.reads store.old }
    ensures calm { OnOk result (D.faults store.new ≡ D.faults store.old) }
    ensures cause { IfErr result (IsStoreCause (D.faults store.old) (D.faults store.new)) }
{
    let _untouched = &*store;
    if parts.full() {
        return parts.flush(store, space);
    }
    Ok(())
}

/// Puts a text that a file is given into the store under the next blob's number, and gives that number. The
/// empty text is not put, and has the number 0. After an error the parts are only dropped.
pub(crate) fn store_text<D: Store>(
    parts: &mut Parts,
    store: &mut D,
    file: Option<Ino>,
    text: &[u8],
) -> Result<u64, Fault>
    requires { parts.old.next_blob < 2 ^ 63 }
    ensures blob { IfOk result (λ blob. blob ≡ blob_for file text.now parts.old.next_blob) }
    ensures parts { OnOk result (parts.new ≡ drawn_for file text.now parts.old) }
    ensures stored { OnOk result (D.holds store.new ≡ option_map (stored_at parts.old.next_blob file text.now) (D.holds store.old)) }
    ensures numbers { DrawsAtMost 1 parts.old parts.new }
    ensures elsewhere { MayPut parts.old.next_blob (D.holds store.old) (D.holds store.new) }
    ensures tried { MayTryPut parts.old.next_blob (D.moments store.old) (D.moments store.new) }
    ensures untouched { is_stored file text.now ≡ false → store.new ≡ store.old }
    ensures reads { D.reads store.new ≡ D.reads store.old }
    ensures cause { HasFaultCause (D.faults store.old) (D.faults store.new) result }
{
    if is_stored(file, text) {
        let blob = parts.draw_blob();
        store.put(blob, text)?;
        Ok(blob)
    } else {
        Ok(0)
    }
}

/// Whether a file is given a text that isn't empty.
fn is_stored(file: Option<Ino>, text: &[u8]) -> bool
    ensures { result ≡ is_stored file text.now }
{
    match file {
        Some(_) => !text.is_empty(),
        None => false,
    }
}

/// Does to the index what the event did to the files. The text is that which the event gives to a file, and
/// the blob is the one that holds it. The only error is out of memory, after which all of these are only
/// dropped.
pub(crate) fn index(
    space: &mut Space,
    parts: &mut Parts,
    files: &mut BTreeMap<Ino, FileRec>,
    effect: Effect,
    text: &[u8],
    blob: u64,
) -> Result<(), NoMemory>
    requires { IsIndexable effect text.now space.old parts.old }
    ensures catalog { OnOk result (catalog_of space.new files.new.entries parts.new
        ≡ catalog_after effect text.now blob (catalog_of space.old files.old.entries parts.old)) }
    ensures memory { OnOk result (Gains space.old.next (terms_after effect text.now) parts.old.memory parts.new.memory) }
    ensures given { space.old.next ≤ space.new.next }
    ensures taken { space.new.next ≤ space.old.next + length (terms_after effect text.now) }
    ensures others { KeepsParts parts.old parts.new }
{
    release(space, parts, files, effect.dropped)?;
    place_text(space, parts, files, effect.made, b"", 0)?;
    release(space, parts, files, effect.texted)?;
    place_text(space, parts, files, effect.texted, text, blob)
}

/// Gives up the file's live range, its record and its text's blob, if there is such a file. The only error is
/// out of memory.
fn release(
    space: &mut Space,
    parts: &mut Parts,
    files: &mut BTreeMap<Ino, FileRec>,
    file: Option<Ino>,
) -> Result<(), NoMemory>
    requires { IfSome file (λ ino. IsSome (range_of space.old.ranges ino)) }
    ensures catalog { OnOk result (catalog_of space.new files.new.entries parts.new
        ≡ catalog_without file (catalog_of space.old files.old.entries parts.old)) }
    ensures none { OnOk result (IfSome file (λ ino. range_of space.new.ranges ino ≡ None)) }
    ensures memory { OnOk result (parts.new.memory ≡ parts.old.memory) }
    ensures next { space.new.next ≡ space.old.next }
    ensures others { KeepsParts parts.old parts.new }
{
    space.keeps_the_rules();
    match file {
        Some(ino) => {
            space.release(ino);
            retire(parts, files.remove(&ino))
        }
        None => Ok(()),
    }
}

/// Notes that the blob of the record's text is no longer needed, if it has one. The only error is out of
/// memory.
fn retire(parts: &mut Parts, file: Option<FileRec>) -> Result<(), NoMemory>
    ensures retired { OnOk result (parts.new ≡ record parts.old { stale = parts.old.stale ++ blob_of file }) }
    ensures others { parts.new ≡ record parts.old { stale = parts.new.stale } }
{
    match file {
        Some(file) if file.blob != 0 => parts.retire(file.blob),
        _ => Ok(()),
    }
}

/// Gives the file, if there is one, the next addresses, one for each token of the text, records that the text
/// is in that blob, and puts the tokens' terms into memory. The only error is out of memory.
fn place_text(
    space: &mut Space,
    parts: &mut Parts,
    files: &mut BTreeMap<Ino, FileRec>,
    file: Option<Ino>,
    text: &[u8],
    blob: u64,
) -> Result<(), NoMemory>
    requires free { IfSome file (λ ino. range_of space.old.ranges ino ≡ None) }
    requires short { length text.now ≤ TEXT_MAX }
    requires below { parts.old.memory.end ≤ space.old.next }
    requires room { space.old.next + length (terms_given file text.now) ≤ ADDRESSES_MAX }
    ensures catalog { OnOk result (catalog_of space.new files.new.entries parts.new
        ≡ catalog_with file text.now blob (catalog_of space.old files.old.entries parts.old)) }
    ensures memory { OnOk result (Gains space.old.next (terms_given file text.now) parts.old.memory parts.new.memory) }
    ensures given { space.old.next ≤ space.new.next }
    ensures taken { space.new.next ≤ space.old.next + length (terms_given file text.now) }
    ensures others { KeepsParts parts.old parts.new }
{
    match file {
        Some(ino) => {
            let start = space.next();
            let len = parts.add_text(text, start)?;
            space.place(ino, len)?;
            files.insert(ino, recorded(ino, text, blob, Range { start, len }))?;
            Ok(())
        }
        None => Ok(()),
    }
}

/// The record of a file that has the text in that blob, with its tokens at the addresses of the range.
fn recorded(ino: Ino, text: &[u8], blob: u64, range: Range) -> FileRec
    requires { length text.now ≤ TEXT_MAX }
    ensures { result ≡ record { ino = ino; len = length text.now; blob = blob; range = range } }
{
    FileRec {
        ino,
        len: text.len() as u32,
        blob,
        range,
    }
}
