//! The index of what was saved, by the version of the store: its parts, or, of an older store, whose words may be
//! others than those that its texts have now, the texts, which are indexed anew.
ghost use Rattle.std.specs.Prelude.{◌≡◌, ℕ, ◌+◌, ◌++◌, ◌<◌, ◌≤◌, ◌∷◌, [], IfErr, IfOk, IfSome, OnOk, length, map, option_map};
ghost use Rattle.std.specs.List.{AllByRecursion};
ghost use Rattle.wu_base.specs.declared.limits.TheConstants.{SPENT_AT};
ghost use Rattle.wu_token.specs.Tokens.{tokens_of};
ghost use Rattle.wu_outside.specs.Reading.{OnlyReads};
ghost use Rattle.wu_parts.specs.Contents.{no_contents};
ghost use Rattle.wu_parts.specs.Memory.{Gains, HasPostings, no_postings};
ghost use Rattle.wu_image.specs.Checkpoints.{IsCheckpoint};
ghost use Rattle.wu_image.specs.Checks.{AreInOrder};
ghost use Rattle.wu_image.specs.Images.{IsByAddress, postings_from, text_held};
ghost use Rattle.wu_image.specs.Roots.{IsVersion};
ghost use Rattle.wu_query.specs.Finding.{IsCause};
ghost use Rattle.wu_query.specs.Permitted.{ReadsOnly};
ghost use Rattle.wu_query.specs.Reads.{IsOfText, whole_text};
ghost use Rattle.wu_query.specs.Causes.{IsBrokenIn};
ghost use Rattle.wu_engine.specs.Reindexed.{IsIndexCause, IsIndexOpened, IsReindexable, IsReindexed, ReadsIndex};
ghost use Rattle.wu_engine.specs.Reindexing.{IsFirstBrokenText, IsFirstOfBroken, IsTextOfOne, IsThere, texts_whole};

use std::alloc::Global;
use wu_base::{NoMemory, PartRec, Trouble};
use wu_image::{Checkpoint, FileRec};
use wu_outside::Store;
use wu_parts::Parts;
use wu_query::read_text;

/// The parts that the checkpoint records, opened; or, where the root is of the first version, no part, and the
/// postings of the recorded texts in memory. Nothing is changed in the store.
pub(crate) fn open_index<D: Store>(
    alloc: Global,
    store: &mut D,
    version: u8,
    checkpoint: &Checkpoint,
    flush_at: u64,
) -> Result<Parts, Trouble>
    requires version { IsVersion version }
    requires rules { IsCheckpoint checkpoint.now }
    requires room { checkpoint.now.next_address < SPENT_AT }
    ensures opened { IfOk result (IsIndexOpened (D.holds store.old) version checkpoint.now flush_at
        (D.reads store.old) (D.reads store.new)) }
    ensures store { OnlyReads D.Store store.old store.new result }
    ensures reads { ReadsIndex (D.holds store.old) version checkpoint.now (D.reads store.old) (D.reads store.new) }
    ensures cause { IfErr result (IsIndexCause (D.holds store.old) version checkpoint.now (D.faults store.old) (D.faults store.new)) }
{
    if version == 1 {
        return reindex(alloc, store, checkpoint, flush_at);
    }
    Parts::load(
        alloc,
        store,
        checkpoint.parts.as_slice(),
        flush_at,
        checkpoint.next_blob,
        checkpoint.flushes,
    )
}

/// No part, and the postings of the recorded texts in memory: each is read whole, in the order of their addresses. The
/// blobs of the parts that the checkpoint records are no longer needed.
fn reindex<D: Store>(
    alloc: Global,
    store: &mut D,
    checkpoint: &Checkpoint,
    flush_at: u64,
) -> Result<Parts, Trouble>
    requires rules { IsCheckpoint checkpoint.now }
    requires room { checkpoint.now.next_address < SPENT_AT }
    ensures opened { IfOk result (IsReindexed (D.holds store.old) checkpoint.now flush_at (D.reads store.old) (D.reads store.new)) }
    ensures store { OnlyReads D.Store store.old store.new result }
    ensures reads { ReadsOnly (IsTextOfOne checkpoint.now.files) (D.reads store.old) (D.reads store.new) }
    ensures cause { IfErr result (IsCause (IsFirstBrokenText (D.holds store.old) checkpoint.now.files)
        (D.faults store.old) (D.faults store.new) (D.reads store.old) (D.reads store.new)) }
{
    let (mut parts, files) = parts_to_fill(alloc, checkpoint, flush_at)?;
    index_texts(alloc, store, &mut parts, &files)?;
    Ok(parts)
}

/// No posting and no part, with what a reindexing begins from: the blobs of the checkpoint's parts are no longer
/// needed, and the files stand in the order of their addresses.
fn parts_to_fill(
    alloc: Global,
    checkpoint: &Checkpoint,
    flush_at: u64,
) -> Result<(Parts, Vec<FileRec>), NoMemory>
    ensures parts { IfOk result (λ filled. filled.0 ≡ record (no_contents flush_at checkpoint.now.next_blob) {
      stale = map (λ part. part.blob) checkpoint.now.parts;
    }) }
    ensures files { IfOk result (λ filled. IsByAddress checkpoint.now.files filled.1.items) }
{
    let mut parts = Parts::new(alloc, flush_at, checkpoint.next_blob)?;
    retire_all(&mut parts, checkpoint.parts.as_slice())?;
    let files = by_address(alloc, checkpoint.files.as_slice())?;
    Ok((parts, files))
}

/// Notes that the blobs of these parts are no longer needed. The only error is out of memory.
fn retire_all(parts: &mut Parts, unneeded: &[PartRec]) -> Result<(), NoMemory>
    ensures { OnOk result (parts.new ≡ record parts.old { stale = parts.old.stale ++ map (λ part. part.blob) unneeded.now }) }
{
    for part in unneeded {
        parts.retire(part.blob)?;
    }
    Ok(())
}

/// The files in the order of their addresses.
fn by_address(alloc: Global, files: &[FileRec]) -> Result<Vec<FileRec>, NoMemory>
    ensures { IfOk result (λ order. IsByAddress files.now order.items) }
{
    let mut order = Vec::with_capacity(alloc, files.len())?;
    order.extend_from_slice(files)?;
    order.sort_unstable_by_key(|file| file.range.start);
    Ok(order)
}

/// Reads the texts of the files, one after the other, and puts their terms into memory, each at the addresses
/// of its file. After an error the parts are only dropped.
fn index_texts<D: Store>(
    alloc: Global,
    store: &mut D,
    parts: &mut Parts,
    files: &[FileRec],
) -> Result<(), Trouble>
    requires fresh { parts.old.memory ≡ no_postings }
    requires files { AllByRecursion IsReindexable files.now }
    requires order { AreInOrder 0 (map (λ file. file.range) files.now) }
    ensures whole { OnOk result (AllByRecursion (IsThere (D.holds store.old)) files.now) }
    ensures memory { OnOk result (IfSome (D.holds store.old)
        (λ content. HasPostings 0 parts.new.memory.end parts.new.memory (postings_from (text_held content) files.now))) }
    ensures below { OnOk result ((next : ℕ) → AllByRecursion (λ file. file.range.start + file.range.len ≤ next) files.now
        → parts.new.memory.end ≤ next) }
    ensures others { OnOk result (parts.new ≡ record parts.old { memory = parts.new.memory }) }
    ensures store { OnlyReads D.Store store.old store.new result }
    ensures reads { OnOk result (D.reads store.new ≡ option_map (λ ranges. ranges ++ texts_whole files.now) (D.reads store.old)) }
    ensures only { ReadsOnly (IsTextOfOne files.now) (D.reads store.old) (D.reads store.new) }
    ensures cause { IfErr result (IsCause (IsFirstOfBroken (D.holds store.old) files.now)
        (D.faults store.old) (D.faults store.new) (D.reads store.old) (D.reads store.new)) }
{
    for file in files {
        index_text(alloc, store, parts, file)?;
    }
    Ok(())
}

/// Reads the file's text, and puts its terms into memory at the addresses of the file. After an error the parts are
/// only dropped.
fn index_text<D: Store>(
    alloc: Global,
    store: &mut D,
    parts: &mut Parts,
    file: &FileRec,
) -> Result<(), Trouble>
    requires file { IsReindexable file.now }
    requires after { parts.old.memory.end ≤ file.now.range.start }
    ensures whole { OnOk result (IsThere (D.holds store.old) file.now) }
    ensures memory { OnOk result (IfSome (D.holds store.old)
        (λ content. (length (tokens_of (text_held content file.now)) ≡ file.now.range.len)
        × Gains file.now.range.start (tokens_of (text_held content file.now)) parts.old.memory parts.new.memory)) }
    ensures end { OnOk result (parts.new.memory.end ≡ file.now.range.start + file.now.range.len) }
    ensures others { OnOk result (parts.new ≡ record parts.old { memory = parts.new.memory }) }
    ensures store { OnlyReads D.Store store.old store.new result }
    ensures reads { OnOk result (D.reads store.new
        ≡ option_map (λ ranges. ranges ++ whole_text file.now.blob file.now.len) (D.reads store.old)) }
    ensures only { ReadsOnly (IsOfText file.now.blob file.now.len) (D.reads store.old) (D.reads store.new) }
    ensures cause { IfErr result (IsCause (IsBrokenIn (D.holds store.old) file.now)
        (D.faults store.old) (D.faults store.new) (D.reads store.old) (D.reads store.new)) }
{
    let text = read_text(alloc, store, file)?;
    parts.add_text(&text, file.range.start)?;
    Ok(())
}
