//! The script that makes what a user may search from nothing.
ghost use Rattle.std.specs.Prelude.{◌≡◌, ◌++◌, ◌-◌, ◌^◌, ℕ, map, min, option_map, sum_by, IfOk, IfErr, IfSome, OnOk};
ghost use Rattle.std.specs.List.{AllByRecursion, flat_map};
ghost use Rattle.std.specs.Option.{IsSomeAnd};
ghost use Rattle.wu_ask.specs.Questions.{Exporting as AskedExporting};
ghost use Rattle.wu_outside.specs.Reading.{OnlyReads};
ghost use Rattle.wu_space.specs.Addresses.{Ranges};
ghost use Rattle.wu_export.specs.Exporting.{with_files};
ghost use Rattle.wu_query.specs.Answer.{answer};
ghost use Rattle.wu_query.specs.Causes.{IsBrokenIn, IsDamagedOf};
ghost use Rattle.wu_query.specs.Exporting.{held_of, shown_at, size_recorded};
ghost use Rattle.wu_query.specs.Finding.{AreFirstOf, CanBeRead, IsCause, KeepsTexts};
ghost use Rattle.wu_query.specs.Finding.{text_at, text_recorded};
ghost use Rattle.wu_query.specs.Permitted.{AreReadForQuery, ReadsSuch};
ghost use Rattle.wu_query.specs.Reads.{IsTextOf, StopsUnsized};
ghost use Rattle.wu_query.specs.Records.{record_at};
ghost use Rattle.wu_query.specs.Searched.{Indexes};
ghost use Rattle.wu_query.specs.States.{State};
ghost use Rattle.wu_query.specs.View.{view_of};

use crate::reading::read_text;
use std::alloc::Global;
use std::collections::BTreeMap;
use wu_ask::Answered;
use wu_base::{Ino, Trouble};
use wu_export::Exporter;
use wu_frames::Frames;
use wu_image::FileRec;
use wu_outside::Store;
use wu_view::Seen;

/// The script that makes the user's files from nothing. Of the store only their texts are read,
/// each once and whole, in the order of her view.
///
/// Beside the script, which is built in one piece, the memory holds one text at a time.
pub fn export<D: Store>(
    alloc: Global,
    store: &mut D,
    frames: &Frames,
    files: &BTreeMap<Ino, FileRec>,
) -> Result<Answered, Trouble>
    requires { AllByRecursion CanBeRead files.now.entries }
    ensures answer { IfOk result (λ answered. (live : Ranges) (s : State) (uid : ℕ)
        → Indexes frames.now live s uid → KeepsTexts files.now.entries (D.holds store.old) s
        → answered ≡ answer (view_of s uid) AskedExporting) }
    ensures sound { OnOk result (AllByRecursion (IsTextOf (D.holds store.old) files.now.entries)
        (flat_map (text_at files.now.entries) frames.now.seen)) }
    ensures reads { OnOk result (D.reads store.new ≡ option_map (λ ranges.
        ranges ++ flat_map (text_at files.now.entries) frames.now.seen) (D.reads store.old)) }
    ensures permitted { (live : Ranges) (s : State) (uid : ℕ) → Indexes frames.now live s uid
        → KeepsTexts files.now.entries (D.holds store.old) s
        → ReadsSuch (AreReadForQuery s uid AskedExporting) (D.reads store.old) (D.reads store.new) }
    ensures store { OnlyReads D.Store store.old store.new result }
    ensures cause { IfErr result (IsCause
        (IsDamagedOf frames.now.seen files.now.entries (D.holds store.old))
        (D.faults store.old) (D.faults store.new) (D.reads store.old) (D.reads store.new)) }
{
    let seen = frames.seen.to_seen(alloc)?;
    let view = seen.as_slice();
    let begun = Exporter::new(alloc, view, size_of_texts(view, files))?;
    let written = with_texts(alloc, store, view, files, begun)?;
    Ok(Answered::Export {
        script: written.finish(),
    })
}

/// How many bytes the texts of the view have, as recorded, or the greatest number, where they have more. It is a
/// wish for memory alone, and no promise.
fn size_of_texts(view: &[Seen], files: &BTreeMap<Ino, FileRec>) -> usize
    ensures { result ≡ min (sum_by (λ seen. size_recorded (record_at files.now.entries seen.ino)) view.now) (2 ^ 64 - 1) }
{
    let mut size = 0usize;
    for seen in view {
        size = size.saturating_add(size_of_text(seen.ino, files));
    }
    size
}

/// How many bytes the text of the file of that number has, as recorded; none, where it has no record.
fn size_of_text(ino: Ino, files: &BTreeMap<Ino, FileRec>) -> usize
    ensures { result ≡ size_recorded (record_at files.now.entries ino) }
{
    match files.get(&ino) {
        Some(file) => file.len as usize,
        None => 0,
    }
}

/// The script with the files of the view, each of whose texts is read, written and let go.
fn with_texts<'a, D: Store>(
    alloc: Global,
    store: &mut D,
    view: &[Seen],
    files: &BTreeMap<Ino, FileRec>,
    exporter: Exporter<'a>,
) -> Result<Exporter<'a>, Trouble>
    requires { AllByRecursion CanBeRead files.now.entries }
    ensures script { IfOk result (λ exporter_with. IfSome (D.holds store.old) (λ content.
        exporter_with ≡ with_files exporter.entry (map (shown_at content files.now.entries) view.now))) }
    ensures sound { OnOk result (AllByRecursion (IsTextOf (D.holds store.old) files.now.entries)
        (flat_map (text_at files.now.entries) view.now)) }
    ensures store { OnlyReads D.Store store.old store.new result }
    ensures reads { OnOk result (D.reads store.new ≡ option_map (λ ranges.
        ranges ++ flat_map (text_at files.now.entries) view.now) (D.reads store.old)) }
    ensures only { ReadsSuch (AreFirstOf (flat_map (text_at files.now.entries) view.now))
        (D.reads store.old) (D.reads store.new) }
    ensures cause { IfErr result (IsCause
        (IsDamagedOf view.now files.now.entries (D.holds store.old))
        (D.faults store.old) (D.faults store.new) (D.reads store.old) (D.reads store.new)) }
{
    let _untouched = &*store;
    let mut written = exporter;
    for (place, seen) in view.iter().enumerate() {
        let text = text_of(alloc, store, seen.ino, files)?;
        written = written.with_file(place, seen.paths.as_slice(), &text)?;
    }
    Ok(written)
}

/// The text of the file of that number; a file without a record has the empty one. It is out of memory only before the
/// size of the text's blob was told.
fn text_of<D: Store>(
    alloc: Global,
    store: &mut D,
    ino: Ino,
    files: &BTreeMap<Ino, FileRec>,
) -> Result<Vec<u8>, Trouble>
    requires { AllByRecursion CanBeRead files.now.entries }
    ensures text { IfOk result (λ text. IfSome (D.holds store.old) (λ content.
        text.items ≡ held_of content (record_at files.now.entries ino))) }
    ensures sound { OnOk result (AllByRecursion (IsTextOf (D.holds store.old) files.now.entries)
        (text_recorded (record_at files.now.entries ino))) }
    ensures store { OnlyReads D.Store store.old store.new result }
    ensures reads { OnOk result (D.reads store.new
        ≡ option_map (λ ranges.
        ranges ++ text_recorded (record_at files.now.entries ino)) (D.reads store.old)) }
    ensures only { ReadsSuch (AreFirstOf (text_recorded (record_at files.now.entries ino)))
        (D.reads store.old) (D.reads store.new) }
    ensures memory { result ≡ Err Trouble.NoMemory → IsSomeAnd (record_at files.now.entries ino)
        (λ file. StopsUnsized (D.holds store.old) file (D.reads store.old) (D.reads store.new)) }
    ensures cause { IfErr result (IsCause (λ blob. IsSomeAnd (record_at files.now.entries ino)
        (λ file. IsBrokenIn (D.holds store.old) file blob))
        (D.faults store.old) (D.faults store.new) (D.reads store.old) (D.reads store.new)) }
{
    let _untouched = &*store;
    match files.get(&ino) {
        Some(file) => read_text(alloc, store, file),
        None => Ok(Vec::new(alloc)),
    }
}
