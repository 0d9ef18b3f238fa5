//! Opening of the parts that a store has.
ghost use Rattle.std.specs.Prelude.{◌≡◌, ◌+◌, ◌<◌, ◌≤◌, ◌^◌, [], ◌∷◌, Some, IfErr, IfNone, IfOk, IfSome, MatchBool, MatchOption, OnErr, OnOk, length};
ghost use Rattle.wu_base.specs.declared.troubles.Trouble.TheVariants.{Damaged as DamagedBlob};
ghost use Rattle.wu_outside.specs.Content.{HasSize};
ghost use Rattle.wu_outside.specs.Faults.{HasFaultCause};
ghost use Rattle.wu_outside.specs.Ranges.{AddsRange, asked_size};
ghost use Rattle.wu_part.specs.Parts.{IsRecorded};
ghost use Rattle.wu_part.specs.declared.headers.TheConstants.{HEADER_LEN as header_length};
ghost use Rattle.wu_job.specs.Steps.{adds};
ghost use Rattle.wu_parts.specs.Causes.{IsStoreCause};
ghost use Rattle.wu_parts.specs.Loading.{IsLoadCause, ReadsFronts, WasHeaderRead, directory_range, end_of as end_of_records, header_range};
ghost use Rattle.wu_parts.specs.OpenedParts.{ArePartsOpened, CannotBeOpened, EndsBefore, HasBytesAt, IsDirectoryIn, IsDirectoryRead, IsHeaderOf, IsMemoryCause, IsPartOpened};

use crate::writing::StoredPart;
use std::alloc::Global;
use wu_base::{PartRec, Trouble};
use wu_outside::{Fault, Store};
use wu_part::{Directory, HEADER_LEN, keep_directory, read_header};

/// The parts of these records, from left to right, each with the directory that its blob has. The leftmost one
/// that can't be opened is answered as damaged.
pub(crate) fn open_parts<D: Store>(
    alloc: Global,
    store: &mut D,
    records: &[PartRec],
) -> Result<Vec<StoredPart>, Trouble>
    ensures opened { IfOk result (λ parts.
        ArePartsOpened (D.holds store.old) records.now (D.reads store.old) (D.reads store.new) parts.items) }
    ensures fronts { ReadsFronts (D.holds store.old) records.now (D.reads store.old) (D.reads store.new) }
    ensures holds { D.holds store.new ≡ D.holds store.old }
    ensures moments { D.moments store.new ≡ D.moments store.old }
    ensures calm { OnOk result (D.faults store.new ≡ D.faults store.old) }
    ensures cause { IfErr result (IsLoadCause (D.holds store.old) records.now (D.faults store.old) (D.faults store.new)
        (D.reads store.old) (D.reads store.new)) }
{
    let mut parts = Vec::new(alloc);
    for recorded in records {
        let part = open_part(alloc, store, recorded)?;
        parts.push(part)?;
    }
    Ok(parts)
}

/// The part of the record, with the directory that its blob has.
fn open_part<D: Store>(
    alloc: Global,
    store: &mut D,
    recorded: &PartRec,
) -> Result<StoredPart, Trouble>
    ensures opened { IfOk result (IsPartOpened (D.holds store.old) recorded.now (D.reads store.old) (D.reads store.new)) }
    ensures fronts { ReadsFronts (D.holds store.old) (recorded.now ∷ []) (D.reads store.old) (D.reads store.new) }
    ensures memory { result ≡ Err Trouble.NoMemory
        → IsMemoryCause (D.holds store.old) recorded.now (D.reads store.old) (D.reads store.new) }
    ensures holds { D.holds store.new ≡ D.holds store.old }
    ensures moments { D.moments store.new ≡ D.moments store.old }
    ensures calm { OnOk result (D.faults store.new ≡ D.faults store.old) }
    ensures cause { IfErr result (IsLoadCause (D.holds store.old) (recorded.now ∷ []) (D.faults store.old) (D.faults store.new)
        (D.reads store.old) (D.reads store.new)) }
{
    let found = directory_in(alloc, store, recorded)?;
    Ok(as_recorded(found, recorded)?)
}

/// The part of the record with the directory that was found, where that tells what is recorded. Else its blob is damaged:
/// there is no other error.
fn as_recorded(found: Option<Directory>, recorded: &PartRec) -> Result<StoredPart, Trouble>
    requires { IfSome found (λ directory. directory.size ≡ recorded.now.size) }
    ensures ok { IfOk result (λ part. (part.recorded ≡ recorded.now) × (found ≡ Some part.directory)
        × IsRecorded recorded.now part.directory) }
    ensures err { IfErr result (λ trouble. (trouble ≡ DamagedBlob recorded.now.blob)
        × IfSome found (λ directory. IsRecorded recorded.now directory → ⊥)) }
{
    match found {
        Some(directory) if tells(&directory, recorded) => Ok(StoredPart {
            recorded: *recorded,
            directory,
        }),
        _ => Err(Trouble::Damaged {
            blob: recorded.blob,
        }),
    }
}

/// Whether the directory, which is of the recorded size, tells what is recorded of the part.
fn tells(directory: &Directory, recorded: &PartRec) -> bool
    requires { directory.now.size ≡ recorded.now.size }
    ensures { MatchBool result (IsRecorded recorded.now directory.now) (IsRecorded recorded.now directory.now → ⊥) }
{
    directory.generation() == recorded.generation
        && directory.low() == recorded.low
        && directory.high() == recorded.high
        && directory.stored() == recorded.stored
}

/// The directory of the part's blob. None where the blob is absent, has another size than recorded or no
/// directory. It is out of memory only where it wasn't found so: before a read, or before the size was told, or where
/// that is right.
fn directory_in<D: Store>(
    alloc: Global,
    store: &mut D,
    recorded: &PartRec,
) -> Result<Option<Directory>, Trouble>
    ensures found { IfOk result (λ found. IfSome found
        (IsDirectoryRead (D.holds store.old) recorded.now (D.reads store.old) (D.reads store.new))) }
    ensures none { IfOk result (λ found. IfNone found (CannotBeOpened (D.holds store.old) recorded.now)) }
    ensures fronts { ReadsFronts (D.holds store.old) (recorded.now ∷ []) (D.reads store.old) (D.reads store.new) }
    ensures read { OnOk result (WasHeaderRead (D.reads store.old) (D.reads store.new) recorded.now.blob) }
    ensures memory { result ≡ Err Trouble.NoMemory
        → IsMemoryCause (D.holds store.old) recorded.now (D.reads store.old) (D.reads store.new) }
    ensures holds { D.holds store.new ≡ D.holds store.old }
    ensures moments { D.moments store.new ≡ D.moments store.old }
    ensures calm { OnOk result (D.faults store.new ≡ D.faults store.old) }
    ensures cause { IfErr result (IsStoreCause (D.faults store.old) (D.faults store.new)) }
{
    // The header is read before the size is asked: no part is called damaged of which nothing was read.
    match header_in(store, recorded)? {
        Some(length) => {
            if !has_size(store, recorded)? {
                return Ok(None);
            }
            directory_after(alloc, store, recorded, length)
        }
        None => Ok(None),
    }
}

/// Whether the part's blob has the size that is recorded of it.
fn has_size<D: Store>(store: &mut D, recorded: &PartRec) -> Result<bool, Fault>
    ensures size { IfOk result (λ sized. IfSome (D.holds store.old) (λ content. MatchBool sized
        (HasSize recorded.now.size (content.blobs recorded.now.blob)) (HasSize recorded.now.size (content.blobs recorded.now.blob) → ⊥))) }
    ensures holds { D.holds store.new ≡ D.holds store.old }
    ensures noted { AddsRange (D.reads store.old) (D.reads store.new) (asked_size recorded.now.blob) result }
    ensures moments { D.moments store.new ≡ D.moments store.old }
    ensures cause { HasFaultCause (D.faults store.old) (D.faults store.new) result }
{
    match store.size(recorded.blob)? {
        Some(size) => Ok(size == recorded.size),
        None => Ok(false),
    }
}

/// The length of the directory, as the header of the part's blob tells it. None where the blob has no header, or
/// no room for so long a directory.
fn header_in<D: Store>(store: &mut D, recorded: &PartRec) -> Result<Option<u64>, Fault>
    ensures found { IfOk result (λ found. IfSome found (IsHeaderOf (D.holds store.old) recorded.now)) }
    ensures none { IfOk result (λ found. IfNone found (CannotBeOpened (D.holds store.old) recorded.now)) }
    ensures holds { D.holds store.new ≡ D.holds store.old }
    ensures noted { AddsRange (D.reads store.old) (D.reads store.new) (header_range recorded.now.blob) result }
    ensures moments { D.moments store.new ≡ D.moments store.old }
    ensures cause { HasFaultCause (D.faults store.old) (D.faults store.new) result }
{
    let mut header = [0; HEADER_LEN];
    if !fill(store, recorded.blob, 0, &mut header)? {
        return Ok(None);
    }
    match read_header(&header) {
        Some(length) if has_room(length, recorded.size) => Ok(Some(length)),
        _ => Ok(None),
    }
}

/// Whether a blob of so many bytes has room for a header and a directory of that length.
fn has_room(length: u64, size: u64) -> bool
    ensures { MatchBool result (header_length + length ≤ size) (size < header_length + length) }
{
    let header = HEADER_LEN as u64;
    header <= size && length <= size - header
}

/// The directory of the part's blob, which has so many bytes after the header. None where they aren't the
/// spelling of one.
fn directory_after<D: Store>(
    alloc: Global,
    store: &mut D,
    recorded: &PartRec,
    length: u64,
) -> Result<Option<Directory>, Trouble>
    requires size { IfSome (D.holds store.old) (λ content. HasSize recorded.now.size (content.blobs recorded.now.blob)) }
    requires header { IsHeaderOf (D.holds store.old) recorded.now length }
    ensures found { IfOk result (λ found. IfSome found (λ directory. IsDirectoryIn (D.holds store.old) recorded.now directory length)) }
    ensures none { IfOk result (λ found. IfNone found (CannotBeOpened (D.holds store.old) recorded.now)) }
    ensures fronts { ReadsFronts (D.holds store.old) (recorded.now ∷ []) (D.reads store.old) (D.reads store.new) }
    ensures read { OnOk result (D.reads store.new ≡ adds (directory_range recorded.now.blob length ∷ []) (D.reads store.old)) }
    ensures holds { D.holds store.new ≡ D.holds store.old }
    ensures moments { D.moments store.new ≡ D.moments store.old }
    ensures calm { OnOk result (D.faults store.new ≡ D.faults store.old) }
    ensures cause { IfErr result (IsStoreCause (D.faults store.old) (D.faults store.new)) }
{
    match directory_bytes(alloc, store, recorded.blob, length)? {
        Some(bytes) => Ok(keep_directory(alloc, bytes, recorded.size)?),
        None => Ok(None),
    }
}

/// So many bytes of the blob after its header, in one read. None where it is absent or has fewer. Memory is taken
/// before the store is asked.
fn directory_bytes<D: Store>(
    alloc: Global,
    store: &mut D,
    blob: u64,
    count: u64,
) -> Result<Option<Vec<u8>>, Trouble>
    ensures long { IfOk result (λ found. IfSome found (λ bytes. length bytes.items ≡ count)) }
    ensures found { IfOk result (λ found. IfSome (D.holds store.old) (λ content. MatchOption found
        (EndsBefore (content.blobs blob) header_length count)
        (λ bytes. HasBytesAt (content.blobs blob) header_length bytes.items))) }
    ensures holds { D.holds store.new ≡ D.holds store.old }
    ensures moments { D.moments store.new ≡ D.moments store.old }
    ensures read { OnOk result (D.reads store.new ≡ adds (directory_range blob count ∷ []) (D.reads store.old)) }
    ensures unread { OnErr result (D.reads store.new ≡ D.reads store.old) }
    ensures calm { OnOk result (D.faults store.new ≡ D.faults store.old) }
    ensures cause { IfErr result (IsStoreCause (D.faults store.old) (D.faults store.new)) }
{
    let mut bytes = vec![in alloc; 0u8; count as usize]?;
    if !fill(store, blob, HEADER_LEN as u64, &mut bytes)? {
        return Ok(None);
    }
    Ok(Some(bytes))
}

/// Fills the buffer with the bytes of the blob from that place on, in one read. Answers whether the blob has so
/// many there.
fn fill<D: Store>(store: &mut D, blob: u64, place: u64, buffer: &mut [u8]) -> Result<bool, Fault>
    ensures filled { IfOk result (λ filled. IfSome (D.holds store.old) (λ content. MatchBool filled
        (HasBytesAt (content.blobs blob) place buffer.new) (EndsBefore (content.blobs blob) place (length buffer.new)))) }
    ensures holds { D.holds store.new ≡ D.holds store.old }
    ensures noted { AddsRange (D.reads store.old) (D.reads store.new) (record { blob = blob; at = place; len = length buffer.new }) result }
    ensures moments { D.moments store.new ≡ D.moments store.old }
    ensures cause { HasFaultCause (D.faults store.old) (D.faults store.new) result }
{
    match store.read(blob, place, buffer)? {
        Some(count) => Ok(count == buffer.len()),
        None => Ok(false),
    }
}

/// The first address after the last part, or 0.
pub(crate) fn end_of(records: &[PartRec]) -> u64
    requires { end_of_records records.now < 2 ^ 64 }
    ensures { result ≡ end_of_records records.now }
{
    match records.last() {
        Some(last) => last.high + 1,
        None => 0,
    }
}
