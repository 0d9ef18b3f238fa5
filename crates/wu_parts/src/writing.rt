//! A part, put into the store.
ghost use Rattle.std.specs.Prelude.{◌≡◌, ℕ, List, Option, ◌<◌, IfErr, IfOk, OnOk, length};
ghost use Rattle.wu_base.specs.declared.troubles.Trouble.TheVariants.{NoMemory as RanOutOfMemory};
ghost use Rattle.wu_outside.specs.Content.{MayDo, with_blob};
ghost use Rattle.wu_outside.specs.Crash.{Put, try_change};
ghost use Rattle.wu_part.specs.Directories.{PartDirectory};
ghost use Rattle.wu_part.specs.Parts.{IsDirectoryOf, IsRecorded};
ghost use Rattle.wu_parts.specs.Causes.{IsStoreCause};
ghost use Rattle.wu_parts.specs.LiveLists.{AreEncodable};
ghost use Rattle.wu_parts.specs.StoredParts.{IsPut, StoresPart};

use std::alloc::Global;
use wu_base::{NoMemory, PartRec, Trouble};
use wu_outside::Store;
use wu_part::{Builder, Directory, HEADER_LEN, read_directory, read_header};

/// What is kept of a part in the store: its record and its directory.
#[derive(Drop)]
pub(crate) struct StoredPart {
    pub(crate) recorded: PartRec,
    pub(crate) directory: Directory,
}

/// Makes a part of generation 0 of the lists that were added, and puts it into the blob. Nothing is read. The errors are out
/// of memory, when the store has what it had, and a fault of the store; only that blob may differ then.
pub(crate) fn put_part<D: Store>(
    alloc: Global,
    store: &mut D,
    blob: u64,
    lists: Builder,
) -> Result<StoredPart, Trouble>
    requires some { 0 < length lists.lists }
    requires lists { AreEncodable lists.lists }
    ensures put { IfOk result (λ part. IsPut lists.lists blob part.recorded part.directory
        (D.holds store.old, D.moments store.old) (D.holds store.new, D.moments store.new)) }
    ensures elsewhere { (written : Option (List ℕ)) × MayDo (with_blob blob written) (D.holds store.old) (D.holds store.new) }
    ensures tried { (written : Option (List ℕ))
        × MayDo (try_change (Put blob) (with_blob blob written)) (D.moments store.old) (D.moments store.new) }
    ensures memory { IfErr result (λ trouble. trouble ≡ RanOutOfMemory
        → (D.holds store.new ≡ D.holds store.old) × (D.moments store.new ≡ D.moments store.old)) }
    ensures unread { D.reads store.new ≡ D.reads store.old }
    ensures calm { OnOk result (D.faults store.new ≡ D.faults store.old) }
    ensures cause { IfErr result (IsStoreCause (D.faults store.old) (D.faults store.new)) }
{
    let bytes = lists.finish(0)?;
    Ok(put_bytes(alloc, store, blob, &bytes)?)
}

/// Puts the part with these bytes into the blob. Nothing is read. The errors are out of memory, when the store has
/// what it had, and a fault of the store; only that blob may differ then.
pub(crate) fn put_bytes<D: Store>(
    alloc: Global,
    store: &mut D,
    blob: u64,
    bytes: &[u8],
) -> Result<StoredPart, Trouble>
    requires { (directory : PartDirectory) × IsDirectoryOf directory bytes.now }
    ensures put { IfOk result (λ part. StoresPart bytes.now blob part.recorded part.directory
        (D.holds store.old, D.moments store.old) (D.holds store.new, D.moments store.new)) }
    ensures elsewhere { (written : Option (List ℕ)) × MayDo (with_blob blob written) (D.holds store.old) (D.holds store.new) }
    ensures tried { (written : Option (List ℕ))
        × MayDo (try_change (Put blob) (with_blob blob written)) (D.moments store.old) (D.moments store.new) }
    ensures memory { IfErr result (λ trouble. trouble ≡ RanOutOfMemory
        → (D.holds store.new ≡ D.holds store.old) × (D.moments store.new ≡ D.moments store.old)) }
    ensures unread { D.reads store.new ≡ D.reads store.old }
    ensures calm { OnOk result (D.faults store.new ≡ D.faults store.old) }
    ensures cause { IfErr result (IsStoreCause (D.faults store.old) (D.faults store.new)) }
{
    let directory = directory_of(alloc, bytes)?;
    store.put(blob, bytes)?;
    Ok(StoredPart {
        recorded: record_of(blob, &directory),
        directory,
    })
}

/// The directory of the part with these bytes.
fn directory_of(alloc: Global, bytes: &[u8]) -> Result<Directory, NoMemory>
    requires { (directory : PartDirectory) × IsDirectoryOf directory bytes.now }
    ensures { IfOk result (λ read. IsDirectoryOf read bytes.now) }
{
    let (header, rest) = bytes.split_at(HEADER_LEN);
    let length = read_header(header).unwrap() as usize;
    let read = read_directory(alloc, &rest[..length], bytes.len() as u64)?;
    Ok(read.unwrap())
}

/// What is recorded of the part in that blob.
fn record_of(blob: u64, directory: &Directory) -> PartRec
    ensures blob { result.blob ≡ blob }
    ensures told { IsRecorded result directory.now }
{
    PartRec {
        blob,
        size: directory.size(),
        generation: directory.generation(),
        low: directory.low(),
        high: directory.high(),
        stored: directory.stored(),
    }
}
