//! Blobs that are read whole.
ghost use Rattle.std.specs.Prelude.{◌≡◌, Some, IfNone, IfOk, IfSome, OnOk, length};
ghost use Rattle.wu_outside.specs.Content.{HasSize};
ghost use Rattle.wu_outside.specs.Reading.{OnlyReads};
ghost use Rattle.wu_outside.specs.Faults.{HasFaultCause};
ghost use Rattle.wu_check.specs.Reads.{ReadsAll, ReadsAllOf, ReadsFront, TriesBlob, whole_blob};

use std::alloc::Global;
use wu_outside::{Fault, Store};

/// The bytes of the blob, in one read, where it has `size` of them. None where it is absent or has
/// another size. Errors are a fault of the store, only where its count rose, and out of memory.
pub fn read_whole<D: Store>(
    alloc: Global,
    store: &mut D,
    blob: u64,
    size: u64,
) -> Result<Option<Vec<u8>>, Fault>
    ensures bytes { IfOk result (λ found. IfSome found (λ bytes. IfSome (D.holds store.old)
        (λ content. content.blobs blob ≡ Some bytes.items))) }
    ensures size { IfOk result (λ found. IfSome found (λ bytes. length bytes.items ≡ size)) }
    ensures none { IfOk result (λ found. IfNone found (IfSome (D.holds store.old)
        (λ content. HasSize size (content.blobs blob) → ⊥))) }
    ensures reads { OnlyReads D.Store store.old store.new result }
    ensures ranges { ReadsFront (whole_blob blob size) (D.reads store.old) (D.reads store.new) }
    ensures whole { IfOk result (λ found. IfSome found (λ _.
        ReadsAll (whole_blob blob size) (D.reads store.old) (D.reads store.new))) }
    ensures tried { OnOk result
        (ReadsAllOf (TriesBlob blob size) (D.reads store.old) (D.reads store.new)) }
    ensures cause { HasFaultCause (D.faults store.old) (D.faults store.new) result }
{
    match store.size(blob)? {
        Some(found) if found == size => {}
        _ => return Ok(None),
    }
    let mut bytes = vec![in alloc; 0u8; size as usize]?;
    match store.read(blob, 0, &mut bytes)? {
        Some(count) if count == bytes.len() => Ok(Some(bytes)),
        _ => Ok(None),
    }
}
