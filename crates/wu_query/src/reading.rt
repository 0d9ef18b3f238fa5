//! A file's text, from the store.
ghost use Rattle.std.specs.Prelude.{◌≡◌, ◌≢◌, ◌<◌, ◌≤◌, ◌++◌, [], ◌∷◌, Some, length, option_map, IfOk, IfErr, IfSome, OnOk};
ghost use Rattle.wu_base.specs.declared.limits.TheConstants.{TEXT_MAX};
ghost use Rattle.wu_base.specs.declared.troubles.Trouble.TheVariants.{Damaged};
ghost use Rattle.wu_outside.specs.Reading.{OnlyReads};
ghost use Rattle.wu_token.specs.Tokens.{tokens_of};
ghost use Rattle.wu_image.specs.Images.{text_held};
ghost use Rattle.wu_query.specs.Finding.{AreFirstOf, IsCause};
ghost use Rattle.wu_query.specs.Causes.{IsBrokenIn};
ghost use Rattle.wu_query.specs.Permitted.{ReadsSuch};
ghost use Rattle.wu_query.specs.Reads.{HasWholeText, StopsUnsized, text_ranges, whole_text};
ghost use Rattle.wu_query.specs.Soundness.{IsRecord};

use std::alloc::Global;
use wu_base::Trouble;
use wu_image::FileRec;
use wu_outside::Store;
use wu_token::token_count;

/// The text that the record tells of, read whole in one read, after which the size of its blob is asked. The empty text
/// is in no blob, and isn't read.
///
/// Errors are out of memory, only before that size was told; a fault of the store, only where it had one in this call;
/// and the blob, damaged, of which bytes were read: it is absent, or has another length than recorded, or another number
/// of tokens.
pub fn read_text<D: Store>(alloc: Global, store: &mut D, file: &FileRec) -> Result<Vec<u8>, Trouble>
    requires { IsRecord (file.now.ino, file.now) }
    ensures text { IfOk result (λ text. IfSome (D.holds store.old) (λ content. text.items ≡ text_held content file.now)) }
    ensures short { IfOk result (λ text. length text.items ≤ TEXT_MAX) }
    ensures tokens { IfOk result (λ text. file.now.range.len ≤ length (tokens_of text.items)) }
    ensures exact { IfOk result (λ text. 2 ≤ file.now.range.len → length (tokens_of text.items) ≡ file.now.range.len) }
    ensures sound { OnOk result (0 < file.now.blob → HasWholeText (D.holds store.old) file.now) }
    ensures store { OnlyReads D.Store store.old store.new result }
    ensures reads { OnOk result (D.reads store.new
        ≡ option_map (λ ranges. ranges ++ whole_text file.now.blob file.now.len) (D.reads store.old)) }
    ensures only { ReadsSuch (AreFirstOf (whole_text file.now.blob file.now.len)) (D.reads store.old) (D.reads store.new) }
    ensures memory { result ≡ Err Trouble.NoMemory
        → StopsUnsized (D.holds store.old) file.now (D.reads store.old) (D.reads store.new) }
    ensures cause { IfErr result (IsCause (IsBrokenIn (D.holds store.old) file.now)
        (D.faults store.old) (D.faults store.new) (D.reads store.old) (D.reads store.new)) }
{
    if file.blob == 0 {
        return Ok(Vec::new(alloc));
    }
    let text = read_blob(alloc, store, file)?;
    check_tokens(&text, file)?;
    Ok(text)
}

/// The only error is that the text hasn't as many tokens as are recorded. Takes no memory.
fn check_tokens(text: &[u8], file: &FileRec) -> Result<(), Trouble>
    requires { length text.now ≤ TEXT_MAX }
    ensures tokens { OnOk result (length (tokens_of text.now) ≡ file.now.range.len) }
    ensures damaged { IfErr result (λ trouble. (trouble ≡ Damaged file.now.blob) × (length (tokens_of text.now) ≢ file.now.range.len)) }
{
    if token_count(text) == file.range.len {
        Ok(())
    } else {
        Err(Trouble::Damaged { blob: file.blob })
    }
}

/// The blob of the recorded text, which has the recorded length. Its size is asked after the read, so that no
/// blob is called damaged unread.
fn read_blob<D: Store>(alloc: Global, store: &mut D, file: &FileRec) -> Result<Vec<u8>, Trouble>
    requires stored { 0 < file.now.blob }
    requires bytes { 0 < file.now.len }
    ensures text { IfOk result (λ text. IfSome (D.holds store.old) (λ content. content.blobs file.now.blob ≡ Some text.items)) }
    ensures len { IfOk result (λ text. length text.items ≡ file.now.len) }
    ensures store { OnlyReads D.Store store.old store.new result }
    ensures reads { OnOk result (D.reads store.new
        ≡ option_map (λ ranges. ranges ++ text_ranges file.now.blob file.now.len) (D.reads store.old)) }
    ensures only { ReadsSuch (AreFirstOf (text_ranges file.now.blob file.now.len)) (D.reads store.old) (D.reads store.new) }
    ensures memory { result ≡ Err Trouble.NoMemory
        → StopsUnsized (D.holds store.old) file.now (D.reads store.old) (D.reads store.new) }
    ensures cause { IfErr result (IsCause (IsBrokenIn (D.holds store.old) file.now)
        (D.faults store.old) (D.faults store.new) (D.reads store.old) (D.reads store.new)) }
{
    let mut text = vec![in alloc; 0u8; file.len as usize]?;
    let count = store.read(file.blob, 0, &mut text)?;
    check_count(count, file)?;
    let size = store.size(file.blob)?;
    check_size(size, file)?;
    Ok(text)
}

/// The only error is that not as many bytes were there to be read as are recorded. Takes no memory.
fn check_count(count: Option<usize>, file: &FileRec) -> Result<(), Trouble>
    ensures count { OnOk result (count ≡ Some file.now.len) }
    ensures damaged { IfErr result (λ trouble. (trouble ≡ Damaged file.now.blob) × (count ≢ Some file.now.len)) }
{
    match count {
        Some(count) if count == file.len as usize => Ok(()),
        _ => Err(Trouble::Damaged { blob: file.blob }),
    }
}

/// The only error is that the blob hasn't as many bytes as are recorded. Takes no memory.
fn check_size(size: Option<u64>, file: &FileRec) -> Result<(), Trouble>
    ensures size { OnOk result (size ≡ Some file.now.len) }
    ensures damaged { IfErr result (λ trouble. (trouble ≡ Damaged file.now.blob) × (size ≢ Some file.now.len)) }
{
    match size {
        Some(size) if size == u64::from(file.len) => Ok(()),
        _ => Err(Trouble::Damaged { blob: file.blob }),
    }
}
