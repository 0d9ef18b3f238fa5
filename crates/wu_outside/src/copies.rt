//! What the stores in memory answer of the bytes that they hold.
ghost use Rattle.std.specs.Prelude.{◌≡◌, ◌≤◌, length, take, drop, option_map, option_copied};
ghost use Rattle.wu_outside.specs.Content.{ReadsFrom, GivesRoot};

use wu_base::Bytes;

/// The size of a blob, if it is there.
pub fn size_of_blob(blob: Option<&Bytes>) -> Option<u64>
    ensures { result ≡ option_map length (option_copied blob.entry) }
{
    match blob {
        None => None,
        Some(bytes) => Some(bytes.as_slice().len() as u64),
    }
}

/// Copies a blob, if it is there, from a place on, as far as it goes and there is room.
pub fn read_blob(blob: Option<&Bytes>, at: u64, buf: &mut [u8]) -> Option<usize>
    ensures { ReadsFrom (option_copied blob.entry) at result buf.new }
{
    match blob {
        None => None,
        Some(bytes) => Some(copy_from(bytes.as_slice(), at, buf)),
    }
}

/// Copies the root, if there is one, as far as there is room, and answers its whole length.
pub fn read_root(root: Option<&Bytes>, buf: &mut [u8]) -> Option<usize>
    ensures { GivesRoot (option_copied root.entry) result buf.new }
{
    match root {
        None => None,
        Some(bytes) => {
            copy_front(bytes.as_slice(), buf);
            Some(bytes.as_slice().len())
        }
    }
}

/// Copies bytes from a place on.
pub fn copy_from(bytes: &[u8], at: u64, buf: &mut [u8]) -> usize
    ensures count { result ≡ length (take (length buf.new) (drop at bytes.now)) }
    ensures copied { take result buf.new ≡ take (length buf.new) (drop at bytes.now) }
{
    let start = (at as usize).min(bytes.len());
    copy_front(&bytes[start..], buf)
}

/// Copies as many bytes as there is room for, and answers how many.
fn copy_front(bytes: &[u8], buf: &mut [u8]) -> usize
    ensures count { result ≡ length (take (length buf.new) bytes.now) }
    ensures copied { take result buf.new ≡ take (length buf.new) bytes.now }
    ensures whole { take (length bytes.now) buf.new ≡ take (length buf.new) bytes.now }
{
    let count = bytes.len().min(buf.len());
    buf[..count].copy_from_slice(&bytes[..count]);
    count
}
