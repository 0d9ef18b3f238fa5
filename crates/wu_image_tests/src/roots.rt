//! Answers of the calls on roots.
use std::alloc::Global;
use wu_image::{Root, read_root, write_root};
use wu_rows::{NoAnswer, bytes_text, numbers_text, plain_text};

/// The root's version and its numbers.
pub fn read(alloc: Global, bytes: &[u8]) -> Result<String, NoAnswer> {
    match read_root(bytes) {
        Some(root) => numbers_text(
            alloc,
            &[
                u64::from(root.version),
                root.checkpoint,
                root.size,
                root.next_address,
                root.next_blob,
            ],
        ),
        None => plain_text(alloc, "none"),
    }
}

/// The bytes of the root of the second version.
pub fn written(
    alloc: Global,
    checkpoint: u64,
    size: u64,
    next_address: u64,
    next_blob: u64,
) -> Result<String, NoAnswer> {
    if checkpoint == 0 || checkpoint >= next_blob {
        return Err(NoAnswer::BadRow);
    }
    let root = Root {
        version: 2,
        checkpoint,
        size,
        next_address,
        next_blob,
    };
    bytes_text(alloc, &write_root(&root))
}
