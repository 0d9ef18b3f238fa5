//! The bytes of a directory's entries, among those that were read.
ghost use Rattle.std.specs.Prelude.{◌≡◌, ◌≤◌, drop, length};

use std::marker::Model;

/// The bytes from a place on, as contracts see them, of the bytes of a whole directory.
#[derive(Drop)]
pub(crate) struct EntryBytes {
    whole: Vec<u8>,
    start: usize,
}

impl Model for EntryBytes {
    ghost use Rattle.std.specs.Prelude.{ℕ, List, ◌≤◌, drop, length};

    ghost Value = { List ℕ };

    ghost view = { λ b. drop b.start b.whole.items };

    ghost invariant = { λ b. b.start ≤ length b.whole.items };
}

impl EntryBytes {
    /// Those of the bytes from the place on.
    pub(crate) fn new(whole: Vec<u8>, start: usize) -> EntryBytes
        requires { start ≤ length whole.items }
        ensures { result ≡ drop start whole.items }
    {
        EntryBytes { whole, start }
    }

    /// The bytes.
    #[inline]
    pub(crate) fn as_slice(&self) -> &[u8]
        ensures { result.now ≡ self.now }
    {
        &self.whole[self.start..]
    }
}
