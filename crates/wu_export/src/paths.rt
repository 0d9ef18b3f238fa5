//! Paths of files and directories.
ghost use Rattle.std.specs.Prelude.{◌≡◌, List, ℕ, nat_eq, refl, Some};
ghost use Rattle.std.specs.Ordering.{nat_cmp};
ghost use Rattle.std.specs.Cmp.Lexicographic.{pointwise, slice_cmp, nat_list_eq_equiv, nat_list_cmp_total, texts_ties, texts_po};
ghost use Rattle.std.specs.Cmp.{partial_equiv_from_equiv};
ghost use Rattle.wu_export.specs.Exports.{comes_before, last_name, parent_path};
ghost use Rattle.wu_export.specs.Finding.{AreShared};

use bstr::ByteSlice;
use std::cmp::Ordering;
use std::marker::Model;

/// The path of a file, or of a directory: a piece of a file's path. Contracts see its bytes, and the order is
/// that of the bytes.
#[derive(Drop)]
pub(crate) struct Path<'a> {
    bytes: &'a [u8],
}

impl<'a> Model for Path<'a> {
    ghost Value = { List ℕ };

    ghost view = { λ p. p.bytes.now };
}

impl<'a> Path<'a> {
    pub(crate) fn new(bytes: &'a [u8]) -> Path<'a>
        ensures { result ≡ bytes.now }
    {
        Path { bytes }
    }

    pub(crate) fn bytes(&self) -> &'a [u8]
        ensures { result.now ≡ self.now }
    {
        self.bytes
    }

    /// Whether this path comes before the other.
    pub(crate) fn comes_before(&self, other: &[u8]) -> bool
        ensures { result ≡ comes_before other.now self.now }
    {
        self.bytes.cmp(&other).is_lt()
    }
}

impl<'a> PartialEq for Path<'a> {
    ghost eq = { λ a b. pointwise nat_eq a b };

    ghost laws = { partial_equiv_from_equiv nat_list_eq_equiv };

    fn eq(&self, other: &Path<'a>) -> bool {
        self.bytes == other.bytes
    }
}

impl<'a> Eq for Path<'a> {
    ghost laws = { nat_list_eq_equiv };
}

impl<'a> PartialOrd for Path<'a> {
    ghost partial_cmp = { λ a b. Some (slice_cmp nat_cmp a b) };

    ghost laws = { texts_po };

    fn partial_cmp(&self, other: &Path<'a>) -> Option<Ordering> {
        Some(self.cmp(other))
    }
}

impl<'a> Ord for Path<'a> {
    ghost cmp = { λ a b. slice_cmp nat_cmp a b };

    ghost total = { nat_list_cmp_total };

    ghost matches_partial_cmp = { λ _ _. refl };

    ghost matches_eq = { λ a b. texts_ties a b };

    fn cmp(&self, other: &Path<'a>) -> Ordering {
        self.bytes.cmp(&other.bytes)
    }
}

/// What stands before the last `/` of a path, and what after it: the path of its directory, and its name there.
pub(crate) fn cut(path: &[u8]) -> (&[u8], &[u8])
    ensures parent { result.0.now ≡ parent_path path.now }
    ensures name { result.1.now ≡ last_name path.now }
{
    match path.rfind_byte(b'/') {
        Some(place) => (&path[..place], &path[place + 1..]),
        None => (&[], path),
    }
}

/// How many of the first bytes of both paths are the same.
pub(crate) fn shared_length(before: &[u8], path: &[u8]) -> usize
    ensures { AreShared result before.now path.now }
{
    let end = before.len().min(path.len());
    for place in 0..end {
        if before[place] != path[place] {
            return place;
        }
    }
    end
}
