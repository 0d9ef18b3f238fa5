//! How many addresses a part has of a term, as its directory tells.
ghost use Rattle.std.specs.Prelude.{◌≡◌};
ghost use Rattle.wu_lists.specs.Blocks.{count_in, entry_of};

use wu_part::Directory;

/// How many addresses the term has in the part, those of texts that are gone too; 0 where the part has no such term.
/// Reads no block, and takes time logarithmic in the number of terms.
pub fn count_of(dir: &Directory, term: &[u8]) -> u64
    ensures { result ≡ count_in (entry_of dir.now.terms term.now) }
{
    dir.is_spelled();
    match dir.entry_of(term) {
        Some(entry) => entry.count(),
        None => 0,
    }
}
