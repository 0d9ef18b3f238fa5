//! Paths, put together by file.
ghost use Rattle.std.specs.Prelude.{◌≡◌, ℕ, ◌==◌, cond, unwrap_or, Some, [], ◌∷◌, ◌++◌, OnOk, IfOk};
ghost use Rattle.std.specs.Ordering.{nat_cmp};
ghost use Rattle.std.specs.BTreeMap.{IsOrdered, get};
ghost use Rattle.wu_view.specs.Groups.{paths_of, seen_in, seen_with, unless_empty};

use crate::Seen;
use std::alloc::Global;
use std::collections::BTreeMap;
use wu_base::{Bytes, Ino, NoMemory, Sequence, sorted_once};

/// The paths of each file, in the order in which they were found.
pub(crate) fn by_file(
    alloc: Global,
    found: Vec<(Ino, Bytes)>,
) -> Result<BTreeMap<Ino, Sequence<Bytes>>, NoMemory>
    ensures paths { IfOk result (λ files. (ino : ℕ) → get nat_cmp files ino ≡ unless_empty (paths_of ino found.items)) }
    ensures ordered { IfOk result (λ files. IsOrdered nat_cmp files) }
{
    let mut files = BTreeMap::new(alloc);
    for (ino, path) in found {
        add_path(alloc, &mut files, ino, path)?;
    }
    Ok(files)
}

/// Puts one more path after those of a file.
fn add_path(
    alloc: Global,
    files: &mut BTreeMap<Ino, Sequence<Bytes>>,
    ino: Ino,
    path: Bytes,
) -> Result<(), NoMemory>
    ensures paths { OnOk result ((q : ℕ) → get nat_cmp files.new q ≡ cond (q == ino) (Some (unwrap_or (get nat_cmp files.old ino) [] ++ path ∷ [])) (get nat_cmp files.old q)) }
    ensures ordered { OnOk result (IsOrdered nat_cmp files.new) }
{
    match files.get_mut(&ino) {
        Some(paths) => paths.push(path),
        None => {
            let mut paths = Sequence::new(alloc);
            paths.push(path)?;
            files.insert(ino, paths)?;
            Ok(())
        }
    }
}

/// Each file with its paths in order.
pub(crate) fn seen(
    alloc: Global,
    files: BTreeMap<Ino, Sequence<Bytes>>,
) -> Result<Vec<Seen>, NoMemory>
    ensures { IfOk result (λ seen. seen.items ≡ seen_in files.entries) }
{
    let mut seen = Vec::new(alloc);
    for (ino, paths) in files {
        seen.push(sorted(ino, paths))?;
    }
    Ok(seen)
}

/// A file with its paths in order. Takes no memory.
fn sorted(ino: Ino, paths: Sequence<Bytes>) -> Seen
    ensures { result ≡ seen_with (ino, paths) }
{
    Seen {
        paths: Sequence::from(sorted_once(paths.into_vec())),
        ino,
    }
}
