//! The walk from the root through the directories that a user may enter.
ghost use Rattle.std.specs.Prelude.{◌≡◌, ◌∷◌, ◌++◌, OnOk, IfOk};
ghost use Rattle.wu_view.specs.Walks.{walked, walked_whole};

use crate::walkers::{Met, Walker};
use std::alloc::Global;
use wu_base::{Bytes, DEPTH_MAX, Ino, NoMemory, ROOT};

/// The links to files that grant the user read, of which each directory up to the root grants her execute:
/// the number and the path of each.
pub(crate) fn open_links(alloc: Global, walker: &Walker<'_>) -> Result<Vec<(Ino, Bytes)>, NoMemory>
    ensures { IfOk result (λ found. found.items ≡ walked_whole walker.now.tree walker.now.user) }
{
    let mut files = Vec::new(alloc);
    if let Met::Passable = walker.meet(ROOT) {
        let mut path = Vec::new(alloc);
        walk(alloc, walker, DEPTH_MAX, ROOT, &mut path, &mut files)?;
    }
    Ok(files)
}

/// Adds the links to files that are found in a directory of that path, and below it in at most `depth`
/// directories one below the other. The path is afterwards as it was, unless there was no memory.
fn walk(
    alloc: Global,
    walker: &Walker<'_>,
    depth: usize,
    directory: Ino,
    path: &mut Vec<u8>,
    files: &mut Vec<(Ino, Bytes)>,
) -> Result<(), NoMemory>
    ensures files { OnOk result (files.new.items ≡ files.old.items ++ walked walker.now.tree walker.now.user depth directory path.old.items) }
    ensures path { OnOk result (path.new.items ≡ path.old.items) }
{
    if depth == 0 {
        return Ok(());
    }
    let Some(names) = walker.entries(directory) else {
        return Ok(());
    };
    for (name, child) in names {
        match walker.meet(*child) {
            Met::Readable => {
                files.push((*child, joined(alloc, path.as_slice(), name.as_slice())?))?
            }
            Met::Passable => {
                let length = path.len();
                descend(path, name.as_slice())?;
                walk(alloc, walker, depth - 1, *child, path, files)?;
                path.truncate(length);
            }
            Met::Closed => {}
        }
    }
    Ok(())
}

/// Makes of a directory's path that of an entry.
fn descend(path: &mut Vec<u8>, name: &[u8]) -> Result<(), NoMemory>
    ensures { OnOk result (path.new.items ≡ path.old.items ++ 47 ∷ name.now) }
{
    path.push(b'/')?;
    path.extend_from_slice(name)?;
    Ok(())
}

/// The path of an entry in a directory of that path: `/` and the name after it.
fn joined(alloc: Global, path: &[u8], name: &[u8]) -> Result<Bytes, NoMemory>
    ensures { IfOk result (λ joined. joined ≡ path.now ++ 47 ∷ name.now) }
{
    let length = path.len().saturating_add(name.len()).saturating_add(1);
    let mut joined = Vec::with_capacity(alloc, length)?;
    joined.extend_from_slice(path)?;
    descend(&mut joined, name)?;
    Ok(Bytes::from(joined))
}
