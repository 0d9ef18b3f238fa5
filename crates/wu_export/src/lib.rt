//! The export of what a user may search: a script that makes her files from nothing.
#![tactic(auto)]

ghost use Rattle.std.specs.Prelude.{◌≡◌, IfOk, List};
ghost use Rattle.wu_export.specs.Exports.{export_of};
ghost use Rattle.wu_export.specs.Rebuilding.{IsExportable, IsRebuilt};

mod directories;
mod exporting;
mod paths;
mod writing;

pub use exporting::Exporter;
use std::alloc::Global;
use wu_base::{Bytes, NoMemory, Sequence};

/// A file that a user may search, as she sees it.
#[derive(Debug, PartialEq, Eq, Drop)]
pub struct Shown {
    /// The paths that are open for her, at least one, in byte order and without repeats. A path is `/` and the
    /// names from the root to the file, joined by `/`.
    pub paths: Sequence<Bytes>,
    /// The file's text.
    pub text: Bytes,
}

/// The script that makes these files from nothing: the directories on their paths, each file at its least path,
/// its other paths as links to it, and its text, where that isn't empty. The files are a user's view, in its
/// order, so their least paths ascend. Directories have numbers from 2 on, in the order of their paths, and the
/// files those after them. The only error is out of memory.
///
/// The time is near linear in the bytes of the paths and of the script. The script is built in one piece, with
/// the memory taken at once; no text is copied but into it. Beside it there are 16 bytes for each path and for
/// each directory, some of them twice.
#[tactic(auto, unfolding(crate::specs::Exports::export_of))]
pub fn export(alloc: Global, view: &[Shown]) -> Result<Bytes, NoMemory>
    ensures { IfOk result (λ script. script ≡ export_of view.now) }
{
    let mut exporter = Exporter::of_shown(alloc, view)?;
    for (place, shown) in view.iter().enumerate() {
        exporter = exporter.with_file(place, shown.paths.as_slice(), shown.text.as_slice())?;
    }
    Ok(exporter.finish())
}

/// A law: from the root alone on, each entry of the export of a view is accepted as an event, in its turn;
/// and then the view of every user has the same paths in the same order, each file by its number in the
/// export. It is told of lists of files that have what a view has: paths of legal names that ascend, files
/// that ascend by their least paths, and no path that is another file's or a directory's.
pub fn entries_make_the_view_again()
    ensures { (view : List Shown) → IsExportable view → IsRebuilt view }
{}
