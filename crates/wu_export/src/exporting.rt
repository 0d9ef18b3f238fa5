//! The script of an export is written file by file.
ghost use Rattle.std.specs.Prelude.{◌≡◌, ◌++◌, ◌<◌, ◌^◌, IfOk, OnOk};
ghost use Rattle.std.specs.List.{flat_map};
ghost use Rattle.wu_export.specs.Exports.{paths_in};
ghost use Rattle.wu_export.specs.Exporting.{begun, with_file};

use crate::Shown;
use crate::directories::Directories;
use crate::paths::Path;
use crate::writing::{COMMAND_MAX, put_directories, put_shown, room_for};
use std::alloc::Global;
use std::marker::Model;
use wu_base::{Bytes, NoMemory};
use wu_view::Seen;

/// The script of an export that is being written: it is made of the paths of all files, and is
/// given one file after the other, so that no more than one text need be in memory beside it.
/// Contracts see the paths of the directories, and the bytes that are written.
#[derive(Drop)]
pub struct Exporter<'a> {
    directories: Directories<'a>,
    script: Vec<u8>,
}

impl<'a> Model for Exporter<'a> {
    ghost use Rattle.wu_export.specs.Exporting.{Begun};

    ghost Value = { Begun };

    ghost view = { λ e. record { directories = e.directories; script = e.script.items } };
}

impl<'a> Exporter<'a> {
    /// A script that makes the directories on the paths of these files, and has no file yet.
    /// `texts` is how many bytes their texts have: a wish for memory, which is taken at once. The
    /// only error is out of memory.
    pub fn new(alloc: Global, view: &'a [Seen], texts: usize) -> Result<Exporter<'a>, NoMemory>
        ensures { IfOk result (λ exporter. exporter ≡ begun (flat_map (λ seen. seen.paths) view.now)) }
    {
        let mut paths = Vec::new(alloc);
        for seen in view {
            add_paths(&mut paths, seen.paths.as_slice())?;
        }
        Exporter::begin(alloc, paths, room_of_texts(view.len(), texts))
    }

    /// The same for files with their texts.
    pub(crate) fn of_shown(alloc: Global, view: &'a [Shown]) -> Result<Exporter<'a>, NoMemory>
        ensures { IfOk result (λ exporter. exporter ≡ begun (paths_in view.now)) }
    {
        let mut paths = Vec::new(alloc);
        let mut texts = 0usize;
        for shown in view {
            add_paths(&mut paths, shown.paths.as_slice())?;
            texts = texts.saturating_add(shown.text.as_slice().len());
        }
        Exporter::begin(alloc, paths, room_of_texts(view.len(), texts))
    }

    /// The same for these paths, with that room for what is not a path's.
    fn begin(alloc: Global, paths: Vec<Path<'a>>, texts: usize) -> Result<Exporter<'a>, NoMemory>
        ensures { IfOk result (λ exporter. exporter ≡ begun paths.entry.items) }
    {
        let files = room_for(&paths);
        let directories = Directories::on(alloc, paths)?;
        let room = texts
            .saturating_add(files)
            .saturating_add(room_for(directories.below_root()));
        let mut script = Vec::with_capacity(alloc, room)?;
        put_directories(&mut script, &directories)?;
        Ok(Exporter {
            directories,
            script,
        })
    }

    /// The script with the file at that place of the view, the first of which is 0: the file is
    /// made at its least path and linked at its others, and given its text, where that isn't empty.
    /// The only error is out of memory.
    pub fn with_file(
        self,
        place: usize,
        paths: &[Bytes],
        text: &[u8],
    ) -> Result<Exporter<'a>, NoMemory>
        requires { place < 2 ^ 63 }
        ensures { IfOk result (λ exporter. exporter
            ≡ with_file self.entry place (record { paths = paths.now; text = text.now })) }
    {
        let Exporter {
            directories,
            mut script,
        } = self;
        let number = directories.first_file() + place as u64;
        put_shown(&mut script, &directories, number, paths, text)?;
        Ok(Exporter {
            directories,
            script,
        })
    }

    /// The script.
    pub fn finish(self) -> Bytes
        ensures { result ≡ self.entry.script }
    {
        Bytes::from(self.script)
    }
}

/// Appends the paths of a file.
fn add_paths<'a>(found: &mut Vec<Path<'a>>, paths: &'a [Bytes]) -> Result<(), NoMemory>
    ensures { OnOk result (found.new.items ≡ found.old.items ++ paths.now) }
{
    for path in paths {
        found.push(Path::new(path.as_slice()))?;
    }
    Ok(())
}

/// How many bytes so many texts have with the lines before them, where the texts have that many. It
/// is a wish for memory alone, and no promise.
fn room_of_texts(files: usize, texts: usize) -> usize {
    files.saturating_mul(COMMAND_MAX).saturating_add(texts)
}
