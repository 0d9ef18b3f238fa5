//! The words of the index that begin with a prefix.
ghost use Rattle.std.specs.Prelude.{◌≡◌, IfOk, OnOk};
ghost use Rattle.std.specs.List.{flat_map};
ghost use Rattle.wu_terms.specs.Terms.{words_with};
ghost use Rattle.wu_parts.specs.Candidates.{GainsCandidates, terms_held, terms_listed};
ghost use Rattle.wu_parts.specs.StoredParts.{directories_of};

use crate::parts::Parts;
use crate::writing::StoredPart;
use wu_base::{Bytes, NoMemory};
use wu_terms::Candidates;

impl Parts {
    /// The words that begin with the prefix, in the directories of the parts and in memory, ascending by bytes,
    /// each once. A word is among them also where all of its postings are dead. No block is read, and no list of a
    /// whole dictionary is made: of each directory the terms from the first such word to the last one are walked, of
    /// memory all are. The only error is out of memory.
    pub fn candidates(&self, prefix: &[u8]) -> Result<Vec<Bytes>, NoMemory>
        ensures { IfOk result (λ words. words.items ≡ words_with prefix.now (terms_held self.now)) }
    {
        let mut words = Candidates::new(self.alloc, prefix)?;
        add_directories(&mut words, self.parts.as_slice())?;
        self.memory.add_terms(&mut words)?;
        Ok(words.into_list())
    }
}

/// Adds the terms of the parts' directories. Out of memory, those of the first ones may have been added.
fn add_directories(words: &mut Candidates, parts: &[StoredPart]) -> Result<(), NoMemory>
    ensures { OnOk result (GainsCandidates (flat_map terms_listed (directories_of parts.now)) words.old words.new) }
{
    for part in parts {
        words.add_directory(&part.directory)?;
    }
    Ok(())
}
