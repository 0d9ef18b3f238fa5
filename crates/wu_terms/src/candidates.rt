//! The candidates of a prefix, collected from the directories of parts and from memory.
ghost use Rattle.std.specs.Prelude.{◌≡◌, [], ◌∷◌, map, filter, IfOk, OnOk, OnErr};
ghost use Rattle.wu_terms.specs.Terms.{is_candidate};
ghost use Rattle.wu_terms.specs.Collections.{no_words, with_terms};

use crate::words::{is_candidate, is_tag};
use std::alloc::Global;
use std::marker::Model;
use std::mem;
use wu_base::{Bytes, NoMemory, sorted_once};
use wu_part::Directory;

/// The words that begin with a prefix, of the terms that were added. Contracts see the prefix and these words,
/// ascending by bytes, each once.
///
/// The words are put in order, each once, whenever there are twice as many as there were then: so they never
/// are more than twice as many as the distinct ones, besides those of the directory that is being added, and
/// all of that takes time as one sort does.
#[derive(Drop)]
pub struct Candidates {
    alloc: Global,
    prefix: Bytes,
    words: Vec<Bytes>,
    settled: usize,
}

impl Model for Candidates {
    ghost use Rattle.wu_terms.specs.Collections.{Collection, collected};

    ghost Value = { Collection };

    ghost view = { λ c. collected c.prefix c.words.items };
}

impl Candidates {
    /// No words yet. The only error is out of memory.
    pub fn new(alloc: Global, prefix: &[u8]) -> Result<Candidates, NoMemory>
        ensures { IfOk result (λ candidates. candidates ≡ no_words prefix.now) }
    {
        Ok(Candidates {
            alloc,
            prefix: Bytes::from_slice(alloc, prefix)?,
            words: Vec::new(alloc),
            settled: 0,
        })
    }

    /// Adds the terms of a part. The first that begins with the prefix is searched for, and the directory is
    /// walked from there to the last one. Out of memory, all is as it was.
    pub fn add_directory(&mut self, directory: &Directory) -> Result<(), NoMemory>
        ensures ok { OnOk result (self.new ≡ with_terms self.old (map (λ entry. entry.term) directory.now.terms)) }
        ensures err { OnErr result (self.new ≡ self.old) }
    {
        let mut words = words_in(self.alloc, directory, self.prefix.as_slice())?;
        self.words.append(&mut words)?;
        self.settle();
        Ok(())
    }

    /// Adds a term. Out of memory, all is as it was.
    pub fn add_term(&mut self, term: &[u8]) -> Result<(), NoMemory>
        ensures ok { OnOk result (self.new ≡ with_terms self.old (term.now ∷ [])) }
        ensures err { OnErr result (self.new ≡ self.old) }
    {
        if !is_candidate(self.prefix.as_slice(), term) {
            return Ok(());
        }
        self.words.push(Bytes::from_slice(self.alloc, term)?)?;
        self.settle();
        Ok(())
    }

    /// The words, ascending by bytes, each once. Takes no memory.
    pub fn into_list(self) -> Vec<Bytes>
        ensures { result.items ≡ self.words }
    {
        sorted_once(self.words)
    }

    /// Puts the words in order, each once, where there are twice as many as the last time.
    fn settle(&mut self)
        ensures { self.new ≡ self.old }
    {
        if self.words.len() / 2 >= self.settled {
            let words = mem::replace(&mut self.words, Vec::new(self.alloc));
            self.words = sorted_once(words);
            self.settled = self.words.len();
        }
    }
}

/// The words of the directory that begin with the prefix, in order.
fn words_in(alloc: Global, directory: &Directory, prefix: &[u8]) -> Result<Vec<Bytes>, NoMemory>
    ensures { IfOk result (λ words. words.items ≡ filter (is_candidate prefix.now) (map (λ entry. entry.term) directory.now.terms)) }
{
    directory.is_spelled();
    let mut words = Vec::new(alloc);
    for entry in directory.terms_from(prefix) {
        let term = entry.term();
        if !term.starts_with(prefix) {
            return Ok(words);
        }
        if !is_tag(term) {
            words.push(Bytes::from_slice(alloc, term)?)?;
        }
    }
    Ok(words)
}
