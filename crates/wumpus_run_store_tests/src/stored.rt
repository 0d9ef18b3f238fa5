//! Sessions one after the other over one store.
use std::alloc::Global;
use wu_outside::{Fault, MemStore, ReadRange, Store};
use wu_rows::{NoAnswer, bytes, first_word, number, numbers, words};
use wumpus_run_rows::ending;

/// The numbers of the blobs that are looked for.
const BLOBS: u64 = 64;

/// The length of a root.
const ROOT_LEN: usize = 40;

/// A store, over which one session runs after the other.
#[derive(Drop)]
pub struct Stored {
    store: MemStore,
}

impl Stored {
    /// A store that holds nothing, and of which these calls fail.
    pub fn new(alloc: Global, fails: Vec<u64>) -> Stored {
        Stored {
            store: MemStore::new(alloc, fails, u64::MAX),
        }
    }

    /// How a session of the words over the script ends, of whose reads these fail, and what it has
    /// written then.
    fn ending(
        &mut self,
        alloc: Global,
        field: &str,
        fails: &str,
        script: &str,
    ) -> Result<String, NoAnswer> {
        let fails = numbers(alloc, fails)?;
        let words = words(alloc, field)?;
        ending(alloc, words.as_slice(), fails, &mut self.store, script)
    }

    /// The same, and which blobs the store has afterwards.
    pub fn session(
        &mut self,
        alloc: Global,
        field: &str,
        fails: &str,
        script: &str,
    ) -> Result<String, NoAnswer> {
        let mut text = self.ending(alloc, field, fails, script)?;
        text.push_str(" | ")?;
        self.put_blobs(&mut text)?;
        Ok(text)
    }

    /// The same, and what it reads of the root and of blobs.
    pub fn reading(
        &mut self,
        alloc: Global,
        field: &str,
        script: &str,
    ) -> Result<String, NoAnswer> {
        let before = self.store.reads().len();
        let mut text = self.ending(alloc, field, "", script)?;
        text.push_str(" |")?;
        for range in self.store.reads().iter().skip(before) {
            let ReadRange { blob, at, len } = *range;
            write!(text, " {blob}@{at}+{len}")?;
        }
        Ok(text)
    }

    /// What is done to the store between two sessions: a blob is put, cut to its first bytes or
    /// removed, or the root is set. Which blobs the store has afterwards. Or a store is made anew,
    /// of which these calls fail; nothing is asked of it.
    pub fn change(
        &mut self,
        alloc: Global,
        change: &str,
        argument: &str,
    ) -> Result<String, NoAnswer> {
        let (blob, rest) = first_word(argument);
        match change {
            "fails" => {
                self.store = MemStore::new(alloc, numbers(alloc, argument)?, u64::MAX);
                return Ok(String::new(alloc));
            }
            "root" => done(self.store.set_root(bytes(alloc, argument)?.as_slice()))?,
            "put" => done(
                self.store
                    .put(number(blob)?, bytes(alloc, rest)?.as_slice()),
            )?,
            "cut" => self.cut(alloc, number(blob)?, number(rest)?)?,
            "remove" => done(self.store.remove(number(blob)?))?,
            _ => return Err(NoAnswer::BadRow),
        }
        let mut text = String::new(alloc);
        self.put_blobs(&mut text)?;
        Ok(text)
    }

    /// A store that holds the same, synced, and of which all calls fail from that one on. The calls
    /// that make it are counted.
    pub fn copied(&mut self, alloc: Global, stop_from: u64) -> Result<MemStore, NoAnswer> {
        let mut copy = MemStore::new(alloc, Vec::new(alloc), stop_from);
        for blob in 0..BLOBS {
            if let Some(length) = done(self.store.size(blob))? {
                let mut bytes = vec![in alloc; 0u8; length as usize]?;
                done(self.store.read(blob, 0, bytes.as_mut_slice()))?;
                done(copy.put(blob, bytes.as_slice()))?;
            }
        }
        let mut root = [0; ROOT_LEN];
        if done(self.store.root(&mut root))?.is_some() {
            done(copy.set_root(&root))?;
        }
        done(copy.sync())?;
        Ok(copy)
    }

    /// Cuts the blob to its first bytes.
    fn cut(&mut self, alloc: Global, blob: u64, len: u64) -> Result<(), NoAnswer> {
        let mut bytes = vec![in alloc; 0u8; len as usize]?;
        done(self.store.read(blob, 0, bytes.as_mut_slice()))?;
        done(self.store.put(blob, bytes.as_slice()))
    }

    /// Appends the numbers of the blobs that the store has, each with its length.
    fn put_blobs(&mut self, text: &mut String) -> Result<(), NoAnswer> {
        for blob in 0..BLOBS {
            if let Some(length) = done(self.store.size(blob))? {
                write!(text, "{blob}:{length} ")?;
            }
        }
        match done(self.store.root(&mut []))? {
            Some(length) => Ok(write!(text, "root:{length}")?),
            None => Ok(text.push_str("no root")?),
        }
    }
}

/// What the store answers to a call that doesn't fail.
fn done<T: Drop>(answer: Result<T, Fault>) -> Result<T, NoAnswer> {
    match answer {
        Ok(value) => Ok(value),
        Err(Fault::Failed) => Err(NoAnswer::BadRow),
        Err(Fault::NoMemory) => Err(NoAnswer::NoMemory),
    }
}
