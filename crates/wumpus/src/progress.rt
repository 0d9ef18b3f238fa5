//! How far a check is, in one line on standard error for a person at a terminal.
ghost use Rattle.std.specs.Prelude.{◌≡◌};

use std::alloc::{AllocError, Global};
use std::time::{Duration, Instant};
use wu_base::PartRec;
use wu_image::{Checkpoint, ROOT_LEN, read_checkpoint, read_root};
use wu_outside::{Fault, Sink, Store};

/// The shortest time between two lines, in milliseconds.
const PAUSE: u64 = 100;

/// Erases a terminal's line from the cursor on.
const ERASE: &str = "\x1b[K";

/// The store that is checked. Each call is the store's own. While texts are read, a line on
/// standard error tells how many of them were read, at most ten times a second; the cursor stays
/// at its start.
#[derive(Drop)]
pub struct WatchedStore<'a, D> {
    rt: &'a HostRuntime,
    store: D,
    /// The blob of the checkpoint, once the root was read.
    checkpoint: Option<u64>,
    /// The blobs of the parts, and how many texts there are, once the checkpoint was read.
    parts: Vec<u64>,
    texts: u64,
    /// How many texts were read.
    done: u64,
    /// When the last line was written, or the check began.
    last: Option<Instant>,
}

impl<'a, D> WatchedStore<'a, D> {
    /// The store, of which nothing was read yet. Takes no memory.
    pub fn new(rt: &'a HostRuntime, store: D) -> WatchedStore<'a, D>
        ensures { result.store ≡ store }
    {
        WatchedStore {
            rt,
            store,
            checkpoint: None,
            parts: Vec::new(rt.alloc()),
            texts: 0,
            done: 0,
            last: Instant::now(rt).ok(),
        }
    }

    /// The store itself.
    pub fn into_inner(self) -> D
        ensures { result ≡ self.entry.store }
    {
        self.store
    }

    /// Learns from the root's bytes which blob is the checkpoint's.
    fn learn_root(&mut self, bytes: &[u8])
        ensures { self.new.store ≡ self.old.store }
    {
        if let Some(front) = bytes.get(..ROOT_LEN) {
            self.checkpoint = read_root(front).map(|root| root.checkpoint);
        }
    }

    /// Notes that these bytes of the blob were read.
    fn note(&mut self, blob: u64, bytes: &[u8])
        ensures { self.new.store ≡ self.old.store }
    {
        if self.checkpoint == Some(blob) {
            if let Ok(Some(checkpoint)) = read_checkpoint(self.rt.alloc(), bytes) {
                self.expect(&checkpoint);
            }
        } else if !self.parts.contains(&blob) {
            self.done = self.done.saturating_add(1);
            self.tell();
        }
    }

    /// Learns from the checkpoint which blobs are parts, and how many texts are in blobs. Without
    /// memory no line is written.
    fn expect(&mut self, checkpoint: &Checkpoint)
        ensures { self.new.store ≡ self.old.store }
    {
        let Ok(parts) = blobs_of(self.rt.alloc(), checkpoint.parts.as_slice()) else {
            return;
        };
        self.parts = parts;
        let files = checkpoint.files.as_slice();
        self.texts = files.iter().filter(|file| file.blob != 0).count() as u64;
    }

    /// Writes the line, unless the last one was written a moment ago.
    fn tell(&mut self)
        ensures { self.new.store ≡ self.old.store }
    {
        let Some(last) = self.last else {
            return;
        };
        match last.elapsed(self.rt) {
            Ok(passed) if passed >= Duration::from_millis(PAUSE) && self.done <= self.texts => {}
            _ => return,
        }
        let (done, texts) = (self.done, self.texts);
        // A line that can't be written is one that nobody reads.
        let _ = eprint!(self.rt; "{ERASE}wumpus: {done} of {texts} texts checked\r");
        self.last = Instant::now(self.rt).ok();
    }
}

/// The blobs of the parts. The one error is out of memory.
fn blobs_of(alloc: Global, parts: &[PartRec]) -> Result<Vec<u64>, AllocError> {
    let mut blobs = Vec::new(alloc);
    for part in parts {
        blobs.push(part.blob)?;
    }
    Ok(blobs)
}

impl<D: Store> Store for WatchedStore<'_, D> {
    ghost holds = { λ s. D.holds s.store };

    ghost reads = { λ s. D.reads s.store };

    ghost moments = { λ s. D.moments s.store };

    ghost faults = { λ s. D.faults s.store };

    fn size(&mut self, blob: u64) -> Result<Option<u64>, Fault> {
        self.store.size(blob)
    }

    fn read(&mut self, blob: u64, at: u64, buf: &mut [u8]) -> Result<Option<usize>, Fault> {
        let found = self.store.read(blob, at, buf)?;
        self.note(blob, buf);
        Ok(found)
    }

    fn put(&mut self, blob: u64, bytes: &[u8]) -> Result<(), Fault> {
        self.store.put(blob, bytes)
    }

    fn remove(&mut self, blob: u64) -> Result<(), Fault> {
        self.store.remove(blob)
    }

    fn root(&mut self, buf: &mut [u8]) -> Result<Option<usize>, Fault> {
        let found = self.store.root(buf)?;
        self.learn_root(buf);
        Ok(found)
    }

    fn set_root(&mut self, bytes: &[u8]) -> Result<(), Fault> {
        self.store.set_root(bytes)
    }

    fn sync(&mut self) -> Result<(), Fault> {
        self.store.sync()
    }

    ghost told_alike = { λ s. D.told_alike s.store };
}

/// Where a check's answer goes. Each write is the sink's own; before it the line that told how far
/// the check was is erased.
#[derive(Drop)]
pub struct ErasingSink<'a, O> {
    pub rt: &'a HostRuntime,
    pub sink: O,
}

impl<O: Sink> Sink for ErasingSink<'_, O> {
    ghost gained = { λ s. O.gained s.sink };

    ghost faults = { λ s. O.faults s.sink };

    fn write(&mut self, piece: &[u8]) -> Result<usize, Fault> {
        erase(self.rt);
        self.sink.write(piece)
    }
}

/// Erases the line that tells how far the check is, if there is one: the cursor is at its start.
pub fn erase(rt: &HostRuntime) {
    let _ = eprint!(rt; "{ERASE}");
}
