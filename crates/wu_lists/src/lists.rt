//! The lists of terms in parts, and the blocks that are kept of them.
ghost use Rattle.std.specs.Prelude.{◌≡◌, ◌+◌, ◌≤◌, [], All, IfOk, IfErr, OnErr, OnOk};
ghost use Rattle.lru.specs.LruCache.{lru_cache};
ghost use Rattle.wu_base.specs.declared.limits.TheConstants.{ADDRESSES_MAX};
ghost use Rattle.wu_base.specs.Ranges.{AreApart};
ghost use Rattle.wu_lists.specs.Blocks.{needed};
ghost use Rattle.wu_lists.specs.Causes.{IsTermCause};
ghost use Rattle.wu_lists.specs.Fetching.{AreFetched, AreInFrames, HasTerm};
ghost use Rattle.wu_lists.specs.Keeping.{Asks, AsksFirst};
ghost use Rattle.wu_lists.specs.Tallying.{Tallies};

use crate::blocks::Block;
use crate::sinks::Discard;
use crate::tallies::Tally;
use lru::LruCache;
use std::alloc::Global;
use std::marker::Model;
use std::num::NonZeroUsize;
use wu_base::{Bytes, NoMemory, Range, Sequence, Trouble};
use wu_outside::Store;
use wu_part::Directory;

/// Reads the lists of terms in parts, and keeps blocks of them. Contracts see the blocks that are kept, the one
/// that was asked for last first, each with its bytes, and how many may be kept. A block that is kept was found
/// to be the spelling of addresses as its directory tells.
#[derive(Drop)]
pub struct Lists {
    pub(crate) alloc: Global,
    pub(crate) kept: LruCache<Block, Bytes>,
    /// Where the next block is read to: the vector of the last one that was given up.
    pub(crate) room: Vec<u8>,
}

impl Model for Lists {
    ghost use Rattle.wu_lists.specs.Keeping.{Kept};

    ghost Value = { Kept };

    ghost use Rattle.std.specs.List.{AllByRecursion};
    ghost use Rattle.wu_lists.specs.Keeping.{IsChecked};

    ghost view = { λ l. l.kept };

    ghost invariant = { λ l. AllByRecursion IsChecked l.kept.entries };
}

impl Lists {
    /// Keeps no block yet, and at most `capacity` blocks at once, which is 1 at least. The allocator is kept for what
    /// is read. The only error is out of memory.
    pub fn new(alloc: Global, capacity: usize) -> Result<Lists, NoMemory>
        requires { 1 ≤ capacity }
        ensures { IfOk result (λ lists. lists ≡ lru_cache [] capacity) }
    {
        let capacity = NonZeroUsize::new(capacity).unwrap();
        Ok(Lists {
            alloc,
            kept: LruCache::new(alloc, capacity)?,
            room: Vec::new(alloc),
        })
    }

    /// The addresses of the term in the part with that blob and that directory that lie in the frames,
    /// ascending. The frames are apart, and each ends at or before 2^47. Reads only those of the term's blocks whose
    /// span a frame overlaps with and that aren't kept, each in one read, and checks them; they are kept, in the
    /// place of the ones that were asked for longest ago where there are too many.
    ///
    /// Errors are out of memory; a fault of the store, only where it had one in this call; and the blob, damaged: it
    /// is absent, or ends before a block that is to be read, or that block isn't the spelling of addresses as the
    /// directory tells. After an error what was kept is kept, but for what was given up for the first of the blocks.
    pub fn fetch<D: Store>(
        &mut self,
        store: &mut D,
        blob: u64,
        dir: &Directory,
        term: &[u8],
        frames: &[Range],
    ) -> Result<Sequence<u64>, Trouble>
        requires apart { AreApart frames.now }
        requires bounded { All (λ frame. frame.start + frame.len ≤ ADDRESSES_MAX) frames.now }
        ensures addresses { IfOk result (AreFetched (HasTerm dir.now term.now) frames.now blob dir.now.low (dir.now.high + 1)
            (D.holds store.old) self.old) }
        ensures blocks { OnOk result (Asks (needed blob dir.now term.now frames.now) (D.holds store.old) self.old self.new
            (D.reads store.old) (D.reads store.new)) }
        ensures kept { OnErr result (AsksFirst (needed blob dir.now term.now frames.now) (D.holds store.old) self.old self.new) }
        ensures holds { D.holds store.new ≡ D.holds store.old }
        ensures moments { D.moments store.new ≡ D.moments store.old }
        ensures calm { OnOk result (D.faults store.new ≡ D.faults store.old) }
        ensures cause { IfErr result (IsTermCause self.old blob dir.now term.now frames.now (D.holds store.old)
            (D.faults store.old) (D.faults store.new) (D.reads store.old) (D.reads store.new)) }
    {
        let mut found = Vec::new(self.alloc);
        self.walk(store, blob, dir, term, frames, &mut found)?;
        Ok(Sequence::from(found))
    }

    /// Counts the addresses that [`Lists::fetch`] gives, and the frames that have one. Asks for the same blocks, and
    /// takes memory for them alone. That is exact as long as the addresses that are counted ascend, those of several
    /// calls together. After an error some addresses in the frames were counted, or none.
    ///
    /// The blob is damaged where [`Lists::fetch`] would find it so.
    pub fn tally_into<D: Store>(
        &mut self,
        store: &mut D,
        blob: u64,
        dir: &Directory,
        term: &[u8],
        frames: &[Range],
        tally: &mut Tally,
    ) -> Result<(), Trouble>
        requires apart { AreApart frames.now }
        requires bounded { All (λ frame. frame.start + frame.len ≤ ADDRESSES_MAX) frames.now }
        ensures addresses { OnOk result (Tallies frames.now (AreFetched (HasTerm dir.now term.now) frames.now blob
            dir.now.low (dir.now.high + 1) (D.holds store.old) self.old) tally.old tally.new) }
        ensures some { OnErr result (Tallies frames.now (AreInFrames frames.now) tally.old tally.new) }
        ensures blocks { OnOk result (Asks (needed blob dir.now term.now frames.now) (D.holds store.old) self.old self.new
            (D.reads store.old) (D.reads store.new)) }
        ensures kept { OnErr result (AsksFirst (needed blob dir.now term.now frames.now) (D.holds store.old) self.old self.new) }
        ensures holds { D.holds store.new ≡ D.holds store.old }
        ensures moments { D.moments store.new ≡ D.moments store.old }
        ensures calm { OnOk result (D.faults store.new ≡ D.faults store.old) }
        ensures cause { IfErr result (IsTermCause self.old blob dir.now term.now frames.now (D.holds store.old)
            (D.faults store.old) (D.faults store.new) (D.reads store.old) (D.reads store.new)) }
    {
        self.walk(store, blob, dir, term, frames, tally)
    }

    /// Asks for the blocks of the term in the part with that blob and that directory that the frames need, as
    /// [`Lists::fetch`] does, and gives no addresses: for a caller who knows them and owes the reads. A block
    /// that is kept is the one that was asked for last then. One that isn't is read, checked and kept.
    ///
    /// The blob is damaged where [`Lists::fetch`] would find it so.
    pub fn touch<D: Store>(
        &mut self,
        store: &mut D,
        blob: u64,
        dir: &Directory,
        term: &[u8],
        frames: &[Range],
    ) -> Result<(), Trouble>
        requires apart { AreApart frames.now }
        requires bounded { All (λ frame. frame.start + frame.len ≤ ADDRESSES_MAX) frames.now }
        ensures blocks { OnOk result (Asks (needed blob dir.now term.now frames.now) (D.holds store.old) self.old self.new
            (D.reads store.old) (D.reads store.new)) }
        ensures kept { OnErr result (AsksFirst (needed blob dir.now term.now frames.now) (D.holds store.old) self.old self.new) }
        ensures holds { D.holds store.new ≡ D.holds store.old }
        ensures moments { D.moments store.new ≡ D.moments store.old }
        ensures calm { OnOk result (D.faults store.new ≡ D.faults store.old) }
        ensures cause { IfErr result (IsTermCause self.old blob dir.now term.now frames.now (D.holds store.old)
            (D.faults store.old) (D.faults store.new) (D.reads store.old) (D.reads store.new)) }
    {
        self.walk(store, blob, dir, term, frames, &mut Discard)
    }
}
