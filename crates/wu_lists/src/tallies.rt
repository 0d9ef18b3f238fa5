//! How many addresses lie in frames, and in how many of the frames one does.
ghost use Rattle.std.specs.Prelude.{◌≡◌, ◌+◌, ◌-◌, ◌^◌, ◌<◌, List, []};
ghost use Rattle.std.specs.List.{AllByRecursion};
ghost use Rattle.wu_base.specs.declared.addresses.Range.{Range};
ghost use Rattle.wu_lists.specs.Gaining.{with_frame, with_several};
ghost use Rattle.wu_lists.specs.Tallying.{tally_of};

/// How many addresses were counted, and how many frames have one of them.
#[derive(Clone, Copy, Debug, PartialEq, Eq)]
pub struct Tally {
    /// The number of addresses, which stands still at 2^64 - 1.
    pub hits: u64,
    /// The number of frames with an address, which stands still at 2^64 - 1.
    pub frames: u64,
    /// The address after the last one that was counted; 0 where none was.
    pub after: u64,
}

impl Tally {
    /// Of no addresses.
    pub fn new() -> Tally
        ensures { (frames : List Range) → result ≡ tally_of frames [] }
    {
        Tally {
            hits: 0,
            frames: 0,
            after: 0,
        }
    }

    /// Counts more addresses, which ascend and lie in a frame that begins at `start`.
    #[inline]
    pub(crate) fn count(&mut self, start: u64, addresses: &[u64])
        requires { AllByRecursion (λ address. address < 2 ^ 64 - 1) addresses.now }
        ensures { self.new ≡ with_frame start self.old addresses.now }
    {
        if let [.., last] = addresses {
            self.count_to(start, addresses.len(), *last);
        }
    }

    /// The same of so many addresses, of which only the last one is known.
    #[inline]
    pub(crate) fn count_to(&mut self, start: u64, count: usize, last: u64)
        requires { last < 2 ^ 64 - 1 }
        ensures { self.new ≡ with_several start self.old count (last + 1) }
    {
        self.hits = self.hits.saturating_add(count as u64);
        if self.after <= start {
            self.frames = self.frames.saturating_add(1);
        }
        self.after = last + 1;
    }
}
