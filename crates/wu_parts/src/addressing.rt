//! The addresses of places. Those of one text follow one another, and mostly those of the next text
//! them: where they don't, there is a break, so that the addresses between two texts take no memory,
//! however many they are.
ghost use Rattle.std.specs.Prelude.{◌≡◌, ◌-◌, ◌<◌, ◌≤◌, ◌∷◌, ◌++◌, [], OnErr, OnOk, drop, length, take};
ghost use Rattle.std.specs.List.{AllByRecursion};
ghost use Rattle.wu_parts.specs.Addressing.{AreBy, IsRising, address_of};

use std::alloc::Global;
use wu_base::{ADDRESSES_MAX, NoMemory};

/// From the place on, addresses are counted from another start.
#[derive(Clone, Copy, Debug, PartialEq, Eq)]
pub(crate) struct Break {
    place: u32,
    start: u64,
}

/// Which address each place has: the start and as many more as the place says, unless a break comes
/// before.
#[derive(Drop)]
pub(crate) struct Addressing {
    start: u64,
    breaks: Vec<Break>,
}

impl Addressing {
    /// The addresses from the start on, one after another. Takes no memory.
    pub(crate) fn from_start(alloc: Global, start: u64) -> Addressing
        ensures start { result.start ≡ start }
        ensures breaks { result.breaks.items ≡ [] }
    {
        Addressing {
            start,
            breaks: Vec::new(alloc),
        }
    }

    /// The address from which the first places are counted.
    pub(crate) fn start(&self) -> u64
        ensures { result ≡ self.now.start }
    {
        self.start
    }

    /// The address of the place. Takes time logarithmic in the number of breaks.
    #[inline]
    pub(crate) fn address_of(&self, place: u32) -> u64
        requires rising { IsRising self.now }
        requires bounded { address_of self.now place ≤ ADDRESSES_MAX }
        ensures { result ≡ address_of self.now place }
    {
        let passed = self.count_passed(place);
        if passed == 0 {
            self.start + u64::from(place)
        } else {
            self.breaks[passed - 1].start + u64::from(place)
        }
    }

    /// How many breaks come before the place or at it.
    fn count_passed(&self, place: u32) -> usize
        requires { IsRising self.now }
        ensures within { result ≤ length self.now.breaks.items }
        ensures passed { AreBy place (take result self.now.breaks.items) }
        ensures others { AllByRecursion (λ next. place < next.place) (drop result self.now.breaks.items) }
    {
        self.breaks.partition_point(|next| next.place <= place)
    }

    /// Gives the place that address, and those behind it the next ones. Out of memory, all is as it was.
    pub(crate) fn break_at(&mut self, place: u32, address: u64) -> Result<(), NoMemory>
        requires rising { IsRising self.old }
        requires last { AreBy place self.old.breaks.items }
        requires after { address_of self.old place ≤ address }
        ensures start { self.new.start ≡ self.old.start }
        ensures ok { OnOk result (self.new.breaks.items
            ≡ self.old.breaks.items ++ record { place = place; start = address - place } ∷ []) }
        ensures err { OnErr result (self.new.breaks.items ≡ self.old.breaks.items) }
    {
        let start = address - u64::from(place);
        self.breaks.push(Break { place, start })?;
        Ok(())
    }
}
