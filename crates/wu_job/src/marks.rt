//! A mark for each live address: whether it stands in a list that was made.
ghost use Rattle.std.specs.Prelude.{◌≡◌, ◌==◌, ◌||◌, ◌<◌, ℕ, false, get_or, length, replicate, IfOk};
ghost use Rattle.std.specs.List.{AllByRecursion, list_any};

use std::alloc::Global;
use std::marker::Model;
use wu_base::NoMemory;

/// A mark for each place, which takes one bit. Contracts see the list of the marks.
#[derive(Drop)]
pub(crate) struct Marks {
    words: Vec<u64>,
    count: u64,
}

impl Model for Marks {
    ghost use Rattle.std.specs.Prelude.{Bool, List};

    ghost Value = { List Bool };

    ghost use Rattle.wu_job.specs.Marks.{marks_of, HasWords};

    ghost view = { marks_of };

    ghost invariant = { HasWords };
}

impl Marks {
    /// So many places, of which none is marked.
    pub(crate) fn none(alloc: Global, count: u64) -> Result<Marks, NoMemory>
        ensures { IfOk result (λ marks. marks ≡ replicate count false) }
    {
        Ok(Marks {
            words: vec![in alloc; 0u64; count.div_ceil(64) as usize]?,
            count,
        })
    }

    /// Whether the place is marked.
    fn has(&self, place: u64) -> bool
        requires { place < length self.now }
        ensures { result ≡ get_or self.now place false }
    {
        self.words[(place / 64) as usize] >> (place % 64) & 1 == 1
    }

    /// Marks the place.
    fn mark(&mut self, place: u64)
        requires { place < length self.old }
        ensures long { length self.new ≡ length self.old }
        ensures marked { (k : ℕ) → get_or self.new k false ≡ (place == k || get_or self.old k false) }
    {
        let word = (place / 64) as usize;
        self.words[word] = self.words[word] | 1 << (place % 64);
    }
}

/// Whether one of the places is marked.
pub(crate) fn some_marked(marks: &Marks, places: &[u64]) -> bool
    requires { AllByRecursion (λ place. place < length marks.now) places.now }
    ensures { result ≡ list_any (λ place. get_or marks.now place false) places.now }
{
    for place in places {
        if marks.has(*place) {
            return true;
        }
    }
    false
}

/// Marks the places.
pub(crate) fn mark_all(marks: &mut Marks, places: &[u64])
    requires { AllByRecursion (λ place. place < length marks.old) places.now }
    ensures long { length marks.new ≡ length marks.old }
    ensures marked { (k : ℕ) → get_or marks.new k false ≡ (list_any (λ place. place == k) places.now || get_or marks.old k false) }
{
    for place in places {
        marks.mark(*place);
    }
}
