//! The weight that a word gives a unit.
ghost use Rattle.std.specs.Prelude.{◌≡◌, ℕ, ◌+◌, ◌*◌, ◌/◌, ◌^◌, ◌<◌, ◌≤◌, ◌⊎◌};
ghost use Rattle.wu_rank.specs.Bm25.{weigh, InRange, IsWeigher};

/// The BM25 weight of a word in a unit, with k1 = 1.2 and b = 0.75, in units of 1/65536 and
/// rounded down. `idf` is the word's inverse document frequency in those units, at most 2^22, `f`
/// how often the unit holds it, at most `l`, `l` the unit's length, below 2^26, `n` the number of
/// units, from 1 to 2^47, and `t` their summed length, at least 1 and below 2^73.
pub fn bm25_weigh(idf: u32, f: u64, l: u64, n: u64, t: u128) -> u64
    requires range { InRange idf f l }
    requires some_units { 1 ≤ n }
    requires units { n ≤ 2 ^ 47 }
    requires some_length { 1 ≤ t }
    requires length { t < 2 ^ 73 }
    ensures { result ≡ weigh idf f l n t }
{
    let frequency = u128::from(f);
    let gain = u128::from(idf) * 22 * frequency * t;
    let scale = 10 * frequency * t + 3 * t + 9 * u128::from(l) * u128::from(n);
    (gain / scale) as u64
}

/// A way to weigh the words of one query: a closure that answers the BM25 weight for the number
/// of the units and their summed length, which are kept beside it. Each call that uses the
/// closure requires what it needs to know of it.
#[derive(Drop)]
pub struct Ranker<F> {
    /// Answers the weight for an inverse document frequency, a word's count and a unit's length.
    pub weigh: F,
    /// The number of the units, from 1 to 2^47.
    pub n: u64,
    /// Their summed length, at least 1 and below 2^73.
    pub t: u128,
}

impl<F: Fn(u32, u64, u64) -> u64> Ranker<F> {
    /// Keeps the closure `weigh` for `n` units of summed length `t`. Takes no memory.
    pub fn new(weigh: F, n: u64, t: u128) -> Ranker<F>
        requires weigher { IsWeigher (F.pre weigh) (F.post weigh) n t }
        requires some_units { 1 ≤ n }
        requires units { n ≤ 2 ^ 47 }
        requires some_length { 1 ≤ t }
        requires length { t < 2 ^ 73 }
        ensures weigh { result.weigh ≡ weigh }
        ensures n { result.n ≡ n }
        ensures t { result.t ≡ t }
    {
        Ranker { weigh, n, t }
    }

    /// What the kept closure answers: at most 22/10 of `idf`, and 0 where `idf` or `f` is 0.
    pub fn weigh(&self, idf: u32, f: u64, l: u64) -> u64
        requires weigher { IsWeigher (F.pre self.now.weigh) (F.post self.now.weigh) self.now.n self.now.t }
        requires range { InRange idf f l }
        ensures value { result ≡ weigh idf f l self.now.n self.now.t }
        ensures bound { result ≤ 22 * idf / 10 }
        ensures zero { (idf ≡ 0) ⊎ (f ≡ 0) → result ≡ 0 }
    {
        (self.weigh)(idf, f, l)
    }
}
