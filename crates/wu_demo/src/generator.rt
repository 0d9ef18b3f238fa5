//! The generator of the script's numbers.
ghost use Rattle.std.specs.Prelude.{◌≡◌, ◌≤◌, ◌<◌, ℕ};
ghost use Rattle.wu_demo.specs.Draws.{draw};

use std::marker::Model;

/// The multiplier and the increment of Knuth's MMIX.
const MULTIPLIER: u64 = 6_364_136_223_846_793_005;

const INCREMENT: u64 = 1_442_695_040_888_963_407;

/// A linear congruential generator of 64 bits. Contracts see its state.
#[derive(Drop)]
pub struct Generator {
    state: u64,
}

impl Model for Generator {
    ghost Value = { ℕ };

    ghost view = { λ g. g.state };
}

impl Generator {
    /// The generator whose state is the number.
    pub fn new(number: u64) -> Generator
        ensures { result ≡ number }
    {
        Generator { state: number }
    }

    /// The next number, which is below the bound. The bound is at least 1.
    #[tactic(auto, unfolding(crate::specs::Draws::draw))]
    pub fn draw(&mut self, bound: u64) -> u64
        requires { 1 ≤ bound }
        ensures value { result ≡ (draw bound self.old).0 }
        ensures state { self.new ≡ (draw bound self.old).1 }
        ensures below { result < bound }
    {
        self.state = self.state.wrapping_mul(MULTIPLIER).wrapping_add(INCREMENT);
        (self.state >> 33) % bound
    }
}
