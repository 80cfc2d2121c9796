//! The numbers that inputs are drawn from.
ghost use Rattle.std.specs.Prelude.{◌≡◌, ◌<◌, ◌≤◌};
ghost use Rattle.soak_inputs.specs.Draws.{drawn, next};

use std::marker::Model;

/// The multiplier of the generator: that of Knuth's MMIX.
const MULTIPLIER: u64 = 6_364_136_223_846_793_005;

/// What the generator adds: that of Knuth's MMIX.
const INCREMENT: u64 = 1_442_695_040_888_963_407;

/// How many low bits of a state are dropped. They repeat soon.
const LOW_BITS: u32 = 33;

/// A linear congruential generator of 64 bits. In contracts it is its state, the number that the
/// next one is made of.
#[derive(Drop)]
pub(crate) struct Draws {
    state: u64,
}

impl Model for Draws {
    ghost use Rattle.std.specs.Prelude.{ℕ};

    ghost Value = { ℕ };

    ghost view = { λ d. d.state };
}

impl Draws {
    /// The draws of a seed.
    pub(crate) fn new(seed: u64) -> Draws
        ensures { result ≡ seed }
    {
        Draws { state: seed }
    }

    /// Draws a number below `n`.
    pub(crate) fn draw(&mut self, n: u64) -> u64
        requires { 0 < n }
        ensures value { result ≡ drawn n self.old }
        ensures next { self.new ≡ next self.old }
        ensures below { result < n }
    {
        self.state = self.state.wrapping_mul(MULTIPLIER).wrapping_add(INCREMENT);
        (self.state >> LOW_BITS) % n
    }
}
