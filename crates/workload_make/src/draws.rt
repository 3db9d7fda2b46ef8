//! The source of pseudorandom numbers.
ghost use Rattle.std.specs.Prelude.{◌≡◌, ◌<◌};
ghost use Rattle.workload_make.specs.Draws.{draw_in, state_after};

/// A linear congruential generator of 64 bits, whose draws take the upper 31 bits of the state.
///
/// It is entsim's own. Its two constants are Knuth's.
#[derive(Clone, Copy, Debug, PartialEq, Eq)]
pub(crate) struct Generator {
    /// The state, at first the seed.
    pub(crate) state: u64,
}

/// The factor by which a step multiplies the state.
pub(crate) const MULTIPLIER: u64 = 6364136223846793005;

/// The number that a step adds then.
pub(crate) const INCREMENT: u64 = 1442695040888963407;

impl Generator {
    /// Takes one step, and returns a number below `count`.
    pub(crate) fn draw(&mut self, count: u32) -> u32
        requires { 0 < count }
        ensures state { self.new.state ≡ state_after self.old.state }
        ensures value { result ≡ draw_in (state_after self.old.state) count }
    {
        self.state = self.state.wrapping_mul(MULTIPLIER).wrapping_add(INCREMENT);
        ((self.state >> 33) % u64::from(count)) as u32
    }
}
