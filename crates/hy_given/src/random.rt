//! Numbers from a linear congruential generator.

ghost use Rattle.std.specs.Prelude.{◌<◌};

/// The generator's state.
#[derive(Drop)]
pub struct Random {
    state: u64,
}

impl Random {
    /// The generator that begins with this number.
    pub fn new(seed: u64) -> Random {
        Random { state: seed }
    }

    /// A number below this one.
    pub fn below(&mut self, bound: u32) -> u32
        requires { 0 < bound }
        ensures { result < bound }
    {
        self.state = self
            .state
            .wrapping_mul(6364136223846793005)
            .wrapping_add(1442695040888963407);
        ((self.state >> 33) % u64::from(bound)) as u32
    }
}
