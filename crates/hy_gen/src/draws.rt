//! The generator of the numbers that a script is made from.

ghost use Rattle.std.specs.Prelude.{◌≡◌};
ghost use Rattle.hy_gen.specs.Draws.{next_state, drawn};

/// What the state is multiplied by.
const MULTIPLIER: u64 = 6_364_136_223_846_793_005;

/// What is added then.
const INCREMENT: u64 = 1_442_695_040_888_963_407;

/// A linear congruential generator of 64 bits, of which the upper half is drawn. Its numbers are those of
/// MMIX (Knuth, The Art of Computer Programming 2).
#[derive(Debug, PartialEq, Eq, Drop)]
pub struct Draws {
    /// The state.
    pub state: u64,
}

impl Draws {
    /// The generator that begins at this seed.
    pub fn new(seed: u32) -> Draws
        ensures { result.state ≡ seed }
    {
        Draws {
            state: u64::from(seed),
        }
    }

    /// The next number.
    pub fn draw(&mut self) -> u32
        ensures drawn { result ≡ drawn self.old.state }
        ensures moved { self.new.state ≡ next_state self.old.state }
    {
        self.state = self.state.wrapping_mul(MULTIPLIER).wrapping_add(INCREMENT);
        (self.state >> 32) as u32
    }
}
