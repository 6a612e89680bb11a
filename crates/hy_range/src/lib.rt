//! The range of positions of a chunk that may have undo records. Outside it a scan reads the columns alone
//! (HyPer's versioned positions: Neumann, Mühlbauer, Kemper, "Fast Serializable Multi-Version Concurrency
//! Control for Main-Memory Database Systems", SIGMOD 2015).
#![tactic(auto)]

ghost use Rattle.std.specs.Prelude.{◌≡◌, ℕ, ◌+◌, ◌^◌, ◌<◌};
ghost use Rattle.hy_range.specs.Ranges.{IsIn, empty, widened};
ghost use Rattle.hy_range.specs.declared.Versioned.{Versioned};

/// Positions from `first` up to, and without, `end`. Where `end` is not above `first` there are none.
#[derive(Clone, Copy, Debug, PartialEq, Eq)]
pub struct Versioned {
    /// The first position.
    pub first: u32,
    /// One past the last position.
    pub end: u32,
}

impl Versioned {
    ghost use Rattle.hy_range.specs.Ranges.{empty, widened};

    /// No positions.
    pub fn none() -> Versioned
        ensures { result ≡ empty }
    {
        Versioned { first: 0, end: 0 }
    }

    /// Widens the range so that it has this position.
    pub fn cover(&mut self, pos: u32)
        requires { pos + 1 < 2 ^ 32 }
        ensures { self.new ≡ widened pos self.old }
    {
        if self.first < self.end {
            self.first = self.first.min(pos);
            self.end = self.end.max(pos + 1);
        } else {
            self.first = pos;
            self.end = pos + 1;
        }
    }

    /// Takes every position out.
    pub fn clear(&mut self)
        ensures { self.new ≡ empty }
    {
        self.first = 0;
        self.end = 0;
    }
}

/// A range that was widened by a position has it, and every position that it had.
pub fn ranges_widen()
    ensures here { (range : Versioned) (pos : ℕ) → IsIn pos (widened pos range) }
    ensures kept { (range : Versioned) (pos other : ℕ) → IsIn other range → IsIn other (widened pos range) }
    ensures none { (pos : ℕ) → ¬ IsIn pos empty }
{}
