//! Before-images.

ghost use Rattle.std.specs.Prelude.{◌≡◌};

/// What a record keeps of a position as it was before a write.
pub trait Image: Drop {
    /// What stands at a position.
    type Base;

    /// What stood there before the write.
    ghost applied: { Self → Self.Base → Self.Base };

    /// A newer and an older image as one.
    ghost merged: { Self → Self → Self };

    /// Puts back what stood there before the write.
    fn apply(&self, base: &mut Self::Base)
        ensures { base.new ≡ applied self.now base.old };

    /// Takes an older image into this one. It takes no memory.
    fn merge_older(&mut self, older: Self)
        ensures { self.new ≡ merged self.old older };

    /// One image of both puts back what the two put back, the newer first.
    ghost merges: { (newer older : Self) (base : Self.Base) → applied (merged newer older) base ≡ applied older (applied newer base) };
}
