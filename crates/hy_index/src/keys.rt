//! Keys, as they are kept.

ghost use Rattle.std.specs.Prelude.{◌≡◌};
ghost use Rattle.hy_value.specs.Order.{value_cmp};

use hy_value::Text;
use std::cmp::Ordering;

/// A key as it is kept.
pub trait Key: Drop {
    ghost use Rattle.hy_value.specs.declared.Value.{Value};

    ghost value: { Self → Value };

    /// How it stands to another one of its kind.
    fn compare(&self, other: &Self) -> Ordering
        ensures { result ≡ value_cmp (value self.now) (value other.now) };
}

/// The key of NULLs.
#[derive(Drop)]
pub struct NullKey;

impl Key for NullKey {
    ghost use Rattle.hy_value.specs.declared.Value.TheVariants.{Null};

    ghost value = { λ _. Null };

    fn compare(&self, _other: &NullKey) -> Ordering {
        Ordering::Equal
    }
}

impl Key for i64 {
    ghost use Rattle.hy_value.specs.declared.Value.TheVariants.{Int};

    ghost value = { Int };

    fn compare(&self, other: &i64) -> Ordering {
        self.cmp(other)
    }
}

impl Key for Text {
    ghost use Rattle.hy_value.specs.declared.Value.TheVariants.{Text as text};

    ghost value = { text };

    fn compare(&self, other: &Text) -> Ordering {
        self.as_bytes().cmp(other.as_bytes())
    }
}
