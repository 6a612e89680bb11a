//! What is noted of a column.

ghost use Rattle.std.specs.Prelude.{◌≡◌, ◌+◌, ◌≤◌, ◌↔◌, IsTrue, None, Some};
ghost use Rattle.hy_undo.specs.Images.{older_or};
ghost use Rattle.hy_undo.specs.Noted.{noted_value};
ghost use Rattle.hy_value.specs.Cells.{text_count};
ghost use Rattle.hy_value.specs.Refs.{referred};
ghost use Rattle.hy_value.specs.declared.Value.{Value};

use crate::spares::Spares;
use hy_value::{Text, ValueRef};

/// What is noted of a column. A text stands behind a pointer, so that a number takes no room for one.
#[derive(Default, Drop)]
pub enum Noted {
    /// Nothing.
    #[default]
    Nothing,
    /// NULL.
    Null,
    /// A number.
    Int(i64),
    /// A text.
    Text(Box<Text>),
}

impl Noted {
    /// Whether nothing is noted.
    pub fn is_nothing(&self) -> bool
        ensures { IsTrue result ↔ (noted_value self.now ≡ None) }
    {
        matches!(self, Noted::Nothing)
    }

    /// Notes a value that is looked at, if nothing is noted, and a text in a place of the spares. It takes no memory.
    pub fn note(&mut self, old: ValueRef<'_>, spares: &mut Spares)
        requires { text_count (referred old) ≤ spares.old.free }
        ensures noted { noted_value self.new ≡ older_or (Some (referred old.entry)) (noted_value self.old) }
        ensures same { (spares.new.columns ≡ spares.old.columns) × (spares.new.texts ≡ spares.old.texts) }
        ensures count { spares.new.count ≡ spares.old.count }
        ensures free { spares.old.free ≤ spares.new.free + text_count (referred old.entry) }
    {
        if self.is_nothing() {
            *self = Noted::of(old, spares);
        }
    }

    /// Notes a number, if nothing is noted. It takes no memory.
    pub fn note_number(&mut self, old: i64)
        ensures { noted_value self.new ≡ older_or (Some (Value.Int old)) (noted_value self.old) }
    {
        if let Noted::Nothing = self {
            *self = Noted::Int(old);
        }
    }

    /// A value that is noted, a text in a place of the spares.
    fn of(old: ValueRef<'_>, spares: &mut Spares) -> Noted
        requires { text_count (referred old) ≤ spares.old.free }
        ensures noted { noted_value result ≡ Some (referred old.entry) }
        ensures same { (spares.new.columns ≡ spares.old.columns) × (spares.new.texts ≡ spares.old.texts) }
        ensures count { spares.new.count ≡ spares.old.count }
        ensures free { spares.old.free ≤ spares.new.free + text_count (referred old.entry) }
    {
        match old {
            ValueRef::Null => Noted::Null,
            ValueRef::Int(number) => Noted::Int(number),
            ValueRef::Text(text) => Noted::Text(spares.place(text)),
        }
    }
}
