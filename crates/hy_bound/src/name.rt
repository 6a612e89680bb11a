//! Names that statements carry.

ghost use Rattle.std.specs.Prelude.{◌≡◌, IfOk};

use hy_value::Text;
use std::alloc::{AllocError, Global};
use std::marker::Model;

/// The name of a savepoint. It stands behind a pointer, so that a statement without one takes no room for it.
#[derive(Drop)]
pub struct Name {
    text: Box<Text>,
}

impl Model for Name {
    ghost use Rattle.std.specs.Prelude.{ℕ, List};

    ghost Value = { List ℕ };

    ghost view = { λ n. n.text.value };
}

impl Name {
    /// The name that is this text.
    pub fn new(alloc: Global, text: Text) -> Result<Name, AllocError>
        ensures { IfOk result (λ name. name ≡ text) }
    {
        Ok(Name {
            text: Box::new(alloc, text)?,
        })
    }

    /// Its text.
    pub fn text(&self) -> &Text
        ensures { result.now ≡ self.now }
    {
        &self.text
    }
}
