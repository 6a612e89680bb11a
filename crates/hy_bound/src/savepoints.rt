//! The savepoints that are open in a transaction.

ghost use Rattle.std.specs.Prelude.{◌≡◌, ◌-◌, ◌^◌, ◌<◌, IfSome, OnErr, OnOk};
ghost use Rattle.hy_bound.specs.Savepoints.{newest, saved_after};

use crate::{Bound, Name};
use hy_value::{Seq, Text};
use std::alloc::AllocError;
use std::marker::Model;

/// The name of a savepoint that is open.
#[derive(Drop)]
pub struct SavedName {
    name: Text,
}

impl Model for SavedName {
    ghost use Rattle.hy_bound.specs.Savepoints.{Saved};

    ghost Value = { Saved (Unit {0}) };

    ghost view = { λ saved. record { name = saved.name; was = tt } };
}

impl SavedName {
    /// A savepoint of this name.
    pub fn new(name: &Name) -> SavedName
        ensures { result ≡ record { name = name.now; was = tt } }
    {
        SavedName {
            name: name.text().copy(),
        }
    }
}

/// The number of the newest savepoint of a name, the oldest one having number 0.
pub fn newest_savepoint(savepoints: &[SavedName], name: &Text) -> Option<usize>
    ensures number { result ≡ newest name.now savepoints.now }
    ensures within { IfSome result (λ number. number < 2 ^ 64 - 1) }
{
    let mut found = None;
    for (number, saved) in savepoints.iter().enumerate() {
        if name.as_bytes() == saved.name.as_bytes() {
            found = Some(number);
        }
    }
    found
}

/// The savepoints that are open behind a statement, from those before it. Err is for want of memory, and changes nothing.
pub fn keep_open(savepoints: &mut Seq<SavedName>, statement: &Bound) -> Result<(), AllocError>
    ensures ok { OnOk result (savepoints.new ≡ saved_after statement.now savepoints.old tt) }
    ensures err { OnErr result (savepoints.new ≡ savepoints.old) }
{
    match statement {
        Bound::Savepoint { name } => savepoints.push(SavedName::new(name))?,
        Bound::RollbackTo { name } => {
            if let Some(number) = newest_savepoint(savepoints.as_slice(), name.text()) {
                savepoints.truncate(number + 1);
            }
        }
        Bound::Release { name } => {
            if let Some(number) = newest_savepoint(savepoints.as_slice(), name.text()) {
                savepoints.truncate(number);
            }
        }
        _ => {}
    }
    Ok(())
}
