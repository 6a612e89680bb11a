//! Savepoints of a transaction that runs alone: each keeps the rows of all tables.

ghost use Rattle.std.specs.Prelude.{◌≡◌, ◌<◌, length, IfSome, OnOk};
ghost use Rattle.hy_bound.specs.Savepoints.{newest, saved_after, value_after};
ghost use Rattle.hy_meaning.specs.Serial.{database_back};

use crate::tables::{Database, copy_database};
use hy_bound::{Bound, Name};
use hy_value::{Seq, Text};
use std::alloc::{AllocError, Global};
use std::marker::Model;

/// An open savepoint: its name, and the rows of the tables when it was made.
#[derive(Drop)]
pub struct SavedRows {
    name: Text,
    was: Database,
}

impl Model for SavedRows {
    ghost use Rattle.hy_bound.specs.Savepoints.{Saved};
    ghost use Rattle.hy_meaning.specs.Statement.{Database};

    ghost Value = { Saved Database };

    ghost view = { λ saved. record { name = saved.name; was = saved.was } };
}

/// The number of the newest savepoint of a name, the oldest one having number 0.
fn newest_of(saved: &[SavedRows], name: &Name) -> Option<usize>
    ensures number { result ≡ newest name.now saved.now }
    ensures within { IfSome result (λ number. number < length saved.now) }
{
    let (first, others) = saved.split_first()?;
    match newest_of(others, name) {
        Some(number) => Some(number + 1),
        None => (name.text().as_bytes() == first.name.as_bytes()).then_some(0),
    }
}

/// What a statement does behind its reply: SAVEPOINT keeps the rows of the tables, ROLLBACK TO goes back to those that were
/// kept, RELEASE lets them go. Err is for want of memory.
pub fn keep_or_go_back(
    alloc: Global,
    statement: &Bound,
    saved: &mut Seq<SavedRows>,
    db: &mut Database,
) -> Result<(), AllocError>
    ensures saved { OnOk result (saved.new ≡ saved_after statement.now saved.old db.old) }
    ensures rows { OnOk result (db.new ≡ value_after database_back statement.now saved.old db.old) }
{
    match statement {
        Bound::Savepoint { name } => saved.push(SavedRows {
            name: name.text().copy(),
            was: copy_database(alloc, db)?,
        })?,
        Bound::RollbackTo { name } => {
            if let Some(number) = newest_of(saved.as_slice(), name) {
                let kept = &saved.as_slice()[number];
                *db = copy_database(alloc, &kept.was)?;
                saved.truncate(number + 1);
            }
        }
        Bound::Release { name } => {
            if let Some(number) = newest_of(saved.as_slice(), name) {
                saved.truncate(number);
            }
        }
        _ => {}
    }
    Ok(())
}
