//! A visit of a SELECT.

ghost use Rattle.std.specs.Prelude.{◌≡◌, ◌++◌, List, OnErr, OnOk, length, take};
ghost use Rattle.std.specs.Option.{option_copied};
ghost use Rattle.hy_value.specs.declared.Value.{Value};
ghost use Rattle.hy_bound.specs.Projection.{projected};
ghost use Rattle.hy_chunk.specs.Gathering.{conditions_of};
ghost use Rattle.hy_chunk.specs.Sound.{FitsRow};
ghost use Rattle.hy_event.specs.Gathering.{conditions_by, rows_gathered};
ghost use Rattle.hy_visit.specs.Gathering.{AreKnown};

use hy_chunk::{Chunk, Keys, Sought, conditions_gather_rows};
use hy_plan::{Gathered, PlanPart};
use hy_stamp::Viewer;
use hy_value::Value;
use std::alloc::{AllocError, Global};

/// The keys by which rows of a part are looked up, where they are.
fn lookup_keys<'a>(part: &PlanPart, keys: Option<&'a [Value]>) -> Option<Keys<'a>>
    ensures { (columns : List (List Value)) → AreKnown part.now.lookup columns (option_copied keys.entry)
        → conditions_of part.now.pred result ≡ conditions_by part.now.pred part.now.lookup columns }
{
    match part.lookup {
        None => None,
        Some(lookup) => match keys {
            None => None,
            Some(values) => Some(Keys {
                column: lookup.key,
                values,
            }),
        },
    }
}

/// Appends what a part of a plan takes of the rows that a viewer sees in the chunk; where the part looks rows up, the
/// keys are the known values. Err is for want of memory, and appends nothing.
pub fn gather_visit(
    alloc: Global,
    chunk: &mut Chunk,
    viewer: &Viewer,
    part: &PlanPart,
    keys: Option<&[Value]>,
    gathered: &mut Gathered,
) -> Result<(), AllocError>
    requires { (row : List Value) → FitsRow chunk.old.kinds row → length (projected part.now.columns row) ≡ gathered.old.width }
    ensures rows { OnOk result ((columns : List (List Value)) → AreKnown part.now.lookup columns (option_copied keys.entry)
        → gathered.new.rows ≡ gathered.old.rows
        ++ rows_gathered viewer.now part.now (conditions_by part.now.pred part.now.lookup columns) chunk.old.shown.places) }
    ensures err { OnErr result (gathered.new ≡ gathered.old) }
    ensures width { gathered.new.width ≡ gathered.old.width }
    ensures all { chunk.new ≡ chunk.old }
{
    conditions_gather_rows();
    match lookup_keys(part, keys) {
        None => chunk.gather(alloc, viewer, &part.pred, part.columns, gathered),
        Some(keys) => {
            let sought = Sought {
                pred: &part.pred,
                keys,
                columns: part.columns,
            };
            chunk.gather_keys(alloc, viewer, &sought, gathered)
        }
    }
}
