//! Whether a change hits a record, and which number comes first.

ghost use Rattle.std.specs.Prelude.{◌≡◌};
ghost use Rattle.hy_validate.specs.TreeHits.{is_hit_number, earlier_of};

use hy_bound::{Record, hits};
use hy_value::Change;

/// Whether a change hits the record of a number.
pub(crate) fn is_hit(records: &[Record], number: u32, change: &Change) -> bool
    ensures { result ≡ is_hit_number records.now change.now number }
{
    match records.get(number as usize) {
        Some(logged) => {
            logged.table == change.table
                && hits(logged, change.before.as_ref(), change.after.as_ref())
        }
        None => false,
    }
}

/// The less of two numbers that may be there.
pub(crate) fn earlier(number: Option<u32>, other: Option<u32>) -> Option<u32>
    ensures { result ≡ earlier_of number other }
{
    match (number, other) {
        (Some(number), Some(other)) => Some(number.min(other)),
        (None, other) => other,
        (number, None) => number,
    }
}
