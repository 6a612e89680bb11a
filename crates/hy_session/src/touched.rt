//! Whether changes that others committed are in tables that a transaction read.

ghost use Rattle.std.specs.Prelude.{◌≡◌};
ghost use Rattle.hy_session.specs.Touched.{are_touched, reads_of, reads_table};

use hy_bound::Record;
use hy_journal::Entry;

/// Whether a record is of this table.
fn reads_table(records: &[Record], table: u32) -> bool
    ensures { result ≡ reads_table records.now table }
{
    records.iter().any(|logged| logged.table == table)
}

/// Whether an entry has a change in a table that a record is of.
fn reads_of(records: &[Record], entry: &Entry) -> bool
    ensures { result ≡ reads_of records.now entry.now.notes }
{
    entry
        .notes
        .as_slice()
        .iter()
        .any(|change| reads_table(records, change.table))
}

/// Whether one of these entries has a change in a table that a record is of: else no change hits a record.
pub(crate) fn are_touched(records: &[Record], entries: &[Entry]) -> bool
    ensures { result ≡ are_touched records.now entries.now }
{
    entries.iter().any(|entry| reads_of(records, entry))
}
