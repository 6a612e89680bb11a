//! Validation by precision locking (Jordan, Banerjee, Batman, SIGMOD 1981): a commit is refused where a change that
//! was committed since the transaction's start hits what it read.
#![tactic(auto)]

ghost use Rattle.std.specs.Prelude.{◌≡◌};
ghost use Rattle.std.specs.Result.{result_err};
ghost use Rattle.hy_validate.specs.Hits.{hit_among, first_invalid};

mod conditions;
mod groups;
mod hits;
mod keys;
mod laws;
mod tree;

use hy_journal::Entry;
use hy_stamp::Label;
use hy_value::Change;
pub use laws::hits_are_of_statements_and_rows;
pub use tree::Tree;

/// A change that hits what a transaction read.
#[derive(Clone, Copy, Debug, PartialEq, Eq)]
pub struct Invalid {
    /// The transaction whose change it is.
    pub other: Label,
    /// The table of the change.
    pub table: u32,
    /// Its position.
    pub pos: u32,
    /// The number of the first record that it hits, from 0.
    pub number: u32,
}

/// Validates the records of what a transaction read against the entries of those that committed since its start. Err
/// tells the first hit: the entries in order, the changes of one in order, the records by number. It takes no memory.
pub fn validate_with(tree: &Tree, entries: &[Entry]) -> Result<(), Invalid>
    ensures { result_err result ≡ first_invalid tree.now entries.now }
{
    for entry in entries {
        if let Some(invalid) = entry_hit(tree, entry) {
            return Err(invalid);
        }
    }
    Ok(())
}

/// The first of an entry's changes that hits a record.
fn entry_hit(tree: &Tree, entry: &Entry) -> Option<Invalid>
    ensures { result ≡ hit_among tree.now entry.now.label entry.now.notes }
{
    for change in entry.notes.as_slice() {
        if let Some(number) = tree.first_hit(change) {
            return Some(Invalid {
                other: entry.label,
                table: change.table,
                pos: change.pos,
                number,
            });
        }
    }
    None
}
