//! The predicate tree: against it a change is tested in a validation by precision locking (Neumann, Mühlbauer,
//! Kemper, "Fast Serializable Multi-Version Concurrency Control for Main-Memory Database Systems", SIGMOD 2015).

ghost use Rattle.std.specs.Prelude.{◌≡◌, ◌+◌, ◌<◌, IfOk, OnOk, length};
ghost use Rattle.hy_validate.specs.Filed.{AreFiled};
ghost use Rattle.hy_validate.specs.TreeHits.{first_hit_of};

use crate::groups::{self, Group, as_number, first_among};
use crate::hits::earlier;
use crate::keys::{KeyedRecords, sought_key};
use hy_bound::Record;
use hy_value::Change;
use std::alloc::{AllocError, Global};
use std::marker::Model;

/// The records of what a transaction read, by table and then by the first condition of their restrictions. A
/// change that makes this condition true neither before nor after it hits none of the records that share it, so
/// that these are asked no further. Where the condition is that a column is equal to a value, a change finds them by
/// the values of its rows. Contracts see a tree as the list of its records.
#[derive(Drop)]
pub struct Tree<'a> {
    records: &'a [Record],
    /// The records whose first condition is that a column is equal to a value.
    keyed: KeyedRecords<'a>,
    /// The other ones.
    groups: Vec<Group<'a>>,
}

impl<'a> Model for Tree<'a> {
    ghost use Rattle.std.specs.Prelude.{List};
    ghost use Rattle.std.specs.Coded.{coded_list};
    ghost use Rattle.hy_bound.specs.declared.Record.{Record};
    ghost use Rattle.hy_bound.specs.contracts.Record as logged;

    ghost Value = { List Record };

    ghost coded = { coded_list logged.the_row.coded };

    ghost use Rattle.hy_validate.specs.Filed.{IsTree};

    ghost view = { λ a. a.records.now };

    ghost invariant = { λ a. IsTree a.records.now a.keyed a.groups.items };
}

/// Puts one more record where a change finds it. Err is for want of memory, or of a number.
fn file<'a>(
    alloc: Global,
    records: &'a [Record],
    number: usize,
    keyed: &mut KeyedRecords<'a>,
    groups: &mut Vec<Group<'a>>,
) -> Result<(), AllocError>
    requires within { number < length records.now }
    requires filed { AreFiled records.now number keyed.old groups.old.items }
    ensures { OnOk result (AreFiled records.now (number + 1) keyed.new groups.new.items) }
{
    match sought_key(&records[number]) {
        Some(key) => keyed.add(key, as_number(number)?)?,
        None => groups::file(alloc, records, number, groups)?,
    }
    Ok(())
}

impl<'a> Tree<'a> {
    /// The tree of these records. Err is for want of memory, or of numbers, of which there are 2^32.
    pub fn build(alloc: Global, records: &'a [Record]) -> Result<Tree<'a>, AllocError>
        ensures { IfOk result (λ tree. tree ≡ records.now) }
    {
        let mut keyed = KeyedRecords::new(alloc);
        let mut groups = Vec::new(alloc);
        for number in 0..records.len() {
            file(alloc, records, number, &mut keyed, &mut groups)?;
        }
        keyed.sort();
        Ok(Tree {
            records,
            keyed,
            groups,
        })
    }

    /// The number of the first record that a change hits, from 0. It takes no memory.
    pub fn first_hit(&self, change: &Change) -> Option<u32>
        ensures { result ≡ first_hit_of self.now change.now }
    {
        let by_key = self.keyed.first_hit(self.records, change);
        let in_groups = first_among(self.records, self.groups.as_slice(), change);
        earlier(by_key, in_groups)
    }
}
