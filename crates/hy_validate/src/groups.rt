//! The groups of a predicate tree.

ghost use Rattle.std.specs.Prelude.{◌≡◌, ◌<◌, [], ◌∷◌, ◌++◌, IfOk, OnOk, IfSome, IfNone, All, Contains, length, slice_index_or};
ghost use Rattle.std.specs.Option.{option_copied};
ghost use Rattle.hy_bound.specs.Predicate.{truth_at};
ghost use Rattle.hy_validate.specs.Groups.{IsGrouped, IsFiled, IsIn, IsOf, IsTakenIn};
ghost use Rattle.hy_validate.specs.TreeHits.{is_hit_number, is_asked, Finds};

use crate::conditions::{first_condition, is_same};
use crate::hits::{earlier, is_hit};
use hy_bound::{Pred, Record, stored_truth};
use hy_value::{Change, StoredRow};
use std::alloc::{AllocError, Global};

/// The records of a table whose restrictions have the same first condition.
#[derive(Drop)]
pub(crate) struct Group<'a> {
    /// The table.
    table: u32,
    /// The first condition of their restrictions.
    first: &'a Pred,
    /// Their numbers, ascending.
    numbers: Vec<u32>,
}

impl<'a> Group<'a> {
    /// The group of one record.
    fn new(alloc: Global, table: u32, first: &'a Pred, number: u32) -> Result<Group<'a>, AllocError>
        ensures of { IfOk result (λ group. IsOf table first.now group) }
        ensures numbers { IfOk result (λ group. group.numbers.items ≡ number ∷ []) }
    {
        let mut numbers = Vec::new(alloc);
        numbers.push(number)?;
        Ok(Group {
            table,
            first,
            numbers,
        })
    }

    /// Adds the number of one more record.
    fn add(&mut self, number: u32) -> Result<(), AllocError>
        ensures of { IsOf self.old.table self.old.first.now self.new }
        ensures numbers { OnOk result (self.new.numbers.items ≡ self.old.numbers.items ++ number ∷ []) }
    {
        self.numbers.push(number)?;
        Ok(())
    }

    /// Whether a change of a row can hit a record of the group: only where it is a change of the table, and the
    /// first condition is true of the row before or after.
    fn may_be_hit(&self, change: &Change) -> bool
        ensures { result ≡ is_asked change.now self.now }
    {
        self.table == change.table
            && (selects(self.first, change.before.as_ref())
                || selects(self.first, change.after.as_ref()))
    }
}

/// Whether a condition is true of a row that is there or not.
fn selects(pred: &Pred, row: Option<&StoredRow>) -> bool
    ensures { result ≡ truth_at pred.now (option_copied row.entry) }
{
    match row {
        Some(row) => stored_truth(pred, row),
        None => false,
    }
}

/// Puts one more record into its group, which may be a new one. Err is for want of memory, or of a number.
pub(crate) fn file<'a>(
    alloc: Global,
    records: &'a [Record],
    number: usize,
    groups: &mut Vec<Group<'a>>,
) -> Result<(), AllocError>
    requires within { number < length records.now }
    requires grouped { IsGrouped records.now number groups.old.items }
    ensures { OnOk result (IsTakenIn records.now number groups.old.items groups.new.items) }
{
    let logged = &records[number];
    let first = first_condition(&logged.pred);
    let number = as_number(number)?;
    match place_of(groups.as_slice(), logged.table, first) {
        Some(at) => groups[at].add(number)?,
        None => groups.push(Group::new(alloc, logged.table, first, number)?)?,
    }
    Ok(())
}

/// The number of a record, of which there are 2^32.
pub(crate) fn as_number(index: usize) -> Result<u32, AllocError>
    ensures { IfOk result (λ number. number ≡ index) }
{
    u32::try_from(index).map_err(|_| AllocError)
}

/// The group of a table and a first condition, if there is one.
fn place_of(groups: &[Group], table: u32, first: &Pred) -> Option<usize>
    ensures within { IfSome result (λ at. at < length groups.now) }
    ensures of { IfSome result (λ at. (d : Group) → IsOf table first.now (slice_index_or groups.now at d)) }
    ensures none { IfNone result (All (λ group. ¬ (IsOf table first.now group)) groups.now) }
{
    for (at, group) in groups.iter().enumerate() {
        if group.table == table && is_same(group.first, first) {
            return Some(at);
        }
    }
    None
}

/// The number of the first record that a change hits, of those in groups.
pub(crate) fn first_among(records: &[Record], groups: &[Group], change: &Change) -> Option<u32>
    requires { IsGrouped records.now (length records.now) groups.now }
    ensures { Finds (is_hit_number records.now change.now) (IsIn groups.now) result }
{
    let mut first = None;
    for group in groups {
        first = earlier(first, first_in(records, group, change));
    }
    first
}

/// The number of the first record of a group that a change hits.
fn first_in(records: &[Record], group: &Group, change: &Change) -> Option<u32>
    requires { IsFiled records.now (length records.now) group.now }
    ensures { Finds (is_hit_number records.now change.now) (Contains group.now.numbers.items) result }
{
    if !group.may_be_hit(change) {
        return None;
    }
    for number in group.numbers.as_slice() {
        if is_hit(records, *number, change) {
            return Some(*number);
        }
    }
    None
}
