//! The records whose first condition seeks a value in a column, by that value.

ghost use Rattle.std.specs.Prelude.{◌≡◌, ◌<◌, ◌++◌, [], ◌∷◌, IfSome, IfNone, OnOk, All, true, false, ℕ, ◌≤◌, length};
ghost use Rattle.std.specs.Option.{option_copied};
ghost use Rattle.std.specs.List.Sorted.{IsPartitionPoint, IsPermutation, IsSorted};
ghost use Rattle.hy_bound.specs.Predicate.{truth_at};
ghost use Rattle.hy_bound.specs.PredView.{viewed_side};
ghost use Rattle.hy_bound.specs.declared.predicate.Side.TheVariants.{Literal};
ghost use Rattle.hy_value.specs.Columns.{has_column};
ghost use Rattle.hy_value.specs.Refs.{referred};
ghost use Rattle.hy_validate.specs.FirstConditions.{first_condition_of};
ghost use Rattle.hy_validate.specs.Keys.{IsKeyOf, keyed, key_cmp, keyed_cmp, is_below, HasTied, HasValue, HasTrue, HasNumber, AreKeyed, IsMasked};
ghost use Rattle.hy_validate.specs.TreeHits.{is_hit_number, Finds};

use crate::conditions::first_condition;
use crate::hits::{earlier, is_hit};
use hy_bound::{Record, Root, SideView};
use hy_value::{Change, Cmp, ColMask, StoredRow, ValueRef, compare_refs};
use std::alloc::{AllocError, Global};
use std::cmp::Ordering;

/// What a condition seeks: a value in a column of a table.
#[derive(Clone, Copy)]
pub(crate) struct Key<'a> {
    /// The table.
    table: u32,
    /// The column.
    column: u32,
    /// The value.
    value: ValueRef<'a>,
}

/// The number of a record, and what its first condition seeks.
#[derive(Clone, Copy)]
pub(crate) struct Keyed<'a> {
    /// What is sought.
    key: Key<'a>,
    /// The number.
    number: u32,
}

/// Records whose first condition is that a column is equal to a value. Once they are sorted, a change finds those that
/// seek a value of its row by a binary search.
#[derive(Drop)]
pub(crate) struct KeyedRecords<'a> {
    /// The columns that they seek values in, of whatever table.
    columns: ColMask,
    /// The records, by what they seek and then by number.
    places: Vec<Keyed<'a>>,
}

/// What the first condition of a record's restriction seeks, if it is that a column is equal to a value.
pub(crate) fn sought_key(logged: &Record) -> Option<Key<'_>>
    ensures { IfSome result (λ key. IsKeyOf logged.now key) }
{
    match first_condition(&logged.pred).root() {
        Root::Compare {
            column,
            op: Cmp::Eq,
            side,
        } if column < 32 => Some(Key {
            table: logged.table,
            column,
            value: literal(side)?,
        }),
        _ => None,
    }
}

/// The value on the right side of a comparison, if there is one.
fn literal(side: SideView<'_>) -> Option<ValueRef<'_>>
    ensures { IfSome result (λ value. viewed_side side.entry ≡ Literal (referred value)) }
{
    match side {
        SideView::Column(_) => None,
        SideView::Null => Some(ValueRef::Null),
        SideView::Int(number) => Some(ValueRef::Int(number)),
        SideView::Text(text) => Some(ValueRef::Text(text)),
    }
}

/// How a key stands to another: by table, column and value.
fn compare_keys(left: &Key, right: &Key) -> Ordering
    ensures { result ≡ key_cmp left.now right.now }
{
    let places = left
        .table
        .cmp(&right.table)
        .then(left.column.cmp(&right.column));
    places.then(compare_refs(left.value, right.value))
}

/// How a record stands to another: by their keys, and then by their numbers.
fn compare_keyed(left: &Keyed, right: &Keyed) -> Ordering
    ensures { result ≡ keyed_cmp left.now right.now }
{
    compare_keys(&left.key, &right.key).then(left.number.cmp(&right.number))
}

impl<'a> KeyedRecords<'a> {
    /// No records. It takes no memory.
    pub(crate) fn new(alloc: Global) -> KeyedRecords<'a>
        ensures { result.places.items ≡ [] }
    {
        KeyedRecords {
            columns: ColMask::none(),
            places: Vec::new(alloc),
        }
    }

    /// Adds a record.
    pub(crate) fn add(&mut self, key: Key<'a>, number: u32) -> Result<(), AllocError>
        requires column { key.column < 32 }
        requires masked { IsMasked self.old }
        ensures masked { OnOk result (IsMasked self.new) }
        ensures added { OnOk result (self.new.places.items ≡ self.old.places.items ++ keyed key.entry number ∷ []) }
    {
        self.columns = self.columns.with(key.column);
        self.places.push(Keyed { key, number })?;
        Ok(())
    }

    /// Puts the records into the order of what they seek.
    pub(crate) fn sort(&mut self)
        ensures columns { self.new.columns ≡ self.old.columns }
        ensures permuted { IsPermutation self.old.places.items self.new.places.items }
        ensures sorted { IsSorted keyed_cmp self.new.places.items }
    {
        self.places.sort_unstable_by(compare_keyed);
    }

    /// The number of a column, if some record may seek a value in it.
    fn column_sought(&self, column: usize) -> Option<u32>
        ensures is { IfSome result (λ number. number ≡ column) }
        ensures none { IfNone result (has_column self.now.columns column ≡ false) }
    {
        if column < 32 && self.columns.has(column as u32) {
            Some(column as u32)
        } else {
            None
        }
    }

    /// The number of the first record that a change hits.
    pub(crate) fn first_hit(&self, records: &[Record], change: &Change) -> Option<u32>
        requires keyed { AreKeyed records.now self.now }
        requires sorted { IsSorted keyed_cmp self.now.places.items }
        ensures { Finds (is_hit_number records.now change.now) (HasNumber self.now.places.items) result }
    {
        if self.places.is_empty() {
            return None;
        }
        let before = first_in_row(records, self, change, change.before.as_ref());
        let after = first_in_row(records, self, change, change.after.as_ref());
        earlier(before, after)
    }
}

/// The number of the first record that a change hits, of those that seek a value that a row of its has.
fn first_in_row(
    records: &[Record],
    keyed: &KeyedRecords,
    change: &Change,
    row: Option<&StoredRow>,
) -> Option<u32>
    requires masked { IsMasked keyed.now }
    requires sorted { IsSorted keyed_cmp keyed.now.places.items }
    ensures { Finds (is_hit_number records.now change.now)
        (HasTrue change.now.table (option_copied row.entry) keyed.now.places.items) result }
{
    let values = row?;
    let mut first = None;
    for column in 0..values.len() {
        let value = values.refer(column);
        first = earlier(first, first_of_value(records, keyed, change, column, value));
    }
    first
}

/// The number of the first record that a change hits, of those that seek a value in a column.
fn first_of_value(
    records: &[Record],
    keyed: &KeyedRecords,
    change: &Change,
    column: usize,
    value: ValueRef<'_>,
) -> Option<u32>
    requires masked { IsMasked keyed.now }
    requires sorted { IsSorted keyed_cmp keyed.now.places.items }
    ensures { Finds (is_hit_number records.now change.now)
        (HasValue change.now.table column (referred value.entry) keyed.now.places.items) result }
{
    let key = Key {
        table: change.table,
        column: keyed.column_sought(column)?,
        value,
    };
    first_of_key(
        records,
        places_from(keyed.places.as_slice(), &key),
        &key,
        change,
    )
}

/// The records from the first one on that seeks this or more.
fn places_from<'a, 'b>(places: &'b [Keyed<'a>], key: &Key) -> &'b [Keyed<'a>]
    requires { IsSorted keyed_cmp places.now }
    ensures sorted { IsSorted keyed_cmp result.now }
    ensures none_below { All (λ place. is_below key.now place ≡ false) result.now }
    ensures kept { (number : ℕ) → HasTied key.now places.now number → HasTied key.now result.now number }
{
    let (_below, others) = places.split_at(count_below(places, key));
    others
}

/// How many records seek less.
fn count_below(places: &[Keyed], key: &Key) -> usize
    requires { IsSorted keyed_cmp places.now }
    ensures within { result ≤ length places.now }
    ensures point { IsPartitionPoint (λ place. is_below key.now place ≡ true) (λ place. is_below key.now place ≡ false) places.now result }
{
    places.partition_point(|place| compare_keys(&place.key, key).is_lt())
}

/// The number of the first record that a change hits, of those that seek this: they stand in front.
fn first_of_key(records: &[Record], places: &[Keyed], key: &Key, change: &Change) -> Option<u32>
    requires sorted { IsSorted keyed_cmp places.now }
    requires none_below { All (λ place. is_below key.now place ≡ false) places.now }
    ensures { Finds (is_hit_number records.now change.now) (HasTied key.now places.now) result }
{
    for place in places {
        if compare_keys(&place.key, key).is_ne() {
            return None;
        }
        if is_hit(records, place.number, change) {
            return Some(place.number);
        }
    }
    None
}
