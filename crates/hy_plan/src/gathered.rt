//! Rows gathered of a table, kept by column.

ghost use Rattle.std.specs.Prelude.{◌≡◌, ℕ, pos, ◌<◌, ◌++◌, [], ◌∷◌, All, IfOk, IfSome, OnOk, OnErr, length, map, slice_index_or, take};
ghost use Rattle.hy_value.specs.Columns.{has_column};
ghost use Rattle.hy_value.specs.Refs.{referred};
ghost use Rattle.hy_plan.specs.Placed.{row_picked, values_picked};
ghost use Rattle.hy_bound.specs.Predicate.{column_of};
ghost use Rattle.hy_bound.specs.Projection.{projected, spread};
ghost use Rattle.hy_plan.specs.Cells.{ReachTo, with_values, cells_of, firsts};

use crate::column::Column;
use hy_value::{ColMask, Row, Value, ValueRef};
use std::alloc::{AllocError, Global};
use std::marker::Model;

/// Rows by place, whose values are looked at one by one.
pub trait PlacedRows {
    ghost use Rattle.std.specs.Prelude.{List};
    ghost use Rattle.hy_value.specs.declared.Value.{Value};

    ghost rows: { Self → List (List Value) };

    /// The value in a column of the row at a place, where it stands.
    fn refer(&self, place: usize, column: usize) -> ValueRef<'_>
        requires place { place < length (rows self.now) }
        requires column { column < length (slice_index_or (rows self.now) place []) }
        ensures { referred result ≡ column_of (slice_index_or (rows self.now) place []) column };

    /// The numbers in a column by place, if it is known that each row has a number there.
    fn numbers(&self, column: usize) -> Option<&[i64]>
        ensures { IfSome result (λ numbers. map Value.Int numbers.now ≡ map (λ row. column_of row column) (rows self.now)) };
}

/// Places of which a list may be made, or at which numbers may be picked without one. Contracts see them as a list.
pub trait Places {
    ghost use Rattle.std.specs.Prelude.{List, ℕ};

    ghost places: { Self → List ℕ };

    /// The list of them. Err is for want of memory.
    fn list(&self, alloc: Global) -> Result<Vec<u32>, AllocError>
        ensures { IfOk result (λ listed. listed.items ≡ places self.now) };

    /// The numbers there, place by place. Err is for want of memory.
    fn pick(&self, alloc: Global, numbers: &[i64]) -> Result<Vec<i64>, AllocError>
        requires { All (λ place. place < length numbers.now) (places self.now) }
        ensures { IfOk result (λ picked. picked.items ≡ map (λ place. slice_index_or numbers.now place (pos 0)) (places self.now)) };
}

/// Rows of so many values each, kept by column. Contracts see them as the list of the rows.
#[derive(Drop)]
pub struct Gathered {
    len: usize,
    columns: Vec<Column>,
}

impl Model for Gathered {
    ghost use Rattle.std.specs.Prelude.{length};
    ghost use Rattle.hy_plan.specs.Cells.{GatheredRows, gathered_code, rows_of, ReachTo};

    ghost Value = { GatheredRows };

    ghost coded = { gathered_code };

    ghost view = { λ a. record { width = length a.columns.items; rows = rows_of a.len a.columns.items } };

    ghost invariant = { λ a. ReachTo a.len a.columns.items };
}

impl Gathered {
    /// No rows, of so many values each.
    pub fn new(alloc: Global, width: usize) -> Result<Gathered, AllocError>
        ensures { IfOk result (λ gathered. gathered ≡ record { width = width; rows = [] }) }
    {
        let mut columns = Vec::with_capacity(alloc, width)?;
        for _column in 0..width {
            columns.push(Column::new(alloc))?;
        }
        Ok(Gathered { len: 0, columns })
    }

    /// How many rows there are.
    pub fn len(&self) -> usize
        ensures { result ≡ length self.now.rows }
    {
        self.len
    }

    /// How many values each row has.
    pub fn width(&self) -> usize
        ensures { result ≡ self.now.width }
    {
        self.columns.len()
    }

    /// Adds a row. Without memory nothing changes.
    pub fn push(&mut self, row: &[Value]) -> Result<(), AllocError>
        requires { length row.now ≡ self.old.width }
        ensures ok { OnOk result (self.new ≡ record { width = self.old.width; rows = self.old.rows ++ row.now ∷ [] }) }
        ensures err { OnErr result (self.new ≡ self.old) }
    {
        let len = self.len.checked_add(1).ok_or(AllocError)?;
        put_row(&mut self.columns, self.len, row)?;
        self.len = len;
        Ok(())
    }

    /// Adds of a row the values in a set of columns. Without memory nothing changes.
    pub fn push_projected(&mut self, columns: ColMask, row: &[Value]) -> Result<(), AllocError>
        requires { length (projected columns row.now) ≡ self.old.width }
        ensures ok { OnOk result (self.new ≡ record { width = self.old.width; rows = self.old.rows ++ projected columns row.now ∷ [] }) }
        ensures err { OnErr result (self.new ≡ self.old) }
    {
        let len = self.len.checked_add(1).ok_or(AllocError)?;
        put_projected(&mut self.columns, self.len, columns, row)?;
        self.len = len;
        Ok(())
    }

    /// A row's value in a column, where it stands.
    pub fn refer(&self, index: usize, column: usize) -> ValueRef<'_>
        requires index { index < length self.now.rows }
        requires column { column < self.now.width }
        ensures { referred result ≡ column_of (slice_index_or self.now.rows index []) column }
    {
        self.columns[column].refer(index)
    }

    /// The numbers in a column, row by row, if it is known that each row has a number there.
    pub fn numbers(&self, column: usize) -> Option<&[i64]>
        requires { column < self.now.width }
        ensures { IfSome result (λ numbers. map Value.Int numbers.now ≡ map (λ row. column_of row column) self.now.rows) }
    {
        self.columns[column].numbers(self.len)
    }

    /// Keeps the first rows.
    #[tactic(auto, using(crate::proofs::Firsts::reach_less))]
    pub fn truncate(&mut self, len: usize)
        ensures { self.new ≡ record { width = self.old.width; rows = take len self.old.rows } }
    {
        if len < self.len {
            self.len = len;
        }
    }

    /// Adds the rows at some places of others: of each the values in some columns, in this order. Without memory nothing
    /// changes.
    pub fn add_placed<S: PlacedRows, P: Places>(
        &mut self,
        source: &S,
        places: &P,
        columns: &[u32],
    ) -> Result<(), AllocError>
        requires places { All (λ place. place < length (S.rows source.now)) (P.places places.now) }
        requires columns { (place : ℕ) → place < length (S.rows source.now)
            → All (λ column. column < length (slice_index_or (S.rows source.now) place [])) columns.now }
        requires width { length columns.now ≡ self.old.width }
        ensures ok { OnOk result (self.new ≡ record {
          width = self.old.width;
          rows = self.old.rows ++ map (row_picked (S.rows source.now) columns.now) (P.places places.now);
        }) }
        ensures err { OnErr result (self.new ≡ self.old) }
    {
        let count = put_placed(&mut self.columns, self.len, source, places, columns)?;
        self.len = self.len.checked_add(count).ok_or(AllocError)?;
        Ok(())
    }

    /// Puts a row behind other values, as a row of so many columns: those of a set have its values in their
    /// order, the others are NULL.
    pub fn push_spread(
        &self,
        index: usize,
        columns: ColMask,
        width: u32,
        joined: &mut Row,
    ) -> Result<(), AllocError>
        requires { index < length self.now.rows }
        ensures { OnOk result (joined.new ≡ joined.old ++ spread columns width (slice_index_or self.now.rows index [])) }
    {
        let mut used = 0;
        for column in 0..width {
            if used < self.columns.len() && columns.has(column) {
                joined.push(self.columns[used].refer(index).to_value())?;
                used += 1;
            } else {
                joined.push(Value::Null)?;
            }
        }
        Ok(())
    }
}

/// Puts a row's values behind the first ones of each column. Without memory only these stay for certain.
fn put_row(columns: &mut Vec<Column>, len: usize, row: &[Value]) -> Result<(), AllocError>
    requires width { length row.now ≡ length columns.old.items }
    requires reach { ReachTo len columns.old.items }
    ensures ok { OnOk result (columns.new.items ≡ with_values len (cells_of row.now) columns.old.items) }
    ensures err { OnErr result (firsts len columns.new.items ≡ firsts len columns.old.items) }
{
    for (index, value) in row.iter().enumerate() {
        columns[index].put(len, value.refer())?;
    }
    Ok(())
}

/// Puts the values of a row in a set of columns behind the first ones of each column. Without memory only these stay for
/// certain.
fn put_projected(
    columns: &mut Vec<Column>,
    len: usize,
    mask: ColMask,
    row: &[Value],
) -> Result<(), AllocError>
    requires width { length (projected mask row.now) ≡ length columns.old.items }
    requires reach { ReachTo len columns.old.items }
    ensures ok { OnOk result (columns.new.items ≡ with_values len (cells_of (projected mask row.now)) columns.old.items) }
    ensures err { OnErr result (firsts len columns.new.items ≡ firsts len columns.old.items) }
{
    let mut used = 0;
    for (index, value) in row.iter().enumerate() {
        if is_of_set(mask, index) {
            columns[used].put(len, value.refer())?;
            used += 1;
        }
    }
    Ok(())
}

/// Whether a set has the column of this number.
fn is_of_set(columns: ColMask, column: usize) -> bool
    ensures { result ≡ has_column columns column }
{
    column < 32 && columns.has(column as u32)
}

/// Puts the values in some columns of the rows at listed places behind the first ones of each column. Without memory only
/// these stay for certain.
fn put_listed<S: PlacedRows>(
    columns: &mut Vec<Column>,
    len: usize,
    source: &S,
    places: &[u32],
    wanted: &[u32],
) -> Result<(), AllocError>
    requires width { length wanted.now ≡ length columns.old.items }
    requires reach { ReachTo len columns.old.items }
    requires places { All (λ place. place < length (S.rows source.now)) places.now }
    requires columns { (place : ℕ) → place < length (S.rows source.now)
        → All (λ column. column < length (slice_index_or (S.rows source.now) place [])) wanted.now }
    ensures ok { OnOk result (columns.new.items
        ≡ with_values len (map (values_picked (S.rows source.now) places.now) wanted.now) columns.old.items) }
    ensures err { OnErr result (firsts len columns.new.items ≡ firsts len columns.old.items) }
{
    for (index, column) in wanted.iter().enumerate() {
        columns[index].put_listed(len, source, places, *column)?;
    }
    Ok(())
}

/// Puts the values in some columns of the rows at some places behind the first ones of each column: of how many rows. Without
/// memory only these stay for certain.
fn put_placed<S: PlacedRows, P: Places>(
    columns: &mut Vec<Column>,
    len: usize,
    source: &S,
    places: &P,
    wanted: &[u32],
) -> Result<usize, AllocError>
    requires width { length wanted.now ≡ length columns.old.items }
    requires reach { ReachTo len columns.old.items }
    requires places { All (λ place. place < length (S.rows source.now)) (P.places places.now) }
    requires columns { (place : ℕ) → place < length (S.rows source.now)
        → All (λ column. column < length (slice_index_or (S.rows source.now) place [])) wanted.now }
    ensures count { IfOk result (λ count. count ≡ length (P.places places.now)) }
    ensures ok { OnOk result (columns.new.items
        ≡ with_values len (map (values_picked (S.rows source.now) (P.places places.now)) wanted.now) columns.old.items) }
    ensures err { OnErr result (firsts len columns.new.items ≡ firsts len columns.old.items) }
{
    // Several columns share a list; for one alone none may be needed.
    if wanted.len() == 1 {
        return columns[0].put_placed(len, source, places, wanted[0]);
    }
    let listed = places.list(*columns.allocator())?;
    put_listed(columns, len, source, listed.as_slice(), wanted)?;
    Ok(listed.len())
}
