//! The columns of a chunk, seen as its rows.

ghost use Rattle.std.specs.Prelude.{◌≡◌, ◌<◌, [], ℕ, List, IfOk, IfSome, length, map, replicate, slice_index_or, slice_set};
ghost use Rattle.hy_column.specs.Compared.{column_compared};
ghost use Rattle.hy_column.specs.Cells.{FitsKind, first_value, number_value, text_value, kind_texts, texts_of};
ghost use Rattle.hy_column.specs.Rows.{kinds_of};
ghost use Rattle.std.specs.Option.{option_copied};
ghost use Rattle.hy_value.specs.Refs.{referred};
ghost use Rattle.hy_value.specs.declared.Value.{Value};
ghost use Rattle.hy_value.specs.declared.Kind.{Kind};

use crate::numbers::IntColumn;
use crate::texts::TextColumn;
use hy_kernel::Mask;
use hy_value::{Cmp, Kind, Row, Text, Value, ValueRef};
use std::alloc::{AllocError, Global};
use std::marker::Model;

/// A column of one type.
#[derive(Drop)]
enum Column {
    Int(IntColumn),
    Text(TextColumn),
}

impl Column {
    ghost use Rattle.hy_column.specs.Columns.{cell, with_cell, places, kind_of, first_cells};

    /// So many first values of a type.
    fn new(alloc: Global, kind: Kind, rows: usize) -> Result<Column, AllocError>
        ensures { IfOk result (λ column. column ≡ first_cells kind rows) }
    {
        match kind {
            Kind::Int => Ok(Column::Int(IntColumn::new(alloc, rows)?)),
            Kind::Str => Ok(Column::Text(TextColumn::new(alloc, rows)?)),
        }
    }

    /// How many texts it holds at a place at most.
    fn texts(&self) -> usize
        ensures { result ≡ kind_texts (kind_of self.now) }
    {
        match self {
            Column::Int(_) => 0,
            Column::Text(_) => 1,
        }
    }

    /// The value at a place, where it stands.
    fn refer(&self, place: usize) -> ValueRef<'_>
        requires { place < places self.now }
        ensures { referred result ≡ cell self.now place }
    {
        match self {
            Column::Int(numbers) => number_at(numbers.get(place)),
            Column::Text(texts) => text_at(texts.look(place)),
        }
    }

    /// The value at a place. It takes no memory.
    fn value(&self, place: usize) -> Value
        requires { place < places self.now }
        ensures { result ≡ cell self.now place }
    {
        self.refer(place).to_value()
    }

    /// Puts a value of the column's type, or NULL, at a place, and gives the old one back. It takes no memory.
    fn replace(&mut self, place: usize, value: Value) -> Value
        requires within { place < places self.old }
        requires fits { FitsKind (kind_of self.old) value }
        ensures old { result ≡ cell self.old place }
        ensures new { self.new ≡ with_cell self.old place value }
    {
        match self {
            Column::Int(numbers) => match value {
                Value::Null => number_or_null(numbers.replace(place, None)),
                Value::Int(number) => number_or_null(numbers.replace(place, Some(number))),
                Value::Text(_) => unreachable!(),
            },
            Column::Text(texts) => match value {
                Value::Null => text_or_null(texts.replace(place, None)),
                Value::Int(_) => unreachable!(),
                Value::Text(text) => text_or_null(texts.replace(place, Some(text))),
            },
        }
    }

    /// Puts a value of the column's type, or NULL, at a place. It takes no memory.
    fn put(&mut self, place: usize, value: ValueRef<'_>)
        requires within { place < places self.old }
        requires fits { FitsKind (kind_of self.old) (referred value) }
        ensures { self.new ≡ with_cell self.old place (referred value.entry) }
    {
        match self {
            Column::Int(numbers) => match value {
                ValueRef::Null => numbers.put(place, None),
                ValueRef::Int(number) => numbers.put(place, Some(number)),
                ValueRef::Text(_) => unreachable!(),
            },
            Column::Text(texts) => match value {
                ValueRef::Null => texts.put(place, None),
                ValueRef::Int(_) => unreachable!(),
                ValueRef::Text(text) => texts.put(place, Some(text)),
            },
        }
    }
}

/// A number as a value, None as NULL.
fn number_or_null(number: Option<i64>) -> Value
    ensures { result ≡ number_value number }
{
    match number {
        None => Value::Null,
        Some(number) => Value::Int(number),
    }
}

/// A number as a value, None as NULL.
fn number_at(number: Option<i64>) -> ValueRef<'static>
    ensures { referred result ≡ number_value number }
{
    match number {
        None => ValueRef::Null,
        Some(number) => ValueRef::Int(number),
    }
}

/// A text as a value, None as NULL.
fn text_at(text: Option<&Text>) -> ValueRef<'_>
    ensures { referred result ≡ text_value (option_copied text.entry) }
{
    match text {
        None => ValueRef::Null,
        Some(text) => ValueRef::Text(text),
    }
}

/// A text as a value, None as NULL.
fn text_or_null(text: Option<Text>) -> Value
    ensures { result ≡ text_value text }
{
    match text {
        None => Value::Null,
        Some(text) => Value::Text(text),
    }
}

/// How many columns are of texts.
fn count_texts(columns: &[Column]) -> usize
    ensures { result ≡ texts_of (kinds_of columns.now) }
{
    let mut count = 0;
    for column in columns {
        count += column.texts();
    }
    count
}

/// The columns of a chunk. Contracts see the rows by place: how the values lie in columns is told here and
/// nowhere else.
#[derive(Drop)]
pub struct Columns {
    columns: Vec<Column>,
    rows: usize,
}

impl Model for Columns {
    ghost use Rattle.hy_column.specs.Rows.{ByPlace, by_place_code, rows_of, kinds_of, AreAsMany};

    ghost Value = { ByPlace };

    ghost coded = { by_place_code };

    ghost view = { λ a. record { kinds = kinds_of a.columns.items; rows = rows_of a.rows a.columns.items } };

    ghost invariant = { λ a. AreAsMany a.rows a.columns.items };
}

impl Columns {
    /// So many rows of first values: zeros and empty texts. Err is for want of memory.
    pub fn new(alloc: Global, kinds: &[Kind], rows: usize) -> Result<Columns, AllocError>
        ensures kinds { IfOk result (λ columns. columns.kinds ≡ kinds.now) }
        ensures rows { IfOk result (λ columns. columns.rows ≡ replicate rows (map first_value kinds.now)) }
    {
        let mut columns = Vec::with_capacity(alloc, kinds.len())?;
        for kind in kinds {
            columns.push(Column::new(alloc, *kind, rows)?)?;
        }
        Ok(Columns { columns, rows })
    }

    /// How many columns there are.
    pub fn width(&self) -> usize
        ensures { result ≡ length self.now.kinds }
    {
        self.columns.len()
    }

    /// How many columns are of texts.
    pub fn texts(&self) -> usize
        ensures { result ≡ texts_of self.now.kinds }
    {
        count_texts(self.columns.as_slice())
    }

    /// The value of a column at a place. It takes no memory.
    pub fn value(&self, place: usize, column: usize) -> Value
        requires within { place < length self.now.rows }
        requires column { column < length self.now.kinds }
        ensures { result ≡ slice_index_or (slice_index_or self.now.rows place []) column result }
    {
        self.columns[column].value(place)
    }

    /// The value of a column at a place, where it stands.
    pub fn refer(&self, place: usize, column: usize) -> ValueRef<'_>
        requires within { place < length self.now.rows }
        requires column { column < length self.now.kinds }
        ensures { referred result ≡ slice_index_or (slice_index_or self.now.rows place []) column (referred result) }
    {
        self.columns[column].refer(place)
    }

    /// The numbers of a column by place, where it is one of numbers and no NULL is among them.
    pub fn numbers(&self, column: usize) -> Option<&[i64]>
        requires { column < length self.now.kinds }
        ensures { IfSome result (λ numbers. map Value.Int numbers.now
            ≡ map (λ row. slice_index_or row column Value.Null) self.now.rows) }
    {
        match &self.columns[column] {
            Column::Int(numbers) => numbers.known(),
            Column::Text(_) => None,
        }
    }

    /// Makes a row of that width the one at a place. It takes no memory.
    pub fn read(&self, place: usize, row: &mut Row)
        requires within { place < length self.now.rows }
        requires width { length row.old ≡ length self.now.kinds }
        ensures { row.new ≡ slice_index_or self.now.rows place [] }
    {
        for column in 0..self.columns.len() {
            row.set(column, self.columns[column].refer(place));
        }
    }

    /// Puts a value of the column's type, or NULL, at a place, and gives the old one back. It takes no memory.
    pub fn replace(&mut self, place: usize, column: usize, value: Value) -> Value
        requires within { place < length self.old.rows }
        requires column { column < length self.old.kinds }
        requires fits { FitsKind (slice_index_or self.old.kinds column Kind.Int) value }
        ensures old { result ≡ slice_index_or (slice_index_or self.old.rows place []) column result }
        ensures kinds { self.new.kinds ≡ self.old.kinds }
        ensures rows { self.new.rows ≡ slice_set self.old.rows place (slice_set (slice_index_or self.old.rows place []) column value) }
    {
        let column = &mut self.columns[column];
        column.replace(place, value)
    }

    /// Puts a value of the column's type, or NULL, at a place: a number by one store. It takes no memory.
    pub fn put(&mut self, place: usize, column: usize, value: ValueRef<'_>)
        requires within { place < length self.old.rows }
        requires column { column < length self.old.kinds }
        requires fits { FitsKind (slice_index_or self.old.kinds column Kind.Int) (referred value) }
        ensures kinds { self.new.kinds ≡ self.old.kinds }
        ensures rows { self.new.rows
            ≡ slice_set self.old.rows place (slice_set (slice_index_or self.old.rows place []) column (referred value.entry)) }
    {
        let column = &mut self.columns[column];
        column.put(place, value);
    }

    /// Whether a comparison with a number is true of the value of a column at each place, where it is a column of
    /// numbers. Err is for want of memory.
    pub fn compare(
        &self,
        alloc: Global,
        column: usize,
        op: Cmp,
        right: i64,
    ) -> Result<Option<Mask>, AllocError>
        requires { column < length self.now.kinds }
        ensures { IfOk result (λ found. found ≡ column_compared op right column self.now.rows (slice_index_or self.now.kinds column Kind.Str)) }
    {
        match &self.columns[column] {
            Column::Int(numbers) => Ok(Some(numbers.compare(alloc, op, right)?)),
            Column::Text(_) => Ok(None),
        }
    }
}
