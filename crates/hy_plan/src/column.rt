//! The values of a column.

ghost use Rattle.std.specs.Prelude.{◌≡◌, ℕ, pos, ◌<◌, ◌≤◌, ◌++◌, [], ◌∷◌, All, IfOk, IfSome, OnOk, OnErr, false, length, map, slice_index_or, take};
ghost use Rattle.hy_bound.specs.Predicate.{column_of};
ghost use Rattle.hy_value.specs.Refs.{referred};
ghost use Rattle.hy_plan.specs.Numbers.{numbered};
ghost use Rattle.hy_plan.specs.Placed.{values_picked};

use crate::gathered::{PlacedRows, Places};
use hy_value::{Value, ValueRef};
use std::alloc::{AllocError, Global};
use std::marker::Model;

/// The values of a column, in the order of its rows. Numbers and NULLs take eight bytes, and up to the last NULL one more
/// for which of them it is; from the first text on values are kept as they are.
#[derive(Drop)]
pub struct Column {
    numbers: Vec<i64>,
    /// Which of the numbers stand for NULL: none of those behind the last one that is told of.
    nulls: Vec<bool>,
    others: Vec<Value>,
}

impl Model for Column {
    ghost use Rattle.std.specs.Prelude.{◌≤◌, ◌++◌, length};
    ghost use Rattle.hy_value.specs.Values.{Values};
    ghost use Rattle.hy_plan.specs.Numbers.{numbered};

    ghost Value = { Values };

    ghost view = { λ a. numbered a.numbers.items a.nulls.items ++ a.others.items };

    ghost invariant = { λ a. length a.nulls.items ≤ length a.numbers.items };
}

/// Whether a number stands for NULL.
fn is_marked(nulls: &[bool], index: usize) -> bool
    ensures { result ≡ slice_index_or nulls.now index false }
{
    index < nulls.len() && nulls[index]
}

impl Column {
    /// No values. It takes no memory.
    pub fn new(alloc: Global) -> Column
        ensures { result ≡ [] }
    {
        Column {
            numbers: Vec::new(alloc),
            nulls: Vec::new(alloc),
            others: Vec::new(alloc),
        }
    }

    /// The value of a row, where it stands.
    pub fn refer(&self, index: usize) -> ValueRef<'_>
        requires { index < length self.now }
        ensures { referred result ≡ column_of self.now index }
    {
        if index >= self.numbers.len() {
            self.others[index - self.numbers.len()].refer()
        } else if is_marked(self.nulls.as_slice(), index) {
            ValueRef::Null
        } else {
            ValueRef::Int(self.numbers[index])
        }
    }

    /// The numbers of the first rows, if it is known that each of them is one.
    pub fn numbers(&self, len: usize) -> Option<&[i64]>
        ensures { IfSome result (λ numbers. map Value.Int numbers.now ≡ take len self.now) }
    {
        let numbers = self.numbers.as_slice();
        if self.nulls.is_empty() && len <= numbers.len() {
            Some(&numbers[..len])
        } else {
            None
        }
    }

    /// Puts a value behind the first ones. Without memory only these stay.
    pub fn put(&mut self, len: usize, value: ValueRef) -> Result<(), AllocError>
        ensures ok { OnOk result (self.new ≡ take len self.old ++ referred value.entry ∷ []) }
        ensures err { OnErr result (self.new ≡ take len self.old) }
    {
        self.truncate(len);
        self.push(value)
    }

    /// Puts the values in a column of the rows at some places behind the first ones: how many. Without memory only these stay
    /// for certain.
    pub fn put_placed<S: PlacedRows, P: Places>(
        &mut self,
        len: usize,
        source: &S,
        places: &P,
        column: u32,
    ) -> Result<usize, AllocError>
        requires reach { len ≤ length self.old }
        requires places { All (λ place. place < length (S.rows source.now)) (P.places places.now) }
        requires column { (place : ℕ) → place < length (S.rows source.now)
            → column < length (slice_index_or (S.rows source.now) place []) }
        ensures count { IfOk result (λ count. count ≡ length (P.places places.now)) }
        ensures ok { OnOk result (self.new ≡ take len self.old ++ values_picked (S.rows source.now) (P.places places.now) column) }
        ensures err { OnErr result (take len self.new ≡ take len self.old) }
    {
        self.truncate(len);
        if self.others.is_empty() {
            if let Some(known) = source.numbers(column as usize) {
                let found = places.pick(*self.numbers.allocator(), known)?;
                return push_all(&mut self.numbers, found);
            }
        }
        let listed = places.list(*self.numbers.allocator())?;
        self.put_listed(len, source, listed.as_slice(), column)?;
        Ok(listed.len())
    }

    /// Puts the values in a column of the rows at listed places behind the first ones. Without memory only these stay for
    /// certain.
    pub fn put_listed<S: PlacedRows>(
        &mut self,
        len: usize,
        source: &S,
        places: &[u32],
        column: u32,
    ) -> Result<(), AllocError>
        requires reach { len ≤ length self.old }
        requires places { All (λ place. place < length (S.rows source.now)) places.now }
        requires column { (place : ℕ) → place < length (S.rows source.now)
            → column < length (slice_index_or (S.rows source.now) place []) }
        ensures ok { OnOk result (self.new ≡ take len self.old ++ values_picked (S.rows source.now) places.now column) }
        ensures err { OnErr result (take len self.new ≡ take len self.old) }
    {
        self.truncate(len);
        let count = self.add_numbers(source, places, column)?;
        self.add_values(source, &places[count..], column)
    }

    /// Adds the values in a column of the rows at the first places, up to the first text, unless there are others: how many.
    /// Without memory nothing changes.
    fn add_numbers<S: PlacedRows>(
        &mut self,
        source: &S,
        places: &[u32],
        column: u32,
    ) -> Result<usize, AllocError>
        requires places { All (λ place. place < length (S.rows source.now)) places.now }
        requires column { (place : ℕ) → place < length (S.rows source.now)
            → column < length (slice_index_or (S.rows source.now) place []) }
        ensures few { IfOk result (λ count. count ≤ length places.now) }
        ensures ok { IfOk result (λ count. self.new ≡ self.old ++ values_picked (S.rows source.now) (take count places.now) column) }
        ensures err { OnErr result (self.new ≡ self.old) }
    {
        if !self.others.is_empty() {
            return Ok(0);
        }
        match source.numbers(column as usize) {
            Some(known) => {
                let found = picked(*self.numbers.allocator(), known, places)?;
                push_all(&mut self.numbers, found)
            }
            None => push_told(&mut self.numbers, &mut self.nulls, source, places, column),
        }
    }

    /// Adds the values in a column of the rows at some places. Without memory nothing changes.
    fn add_values<S: PlacedRows>(
        &mut self,
        source: &S,
        places: &[u32],
        column: u32,
    ) -> Result<(), AllocError>
        requires places { All (λ place. place < length (S.rows source.now)) places.now }
        requires column { (place : ℕ) → place < length (S.rows source.now)
            → column < length (slice_index_or (S.rows source.now) place []) }
        ensures ok { OnOk result (self.new ≡ self.old ++ values_picked (S.rows source.now) places.now column) }
        ensures err { OnErr result (self.new ≡ self.old) }
    {
        push_values(&mut self.others, source, places, column)
    }

    /// Keeps the first values.
    fn truncate(&mut self, len: usize)
        ensures { self.new ≡ take len self.old }
    {
        self.others.truncate(len.saturating_sub(self.numbers.len()));
        self.numbers.truncate(len);
        self.nulls.truncate(len);
    }

    /// Adds a value. Without memory nothing changes.
    fn push(&mut self, value: ValueRef) -> Result<(), AllocError>
        ensures ok { OnOk result (self.new ≡ self.old ++ referred value.entry ∷ []) }
        ensures err { OnErr result (self.new ≡ self.old) }
    {
        match value {
            ValueRef::Int(number) if self.others.is_empty() => {
                self.numbers.push(number)?;
                Ok(())
            }
            ValueRef::Null if self.others.is_empty() => {
                push_null(&mut self.numbers, &mut self.nulls)
            }
            _ => {
                self.others.push(value.to_value())?;
                Ok(())
            }
        }
    }
}

/// Tells of all numbers whether they stand for NULL: of each that was left out, that it doesn't. Without memory nothing
/// changes.
fn tell_all(numbers: &Vec<i64>, nulls: &mut Vec<bool>) -> Result<(), AllocError>
    requires { length nulls.old.items ≤ length numbers.now.items }
    ensures few { length nulls.new.items ≤ length numbers.now.items }
    ensures all { OnOk result (length nulls.new.items ≡ length numbers.now.items) }
    ensures same { numbered numbers.now.items nulls.new.items ≡ numbered numbers.now.items nulls.old.items }
{
    nulls.resize(numbers.len(), false)
}

/// Adds a number, and whether it stands for NULL. Without memory nothing changes.
fn push_number(
    numbers: &mut Vec<i64>,
    nulls: &mut Vec<bool>,
    number: i64,
    is_null: bool,
) -> Result<(), AllocError>
    ensures numbers { OnOk result (numbers.new.items ≡ numbers.old.items ++ number ∷ []) }
    ensures nulls { OnOk result (nulls.new.items ≡ nulls.old.items ++ is_null ∷ []) }
    ensures same_numbers { OnErr result (numbers.new.items ≡ numbers.old.items) }
    ensures same_nulls { OnErr result (nulls.new.items ≡ nulls.old.items) }
{
    nulls.reserve(1)?;
    numbers.push(number)?;
    nulls.push_reserved(is_null);
    Ok(())
}

/// Adds NULL. Without memory nothing changes.
fn push_null(numbers: &mut Vec<i64>, nulls: &mut Vec<bool>) -> Result<(), AllocError>
    requires few { length nulls.old.items ≤ length numbers.old.items }
    ensures few { length nulls.new.items ≤ length numbers.new.items }
    ensures ok { OnOk result (numbered numbers.new.items nulls.new.items ≡ numbered numbers.old.items nulls.old.items ++ Value.Null ∷ []) }
    ensures err { OnErr result (numbered numbers.new.items nulls.new.items ≡ numbered numbers.old.items nulls.old.items) }
{
    tell_all(numbers, nulls)?;
    push_number(numbers, nulls, 0, true)
}

/// The numbers at some places of others. Err is for want of memory.
fn picked(alloc: Global, known: &[i64], places: &[u32]) -> Result<Vec<i64>, AllocError>
    requires { All (λ place. place < length known.now) places.now }
    ensures { IfOk result (λ found. found.items ≡ map (λ place. slice_index_or known.now place (pos 0)) places.now) }
{
    let mut found = Vec::with_capacity(alloc, places.len())?;
    for place in places {
        found.push_reserved(known[*place as usize]);
    }
    Ok(found)
}

/// Adds numbers: how many. Without memory nothing changes.
fn push_all(numbers: &mut Vec<i64>, more: Vec<i64>) -> Result<usize, AllocError>
    ensures count { IfOk result (λ count. count ≡ length more.items) }
    ensures ok { OnOk result (numbers.new.items ≡ numbers.old.items ++ more.items) }
    ensures err { OnErr result (numbers.new.items ≡ numbers.old.items) }
{
    let count = more.len();
    if numbers.is_empty() {
        *numbers = more;
    } else {
        numbers.extend_from_slice(more.as_slice())?;
    }
    Ok(count)
}

/// Adds to numbers, and to which of them stand for NULL, the values in a column of the rows at the first places, up to the
/// first text: how many. Without memory nothing changes.
fn push_numbers<S: PlacedRows>(
    numbers: &mut Vec<i64>,
    nulls: &mut Vec<bool>,
    source: &S,
    places: &[u32],
    column: u32,
) -> Result<usize, AllocError>
    requires even { length nulls.old.items ≡ length numbers.old.items }
    requires places { All (λ place. place < length (S.rows source.now)) places.now }
    requires column { (place : ℕ) → place < length (S.rows source.now)
        → column < length (slice_index_or (S.rows source.now) place []) }
    ensures even { length nulls.new.items ≡ length numbers.new.items }
    ensures few { IfOk result (λ count. count ≤ length places.now) }
    ensures ok { IfOk result (λ count. numbered numbers.new.items nulls.new.items
        ≡ numbered numbers.old.items nulls.old.items ++ values_picked (S.rows source.now) (take count places.now) column) }
    ensures err { OnErr result (numbered numbers.new.items nulls.new.items ≡ numbered numbers.old.items nulls.old.items) }
{
    numbers.reserve(places.len())?;
    nulls.reserve(places.len())?;
    for (index, place) in places.iter().enumerate() {
        let (number, is_null) = match source.refer(*place as usize, column as usize) {
            ValueRef::Int(number) => (number, false),
            ValueRef::Null => (0, true),
            ValueRef::Text(_) => return Ok(index),
        };
        numbers.push_reserved(number);
        nulls.push_reserved(is_null);
    }
    Ok(places.len())
}

/// The same, where it may be told of fewer numbers whether they stand for NULL.
fn push_told<S: PlacedRows>(
    numbers: &mut Vec<i64>,
    nulls: &mut Vec<bool>,
    source: &S,
    places: &[u32],
    column: u32,
) -> Result<usize, AllocError>
    requires few { length nulls.old.items ≤ length numbers.old.items }
    requires places { All (λ place. place < length (S.rows source.now)) places.now }
    requires column { (place : ℕ) → place < length (S.rows source.now)
        → column < length (slice_index_or (S.rows source.now) place []) }
    ensures few { length nulls.new.items ≤ length numbers.new.items }
    ensures count { IfOk result (λ count. count ≤ length places.now) }
    ensures ok { IfOk result (λ count. numbered numbers.new.items nulls.new.items
        ≡ numbered numbers.old.items nulls.old.items ++ values_picked (S.rows source.now) (take count places.now) column) }
    ensures err { OnErr result (numbered numbers.new.items nulls.new.items ≡ numbered numbers.old.items nulls.old.items) }
{
    tell_all(numbers, nulls)?;
    push_numbers(numbers, nulls, source, places, column)
}

/// Adds the values in a column of the rows at some places. Without memory nothing changes.
fn push_values<S: PlacedRows>(
    values: &mut Vec<Value>,
    source: &S,
    places: &[u32],
    column: u32,
) -> Result<(), AllocError>
    requires places { All (λ place. place < length (S.rows source.now)) places.now }
    requires column { (place : ℕ) → place < length (S.rows source.now)
        → column < length (slice_index_or (S.rows source.now) place []) }
    ensures ok { OnOk result (values.new.items ≡ values.old.items ++ values_picked (S.rows source.now) places.now column) }
    ensures err { OnErr result (values.new.items ≡ values.old.items) }
{
    values.reserve(places.len())?;
    for place in places {
        values.push_reserved(source.refer(*place as usize, column as usize).to_value());
    }
    Ok(())
}
