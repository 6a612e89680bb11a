//! Columns of gathered rows, looked at without rows of the table, and their sums.

ghost use Rattle.std.specs.Prelude.{◌≡◌, ◌*◌, ◌^◌, ◌<◌, ◌≤◌, [], IfOk, IfSome, Some, length, slice_index_or};
ghost use Rattle.std.specs.Int.RustNames.{unsigned_abs};
ghost use Rattle.std.proofs.Props.{props};
ghost use Rattle.hy_value.specs.Refs.{referred};
ghost use Rattle.hy_meaning.specs.Totals.{added_of};
ghost use Rattle.hy_gathered.specs.Columns.{columns_below, place_of};
ghost use Rattle.hy_gathered.specs.Numbers.{total};

use hy_bound::column_value;
use hy_plan::Gathered;
use hy_value::{ColMask, Seq, Value, ValueRef};
use std::alloc::{AllocError, Global};

/// A column of a table, of whose rows the values in a set of columns are gathered.
#[derive(Clone, Copy)]
pub struct PartColumn {
    /// The columns that are gathered.
    pub columns: ColMask,
    /// How many columns the table has.
    pub width: u32,
    /// The column's number.
    pub column: u32,
    /// Where its values stand among those gathered, if it is one of the columns.
    pub place: Option<usize>,
    ghost placed: { place ≡ place_of columns width column } by { Prim.hlevel props },
}

/// How many of the first columns a set has.
pub fn count_columns(columns: ColMask, width: u32) -> usize
    ensures { result ≡ columns_below columns width }
{
    let mut count = 0;
    for column in 0..width {
        if columns.has(column) {
            count += 1;
        }
    }
    count
}

/// Where the values of a column stand among those of the columns of a set, if it is one of them.
fn place(columns: ColMask, width: u32, column: u32) -> Option<usize>
    ensures { result ≡ place_of columns width column }
{
    if column < width && columns.has(column) {
        Some(count_columns(columns, column))
    } else {
        None
    }
}

/// What a value adds to a sum.
fn added(value: ValueRef) -> i128
    ensures value { result ≡ added_of (referred value.entry) }
    ensures small { unsigned_abs result ≤ 2 ^ 63 }
{
    match value {
        ValueRef::Int(number) => i128::from(number),
        ValueRef::Null | ValueRef::Text(_) => 0,
    }
}

/// How many numbers are summed by their halves at most: so many lower halves have a sum below 2^64.
const MOST_HALVED: usize = 1 << 32;

/// The sum of numbers, each moved up by 2^63 so that none is negative, by their halves of 32 bits: two sums of 64 bits, which
/// need no carry from one to the other at each number.
fn sum_halves(numbers: &[i64]) -> i128
    requires { length numbers.now ≤ 2 ^ 32 }
    ensures value { result ≡ total numbers.now }
    ensures small { unsigned_abs result ≤ 2 ^ 63 * length numbers.now }
{
    let mut low = 0u64;
    let mut high = 0u64;
    for number in numbers {
        let moved = number.cast_unsigned().wrapping_add(1 << 63);
        low += moved % (1 << 32);
        high += moved / (1 << 32);
    }
    i128::from(high) * (1 << 32) + i128::from(low) - i128::from(numbers.len() as u64) * (1 << 63)
}

impl PartColumn {
    ghost use Rattle.hy_gathered.specs.Sums.{sum_by, value_in};

    /// A column of a table of so many columns.
    pub fn new(columns: ColMask, width: u32, column: u32) -> PartColumn
        ensures columns { result.columns ≡ columns }
        ensures width { result.width ≡ width }
        ensures column { result.column ≡ column }
    {
        let place = place(columns, width, column);
        PartColumn {
            columns,
            width,
            column,
            place,
        }
    }

    /// The value in a row, if it stands among those gathered or is NULL; None where the row has to be put together.
    fn refer(self, piece: &Gathered, index: usize) -> Option<ValueRef<'_>>
        requires { index < length piece.now.rows }
        ensures { IfSome result (λ value. referred value ≡ value_in self (slice_index_or piece.now.rows index [])) }
    {
        match self.place {
            None => Some(ValueRef::Null),
            Some(place) if place < piece.width() => Some(piece.refer(index, place)),
            Some(_) => None,
        }
    }

    /// The value in a row that is put together as a row of its table. Err is for want of memory.
    fn value_of_row(
        self,
        alloc: Global,
        piece: &Gathered,
        index: usize,
    ) -> Result<Value, AllocError>
        requires { index < length piece.now.rows }
        ensures { IfOk result (λ value. value ≡ value_in self (slice_index_or piece.now.rows index [])) }
    {
        let mut row = Seq::new(alloc);
        piece.push_spread(index, self.columns, self.width, &mut row)?;
        Ok(column_value(&row, self.column))
    }

    /// The value in a row. Err is for want of memory.
    pub fn value(self, alloc: Global, piece: &Gathered, index: usize) -> Result<Value, AllocError>
        requires { index < length piece.now.rows }
        ensures { IfOk result (λ value. value ≡ value_in self (slice_index_or piece.now.rows index [])) }
    {
        match self.refer(piece, index) {
            Some(value) => Ok(value.to_value()),
            None => self.value_of_row(alloc, piece, index),
        }
    }

    /// What the value in a row adds to a sum. Err is for want of memory.
    pub(crate) fn added(
        self,
        alloc: Global,
        piece: &Gathered,
        index: usize,
    ) -> Result<i128, AllocError>
        requires { index < length piece.now.rows }
        ensures value { IfOk result (λ sum. sum ≡ added_of (value_in self (slice_index_or piece.now.rows index []))) }
        ensures small { IfOk result (λ sum. unsigned_abs sum ≤ 2 ^ 63) }
    {
        match self.refer(piece, index) {
            Some(value) => Ok(added(value)),
            None => {
                let value = self.value_of_row(alloc, piece, index)?;
                Ok(added(value.refer()))
            }
        }
    }

    /// The sum over the rows of a piece in which its values stand at this place: at once where all are numbers.
    fn sum_at(self, piece: &Gathered, place: usize) -> i128
        requires place { self.place ≡ Some place }
        requires within { place < piece.now.width }
        ensures value { result ≡ sum_by self piece.now.rows }
        ensures small { unsigned_abs result ≤ 2 ^ 63 * length piece.now.rows }
    {
        match piece.numbers(place) {
            Some(numbers) if numbers.len() <= MOST_HALVED => sum_halves(numbers),
            _ => self.sum_each(piece, place),
        }
    }

    /// The same, value by value.
    #[tactic(auto, using(crate::proofs::Placed::stands_at))]
    fn sum_each(self, piece: &Gathered, place: usize) -> i128
        requires place { self.place ≡ Some place }
        requires within { place < piece.now.width }
        ensures value { result ≡ sum_by self piece.now.rows }
        ensures small { unsigned_abs result ≤ 2 ^ 63 * length piece.now.rows }
    {
        let mut sum = 0i128;
        for index in 0..piece.len() {
            sum += added(piece.refer(index, place));
        }
        sum
    }

    /// The sum over the rows of a piece, row by row. Err is for want of memory.
    fn sum_of_rows(self, alloc: Global, piece: &Gathered) -> Result<i128, AllocError>
        ensures value { IfOk result (λ sum. sum ≡ sum_by self piece.now.rows) }
        ensures small { IfOk result (λ sum. unsigned_abs sum ≤ 2 ^ 63 * length piece.now.rows) }
    {
        let mut sum = 0i128;
        for index in 0..piece.len() {
            sum += self.added(alloc, piece, index)?;
        }
        Ok(sum)
    }

    /// The sum over the rows of a piece: there are fewer than 2^64 of them, and each adds at most 2^63, so it stays within
    /// 128 bits. Err is for want of memory.
    pub fn sum(self, alloc: Global, piece: &Gathered) -> Result<i128, AllocError>
        ensures value { IfOk result (λ sum. sum ≡ sum_by self piece.now.rows) }
        ensures small { IfOk result (λ sum. unsigned_abs sum ≤ 2 ^ 63 * length piece.now.rows) }
    {
        match self.place {
            Some(place) if place < piece.width() => Ok(self.sum_at(piece, place)),
            _ => self.sum_of_rows(alloc, piece),
        }
    }
}
