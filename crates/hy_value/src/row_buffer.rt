//! A row in a buffer, whose room contracts see.

ghost use Rattle.std.specs.Prelude.{◌≡◌, ◌+◌, ◌<◌, ◌≤◌, ◌⊎◌, [], ◌∷◌, ◌++◌, length, slice_index_or, IfOk, OnOk, OnErr};
ghost use Rattle.hy_value.specs.Refs.{referred};
ghost use Rattle.hy_value.specs.Order.{row_cmp};
ghost use Rattle.hy_value.specs.Cells.{text_count, texts_in};
ghost use Rattle.hy_value.specs.declared.Value.{Value};

use crate::cells::Cell;
use crate::{Row, Seq, Text, Value, ValueRef, compare_refs};
use smallvec::SmallVec;
use std::alloc::{AllocError, Global};
use std::cmp::Ordering;
use std::marker::Model;

/// The values of a row in small cells, with the texts beside them. Up to four values take no block while none is a text.
#[derive(Drop)]
pub struct RowBuffer {
    cells: SmallVec<Cell, 4>,
    texts: Vec<Text>,
}

impl Model for RowBuffer {
    ghost use Rattle.std.specs.Prelude.{vec_len, vec_capacity};
    ghost use Rattle.hy_value.specs.Roomy.{Roomy, roomy_code};

    ghost Value = { Roomy };

    ghost coded = { roomy_code };

    ghost use Rattle.hy_value.specs.Cells.{values_of, Within};

    ghost view = { λ a. record {
      values = values_of a.texts.items a.cells.items;
      room = a.cells.capacity;
      texts = vec_capacity a.texts;
      used = vec_len a.texts;
    } };

    ghost invariant = { λ a. Within a.texts.items a.cells.items };
}

impl RowBuffer {
    /// No values, and room for four that are no texts. It takes no memory.
    pub fn new(alloc: Global) -> RowBuffer
        ensures values { result.values ≡ [] }
        ensures room { result.room ≡ 4 }
        ensures texts { result.used ≡ 0 }
    {
        RowBuffer {
            cells: SmallVec::new(alloc),
            texts: Vec::new(alloc),
        }
    }

    /// How many values there are.
    pub fn len(&self) -> usize
        ensures { result ≡ length self.now.values }
    {
        self.cells.len()
    }

    /// The value of a column where it stands.
    pub fn refer(&self, column: usize) -> ValueRef<'_>
        requires { column < length self.now.values }
        ensures { (d : Value) → referred result ≡ slice_index_or self.now.values column d }
    {
        match self.cells.as_slice()[column] {
            Cell::Null => ValueRef::Null,
            Cell::Int(number) => ValueRef::Int(number),
            Cell::Text(at) => ValueRef::Text(&self.texts[at]),
        }
    }

    /// Makes room for so many values in all, of which so many are texts, and drops the values that are there. No more is
    /// taken than that. Err is for want of memory.
    pub fn make_room(&mut self, values: usize, texts: usize) -> Result<(), AllocError>
        ensures none { self.new.values ≡ [] }
        ensures unused { self.new.used ≡ 0 }
        ensures ok { OnOk result ((values ≤ self.new.room) × (texts ≤ self.new.texts)) }
        ensures kept { (self.old.room ≤ self.new.room) × (self.old.texts ≤ self.new.texts) }
    {
        self.clear();
        self.cells.reserve_exact(values)?;
        self.texts.reserve_exact(texts)
    }

    /// Drops the values. The room stays.
    pub fn clear(&mut self)
        ensures { self.new ≡ record self.old { values = []; used = 0 } }
    {
        self.cells.clear();
        self.texts.clear();
    }

    /// Adds NULL, where there is room for it. It takes no memory.
    pub fn push_null_reserved(&mut self)
        requires room { length self.old.values < self.old.room }
        ensures { self.new ≡ record self.old { values = self.old.values ++ Value.Null ∷ [] } }
    {
        self.cells.push_reserved(Cell::Null);
    }

    /// Adds a number, where there is room for it. It takes no memory.
    pub fn push_number_reserved(&mut self, number: i64)
        requires room { length self.old.values < self.old.room }
        ensures { self.new ≡ record self.old { values = self.old.values ++ Value.Int number ∷ [] } }
    {
        self.cells.push_reserved(Cell::Int(number));
    }

    /// Adds a text, where there is room for it. It takes no memory.
    pub fn push_text_reserved(&mut self, text: Text)
        requires room { length self.old.values < self.old.room }
        requires texts { self.old.used < self.old.texts }
        ensures { self.new ≡ record self.old { values = self.old.values ++ Value.Text text ∷ []; used = self.old.used + 1 } }
    {
        self.cells.push_reserved(Cell::Text(self.texts.len()));
        self.texts.push_reserved(text);
    }

    /// Adds a value that stands elsewhere, where there is room for it. It takes no memory.
    pub fn push_reserved(&mut self, value: ValueRef<'_>)
        requires room { length self.old.values < self.old.room }
        requires texts { self.old.used + text_count (referred value) ≤ self.old.texts }
        ensures { self.new ≡ record self.old { values = self.old.values ++ referred value.entry ∷ []; used = self.old.used + text_count (referred value.entry) } }
    {
        match value {
            ValueRef::Null => self.push_null_reserved(),
            ValueRef::Int(number) => self.push_number_reserved(number),
            ValueRef::Text(text) => self.push_text_reserved(text.copy()),
        }
    }

    /// Copies values to where there is room for them, in place of those there. It takes no memory, and no text is left over.
    pub fn fill_reserved(&mut self, values: &[Value])
        requires room { length values.now ≤ self.old.room }
        requires texts { texts_in values.now ≤ self.old.texts }
        ensures { self.new ≡ record self.old { values = values.now; used = texts_in values.now } }
    {
        self.clear();
        for value in values {
            self.push_reserved(value.refer());
        }
    }

    /// Copies the values into another buffer that has room for them, in place of those there. It takes no memory, and no
    /// text is left over there.
    pub fn copy_into(&self, other: &mut RowBuffer)
        requires room { length self.now.values ≤ other.old.room }
        requires texts { texts_in self.now.values ≤ other.old.texts }
        ensures { other.new ≡ record other.old { values = self.now.values; used = texts_in self.now.values } }
    {
        other.clear();
        for column in 0..self.len() {
            other.push_reserved(self.refer(column));
        }
    }

    /// How many texts the values have.
    pub fn texts(&self) -> usize
        ensures { result ≡ texts_in self.now.values }
    {
        let mut count = 0;
        for column in 0..self.len() {
            count += count_text(self.refer(column));
        }
        count
    }

    /// A copy, which has no more room than that. Err is for want of memory.
    pub fn copy(&self, alloc: Global) -> Result<RowBuffer, AllocError>
        ensures { IfOk result (λ copy. copy.values ≡ self.now.values) }
    {
        let mut copy = RowBuffer::new(alloc);
        copy.make_room(self.len(), self.texts())?;
        self.copy_into(&mut copy);
        Ok(copy)
    }

    /// The buffer of these values, which has no more room than that. Err is for want of memory.
    pub fn from_values(alloc: Global, values: &[Value]) -> Result<RowBuffer, AllocError>
        ensures { IfOk result (λ buffer. buffer.values ≡ values.now) }
    {
        let mut buffer = RowBuffer::new(alloc);
        buffer.make_room(values.len(), count_texts(values))?;
        buffer.fill_reserved(values);
        Ok(buffer)
    }

    /// The same values, as a row to work on. Err is for want of memory.
    pub fn to_row(&self) -> Result<Row, AllocError>
        ensures { IfOk result (λ row. row ≡ self.now.values) }
    {
        let mut values = Vec::with_capacity(*self.texts.allocator(), self.len())?;
        for column in 0..self.len() {
            values.push(self.refer(column).to_value())?;
        }
        Ok(Seq::from_vec(values))
    }

    /// How the values stand to others: by the first column in which they differ.
    pub fn compare(&self, other: &RowBuffer) -> Ordering
        ensures { result ≡ row_cmp self.now.values other.now.values }
    {
        for column in 0..self.len() {
            if column >= other.len() {
                return Ordering::Greater;
            }
            let order = compare_refs(self.refer(column), other.refer(column));
            if order.is_ne() {
                return order;
            }
        }
        if self.len() < other.len() {
            Ordering::Less
        } else {
            Ordering::Equal
        }
    }
}

/// How many texts a value has.
fn count_text(value: ValueRef<'_>) -> usize
    ensures { result ≡ text_count (referred value.entry) }
{
    match value {
        ValueRef::Null => 0,
        ValueRef::Int(_) => 0,
        ValueRef::Text(_) => 1,
    }
}

/// How many texts values have.
fn count_texts(values: &[Value]) -> usize
    ensures { result ≡ texts_in values.now }
{
    let mut count = 0;
    for value in values {
        count += count_text(value.refer());
    }
    count
}
