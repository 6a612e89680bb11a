//! Rows that are kept without taking memory.

ghost use Rattle.std.specs.Prelude.{◌≡◌, ◌⊎◌, ◌+◌, ◌*◌, ◌<◌, ◌≤◌, length, min, max, vec_len, IfOk, OnOk, OnErr};
ghost use Rattle.std.specs.Option.{option_copied};
ghost use Rattle.hy_value.specs.Cells.{texts_in};
ghost use Rattle.hy_notes.specs.Spares.{IsSpare, AreSpare, takes_no_block, cell_width, cell_texts, cell_rows};

use hy_value::{Row, RowBuffer, StoredRow, Value};
use std::alloc::{AllocError, Global};
use std::marker::Model;

/// How many values a row has at most that takes no block while none of them is a text.
const FEW: usize = 4;

/// Buffers in which rows of up to so many values, of which so many are texts, are kept without taking memory. Rows of few
/// values that are no texts take no block: any number of them is kept, and there is no buffer.
#[derive(Drop)]
pub struct SpareRows {
    buffers: Vec<RowBuffer>,
    width: usize,
    texts: usize,
}

impl Model for SpareRows {
    ghost use Rattle.std.specs.Prelude.{vec_len};
    ghost use Rattle.hy_notes.specs.Spares.{Spare, spare_code, rows_of, AreSpare};

    ghost Value = { Spare };

    ghost coded = { spare_code };

    ghost view = { λ a. record { rows = rows_of a.width a.texts (vec_len a.buffers); width = a.width; texts = a.texts } };

    ghost invariant = { λ a. AreSpare a.width a.texts a.buffers.items };
}

/// Whether rows of so many values, of which so many are texts, take no block.
fn take_no_block(width: usize, texts: usize) -> bool
    ensures { result ≡ takes_no_block width texts }
{
    width <= FEW && texts == 0
}

/// A buffer with room for so many values, of which so many are texts. Err is for want of memory.
fn blank_row(alloc: Global, width: usize, texts: usize) -> Result<RowBuffer, AllocError>
    ensures { IfOk result (λ buffer. IsSpare width texts buffer) }
{
    let mut buffer = RowBuffer::new(alloc);
    buffer.make_room(width, texts)?;
    Ok(buffer)
}

/// So many buffers with room for so many values, of which so many are texts. Err is for want of memory.
fn blank_rows(
    alloc: Global,
    count: usize,
    width: usize,
    texts: usize,
) -> Result<Vec<RowBuffer>, AllocError>
    ensures spare { IfOk result (λ rows. AreSpare width texts rows.items) }
    ensures count { IfOk result (λ rows. vec_len rows ≡ count) }
{
    let mut rows = Vec::with_capacity(alloc, count)?;
    for _row in 0..count {
        rows.push(blank_row(alloc, width, texts)?)?;
    }
    Ok(rows)
}

/// Adds buffers until there are so many. Err is for want of memory.
fn add_rows(
    spare: &mut Vec<RowBuffer>,
    count: usize,
    width: usize,
    texts: usize,
) -> Result<(), AllocError>
    requires { AreSpare width texts spare.old.items }
    ensures spare { AreSpare width texts spare.new.items }
    ensures ok { OnOk result (count ≤ vec_len spare.new) }
    ensures kept { vec_len spare.old ≤ vec_len spare.new }
    ensures err { OnErr result (vec_len spare.old < count) }
{
    let alloc = *spare.allocator();
    for _row in spare.len()..count {
        spare.push(blank_row(alloc, width, texts)?)?;
    }
    Ok(())
}

/// A copy of values in a buffer that has room for them. It takes no memory.
fn copied(mut buffer: RowBuffer, values: &[Value]) -> StoredRow
    requires room { length values.now ≤ buffer.room }
    requires texts { texts_in values.now ≤ buffer.texts }
    ensures { result ≡ values.now }
{
    buffer.fill_reserved(values);
    StoredRow::from_buffer(buffer)
}

impl SpareRows {
    /// Rows of no values. It takes no memory.
    pub fn new(alloc: Global) -> SpareRows {
        SpareRows {
            buffers: Vec::new(alloc),
            width: 0,
            texts: 0,
        }
    }

    /// The allocator of what it allocates.
    pub fn allocator(&self) -> Global {
        *self.buffers.allocator()
    }

    /// How many rows can be kept.
    fn rows(&self) -> usize
        ensures { result ≡ self.now.rows }
    {
        if take_no_block(self.width, self.texts) {
            usize::MAX
        } else {
            self.buffers.len()
        }
    }

    /// Makes sure that so many rows of more values or texts can be kept. Err is for want of memory, and changes nothing.
    fn widen(&mut self, count: usize, width: usize, texts: usize) -> Result<(), AllocError>
        ensures ok { OnOk result (count ≤ self.new.rows) }
        ensures width { OnOk result (self.new.width ≡ width) }
        ensures texts { OnOk result (self.new.texts ≡ texts) }
        ensures err { OnErr result (self.new ≡ self.old) }
    {
        if take_no_block(width, texts) {
            self.buffers.clear();
        } else {
            self.buffers = blank_rows(self.allocator(), count, width, texts)?;
        }
        self.width = width;
        self.texts = texts;
        Ok(())
    }

    /// Makes sure that of so many notes so many rows each can be kept, of up to so many values, of which so many are texts. It
    /// fails only where that room was missing. No fewer can be kept than before, or than all notes take.
    pub fn reserve(
        &mut self,
        notes: usize,
        all: usize,
        each: usize,
        columns: usize,
        texts: usize,
    ) -> Result<(), AllocError>
        ensures ok { OnOk result (notes * each ≤ self.new.rows) }
        ensures width { OnOk result (columns ≤ self.new.width) }
        ensures texts { OnOk result (texts ≤ self.new.texts) }
        ensures kept { min (all * each) self.old.rows ≤ self.new.rows }
        ensures wide { self.old.width ≤ self.new.width }
        ensures long { self.old.texts ≤ self.new.texts }
        ensures err { OnErr result ((self.old.rows < notes * each) ⊎ ((self.old.width < columns) ⊎ (self.old.texts < texts))) }
    {
        let rows = self.rows();
        let count = notes.checked_mul(each).ok_or(AllocError)?;
        if self.width < columns || self.texts < texts {
            let kept = rows.min(all.saturating_mul(each));
            let width = self.width.max(columns);
            let texts = self.texts.max(texts);
            return self.widen(count.max(kept), width, texts);
        }
        if count <= rows {
            return Ok(());
        }
        add_rows(&mut self.buffers, count, self.width, self.texts)
    }

    /// A buffer for one row.
    fn next_buffer(&mut self) -> RowBuffer
        requires { 0 < self.old.rows }
        ensures wide { self.old.width ≤ result.room }
        ensures long { self.old.texts ≤ result.texts }
        ensures same { (self.new.width ≡ self.old.width) × (self.new.texts ≡ self.old.texts) }
        ensures left { self.old.rows ≤ self.new.rows + 1 }
    {
        match self.buffers.pop() {
            Some(buffer) => buffer,
            None => RowBuffer::new(self.allocator()),
        }
    }

    /// A copy of a row that is there or not. It takes no memory.
    pub fn keep(&mut self, row: Option<&Row>) -> Option<StoredRow>
        requires enough { cell_rows (option_copied row) ≤ self.old.rows }
        requires fits { cell_width (option_copied row) ≤ self.old.width }
        requires texts { cell_texts (option_copied row) ≤ self.old.texts }
        ensures row { result ≡ option_copied row.entry }
        ensures same { (self.new.width ≡ self.old.width) × (self.new.texts ≡ self.old.texts) }
        ensures left { self.old.rows ≤ self.new.rows + 1 }
    {
        match row {
            None => None,
            Some(row) => Some(copied(self.next_buffer(), row.as_slice())),
        }
    }
}
