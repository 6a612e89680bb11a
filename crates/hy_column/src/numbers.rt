//! Columns of numbers.

ghost use Rattle.std.specs.Prelude.{◌≡◌, ℕ, ℤ, pos, ◌<◌, Some, None, IfOk, IfSome, length, map, replicate, slice_index_or, slice_set, vec_len};
ghost use Rattle.hy_column.specs.Compared.{compares_number};

use hy_kernel::Mask;
use hy_value::Cmp;
use std::alloc::{AllocError, Global};
use std::marker::Model;

/// A number or NULL for each place.
#[derive(Drop)]
pub struct IntColumn {
    values: Vec<i64>,
    nulls: Mask,
}

impl Model for IntColumn {
    ghost use Rattle.std.specs.Prelude.{List, Option, ℤ};
    ghost use Rattle.hy_column.specs.Numbers.{numbers, AreAsLong};

    ghost Value = { List (Option ℤ) };

    ghost view = { λ a. numbers a.values.items a.nulls };

    ghost invariant = { λ a. AreAsLong a.values.items a.nulls };
}

/// The number at a place.
fn number_at(values: &[i64], place: usize) -> i64
    requires { place < length values.now }
    ensures { result ≡ slice_index_or values.now place (pos 0) }
{
    values[place]
}

/// Puts a number at a place.
fn put_number(values: &mut Vec<i64>, place: usize, number: i64)
    requires { place < vec_len values.old }
    ensures items { values.new.items ≡ slice_set values.old.items place number }
{
    values[place] = number;
}

impl IntColumn {
    /// So many zeros. Err is for want of memory.
    pub fn new(alloc: Global, rows: usize) -> Result<IntColumn, AllocError>
        ensures { IfOk result (λ column. column ≡ replicate rows (Some (pos 0))) }
    {
        let values = vec![in alloc; 0i64; rows]?;
        let nulls = Mask::new(alloc, rows)?;
        Ok(IntColumn { values, nulls })
    }

    /// The number at a place, None for NULL.
    pub fn get(&self, place: usize) -> Option<i64>
        requires { place < length self.now }
        ensures { result ≡ slice_index_or self.now place None }
    {
        if self.nulls.get(place) {
            None
        } else {
            Some(number_at(self.values.as_slice(), place))
        }
    }

    /// Puts a number or NULL at a place, and gives the old one back.
    pub fn replace(&mut self, place: usize, value: Option<i64>) -> Option<i64>
        requires { place < length self.old }
        ensures old { result ≡ slice_index_or self.old place None }
        ensures new { self.new ≡ slice_set self.old place value }
    {
        let old = self.get(place);
        self.put(place, value);
        old
    }

    /// Puts a number or NULL at a place.
    pub fn put(&mut self, place: usize, value: Option<i64>)
        requires { place < length self.old }
        ensures { self.new ≡ slice_set self.old place value }
    {
        match value {
            None => self.nulls.set(place, true),
            Some(number) => {
                put_number(&mut self.values, place, number);
                self.nulls.set(place, false);
            }
        }
    }

    /// The numbers by place. What stands at a NULL's place is no matter.
    pub fn values(&self) -> &[i64]
        ensures size { length result.now ≡ length self.now }
        ensures each { (place : ℕ) (number : ℤ) → slice_index_or self.now place None ≡ Some number
            → slice_index_or result.now place (pos 0) ≡ number }
    {
        self.values.as_slice()
    }

    /// The numbers by place, where no NULL is among them.
    pub fn known(&self) -> Option<&[i64]>
        ensures { IfSome result (λ values. map Some values.now ≡ self.now) }
    {
        if self.nulls.next_set(0) < self.nulls.len() {
            None
        } else {
            Some(self.values.as_slice())
        }
    }

    /// Whether a comparison with a number is true of what is at each place. Err is for want of memory.
    pub fn compare(&self, alloc: Global, op: Cmp, right: i64) -> Result<Mask, AllocError>
        ensures { IfOk result (λ mask. mask ≡ map (compares_number op right) self.now) }
    {
        let mut mask = Mask::new(alloc, self.values.len())?;
        mask.compare(self.values.as_slice(), op, right);
        mask.and_without(&self.nulls);
        Ok(mask)
    }
}
