//! Totals of rows by value, for a SELECT with GROUP BY.

ghost use Rattle.std.specs.Prelude.{◌≡◌, ◌+◌, ◌-◌, ◌*◌, ◌<◌, ◌≤◌, ◌^◌, ◌++◌, [], List, true, IfOk, OnOk, OnErr, drop, length, slice_index_or, take};
ghost use Rattle.std.specs.Int.RustNames.{unsigned_abs};
ghost use Rattle.hy_value.specs.declared.Value.{Value};
ghost use Rattle.hy_bound.specs.Projection.{spread};
ghost use Rattle.hy_meaning.specs.Statement.{Table};
ghost use Rattle.hy_gathered.specs.Groups.{amount_in, groups_by};
ghost use Rattle.hy_gathered.specs.Tally.{amount_of, groups_in, merged, size_of, with_amount};

use crate::sums::PartColumn;
use hy_bound::{Aggregate, Grouped, Groups};
use hy_plan::Gathered;
use hy_value::{ColMask, Seq, Value};
use std::alloc::{AllocError, Global};
use std::collections::BTreeMap;
use std::marker::Model;

/// Totals of rows by value. Contracts see of how many rows they are, and the groups in ascending order of value.
#[derive(Drop)]
pub struct Tally {
    rows: usize,
    totals: BTreeMap<Value, i128>,
}

impl Model for Tally {
    ghost use Rattle.std.specs.Prelude.{◌*◌, ◌^◌, ◌≤◌};
    ghost use Rattle.hy_gathered.specs.Tally.{Tallied, groups_in, size_of, tallied_code};

    ghost Value = { Tallied };

    ghost coded = { tallied_code };

    ghost view = { λ a. record { rows = a.rows; groups = groups_in a.totals.entries } };

    ghost invariant = { λ a. size_of (groups_in a.totals.entries) ≤ 2 ^ 63 * a.rows };
}

/// Adds an amount at a value of totals. Err is for want of memory, and changes nothing.
fn add_at(totals: &mut BTreeMap<Value, i128>, value: Value, amount: i128) -> Result<(), AllocError>
    requires { size_of (groups_in totals.old.entries) + unsigned_abs amount < 2 ^ 127 }
    ensures ok { OnOk result (groups_in totals.new.entries ≡ with_amount (groups_in totals.old.entries) value amount) }
    ensures err { OnErr result (totals.new.entries ≡ totals.old.entries) }
{
    if let Some(total) = totals.get_mut(&value) {
        *total += amount;
        return Ok(());
    }
    totals.insert(value, amount)?;
    Ok(())
}

/// Adds totals to those of other rows. Err is for want of memory.
fn add_all(
    totals: &mut BTreeMap<Value, i128>,
    others: &BTreeMap<Value, i128>,
) -> Result<(), AllocError>
    requires { size_of (groups_in totals.old.entries) + size_of (groups_in others.now.entries) < 2 ^ 127 }
    ensures ok { OnOk result (groups_in totals.new.entries ≡ merged (groups_in totals.old.entries) (groups_in others.now.entries)) }
    ensures size { size_of (groups_in totals.new.entries) ≤ size_of (groups_in totals.old.entries) + size_of (groups_in others.now.entries) }
{
    for (value, total) in others {
        add_at(totals, value.copy(), *total)?;
    }
    Ok(())
}

impl Tally {
    /// No rows. It takes no memory.
    pub fn new(alloc: Global) -> Tally
        ensures { result ≡ record { rows = 0; groups = [] } }
    {
        Tally {
            rows: 0,
            totals: BTreeMap::new(alloc),
        }
    }

    /// Adds what a row comes to at the row's value. Err is for want of memory, and changes nothing.
    pub(crate) fn add(&mut self, value: Value, amount: i128) -> Result<(), AllocError>
        requires rows { self.old.rows + 1 < 2 ^ 64 }
        requires small { unsigned_abs amount ≤ 2 ^ 63 }
        ensures ok { OnOk result (self.new ≡ record { rows = self.old.rows + 1; groups = with_amount self.old.groups value amount }) }
        ensures err { OnErr result (self.new ≡ self.old) }
    {
        add_at(&mut self.totals, value, amount)?;
        self.rows += 1;
        Ok(())
    }

    /// Adds the totals of the rows of another tally. Err is for want of memory.
    pub(crate) fn merge(&mut self, other: &Tally) -> Result<(), AllocError>
        requires { self.old.rows + other.now.rows < 2 ^ 64 }
        ensures rows { OnOk result (self.new.rows ≡ self.old.rows + other.now.rows) }
        ensures groups { (grouping : Grouping) (rows others : Table) → self.old.groups ≡ groups_by grouping rows
            → other.now.groups ≡ groups_by grouping others → OnOk result (self.new.groups ≡ groups_by grouping (rows ++ others)) }
    {
        self.rows += other.rows;
        add_all(&mut self.totals, &other.totals)
    }

    /// The groups, in ascending order of value. Err is for want of memory.
    pub fn into_groups(self, alloc: Global) -> Result<Groups, AllocError>
        ensures { IfOk result (λ groups. groups ≡ self.groups) }
    {
        let mut groups = Vec::new(alloc);
        for (value, total) in self.totals {
            groups.push(Grouped { value, total })?;
        }
        Ok(Seq::from_vec(groups))
    }
}

/// By what the rows of a part are grouped, and what is told of each group.
#[derive(Clone, Copy)]
pub struct Grouping {
    /// The columns that are gathered.
    pub columns: ColMask,
    /// How many columns the table has.
    pub width: u32,
    /// The column by whose values the rows are grouped.
    pub key: u32,
    /// What is told of each group.
    pub aggregate: Aggregate,
}

/// What a row adds to the total of its group: its value in a column that is summed, or one. Err is for want of memory.
fn amount(
    alloc: Global,
    summed: Option<PartColumn>,
    piece: &Gathered,
    index: usize,
) -> Result<i128, AllocError>
    requires { index < length piece.now.rows }
    ensures value { IfOk result (λ amount. amount ≡ amount_in summed (slice_index_or piece.now.rows index [])) }
    ensures small { IfOk result (λ amount. unsigned_abs amount ≤ 2 ^ 63) }
{
    match summed {
        Some(column) => column.added(alloc, piece, index),
        None => Ok(1),
    }
}

impl Grouping {
    /// The column that is summed, if one is.
    fn summed(self) -> Option<PartColumn>
        ensures { (row : List Value) → amount_in result row ≡ amount_of self.aggregate (spread self.columns self.width row) }
    {
        match self.aggregate {
            Aggregate::Sum(column) => Some(PartColumn::new(self.columns, self.width, column)),
            Aggregate::Count => None,
        }
    }

    /// Adds the rows of a piece from one number on up to another to a tally of others. Err is for want of memory.
    pub(crate) fn add_run(
        self,
        alloc: Global,
        piece: &Gathered,
        from: usize,
        to: usize,
        tally: &mut Tally,
    ) -> Result<(), AllocError>
        requires run { (from ≤ to) × (to ≤ length piece.now.rows) }
        requires few { tally.old.rows + (to - from) < 2 ^ 64 }
        ensures rows { OnOk result (tally.new.rows ≡ tally.old.rows + (to - from)) }
        ensures groups { (rows : Table) → tally.old.groups ≡ groups_by self rows
            → OnOk result (tally.new.groups ≡ groups_by self (rows ++ drop from (take to piece.now.rows))) }
    {
        let key = PartColumn::new(self.columns, self.width, self.key);
        let summed = self.summed();
        for index in from..to {
            let value = key.value(alloc, piece, index)?;
            let amount = amount(alloc, summed, piece, index)?;
            tally.add(value, amount)?;
        }
        Ok(())
    }

    /// Adds the rows of a piece to a tally of others. Err is for want of memory.
    pub fn add_rows(
        self,
        alloc: Global,
        piece: &Gathered,
        tally: &mut Tally,
    ) -> Result<(), AllocError>
        requires { tally.old.rows + length piece.now.rows < 2 ^ 64 }
        ensures rows { OnOk result (tally.new.rows ≡ tally.old.rows + length piece.now.rows) }
        ensures groups { (rows : Table) → tally.old.groups ≡ groups_by self rows
            → OnOk result (tally.new.groups ≡ groups_by self (rows ++ piece.now.rows)) }
    {
        self.add_run(alloc, piece, 0, piece.len(), tally)
    }

    /// Whether rows are grouped alike by another one.
    pub(crate) fn is_same(self, other: Grouping) -> bool
        ensures { result ≡ true → self ≡ other }
    {
        self.columns == other.columns
            && self.width == other.width
            && self.key == other.key
            && self.aggregate == other.aggregate
    }
}

/// Totals of gathered rows, with what they are grouped by.
#[derive(Drop)]
pub struct GroupTally {
    pub(crate) grouping: Grouping,
    pub(crate) tally: Tally,
}
