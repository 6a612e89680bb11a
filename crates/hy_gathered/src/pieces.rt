//! Rows gathered of a table, piece by piece.

ghost use Rattle.std.specs.Prelude.{◌≡◌, ◌+◌, ◌<◌, ◌≤◌, ◌*◌, ◌^◌, ◌++◌, [], List, true, IfOk, IfSome, OnOk, OnErr, length, map, slice_index_or, take};
ghost use Rattle.std.specs.Int.RustNames.{unsigned_abs};
ghost use Rattle.hy_bound.specs.Projection.{spread};
ghost use Rattle.hy_gathered.specs.Groups.{IsTallyOf, groups_by};
ghost use Rattle.hy_gathered.specs.Shares.{AreSharesOf, IsGroupTallyOf, share_begin, share_count, share_of};
ghost use Rattle.hy_gathered.specs.Sums.{sum_by, value_in};
ghost use Rattle.hy_meaning.specs.Statement.{Table};
ghost use Rattle.hy_plan.specs.Reads.{known_values_of};
ghost use Rattle.hy_value.specs.declared.Value.{Value};

use crate::shares::{share_count, share_run};
use crate::sums::PartColumn;
use crate::tally::{GroupTally, Grouping, Tally};
use hy_plan::Gathered;
use hy_value::{ColMask, Row, Value};
use std::alloc::{AllocError, Global};
use std::marker::Model;

/// The known values of a column of gathered rows: the different ones other than NULL, ascending.
#[derive(Drop)]
struct Known {
    column: PartColumn,
    values: Vec<Value>,
}

/// The sum of a column over gathered rows.
#[derive(Drop)]
struct Summed {
    column: PartColumn,
    sum: i128,
}

/// Whether two columns are of the same number, in rows that are put together alike.
fn is_same(one: PartColumn, other: PartColumn) -> bool
    ensures values { result ≡ true → (row : List Value) → value_in one row ≡ value_in other row }
    ensures sums { result ≡ true → (rows : Table) → sum_by one rows ≡ sum_by other rows }
{
    one.columns == other.columns && one.width == other.width && one.column == other.column
}

/// Rows gathered of a table, a piece for each visit. A piece that is there never changes, so that a visit that wants
/// for memory leaves what was gathered before. Contracts see the rows.
#[derive(Drop)]
pub struct Pieces {
    len: usize,
    pieces: Vec<Gathered>,
    /// The known values of one of its columns, kept from visit to visit of a later table whose rows are looked up by
    /// them.
    known: Option<Known>,
    /// The totals of all of them, kept for the visit that answers from them.
    kept: Option<GroupTally>,
    /// The sum of one of its columns, kept for the visit that answers from it.
    summed: Option<Summed>,
}

impl Model for Pieces {
    ghost use Rattle.std.specs.Prelude.{◌≡◌, length};
    ghost use Rattle.hy_meaning.specs.Statement.{Table};
    ghost use Rattle.hy_gathered.specs.Pieces.{AreKnownOf, IsSumOf, rows_in_pieces};
    ghost use Rattle.hy_gathered.specs.Shares.{AreKeptOf};

    ghost Value = { Table };

    ghost view = { λ a. rows_in_pieces a.pieces.items };

    ghost invariant = { λ a. (a.len ≡ length (rows_in_pieces a.pieces.items)) × AreKnownOf (rows_in_pieces a.pieces.items) a.known
        × AreKeptOf (rows_in_pieces a.pieces.items) a.kept × IsSumOf (rows_in_pieces a.pieces.items) a.summed };
}

impl Pieces {
    /// No rows. It takes no memory.
    pub fn new(alloc: Global) -> Pieces
        ensures { result ≡ [] }
    {
        Pieces {
            len: 0,
            pieces: Vec::new(alloc),
            known: None,
            kept: None,
            summed: None,
        }
    }

    /// How many rows there are.
    pub fn len(&self) -> usize
        ensures { result ≡ length self.now }
    {
        self.len
    }

    /// Puts the rows of a piece behind the others; one without rows is let go. Err is for want of memory, and changes nothing.
    #[tactic(auto, using(crate::proofs::Piled::pieces_more))]
    pub fn add(&mut self, piece: Gathered) -> Result<(), AllocError>
        ensures ok { OnOk result (self.new ≡ self.old ++ piece.rows) }
        ensures err { OnErr result (self.new ≡ self.old) }
    {
        let rows = piece.len();
        if rows == 0 {
            return Ok(());
        }
        let len = self.len.checked_add(rows).ok_or(AllocError)?;
        self.pieces.push(piece)?;
        self.len = len;
        self.known = None;
        self.kept = None;
        self.summed = None;
        Ok(())
    }

    /// The known values of a column, if they were kept since rows were put there.
    pub fn known(&self, column: PartColumn) -> Option<&[Value]>
        ensures { IfSome result (λ values. values.now ≡ known_values_of (map (value_in column) self.now)) }
    {
        let _rows = self.len;
        match &self.known {
            Some(known) if is_same(known.column, column) => Some(known.values.as_slice()),
            _ => None,
        }
    }

    /// Keeps the known values of a column, in place of those of another one.
    pub fn keep_known(&mut self, column: PartColumn, values: Vec<Value>)
        requires { values.items ≡ known_values_of (map (value_in column) self.old) }
        ensures { self.new ≡ self.old }
    {
        self.known = Some(Known { column, values });
    }

    /// The sum of a column over the rows of one piece after another. Err is for want of memory.
    fn sum_each(&self, alloc: Global, column: PartColumn) -> Result<i128, AllocError>
        ensures value { IfOk result (λ sum. sum ≡ sum_by column self.now) }
        ensures small { IfOk result (λ sum. unsigned_abs sum ≤ 2 ^ 63 * length self.now) }
    {
        let _rows = self.len;
        let mut sum = 0i128;
        for piece in &self.pieces {
            sum += column.sum(alloc, piece)?;
        }
        Ok(sum)
    }

    /// The sum of a column over the rows, at once where it is kept. Err is for want of memory.
    pub fn sum(&self, alloc: Global, column: PartColumn) -> Result<i128, AllocError>
        ensures value { IfOk result (λ sum. sum ≡ sum_by column self.now) }
        ensures small { IfOk result (λ sum. unsigned_abs sum ≤ 2 ^ 63 * length self.now) }
    {
        match &self.summed {
            Some(summed) if is_same(summed.column, column) => Ok(summed.sum),
            _ => self.sum_each(alloc, column),
        }
    }

    /// Keeps the sum of a column over the rows, in place of that of another one. Err is for want of memory.
    pub fn keep_sum(&mut self, alloc: Global, column: PartColumn) -> Result<(), AllocError>
        ensures { self.new ≡ self.old }
    {
        let sum = self.sum(alloc, column)?;
        self.summed = Some(Summed { column, sum });
        Ok(())
    }

    /// Adds the rows of one piece after another to a tally of others. Err is for want of memory.
    fn add_each(
        &self,
        alloc: Global,
        grouping: Grouping,
        tally: &mut Tally,
    ) -> Result<(), AllocError>
        requires { tally.old.rows + length self.now < 2 ^ 64 }
        ensures rows { OnOk result (tally.new.rows ≡ tally.old.rows + length self.now) }
        ensures groups { (rows : Table) → tally.old.groups ≡ groups_by grouping rows → OnOk result (tally.new.groups ≡ groups_by grouping (rows ++ self.now)) }
    {
        for piece in &self.pieces {
            grouping.add_rows(alloc, piece, tally)?;
        }
        Ok(())
    }

    /// Adds the rows to a tally of others, at once where their totals are kept. Err is for want of memory.
    pub fn add_rows(
        &self,
        alloc: Global,
        grouping: Grouping,
        tally: &mut Tally,
    ) -> Result<(), AllocError>
        requires { tally.old.rows + length self.now < 2 ^ 64 }
        ensures rows { OnOk result (tally.new.rows ≡ tally.old.rows + length self.now) }
        ensures groups { (rows : Table) → tally.old.groups ≡ groups_by grouping rows → OnOk result (tally.new.groups ≡ groups_by grouping (rows ++ self.now)) }
    {
        let _rows = self.len;
        match &self.kept {
            Some(kept) if kept.grouping.is_same(grouping) => tally.merge(&kept.tally),
            _ => self.add_each(alloc, grouping, tally),
        }
    }

    /// In how many shares its rows may be tallied before they are added to a tally: none where they are few, or where their
    /// totals are kept.
    pub fn shares(&self, grouping: Grouping) -> usize
        ensures { result ≤ share_count (length self.now) }
    {
        let rows = self.len;
        match &self.kept {
            Some(kept) if kept.grouping.is_same(grouping) => 0,
            _ => share_count(rows),
        }
    }

    /// The totals of the share of a number. Err is for want of memory.
    pub fn tally_share(
        &self,
        alloc: Global,
        grouping: Grouping,
        number: usize,
    ) -> Result<GroupTally, AllocError>
        ensures { IfOk result (IsGroupTallyOf (share_of number self.now)) }
    {
        let (from, to) = share_run(self.len, number);
        let mut tally = Tally::new(alloc);
        let mut before = 0;
        for piece in &self.pieces {
            let rows = piece.len();
            let first = from.saturating_sub(before).min(rows);
            let last = to.saturating_sub(before).min(rows);
            grouping.add_run(alloc, piece, first, last, &mut tally)?;
            before += rows;
        }
        Ok(GroupTally { grouping, tally })
    }

    /// The totals of its first shares, as many as there are. None where one was not made, or is by another grouping. Err is
    /// for want of memory.
    fn merge_shares(
        &self,
        alloc: Global,
        grouping: Grouping,
        shares: &[Option<GroupTally>],
    ) -> Result<Option<Tally>, AllocError>
        requires { AreSharesOf self.now shares.now }
        ensures { IfOk result (λ found. IfSome found (IsTallyOf grouping (take (share_begin (length self.now) (length shares.now)) self.now))) }
    {
        let _rows = self.len;
        let mut all = Tally::new(alloc);
        for share in shares {
            let Some(share) = share else {
                return Ok(None);
            };
            if !share.grouping.is_same(grouping) {
                return Ok(None);
            }
            all.merge(&share.tally)?;
        }
        Ok(Some(all))
    }

    /// Keeps the totals of its rows, where its shares are all there; else nothing is kept. Err is for want of memory.
    pub fn keep_shares(
        &mut self,
        alloc: Global,
        shares: &[Option<GroupTally>],
    ) -> Result<(), AllocError>
        requires { AreSharesOf self.old shares.now }
        ensures { self.new ≡ self.old }
    {
        if shares.len() != share_count(self.len) {
            return Ok(());
        }
        let Some(Some(first)) = shares.first() else {
            return Ok(());
        };
        let grouping = first.grouping;
        if let Some(tally) = self.merge_shares(alloc, grouping, shares)? {
            self.kept = Some(GroupTally { grouping, tally });
        }
        Ok(())
    }

    /// Puts a row behind other values, as a row of so many columns: those of a set have its values in their order, the
    /// others are NULL.
    pub fn push_spread(
        &self,
        index: usize,
        columns: ColMask,
        width: u32,
        joined: &mut Row,
    ) -> Result<(), AllocError>
        requires { index < length self.now }
        ensures { OnOk result (joined.new ≡ joined.old ++ spread columns width (slice_index_or self.now index [])) }
    {
        let mut left = index;
        for piece in &self.pieces {
            let rows = piece.len();
            if left < rows {
                return piece.push_spread(left, columns, width, joined);
            }
            left -= rows;
        }
        unreachable!()
    }
}
