//! A chunk of two numbers a row, called as an engine calls it.

ghost use Rattle.std.specs.Prelude.{◌≡◌, ◌<◌, ◌≤◌, ◌+◌, ◌^◌, [], ◌∷◌, Some, IfOk, OnOk, length};
ghost use Rattle.hy_chunk.specs.Writes.{FitsSets};
ghost use Rattle.hy_measured.specs.Ready.{AreUnused, IsReady, two_numbers};
ghost use Rattle.hy_measured.specs.declared.ready.TheConstants.{OLD_START};
ghost use Rattle.hy_stamp.specs.Times.{IsLabel};
ghost use Rattle.hy_value.specs.declared.Value.{Value};

use hy_bound::{Assign, Pred, SetExpr, Sets, Side};
use hy_chunk::{Chunk, RowWrite, Sweep};
use hy_notes::Changes;
use hy_plan::Gathered;
use hy_prune::{Cover, Starts};
use hy_stamp::{Label, Viewer};
use hy_undo::Delta;
use hy_value::{Cmp, ColMask, Kind, Row, Seq, Value, ValueRef};
use std::alloc::{AllocError, Global};
use std::marker::Model;

/// The start of the reader that stays open.
pub const OLD_START: u64 = 1;

/// A chunk of (id INT PRIMARY KEY, bal INT), with how many positions it has, the next time, and the notes of a transaction, whose
/// room is handed on to the next one.
#[derive(Drop)]
pub struct Ready {
    chunk: Chunk,
    positions: usize,
    next: u64,
    notes: Changes,
}

impl Model for Ready {
    ghost use Rattle.std.specs.Prelude.{ℕ};
    ghost use Rattle.hy_measured.specs.Ready.{IsReady};

    ghost Value = { ℕ };

    ghost view = { λ a. a.next };

    ghost invariant = { λ a. IsReady a.positions a.next a.chunk };
}

/// A transaction that writes.
#[derive(Drop)]
struct Writer {
    label: Label,
    viewer: Viewer,
    cover: Cover,
}

/// A row of two numbers.
fn pair(alloc: Global, first: i64, second: i64) -> Result<Row, AllocError>
    ensures { IfOk result (λ row. row ≡ Value.Int first ∷ Value.Int second ∷ []) }
{
    let mut values = Seq::new(alloc);
    values.push(Value::Int(first))?;
    values.push(Value::Int(second))?;
    Ok(values)
}

/// A column compared with a number.
pub fn compared(alloc: Global, column: u32, op: Cmp, number: i64) -> Result<Pred, AllocError> {
    Pred::compare(alloc, column, op, Side::Literal(Value::Int(number)))
}

/// The label of the transaction of this number.
fn label_of(number: u32) -> Label
    ensures { IsLabel result }
{
    Label {
        session: number,
        txn: 1,
    }
}

/// SET of bal to a number.
fn set_bal(alloc: Global, bal: i64) -> Result<Sets, AllocError>
    ensures { IfOk result (λ sets. FitsSets two_numbers (Some 0) sets) }
{
    let mut sets = Seq::new(alloc);
    sets.push(Assign {
        column: 1,
        value: SetExpr::literal(alloc, Value::Int(bal))?,
    })?;
    Ok(sets)
}

/// A start was drawn before the next time, and identifiers are above times.
fn check_times(next: u64, viewer: &Viewer) -> Result<(), AllocError>
    ensures start { OnOk result (viewer.now.start ≤ next) }
    ensures id { OnOk result (next ≤ viewer.now.id) }
{
    if viewer.start <= next && next <= viewer.id {
        Ok(())
    } else {
        Err(AllocError)
    }
}

/// The sum of what was gathered.
pub fn sum(gathered: &Gathered) -> i64
    requires { gathered.now.width ≡ 1 }
{
    let mut sum = 0i64;
    for index in 0..gathered.len() {
        if let ValueRef::Int(balance) = gathered.refer(index, 0) {
            sum = sum.wrapping_add(balance);
        }
    }
    sum
}

/// The balance of the row of this number at first.
fn balance_of(id: u32) -> i64 {
    i64::from(id.wrapping_mul(7919) % 1009)
}

/// Puts the rows of so many numbers from `first` on, one behind the other, into a chunk of which no position is used.
fn load_rows(alloc: Global, chunk: &mut Chunk, first: u32, rows: u32) -> Result<(), AllocError>
    requires numbers { first + rows < 2 ^ 32 }
    requires ready { IsReady rows (OLD_START + 1) chunk.old }
    requires unused { AreUnused 0 chunk.old.shown.places }
    requires few { rows ≤ length chunk.old.shown.places }
    ensures { IsReady rows (OLD_START + 1) chunk.new }
{
    for place in 0..rows {
        let id = first + place;
        let row = pair(alloc, i64::from(id), balance_of(id))?;
        chunk.load_at(place as usize, &row);
    }
    Ok(())
}

impl Ready {
    /// A full chunk of the rows of so many numbers, from `first` on.
    pub fn full(alloc: Global, first: u32, rows: u32) -> Result<Ready, AllocError>
        requires { first + rows < 2 ^ 32 }
    {
        let positions = rows as usize;
        let mut chunk = Chunk::new(alloc, 0, first, &[Kind::Int, Kind::Int], positions, Some(0))?;
        load_rows(alloc, &mut chunk, first, rows)?;
        Ok(Ready {
            chunk,
            positions,
            next: OLD_START + 1,
            notes: Changes::new(alloc),
        })
    }

    /// Appends the bal of each row that a viewer sees and a condition selects.
    pub fn balances(
        &mut self,
        alloc: Global,
        viewer: &Viewer,
        pred: &Pred,
        gathered: &mut Gathered,
    ) -> Result<(), AllocError>
        requires { gathered.old.width ≡ 1 }
        ensures { gathered.new.width ≡ 1 }
    {
        self.chunk.gather(alloc, viewer, pred, ColMask(2), gathered)
    }

    /// The sum of bal of the rows that a viewer sees and a condition selects.
    pub fn balance(&mut self, alloc: Global, start: u64, pred: &Pred) -> Result<i64, AllocError> {
        let mut gathered = Gathered::new(alloc, 1)?;
        let viewer = Viewer {
            id: u64::MAX,
            start,
        };
        self.balances(alloc, &viewer, pred, &mut gathered)?;
        Ok(sum(&gathered))
    }

    /// The time that the next draw gives.
    fn time(&self) -> Result<u64, AllocError>
        ensures time { IfOk result (λ time. time ≡ self.now) }
        ensures below { IfOk result (λ time. time < 2 ^ 63) }
    {
        if self.next >= 1 << 63 {
            return Err(AllocError);
        }
        Ok(self.next)
    }

    /// Begins the transaction of this number, beside the old reader.
    fn begin(&mut self, alloc: Global, number: u32) -> Result<Writer, AllocError> {
        let label = label_of(number);
        let start = self.time()?;
        let mut starts = Vec::with_capacity(alloc, 2)?;
        starts.push(OLD_START)?;
        starts.push(start)?;
        self.next = start + 1;
        Ok(Writer {
            label,
            viewer: Viewer {
                id: label.id(),
                start,
            },
            cover: Cover {
                starts: Starts::from_vec(starts),
                next: start + 1,
            },
        })
    }

    /// UPDATE of bal to a number where a condition holds.
    fn write(
        &mut self,
        alloc: Global,
        writer: &Writer,
        pred: &Pred,
        bal: i64,
    ) -> Result<(), AllocError> {
        let viewer = &writer.viewer;
        check_times(self.next, viewer)?;
        let sets = set_bal(alloc, bal)?;
        let places = self.chunk.find_candidates(pred)?;
        self.notes.reserve(places.len(), 2, 0)?;
        self.chunk.reserve(places.len())?;
        let sweep = Sweep {
            viewer,
            pred,
            kind: RowWrite::Set(&sets),
            places: places.as_slice(),
        };
        let _count = self.chunk.write(&sweep, writer.label, &mut self.notes);
        Ok(())
    }

    /// Commits a transaction, and drops its notes.
    fn commit(&mut self, writer: &Writer) -> Result<(), AllocError> {
        let time = self.time()?;
        self.chunk.stamp(writer.viewer.id, time);
        self.notes.clear();
        self.next = time + 1;
        Ok(())
    }

    /// Prunes by the cover of a transaction.
    fn prune(&mut self, writer: &Writer) {
        hy_chain::pruning_shrinks::<Delta>();
        hy_chain::pruning_keeps_stamps::<Delta>();
        self.chunk.prune(&writer.cover);
    }

    /// A transaction of this number writes its number where a condition holds, and commits: pruned before and after.
    pub fn update(&mut self, alloc: Global, number: u32, pred: &Pred) -> Result<(), AllocError> {
        let writer = self.begin(alloc, number)?;
        self.prune(&writer);
        self.write(alloc, &writer, pred, i64::from(number))?;
        self.commit(&writer)?;
        self.prune(&writer);
        Ok(())
    }
}
