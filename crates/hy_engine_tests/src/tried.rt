//! A chunk with the transactions that are open on it, called as an engine calls it.

ghost use Rattle.std.specs.Prelude.{◌≡◌, ◌<◌, ◌≤◌, ◌+◌, ◌^◌, [], ◌∷◌, Some, IfOk, OnOk, length};
ghost use Rattle.hy_chunk.specs.Writes.{FitsSets, FitsWrite};
ghost use Rattle.hy_engine_tests.specs.Ready.{AreUnused, IsReady, two_numbers};
ghost use Rattle.hy_stamp.specs.Times.{IsLabel};

use hy_bound::{Assign, Pred, SetExpr, Sets};
use hy_chunk::{Chunk, Keys, NoRoom, RowWrite, Sought, Sweep};
use hy_given::{equal, pair};
use hy_notes::Changes;
use hy_plan::Gathered;
use hy_prune::{Cover, Starts};
use hy_stamp::{Label, Viewer};
use hy_undo::{Delta, Refusal};
use hy_value::{ColMask, Kind, Seq, Value};
use std::alloc::{AllocError, Global};
use std::marker::Model;
use std::test::Fail;

/// How many positions a chunk has at most.
const POSITIONS: usize = 64;

/// An open transaction.
#[derive(Drop)]
pub struct Open {
    /// Its name.
    pub label: Label,
    /// Its identifier and its start.
    pub viewer: Viewer,
    /// The starts that were open when it had begun.
    pub cover: Cover,
}

/// A chunk of acc (id INT PRIMARY KEY, bal INT), with the next time, the open starts, ascending, and how many
/// transactions were begun.
#[derive(Drop)]
pub struct Tried {
    chunk: Chunk,
    next: u64,
    starts: Vec<u64>,
    begun: u32,
}

impl Model for Tried {
    ghost use Rattle.std.specs.Prelude.{ℕ};
    ghost use Rattle.hy_engine_tests.specs.Ready.{IsReady};

    ghost Value = { ℕ };

    ghost view = { λ a. a.next };

    ghost invariant = { λ a. IsReady a.next a.chunk };
}

/// The label of the transaction of this number.
fn label_of(number: u32) -> Label
    ensures { IsLabel result }
{
    Label {
        session: number,
        txn: 1,
    }
}

/// A start was drawn before the next time, and identifiers are above times.
fn check_times(next: u64, viewer: &Viewer) -> Result<(), Fail>
    ensures start { OnOk result (viewer.now.start ≤ next) }
    ensures id { OnOk result (next ≤ viewer.now.id) }
{
    if viewer.start <= next && next <= viewer.id {
        Ok(())
    } else {
        Err(Fail::from("times and identifiers are out of order"))
    }
}

/// SET of bal to a number.
fn set_bal(alloc: Global, bal: i64) -> Result<Sets, AllocError>
    ensures { IfOk result (λ sets. FitsSets two_numbers (Some 0) sets) }
{
    let mut sets = Seq::new(alloc);
    sets.push(Assign {
        column: 1,
        value: SetExpr::literal(alloc, Value::Int(bal))?,
    })?;
    Ok(sets)
}

/// Room to note so many writes.
fn notes(alloc: Global, many: usize) -> Result<Changes, AllocError>
    ensures room { IfOk result (λ changes. many ≤ changes.room) }
    ensures width { IfOk result (λ changes. 2 ≤ changes.width) }
{
    let mut changes = Changes::new(alloc);
    changes.reserve(many, 2, 0)?;
    Ok(changes)
}

/// Rows as pairs of numbers. A row with another value is left out.
fn numbers(alloc: Global, gathered: &Gathered) -> Result<Vec<(i64, i64)>, AllocError>
    requires { gathered.now.width ≡ 2 }
{
    let mut rows = Vec::new(alloc);
    for index in 0..gathered.len() {
        let cells = (
            gathered.refer(index, 0).to_value(),
            gathered.refer(index, 1).to_value(),
        );
        if let (Value::Int(id), Value::Int(bal)) = cells {
            rows.push((id, bal))?;
        }
    }
    Ok(rows)
}

/// Numbers as values.
fn values_of(alloc: Global, numbers: &[i64]) -> Result<Vec<Value>, AllocError> {
    let mut values = Vec::new(alloc);
    for number in numbers {
        values.push(Value::Int(*number))?;
    }
    Ok(values)
}

/// The start of a transaction is open no longer.
fn leave(starts: &mut Vec<u64>, open: &Open) {
    let start = open.viewer.start;
    starts.retain(|other| *other != start);
}

/// Puts rows of these ids with a bal of 100, one behind the other, into a chunk of which no position is used.
fn load_rows(alloc: Global, chunk: &mut Chunk, ids: &[i64]) -> Result<(), AllocError>
    requires ready { IsReady 1 chunk.old }
    requires unused { AreUnused 0 chunk.old.shown.places }
    requires few { length ids.now ≤ length chunk.old.shown.places }
    ensures { IsReady 1 chunk.new }
{
    for (place, id) in ids.iter().enumerate() {
        let row = pair(alloc, *id, 100)?;
        chunk.load_at(place, &row);
    }
    Ok(())
}

impl Tried {
    /// A chunk of so many positions, the first of which have rows of these ids with a bal of 100. Nothing has begun.
    pub fn new(alloc: Global, positions: usize, ids: &[i64]) -> Result<Tried, AllocError>
        requires many { positions ≤ 64 }
        requires few { length ids.now ≤ positions }
    {
        let mut chunk = Chunk::new(alloc, 0, 0, &[Kind::Int, Kind::Int], positions, Some(0))?;
        load_rows(alloc, &mut chunk, ids)?;
        Ok(Tried {
            chunk,
            next: 1,
            starts: Vec::new(alloc),
            begun: 0,
        })
    }

    /// The time that the next draw gives.
    fn time(&self) -> Result<u64, Fail>
        ensures time { IfOk result (λ time. time ≡ self.now) }
        ensures below { IfOk result (λ time. time < 2 ^ 63) }
    {
        if self.next >= 1 << 63 {
            return Err(Fail::from("times are below identifiers"));
        }
        Ok(self.next)
    }

    /// Begins a transaction.
    pub fn begin(&mut self, alloc: Global) -> Result<Open, Fail> {
        let label = label_of(self.begun);
        self.begun = self.begun.checked_add(1).ok_or("too many are begun")?;
        let start = self.time()?;
        self.starts.push(start)?;
        let starts = Starts::from_vec(self.starts.to_vec(alloc)?);
        self.next = start + 1;
        Ok(Open {
            label,
            viewer: Viewer {
                id: label.id(),
                start,
            },
            cover: Cover {
                starts,
                next: start + 1,
            },
        })
    }

    /// A viewer that would begin now.
    pub fn newcomer(&self) -> Viewer {
        Viewer {
            id: label_of(self.begun).id(),
            start: self.next,
        }
    }

    /// The rows that a viewer sees.
    pub fn seen(&mut self, alloc: Global, viewer: &Viewer) -> Result<Vec<(i64, i64)>, AllocError> {
        let mut gathered = Gathered::new(alloc, 2)?;
        let columns = ColMask(3);
        self.chunk
            .gather(alloc, viewer, &Pred::always(), columns, &mut gathered)?;
        numbers(alloc, &gathered)
    }

    /// The rows of these ids that a viewer sees, looked up.
    pub fn looked_up(
        &mut self,
        alloc: Global,
        viewer: &Viewer,
        ids: &[i64],
    ) -> Result<Vec<(i64, i64)>, AllocError> {
        let values = values_of(alloc, ids)?;
        let mut gathered = Gathered::new(alloc, 2)?;
        let pred = Pred::always();
        let keys = Keys {
            column: 0,
            values: values.as_slice(),
        };
        let sought = Sought {
            pred: &pred,
            keys,
            columns: ColMask(3),
        };
        self.chunk
            .gather_keys(alloc, viewer, &sought, &mut gathered)?;
        numbers(alloc, &gathered)
    }

    /// Whether a viewer sees a row of this id.
    pub fn has_key(&mut self, viewer: &Viewer, id: i64) -> bool {
        self.chunk.find_key(viewer, 0, &Value::Int(id))
    }

    /// UPDATE of bal to a number where id is this, or DELETE where there is no number.
    pub fn write(
        &mut self,
        alloc: Global,
        open: &Open,
        id: i64,
        bal: Option<i64>,
    ) -> Result<Result<u32, Refusal>, Fail> {
        let pred = equal(alloc, 0, id)?;
        match bal {
            Some(bal) => {
                let sets = set_bal(alloc, bal)?;
                self.write_rows(alloc, open, &pred, RowWrite::Set(&sets))
            }
            None => self.write_rows(alloc, open, &pred, RowWrite::Delete),
        }
    }

    /// UPDATE or DELETE where a condition holds.
    fn write_rows(
        &mut self,
        alloc: Global,
        open: &Open,
        pred: &Pred,
        kind: RowWrite,
    ) -> Result<Result<u32, Refusal>, Fail>
        requires { FitsWrite two_numbers (Some 0) kind }
    {
        let viewer = &open.viewer;
        check_times(self.next, viewer)?;
        let places = self.chunk.find_candidates(pred)?;
        let mut changes = notes(alloc, places.len())?;
        self.chunk.reserve(places.len())?;
        let sweep = Sweep {
            viewer,
            pred,
            kind,
            places: places.as_slice(),
        };
        Ok(self.chunk.write(&sweep, open.label, &mut changes))
    }

    /// INSERT of a row.
    pub fn place(
        &mut self,
        alloc: Global,
        open: &Open,
        id: i64,
        bal: i64,
    ) -> Result<Result<u32, NoRoom>, AllocError> {
        let row = pair(alloc, id, bal)?;
        let mut changes = notes(alloc, 1)?;
        self.chunk.reserve(1)?;
        Ok(
            self.chunk
                .place(&open.viewer, open.label, &open.cover, &row, &mut changes),
        )
    }

    /// Commits a transaction, and answers when.
    pub fn commit(&mut self, open: &Open) -> Result<u64, Fail> {
        let time = self.time()?;
        leave(&mut self.starts, open);
        self.chunk.stamp(open.viewer.id, time);
        self.next = time + 1;
        Ok(time)
    }

    /// Takes back what a transaction wrote, and ends it.
    pub fn roll_back(&mut self, open: &Open) {
        leave(&mut self.starts, open);
        self.chunk.undo(open.viewer.id);
    }

    /// Prunes by the cover of a transaction, which it holds until its end.
    pub fn prune(&mut self, open: &Open) {
        hy_chain::pruning_shrinks::<Delta>();
        hy_chain::pruning_keeps_stamps::<Delta>();
        self.chunk.prune(&open.cover);
    }
}
