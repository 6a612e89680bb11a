//! A chunk of a table.

ghost use Rattle.std.specs.Prelude.{◌≡◌, ◌++◌, take, None, Some, IfErr, ◌+◌, ◌<◌, ◌≤◌, ◌^◌};
ghost use Rattle.std.specs.Prelude.{ℕ, List, [], IfOk, true, false, OnOk, OnErr, length, replicate, slice_index_or, slice_set};
ghost use Rattle.std.specs.List.{AllByRecursion, flat_map, list_any};
ghost use Rattle.std.specs.Prelude.{Contains, IfSome, map, ◌-◌};
ghost use Rattle.hy_bound.specs.Condition.{Compare};
ghost use Rattle.hy_bound.specs.Predicate.{truth_at};
ghost use Rattle.hy_bound.specs.Projection.{projected};
ghost use Rattle.hy_chain.specs.Chains.{Falls};
ghost use Rattle.hy_notes.specs.Notes.{with_note};
ghost use Rattle.hy_prune.specs.Fates.{watermark_of};
ghost use Rattle.hy_undo.specs.Places.{cell_of, in_place, sees};
ghost use Rattle.hy_undo.specs.Chunks.{rows_seen, Placed, Written, Everywhere, AtOwn, StampedPlace, Undone, Pruned, is_own};
ghost use Rattle.hy_chunk.specs.Fields.{blank_place, nth};
ghost use Rattle.hy_plan.specs.Reads.{by_key_of};
ghost use Rattle.hy_chunk.specs.Backing.{MayGoBack, change_back};
ghost use Rattle.hy_chunk.specs.Candidates.{AreCandidates};
ghost use Rattle.hy_chunk.specs.Gathering.{AreEnough, conditions_of, gathered_by, gathered_of, kept_by};
ghost use Rattle.hy_chunk.specs.Keyed.{AreFound, is_key_of};
ghost use Rattle.hy_chunk.specs.Masked.{Admits, Confirms};
ghost use Rattle.hy_chunk.specs.Parts.{part_of};
ghost use Rattle.hy_bound.specs.Records.{conjuncts};
ghost use Rattle.hy_chunk.specs.Settled.{Settles};
ghost use Rattle.hy_chunk.specs.Sound.{FitsRow, most_texts};
ghost use Rattle.hy_chunk.specs.Steps.{loaded_place, least_free, IsPut};
ghost use Rattle.hy_chunk.specs.Views.{with_places};
ghost use Rattle.hy_chunk.specs.Writes.{FitsWrite, IsDone, notes_with, refusal_in, sets_of};
ghost use Rattle.hy_undo.specs.Steps.{pruned_place, stamped_place, undone_place};
ghost use Rattle.hy_undo.specs.Sweeps.{swept};
ghost use Rattle.hy_stamp.specs.declared.Viewer.{Viewer};
ghost use Rattle.hy_value.specs.declared.Value.{Value};
ghost use Rattle.hy_value.specs.declared.Cmp.{Cmp};
ghost use Rattle.hy_value.specs.Refs.{referred};
ghost use Rattle.hy_bound.specs.declared.predicate.Side.{Side};

use crate::gathering::{
    Sought, Wanted, columns_in, conditions_gather_rows, has_in, keep, keys_of, value_asked,
};
use crate::masks::{Scan, admitted, is_passed, may_select};
use crate::positions::{Part, Positions};
use crate::settled::Settled;
use crate::writes::{RowWrite, is_selected, make_next, note, put_cell, refusal_at, row_of};
use hy_bound::Pred;
use hy_kernel::Mask;
use hy_notes::Changes;
use hy_plan::Gathered;
use hy_prune::{Cover, watermark};
use hy_stamp::{Label, Stamp, Viewer};
use hy_undo::{Refusal, Version};
use hy_value::{Change, ColMask, Kind, Row, Seq, Value, ValueRef};
use std::alloc::{AllocError, Global};
use std::marker::Model;

/// No position may take a new row.
#[derive(Clone, Copy, Debug, PartialEq, Eq)]
pub struct NoRoom;

/// A chunk: some positions of a table, with the versions before beside what is in place.
#[derive(Drop)]
pub struct Chunk {
    table: u32,
    first: u32,
    positions: Positions,
    /// Where a stamp, an undo or a prune has something to do.
    settled: Settled,
    /// Versions to work on, so that neither looking nor writing needs memory.
    seen: Version,
    next: Version,
}

impl Model for Chunk {
    ghost use Rattle.std.specs.Prelude.{length};
    ghost use Rattle.hy_chunk.specs.Views.{Whole, whole_code};
    ghost use Rattle.hy_chunk.specs.Whole.{IsWhole};

    ghost Value = { Whole };

    ghost coded = { whole_code };

    ghost view = { λ a. record {
      shown = record { table = a.table; first = a.first; width = length a.positions.kinds; key = a.positions.key; places = a.positions.places };
      kinds = a.positions.kinds;
      room = a.positions.room;
    } };

    ghost invariant = { λ a. IsWhole a.first (length a.positions.places) (length a.positions.kinds) (length a.seen.row) (length a.next.row)
        a.settled a.positions.places };
}

/// An UPDATE or a DELETE of a viewer, and the positions at which its condition may select a row.
#[derive(Clone, Copy)]
pub struct Sweep<'a> {
    /// The viewer.
    pub viewer: &'a Viewer,
    /// The condition.
    pub pred: &'a Pred,
    /// What becomes of a row that it selects.
    pub kind: RowWrite<'a>,
    /// The positions, ascending.
    pub places: &'a [u32],
}

/// A version of so many NULLs. Err is for want of memory.
fn blank_version(alloc: Global, width: usize) -> Result<Version, AllocError>
    ensures { IfOk result (λ version. length version.row ≡ width) }
{
    let mut row = Vec::with_capacity(alloc, width)?;
    for _column in 0..width {
        row.push(Value::Null)?;
    }
    Ok(Version {
        row: Seq::from_vec(row),
        live: false,
    })
}

/// Whether a version is a row that has this value in a column.
fn has_value(version: &Version, column: u32, value: &Value) -> bool
    ensures { result ≡ truth_at (Compare column Cmp.Eq (Side.Literal value.now)) (cell_of version.now) }
{
    version.live && has_in(&version.row, column, value)
}

/// The number at an index.
fn number_at(numbers: &[u32], index: usize) -> u32
    requires { index < length numbers.now }
    ensures { result ≡ slice_index_or numbers.now index 0 }
{
    numbers[index]
}

/// Whether a viewer sees a row that has this key, tried at the positions that have it in place. `seen` is a scratch
/// version of as many columns.
fn find_in(
    positions: &Positions,
    viewer: &Viewer,
    column: u32,
    value: &Value,
    seen: &mut Version,
) -> bool
    requires key { is_key_of positions.now.key column ≡ true }
    requires width { length seen.old.row ≡ length positions.now.kinds }
    ensures found { result ≡ list_any (truth_at (Compare column Cmp.Eq (Side.Literal value.now))) (rows_seen viewer.now positions.now.places) }
    ensures width { length seen.new.row ≡ length positions.now.kinds }
{
    let found = positions.find(column, value.refer());
    for i in 0..found.len() {
        positions.see(found.at(i) as usize, viewer, seen);
        if has_value(seen, column, value) {
            return true;
        }
    }
    false
}

/// Whether a stamp, if there is one, is of this identifier.
fn has_mark(stamp: Option<Stamp>, id: u64) -> bool
    ensures { result ≡ is_own id stamp }
{
    match stamp {
        None => false,
        Some(stamp) => stamp.mark == id,
    }
}

/// Gives the newest record of a position its commit time, where it is of this identifier, and a row that is gone its
/// death time.
fn stamp_at(positions: &mut Positions, settled: &mut Settled, place: usize, id: u64, time: u64)
    requires within { place < length positions.old.places }
    requires settles { Settles settled.old positions.old.places }
    ensures kinds { positions.new.kinds ≡ positions.old.kinds }
    ensures key { positions.new.key ≡ positions.old.key }
    ensures places { positions.new.places ≡ slice_set positions.old.places place (stamped_place id time (nth positions.old.places place)) }
    ensures room { positions.old.room ≤ positions.new.room }
    ensures settles { Settles settled.new positions.new.places }
    ensures before { settled.new.before ≡ settled.old.before }
{
    hy_undo::places_step();
    if has_mark(positions.newest(place), id) {
        positions.stamp_at(place, id, time);
        settled.release(place, positions.newest(place));
    }
}

/// Puts the newest before-image of a position back, where it is of this identifier. `version` is a scratch one of as many
/// columns.
fn undo_at(
    positions: &mut Positions,
    settled: &mut Settled,
    place: usize,
    id: u64,
    version: &mut Version,
)
    requires within { place < length positions.old.places }
    requires width { length version.old.row ≡ length positions.old.kinds }
    requires settles { Settles settled.old positions.old.places }
    ensures kinds { positions.new.kinds ≡ positions.old.kinds }
    ensures key { positions.new.key ≡ positions.old.key }
    ensures places { positions.new.places ≡ slice_set positions.old.places place (undone_place id (nth positions.old.places place)) }
    ensures room { positions.old.room ≤ positions.new.room }
    ensures width { length version.new.row ≡ length positions.old.kinds }
    ensures settles { Settles settled.new positions.new.places }
    ensures before { settled.new.before ≡ settled.old.before }
{
    hy_undo::places_step();
    if has_mark(positions.newest(place), id) {
        positions.undo_at(place, id, version);
        settled.release(place, positions.newest(place));
    }
}

/// Prunes the chain of a position, and answers whether it is empty then.
fn prune_at(positions: &mut Positions, settled: &mut Settled, place: usize, cover: &Cover) -> bool
    requires within { place < length positions.old.places }
    requires settles { Settles settled.old positions.old.places }
    ensures kinds { positions.new.kinds ≡ positions.old.kinds }
    ensures key { positions.new.key ≡ positions.old.key }
    ensures places { positions.new.places ≡ slice_set positions.old.places place (pruned_place cover.now (nth positions.old.places place)) }
    ensures room { positions.old.room ≤ positions.new.room }
    ensures settles { Settles settled.new positions.new.places }
    ensures after { watermark_of cover.now ≤ settled.old.after → watermark_of cover.now ≤ settled.new.after }
{
    positions.prune_at(place, cover);
    let left = positions.count(place);
    settled.settle(place, left, positions.newest(place), cover);
    left == 0
}

/// Makes the range of the positions that may have records smaller, where some were emptied.
fn narrow_where(positions: &mut Positions, emptied: bool)
    ensures { positions.new ≡ positions.old }
{
    if emptied {
        positions.narrow();
    }
}

impl Chunk {
    /// So many unused positions from `first` on of a table whose columns have these types; one of them may be its key.
    /// Err is for want of memory.
    pub fn new(
        alloc: Global,
        table: u32,
        first: u32,
        kinds: &[Kind],
        rows: usize,
        key: Option<u32>,
    ) -> Result<Chunk, AllocError>
        requires { first + rows < 2 ^ 32 }
        ensures shown { IfOk result (λ chunk. chunk.shown
            ≡ record { table = table; first = first; width = length kinds.now; key = key; places = replicate rows (blank_place kinds.now) }) }
        ensures kinds { IfOk result (λ chunk. chunk.kinds ≡ kinds.now) }
    {
        let positions = Positions::new(alloc, kinds, rows, key)?;
        let settled = Settled::new(alloc, rows)?;
        let seen = blank_version(alloc, kinds.len())?;
        let next = blank_version(alloc, kinds.len())?;
        Ok(Chunk {
            table,
            first,
            positions,
            settled,
            seen,
            next,
        })
    }

    /// The number of its table.
    pub fn table(&self) -> u32
        ensures { result ≡ self.now.shown.table }
    {
        self.table
    }

    /// Its first position.
    pub fn first(&self) -> u32
        ensures { result ≡ self.now.shown.first }
    {
        self.first
    }

    /// How many positions it has.
    pub fn len(&self) -> usize
        ensures { result ≡ length self.now.shown.places }
    {
        self.positions.len()
    }

    /// How many texts a row of it has at most: so many columns are of texts.
    pub fn texts(&self) -> usize
        ensures { result ≡ most_texts self.now.kinds }
    {
        self.positions.texts()
    }

    /// Makes room for so many more records. There is never less room, and all else stays, without memory too.
    pub fn reserve(&mut self, additional: usize) -> Result<(), AllocError>
        ensures all { self.new ≡ with_places self.old self.old.shown.places self.new.room }
        ensures ok { OnOk result (additional ≤ self.new.room) }
        ensures kept { self.old.room ≤ self.new.room }
        ensures err { OnErr result (self.old.room < additional) }
    {
        self.positions.reserve(additional)
    }

    /// Gives the own records of a transaction their commit time, and the rows of it that are gone their death time.
    pub fn stamp(&mut self, id: u64, time: u64)
        ensures all { self.new ≡ with_places self.old self.new.shown.places self.new.room }
        ensures places { Everywhere (AtOwn id (StampedPlace id time)) self.old.shown.places self.new.shown.places }
        ensures room { self.old.room ≤ self.new.room }
    {
        hy_undo::places_step();
        let part = self.positions.versioned_part();
        self.settled.reach(time);
        self.settled.look_for(id, part);
        let end = self.positions.len();
        let mut place = self.settled.next_uncommitted(0);
        while place < end {
            stamp_at(&mut self.positions, &mut self.settled, place, id, time);
            place = self.settled.next_uncommitted(place + 1);
        }
    }

    /// Puts back what the own records of a transaction say.
    pub fn undo(&mut self, id: u64)
        ensures all { self.new ≡ with_places self.old self.new.shown.places self.new.room }
        ensures places { Everywhere (AtOwn id (Undone id)) self.old.shown.places self.new.shown.places }
        ensures room { self.old.room ≤ self.new.room }
    {
        hy_undo::places_step();
        let part = self.positions.versioned_part();
        self.settled.look_for(id, part);
        let end = self.positions.len();
        let mut place = self.settled.next_uncommitted(0);
        while place < end {
            undo_at(
                &mut self.positions,
                &mut self.settled,
                place,
                id,
                &mut self.seen,
            );
            place = self.settled.next_uncommitted(place + 1);
        }
    }

    /// Prunes every chain by a cover.
    pub fn prune(&mut self, cover: &Cover)
        requires { AllByRecursion (λ place. Falls place.chain) self.old.shown.places }
        ensures all { self.new ≡ with_places self.old self.new.shown.places self.new.room }
        ensures places { Everywhere (Pruned cover.now) self.old.shown.places self.new.shown.places }
        ensures room { self.old.room ≤ self.new.room }
    {
        hy_undo::places_step();
        let part = self.positions.versioned_part();
        self.settled.look_below(watermark(cover), part);
        let end = self.positions.len();
        let mut emptied = false;
        let mut place = self.settled.next_unpruned(0);
        while place < end {
            emptied |= prune_at(&mut self.positions, &mut self.settled, place, cover);
            place = self.settled.next_unpruned(place + 1);
        }
        narrow_where(&mut self.positions, emptied);
    }

    /// Puts a first row into an unused position.
    pub fn load_at(&mut self, place: usize, row: &Row)
        requires within { place < length self.old.shown.places }
        requires unused { (nth self.old.shown.places place).used ≡ false }
        requires fits { FitsRow self.old.kinds row.now }
        ensures all { self.new ≡ with_places self.old
            (slice_set self.old.shown.places place (loaded_place row.now (nth self.old.shown.places place))) self.new.room }
        ensures room { self.old.room ≤ self.new.room }
    {
        self.positions.load_at(place, row);
    }

    /// Whether a viewer sees a row that has this value in a column, tried at each position.
    fn find_among_all(&mut self, viewer: &Viewer, column: u32, value: &Value) -> bool
        ensures found { result ≡ list_any (truth_at (Compare column Cmp.Eq (Side.Literal value.now))) (rows_seen viewer.now self.old.shown.places) }
        ensures all { self.new ≡ self.old }
    {
        for place in 0..self.positions.len() {
            self.positions.see(place, viewer, &mut self.seen);
            if has_value(&self.seen, column, value) {
                return true;
            }
        }
        false
    }

    /// Whether a viewer sees a row that has this value in a column.
    pub fn find_key(&mut self, viewer: &Viewer, column: u32, value: &Value) -> bool
        ensures found { result ≡ list_any (truth_at (Compare column Cmp.Eq (Side.Literal value.now))) (rows_seen viewer.now self.old.shown.places) }
        ensures all { self.new ≡ self.old }
    {
        if self.positions.is_key(column) {
            find_in(&self.positions, viewer, column, value, &mut self.seen)
        } else {
            self.find_among_all(viewer, column, value)
        }
    }

    /// Appends, position by position of a scan, what is wanted of the rows that a viewer sees, tried at each where its mask
    /// does not pass it. Err is for want of memory: then only the rows that were there before are there for certain.
    fn gather_by_row(
        &mut self,
        viewer: &Viewer,
        wanted: &Wanted,
        scan: &Scan,
        gathered: &mut Gathered,
    ) -> Result<(), AllocError>
        requires fits { (row : List Value) → FitsRow self.old.kinds row → length (projected wanted.now.columns row) ≡ gathered.old.width }
        requires mask { Admits (conjuncts wanted.now.pred.now) self.old.shown.places scan.now.mask.now }
        requires ordered { scan.now.part.first ≤ scan.now.part.end }
        requires within { scan.now.part.end ≤ length self.old.shown.places }
        ensures rows { OnOk result (gathered.new.rows ≡ gathered.old.rows
            ++ gathered_by wanted.now.columns (conditions_of wanted.now.pred.now wanted.now.keys)
            (rows_seen viewer.now (part_of scan.now.part.first scan.now.part.end self.old.shown.places))) }
        ensures err { OnErr result (take (length gathered.old.rows) gathered.new.rows ≡ gathered.old.rows) }
        ensures width { gathered.new.width ≡ gathered.old.width }
        ensures all { self.new ≡ self.old }
    {
        for place in scan.part.first..scan.part.end {
            if is_passed(&self.positions, place, wanted, scan.mask) {
                continue;
            }
            self.positions.see(place, viewer, &mut self.seen);
            keep(&self.seen, wanted, gathered)?;
        }
        Ok(())
    }

    /// Appends, position by position of a part, of the rows in place that a condition selects the wanted values, by a
    /// mask that tells which these are. Without memory nothing changes.
    fn gather_plain(
        &self,
        alloc: Global,
        wanted: &Wanted,
        mask: &Mask,
        part: Part,
        gathered: &mut Gathered,
    ) -> Result<(), AllocError>
        requires fits { (row : List Value) → FitsRow self.now.kinds row → length (projected wanted.now.columns row) ≡ gathered.old.width }
        requires admits { Admits (conjuncts wanted.now.pred.now) self.now.shown.places mask.now }
        requires confirms { Confirms (conjuncts wanted.now.pred.now) self.now.shown.places mask.now }
        requires ordered { part.first ≤ part.end }
        requires within { part.end ≤ length self.now.shown.places }
        ensures rows { OnOk result (gathered.new.rows ≡ gathered.old.rows ++ gathered_of wanted.now.columns wanted.now.pred.now
            (map in_place (part_of part.first part.end self.now.shown.places))) }
        ensures err { OnErr result (gathered.new.rows ≡ gathered.old.rows) }
        ensures width { gathered.new.width ≡ gathered.old.width }
    {
        if part.first == part.end {
            return Ok(());
        }
        self.positions.rows_fit();
        let columns = columns_in(alloc, wanted.columns, self.positions.width())?;
        let places = self.positions.plain_places(mask, part);
        gathered.add_placed(&self.positions, &places, columns.as_slice())
    }

    /// Appends, position by position, what is wanted without keys of the rows that a viewer sees, by a mask that tells
    /// of which rows in place the condition is true: where no record is, by column. Err is for want of memory: then
    /// only the rows that were there before are there for certain.
    fn gather_by_mask(
        &mut self,
        alloc: Global,
        viewer: &Viewer,
        wanted: &Wanted,
        mask: &Mask,
        gathered: &mut Gathered,
    ) -> Result<(), AllocError>
        requires fits { (row : List Value) → FitsRow self.old.kinds row → length (projected wanted.now.columns row) ≡ gathered.old.width }
        requires admits { Admits (conjuncts wanted.now.pred.now) self.old.shown.places mask.now }
        requires confirms { Confirms (conjuncts wanted.now.pred.now) self.old.shown.places mask.now }
        requires keys { wanted.now.keys ≡ None }
        ensures rows { OnOk result (gathered.new.rows ≡ gathered.old.rows
            ++ gathered_by wanted.now.columns (conditions_of wanted.now.pred.now wanted.now.keys) (rows_seen viewer.now self.old.shown.places)) }
        ensures err { OnErr result (take (length gathered.old.rows) gathered.new.rows ≡ gathered.old.rows) }
        ensures width { gathered.new.width ≡ gathered.old.width }
        ensures all { self.new ≡ self.old }
    {
        let versioned = self.positions.versioned_part();
        let before = Part {
            first: 0,
            end: versioned.first,
        };
        let behind = Part {
            first: versioned.end,
            end: self.positions.len(),
        };
        self.gather_plain(alloc, wanted, mask, before, gathered)?;
        let scan = Scan {
            part: versioned,
            mask,
        };
        self.gather_by_row(viewer, wanted, &scan, gathered)?;
        self.gather_plain(alloc, wanted, mask, behind, gathered)
    }

    /// Appends, position by position, what is wanted of the rows that a viewer sees, where a mask may pass positions.
    /// Err is for want of memory: then only the rows that were there before are there for certain.
    fn gather_admitted(
        &mut self,
        alloc: Global,
        viewer: &Viewer,
        wanted: &Wanted,
        gathered: &mut Gathered,
    ) -> Result<(), AllocError>
        requires { (row : List Value) → FitsRow self.old.kinds row → length (projected wanted.now.columns row) ≡ gathered.old.width }
        ensures rows { OnOk result (gathered.new.rows ≡ gathered.old.rows
            ++ gathered_by wanted.now.columns (conditions_of wanted.now.pred.now wanted.now.keys) (rows_seen viewer.now self.old.shown.places)) }
        ensures err { OnErr result (take (length gathered.old.rows) gathered.new.rows ≡ gathered.old.rows) }
        ensures width { gathered.new.width ≡ gathered.old.width }
        ensures all { self.new ≡ self.old }
    {
        let found = admitted(alloc, &self.positions, wanted.pred)?;
        if found.is_exact && wanted.keys.is_none() {
            return self.gather_by_mask(alloc, viewer, wanted, &found.mask, gathered);
        }
        let part = Part {
            first: 0,
            end: self.positions.len(),
        };
        let mask = &found.mask;
        self.gather_by_row(viewer, wanted, &Scan { part, mask }, gathered)
    }

    /// Appends, at these positions in turn, what is wanted of the rows that a viewer sees. Err is for want of memory:
    /// then only the rows that were there before are there for certain.
    fn gather_at(
        &mut self,
        viewer: &Viewer,
        wanted: &Wanted,
        places: &[u32],
        gathered: &mut Gathered,
    ) -> Result<(), AllocError>
        requires fits { (row : List Value) → FitsRow self.old.kinds row → length (projected wanted.now.columns row) ≡ gathered.old.width }
        requires within { (place : ℕ) → Contains places.now place → place < length self.old.shown.places }
        ensures rows { OnOk result (gathered.new.rows ≡ gathered.old.rows ++ flat_map
            (λ place. kept_by wanted.now.columns (conditions_of wanted.now.pred.now wanted.now.keys)
            (sees viewer.now (nth self.old.shown.places place))) places.now) }
        ensures err { OnErr result (take (length gathered.old.rows) gathered.new.rows ≡ gathered.old.rows) }
        ensures width { gathered.new.width ≡ gathered.old.width }
        ensures all { self.new ≡ self.old }
    {
        for i in 0..places.len() {
            self.positions
                .see(number_at(places, i) as usize, viewer, &mut self.seen);
            keep(&self.seen, wanted, gathered)?;
        }
        Ok(())
    }

    /// The positions at which something may be wanted, ascending, where the index tells them. Err is for want of
    /// memory.
    fn places_wanted(&self, alloc: Global, wanted: &Wanted) -> Result<Option<Vec<u32>>, AllocError>
        ensures { IfOk result (λ found. IfSome found (λ places. AreEnough wanted.now.columns (conditions_of wanted.now.pred.now wanted.now.keys)
            self.now.shown.places places.items)) }
    {
        let Some(key) = self.positions.key() else {
            return Ok(None);
        };
        if let Some(values) = keys_of(wanted, key) {
            return Ok(Some(self.positions.find_each(alloc, key, values)?));
        }
        match value_asked(wanted.pred, key) {
            Some(value) => Ok(Some(self.positions.find_used(alloc, key, value)?)),
            None => Ok(None),
        }
    }

    /// Appends, position by position, what is wanted of the rows that a viewer sees. Err is for want of memory: then
    /// only the rows that were there before are there for certain.
    fn gather_wanted(
        &mut self,
        alloc: Global,
        viewer: &Viewer,
        wanted: &Wanted,
        gathered: &mut Gathered,
    ) -> Result<(), AllocError>
        requires { (row : List Value) → FitsRow self.old.kinds row → length (projected wanted.now.columns row) ≡ gathered.old.width }
        ensures rows { OnOk result (gathered.new.rows ≡ gathered.old.rows
            ++ gathered_by wanted.now.columns (conditions_of wanted.now.pred.now wanted.now.keys) (rows_seen viewer.now self.old.shown.places)) }
        ensures err { OnErr result (take (length gathered.old.rows) gathered.new.rows ≡ gathered.old.rows) }
        ensures width { gathered.new.width ≡ gathered.old.width }
        ensures all { self.new ≡ self.old }
    {
        match self.places_wanted(alloc, wanted)? {
            Some(places) => self.gather_at(viewer, wanted, places.as_slice(), gathered),
            None => self.gather_admitted(alloc, viewer, wanted, gathered),
        }
    }

    /// Appends, position by position, what is wanted of the rows that a viewer sees. Err is for want of memory, and
    /// appends nothing.
    fn gather_whole(
        &mut self,
        alloc: Global,
        viewer: &Viewer,
        wanted: &Wanted,
        gathered: &mut Gathered,
    ) -> Result<(), AllocError>
        requires { (row : List Value) → FitsRow self.old.kinds row → length (projected wanted.now.columns row) ≡ gathered.old.width }
        ensures rows { OnOk result (gathered.new.rows ≡ gathered.old.rows
            ++ gathered_by wanted.now.columns (conditions_of wanted.now.pred.now wanted.now.keys) (rows_seen viewer.now self.old.shown.places)) }
        ensures err { OnErr result (gathered.new ≡ gathered.old) }
        ensures width { gathered.new.width ≡ gathered.old.width }
        ensures all { self.new ≡ self.old }
    {
        let before = gathered.len();
        let result = self.gather_wanted(alloc, viewer, wanted, gathered);
        if result.is_err() {
            gathered.truncate(before);
        }
        result
    }

    /// Appends, position by position, of the rows that a viewer sees and a condition selects the values in a set of
    /// columns. Err is for want of memory, and appends nothing.
    pub fn gather(
        &mut self,
        alloc: Global,
        viewer: &Viewer,
        pred: &Pred,
        columns: ColMask,
        gathered: &mut Gathered,
    ) -> Result<(), AllocError>
        requires { (row : List Value) → FitsRow self.old.kinds row → length (projected columns row) ≡ gathered.old.width }
        ensures rows { OnOk result (gathered.new.rows ≡ gathered.old.rows ++ gathered_of columns pred.now (rows_seen viewer.now self.old.shown.places)) }
        ensures err { OnErr result (gathered.new ≡ gathered.old) }
        ensures width { gathered.new.width ≡ gathered.old.width }
        ensures all { self.new ≡ self.old }
    {
        conditions_gather_rows();
        let wanted = Wanted {
            pred,
            keys: None,
            columns,
        };
        self.gather_whole(alloc, viewer, &wanted, gathered)
    }

    /// Appends, position by position, of the rows that a viewer sees, a condition selects and one of the keys finds
    /// the values in a set of columns; more than 1,024 keys find every row. Err is for want of memory, and appends
    /// nothing.
    pub fn gather_keys(
        &mut self,
        alloc: Global,
        viewer: &Viewer,
        sought: &Sought,
        gathered: &mut Gathered,
    ) -> Result<(), AllocError>
        requires { (row : List Value) → FitsRow self.old.kinds row → length (projected sought.now.columns row) ≡ gathered.old.width }
        ensures rows { OnOk result (gathered.new.rows ≡ gathered.old.rows ++ gathered_by sought.now.columns
            (by_key_of sought.now.pred.now sought.now.keys.column sought.now.keys.values.now) (rows_seen viewer.now self.old.shown.places)) }
        ensures err { OnErr result (gathered.new ≡ gathered.old) }
        ensures width { gathered.new.width ≡ gathered.old.width }
        ensures all { self.new ≡ self.old }
    {
        let wanted = Wanted {
            pred: sought.pred,
            keys: Some(sought.keys),
            columns: sought.columns,
        };
        self.gather_whole(alloc, viewer, &wanted, gathered)
    }

    /// The least position that may take a new row from a watermark on, or how many there are.
    fn first_free(&self, watermark: u64) -> usize
        ensures least { result ≡ least_free watermark self.now.shown.places }
        ensures within { result ≤ length self.now.shown.places }
    {
        let end = self.positions.len();
        let mut place = self.positions.next_vacant(0);
        while place < end {
            if self.positions.is_free(place, watermark) {
                return place;
            }
            place = self.positions.next_vacant(place + 1);
        }
        end
    }

    /// Whether no position may take a new row, whatever the watermark is, seen without a look at the positions. No clause
    /// says that it is seen wherever it is so.
    pub fn is_full(&self) -> bool
        ensures { result ≡ true → (watermark : ℕ) → least_free watermark self.now.shown.places ≡ length self.now.shown.places }
    {
        self.positions.is_full()
    }

    /// Whether pruning by a cover changes nothing, seen without a look at the positions. No clause says that it is seen
    /// wherever it is so.
    pub fn is_pruned(&self, cover: &Cover) -> bool
        requires { AllByRecursion (λ place. Falls place.chain) self.now.shown.places }
        ensures { result ≡ true → Everywhere (Pruned cover.now) self.now.shown.places self.now.shown.places }
    {
        hy_undo::places_step();
        self.settled.is_below(watermark(cover))
    }

    /// Puts a new row at the least position that may take it, notes it, and answers the position. It fails only where
    /// no position may, and then changes nothing. It takes no memory.
    pub fn place(
        &mut self,
        viewer: &Viewer,
        label: Label,
        cover: &Cover,
        row: &Row,
        changes: &mut Changes,
    ) -> Result<u32, NoRoom>
        requires fits { FitsRow self.old.kinds row.now }
        requires room { 0 < self.old.room }
        requires notes { 0 < changes.old.room }
        requires wide { length self.old.kinds ≤ changes.old.width }
        requires long { most_texts self.old.kinds ≤ changes.old.texts }
        ensures pos { IfOk result (λ pos. pos ≡ self.old.shown.first + least_free (watermark_of cover.now) self.old.shown.places) }
        ensures there { OnOk result (least_free (watermark_of cover.now) self.old.shown.places < length self.old.shown.places) }
        ensures all { self.new ≡ with_places self.old self.new.shown.places self.new.room }
        ensures places { OnOk result (IsPut (least_free (watermark_of cover.now) self.old.shown.places)
            (Placed viewer.now label (watermark_of cover.now) row.now) self.old.shown.places self.new.shown.places) }
        ensures noted { IfOk result (λ pos. changes.new.notes
            ≡ with_note (record { table = self.old.shown.table; pos = pos; before = None; after = Some row.now }) changes.old.notes) }
        ensures levels { IfOk result (λ pos. changes.new.levels
            ≡ map (with_note (record { table = self.old.shown.table; pos = pos; before = None; after = Some row.now })) changes.old.levels) }
        ensures none { OnErr result (least_free (watermark_of cover.now) self.old.shown.places ≡ length self.old.shown.places) }
        ensures kept { OnErr result ((self.new ≡ self.old) × (changes.new ≡ changes.old)) }
        ensures room { self.old.room ≤ self.new.room + 1 }
        ensures notes_room { changes.old.room ≤ changes.new.room + 1 }
        ensures notes_width { changes.new.width ≡ changes.old.width }
        ensures notes_texts { changes.new.texts ≡ changes.old.texts }
    {
        let place = self.first_free(watermark(cover));
        if place == self.positions.len() {
            return Err(NoRoom);
        }
        self.positions.place_at(place, viewer, label, row);
        self.settled.touch(place);
        let pos = self.first + place as u32;
        changes.note_reserved(self.table, pos, None, Some(row));
        Ok(pos)
    }

    /// Whether no used position has this key, as the index tells: nobody sees a row with it. No clause says that it is told
    /// wherever it is so.
    pub fn lacks_key(&self, column: u32, value: ValueRef<'_>) -> bool
        ensures { result ≡ true → AreFound column (referred value.entry) self.now.shown.places [] }
    {
        self.positions.is_key(column) && self.positions.find(column, value).len() == 0
    }

    /// The positions, ascending, at which a condition may select a row, where the index tells them. Err is for want of
    /// memory.
    fn find_by_key(&self, alloc: Global, pred: &Pred) -> Result<Option<Vec<u32>>, AllocError>
        ensures { IfOk result (λ found. IfSome found (λ places. AreCandidates pred.now self.now.shown.key self.now.shown.places places.items)) }
    {
        let Some(key) = self.positions.key() else {
            return Ok(None);
        };
        match value_asked(pred, key) {
            Some(value) => Ok(Some(self.positions.find_used(alloc, key, value)?)),
            None => Ok(None),
        }
    }

    /// The positions, ascending, at which a condition may select a row, as masks tell them. Err is for want of memory.
    fn find_by_mask(&mut self, alloc: Global, pred: &Pred) -> Result<Vec<u32>, AllocError>
        ensures found { IfOk result (λ found. AreCandidates pred.now self.old.shown.key self.old.shown.places found.items) }
        ensures all { self.new ≡ self.old }
    {
        let admission = admitted(alloc, &self.positions, pred)?;
        let mut found = Vec::new(alloc);
        for place in 0..self.positions.len() {
            if may_select(&self.positions, place, pred, &admission, &mut self.seen) {
                found.push(place as u32)?;
            }
        }
        Ok(found)
    }

    /// The positions, ascending, at which a condition may select a row, whoever looks: those that a write needs room
    /// for. How few they are no clause says. Err is for want of memory.
    pub fn find_candidates(&mut self, pred: &Pred) -> Result<Vec<u32>, AllocError>
        ensures found { IfOk result (λ found. AreCandidates pred.now self.old.shown.key self.old.shown.places found.items) }
        ensures all { self.new ≡ self.old }
    {
        let alloc = self.positions.allocator();
        match self.find_by_key(alloc, pred)? {
            Some(places) => Ok(places),
            None => self.find_by_mask(alloc, pred),
        }
    }

    /// Why a write is refused, if it is: the first refusal, position by position.
    fn refusal(&mut self, sweep: &Sweep) -> Option<Refusal>
        requires { AreCandidates sweep.now.pred.now self.old.shown.key self.old.shown.places sweep.now.places.now }
        ensures refusal { result ≡ refusal_in
            (swept (sets_of sweep.now.kind) sweep.now.pred.now sweep.now.viewer.now self.old.shown.first self.old.shown.places) }
        ensures all { self.new ≡ self.old }
    {
        self.positions.keys_stay();
        for i in 0..sweep.places.len() {
            let number = number_at(sweep.places, i);
            let place = number as usize;
            self.positions.see(place, sweep.viewer, &mut self.seen);
            let rival = self.positions.rival(place, sweep.viewer);
            let pos = self.first + number;
            if let Some(refusal) = refusal_at(&self.seen, sweep.pred, sweep.kind, rival, pos) {
                return Some(refusal);
            }
        }
        None
    }

    /// Writes and notes each position that is selected, and answers how many they are.
    fn write_all(&mut self, sweep: &Sweep, label: Label, changes: &mut Changes) -> u32
        requires candidates { AreCandidates sweep.now.pred.now self.old.shown.key self.old.shown.places sweep.now.places.now }
        requires ok { refusal_in
            (swept (sets_of sweep.now.kind) sweep.now.pred.now sweep.now.viewer.now self.old.shown.first self.old.shown.places) ≡ None }
        requires room { length sweep.now.places.now ≤ self.old.room }
        requires notes { length sweep.now.places.now ≤ changes.old.room }
        requires wide { length self.old.kinds ≤ changes.old.width }
        requires long { most_texts self.old.kinds ≤ changes.old.texts }
        requires fits { FitsWrite self.old.kinds self.old.shown.key sweep.now.kind }
        ensures all { self.new ≡ with_places self.old self.new.shown.places self.new.room }
        ensures done { IsDone sweep.now.viewer.now label self.old.shown.table self.old.shown.first
            (swept (sets_of sweep.now.kind) sweep.now.pred.now sweep.now.viewer.now self.old.shown.first self.old.shown.places)
            self.old.shown.places self.new.shown.places changes.old.notes changes.new.notes result }
        ensures levels { changes.new.levels ≡ map (notes_with self.old.shown.table self.old.shown.first sweep.now.viewer.now
            (swept (sets_of sweep.now.kind) sweep.now.pred.now sweep.now.viewer.now self.old.shown.first self.old.shown.places)
            self.old.shown.places) changes.old.levels }
        ensures room { self.old.room ≤ self.new.room + length sweep.now.places.now }
        ensures notes_room { changes.old.room ≤ changes.new.room + length sweep.now.places.now }
        ensures notes_width { changes.new.width ≡ changes.old.width }
        ensures notes_texts { changes.new.texts ≡ changes.old.texts }
    {
        self.positions.keys_stay();
        let mut written = 0;
        for i in 0..sweep.places.len() {
            let number = number_at(sweep.places, i);
            let place = number as usize;
            self.positions.see(place, sweep.viewer, &mut self.seen);
            if !is_selected(&self.seen, sweep.pred) {
                continue;
            }
            make_next(sweep.kind, &self.seen.row, &mut self.next);
            self.positions
                .write_at(place, sweep.viewer, label, &self.next);
            self.settled.touch(place);
            let pos = self.first + number;
            note(changes, self.table, pos, &self.seen.row, &self.next);
            written += 1;
        }
        written
    }

    /// Does an UPDATE or a DELETE: it writes and notes each position whose row the viewer sees and the condition
    /// selects, and answers how many they are. It fails with the first refusal, position by position, and then
    /// changes nothing. It takes no memory.
    pub fn write(
        &mut self,
        sweep: &Sweep,
        label: Label,
        changes: &mut Changes,
    ) -> Result<u32, Refusal>
        requires candidates { AreCandidates sweep.now.pred.now self.old.shown.key self.old.shown.places sweep.now.places.now }
        requires room { length sweep.now.places.now ≤ self.old.room }
        requires notes { length sweep.now.places.now ≤ changes.old.room }
        requires wide { length self.old.kinds ≤ changes.old.width }
        requires long { most_texts self.old.kinds ≤ changes.old.texts }
        requires fits { FitsWrite self.old.kinds self.old.shown.key sweep.now.kind }
        ensures all { self.new ≡ with_places self.old self.new.shown.places self.new.room }
        ensures done { IfOk result (λ count. IsDone sweep.now.viewer.now label self.old.shown.table self.old.shown.first
            (swept (sets_of sweep.now.kind) sweep.now.pred.now sweep.now.viewer.now self.old.shown.first self.old.shown.places)
            self.old.shown.places self.new.shown.places changes.old.notes changes.new.notes count) }
        ensures levels { OnOk result (changes.new.levels ≡ map (notes_with self.old.shown.table self.old.shown.first sweep.now.viewer.now
            (swept (sets_of sweep.now.kind) sweep.now.pred.now sweep.now.viewer.now self.old.shown.first self.old.shown.places)
            self.old.shown.places) changes.old.levels) }
        ensures refused { IfErr result (λ refusal. Some refusal ≡ refusal_in
            (swept (sets_of sweep.now.kind) sweep.now.pred.now sweep.now.viewer.now self.old.shown.first self.old.shown.places)) }
        ensures kept { OnErr result ((self.new ≡ self.old) × (changes.new ≡ changes.old)) }
        ensures room { self.old.room ≤ self.new.room + length sweep.now.places.now }
        ensures notes_room { changes.old.room ≤ changes.new.room + length sweep.now.places.now }
        ensures notes_width { changes.new.width ≡ changes.old.width }
        ensures notes_texts { changes.new.texts ≡ changes.old.texts }
    {
        match self.refusal(sweep) {
            Some(refusal) => Err(refusal),
            None => Ok(self.write_all(sweep, label, changes)),
        }
    }

    /// Puts back at the position of a note, which the viewer has written, what was there before, a row or none, and notes
    /// that. It takes no memory.
    pub fn write_back(
        &mut self,
        viewer: &Viewer,
        label: Label,
        since: &Change,
        changes: &mut Changes,
    )
        requires first { self.old.shown.first ≤ since.now.pos }
        requires within { since.now.pos < self.old.shown.first + length self.old.shown.places }
        requires may { MayGoBack self.old.kinds self.old.shown.key viewer.now.id since.now.before
            (nth self.old.shown.places (since.now.pos - self.old.shown.first)) }
        requires room { 0 < self.old.room }
        requires notes { 0 < changes.old.room }
        requires wide { length self.old.kinds ≤ changes.old.width }
        requires long { most_texts self.old.kinds ≤ changes.old.texts }
        ensures all { self.new ≡ with_places self.old self.new.shown.places self.new.room }
        ensures places { IsPut (since.now.pos - self.old.shown.first) (Written viewer.now label since.now.before)
            self.old.shown.places self.new.shown.places }
        ensures noted { changes.new.notes ≡ with_note (change_back viewer.now self.old.shown since.now) changes.old.notes }
        ensures levels { changes.new.levels ≡ map (with_note (change_back viewer.now self.old.shown since.now)) changes.old.levels }
        ensures room { self.old.room ≤ self.new.room + 1 }
        ensures notes_room { changes.old.room ≤ changes.new.room + 1 }
        ensures notes_width { changes.new.width ≡ changes.old.width }
        ensures notes_texts { changes.new.texts ≡ changes.old.texts }
    {
        let place = (since.pos - self.first) as usize;
        self.positions.see(place, viewer, &mut self.seen);
        put_cell(&since.before, &mut self.next);
        let before = row_of(&self.seen);
        let after = row_of(&self.next);
        changes.note_reserved(self.table, since.pos, before, after);
        self.positions
            .back_at(place, viewer, label, &self.next, &mut self.seen);
        self.settled.touch(place);
    }
}
