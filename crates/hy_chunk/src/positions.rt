//! The positions of a chunk.

ghost use Rattle.std.specs.Prelude.{◌≡◌, ◌+◌, ◌<◌, ◌≤◌, ◌&&◌, ◌||◌, ◌==◌, ◌^◌, nat_le, nat_lt, not as negated, IfOk};
ghost use Rattle.std.specs.Prelude.{OnOk, OnErr, length, replicate, slice_set, vec_len, map, true, ℕ, slice_index_or, [], ◌∷◌};
ghost use Rattle.std.specs.Prelude.{if◌then◌else◌};
ghost use Rattle.std.specs.Prelude.{◌++◌, Contains, List, false};
ghost use Rattle.hy_column.specs.Compared.{column_compared};
ghost use Rattle.hy_value.specs.declared.Kind.{Kind};
ghost use Rattle.std.specs.List.{AllByRecursion};
ghost use Rattle.std.specs.List.Sorted.{IsStrictlyIncreasing};
ghost use Rattle.hy_value.specs.Refs.{referred};
ghost use Rattle.hy_value.specs.declared.Value.{Value};
ghost use Rattle.hy_chain.specs.Chains.{newest as newest_of, rival, seen as seen_through, without_own};
ghost use Rattle.hy_undo.specs.Images.{before};
ghost use Rattle.hy_undo.specs.Places.{cell_of, is_free, is_older};
ghost use Rattle.hy_undo.specs.Chunks.{is_own, Placed, Written};
ghost use Rattle.hy_undo.specs.Steps.{pruned_place, stamped_place, undone_place};
ghost use Rattle.hy_chunk.specs.Fields.{blank_place, nth};
ghost use Rattle.hy_chunk.specs.Parts.{places_set};
ghost use Rattle.hy_chunk.specs.Ranged.{Covers, NoneOutside};
ghost use Rattle.hy_chunk.specs.Keyed.{AreFound, HaveUsed, KeysStay, SameKey, is_key_of};
ghost use Rattle.hy_chunk.specs.Sound.{AreReady, FitsRow, blank_image};
ghost use Rattle.hy_column.specs.Cells.{texts_of};
ghost use Rattle.hy_chunk.specs.Noting.{own_stamp, own_or_blank};
ghost use Rattle.hy_chunk.specs.Steps.{loaded_place, IsPut, NoneFree};
ghost use Rattle.hy_chunk.specs.Backing.{emptied_place, MayGoBack};

use crate::lookup::{keep_key, new_index, put_key};
use crate::marks::Marks;
use crate::rows::{exchange_row, put_row};
use hy_chain::{Chains, Image};
use hy_column::Columns;
use hy_index::{Found, KeyIndex};
use hy_kernel::Mask;
use hy_plan::{PlacedRows, Places};
use hy_prune::Cover;
use hy_range::Versioned;
use hy_stamp::{Label, Stamp, Viewer};
use hy_undo::{Delta, Spares, Version};
use hy_value::{Cmp, Kind, Row, Value, ValueRef};
use std::alloc::{AllocError, Global};
use std::marker::Model;

/// The positions of a chunk: by column the rows in place, and beside them which rows are there, which positions
/// are used, since when their rows are gone, and the chains of the versions before. Contracts see them position by
/// position.
#[derive(Drop)]
pub struct Positions {
    columns: Columns,
    live: Vec<bool>,
    used: Vec<bool>,
    deaths: Vec<u64>,
    chains: Chains<Delta>,
    /// Blank before-images, so that a write needs no memory.
    spare: Spares,
    /// A bit for each position, set where it is unused or no row is in place: no other may take a new row.
    vacant: Marks,
    /// Where there may be records: elsewhere only the columns are looked at.
    versioned: Versioned,
    /// The column that is the key, if there is one, and the keys in place of the used positions.
    key: Option<u32>,
    index: KeyIndex,
}

impl Model for Positions {
    ghost use Rattle.std.specs.Prelude.{min};
    ghost use Rattle.hy_chunk.specs.Views.{Held, held_code};
    ghost use Rattle.hy_chunk.specs.Fields.{places_of};
    ghost use Rattle.hy_chunk.specs.Held.{IsHeld};

    ghost Value = { Held };

    ghost coded = { held_code };

    ghost view = { λ a. record {
      kinds = a.columns.kinds;
      key = a.key;
      places = places_of a.columns.rows a.live.items a.used.items a.deaths.items a.chains.chains;
      room = min a.chains.room a.spare.count;
    } };

    ghost invariant = { λ a. IsHeld a.columns.kinds a.columns.rows a.live.items a.used.items a.deaths.items
        a.chains.chains a.spare a.vacant a.versioned a.key a.index };
}

/// The positions from `first` up to, and without, `end`.
#[derive(Clone, Copy)]
pub struct Part {
    /// The first position.
    pub first: usize,
    /// One past the last position.
    pub end: usize,
}

/// The positions of a part for which a mask has its bit set and a row is in place, in order. Contracts see the list of them.
#[derive(Drop)]
pub struct PlainPlaces<'a> {
    mask: &'a Mask,
    /// Where no row is in place.
    vacant: &'a Mask,
    part: Part,
}

impl<'a> Model for PlainPlaces<'a> {
    ghost use Rattle.std.specs.Prelude.{List, ℕ};
    ghost use Rattle.hy_kernel.specs.Bits.{places_without};
    ghost use Rattle.hy_chunk.specs.Parts.{IsCovered};

    ghost Value = { List ℕ };

    ghost view = { λ a. places_without a.mask.now a.vacant.now a.part.first a.part.end };

    ghost invariant = { λ a. IsCovered a.mask.now a.vacant.now a.part.end };
}

impl Places for PlainPlaces<'_> {
    ghost places = { λ places. places };

    fn list(&self, alloc: Global) -> Result<Vec<u32>, AllocError> {
        self.mask
            .places_without(self.vacant, alloc, self.part.first, self.part.end)
    }

    fn pick(&self, alloc: Global, numbers: &[i64]) -> Result<Vec<i64>, AllocError> {
        self.mask.pick_without(self.vacant, alloc, numbers, self.part.first, self.part.end)
    }
}

impl PlacedRows for Positions {
    ghost use Rattle.std.specs.Prelude.{map};

    ghost rows = { λ positions. map (λ place. place.version.row) positions.places };

    fn refer(&self, place: usize, column: usize) -> ValueRef<'_> {
        self.columns.refer(place, column)
    }

    fn numbers(&self, column: usize) -> Option<&[i64]> {
        if column < self.columns.width() {
            self.columns.numbers(column)
        } else {
            None
        }
    }
}

/// Puts a flag at a place.
fn put_flag(flags: &mut Vec<bool>, place: usize, flag: bool)
    requires { place < vec_len flags.old }
    ensures { flags.new.items ≡ slice_set flags.old.items place flag }
{
    flags[place] = flag;
}

/// Puts a time at a place.
fn put_time(times: &mut Vec<u64>, place: usize, time: u64)
    requires { place < vec_len times.old }
    ensures { times.new.items ≡ slice_set times.old.items place time }
{
    times[place] = time;
}

/// The death time of a position after a stamp.
fn death_after(newest: Option<Stamp>, id: u64, live: bool, death: u64, time: u64) -> u64
    ensures { result ≡ (if is_own id newest then (if live then death else time) else death) }
{
    match newest {
        Some(stamp) if stamp.mark == id => { if live { death } else { time } }
        _ => death,
    }
}

/// Whether a position is used still after an undo: a row was there before, or it had one that went.
fn used_after(used: bool, was_live: bool, death: u64) -> bool
    ensures { result ≡ (used && (was_live || negated (death == 0))) }
{
    used && (was_live || death != 0)
}

/// Whether a position may take a new row now or later: it is unused, or no row is in place.
fn is_vacant(used: bool, live: bool) -> bool
    ensures { result ≡ negated (used && live) }
{
    !(used && live)
}

/// Whether a position may take a new row, by what is known of it.
fn free_by(used: bool, live: bool, is_older: bool, is_dead: bool) -> bool
    ensures { result ≡ (negated used || (negated live && (is_older && is_dead))) }
{
    !used || (!live && is_older && is_dead)
}

/// Whether a place is of a range.
fn is_in(range: Versioned, place: usize) -> bool
    ensures { result ≡ (nat_le range.first place && nat_lt place range.end) }
{
    range.first as usize <= place && place < range.end as usize
}

/// Makes blank before-images until there are so many. Err is for want of memory.
fn add_images(spare: &mut Spares, count: usize) -> Result<(), AllocError>
    ensures ready { (kinds : List Kind) → AreReady kinds spare.old → AreReady kinds spare.new }
    ensures ok { OnOk result (count ≤ spare.new.count) }
    ensures kept { spare.old.count ≤ spare.new.count }
    ensures err { OnErr result (spare.old.count < count) }
{
    spare.reserve(count)
}

/// The writer's own stamp where it is the newest, else a new one.
fn stamp_over(newest: Option<Stamp>, label: Label, id: u64) -> Stamp
    ensures { result ≡ own_stamp label id newest }
{
    match newest {
        Some(stamp) if stamp.mark == id => stamp,
        _ => Stamp {
            owner: label,
            mark: id,
        },
    }
}

/// Takes a spare before-image out. The places for its texts are free then.
fn take_spare(spare: &mut Spares) -> Delta
    requires { 0 < spare.old.count }
    ensures image { (kinds : List Kind) → AreReady kinds spare.old → result ≡ blank_image (length kinds) }
    ensures ready { (kinds : List Kind) → AreReady kinds spare.old → AreReady kinds spare.new }
    ensures free { (kinds : List Kind) → AreReady kinds spare.old → texts_of kinds ≤ spare.new.free }
    ensures left { spare.old.count ≡ spare.new.count + 1 }
{
    spare.take()
}

/// Takes the writer's own before-image out of its chain, where it is the newest; else a spare one, which says that a
/// row was there. A spare one goes in each case, so that there are free places for the texts that are noted.
fn take_image(chains: &mut Chains<Delta>, spare: &mut Spares, place: usize, id: u64) -> Delta
    requires within { place < length chains.old.chains }
    requires room { 0 < chains.old.room }
    requires some { 0 < spare.old.count }
    ensures image { (kinds : List Kind) → AreReady kinds spare.old → result ≡ own_or_blank (length kinds) id (slice_index_or chains.old.chains place []) }
    ensures ready { (kinds : List Kind) → AreReady kinds spare.old → AreReady kinds spare.new }
    ensures free { (kinds : List Kind) → AreReady kinds spare.old → texts_of kinds ≤ spare.new.free }
    ensures chains { chains.new.chains ≡ slice_set chains.old.chains place (without_own id (slice_index_or chains.old.chains place [])) }
    ensures kept { chains.old.room ≤ chains.new.room }
    ensures left { spare.old.count ≤ spare.new.count + 1 }
{
    let mut image = take_spare(spare);
    match chains.pop_own(place, id) {
        Some(own) => own,
        None => {
            image.set_live(true);
            image
        }
    }
}

/// Puts a record in front of a chain, and its position into the range, which has all that have a record then.
fn push_covered(
    chains: &mut Chains<Delta>,
    versioned: &mut Versioned,
    place: usize,
    stamp: Stamp,
    image: Delta,
)
    requires within { place < length chains.old.chains }
    requires numbered { place + 1 < 2 ^ 32 }
    requires room { 0 < chains.old.room }
    ensures chains { chains.new.chains ≡ slice_set chains.old.chains place
        (record { stamp = stamp; image = image } ∷ slice_index_or chains.old.chains place []) }
    ensures room { chains.old.room ≤ chains.new.room + 1 }
    ensures covered { Covers versioned.old chains.old.chains → Covers versioned.new chains.new.chains }
{
    hy_range::ranges_widen();
    chains.push_reserved(place, stamp, image);
    versioned.cover(place as u32);
}

/// Adds positions that are found.
fn add_places(places: &Found<'_>, found: &mut Vec<u32>) -> Result<(), AllocError>
    ensures { OnOk result (found.new.items ≡ found.old.items ++ places.now) }
{
    for i in 0..places.len() {
        found.push(places.at(i))?;
    }
    Ok(())
}

/// Puts numbers in order, each of them once.
fn sort_once(numbers: &mut Vec<u32>)
    ensures ascends { IsStrictlyIncreasing numbers.new.items }
    ensures keeps { (number : ℕ) → Contains numbers.old.items number → Contains numbers.new.items number }
    ensures adds_none { (number : ℕ) → Contains numbers.new.items number → Contains numbers.old.items number }
{
    // Most often there is one at most.
    if numbers.len() < 2 {
        return;
    }
    numbers.sort_unstable();
    numbers.dedup();
}

impl Positions {
    /// So many unused positions, with columns of these types. Err is for want of memory.
    pub fn new(
        alloc: Global,
        kinds: &[Kind],
        rows: usize,
        key: Option<u32>,
    ) -> Result<Positions, AllocError>
        requires { rows < 2 ^ 32 }
        ensures kinds { IfOk result (λ made. made.kinds ≡ kinds.now) }
        ensures key { IfOk result (λ made. made.key ≡ key) }
        ensures places { IfOk result (λ made. made.places ≡ replicate rows (blank_place kinds.now)) }
    {
        let columns = Columns::new(alloc, kinds, rows)?;
        let live = vec![in alloc; false; rows]?;
        let used = vec![in alloc; false; rows]?;
        let deaths = vec![in alloc; 0u64; rows]?;
        let chains = Chains::new(alloc, rows)?;
        let index = new_index(alloc, kinds, key, rows)?;
        let vacant = Marks::all(alloc, rows)?;
        let spare = Spares::new(alloc, kinds.len(), columns.texts());
        Ok(Positions {
            columns,
            live,
            used,
            deaths,
            chains,
            spare,
            vacant,
            versioned: Versioned::none(),
            key,
            index,
        })
    }

    /// The allocator of what it allocates.
    pub fn allocator(&self) -> Global {
        self.spare.allocator()
    }

    /// How many positions there are.
    pub fn len(&self) -> usize
        ensures { result ≡ length self.now.places }
    {
        self.live.len()
    }

    /// The column that is the key, if there is one.
    pub fn key(&self) -> Option<u32>
        ensures { result ≡ self.now.key }
    {
        self.key
    }

    /// How many columns there are.
    pub fn width(&self) -> usize
        ensures { result ≡ length self.now.kinds }
    {
        self.columns.width()
    }

    /// How many columns are of texts.
    pub fn texts(&self) -> usize
        ensures { result ≡ texts_of self.now.kinds }
    {
        self.columns.texts()
    }

    /// Makes room for so many more records. There is never less room, and the positions stay, without memory too.
    pub fn reserve(&mut self, additional: usize) -> Result<(), AllocError>
        ensures kinds { self.new.kinds ≡ self.old.kinds }
        ensures key { self.new.key ≡ self.old.key }
        ensures places { self.new.places ≡ self.old.places }
        ensures ok { OnOk result (additional ≤ self.new.room) }
        ensures kept { self.old.room ≤ self.new.room }
        ensures err { OnErr result (self.old.room < additional) }
    {
        self.chains.reserve(additional)?;
        add_images(&mut self.spare, additional)
    }

    /// Prunes the chain of a position by a cover.
    pub fn prune_at(&mut self, place: usize, cover: &Cover)
        requires { place < length self.old.places }
        ensures kinds { self.new.kinds ≡ self.old.kinds }
        ensures key { self.new.key ≡ self.old.key }
        ensures places { self.new.places ≡ slice_set self.old.places place (pruned_place cover.now (nth self.old.places place)) }
        ensures room { self.old.room ≤ self.new.room }
    {
        self.chains.prune(place, cover);
    }

    /// Makes the range of the positions that may have records as small as the records allow.
    pub fn narrow(&mut self)
        ensures { self.new ≡ self.old }
    {
        hy_range::ranges_widen();
        let mut left = Versioned::none();
        let end = (self.versioned.end as usize).min(self.live.len());
        for place in self.versioned.first as usize..end {
            if self.chains.head(place).is_some() {
                left.cover(place as u32);
            }
        }
        self.versioned = left;
    }

    /// Gives the newest record of a position its commit time, where it is of this identifier, and a row that is
    /// gone its death time.
    pub fn stamp_at(&mut self, place: usize, id: u64, time: u64)
        requires { place < length self.old.places }
        ensures kinds { self.new.kinds ≡ self.old.kinds }
        ensures key { self.new.key ≡ self.old.key }
        ensures places { self.new.places ≡ slice_set self.old.places place (stamped_place id time (nth self.old.places place)) }
        ensures room { self.old.room ≤ self.new.room }
    {
        let newest = self.chains.head(place);
        let death = death_after(newest, id, self.live[place], self.deaths[place], time);
        put_time(&mut self.deaths, place, death);
        self.chains.stamp_own(place, id, time);
    }

    /// Puts the newest before-image of a position back, where it is of this identifier. `version` is a scratch one of
    /// as many columns.
    pub fn undo_at(&mut self, place: usize, id: u64, version: &mut Version)
        requires within { place < length self.old.places }
        requires width { length version.old.row ≡ length self.old.kinds }
        ensures kinds { self.new.kinds ≡ self.old.kinds }
        ensures key { self.new.key ≡ self.old.key }
        ensures places { self.new.places ≡ slice_set self.old.places place (undone_place id (nth self.old.places place)) }
        ensures room { self.old.room ≤ self.new.room }
        ensures width { length version.new.row ≡ length self.old.kinds }
    {
        let Some(image) = self.chains.pop_own(place, id) else {
            return;
        };
        self.columns.read(place, &mut version.row);
        image.apply(version);
        let used = used_after(self.used[place], version.live, self.deaths[place]);
        keep_key(
            &mut self.index,
            self.key,
            &self.columns,
            self.used.as_slice(),
            place,
            used,
        );
        put_row(&mut self.columns, place, &version.row);
        put_flag(&mut self.live, place, version.live);
        put_flag(&mut self.used, place, used);
        self.vacant.set(place, is_vacant(used, version.live));
    }

    /// Puts a row into an unused position, without a record.
    pub fn load_at(&mut self, place: usize, row: &Row)
        requires within { place < length self.old.places }
        requires fits { FitsRow self.old.kinds row.now }
        ensures kinds { self.new.kinds ≡ self.old.kinds }
        ensures key { self.new.key ≡ self.old.key }
        ensures places { self.new.places ≡ slice_set self.old.places place (loaded_place row.now (nth self.old.places place)) }
        ensures room { self.old.room ≤ self.new.room }
    {
        put_key(
            &mut self.index,
            self.key,
            &self.columns,
            self.used.as_slice(),
            place,
            row,
        );
        put_row(&mut self.columns, place, row);
        put_flag(&mut self.live, place, true);
        put_flag(&mut self.used, place, true);
        self.vacant.set(place, false);
    }

    /// Puts another version in place of a row that is there, or of what the writer left there, over a record of the writer
    /// that says what was there before: its own where that is the newest, else a new one, for which there is room.
    pub fn write_at(&mut self, place: usize, viewer: &Viewer, label: Label, version: &Version)
        requires within { place < length self.old.places }
        requires room { 0 < self.old.room }
        requires live { is_own viewer.now.id (newest_of (nth self.old.places place).chain) ≡ false → (nth self.old.places place).version.live ≡ true }
        requires same_key { SameKey self.old.key version.now.row (nth self.old.places place).version.row }
        requires fits { FitsRow self.old.kinds version.now.row }
        ensures kinds { self.new.kinds ≡ self.old.kinds }
        ensures key { self.new.key ≡ self.old.key }
        ensures places { self.new.places ≡ slice_set self.old.places place (nth self.new.places place) }
        ensures written { Written viewer.now label (cell_of version.now) (nth self.old.places place) (nth self.new.places place) }
        ensures room { self.old.room ≤ self.new.room + 1 }
    {
        hy_undo::places_step();
        let newest = self.chains.head(place);
        let mut image = take_image(&mut self.chains, &mut self.spare, place, viewer.id);
        exchange_row(
            &mut self.columns,
            place,
            &version.row,
            &mut image,
            &mut self.spare,
        );
        put_flag(&mut self.live, place, version.live);
        self.vacant.set(place, !version.live);
        let stamp = stamp_over(newest, label, viewer.id);
        push_covered(&mut self.chains, &mut self.versioned, place, stamp, image);
    }

    /// Puts a new row at a position, over the writer's record alone, for which there is room. What the chain told
    /// before goes.
    pub fn place_at(&mut self, place: usize, viewer: &Viewer, label: Label, row: &Row)
        requires within { place < length self.old.places }
        requires room { 0 < self.old.room }
        requires fits { FitsRow self.old.kinds row.now }
        ensures kinds { self.new.kinds ≡ self.old.kinds }
        ensures key { self.new.key ≡ self.old.key }
        ensures places { self.new.places ≡ slice_set self.old.places place (nth self.new.places place) }
        ensures placed { (watermark : ℕ) → is_free watermark (nth self.old.places place) ≡ true
            → Placed viewer.now label watermark row.now (nth self.old.places place) (nth self.new.places place) }
        ensures room { self.old.room ≤ self.new.room + 1 }
    {
        hy_undo::places_step();
        let image = take_spare(&mut self.spare);
        self.chains.clear(place);
        put_key(
            &mut self.index,
            self.key,
            &self.columns,
            self.used.as_slice(),
            place,
            row,
        );
        put_row(&mut self.columns, place, row);
        put_flag(&mut self.live, place, true);
        put_flag(&mut self.used, place, true);
        self.vacant.set(place, false);
        let stamp = Stamp {
            owner: label,
            mark: viewer.id,
        };
        push_covered(&mut self.chains, &mut self.versioned, place, stamp, image);
    }

    /// Leaves a position without a row in place.
    fn empty_at(&mut self, place: usize)
        requires { place < length self.old.places }
        ensures kinds { self.new.kinds ≡ self.old.kinds }
        ensures key { self.new.key ≡ self.old.key }
        ensures places { self.new.places ≡ slice_set self.old.places place (emptied_place (nth self.old.places place)) }
        ensures room { self.old.room ≤ self.new.room }
    {
        put_flag(&mut self.live, place, false);
        self.vacant.set(place, true);
    }

    /// Puts a version back over the writer's own record, for whose texts there is room. Where that record says that no row
    /// was there before, nobody but the writer sees what is in place, and nothing of it is noted. `was` is a scratch version
    /// of as many columns.
    pub fn back_at(
        &mut self,
        place: usize,
        viewer: &Viewer,
        label: Label,
        version: &Version,
        was: &mut Version,
    )
        requires within { place < length self.old.places }
        requires room { 0 < self.old.room }
        requires width { length was.old.row ≡ length self.old.kinds }
        requires may { MayGoBack self.old.kinds self.old.key viewer.now.id (cell_of version.now) (nth self.old.places place) }
        ensures kinds { self.new.kinds ≡ self.old.kinds }
        ensures key { self.new.key ≡ self.old.key }
        ensures places { IsPut place (Written viewer.now label (cell_of version.now)) self.old.places self.new.places }
        ensures room { self.old.room ≤ self.new.room + 1 }
        ensures width { length was.new.row ≡ length self.old.kinds }
    {
        hy_undo::places_step();
        if !version.live {
            self.empty_at(place);
            return;
        }
        self.read(place, was);
        self.chains.see_before(place, was);
        if was.live {
            self.write_at(place, viewer, label, version);
        } else {
            self.load_at(place, &version.row);
        }
    }

    /// Makes a version of as many columns the one in place at a position.
    pub fn read(&self, place: usize, version: &mut Version)
        requires within { place < length self.now.places }
        requires width { length version.old.row ≡ length self.now.kinds }
        ensures version { version.new ≡ (nth self.now.places place).version }
        ensures fits { FitsRow self.now.kinds version.new.row }
    {
        self.columns.read(place, &mut version.row);
        version.live = self.live[place];
    }

    /// Makes a version of as many columns the one that a viewer sees at a position.
    pub fn see(&self, place: usize, viewer: &Viewer, version: &mut Version)
        requires within { place < length self.now.places }
        requires width { length version.old.row ≡ length self.now.kinds }
        ensures version { version.new ≡ seen_through before viewer.now (nth self.now.places place).version (nth self.now.places place).chain }
        ensures fits { FitsRow self.now.kinds version.new.row }
    {
        self.read(place, version);
        if is_in(self.versioned, place) {
            self.chains.see(place, viewer, version);
        }
    }

    /// Whether a comparison with a number is true of the value in place of a column at each position, where it is a
    /// column of numbers. Err is for want of memory.
    pub fn compare(
        &self,
        alloc: Global,
        column: u32,
        op: Cmp,
        right: i64,
    ) -> Result<Option<Mask>, AllocError>
        ensures { IfOk result (λ found. found ≡ column_compared op right column (map (λ place. place.version.row) self.now.places)
            (slice_index_or self.now.kinds column Kind.Str)) }
    {
        let column = column as usize;
        if column < self.columns.width() {
            self.columns.compare(alloc, column, op, right)
        } else {
            Ok(None)
        }
    }

    /// Whether a position may have records: else every viewer sees what is in place.
    pub fn is_versioned(&self, place: usize) -> bool
        requires { place < length self.now.places }
        ensures { result ≡ false → (nth self.now.places place).chain ≡ [] }
    {
        is_in(self.versioned, place)
    }

    /// Whether a position has a record: else every viewer sees what is in place.
    pub fn has_record(&self, place: usize) -> bool
        requires { place < length self.now.places }
        ensures { result ≡ false → (nth self.now.places place).chain ≡ [] }
    {
        is_in(self.versioned, place) && self.chains.head(place).is_some()
    }

    /// The stamp of the newest record of a position, if it has one.
    pub fn newest(&self, place: usize) -> Option<Stamp>
        requires { place < length self.now.places }
        ensures { result ≡ newest_of (nth self.now.places place).chain }
    {
        self.chains.head(place)
    }

    /// How many records a position has.
    pub fn count(&self, place: usize) -> usize
        requires { place < length self.now.places }
        ensures { result ≡ length (nth self.now.places place).chain }
    {
        self.chains.count(place)
    }

    /// The part that has all positions with records: at the others every viewer sees what is in place.
    pub fn versioned_part(&self) -> Part
        ensures ordered { result.first ≤ result.end }
        ensures within { result.end ≤ length self.now.places }
        ensures others { NoneOutside result.first result.end self.now.places }
    {
        let end = self.live.len().min(self.versioned.end as usize);
        let first = end.min(self.versioned.first as usize);
        Part { first, end }
    }

    /// The row in place at each position has a value of each column's type, or NULL.
    pub fn rows_fit(&self)
        ensures { (place : ℕ) → place < length self.now.places → FitsRow self.now.kinds (nth self.now.places place).version.row }
    {
        let _many = self.live.len();
    }

    /// Whether a row is in place at a position.
    pub fn is_live(&self, place: usize) -> bool
        requires { place < length self.now.places }
        ensures { result ≡ (nth self.now.places place).version.live }
    {
        self.live[place]
    }

    /// The positions of a part for which a mask has its bit set and a row is in place, in order.
    pub fn plain_places<'a>(&'a self, mask: &'a Mask, part: Part) -> PlainPlaces<'a>
        requires mask { length mask.now ≡ length self.now.places }
        requires ordered { part.first ≤ part.end }
        requires within { part.end ≤ length self.now.places }
        requires numbered { part.end < 2 ^ 32 }
        ensures { result ≡ places_set mask.now part.first part.end self.now.places }
    {
        PlainPlaces {
            mask,
            vacant: self.vacant.bits(),
            part,
        }
    }

    /// Whether a column is the key.
    pub fn is_key(&self, column: u32) -> bool
        ensures { result ≡ is_key_of self.now.key column }
    {
        match self.key {
            None => false,
            Some(key) => key == column,
        }
    }

    /// The used positions whose row in place has this key. No other has a row with it that is seen.
    pub fn find(&self, column: u32, value: ValueRef<'_>) -> Found<'_>
        requires { is_key_of self.now.key column ≡ true }
        ensures within { AllByRecursion (λ place. place < length self.now.places) result }
        ensures all { AreFound column (referred value.entry) self.now.places result }
        ensures used { HaveUsed column (referred value.entry) self.now.places result }
    {
        hy_index::entries_are_a_set();
        self.index.find(value)
    }

    /// A row that is seen at a position has the key in place there, and the position is used.
    pub fn keys_stay(&self)
        ensures { KeysStay self.now.key self.now.places }
    {
        let _many = self.live.len();
    }

    /// The used positions, ascending, whose row in place has this key. No other has a row with it that is seen. Err is for
    /// want of memory.
    pub fn find_used(
        &self,
        alloc: Global,
        column: u32,
        value: ValueRef<'_>,
    ) -> Result<Vec<u32>, AllocError>
        requires { is_key_of self.now.key column ≡ true }
        ensures ascends { IfOk result (λ found. IsStrictlyIncreasing found.items) }
        ensures within { IfOk result (λ found. (place : ℕ) → Contains found.items place → place < length self.now.places) }
        ensures seen { IfOk result (λ found. AreFound column (referred value.entry) self.now.places found.items) }
        ensures all { IfOk result (λ found. HaveUsed column (referred value.entry) self.now.places found.items) }
    {
        let mut found = Vec::new(alloc);
        add_places(&self.find(column, value), &mut found)?;
        sort_once(&mut found);
        Ok(found)
    }

    /// The used positions, ascending, whose row in place has one of these keys. No other has a row with one of them
    /// that is seen. Err is for want of memory.
    pub fn find_each(
        &self,
        alloc: Global,
        column: u32,
        values: &[Value],
    ) -> Result<Vec<u32>, AllocError>
        requires { is_key_of self.now.key column ≡ true }
        ensures ascends { IfOk result (λ found. IsStrictlyIncreasing found.items) }
        ensures within { IfOk result (λ found. (place : ℕ) → Contains found.items place → place < length self.now.places) }
        ensures all { IfOk result (λ found. (value : Value) → Contains values.now value → AreFound column value self.now.places found.items) }
    {
        let mut found = Vec::new(alloc);
        for value in values {
            add_places(&self.find(column, value.refer()), &mut found)?;
        }
        sort_once(&mut found);
        Ok(found)
    }

    /// Whom a write by a viewer at a position would be in conflict with.
    pub fn rival(&self, place: usize, viewer: &Viewer) -> Option<Label>
        requires { place < length self.now.places }
        ensures { result ≡ rival viewer.now (nth self.now.places place).chain }
    {
        self.chains.rival(place, viewer)
    }

    /// Where a search for a position that may take a new row goes on from one: none that is passed over may, whatever the
    /// watermark is.
    pub fn next_vacant(&self, from: usize) -> usize
        requires { from ≤ length self.now.places }
        ensures reached { from ≤ result }
        ensures within { result ≤ length self.now.places }
        ensures passed { NoneFree self.now.places from result }
    {
        self.vacant.next_set(from)
    }

    /// Whether no position may take a new row, whatever the watermark is. No clause says that it is found out where
    /// it is so.
    pub fn is_full(&self) -> bool
        ensures { result ≡ true → NoneFree self.now.places 0 (length self.now.places) }
    {
        self.vacant.is_blank()
    }

    /// Whether a position may take a new row: it is unused, or its row is gone for everyone from the watermark on.
    pub fn is_free(&self, place: usize, watermark: u64) -> bool
        requires { place < length self.now.places }
        ensures { result ≡ is_free watermark (nth self.now.places place) }
    {
        let newest = self.chains.head(place);
        free_by(
            self.used[place],
            self.live[place],
            is_before(newest, watermark),
            self.deaths[place] < watermark,
        )
    }
}

/// Whether a stamp, if there is one, is older than a time.
pub fn is_before(newest: Option<Stamp>, time: u64) -> bool
    ensures { result ≡ is_older time newest }
{
    match newest {
        None => true,
        Some(stamp) => stamp.mark < time,
    }
}
