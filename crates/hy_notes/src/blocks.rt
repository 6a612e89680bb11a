//! Notes in blocks: lists of bounded length, one behind the other, so that one more note moves few of them.

ghost use Rattle.std.specs.Prelude.{◌≡◌, ◌++◌, ◌+◌, ◌-◌, ◌<◌, ◌≤◌, List, [], IfOk, OnOk, OnErr, IfSome, IsTrue, not as negated};
ghost use Rattle.std.specs.Prelude.{◌^◌, ◌*◌, max, None, Some, true, false, length, drop, take, map, option_map};
ghost use Rattle.std.specs.Prelude.{slice_get, slice_index_or, slice_set, vec_len, vec_capacity};
ghost use Rattle.std.specs.List.{AllByRecursion, prefix_len, insert};
ghost use Rattle.std.specs.List.Sorted.{IsPartitionPoint};
ghost use Rattle.std.specs.Ordering.{is_eq};
ghost use Rattle.hy_value.specs.declared.change.Change.{Change};
ghost use Rattle.std.specs.Option.{option_copied};
ghost use Rattle.hy_notes.specs.Notes.{Ascends, order_of, below, with_after, with_note, note_at, told_by, place_of};
ghost use Rattle.hy_notes.specs.Blocks.{joined, notes_in, begins, notes_at, notes_before, notes_behind, IsWithin, next_block};
ghost use Rattle.hy_notes.specs.Blocks.{IsPlace, IsLater, IsBlank, AreBlocks, AreBehind};

use crate::NotedPlace;
use hy_value::{Change, StoredRow};
use std::alloc::{AllocError, Global};
use std::cmp::Ordering;

/// The most notes of a block.
const MOST: usize = 128;

/// The least notes of a block behind the first: those of half a full one.
const LEAST: usize = 64;

/// Notes by table and then position, in blocks.
#[derive(Drop)]
pub struct Blocks {
    /// The first block, which is all there is of a short list and grows as one.
    first: Vec<Change>,
    /// The blocks behind it, none less than half full.
    later: Vec<Vec<Change>>,
    /// Empty blocks for more notes.
    blank: Vec<Vec<Change>>,
    /// How many notes there are.
    count: usize,
    /// How many there may be before room is made for more.
    limit: usize,
}

/// How a note stands to a position of a table.
fn order(note: &Change, table: u32, pos: u64) -> Ordering
    ensures { result ≡ order_of note.now table pos }
{
    note.table.cmp(&table).then(u64::from(note.pos).cmp(&pos))
}

/// How many notes are of positions before this one.
pub fn count_below(notes: &[Change], table: u32, pos: u64) -> usize
    requires { Ascends notes.now }
    ensures count { result ≡ prefix_len (below table pos) notes.now }
    ensures within { result ≤ length notes.now }
{
    notes.partition_point(|note| order(note, table, pos).is_lt())
}

/// Whether the note at an index is of this position.
pub fn is_noted(notes: &[Change], at: usize, table: u32, pos: u64) -> bool
    ensures noted { IsTrue result → at < length notes.now }
    ensures same { IsTrue result → (d : Change) → order_of (slice_index_or notes.now at d) table pos ≡ Ordering.Equal }
    ensures other { IsTrue (negated result) → at < length notes.now
        → (d : Change) → is_eq (order_of (slice_index_or notes.now at d) table pos) ≡ false }
{
    at < notes.len() && order(&notes[at], table, pos).is_eq()
}

/// Whether a block begins at a position or before it.
fn begins_by(block: &Vec<Change>, table: u32, pos: u64) -> bool
    ensures { result ≡ begins table pos block.now }
{
    match block.as_slice() {
        [] => false,
        [note, ..] => order(note, table, pos).is_le(),
    }
}

/// How many blocks begin at a position or before it.
fn count_begun(blocks: &[Vec<Change>], table: u32, pos: u64) -> usize
    requires ascends { Ascends (joined blocks.now) }
    requires later { AllByRecursion IsLater blocks.now }
    ensures within { result ≤ length blocks.now }
    ensures parted { IsPartitionPoint (λ block. begins table pos block ≡ true) (λ block. begins table pos block ≡ false) blocks.now result }
{
    blocks.partition_point(|block| begins_by(block, table, pos))
}

/// Puts another row after into the note at an index.
fn put_after(notes: &mut Vec<Change>, at: usize, after: Option<StoredRow>)
    requires { at < vec_len notes.old }
    ensures items { (d : Change) → notes.new.items ≡ slice_set notes.old.items at (with_after (slice_index_or notes.old.items at d) after) }
    ensures capacity { vec_capacity notes.new ≡ vec_capacity notes.old }
    ensures len { vec_len notes.new ≡ vec_len notes.old }
{
    notes[at].after = after;
}

/// Puts a note at an index, where there is room for it.
fn put_note(notes: &mut Vec<Change>, at: usize, note: Change)
    requires within { at ≤ vec_len notes.old }
    requires room { vec_len notes.old < vec_capacity notes.old }
    ensures items { notes.new.items ≡ insert notes.old.items at note }
    ensures capacity { vec_capacity notes.old ≤ vec_capacity notes.new }
    ensures len { vec_len notes.new ≡ vec_len notes.old + 1 }
{
    let _put = notes.insert(at, note);
}

/// Moves the notes behind the least of a block into an empty one.
fn move_half(block: &mut Vec<Change>, empty: &mut Vec<Change>)
    requires full { LEAST ≤ vec_len block.old }
    requires empty { empty.old.items ≡ [] }
    requires room { vec_len block.old ≤ vec_capacity empty.old }
    ensures kept { block.new.items ≡ take LEAST block.old.items }
    ensures moved { empty.new.items ≡ drop LEAST block.old.items }
    ensures capacity { vec_capacity block.new ≡ vec_capacity block.old }
    ensures moved_capacity { vec_capacity empty.new ≡ vec_capacity empty.old }
{
    for note in block.drain(LEAST..) {
        empty.push_reserved(note);
    }
}

/// Takes the half behind the least notes out of a block, in one of the blank blocks.
fn take_half(block: &mut Vec<Change>, blank: &mut Vec<Vec<Change>>) -> Vec<Change>
    requires full { MOST ≤ vec_len block.old }
    requires most { vec_len block.old ≤ MOST }
    requires blank { AllByRecursion IsBlank blank.old.items }
    requires some { 0 < vec_len blank.old }
    ensures taken { result.items ≡ drop LEAST block.old.items }
    ensures wide { MOST ≤ vec_capacity result }
    ensures kept { block.new.items ≡ take LEAST block.old.items }
    ensures capacity { vec_capacity block.new ≡ vec_capacity block.old }
    ensures blank { AllByRecursion IsBlank blank.new.items }
    ensures blank_len { vec_len blank.new + 1 ≡ vec_len blank.old }
    ensures blank_capacity { vec_capacity blank.new ≡ vec_capacity blank.old }
{
    match blank.pop() {
        None => unreachable!(),
        Some(mut half) => {
            move_half(block, &mut half);
            half
        }
    }
}

/// Puts a block among others, where there is room for it.
fn put_block(later: &mut Vec<Vec<Change>>, at: usize, block: Vec<Change>)
    requires within { at ≤ vec_len later.old }
    requires room { vec_len later.old < vec_capacity later.old }
    ensures items { later.new.items ≡ insert later.old.items at block }
    ensures len { vec_len later.new ≡ vec_len later.old + 1 }
    ensures capacity { vec_capacity later.old ≤ vec_capacity later.new }
{
    let _put = later.insert(at, block);
}

/// Moves the notes of blocks behind those of a list that has room for them. The blocks are blank from then on.
fn move_all(list: &mut Vec<Change>, later: &mut Vec<Vec<Change>>, blank: &mut Vec<Vec<Change>>)
    requires room { vec_len list.old + length (joined later.old.items) ≤ vec_capacity list.old }
    requires later { AllByRecursion IsLater later.old.items }
    requires blank { AllByRecursion IsBlank blank.old.items }
    requires blank_room { vec_len later.old + vec_len blank.old ≤ vec_capacity blank.old }
    ensures list { list.new.items ≡ list.old.items ++ joined later.old.items }
    ensures none { later.new.items ≡ [] }
    ensures blank { AllByRecursion IsBlank blank.new.items }
    ensures len { vec_len blank.new ≡ vec_len later.old + vec_len blank.old }
    ensures capacity { vec_capacity later.new ≡ vec_capacity later.old }
    ensures blank_capacity { vec_capacity blank.new ≡ vec_capacity blank.old }
{
    for mut block in later.drain(..) {
        let _moved = list.append(&mut block);
        blank.push_reserved(block);
    }
}

/// Drops the notes of blocks, which are blank from then on.
fn clear_all(later: &mut Vec<Vec<Change>>, blank: &mut Vec<Vec<Change>>)
    requires later { AllByRecursion IsLater later.old.items }
    requires blank { AllByRecursion IsBlank blank.old.items }
    requires blank_room { vec_len later.old + vec_len blank.old ≤ vec_capacity blank.old }
    ensures none { later.new.items ≡ [] }
    ensures blank { AllByRecursion IsBlank blank.new.items }
    ensures len { vec_len blank.new ≡ vec_len later.old + vec_len blank.old }
    ensures capacity { vec_capacity later.new ≡ vec_capacity later.old }
    ensures blank_capacity { vec_capacity blank.new ≡ vec_capacity blank.old }
{
    for mut block in later.drain(..) {
        block.clear();
        blank.push_reserved(block);
    }
}

/// Adds an empty block, and room for one more among the others. Err is for want of memory.
fn add_block(later: &mut Vec<Vec<Change>>, blank: &mut Vec<Vec<Change>>) -> Result<(), AllocError>
    requires blank { AllByRecursion IsBlank blank.old.items }
    requires room { vec_len later.old + vec_len blank.old ≤ vec_capacity later.old }
    requires blank_room { vec_len later.old + vec_len blank.old ≤ vec_capacity blank.old }
    ensures later { later.new.items ≡ later.old.items }
    ensures later_len { vec_len later.new ≡ vec_len later.old }
    ensures blank { AllByRecursion IsBlank blank.new.items }
    ensures ok { OnOk result (vec_len blank.new ≡ vec_len blank.old + 1) }
    ensures err { OnErr result (vec_len blank.new ≡ vec_len blank.old) }
    ensures room { vec_len later.new + vec_len blank.new ≤ vec_capacity later.new }
    ensures blank_room { vec_len later.new + vec_len blank.new ≤ vec_capacity blank.new }
{
    later.reserve(blank.len() + 1)?;
    blank.reserve(later.len() + 1)?;
    blank.push_reserved(Vec::with_capacity(*later.allocator(), MOST)?);
    Ok(())
}

/// Adds empty blocks until so many notes find room, in whatever order they come. Err is for want of memory.
fn add_blocks(
    later: &mut Vec<Vec<Change>>,
    blank: &mut Vec<Vec<Change>>,
    limit: usize,
) -> Result<(), AllocError>
    requires blank { AllByRecursion IsBlank blank.old.items }
    requires room { vec_len later.old + vec_len blank.old ≤ vec_capacity later.old }
    requires blank_room { vec_len later.old + vec_len blank.old ≤ vec_capacity blank.old }
    ensures later { later.new.items ≡ later.old.items }
    ensures later_len { vec_len later.new ≡ vec_len later.old }
    ensures blank { AllByRecursion IsBlank blank.new.items }
    ensures kept { vec_len blank.old ≤ vec_len blank.new }
    ensures ok { OnOk result (limit ≤ max MOST ((1 + vec_len later.new + vec_len blank.new) * LEAST)) }
    ensures room { vec_len later.new + vec_len blank.new ≤ vec_capacity later.new }
    ensures blank_room { vec_len later.new + vec_len blank.new ≤ vec_capacity blank.new }
{
    if limit <= MOST {
        return Ok(());
    }
    for _block in later.len() + blank.len()..limit / LEAST {
        add_block(later, blank)?;
    }
    Ok(())
}

/// The place of a note.
pub fn place(note: &Change) -> NotedPlace
    ensures { result ≡ place_of note.now }
{
    NotedPlace {
        table: note.table,
        pos: note.pos,
    }
}

/// The place of the note at an index, where there is one.
fn place_at(notes: &[Change], at: usize) -> Option<NotedPlace>
    ensures { result ≡ option_map place_of (slice_get notes.now at) }
{
    match notes.get(at) {
        None => None,
        Some(note) => Some(place(note)),
    }
}

/// The places of notes, behind others.
fn push_places(places: &mut Vec<NotedPlace>, notes: &[Change]) -> Result<(), AllocError>
    ensures { OnOk result (places.new.items ≡ places.old.items ++ map place_of notes.now) }
{
    for note in notes {
        places.push(place(note))?;
    }
    Ok(())
}

/// Which of the later blocks stands behind a block.
fn behind(block: Option<usize>) -> usize
    requires { IfSome block (λ k. k + 1 < 2 ^ 64) }
    ensures { result ≡ next_block block }
{
    match block {
        None => 0,
        Some(block) => block + 1,
    }
}

impl Blocks {
    /// No notes, and room for none. It takes no memory.
    pub fn new(alloc: Global) -> Blocks
        ensures none { notes_in result ≡ [] }
        ensures sound { AreBlocks result }
    {
        Blocks {
            first: Vec::new(alloc),
            later: Vec::new(alloc),
            blank: Vec::new(alloc),
            count: 0,
            limit: 0,
        }
    }

    /// How many notes there are.
    pub fn len(&self) -> usize
        requires { AreBlocks self.now }
        ensures { result ≡ length (notes_in self.now) }
    {
        self.count
    }

    /// For how many more notes there is room.
    pub fn room(&self) -> usize
        requires { AreBlocks self.now }
        ensures { result ≡ self.now.limit - self.now.count }
    {
        self.limit - self.count
    }

    /// The block in which a position is or belongs: the first, or one behind it.
    pub fn find(&self, table: u32, pos: u64) -> Option<usize>
        requires sound { AreBlocks self.now }
        requires ascends { Ascends (notes_in self.now) }
        ensures { IsPlace self.now result table pos }
    {
        let begun = count_begun(self.later.as_slice(), table, pos);
        if begun == 0 { None } else { Some(begun - 1) }
    }

    /// The notes of a block.
    pub fn notes(&self, block: Option<usize>) -> &[Change]
        requires { IsWithin self.now block }
        ensures { result.now ≡ notes_at self.now block }
    {
        match block {
            None => self.first.as_slice(),
            Some(block) => self.later[block].as_slice(),
        }
    }

    /// Puts another row after into the note at an index of a block.
    pub fn put_after(&mut self, block: Option<usize>, at: usize, after: Option<StoredRow>)
        requires sound { AreBlocks self.old }
        requires block { IsWithin self.old block }
        requires within { at < length (notes_at self.old block) }
        ensures notes { (d : Change) → notes_in self.new ≡ notes_before self.old block
            ++ (slice_set (notes_at self.old block) at (with_after (slice_index_or (notes_at self.old block) at d) after) ++ notes_behind self.old block) }
        ensures sound { AreBlocks self.new }
        ensures count { self.new.count ≡ self.old.count }
        ensures limit { self.new.limit ≡ self.old.limit }
    {
        match block {
            None => put_after(&mut self.first, at, after),
            Some(block) => put_after(&mut self.later[block], at, after),
        }
    }

    /// Puts a note at an index of a block that isn't full.
    fn put_within(&mut self, block: Option<usize>, at: usize, note: Change)
        requires sound { AreBlocks self.old }
        requires room { self.old.count < self.old.limit }
        requires block { IsWithin self.old block }
        requires within { at ≤ length (notes_at self.old block) }
        requires most { length (notes_at self.old block) < MOST }
        ensures notes { notes_in self.new ≡ notes_before self.old block ++ (insert (notes_at self.old block) at note ++ notes_behind self.old block) }
        ensures sound { AreBlocks self.new }
        ensures count { self.new.count ≡ self.old.count + 1 }
        ensures limit { self.new.limit ≡ self.old.limit }
    {
        self.count += 1;
        match block {
            None => put_note(&mut self.first, at, note),
            Some(block) => put_note(&mut self.later[block], at, note),
        }
    }

    /// Moves half of a full block into a blank one, which stands behind it from then on.
    fn split(&mut self, block: Option<usize>)
        requires sound { AreBlocks self.old }
        requires room { self.old.count < self.old.limit }
        requires block { IsWithin self.old block }
        requires full { MOST ≤ length (notes_at self.old block) }
        // the halves, between the same notes
        ensures before { notes_before self.new block ≡ notes_before self.old block }
        ensures kept { notes_at self.new block ≡ take LEAST (notes_at self.old block) }
        ensures next { IsWithin self.new (Some (next_block block)) }
        ensures moved { notes_at self.new (Some (next_block block)) ≡ drop LEAST (notes_at self.old block) }
        ensures behind { notes_behind self.new (Some (next_block block)) ≡ notes_behind self.old block }
        // the rest stays
        ensures sound { AreBlocks self.new }
        ensures count { self.new.count ≡ self.old.count }
        ensures limit { self.new.limit ≡ self.old.limit }
    {
        match block {
            None => {
                let half = take_half(&mut self.first, &mut self.blank);
                put_block(&mut self.later, 0, half);
            }
            Some(block) => {
                let half = take_half(&mut self.later[block], &mut self.blank);
                put_block(&mut self.later, block + 1, half);
            }
        }
    }

    /// Puts a note at an index of a block. It takes no memory.
    pub fn put_note(&mut self, block: Option<usize>, at: usize, note: Change)
        requires sound { AreBlocks self.old }
        requires room { self.old.count < self.old.limit }
        requires block { IsWithin self.old block }
        requires within { at ≤ length (notes_at self.old block) }
        ensures notes { notes_in self.new ≡ notes_before self.old block ++ (insert (notes_at self.old block) at note ++ notes_behind self.old block) }
        ensures sound { AreBlocks self.new }
        ensures count { self.new.count ≡ self.old.count + 1 }
        ensures limit { self.new.limit ≡ self.old.limit }
    {
        if self.notes(block).len() < MOST {
            self.put_within(block, at, note);
            return;
        }
        self.split(block);
        if at <= LEAST {
            self.put_within(block, at, note);
        } else {
            self.put_within(Some(behind(block)), at - LEAST, note);
        }
    }

    /// The note of a position, if it is noted.
    pub fn note_of(&self, table: u32, pos: u64) -> Option<&Change>
        requires sound { AreBlocks self.now }
        requires ascends { Ascends (notes_in self.now) }
        ensures { option_map told_by (option_copied result) ≡ note_at (notes_in self.now) table pos }
    {
        let block = self.find(table, pos);
        let notes = self.notes(block);
        let at = count_below(notes, table, pos);
        if is_noted(notes, at, table, pos) {
            Some(&notes[at])
        } else {
            None
        }
    }

    /// Puts a note of a position that isn't noted. It takes no memory.
    pub fn put_new(&mut self, note: Change)
        requires sound { AreBlocks self.old }
        requires ascends { Ascends (notes_in self.old) }
        requires room { self.old.count < self.old.limit }
        requires new { note_at (notes_in self.old) note.table note.pos ≡ None }
        ensures notes { notes_in self.new ≡ with_note note (notes_in self.old) }
        ensures sound { AreBlocks self.new }
        ensures count { self.new.count ≡ self.old.count + 1 }
        ensures limit { self.new.limit ≡ self.old.limit }
    {
        let (table, pos) = (note.table, u64::from(note.pos));
        let block = self.find(table, pos);
        let at = count_below(self.notes(block), table, pos);
        self.put_note(block, at, note);
    }

    /// The blocks behind one.
    pub fn behind(&self, block: Option<usize>) -> &[Vec<Change>]
        requires sound { AreBlocks self.now }
        requires block { IsWithin self.now block }
        ensures { joined result.now ≡ notes_behind self.now block }
    {
        &self.later.as_slice()[behind(block)..]
    }

    /// The blocks behind one up to that of a position. No later one has notes before the position.
    pub fn behind_up_to(&self, block: Option<usize>, table: u32, pos: u64) -> &[Vec<Change>]
        requires sound { AreBlocks self.now }
        requires ascends { Ascends (notes_in self.now) }
        requires block { IsWithin self.now block }
        ensures { (rest : List Change) × (notes_behind self.now block ≡ joined result.now ++ rest) × AreBehind table pos rest }
    {
        let from = behind(block);
        let to = behind(self.find(table, pos));
        &self.later.as_slice()[from..from.max(to)]
    }

    /// Makes room for so many more notes. It fails only where that room was missing; the notes stay, and there is
    /// never less room.
    pub fn reserve(&mut self, additional: usize) -> Result<(), AllocError>
        requires { AreBlocks self.old }
        ensures notes { notes_in self.new ≡ notes_in self.old }
        ensures sound { AreBlocks self.new }
        ensures count { self.new.count ≡ self.old.count }
        ensures ok { OnOk result (self.old.count + additional ≤ self.new.limit) }
        ensures kept { self.old.limit ≤ self.new.limit }
        ensures err { OnErr result (self.old.limit < self.old.count + additional) }
    {
        if additional <= self.limit - self.count {
            return Ok(());
        }
        let limit = self.count.checked_add(additional).ok_or(AllocError)?;
        self.first.reserve(limit.min(MOST) - self.first.len())?;
        add_blocks(&mut self.later, &mut self.blank, limit)?;
        self.limit = limit;
        Ok(())
    }

    /// The notes as a list, which has no more room than they take: none are left. Err is for want of memory: the
    /// notes stay.
    pub fn take_all(&mut self) -> Result<Vec<Change>, AllocError>
        requires { AreBlocks self.old }
        ensures ok { IfOk result (λ list. list.items ≡ notes_in self.old) }
        ensures none { OnOk result (notes_in self.new ≡ []) }
        ensures sound { OnOk result (AreBlocks self.new) }
        ensures count { OnOk result (self.new.count ≡ 0) }
        ensures limit { OnOk result (self.new.limit ≡ self.old.limit) }
        ensures err { OnErr result (self.new ≡ self.old) }
    {
        let mut list = Vec::with_capacity(*self.first.allocator(), self.count)?;
        let _first = list.append(&mut self.first);
        move_all(&mut list, &mut self.later, &mut self.blank);
        self.count = 0;
        Ok(list)
    }

    /// Drops the notes. The room stays.
    pub fn clear(&mut self)
        requires { AreBlocks self.old }
        ensures none { notes_in self.new ≡ [] }
        ensures sound { AreBlocks self.new }
        ensures count { self.new.count ≡ 0 }
        ensures limit { self.new.limit ≡ self.old.limit }
    {
        self.first.clear();
        clear_all(&mut self.later, &mut self.blank);
        self.count = 0;
    }

    /// Every noted position, by table and then position. Err is for want of memory.
    pub fn places(&self) -> Result<Vec<NotedPlace>, AllocError>
        ensures { IfOk result (λ places. places.items ≡ map place_of (notes_in self.now)) }
    {
        let mut places = Vec::with_capacity(*self.first.allocator(), self.count)?;
        push_places(&mut places, self.first.as_slice())?;
        for block in self.later.as_slice() {
            push_places(&mut places, block.as_slice())?;
        }
        Ok(places)
    }

    /// Where the first note of one of the later blocks is, if there are so many.
    fn first_of(&self, block: usize) -> Option<NotedPlace>
        requires { AreBlocks self.now }
        ensures { result ≡ option_map place_of (slice_get (joined (drop block self.now.later.items)) 0) }
    {
        if block < self.later.len() {
            place_at(self.notes(Some(block)), 0)
        } else {
            None
        }
    }

    /// The first noted position that isn't before this one.
    pub fn first_from(&self, table: u32, pos: u64) -> Option<NotedPlace>
        requires sound { AreBlocks self.now }
        requires ascends { Ascends (notes_in self.now) }
        ensures { result ≡ option_map place_of (slice_get (notes_in self.now) (prefix_len (below table pos) (notes_in self.now))) }
    {
        let block = self.find(table, pos);
        let notes = self.notes(block);
        match place_at(notes, count_below(notes, table, pos)) {
            Some(place) => Some(place),
            None => self.first_of(behind(block)),
        }
    }
}
