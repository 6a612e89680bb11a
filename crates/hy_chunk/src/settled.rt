//! Which positions of a chunk have to be looked at when it is stamped, undone or pruned.

ghost use Rattle.std.specs.Prelude.{◌≡◌, ◌<◌, ◌≤◌, ◌^◌, ◌-◌, ℕ, IfOk, List, false, true, length, replicate, slice_index_or, slice_set};
ghost use Rattle.hy_chain.specs.Chains.{newest as newest_of};
ghost use Rattle.hy_prune.specs.Fates.{watermark_of};
ghost use Rattle.hy_undo.specs.Places.{Place};
ghost use Rattle.hy_chunk.specs.Ranged.{NoneOutside};
ghost use Rattle.hy_chunk.specs.Marks.{IsNextSet};
ghost use Rattle.hy_chunk.specs.Settled.{AllSetIn, Settles};

use crate::marks::Marks;
use crate::positions::{Part, is_before};
use hy_prune::{Cover, watermark};
use hy_stamp::Stamp;
use std::alloc::{AllocError, Global};

/// The positions that have to be looked at. A stamp or an undo looks at those whose newest record may be of an open
/// transaction. Pruning looks at those that were written, stamped or undone since they were pruned, so that it looks once
/// at what an open transaction writes, however many statements follow; and beside an old reader what was written long ago
/// costs later transactions nothing.
#[derive(Drop)]
pub struct Settled {
    /// The positions that a stamp or an undo has to look at.
    uncommitted: Marks,
    /// The newest records at the others have marks before this one.
    before: u64,
    /// The positions that pruning has to look at. At each other one there is no record, or a single one that covers leave
    /// as it is.
    unpruned: Marks,
    /// The records at the others have marks after this one.
    after: u64,
}

/// Whether later covers with the same watermark leave a record with this mark as it is, where it is alone at its position,
/// and none needs to look at it. One that was committed since this cover was made is left to the next one, whose watermark
/// has most often passed it.
fn stays(mark: u64, is_open: bool, cover: &Cover) -> bool
    ensures { result ≡ true → watermark_of cover.now < mark }
{
    watermark(cover) < mark && (is_open || mark < cover.next)
}

/// Sets the bits of a part.
fn set_part(mask: &mut Marks, part: Part)
    requires ordered { part.first ≤ part.end }
    requires within { part.end ≤ length mask.old }
    ensures size { length mask.new ≡ length mask.old }
    ensures set { AllSetIn part.first part.end mask.new }
{
    for place in part.first..part.end {
        mask.set(place, true);
    }
}

impl Settled {
    /// So many positions, at which there are no records. Err is for want of memory.
    pub fn new(alloc: Global, positions: usize) -> Result<Settled, AllocError>
        ensures uncommitted { IfOk result (λ made. made.uncommitted ≡ replicate positions false) }
        ensures unpruned { IfOk result (λ made. made.unpruned ≡ replicate positions false) }
    {
        let uncommitted = Marks::none(alloc, positions)?;
        let unpruned = Marks::none(alloc, positions)?;
        Ok(Settled {
            uncommitted,
            before: 0,
            unpruned,
            after: u64::MAX,
        })
    }

    /// The first position from one on that a stamp or an undo has to look at, or how many positions there are.
    pub fn next_uncommitted(&self, from: usize) -> usize
        requires { from ≤ length self.now.uncommitted }
        ensures { IsNextSet self.now.uncommitted from result }
    {
        self.uncommitted.next_set(from)
    }

    /// The first position from one on that pruning has to look at, or how many positions there are.
    pub fn next_unpruned(&self, from: usize) -> usize
        requires { from ≤ length self.now.unpruned }
        ensures { IsNextSet self.now.unpruned from result }
    {
        self.unpruned.next_set(from)
    }

    /// Whether no position has to be looked at that a cover with this watermark may prune.
    pub fn is_below(&self, watermark: u64) -> bool
        ensures late { result ≡ true → watermark ≤ self.now.after }
        ensures blank { result ≡ true → (place : ℕ) → place < length self.now.unpruned → slice_index_or self.now.unpruned place false ≡ false }
    {
        watermark <= self.after && self.unpruned.is_blank()
    }

    /// A position has to be looked at: its chain is another one.
    pub fn touch(&mut self, place: usize)
        requires uncommitted { place < length self.old.uncommitted }
        requires unpruned { place < length self.old.unpruned }
        ensures { (places : List Place) (new : Place) → Settles self.old places → Settles self.new (slice_set places place new) }
    {
        self.uncommitted.set(place, true);
        self.unpruned.set(place, true);
    }

    /// A time is reached by a commit: no record with a mark up to it is of an open transaction, since identifiers are above
    /// all times.
    pub fn reach(&mut self, time: u64)
        ensures { (places : List Place) → Settles self.old places → Settles self.new places }
    {
        self.before = self.before.max(time.saturating_add(1));
    }

    /// Makes each position one to look at whose newest record may have this identifier. The part has all positions with
    /// records. Identifiers are above all times, so that those to look at are enough.
    pub fn look_for(&mut self, id: u64, part: Part)
        requires ordered { part.first ≤ part.end }
        requires within { part.end ≤ length self.old.uncommitted }
        ensures settles { (places : List Place) → NoneOutside part.first part.end places → Settles self.old places → Settles self.new places }
        ensures before { self.new.before ≤ id }
    {
        if id < self.before {
            set_part(&mut self.uncommitted, part);
            self.before = 0;
        }
    }

    /// Makes each position one to look at that a cover with this watermark may prune. The part has all positions with
    /// records.
    pub fn look_below(&mut self, watermark: u64, part: Part)
        requires ordered { part.first ≤ part.end }
        requires within { part.end ≤ length self.old.unpruned }
        ensures settles { (places : List Place) → NoneOutside part.first part.end places → Settles self.old places → Settles self.new places }
        ensures after { watermark ≤ self.new.after }
    {
        if self.after < watermark {
            set_part(&mut self.unpruned, part);
            self.after = u64::MAX;
        }
    }

    /// A position was stamped or undone, and its newest record, if it has one, has this stamp: pruning has to look at it,
    /// and no other stamp or undo, where that record is committed.
    pub fn release(&mut self, place: usize, newest: Option<Stamp>)
        requires uncommitted { place < length self.old.uncommitted }
        requires unpruned { place < length self.old.unpruned }
        ensures settles { (places : List Place) (new : Place) → newest ≡ newest_of new.chain
            → Settles self.old places → Settles self.new (slice_set places place new) }
        ensures before { self.new.before ≡ self.old.before }
    {
        self.uncommitted.set(place, !is_before(newest, self.before));
        self.unpruned.set(place, true);
    }

    /// A position was pruned by a cover, and its chain has so many records, of which the newest has this stamp: pruning
    /// needs no look any more where it is empty or stays as it is.
    pub fn settle(&mut self, place: usize, count: usize, newest: Option<Stamp>, cover: &Cover)
        requires uncommitted { place < length self.old.uncommitted }
        requires unpruned { place < length self.old.unpruned }
        ensures settles { (places : List Place) (new : Place) → count ≡ length new.chain → newest ≡ newest_of new.chain
            → Settles self.old places → Settles self.new (slice_set places place new) }
        ensures after { watermark_of cover.now ≤ self.old.after → watermark_of cover.now ≤ self.new.after }
    {
        let is_open = !is_before(newest, self.before);
        self.uncommitted.set(place, is_open);
        match newest {
            Some(stamp) if count == 1 && stays(stamp.mark, is_open, cover) => {
                self.unpruned.set(place, false);
                self.after = self.after.min(stamp.mark - 1);
            }
            _ => self.unpruned.set(place, count != 0),
        }
    }
}
