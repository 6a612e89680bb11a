//! Chains of undo records, one for each position.

ghost use Rattle.std.specs.Prelude.{◌≡◌, ◌+◌, ◌<◌, ◌≤◌, [], ◌∷◌};
ghost use Rattle.std.specs.Prelude.{IfOk, OnSome, OnOk, OnErr, length, replicate, slice_index_or, slice_set};

use crate::Image;
use crate::lists::{Lists, is_end};
use hy_prune::Cover;
use hy_stamp::{Label, Stamp, Viewer};
use std::alloc::{AllocError, Global};
use std::marker::Model;

/// A chain of undo records for each position, newest first. Room is made before a record is pushed, so that
/// a write needs no memory.
#[derive(Drop)]
pub struct Chains<D: Image> {
    /// A list for each position, and an empty one behind them, by way of which a chain is pruned.
    lists: Lists<D>,
    positions: usize,
}

impl<D: Image> Model for Chains<D> {
    ghost use Rattle.std.specs.Prelude.{take};
    ghost use Rattle.hy_chain.specs.Histories.{Histories, histories_code};

    ghost Value = { Histories D };

    ghost coded = { histories_code D.code };

    ghost use Rattle.hy_chain.specs.Spares.{HasSpare};

    ghost view = { λ a. record {
      chains = take a.positions a.lists.chains;
      room = a.lists.room;
    } };

    ghost invariant = { λ a. HasSpare a.positions a.lists.chains };
}

impl<D: Image> Chains<D> {
    ghost use Rattle.hy_chain.specs.Chains.{Undo, newest, rival, seen, before_newest, own_image, without_own, stamped};
    ghost use Rattle.hy_chain.specs.Pruning.{pruned};

    /// An empty chain for each of so many positions. Err is for want of memory.
    pub fn new(alloc: Global, positions: usize) -> Result<Chains<D>, AllocError>
        ensures { IfOk result (λ chains. chains.chains ≡ replicate positions []) }
    {
        let with_spare = positions.checked_add(1).ok_or(AllocError)?;
        let lists = Lists::new(alloc, with_spare)?;
        Ok(Chains { lists, positions })
    }

    /// Makes room for so many more records. There is never less room, and the records stay, without memory
    /// too.
    pub fn reserve(&mut self, additional: usize) -> Result<(), AllocError>
        ensures chains { self.new.chains ≡ self.old.chains }
        ensures ok { OnOk result (additional ≤ self.new.room) }
        ensures kept { self.old.room ≤ self.new.room }
        ensures err { OnErr result (self.old.room < additional) }
    {
        self.lists.reserve(additional)
    }

    /// The stamp of the newest record of a position, if it has one.
    pub fn head(&self, pos: usize) -> Option<Stamp>
        requires { pos < length self.now.chains }
        ensures { result ≡ newest (slice_index_or self.now.chains pos []) }
    {
        self.lists.head(pos)
    }

    /// How many records a position has.
    pub fn count(&self, pos: usize) -> usize
        requires { pos < length self.now.chains }
        ensures { result ≡ length (slice_index_or self.now.chains pos []) }
    {
        self.lists.count(pos)
    }

    /// Whom a write by a viewer at a position would be in conflict with: the owner of the newest record, where
    /// the viewer's view goes past it.
    pub fn rival(&self, pos: usize, viewer: &Viewer) -> Option<Label>
        requires { pos < length self.now.chains }
        ensures { result ≡ rival viewer.now (slice_index_or self.now.chains pos []) }
    {
        let stamp = self.lists.head(pos)?;
        if is_end(viewer, stamp.mark) {
            None
        } else {
            Some(stamp.owner)
        }
    }

    /// Puts a record in front of a chain, where there is room. It takes no memory, and no more room than that.
    pub fn push_reserved(&mut self, pos: usize, stamp: Stamp, image: D)
        requires within { pos < length self.old.chains }
        requires room { 0 < self.old.room }
        ensures chains { self.new.chains
            ≡ slice_set self.old.chains pos (record { stamp = stamp; image = image } ∷ slice_index_or self.old.chains pos []) }
        ensures room { self.old.room ≤ self.new.room + 1 }
    {
        self.lists.push_reserved(pos, stamp, image);
    }

    /// Takes the newest record of a position out and answers its image, where its mark is this identifier. Its
    /// place serves the next push.
    pub fn pop_own(&mut self, pos: usize, id: u64) -> Option<D>
        requires { pos < length self.old.chains }
        ensures image { result ≡ own_image id (slice_index_or self.old.chains pos []) }
        ensures chains { self.new.chains ≡ slice_set self.old.chains pos (without_own id (slice_index_or self.old.chains pos [])) }
        ensures room { OnSome result (self.old.room + 1 ≤ self.new.room) }
        ensures kept { self.old.room ≤ self.new.room }
    {
        self.lists.pop_own(pos, id)
    }

    /// Gives the newest record of a position this time as its mark, where its mark is this identifier. It
    /// takes no memory.
    pub fn stamp_own(&mut self, pos: usize, id: u64, time: u64)
        requires { pos < length self.old.chains }
        ensures chains { self.new.chains ≡ slice_set self.old.chains pos (stamped id time (slice_index_or self.old.chains pos [])) }
        ensures room { self.old.room ≤ self.new.room }
    {
        self.lists.stamp_own(pos, id, time);
    }

    /// Takes every record of a position out.
    pub fn clear(&mut self, pos: usize)
        requires { pos < length self.old.chains }
        ensures chains { self.new.chains ≡ slice_set self.old.chains pos [] }
        ensures room { self.old.room ≤ self.new.room }
    {
        self.lists.clear(pos);
    }

    /// Prunes a position's chain by a cover: the records from the cover's next time on stay; of the older ones
    /// those between two neighbouring starts become one, and those older than every start go. It takes no
    /// memory.
    pub fn prune(&mut self, pos: usize, cover: &Cover)
        requires { pos < length self.old.chains }
        ensures chains { self.new.chains ≡ slice_set self.old.chains pos (pruned D.merged cover.now (slice_index_or self.old.chains pos [])) }
        ensures room { self.old.room ≤ self.new.room }
    {
        self.lists.prune(pos, self.positions, cover);
    }

    /// Turns what is in place at a position into what a viewer sees there.
    pub fn see(&self, pos: usize, viewer: &Viewer, base: &mut D::Base)
        requires { pos < length self.now.chains }
        ensures { base.new ≡ seen D.applied viewer.now base.old (slice_index_or self.now.chains pos []) }
    {
        self.lists.see(pos, viewer, base);
    }

    /// Turns what is in place at a position into what was there before its newest record, if it has one.
    pub fn see_before(&self, pos: usize, base: &mut D::Base)
        requires { pos < length self.now.chains }
        ensures { base.new ≡ before_newest D.applied base.old (slice_index_or self.now.chains pos []) }
    {
        self.lists.see_before(pos, base);
    }
}
