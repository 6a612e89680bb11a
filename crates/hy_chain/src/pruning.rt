//! Pruning of a list, record by record, without a recursion.

ghost use Rattle.std.specs.Prelude.{◌≡◌, ◌≢◌, ℕ, ◌+◌, ◌<◌, ◌≤◌, [], length, slice_index_or, slice_set};
ghost use Rattle.hy_prune.specs.Fates.{fate_of};
ghost use Rattle.hy_chain.specs.Pruning.{pruned, in_hand, mark_of};
ghost use Rattle.hy_chain.specs.Settling.{held, hand_after, aside_after, put_back, with_newest_joined};

use crate::Image;
use crate::lists::{Lists, Outlook};
use hy_prune::{Cover, Fate, fate_behind};
use hy_stamp::Stamp;

impl<D: Image> Lists<D> {
    /// Does with a record, behind the one that stays and is in hand, what its fate is: the record in hand is
    /// put on the list `aside`, takes this one into it, or stays as it is. Answers the record that is in hand
    /// then.
    fn settle(
        &mut self,
        aside: usize,
        kept: Option<(Stamp, D)>,
        stamp: Stamp,
        image: D,
        cover: &Cover,
    ) -> Option<(Stamp, D)>
        requires within { aside < length self.old.chains }
        requires room { held kept ≤ self.old.room }
        ensures hand { in_hand result
            ≡ hand_after D.merged (fate_of cover.now (mark_of (in_hand kept)) stamp.mark) (in_hand kept) (record { stamp = stamp; image = image }) }
        ensures aside { self.new.chains ≡ slice_set self.old.chains aside
            (aside_after (fate_of cover.now (mark_of (in_hand kept)) stamp.mark) (in_hand kept) (slice_index_or self.old.chains aside [])) }
        ensures room { self.old.room ≤ self.new.room + held kept }
    {
        match kept {
            None => match fate_behind(None, stamp.mark, cover) {
                Fate::Drop => None,
                _ => Some((stamp, image)),
            },
            Some((newer, mut newer_image)) => match fate_behind(
                Some(newer.mark),
                stamp.mark,
                cover,
            ) {
                Fate::Keep => {
                    self.push_reserved(aside, newer, newer_image);
                    Some((stamp, image))
                }
                Fate::Merge => {
                    newer_image.merge_older(image);
                    Some((newer, newer_image))
                }
                Fate::Drop => Some((newer, newer_image)),
            },
        }
    }

    /// Puts what stays of a list on the empty list `aside`, oldest first.
    fn prune_aside(&mut self, list: usize, aside: usize, cover: &Cover)
        requires within { list < length self.old.chains }
        requires aside_within { aside < length self.old.chains }
        requires apart { list ≢ aside }
        requires clear { slice_index_or self.old.chains aside [] ≡ [] }
        ensures aside { put_back (slice_index_or self.new.chains aside []) [] ≡ pruned D.merged cover.now (slice_index_or self.old.chains list []) }
        ensures empty { slice_index_or self.new.chains list [] ≡ [] }
        ensures others { (i : ℕ) → i ≢ list → i ≢ aside → slice_index_or self.new.chains i [] ≡ slice_index_or self.old.chains i [] }
        ensures lists { length self.new.chains ≡ length self.old.chains }
        ensures room { self.old.room ≤ self.new.room }
    {
        let mut kept = None;
        while self.head(list).is_some() {
            let (stamp, image) = self.take_newest(list);
            kept = self.settle(aside, kept, stamp, image, cover);
        }
        if let Some((stamp, image)) = kept {
            self.push_reserved(aside, stamp, image);
        }
    }

    /// Puts the records of the list `aside` in front of a list, one after another.
    fn move_back(&mut self, aside: usize, list: usize)
        requires within { list < length self.old.chains }
        requires aside_within { aside < length self.old.chains }
        requires apart { list ≢ aside }
        ensures list { slice_index_or self.new.chains list [] ≡ put_back (slice_index_or self.old.chains aside []) (slice_index_or self.old.chains list []) }
        ensures empty { slice_index_or self.new.chains aside [] ≡ [] }
        ensures others { (i : ℕ) → i ≢ list → i ≢ aside → slice_index_or self.new.chains i [] ≡ slice_index_or self.old.chains i [] }
        ensures lists { length self.new.chains ≡ length self.old.chains }
        ensures room { self.old.room ≤ self.new.room }
    {
        while self.head(aside).is_some() {
            let (stamp, image) = self.take_newest(aside);
            self.push_reserved(list, stamp, image);
        }
    }

    /// Makes one of the newest two records of a list that has two. It takes no memory.
    fn join_newest(&mut self, list: usize)
        requires within { list < length self.old.chains }
        requires two { 1 < length (slice_index_or self.old.chains list []) }
        ensures chains { self.new.chains
            ≡ slice_set self.old.chains list (with_newest_joined D.merged (slice_index_or self.old.chains list [])) }
        ensures room { self.old.room ≤ self.new.room }
    {
        let (newer, mut newer_image) = self.take_newest(list);
        let (_older, older_image) = self.take_newest(list);
        newer_image.merge_older(older_image);
        self.push_reserved(list, newer, newer_image);
    }

    /// Prunes a list by a cover, by way of the list `aside`, which is empty. A list of which each record stays isn't
    /// touched, and where only the second one merges, as beside an old reader, the others stay where they lie. It
    /// takes no memory.
    pub fn prune(&mut self, list: usize, aside: usize, cover: &Cover)
        requires within { list < length self.old.chains }
        requires aside_within { aside < length self.old.chains }
        requires apart { list ≢ aside }
        requires clear { slice_index_or self.old.chains aside [] ≡ [] }
        ensures chains { self.new.chains ≡ slice_set self.old.chains list (pruned D.merged cover.now (slice_index_or self.old.chains list [])) }
        ensures room { self.old.room ≤ self.new.room }
    {
        match self.outlook(list, cover) {
            Outlook::Stays => {}
            Outlook::JoinsNewest => self.join_newest(list),
            Outlook::Mixed => {
                self.prune_aside(list, aside, cover);
                self.move_back(aside, list);
            }
        }
    }
}
