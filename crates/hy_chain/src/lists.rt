//! Lists of undo records in one slab.

ghost use Rattle.std.specs.Prelude.{◌≡◌, ◌+◌, ◌<◌, ◌≤◌, [], ◌∷◌};
ghost use Rattle.std.specs.Prelude.{None, Some, IfOk, OnSome, OnOk, OnErr, length, drop, replicate, slice_index_or, slice_set};
ghost use Rattle.hy_chain.specs.Chains.{stops};
ghost use Rattle.hy_chain.specs.Links.{chain_at};
ghost use Rattle.hy_chain.specs.Settling.{Foretells, stays_whole};

use crate::Image;
use hy_prune::{Cover, Fate, fate_behind};
use hy_stamp::{Stamp, Viewer};
use slab::Slab;
use std::alloc::{AllocError, Global};
use std::marker::Model;

/// Where a list begins, and how many records it has.
#[derive(Clone, Copy)]
struct Head {
    len: usize,
    key: usize,
}

/// A record, and where the next older one lies, if there is one.
#[derive(Drop)]
struct Node<D> {
    stamp: Stamp,
    image: D,
    older: usize,
}

/// What pruning by a cover does with a list.
#[derive(Clone, Copy)]
pub enum Outlook {
    /// Each record stays.
    Stays,
    /// The newest two become one, and each other one stays.
    JoinsNewest,
    /// Anything else.
    Mixed,
}

/// Whether a viewer goes no further than a record with this mark.
pub fn is_end(viewer: &Viewer, mark: u64) -> bool
    ensures { result ≡ stops viewer.now mark }
{
    mark == viewer.id || mark < viewer.start
}

/// Whether each of the records from a head on stays, the first one behind one of this mark.
fn stay_behind<D: Image>(nodes: &Slab<Node<D>>, head: Head, newer: u64, cover: &Cover) -> bool
    ensures { result ≡ stays_whole cover.now (Some newer) (chain_at nodes.now head) }
{
    let mut key = head.key;
    let mut kept = newer;
    for _passed in 0..head.len {
        let Some(node) = nodes.get(key) else {
            return true;
        };
        let mark = node.stamp.mark;
        if fate_behind(Some(kept), mark, cover) != Fate::Keep {
            return false;
        }
        kept = mark;
        key = node.older;
    }
    true
}

/// Lists of undo records, newest first.
#[derive(Drop)]
pub struct Lists<D: Image> {
    heads: Vec<Head>,
    nodes: Slab<Node<D>>,
}

impl<D: Image> Model for Lists<D> {
    ghost use Rattle.std.specs.Prelude.{◌-◌};
    ghost use Rattle.hy_chain.specs.Histories.{Histories, histories_code};

    ghost Value = { Histories D };

    ghost coded = { histories_code D.code };

    ghost use Rattle.slab.specs.Slab.{slab_len};
    ghost use Rattle.hy_chain.specs.Links.{chains_of, Sound};

    ghost view = { λ a. record {
      chains = chains_of a.nodes a.heads.items;
      room = a.nodes.capacity - slab_len a.nodes;
    } };

    ghost invariant = { λ a. Sound a.nodes a.heads.items };
}

impl<D: Image> Lists<D> {
    ghost use Rattle.hy_chain.specs.Chains.{Undo, newest, seen, before_newest, own_image, without_own, stamped};

    /// So many empty lists.
    pub fn new(alloc: Global, lists: usize) -> Result<Lists<D>, AllocError>
        ensures { IfOk result (λ made. made.chains ≡ replicate lists []) }
    {
        let heads = vec![in alloc; Head { len: 0, key: 0 }; lists]?;
        let nodes = Slab::new(alloc);
        Ok(Lists { heads, nodes })
    }

    /// Makes room for so many more records. There is never less room, and the records stay.
    pub fn reserve(&mut self, additional: usize) -> Result<(), AllocError>
        ensures chains { self.new.chains ≡ self.old.chains }
        ensures ok { OnOk result (additional ≤ self.new.room) }
        ensures kept { self.old.room ≤ self.new.room }
        ensures err { OnErr result (self.old.room < additional) }
    {
        let _capacity = self.nodes.capacity();
        self.nodes.reserve(additional)
    }

    /// The stamp of the newest record of a list.
    pub fn head(&self, list: usize) -> Option<Stamp>
        requires { list < length self.now.chains }
        ensures { result ≡ newest (slice_index_or self.now.chains list []) }
    {
        let head = self.heads[list];
        if head.len == 0 {
            return None;
        }
        match self.nodes.get(head.key) {
            None => None,
            Some(node) => {
                let stamp = node.stamp;
                Some(stamp)
            }
        }
    }

    /// How many records a list has.
    pub fn count(&self, list: usize) -> usize
        requires { list < length self.now.chains }
        ensures { result ≡ length (slice_index_or self.now.chains list []) }
    {
        let head = self.heads[list];
        head.len
    }

    /// Puts a record in front of a list, where there is room. It takes no memory, and no more room than that.
    pub fn push_reserved(&mut self, list: usize, stamp: Stamp, image: D)
        requires within { list < length self.old.chains }
        requires room { 0 < self.old.room }
        ensures chains { self.new.chains
            ≡ slice_set self.old.chains list (record { stamp = stamp; image = image } ∷ slice_index_or self.old.chains list []) }
        ensures room { self.old.room ≤ self.new.room + 1 }
    {
        let head = self.heads[list];
        let key = self.nodes.insert_reserved(Node {
            stamp,
            image,
            older: head.key,
        });
        let _count = self.nodes.len();
        self.heads[list] = Head {
            len: head.len + 1,
            key,
        };
    }

    /// Takes the newest record out of a list that has one. Its place serves the next push.
    pub fn take_newest(&mut self, list: usize) -> (Stamp, D)
        requires within { list < length self.old.chains }
        requires some { 0 < length (slice_index_or self.old.chains list []) }
        ensures first { slice_index_or self.old.chains list []
            ≡ record { stamp = result.0; image = result.1 } ∷ drop 1 (slice_index_or self.old.chains list []) }
        ensures chains { self.new.chains ≡ slice_set self.old.chains list (drop 1 (slice_index_or self.old.chains list [])) }
        ensures room { self.old.room + 1 ≤ self.new.room }
    {
        let head = self.heads[list];
        let node = self.nodes.remove(head.key);
        self.heads[list] = Head {
            len: head.len - 1,
            key: node.older,
        };
        (node.stamp, node.image)
    }

    /// Takes the newest record of a list out and answers its image, where its mark is this identifier.
    pub fn pop_own(&mut self, list: usize, id: u64) -> Option<D>
        requires { list < length self.old.chains }
        ensures image { result ≡ own_image id (slice_index_or self.old.chains list []) }
        ensures chains { self.new.chains ≡ slice_set self.old.chains list (without_own id (slice_index_or self.old.chains list [])) }
        ensures room { OnSome result (self.old.room + 1 ≤ self.new.room) }
        ensures kept { self.old.room ≤ self.new.room }
    {
        let newest = self.head(list);
        match newest {
            Some(stamp) if stamp.mark == id => Some(self.take_newest(list).1),
            _ => None,
        }
    }

    /// Gives the newest record of a list this time as its mark, where its mark is this identifier.
    pub fn stamp_own(&mut self, list: usize, id: u64, time: u64)
        requires { list < length self.old.chains }
        ensures chains { self.new.chains ≡ slice_set self.old.chains list (stamped id time (slice_index_or self.old.chains list [])) }
        ensures room { self.old.room ≤ self.new.room }
    {
        let newest = self.head(list);
        match newest {
            Some(stamp) if stamp.mark == id => {
                let (stamp, image) = self.take_newest(list);
                let owner = stamp.owner;
                self.push_reserved(list, Stamp { owner, mark: time }, image);
            }
            _ => {}
        }
    }

    /// Takes every record of a list out.
    pub fn clear(&mut self, list: usize)
        requires { list < length self.old.chains }
        ensures chains { self.new.chains ≡ slice_set self.old.chains list [] }
        ensures room { self.old.room ≤ self.new.room }
    {
        while self.head(list).is_some() {
            let (_stamp, _image) = self.take_newest(list);
        }
    }

    /// What a viewer sees through a list, from what is in place.
    pub fn see(&self, list: usize, viewer: &Viewer, base: &mut D::Base)
        requires { list < length self.now.chains }
        ensures { base.new ≡ seen D.applied viewer.now base.old (slice_index_or self.now.chains list []) }
    {
        let head = self.heads[list];
        let mut key = head.key;
        for _passed in 0..head.len {
            let Some(node) = self.nodes.get(key) else {
                return;
            };
            let stops = is_end(viewer, node.stamp.mark);
            if stops {
                return;
            }
            node.image.apply(base);
            key = node.older;
        }
    }

    /// What was there before the newest record of a list, if it has one, from what is in place.
    pub fn see_before(&self, list: usize, base: &mut D::Base)
        requires { list < length self.now.chains }
        ensures { base.new ≡ before_newest D.applied base.old (slice_index_or self.now.chains list []) }
    {
        let head = self.heads[list];
        if head.len == 0 {
            return;
        }
        if let Some(node) = self.nodes.get(head.key) {
            node.image.apply(base);
        }
    }

    /// What pruning by a cover does with a list. It goes over the list once, and moves nothing.
    pub fn outlook(&self, list: usize, cover: &Cover) -> Outlook
        requires { list < length self.now.chains }
        ensures { Foretells result cover.now (slice_index_or self.now.chains list []) }
    {
        let head = self.heads[list];
        if head.len == 0 {
            return Outlook::Stays;
        }
        let Some(newest) = self.nodes.get(head.key) else {
            return Outlook::Stays;
        };
        let mark = newest.stamp.mark;
        if fate_behind(None, mark, cover) != Fate::Keep {
            return Outlook::Mixed;
        }
        if head.len == 1 {
            return Outlook::Stays;
        }
        let Some(second) = self.nodes.get(newest.older) else {
            return Outlook::Stays;
        };
        let second_mark = second.stamp.mark;
        let rest = Head {
            len: head.len - 2,
            key: second.older,
        };
        // A second one that merges leaves the newest as the one that the third stands behind.
        match fate_behind(Some(mark), second_mark, cover) {
            Fate::Keep if stay_behind(&self.nodes, rest, second_mark, cover) => Outlook::Stays,
            Fate::Merge if stay_behind(&self.nodes, rest, mark, cover) => Outlook::JoinsNewest,
            _ => Outlook::Mixed,
        }
    }
}
