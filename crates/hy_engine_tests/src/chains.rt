//! Chains of undo records, their pruning, and the starts that it heeds.

ghost use Rattle.std.specs.Prelude.{◌≡◌, ◌<◌, length};

use hy_chain::{Chains, Image};
use hy_given::pair;
use hy_journal::{Entry, Journal};
use hy_prune::{Active, Cover, Fate, Starts, fate_behind, watermark};
use hy_range::Versioned;
use hy_stamp::{Label, Stamp, Viewer};
use hy_undo::{Delta, Spares, Version};
use hy_value::{Seq, Text, Value, ValueRef};
use std::alloc::{AllocError, Global};
use std::test::Fail;

/// A writer.
const WRITER: Label = Label { session: 0, txn: 1 };

/// A cover of these starts.
fn cover(alloc: Global, starts: &[u64], next: u64) -> Result<Cover, AllocError> {
    Ok(Cover {
        starts: Starts::from_vec(starts.to_vec(alloc)?),
        next,
    })
}

/// Whether the records of a chain, whose times stand newest first, come to these fates.
fn comes_to(alloc: Global, times: &[u64], by: &Cover, fates: &[Fate]) -> Result<bool, AllocError> {
    let mut found = Vec::new(alloc);
    let mut kept = None;
    for time in times {
        let fate = fate_behind(kept, *time, by);
        if fate == Fate::Keep {
            kept = Some(*time);
        }
        found.push(fate)?;
    }
    Ok(found.as_slice() == fates)
}

#[test]
fn fates_are_those_of_a_cover(rt: HostRuntime) -> Result<(), Fail> {
    let alloc = rt.alloc();
    let two = cover(alloc, &[4, 8], 10)?;
    let fates = [Fate::Keep, Fate::Keep, Fate::Merge, Fate::Drop];
    assert!(rt; comes_to(alloc, &[9, 7, 5, 3], &two, &fates)?);
    let none = cover(alloc, &[], 10)?;
    let gone = [Fate::Drop, Fate::Drop, Fate::Drop, Fate::Drop];
    assert!(rt; comes_to(alloc, &[9, 7, 5, 3], &none, &gone)?);
    let one = cover(alloc, &[4], 10)?;
    assert!(rt; comes_to(alloc, &[12, 9], &one, &[Fate::Keep, Fate::Keep])?);
    assert_eq!(rt; (watermark(&two), watermark(&none)), (4, 10));
    Ok(())
}

#[test]
fn a_range_widens(rt: HostRuntime) {
    let mut range = Versioned::none();
    range.cover(5);
    range.cover(2);
    assert_eq!(rt; range, Versioned { first: 2, end: 6 });
    range.clear();
    assert_eq!(rt; range, Versioned { first: 0, end: 0 });
}

#[test]
fn starts_enter_and_leave(rt: HostRuntime) -> Result<(), Fail> {
    let mut active = Active::new(rt.alloc());
    active.reserve(2)?;
    active.enter_reserved(1);
    active.enter_reserved(4);
    let both = active.cover(5)?;
    assert_eq!(rt; both.starts.as_slice(), [1, 4].as_slice());
    assert_eq!(rt; both.next, 5);
    active.leave(1);
    assert_eq!(rt; active.cover(5)?.starts.as_slice(), [4].as_slice());
    Ok(())
}

/// A row of two numbers that is there.
fn live(alloc: Global, id: i64, bal: i64) -> Result<Version, AllocError> {
    Ok(Version {
        row: pair(alloc, id, bal)?,
        live: true,
    })
}

/// Puts a before-image of the balance in front of the first chain.
fn push(alloc: Global, chains: &mut Chains<Delta>, mark: u64, bal: i64) -> Result<(), AllocError>
    requires { 0 < length chains.old.chains }
    ensures { length chains.new.chains ≡ length chains.old.chains }
{
    let mut delta = Delta::blank(alloc, 2)?;
    delta.note_number(1, bal);
    delta.set_live(true);
    chains.reserve(1)?;
    let stamp = Stamp {
        owner: WRITER,
        mark,
    };
    chains.push_reserved(0, stamp, delta);
    Ok(())
}

/// The balance that a viewer of this start sees, where 50 is in place.
fn balance(alloc: Global, chains: &Chains<Delta>, start: u64) -> Result<Option<i64>, AllocError>
    requires { 0 < length chains.now.chains }
{
    let mut version = live(alloc, 1, 50)?;
    let viewer = Viewer { id: 1 << 63, start };
    chains.see(0, &viewer, &mut version);
    match version.row.as_slice() {
        [_, Value::Int(bal)] => Ok(Some(*bal)),
        _ => Ok(None),
    }
}

#[test]
fn pruning_keeps_what_open_starts_see(rt: HostRuntime) -> Result<(), Fail> {
    let alloc = rt.alloc();
    let mut chains = Chains::new(alloc, 1)?;
    push(alloc, &mut chains, 3, 10)?;
    push(alloc, &mut chains, 5, 20)?;
    push(alloc, &mut chains, 7, 30)?;
    push(alloc, &mut chains, 9, 40)?;
    for (start, bal) in [(4, 20), (8, 40), (10, 50)] {
        assert_eq!(rt; balance(alloc, &chains, start)?, Some(bal), "{start}");
    }
    chains.prune(0, &cover(alloc, &[4, 8], 10)?);
    for (start, bal) in [(4, 20), (8, 40), (10, 50)] {
        assert_eq!(rt; balance(alloc, &chains, start)?, Some(bal), "{start}");
    }
    // Two are left: the newest, and one that a start before 4 would see go back to 20.
    assert_eq!(rt; chains.head(0).map(|stamp| stamp.mark), Some(9));
    assert_eq!(rt; balance(alloc, &chains, 2)?, Some(20));
    chains.clear(0);
    assert!(rt; chains.head(0).is_none());
    Ok(())
}

#[test]
fn an_own_record_is_stamped_or_taken_back(rt: HostRuntime) -> Result<(), Fail> {
    let alloc = rt.alloc();
    let mut chains = Chains::new(alloc, 1)?;
    push(alloc, &mut chains, 3, 10)?;
    push(alloc, &mut chains, 5, 20)?;
    assert_eq!(rt; chains.head(0).map(|stamp| stamp.mark), Some(5));
    chains.stamp_own(0, 5, 6);
    assert_eq!(rt; chains.head(0).map(|stamp| stamp.mark), Some(6));
    assert!(rt; chains.pop_own(0, 5).is_none());
    assert!(rt; chains.pop_own(0, 6).is_some());
    assert_eq!(rt; chains.head(0).map(|stamp| stamp.mark), Some(3));
    Ok(())
}

#[test]
fn the_journal_tells_what_came_since(rt: HostRuntime) -> Result<(), Fail> {
    let alloc = rt.alloc();
    let mut journal = Journal::new(alloc);
    journal.reserve(1)?;
    journal.append_reserved(Entry {
        label: WRITER,
        start: 1,
        time: 2,
        notes: Seq::new(alloc),
    });
    assert_eq!(rt; journal.len(), 1);
    assert_eq!(rt; journal.since(0).len(), 1);
    assert!(rt; journal.since(1).is_empty());
    Ok(())
}

/// A text of three bytes.
fn word(alloc: Global) -> Text {
    match Text::new(alloc, "was") {
        Ok(text) => text,
        Err(_) => Text::empty(alloc),
    }
}

/// Notes a number and NULL over an older text, and puts back what was noted.
fn put_back(alloc: Global, version: &mut Version) -> Result<(), AllocError> {
    let mut spares = Spares::new(alloc, 2, 1);
    spares.reserve(2)?;
    let mut older = spares.take();
    older.note(1, ValueRef::Text(&word(alloc)), &mut spares);
    let mut newer = spares.take();
    newer.note_number(0, 7);
    newer.note(1, ValueRef::Null, &mut spares);
    newer.merge_older(older);
    newer.apply(version);
    Ok(())
}

#[test]
fn texts_are_noted_and_put_back(rt: HostRuntime) -> Result<(), Fail> {
    let alloc = rt.alloc();
    let mut version = live(alloc, 1, 50)?;
    put_back(alloc, &mut version)?;
    assert!(rt; !version.live);
    assert!(rt;
        matches!(version.row.as_slice(), [Value::Int(7), Value::Text(text)] if text.as_bytes().len() == 3)
    );
    Ok(())
}
