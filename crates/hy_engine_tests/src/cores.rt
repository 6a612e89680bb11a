//! The core, and what a transaction notes.

ghost use Rattle.std.specs.Prelude.{◌≡◌, ◌<◌, ◌^◌};

use hy_core::Core;
use hy_given::pair;
use hy_notes::{Changes, net};
use hy_stamp::Label;
use std::alloc::Global;
use std::test::Fail;

/// A writer, and another transaction.
const WRITER: Label = Label { session: 0, txn: 1 };

const OTHER: Label = Label { session: 1, txn: 1 };

#[test]
fn a_row_that_comes_and_goes_is_no_change(rt: HostRuntime) -> Result<(), Fail> {
    let alloc = rt.alloc();
    let row = pair(alloc, 3, 1)?;
    let mut changes = Changes::new(alloc);
    changes.reserve(2, 2, 0)?;
    changes.note_reserved(0, 2, None, Some(&row));
    changes.note_reserved(0, 2, Some(&row), None);
    assert_eq!(rt; changes.len(), 1);
    assert_eq!(rt; changes.places()?.len(), 1);
    assert_eq!(rt; net(changes.take_all()?).len(), 0);
    Ok(())
}

#[test]
fn notes_that_are_taken_leave_their_room(rt: HostRuntime) -> Result<(), Fail> {
    let alloc = rt.alloc();
    let row = pair(alloc, 3, 1)?;
    let mut changes = Changes::new(alloc);
    changes.reserve(2, 2, 0)?;
    changes.note_reserved(0, 2, None, Some(&row));
    let noted = changes.take_all()?;
    assert_eq!(rt; (noted.len(), changes.len()), (1, 0));
    changes.note_reserved(0, 5, None, Some(&row));
    assert_eq!(rt; changes.len(), 1);
    changes.clear();
    assert_eq!(rt; changes.len(), 0);
    Ok(())
}

// Enters a transaction that noted nothing, whose commit time is answered.
fn enter_none(core: &mut Core, start: u64, alloc: Global) -> Option<u64>
    requires { core.old.next < 2 ^ 63 }
    ensures { core.new.active ≡ core.old.active }
{
    core.enter(WRITER, start, &mut Changes::new(alloc)).ok()
}

#[test]
fn a_commit_is_marked_until_its_end(rt: HostRuntime) -> Result<(), Fail> {
    let mut core = Core::new(rt.alloc());
    let begun = core.begin()?;
    assert_eq!(rt; (begun.start, begun.prefix, begun.cover.next), (1, 0, 2));
    assert_eq!(rt; begun.cover.starts.as_slice(), [1].as_slice());
    let time = enter_none(&mut core, begun.start, rt.alloc());
    assert_eq!(rt; time, Some(2));
    assert_eq!(rt;
        (core.blocked(OTHER), core.blocked(WRITER)),
        (Some(WRITER), None)
    );
    core.leave(begun.start);
    assert_eq!(rt; core.blocked(OTHER), None);
    assert_eq!(rt; core.since(0).len(), 1);
    Ok(())
}
