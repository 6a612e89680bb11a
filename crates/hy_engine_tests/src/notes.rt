//! Notes that come in any order.

use hy_notes::{Changes, NotedPlace};
use std::test::Fail;

/// More than two full blocks of notes, which have at most 128 each.
const MANY: u32 = 300;

#[test]
fn an_earlier_table_that_is_noted_later_comes_first(rt: HostRuntime) -> Result<(), Fail> {
    let mut changes = Changes::new(rt.alloc());
    for pos in 0..MANY {
        changes.reserve(1, 0, 0)?;
        changes.note_reserved(1, pos, None, None);
    }
    for pos in 0..MANY {
        changes.reserve(1, 0, 0)?;
        changes.note_reserved(0, pos, None, None);
    }
    let behind = NotedPlace { table: 1, pos: 0 };
    let within = NotedPlace { table: 0, pos: 200 };
    assert_eq!(rt; changes.len(), 600);
    assert_eq!(rt; changes.first_from(0, 200), Some(within));
    assert_eq!(rt; changes.first_from(0, 300), Some(behind));
    assert_eq!(rt; changes.first_from(1, 1 << 32), None);
    Ok(())
}

#[test]
fn scattered_notes_come_in_order(rt: HostRuntime) -> Result<(), Fail> {
    let mut changes = Changes::new(rt.alloc());
    for turn in 0..MANY {
        changes.reserve(2, 0, 0)?;
        changes.note_reserved(0, turn * 7 % MANY, None, None);
        changes.note_reserved(0, turn * 7 % MANY, None, None);
    }
    let places = changes.places()?;
    assert_eq!(rt; places.len(), 300);
    for (pos, place) in places.as_slice().iter().enumerate() {
        assert_eq!(rt; place.pos as usize, pos);
    }
    assert_eq!(rt; changes.take_all()?.len(), 300);
    Ok(())
}
