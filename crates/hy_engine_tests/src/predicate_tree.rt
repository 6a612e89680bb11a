//! The predicate tree, and validation by it. Column 0 is `id` and column 1 is `bal`.

use hy_bound::{Pred, Record};
use hy_given::{compare, stored_pair};
use hy_journal::Entry;
use hy_stamp::Label;
use hy_validate::{Invalid, Tree, validate_with};
use hy_value::{Change, Cmp, ColMask, Seq, StoredRow};
use std::test::Fail;

/// A record of table 0 by the first statement.
fn read(pred: Pred, columns: ColMask) -> Record {
    Record {
        statement: 1,
        table: 0,
        pred,
        columns,
    }
}

/// A change of the row at position 0 of table 0.
fn change(before: Option<StoredRow>, after: Option<StoredRow>) -> Change {
    Change {
        table: 0,
        pos: 0,
        before,
        after,
    }
}

#[test]
fn the_first_record_that_is_hit(rt: HostRuntime) -> Result<(), Fail> {
    let alloc = rt.alloc();
    let is_nine = compare(alloc, 0, Cmp::Eq, 9)?;
    let is_rich = compare(alloc, 1, Cmp::Gt, 50)?;
    let records = vec![in alloc;
        read(is_nine, ColMask::none().with(0)),
        read(is_rich, ColMask::none().with(1)),
    ]?;
    let tree = Tree::build(alloc, &records)?;
    let comes = change(None, Some(stored_pair(alloc, 3, 70)?));
    assert_eq!(rt; tree.first_hit(&comes), Some(1));
    let falls = change(
        Some(stored_pair(alloc, 3, 70)?),
        Some(stored_pair(alloc, 3, 40)?),
    );
    assert_eq!(rt; tree.first_hit(&falls), Some(1));
    let rises = change(
        Some(stored_pair(alloc, 1, 10)?),
        Some(stored_pair(alloc, 1, 20)?),
    );
    assert_eq!(rt; tree.first_hit(&rises), None);
    Ok(())
}

#[test]
fn a_record_of_all_rows_and_one_of_a_key(rt: HostRuntime) -> Result<(), Fail> {
    let alloc = rt.alloc();
    let is_one = compare(alloc, 0, Cmp::Eq, 1)?;
    let records = vec![in alloc;
        read(Pred::always(), ColMask::none()),
        read(is_one, ColMask::none().with(0).with(1)),
    ]?;
    let tree = Tree::build(alloc, &records)?;
    let rises = change(
        Some(stored_pair(alloc, 1, 10)?),
        Some(stored_pair(alloc, 1, 20)?),
    );
    assert_eq!(rt; tree.first_hit(&rises), Some(1));
    let goes = change(Some(stored_pair(alloc, 1, 10)?), None);
    assert_eq!(rt; tree.first_hit(&goes), Some(0));
    Ok(())
}

#[test]
fn an_entry_is_validated_by_columns(rt: HostRuntime) -> Result<(), Fail> {
    let alloc = rt.alloc();
    let other = Label { session: 0, txn: 1 };
    let mut notes = Seq::new(alloc);
    notes.push(change(
        Some(stored_pair(alloc, 1, 100)?),
        Some(stored_pair(alloc, 1, 90)?),
    ))?;
    let entry = Entry {
        label: other,
        start: 1,
        time: 2,
        notes,
    };
    let entries = vec![in alloc; entry]?;
    let hit = Invalid {
        other,
        table: 0,
        pos: 0,
        number: 0,
    };
    for (columns, wanted) in [
        (ColMask::none().with(0).with(1), Err(hit)),
        (ColMask::none().with(0), Ok(())),
    ] {
        let records = vec![in alloc; read(compare(alloc, 0, Cmp::Eq, 1)?, columns)]?;
        let tree = Tree::build(alloc, &records)?;
        assert_eq!(rt; validate_with(&tree, &entries), wanted);
    }
    Ok(())
}
