//! Rows as tests print them.

use hy_value::{StoredRow, print_stored_row};
use std::alloc::Global;
use std::test::Fail;

/// Rows as they are printed, each followed by a space.
pub fn printed(alloc: Global, rows: &[StoredRow]) -> Result<String, Fail> {
    let mut bytes = Vec::new(alloc);
    for row in rows {
        print_stored_row(row, &mut bytes)?;
        bytes.push(b' ')?;
    }
    Ok(String::from_utf8(bytes)?)
}
