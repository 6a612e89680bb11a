//! Where the laws of what is looked up end: neighbours of them that say more, each of which is false.

ghost use Rattle.hy_laws.specs.LookupEnds.{NothingIsLeftOut, AnyKeysSuffice, AnyRowsSuffice};

/// A look-up does leave rows out: less may be looked up than is gathered by the restrictions alone.
pub fn look_ups_leave_rows_out()
    ensures { NothingIsLeftOut → ⊥ }
{}

/// A key must be one of its table's columns: else ON may speak of a column of a later table where the key would stand,
/// and a row, which has no such column, is not wanted.
pub fn a_key_must_be_a_column()
    ensures { AnyKeysSuffice → ⊥ }
{}

/// Rows must be as wide as their table: of a wider row the values behind the table's columns are not gathered.
pub fn rows_must_fit()
    ensures { AnyRowsSuffice → ⊥ }
{}
