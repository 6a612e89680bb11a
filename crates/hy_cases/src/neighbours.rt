//! Where the laws of statements end: neighbours of them that ask for less, each of which is false.

ghost use Rattle.hy_cases.specs.Bags.{MissingTablesSuffice, SetsSuffice};
ghost use Rattle.hy_cases.specs.Columns.{AllButOneSuffice, AnyColumnIsTaken, WhereColumnsSuffice};
ghost use Rattle.hy_cases.specs.Followed.{EveryPositionIsFollowed, MissingTablesCount};
ghost use Rattle.hy_cases.specs.Groups.{GatheredColumnsSuffice, GroupedColumnSuffices};
ghost use Rattle.hy_cases.specs.Plans.{RestrictionsSuffice, ShownColumnsAnswer};
ghost use Rattle.hy_cases.specs.Positions.{AnyPositionsSuffice, AnyRowsKeepWidths, AnyRowsLeaveOwn, AnyTablesSuffice, SelectedPositionsMayDiffer};
ghost use Rattle.hy_cases.specs.Readings.{AnotherKeySuffices, AnyKeysSuffice, ManyColumnsAreReadAgain};
ghost use Rattle.hy_cases.specs.Runs.{OwnPositionsMayDiffer, TakenBackMayDiffer};
ghost use Rattle.hy_cases.specs.Shown.{AnyColumnsSuffice, ShownColumnsSuffice};
ghost use Rattle.hy_cases.specs.Unseen.{AfterImagesSuffice, BeforeImagesSuffice, AnyWidthsSuffice, InsertsNeedNoRecord, ManyColumnsSuffice};
ghost use Rattle.hy_cases.specs.Visits.{RevisitsAddUp};

/// A row that leaves a count is not seen by its after-image: validation must look at the row before a change too.
pub fn after_images_do_not_suffice()
    ensures { AfterImagesSuffice → ⊥ }
{}

/// A row that comes into a count, a phantom, is not seen by its before-image: validation must look at the row after.
pub fn before_images_do_not_suffice()
    ensures { BeforeImagesSuffice → ⊥ }
{}

/// Rows that are not as wide as their table may lose a column unseen: what is unseen holds of rows that fit.
pub fn widths_matter()
    ensures { AnyWidthsSuffice → ⊥ }
{}

/// A set of columns has none from number 32 on, so that a change of such a column hits no record: tables have at most 32.
pub fn a_table_has_few_columns()
    ensures { ManyColumnsSuffice → ⊥ }
{}

/// A row with the key may have come: an INSERT must record that it looked for its key.
pub fn an_insert_needs_its_record()
    ensures { InsertsNeedNoRecord → ⊥ }
{}

/// A record without the columns of WHERE is not hit by the change of one of them: it must have these columns too.
pub fn a_record_needs_the_columns_of_where()
    ensures shown { AnyColumnsSuffice → ⊥ }
    ensures replies { ShownColumnsSuffice → ⊥ }
{}

/// An UPDATE writes the whole row, with columns that it doesn't read: positions that a transaction wrote must be as they
/// were at its start, though no record is hit there.
pub fn own_positions_must_not_differ()
    ensures { OwnPositionsMayDiffer → ⊥ }
{}

/// What a transaction wrote may be read by itself before it is taken back, at a row that no record tells of: positions that
/// it took back must be as they were at its start too, so they stay its own until it ends.
pub fn positions_taken_back_must_not_differ()
    ensures { TakenBackMayDiffer → ⊥ }
{}

/// A part that goes over positions again selects their rows again: visits add up where each position is visited once.
pub fn revisits_do_not_add_up()
    ensures { RevisitsAddUp → ⊥ }
{}

/// A COUNT counts a row as often as it is there: a table is a bag of rows, and no set.
pub fn sets_do_not_suffice()
    ensures { SetsSuffice → ⊥ }
{}

/// A table that isn't there has no rows, as an empty one has none, but gets none by an INSERT: databases that stay the
/// same bag by bag have as many tables.
pub fn a_missing_table_gets_no_rows()
    ensures { MissingTablesSuffice → ⊥ }
{}

/// Rows that differ in a single column which a condition names may differ for the condition.
pub fn every_named_column_matters()
    ensures { AllButOneSuffice → ⊥ }
{}

/// The right sides of SET read columns that WHERE need not name: the record of an UPDATE must have these too.
pub fn a_record_needs_the_columns_of_set()
    ensures { WhereColumnsSuffice → ⊥ }
{}

/// A part of a plan has no column from number 32 on, named or not: what it takes is what is named below 32.
pub fn a_part_has_few_columns()
    ensures { AnyColumnIsTaken → ⊥ }
{}

/// A join asks ON of the rows that were gathered: a part must take the columns of ON, though they are not shown.
pub fn a_part_needs_the_columns_of_on()
    ensures { ShownColumnsAnswer → ⊥ }
{}

/// What ON says of two tables is in no part's condition: the rest of a plan must be asked of the joined rows.
pub fn the_rest_must_be_asked()
    ensures { RestrictionsSuffice → ⊥ }
{}

/// A sum over groups is made of what was gathered: the part must take the summed column besides the grouped one.
pub fn a_part_needs_the_summed_column()
    ensures { GroupedColumnSuffices → ⊥ }
{}

/// WHERE is asked before a row is gathered, but a row may leave it by a change of a column that is not gathered: the
/// record of a SELECT with GROUP BY must have the columns of WHERE too.
pub fn a_group_needs_the_columns_of_where()
    ensures { GatheredColumnsSuffice → ⊥ }
{}

/// Of a table that is looked up by a key which is no column of it no row is read: a key must be one of its table's columns.
pub fn keys_are_columns()
    ensures { AnyKeysSuffice → ⊥ }
{}

/// A condition of column 32 is not true of what was read under it, where this column is NULL: what is read is read again
/// of tables with at most 32 columns.
pub fn few_columns_are_read_again()
    ensures { ManyColumnsAreReadAgain → ⊥ }
{}

/// A record of another key tells nothing of the rows that have the key of an INSERT.
pub fn an_insert_looks_at_no_other_key()
    ensures { AnotherKeySuffices → ⊥ }
{}

/// A row at a position that its table doesn't have is nowhere, though its INSERT is answered, and so is one of a table for
/// which there are no own writes: INSERTs must take positions of their tables, and tables must be those of the setting.
pub fn an_insert_takes_a_position()
    ensures positions { AnyPositionsSuffice → ⊥ }
    ensures tables { AnyTablesSuffice → ⊥ }
{}

/// An INSERT writes its row as it is: rows stay as wide as their tables where the statements fit them.
pub fn inserted_rows_must_fit()
    ensures widths { AnyRowsKeepWidths → ⊥ }
    ensures own { AnyRowsLeaveOwn → ⊥ }
{}

/// An UPDATE writes the columns that it doesn't set as it finds them: rows that it selects must be the same, though their
/// difference hits no record.
pub fn selected_positions_must_not_differ()
    ensures { SelectedPositionsMayDiffer → ⊥ }
{}

/// An INSERT into a table that isn't there is answered and writes nothing: positions are counted of tables that are there.
pub fn an_insert_needs_its_table()
    ensures { MissingTablesCount → ⊥ }
{}

/// An INSERT writes a position where no row stood, and no statement selects it there: rows are followed from the start of a
/// transaction on, and what it inserts is counted.
pub fn inserted_rows_are_not_followed()
    ensures { EveryPositionIsFollowed → ⊥ }
{}
