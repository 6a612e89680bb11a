//! What holds of every state that the machine comes to, and of what its transactions did.

ghost use Rattle.hy_lawful.specs.Reached.{ReachedHaveRun, ReachedPassUnseen};
ghost use Rattle.hy_lawful.specs.Overlaps.{OpenOnesOverlap};
ghost use Rattle.hy_lawful.specs.Rooms.{ReachedPlaced};
ghost use Rattle.hy_lawful.specs.EffectRows.{InsertsCountPositions, RowsAreFollowed};
ghost use Rattle.hy_lawful.specs.Kept.{ReachedAreKept};
ghost use Rattle.hy_lawful.specs.Views.{ReachedKeysStay, ReachedSeenFit, ReachedTablesFit, ReachedViewsFit};
ghost use Rattle.hy_lawful.specs.Rows.{ReachedEntriesStand, ReachedRowsMeetDemands};

/// What a transaction did until it ended is what its answered statements come to over the tables of its start, each
/// INSERT at the position that it took: its replies, its records, and where it committed its writes.
pub fn transactions_have_run()
    ensures { ReachedHaveRun }
{}

/// What was committed between the start of a transaction and its own place of the commit order is unseen by it: it
/// changed no position that the transaction wrote, and hit nothing that it read.
pub fn the_committed_passed_unseen()
    ensures { ReachedPassUnseen }
{}

/// While a transaction is open, one of another session that is open too, or has come into the commit order since its
/// start, is one that may have been open with it, as the outcome tells in the end.
pub fn open_ones_may_overlap()
    ensures { OpenOnesOverlap }
{}

/// A transaction that has ended placed no more positions of a table than its INSERTs took.
pub fn inserts_take_what_is_placed()
    ensures { ReachedPlaced }
{}

/// Of each table, the statements of a transaction write as many positions without a row as their INSERTs took: an UPDATE
/// or a DELETE writes only positions where a row stood, or that the transaction had written.
pub fn inserts_count_positions()
    ensures { InsertsCountPositions }
{}

/// A row that stood at the start of a transaction is written by it exactly where one of its statements selects the row as
/// the statements before left it, and then what it wrote is the row followed through all of them.
pub fn rows_are_followed()
    ensures { RowsAreFollowed }
{}

/// Each state that the machine comes to is kept: transactions stand where their scripts let them, each entry is of one that
/// committed at its rank or of the marked one, over the cells of its rank, and what a transaction holds no other one holds,
/// and no entry has written since its start.
pub fn reached_states_are_kept()
    ensures { ReachedAreKept }
{}

/// Where the first rows and the statements of what is run fit its tables, so does what every open transaction sees, also in
/// the middle of a statement: the rows that it sees in a table have the table's columns.
pub fn reached_views_fit()
    ensures { ReachedViewsFit }
{}

/// So do the tables after any first entries of the commit order.
pub fn reached_tables_fit()
    ensures { ReachedTablesFit }
{}

/// Whatever a test demands of the rows of each table: where the first rows meet it, and so do the rows that the statements
/// write, every row meets it that is in the tables after any first entries of the commit order, or that an entry leaves.
pub fn reached_rows_meet_demands()
    ensures { ReachedRowsMeetDemands }
{}

/// Each entry fits the tables that stand before it, and what it says of a position begins from the cell that stands there.
pub fn reached_entries_stand()
    ensures { ReachedEntriesStand }
{}

/// So does what such a transaction saw when it had written less: what ROLLBACK TO writes back fits.
pub fn reached_savepoints_fit()
    ensures { ReachedSeenFit }
{}

/// Where an open transaction has written a row at a position that had a row at its start, the two have the same key, also in what
/// was its own when it had written less: an UPDATE sets no key, and an INSERT comes where no row stands.
pub fn reached_keys_stay()
    ensures { ReachedKeysStay }
{}
