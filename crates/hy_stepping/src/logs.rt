//! The redo log of a run can be recovered: what the journal has stands on the first tables, and leaves the machine's.

ghost use Rattle.hy_stepping.specs.Logs.{EntriesLeaveTables, EntriesStand, LogsRecoverTables};

/// Where the engine shows a state that the machine comes to, whatever the run, the entries of its journal stand on the first
/// tables, one after another: each is of the tables' columns, each of its changes begins from the row that stands at its
/// position, and the times rise. And the tables after the first of them, however many, are the machine's tables after as
/// many entries of the commit order.
pub fn entries_stand()
    ensures stand { EntriesStand }
    ensures leave { EntriesLeaveTables }
{
    hy_lawful::reached_rows_meet_demands();
    hy_lawful::reached_entries_stand();
    hy_refinement::entries_tell_changes();
}

/// So a log that has the first entries of the journal, however many, whatever follows its closed gate, recovers to the
/// machine's tables after as many entries of the commit order.
pub fn logs_recover_tables()
    ensures { LogsRecoverTables }
{
    entries_stand();
    hy_redo::crashes_recover();
}
