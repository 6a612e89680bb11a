//! Laws of recovery.

ghost use Rattle.hy_redo.specs.Laws.{RecoveryIsOne, LogsRecover, CrashesRecover};

use hy_log_record::bodies_are_one;

/// Bytes recover to one thing.
pub fn recovery_is_one()
    ensures { RecoveryIsOne }
{
    bodies_are_one();
}

/// The log of entries that stand recovers to the tables after them. So what a crash leaves inside an append recovers to
/// the tables before its entry or after it.
pub fn crashes_recover()
    ensures logs { LogsRecover }
    ensures crashes { CrashesRecover }
{}
