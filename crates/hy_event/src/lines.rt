//! Lines of a session, by which its script grows while it runs.

use hy_bound::Bound;

/// A line of a session.
#[derive(Drop)]
pub enum SessionLine {
    /// BEGIN: a transaction more, which rolls back where no other line closes it.
    Begin {
        /// Whether it is READ ONLY.
        read_only: bool,
    },
    /// A statement of the last transaction.
    Statement(Bound),
    /// COMMIT: the last transaction commits.
    Commit,
    /// ROLLBACK: nothing is added, since the last transaction rolls back.
    Rollback,
}
