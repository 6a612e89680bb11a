//! What may be concluded of an outcome that is lawful and serializable, whatever engine gave it.
#![tactic(auto)]

ghost use Rattle.hy_meaning.specs.Statement.{Database};
ghost use Rattle.hy_serial.specs.Replaying.{ReplayingGivesWhatWasPrinted};
ghost use Rattle.hy_serial.specs.Commits.{ReadersStandBeforeWriters, WriteSkewsDoNotCommit, LostUpdatesDoNotCommit};
ghost use Rattle.hy_serial.specs.Circles.{DependenciesGoForward, NoCircles};
ghost use Rattle.hy_serial.specs.Readers.{ReadersEndAsTheyClose, ReadersReadOneDatabase, ReadersCanRepeat};
ghost use Rattle.hy_serial.specs.Readers.{WhoWroteNothingEndsAsRead, RollbacksAreNotRefused, WhoAnswersAllIsToldAsAlone};
ghost use Rattle.hy_serial.specs.Keeping.{StaysKept, TestsStayTrue, ValuesStay};
ghost use Rattle.hy_serial.specs.Prefixes.{RepliesAreOfCommitsBefore, TablesAreOfTheOrder};
ghost use Rattle.hy_serial.specs.Points.{EveryTransactionHasItsPoint};
ghost use Rattle.hy_serial.specs.Naming.{OutcomesAreNamed};

/// The commit order can be replayed: when its transactions run alone, one after another as it is printed, from the
/// first rows on, none stops, each gets the replies that are printed of it, and the last leaves the printed tables.
pub fn replaying_the_order_gives_what_was_printed()
    ensures { ReplayingGivesWhatWasPrinted }
{}

/// Of two transactions that committed, one that read what the other wrote over, and began before this other committed,
/// stands first in the commit order. So two that each began before the other's commit, and each read what the other
/// wrote over, do not both commit; nor do two that began so and change one position.
pub fn write_skews_do_not_commit()
    ensures order { ReadersStandBeforeWriters }
    ensures skews { WriteSkewsDoNotCommit }
    ensures updates { LostUpdatesDoNotCommit }
{}

/// The serialization graph of the committed transactions has no circle. One depends on another where it writes over what
/// this wrote, reads what it wrote, or writes over what it read without being seen by it; then it stands behind it in the
/// commit order. So no path of dependencies leads back to where it began.
pub fn the_serialization_graph_has_no_circle()
    ensures forward { DependenciesGoForward }
    ensures circles { NoCircles }
{}

/// Who only reads is never refused: a transaction without INSERT, UPDATE and DELETE answers all its statements, and
/// ends as read or as rolled back, as it closes. Each of its statements is answered over one database, that of its
/// start, so a statement that it repeats has the same answer. Of the others, who answered all statements and wrote
/// nothing ends as read by COMMIT, a ROLLBACK is never refused, and whoever answered all statements was told exactly
/// what it is told alone from its start on.
pub fn readers_end_as_read()
    ensures only { ReadersEndAsTheyClose }
    ensures one { ReadersReadOneDatabase }
    ensures repeats { ReadersCanRepeat }
    ensures nothing { WhoWroteNothingEndsAsRead }
    ensures rollbacks { RollbacksAreNotRefused }
    ensures told { WhoAnswersAllIsToldAsAlone }
{}

/// What every transaction of a script that closes with COMMIT keeps when it runs alone is kept in every outcome: where a
/// test is true of the first rows, it is true of the printed tables, and of the database at each rank and at each
/// transaction's start. A value that none of them changes alone, as the sum of a column, is everywhere that of the first
/// rows.
pub fn what_transactions_keep_is_kept()
    ensures tests { TestsStayTrue }
    ensures values { ValuesStay }
{}

/// A property of databases.
pub trait Property {
    /// What it says of a database.
    ghost holds: { Database → Type 0 };
}

/// The same of a property that no test need decide.
pub fn a_property_that_transactions_keep_is_kept<P: Property>()
    ensures { StaysKept P.holds }
{}

/// Nobody is told anything of what was rolled back, refused, or committed later: in two outcomes in which the same
/// transactions committed before its start, in the same order, a transaction is told the same, as far as it got. And
/// two outcomes with one commit order have the same printed tables.
pub fn no_one_reads_what_was_rolled_back()
    ensures replies { RepliesAreOfCommitsBefore }
    ensures tables { TablesAreOfTheOrder }
{}

/// Every transaction, however it ended, has its point in the one serial order: its rank where it committed, its start
/// where it did not. Its replies are the first of those that it gets alone there. The points of a session's
/// transactions lie in the session's order, and each starts behind the commits of those before it.
pub fn every_transaction_has_its_point()
    ensures { EveryTransactionHasItsPoint }
{}

/// All that an outcome mentions has a name, where there is one for each table and each session of its script: who is
/// told of, where it wrote, what refused it and where, and what stands in the order; and of each transaction there is a
/// count of inserts for each table. So its text tells it, if the numbers that are printed have at most 64 digits.
pub fn what_an_outcome_mentions_has_a_name()
    ensures { OutcomesAreNamed }
{}
