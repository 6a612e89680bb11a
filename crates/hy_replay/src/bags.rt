//! That where the rows of a table stand doesn't matter: a transaction over tables of positions is the same transaction
//! over bags of rows.

ghost use Rattle.hy_replay.specs.BagLaws.{RunsAreAlone, RunsLogAlone};

use hy_laws::only_the_bag_of_rows_matters;

/// What the statements of a transaction come to over tables of positions, each INSERT at the free position that it
/// took, is what they give alone over these tables' bags of rows: the same replies, the same bags of rows after, no
/// stop, and the same records of what they read.
pub fn a_run_over_cells_is_alone()
    ensures alone { RunsAreAlone }
    ensures records { RunsLogAlone }
{
    only_the_bag_of_rows_matters();
}
