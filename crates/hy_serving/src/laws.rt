//! What a line says, for all lines.

ghost use Rattle.std.specs.Prelude.{◌≡◌, ◌≤◌, ◌*◌, ◌==◌, ℕ, false, List, length};
ghost use Rattle.std.specs.List.{All};
ghost use Rattle.hy_bound.specs.Agreement.{HasItsKey};
ghost use Rattle.hy_bound.specs.Fits.{Fits, FitsSession};
ghost use Rattle.hy_bound.specs.declared.Txn.{Txn};
ghost use Rattle.hy_bind.specs.Shapes.{catalog_shapes};
ghost use Rattle.hy_script.specs.declared.Options.{Options};
ghost use Rattle.hy_limits.specs.declared.TheConstants.{MOST_SESSIONS};
ghost use Rattle.hy_serving.specs.Fitting.{FitsDesk};
ghost use Rattle.hy_serving.specs.Saying.{desk_after, ended, first_rows, fresh, saying, without_rows};
ghost use Rattle.hy_serving.specs.Suiting.{SuitsDesk};
ghost use Rattle.hy_serving.specs.declared.Desk.{Desk};

use hy_parse::scripts_are_parsed;
use hy_script::{accepted_definitions_fit, accepted_statements_suit};

/// A law: where the tables have their keys, a statement that a line says suits the open transaction of its session.
pub fn what_lines_say_suits()
    ensures { (options : Options) (desk : Desk) (line : List ℕ) → All HasItsKey (catalog_shapes desk.sofar.catalog)
        → SuitsDesk line desk (saying options desk line) }
{
    accepted_statements_suit();
}

/// A law: once there is a session, lines say the same where the first rows were taken out, and come to the same without them.
pub fn first_rows_are_not_asked_for()
    ensures { (options : Options) (desk : Desk) (line : List ℕ) → (length desk.sofar.names == 0) ≡ false
        → (saying options (without_rows desk) line ≡ saying options desk line)
        × (desk_after options (without_rows desk) line ≡ without_rows (desk_after options desk line)) }
{}

/// A law: what the lines have come to fits, before the first, with each, and where a transaction ends. So its tables have their
/// keys, and a run of sessions that fit can begin with its tables and first rows.
pub fn what_lines_come_to_fits()
    ensures first { (options : Options) → FitsDesk options fresh }
    ensures heard { (options : Options) (desk : Desk) (line : List ℕ) → FitsDesk options desk → FitsDesk options (desk_after options desk line) }
    ensures ended { (options : Options) (desk : Desk) (number : ℕ) → FitsDesk options desk → FitsDesk options (ended number desk) }
    ensures keys { (options : Options) (desk : Desk) → FitsDesk options desk → All HasItsKey (catalog_shapes desk.sofar.catalog) }
    ensures begins { (options : Options) (desk : Desk) (sessions : List (List Txn)) → FitsDesk options desk → length sessions ≤ MOST_SESSIONS
        → All (FitsSession (catalog_shapes desk.sofar.catalog)) sessions
        → Fits (catalog_shapes desk.sofar.catalog) (options.chunks * options.rows) (first_rows desk) sessions }
{
    accepted_definitions_fit();
    scripts_are_parsed();
}
