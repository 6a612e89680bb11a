//! What a script that was read is.

ghost use Rattle.std.specs.Prelude.{◌≡◌, ℕ, ◌*◌, List, None, Ok, length, map};
ghost use Rattle.std.specs.List.{All, AllZip};
ghost use Rattle.hy_token.specs.declared.Span.{Span};
ghost use Rattle.hy_ast.specs.declared.ColumnDef.{ColumnDef};
ghost use Rattle.hy_ast.specs.declared.Literal.{Literal};
ghost use Rattle.hy_ast.specs.Trees.{Insert, Statement};
ghost use Rattle.hy_parse.specs.Grammar.{HasItem};
ghost use Rattle.hy_schema.specs.declared.TableDef.{TableDef};
ghost use Rattle.hy_bound.specs.Agreement.{HasItsKey};
ghost use Rattle.hy_bound.specs.Fits.{Fits, FitsRows};
ghost use Rattle.hy_bound.specs.Schedules.{FitsSchedule};
ghost use Rattle.hy_bind.specs.Shapes.{catalog_shapes};
ghost use Rattle.hy_bind.specs.Statements.{HasNames, bound_of};
ghost use Rattle.hy_script.specs.declared.judging.Standing.{Standing};
ghost use Rattle.hy_script.specs.declared.Options.{Options};
ghost use Rattle.hy_script.specs.declared.Script.{Script};
ghost use Rattle.hy_script.specs.declared.sofar.SoFar.{SoFar};
ghost use Rattle.hy_script.specs.Reading.{Reads};
ghost use Rattle.hy_script.specs.Binding.{IsBound};
ghost use Rattle.hy_script.specs.Definitions.{AreDefined};
ghost use Rattle.hy_script.specs.Growing.{nothing, table_def, with_first_row, with_table};
ghost use Rattle.hy_script.specs.Refusals.{create_code, first_row_code, statement_code};
ghost use Rattle.hy_script.specs.Suiting.{Suits};

use hy_bind::bound_statements_fit;
use hy_parse::scripts_are_parsed;
use hy_value::order_is_total;

/// A law: what is read fits, its schedule names sessions that are there, and its options are those under
/// which it was read.
pub fn what_is_read_fits()
    ensures script { (bytes : List ℕ) (options : Options) (script : Script) → Reads bytes options (Ok script)
        → Fits (catalog_shapes script.catalog) (options.chunks * options.rows) script.rows (map (λ session. session.txns) script.sessions) }
    ensures schedule { (bytes : List ℕ) (options : Options) (script : Script) → Reads bytes options (Ok script)
        → FitsSchedule (length script.sessions) script.schedule }
    ensures options { (bytes : List ℕ) (options : Options) (script : Script) → Reads bytes options (Ok script) → script.options ≡ options }
{
    bound_statements_fit();
    scripts_are_parsed();
    order_is_total();
}

/// A law: what is read was bound and not refused: each first row has values that its table's columns take, and each
/// statement of a transaction is one of the script's over the tables that stood there by then.
pub fn what_is_read_is_bound()
    ensures { (bytes : List ℕ) (options : Options) (script : Script) → Reads bytes options (Ok script) → IsBound bytes script }
{
    scripts_are_parsed();
}

/// A law: a statement that is not refused suits the open transaction that it stands in.
pub fn accepted_statements_suit()
    ensures { (script : List ℕ) (catalog : List TableDef) (standing : Standing) (statement : Statement) → HasNames statement
        → All HasItsKey (catalog_shapes catalog) → statement_code script catalog standing statement ≡ None
        → Suits script catalog standing (bound_of script catalog statement) }
{
    bound_statements_fit();
}

/// A law: tables and first rows fit before the first definition and with each one that is not refused.
pub fn accepted_definitions_fit()
    ensures first { (options : Options) → AreDefined options nothing }
    ensures table { (script : List ℕ) (options : Options) (sofar : SoFar) (table : Span) (columns : List ColumnDef) → HasItem columns
        → create_code script sofar table columns ≡ None → AreDefined options sofar
        → AreDefined options (with_table sofar (table_def script table columns)) }
    ensures row { (script : List ℕ) (options : Options) (sofar : SoFar) (table : Span) (values : List Literal)
        → first_row_code script options sofar (Insert table values) table values ≡ None → AreDefined options sofar
        → AreDefined options (with_first_row script sofar table values) }
    ensures rows { (options : Options) (sofar : SoFar) → AreDefined options sofar
        → AllZip (FitsRows (options.chunks * options.rows)) (catalog_shapes sofar.catalog) (map (λ stock. stock.rows) sofar.stocks) }
    ensures keys { (options : Options) (sofar : SoFar) → AreDefined options sofar → All HasItsKey (catalog_shapes sofar.catalog) }
{
    bound_statements_fit();
    order_is_total();
}
