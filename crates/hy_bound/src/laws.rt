//! What conditions and expressions depend on.

ghost use Rattle.std.specs.Prelude.{◌≡◌, ◌≤◌, ℕ, List, true, is_some, length};
ghost use Rattle.hy_value.specs.declared.Value.{Value};
ghost use Rattle.hy_bound.specs.declared.Assign.{Assign};
ghost use Rattle.hy_bound.specs.Condition.{Condition};
ghost use Rattle.hy_bound.specs.Expression.{Expression};
ghost use Rattle.hy_bound.specs.Predicate.{sense_of};
ghost use Rattle.hy_bound.specs.Assignment.{value_of, assigned};
ghost use Rattle.hy_bound.specs.Projection.{masked, projected, spread};
ghost use Rattle.hy_bound.specs.Records.{columns_of, columns_read, set_columns};
ghost use Rattle.hy_bound.specs.Agreement.{Agree};
ghost use Rattle.hy_value.specs.declared.ColMask.{ColMask};

/// What a condition says of a row, what an expression is in it, and whether SET is in range for it depend
/// only on the columns that they name.
pub fn only_named_columns_matter()
    ensures conditions { (condition : Condition) (row other : List Value) → Agree (columns_of condition) row other
        → sense_of condition row ≡ sense_of condition other }
    ensures expressions { (expression : Expression) (row other : List Value) → Agree (columns_read expression) row other
        → value_of expression row ≡ value_of expression other }
    ensures ranges { (sets : List Assign) (row other : List Value) → Agree (set_columns sets) row other
        → is_some (assigned sets row) ≡ is_some (assigned sets other) }
{}

/// The values that were projected from a row give it back, with NULL in the other columns.
pub fn projections_are_spread()
    ensures { (columns : ColMask) (row : List Value) → spread columns (length row) (projected columns row) ≡ masked columns row }
{}
