//! What statements with their names resolved are.

ghost use Rattle.std.specs.Prelude.{◌≡◌, ◌↔◌, ℕ, List, Some, None};
ghost use Rattle.std.specs.List.{All};
ghost use Rattle.hy_schema.specs.declared.TableDef.{TableDef};
ghost use Rattle.hy_ast.specs.declared.ColumnRef.{ColumnRef};
ghost use Rattle.hy_ast.specs.Trees.{Statement};
ghost use Rattle.hy_bound.specs.Agreement.{HasItsKey};
ghost use Rattle.hy_bound.specs.Fits.{FitsStatement};
ghost use Rattle.hy_bind.specs.declared.scope.Found.{Found};
ghost use Rattle.hy_bind.specs.Meaning.{Means, MeansNothing};
ghost use Rattle.hy_bind.specs.Scope.{Scope, resolved};
ghost use Rattle.hy_bind.specs.Shapes.{catalog_shapes};
ghost use Rattle.hy_bind.specs.Statements.{HasNames, bind_fault, bound_of};

/// A law: where each table's key is one of its columns, a statement that is not refused fits the tables.
pub fn bound_statements_fit()
    ensures { (script : List ℕ) (catalog : List TableDef) (statement : Statement) → HasNames statement
        → All HasItsKey (catalog_shapes catalog) → bind_fault script catalog statement ≡ None
        → FitsStatement (catalog_shapes catalog) (bound_of script catalog statement) }
{}

/// A law: a column's name means the column of the one table of the statement that has it, and nothing where
/// none has it or more than one. A name with a table's means that table's column, where that table stands in
/// the statement.
pub fn names_mean_one_column()
    ensures one { (scope : Scope) (reference : ColumnRef) (found : Found) → (resolved scope reference ≡ Some found) ↔ Means scope reference found }
    ensures none { (scope : Scope) (reference : ColumnRef) → (resolved scope reference ≡ None) ↔ MeansNothing scope reference }
{}
