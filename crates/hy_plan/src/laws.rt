//! What is taken of a table is of that table alone.

ghost use Rattle.hy_plan.specs.OfOneTable.{RestrictionsAreOfTheirTables, ColumnsAreThoseNamed, NamedColumnsAreOneSet, PartsAreOfTheirTables};

/// What ON and WHERE say of a table alone names its columns alone, and of its columns those are taken that
/// the statement names; so it is for each part of a plan. No other set of columns has just these.
pub fn parts_are_of_their_tables()
    ensures restrictions { RestrictionsAreOfTheirTables }
    ensures columns { ColumnsAreThoseNamed }
    ensures one_set { NamedColumnsAreOneSet }
    ensures parts { PartsAreOfTheirTables }
{}
