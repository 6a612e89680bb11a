//! Statements as the engine runs them, with names and types resolved: predicates, SET, records of
//! reads, replies, and how a transaction ends.
#![tactic(auto)]

ghost use Rattle.std.specs.Prelude.{◌≡◌, IfOk};
ghost use Rattle.hy_bound.specs.Records.{shape_of};

mod cells;
mod conjuncts;
mod expression;
mod laws;
mod name;
mod predicate;
mod projection;
mod records;
mod savepoints;
mod schedule;

pub use conjuncts::conditions;
pub use expression::{ExprRoot, Leaf, Operator, SetExpr, set_row, value, value_ref};
use hy_stamp::Label;
use hy_value::{ColMask, Row, Seq, StoredRow, Value};
pub use laws::{only_named_columns_matter, projections_are_spread};
pub use name::Name;
pub use predicate::{
    Pred, Root, Side, SideView, cell, column_ref, column_value, compare, is_null, stored_truth,
    truth,
};
pub use projection::{mask_row, project_row};
pub use records::hits;
pub use savepoints::{SavedName, keep_open, newest_savepoint};
pub use schedule::{Item, Schedule};
use std::alloc::{AllocError, Global};

/// Column or table numbers.
pub type Numbers = Seq<u32>;

/// A value of SET leaves 64 bits.
#[derive(Clone, Copy, Debug, PartialEq, Eq)]
pub struct Range;

/// An assignment of UPDATE: the column on the left, and what it is set to.
#[derive(Drop)]
pub struct Assign {
    /// The column that is set.
    pub column: u32,
    /// What it is set to, which reads the row as it was before the statement.
    pub value: SetExpr,
}

/// The assignments of an UPDATE.
pub type Sets = Seq<Assign>;

/// Two columns that ON makes equal.
#[derive(Clone, Copy, Debug, PartialEq, Eq)]
pub struct On {
    /// The column on the left of `=`.
    pub left: u32,
    /// The column on the right.
    pub right: u32,
}

/// The equalities of a SELECT's joins.
pub type Ons = Seq<On>;

/// What a SELECT shows of the rows that it selects.
#[derive(Drop)]
pub enum Items {
    /// These columns.
    Columns(Numbers),
    /// The sum of a column.
    Sum(u32),
    /// How many they are.
    Count,
}

impl Items {
    /// A copy.
    pub fn copy(&self, alloc: Global) -> Result<Items, AllocError>
        ensures { IfOk result (λ items. items ≡ self.now) }
    {
        match self {
            Items::Columns(columns) => {
                let columns = Seq::from_slice(alloc, columns.as_slice())?;
                Ok(Items::Columns(columns))
            }
            Items::Sum(column) => Ok(Items::Sum(*column)),
            Items::Count => Ok(Items::Count),
        }
    }
}

/// What a SELECT with GROUP BY tells of each group.
#[derive(Clone, Copy, Debug, PartialEq, Eq)]
pub enum Aggregate {
    /// How many rows it has.
    Count,
    /// The sum of a column.
    Sum(u32),
}

/// A statement of a transaction.
#[derive(Drop)]
pub enum Bound {
    /// SELECT: a product of tables, a filter, and what is shown.
    Select {
        /// The tables, in FROM order.
        tables: Numbers,
        /// The equalities of ON, in order.
        ons: Ons,
        /// The condition of WHERE.
        pred: Pred,
        /// What is shown.
        items: Items,
    },
    /// SELECT with GROUP BY: the selected rows of a table, by their values in a column.
    Group {
        /// The table.
        table: u32,
        /// The condition.
        pred: Pred,
        /// The column by whose values the rows are grouped.
        key: u32,
        /// What is told of each group.
        aggregate: Aggregate,
    },
    /// INSERT: a row comes, unless one with its key is there.
    Insert {
        /// The table.
        table: u32,
        /// The row, as it is kept: a script may have many.
        row: StoredRow,
    },
    /// UPDATE: the rows that the condition selects are set.
    Update {
        /// The table.
        table: u32,
        /// The assignments.
        sets: Sets,
        /// The condition.
        pred: Pred,
    },
    /// DELETE: the rows that the condition selects go.
    Delete {
        /// The table.
        table: u32,
        /// The condition.
        pred: Pred,
    },
    /// SAVEPOINT: from here one can go back.
    Savepoint {
        /// The name of the savepoint.
        name: Name,
    },
    /// ROLLBACK TO: what was written since the newest savepoint of the name is taken back. That savepoint stays open,
    /// those made after it don't.
    RollbackTo {
        /// The name of the savepoint.
        name: Name,
    },
    /// RELEASE: the newest savepoint of the name, and those made after it, are no more.
    Release {
        /// The name of the savepoint.
        name: Name,
    },
}

/// The statements of a transaction.
pub type Statements = Seq<Bound>;

/// A transaction of a script.
#[derive(Drop)]
pub struct Txn {
    /// Whether it was begun READ ONLY.
    pub read_only: bool,
    /// Its statements, without BEGIN and what closes it.
    pub statements: Statements,
    /// Whether it closes with COMMIT; if not, with ROLLBACK.
    pub commits: bool,
}

/// The transactions of a session.
pub type Txns = Seq<Txn>;

/// The columns of a table.
#[derive(Clone, Copy, Debug, PartialEq, Eq)]
pub struct Shape {
    /// How many they are.
    pub width: u32,
    /// The key, if it has one.
    pub key: Option<u32>,
}

/// The shapes of a script's tables, by number.
pub type Shapes = Seq<Shape>;

/// The shape of a table; one that isn't there has no columns.
pub fn table_shape(shapes: &[Shape], table: u32) -> Shape
    ensures { result ≡ shape_of shapes.now table }
{
    match shapes.get(table as usize) {
        Some(shape) => *shape,
        None => Shape {
            width: 0,
            key: None,
        },
    }
}

/// What an UPDATE or a DELETE does with a row that it selects.
#[derive(Drop)]
pub enum WriteKind {
    /// It sets columns.
    Set(Sets),
    /// The row goes.
    Delete,
}

/// A SELECT, by its parts.
#[derive(Clone, Copy)]
pub struct Query<'a> {
    /// The tables, in FROM order.
    pub tables: &'a [u32],
    /// The equalities of ON, in order.
    pub ons: &'a [On],
    /// The condition of WHERE.
    pub pred: &'a Pred,
    /// What is shown.
    pub items: &'a Items,
}

/// Conditions on rows.
pub type Conditions = Seq<Pred>;

/// What a statement read of a table, for precision locking (Jordan, Banerjee, Batman, SIGMOD 1981).
#[derive(Drop)]
pub struct Record {
    /// The statement's number in its transaction, from 1.
    pub statement: u32,
    /// The table.
    pub table: u32,
    /// The restriction of the table's rows.
    pub pred: Pred,
    /// The columns that the statement looks at, those of the restriction among them.
    pub columns: ColMask,
}

/// The records of a transaction.
pub type Records = Seq<Record>;

/// Rows of a table, as a script gives them or as they are gathered.
pub type Rows = Seq<Row>;

/// Rows of a reply, or of a table at the end of a run.
pub type StoredRows = Seq<StoredRow>;

/// A group of a reply.
#[derive(Drop)]
pub struct Grouped {
    /// The value by which its rows are grouped.
    pub value: Value,
    /// How many they are, or the sum over them.
    pub total: i128,
}

/// The groups of a reply.
pub type Groups = Seq<Grouped>;

/// The reply to a statement.
#[derive(Drop)]
pub enum Reply {
    /// The rows that a SELECT shows, ascending.
    Rows(StoredRows),
    /// The sum or the number of rows that a SELECT shows.
    Value(i128),
    /// The groups that a SELECT shows, by their values.
    Groups(Groups),
    /// The row of an INSERT has come.
    Inserted,
    /// The row of an INSERT has not come, since a row has its key.
    Duplicate,
    /// How many rows an UPDATE selected.
    Updated(u64),
    /// How many rows a DELETE removed.
    Deleted(u64),
    /// A SAVEPOINT was made.
    Saved,
    /// What was written since a savepoint was taken back.
    Back,
    /// A savepoint is no more.
    Released,
}

/// The replies of a transaction.
pub type Replies = Seq<Reply>;

/// How a transaction ended.
#[derive(Clone, Copy, Debug, PartialEq, Eq)]
pub enum Ending {
    /// Committed, at this rank of the commit order.
    Committed {
        /// The rank, from 0.
        rank: u32,
    },
    /// Committed, having written no position.
    Read,
    /// By ROLLBACK.
    RolledBack,
    /// Refused at a position that another transaction wrote.
    Conflict {
        /// The table.
        table: u32,
        /// The position.
        pos: u32,
        /// The transaction that wrote it.
        other: Label,
    },
    /// Refused by validation: a change hits what a statement read.
    Invalid {
        /// The table of the change.
        table: u32,
        /// Its position.
        pos: u32,
        /// The transaction whose change it is.
        other: Label,
        /// The number of the statement, from 1.
        statement: u32,
    },
    /// Refused since a value of SET leaves 64 bits.
    Range {
        /// The table.
        table: u32,
        /// The position of the row.
        pos: u32,
    },
    /// Refused since there was no room for an insert.
    Full {
        /// The table.
        table: u32,
    },
}
