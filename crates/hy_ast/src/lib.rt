//! Statements as they are written: the parts of each rule of the grammar in the rule's order, each name,
//! literal and operator with its span in the script. A name's or a literal's text is the script's in its
//! span.
#![tactic(auto)]

ghost use Rattle.std.specs.Prelude.{◌≡◌, IfOk};
ghost use Rattle.hy_ast.specs.Trees.{And, Binary, Or, clause_of_short, formula_of, selection_of, selection_of_short, set_clause_of, test_of, test_of_short};
ghost use Rattle.hy_ast.specs.Trees.{unqualified, unsigned};

use hy_token::Span;
use hy_value::{Cmp, Kind, Seq};
use std::alloc::{AllocError, Global};

/// A column, `column` or `table.column`.
#[derive(Clone, Copy)]
pub struct ColumnRef {
    /// The table before the dot.
    pub table: Option<Span>,
    /// The column.
    pub column: Span,
}

/// A literal.
#[derive(Clone, Copy)]
pub enum Literal {
    /// NULL.
    Null(Span),
    /// An integer, with a minus before it or without.
    Integer {
        /// The minus.
        minus: Option<Span>,
        /// The digits.
        digits: Span,
    },
    /// A text with its quotes.
    Text(Span),
}

/// A side of a comparison, or an operand of an expression.
#[derive(Clone, Copy)]
pub enum Operand {
    /// A column.
    Column(ColumnRef),
    /// A literal.
    Literal(Literal),
}

/// A condition as it is written. Chains of OR and of AND group to the left, AND binds before OR, NOT
/// before both.
#[derive(Drop)]
pub enum Test {
    /// A column compared with a column or a literal.
    Compare {
        /// The column on the left.
        left: ColumnRef,
        /// The comparison.
        op: Cmp,
        /// Where it stands.
        at: Span,
        /// What stands on the right.
        right: Operand,
    },
    /// IS NULL, or IS NOT NULL.
    IsNull {
        /// The column.
        column: ColumnRef,
        /// Where IS stands.
        at: Span,
        /// Whether it is IS NOT NULL.
        negated: bool,
    },
    /// NOT.
    Not {
        /// Where NOT stands.
        at: Span,
        /// What is negated.
        condition: Box<Test>,
    },
    /// AND.
    And {
        /// What stands on the left.
        left: Box<Test>,
        /// Where AND stands.
        at: Span,
        /// What stands on the right.
        right: Box<Test>,
    },
    /// OR.
    Or {
        /// What stands on the left.
        left: Box<Test>,
        /// Where OR stands.
        at: Span,
        /// What stands on the right.
        right: Box<Test>,
    },
    /// A condition in parentheses.
    Nested(Box<Test>),
}

impl Test {
    /// Two conditions with AND between.
    pub fn and(alloc: Global, left: Test, at: Span, right: Test) -> Result<Test, AllocError>
        ensures { IfOk result (λ whole. test_of whole ≡ And (test_of left) at (test_of right)) }
    {
        let left = Box::new(alloc, left)?;
        let right = Box::new(alloc, right)?;
        Ok(Test::And { left, at, right })
    }

    /// Two conditions with OR between.
    pub fn or(alloc: Global, left: Test, at: Span, right: Test) -> Result<Test, AllocError>
        ensures { IfOk result (λ whole. test_of whole ≡ Or (test_of left) at (test_of right)) }
    {
        let left = Box::new(alloc, left)?;
        let right = Box::new(alloc, right)?;
        Ok(Test::Or { left, at, right })
    }
}

/// An operator of an expression.
#[derive(Clone, Copy, Debug, PartialEq, Eq)]
pub enum Operator {
    /// `+`
    Plus,
    /// `-`
    Minus,
    /// `*`
    Times,
}

/// The right side of an assignment as it is written. Chains of `+` and `-` and chains of `*` group to the
/// left, and `*` binds before `+` and `-`.
#[derive(Drop)]
pub enum Formula {
    /// A column or a literal.
    Plain(Operand),
    /// An operator between two expressions.
    Binary {
        /// What stands on the left.
        left: Box<Formula>,
        /// The operator.
        op: Operator,
        /// Where it stands.
        at: Span,
        /// What stands on the right.
        right: Box<Formula>,
    },
    /// An expression in parentheses.
    Bracket(Box<Formula>),
}

impl Formula {
    /// Two expressions with an operator between.
    pub fn binary(
        alloc: Global,
        left: Formula,
        op: Operator,
        at: Span,
        right: Formula,
    ) -> Result<Formula, AllocError>
        ensures { IfOk result (λ whole. formula_of whole ≡ Binary (formula_of left) op at (formula_of right)) }
    {
        let left = Box::new(alloc, left)?;
        let right = Box::new(alloc, right)?;
        Ok(Formula::Binary {
            left,
            op,
            at,
            right,
        })
    }
}

/// A column of a new table.
#[derive(Clone, Copy)]
pub struct ColumnDef {
    /// Its name.
    pub name: Span,
    /// INT or TEXT.
    pub kind: Kind,
    /// Whether it is the PRIMARY KEY.
    pub key: bool,
}

/// A table that is joined, and the two columns that ON makes equal.
#[derive(Clone, Copy)]
pub struct Join {
    /// The table.
    pub table: Span,
    /// The column on the left of `=`.
    pub left: ColumnRef,
    /// The column on the right.
    pub right: ColumnRef,
}

/// An assignment of UPDATE.
#[derive(Drop)]
pub struct SetClause {
    /// The column that is set.
    pub column: Span,
    /// What it is set to.
    pub value: Formula,
}

/// A short assignment: to a column, of a column that is written without its table and an integer without a sign, with `+` or `-`
/// between.
#[derive(Clone, Copy)]
pub struct ShortSet {
    /// The column that is set.
    pub column: Span,
    /// The column on the left of the operator.
    pub left: Span,
    /// The operator.
    pub op: Operator,
    /// Where it stands.
    pub at: Span,
    /// The digits on its right.
    pub digits: Span,
}

impl ShortSet {
    /// The same as any assignment is held.
    pub fn clause(&self, alloc: Global) -> Result<SetClause, AllocError>
        ensures { IfOk result (λ clause. set_clause_of clause ≡ clause_of_short self.now) }
    {
        let left = Formula::Plain(Operand::Column(unqualified(self.left)));
        let right = Formula::Plain(Operand::Literal(unsigned(self.digits)));
        Ok(SetClause {
            column: self.column,
            value: Formula::binary(alloc, left, self.op, self.at, right)?,
        })
    }
}

/// A short condition: a column that is written without its table is equal to an integer without a sign.
#[derive(Clone, Copy)]
pub struct ShortTest {
    /// The column.
    pub column: Span,
    /// Where `=` stands.
    pub at: Span,
    /// The digits.
    pub digits: Span,
}

impl ShortTest {
    /// The same as any condition is held.
    pub fn test(&self) -> Test
        ensures { test_of result ≡ test_of_short self.now }
    {
        Test::Compare {
            left: unqualified(self.column),
            op: Cmp::Eq,
            at: self.at,
            right: Operand::Literal(unsigned(self.digits)),
        }
    }
}

/// A column that is written without its table.
pub fn unqualified(column: Span) -> ColumnRef
    ensures { result ≡ unqualified column }
{
    ColumnRef {
        table: None,
        column,
    }
}

/// An integer that is written without a sign.
fn unsigned(digits: Span) -> Literal
    ensures { result ≡ unsigned digits }
{
    Literal::Integer {
        minus: None,
        digits,
    }
}

/// What a SELECT of rows lists.
#[derive(Drop)]
pub enum Listed {
    /// `*`
    All,
    /// `SUM ( column )`
    Sum(ColumnRef),
    /// Columns.
    Columns(Seq<ColumnRef>),
}

/// What a SELECT with GROUP BY tells of each group.
#[derive(Clone, Copy)]
pub enum Total {
    /// `COUNT ( * )`
    Count,
    /// `SUM ( column )`
    Sum(ColumnRef),
}

/// A SELECT.
#[derive(Drop)]
pub enum Selection {
    /// Rows of one table or of several joined ones, or a sum over them.
    Rows {
        /// What is listed.
        listed: Listed,
        /// The first table.
        table: Span,
        /// The tables joined to it.
        joins: Seq<Join>,
        /// WHERE.
        condition: Option<Test>,
    },
    /// `COUNT ( * )` of one table.
    Count {
        /// The table.
        table: Span,
        /// WHERE.
        condition: Option<Test>,
    },
    /// Groups of one table.
    Groups {
        /// The column that is listed.
        column: ColumnRef,
        /// What is told of each group.
        total: Total,
        /// The table.
        table: Span,
        /// WHERE.
        condition: Option<Test>,
        /// The column of GROUP BY.
        key: ColumnRef,
    },
}

/// A short SELECT: of a column, written without its table, by a short condition on one table.
#[derive(Clone, Copy)]
pub struct ShortSelection {
    /// The column that is listed.
    pub column: Span,
    /// The table.
    pub table: Span,
    /// WHERE.
    pub test: ShortTest,
}

impl ShortSelection {
    /// The same as any SELECT is held.
    pub fn selection(&self, alloc: Global) -> Result<Selection, AllocError>
        ensures { IfOk result (λ selection. selection_of selection ≡ selection_of_short self.now) }
    {
        Ok(Selection::Rows {
            listed: Listed::Columns(Seq::from_slice(alloc, &[unqualified(self.column)])?),
            table: self.table,
            joins: Seq::new(alloc),
            condition: Some(self.test.test()),
        })
    }
}

/// A turn of a schedule.
#[derive(Clone, Copy)]
pub struct Turn {
    /// The session's name.
    pub session: Span,
    /// Whether `!` stands behind it.
    pub whole: bool,
}

/// A statement of a script.
#[derive(Drop)]
pub enum Statement {
    /// CREATE TABLE.
    Create {
        /// The table's name.
        table: Span,
        /// Its columns.
        columns: Seq<ColumnDef>,
    },
    /// INSERT INTO.
    Insert {
        /// The table.
        table: Span,
        /// The values.
        values: Seq<Literal>,
    },
    /// SESSION.
    Session {
        /// Its name.
        name: Span,
    },
    /// BEGIN.
    Begin {
        /// Whether it is BEGIN READ ONLY.
        read_only: bool,
    },
    /// COMMIT.
    Commit,
    /// ROLLBACK.
    Rollback,
    /// SAVEPOINT.
    Savepoint {
        /// Its name.
        name: Span,
    },
    /// ROLLBACK TO.
    RollbackTo {
        /// The savepoint's name.
        name: Span,
    },
    /// RELEASE.
    Release {
        /// The savepoint's name.
        name: Span,
    },
    /// SELECT.
    Select(Selection),
    /// UPDATE.
    Update {
        /// The table.
        table: Span,
        /// The assignments.
        sets: Seq<SetClause>,
        /// WHERE.
        condition: Option<Test>,
    },
    /// UPDATE with one short assignment and a short condition, which needs no list.
    ShortUpdate {
        /// The table.
        table: Span,
        /// The assignment.
        set: ShortSet,
        /// WHERE.
        test: ShortTest,
    },
    /// A short SELECT, which needs no list.
    ShortSelect(ShortSelection),
    /// DELETE FROM.
    Delete {
        /// The table.
        table: Span,
        /// WHERE.
        condition: Option<Test>,
    },
    /// SCHEDULE.
    Schedule {
        /// Its turns.
        turns: Seq<Turn>,
    },
    /// END.
    End,
}
