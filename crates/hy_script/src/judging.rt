//! What a statement of a transaction is judged by, beside the tables, and how it is judged.

ghost use Rattle.std.specs.Prelude.{◌≡◌, ◌<◌, IfOk, OnOk};
ghost use Rattle.hy_ast.specs.Trees.{statement_of};
ghost use Rattle.hy_bind.specs.Statements.{HasNames, bound_of};
ghost use Rattle.hy_limits.specs.declared.TheConstants.{MOST_STATEMENTS};
ghost use Rattle.hy_script.specs.Refusals.{Judges, groups_in, lent, no_statements, statement_code, txn_code, with_bound, writes_in};

use crate::codes::{Code, code_if, first_of};
use crate::savepoints::savepoint_code;
use hy_ast::{Selection, Statement};
use hy_bind::{BindError, bind};
use hy_bound::{Bound, SavedName, keep_open};
use hy_limits::MOST_STATEMENTS;
use hy_schema::Catalog;
use hy_value::Seq;
use std::alloc::{AllocError, Global};

/// What a statement of an open transaction is judged by, beside the tables.
#[derive(Drop)]
pub struct Standing {
    /// Whether the transaction was begun READ ONLY.
    pub read_only: bool,
    /// How many statements it has.
    pub statements: usize,
    /// The savepoints that are open behind them, the oldest first.
    pub savepoints: Seq<SavedName>,
}

/// The same, lent.
#[derive(Clone, Copy)]
pub struct StandingRef<'a> {
    /// Whether the transaction was begun READ ONLY.
    pub read_only: bool,
    /// How many statements it has.
    pub statements: usize,
    /// The savepoints that are open behind them, the oldest first.
    pub savepoints: &'a [SavedName],
}

impl Standing {
    /// That of a transaction without statements.
    pub fn new(alloc: Global, read_only: bool) -> Standing
        ensures { result ≡ no_statements read_only }
    {
        Standing {
            read_only,
            statements: 0,
            savepoints: Seq::new(alloc),
        }
    }

    /// Lends it.
    pub fn lend(&self) -> StandingRef<'_>
        ensures { lent result ≡ self.now }
    {
        StandingRef {
            read_only: self.read_only,
            statements: self.statements,
            savepoints: self.savepoints.as_slice(),
        }
    }

    /// It has a statement more.
    pub fn add(&mut self, bound: &Bound) -> Result<(), AllocError>
        requires { self.old.statements < MOST_STATEMENTS }
        ensures { OnOk result (self.new ≡ with_bound self.old bound.now) }
    {
        keep_open(&mut self.savepoints, bound)?;
        self.statements += 1;
        Ok(())
    }
}

/// Judges a statement of a transaction: the statement with its names resolved, or the first of its causes to be refused.
#[tactic(auto, using(crate::proofs::Causes::is_refused, crate::proofs::Accepted::has_room))]
pub fn judge(
    alloc: Global,
    script: &[u8],
    catalog: &Catalog,
    standing: StandingRef<'_>,
    ast: &Statement,
) -> Result<Result<Bound, Code>, AllocError>
    requires { HasNames (statement_of ast.now) }
    ensures judged { IfOk result (λ judged. Judges judged (statement_code script.now catalog.now (lent standing.entry) (statement_of ast.now))
        (bound_of script.now catalog.now (statement_of ast.now))) }
    ensures room { IfOk result (λ judged. OnOk judged (standing.entry.statements < MOST_STATEMENTS)) }
{
    let rest = txn_code(alloc, script, standing, ast);
    match bind(alloc, script, catalog, ast) {
        Ok(bound) => match rest {
            None => Ok(Ok(bound)),
            Some(code) => Ok(Err(code)),
        },
        Err(BindError::Refused(fault)) => {
            let code = Code::from(fault);
            Ok(Err(first_of(Some(code), rest).unwrap_or(code)))
        }
        Err(BindError::OutOfMemory) => Err(AllocError),
    }
}

/// Why a statement may not stand in this transaction, whatever its tables are.
fn txn_code(
    alloc: Global,
    script: &[u8],
    standing: StandingRef<'_>,
    ast: &Statement,
) -> Option<Code>
    ensures { result ≡ txn_code script.now (lent standing.entry) (statement_of ast.now) }
{
    let full = standing.statements >= MOST_STATEMENTS;
    let writer = code_if(!standing.read_only && groups(ast), Code::GroupInWriter);
    let reader = code_if(standing.read_only && writes(ast), Code::ReadOnly);
    first_of(
        savepoint_code(alloc, script, standing.savepoints, ast),
        first_of(reader, first_of(writer, code_if(full, Code::Limit))),
    )
}

/// Whether a statement writes.
fn writes(ast: &Statement) -> bool
    ensures { result ≡ writes_in (statement_of ast.now) }
{
    matches!(
        ast,
        Statement::Insert { .. }
            | Statement::Update { .. }
            | Statement::ShortUpdate { .. }
            | Statement::Delete { .. }
    )
}

/// Whether a statement has GROUP BY.
fn groups(ast: &Statement) -> bool
    ensures { result ≡ groups_in (statement_of ast.now) }
{
    matches!(ast, Statement::Select(Selection::Groups { .. }))
}
