//! Sessions, their transactions and the statements of these.

ghost use Rattle.std.specs.Prelude.{◌≡◌, ◌++◌, ◌∷◌, [], IfOk, OnOk};
ghost use Rattle.hy_ast.specs.Trees.{statement_of};
ghost use Rattle.hy_bind.specs.Statements.{HasNames};
ghost use Rattle.hy_script.specs.declared.sofar.Section.TheVariants as Section;
ghost use Rattle.hy_script.specs.Refusals.{begin_code_at, session_code, statement_code_at};
ghost use Rattle.hy_script.specs.Growing.{all_sessions, begun, closed, with_session, with_statement, Takes};

use crate::NamedTxns;
use crate::codes::{Code, code_if, first_of};
use crate::judging::judge;
use crate::sofar::{OpenTxn, Section, SoFar};
use hy_ast::Statement;
use hy_bind::{text, text_in};
use hy_bound::{Bound, Name, SavedName, Statements, Txn, Txns, keep_open};
use hy_limits::{MOST_SESSIONS, MOST_TXNS};
use hy_token::Span;
use hy_value::Seq;
use std::alloc::{AllocError, Global};
use std::mem;

/// The types inside a session. A function that moves sessions names them once, since the checker looks for
/// the types inside another type only among those that the function names.
type Met = Option<(Txn, OpenTxn, Statements, Txns, SavedName)>;

/// For how many statements there is room at first: most transactions have few.
const FIRST_ROOM: usize = 2;

/// A statement more. There is room for it before it is moved, since it is large.
fn add_statement(alloc: Global, statements: &mut Statements, bound: Bound) -> Result<(), AllocError>
    ensures { OnOk result (statements.new ≡ statements.old ++ bound ∷ []) }
{
    let mut list = mem::replace(statements, Seq::new(alloc)).into_vec();
    if list.is_empty() {
        list.reserve_exact(FIRST_ROOM)?;
    } else {
        list.reserve(1)?;
    }
    list.push_reserved(bound);
    *statements = Seq::from_vec(list);
    Ok(())
}

/// The statements of a transaction that is read whole, without room for more: a script has many that are short.
fn fitted(statements: Statements) -> Statements
    ensures { result ≡ statements }
{
    let mut list = statements.into_vec();
    list.shrink_to_fit();
    Seq::from_vec(list)
}

impl SoFar {
    /// BEGIN.
    pub fn begin(&mut self, alloc: Global, read_only: bool) -> Option<Code>
        ensures { Takes result (begin_code_at self.old.section) self.new (record self.old { section = begun read_only self.old.section }) }
    {
        match mem::replace(&mut self.section, Section::Scheduled) {
            Section::Between(session) => {
                let full = session.txns.len() >= MOST_TXNS;
                let txn = OpenTxn {
                    read_only,
                    statements: Seq::new(alloc),
                    savepoints: Seq::new(alloc),
                };
                self.section = Section::Within(session, txn);
                code_if(full, Code::Limit)
            }
            section => {
                self.section = section;
                None
            }
        }
    }

    /// COMMIT or ROLLBACK.
    pub fn close(&mut self, commits: bool) -> Result<(), AllocError>
        ensures { OnOk result (self.new ≡ record self.old { section = closed commits self.old.section }) }
    {
        match mem::replace(&mut self.section, Section::Scheduled) {
            Section::Within(mut session, txn) => {
                session.txns.push(Txn {
                    read_only: txn.read_only,
                    statements: fitted(txn.statements),
                    commits,
                })?;
                self.section = Section::Between(session);
            }
            section => self.section = section,
        }
        Ok(())
    }

    /// The session in which the script stands is read whole.
    pub fn end_session(&mut self) -> Result<(), AllocError>
        ensures { OnOk result (self.new ≡ record self.old { sessions = all_sessions self.old.sessions self.old.section; section = Section.Scheduled }) }
    {
        let _: Met = None;
        match mem::replace(&mut self.section, Section::Scheduled) {
            Section::Between(session) => self.sessions.push(session)?,
            Section::Within(session, txn) => {
                drop(txn);
                self.sessions.push(session)?;
            }
            Section::Defining | Section::Scheduled => {}
        }
        Ok(())
    }

    /// SESSION.
    pub fn session(
        &mut self,
        alloc: Global,
        script: &[u8],
        name: Span,
    ) -> Result<Option<Code>, AllocError>
        ensures { IfOk result (λ code. Takes code (session_code script.now self.old name) self.new (with_session script.now self.old name)) }
    {
        let written = text_in(script, name);
        let twice = self.names.find(written).is_some();
        let code = first_of(
            code_if(twice, Code::Twice),
            code_if(self.names.len() >= MOST_SESSIONS, Code::Limit),
        );
        if code.is_none() {
            self.end_session()?;
            self.names.add(alloc, written)?;
            self.section = Section::Between(NamedTxns {
                name: Name::new(alloc, text(alloc, written))?,
                txns: Seq::new(alloc),
            });
        }
        Ok(code)
    }

    /// A statement of the open transaction.
    pub fn statement(
        &mut self,
        alloc: Global,
        script: &[u8],
        ast: &Statement,
    ) -> Result<Option<Code>, AllocError>
        requires { HasNames (statement_of ast.now) }
        ensures { IfOk result (λ code. Takes code (statement_code_at script.now self.old self.old.section (statement_of ast.now)) self.new
            (with_statement script.now self.old (statement_of ast.now))) }
    {
        match &mut self.section {
            Section::Within(_, txn) => {
                match judge(alloc, script, &self.catalog, txn.standing(), ast)? {
                    Ok(bound) => {
                        keep_open(&mut txn.savepoints, &bound)?;
                        add_statement(alloc, &mut txn.statements, bound)?;
                        Ok(None)
                    }
                    Err(code) => Ok(Some(code)),
                }
            }
            _ => Ok(None),
        }
    }
}
