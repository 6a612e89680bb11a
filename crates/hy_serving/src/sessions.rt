//! Lines of sessions: BEGIN, the statements of transactions, COMMIT and ROLLBACK.

ghost use Rattle.std.specs.Prelude.{◌≡◌, ◌<◌, None, length, IfOk};
ghost use Rattle.hy_ast.specs.Trees.{statement_of};
ghost use Rattle.hy_bind.specs.Statements.{HasNames};
ghost use Rattle.hy_schema.specs.Names.{number_of};
ghost use Rattle.hy_serving.specs.Saying.{begins, begins_again, begins_first, closes, heard_named, place_at, says, says_of, says_at};

use crate::lines::{Words, only_statement};
use crate::{Cause, Desk, Place, Saying, refused};
use hy_ast::Statement;
use hy_bind::{text, text_in};
use hy_limits::{MOST_SESSIONS, MOST_TXNS};
use hy_script::{Code, Standing, judge};
use hy_token::Span;
use hy_value::Text;
use std::alloc::{AllocError, Global};

impl Desk {
    /// The line of a session whose name stands in this span, with a colon right behind it.
    pub(crate) fn hear_named(
        &mut self,
        alloc: Global,
        line: &[u8],
        span: Span,
    ) -> Result<Saying, AllocError>
        requires { span.end < length line.now }
        ensures { IfOk result (λ saying. heard_named self.old line.now span ≡ (saying, self.new)) }
    {
        let name = text(alloc, text_in(line, span));
        match only_statement(alloc, line, span.end + 1, Words::Session)? {
            Ok(ast) => self.say(alloc, line, name, &ast),
            Err(code) => Ok(refused(Some(name), Cause::Script(code))),
        }
    }

    /// The statement of such a line.
    fn say(
        &mut self,
        alloc: Global,
        line: &[u8],
        name: Text,
        ast: &Statement,
    ) -> Result<Saying, AllocError>
        ensures { IfOk result (λ saying. says self.old line.now name (statement_of ast.now) ≡ (saying, self.new)) }
    {
        match ast {
            Statement::Begin { read_only } => self.begin(alloc, name, *read_only),
            Statement::Commit => Ok(self.close(name, true)),
            Statement::Rollback => Ok(self.close(name, false)),
            Statement::Select(_)
            | Statement::ShortSelect(_)
            | Statement::ShortUpdate { .. }
            | Statement::Insert { .. }
            | Statement::Update { .. }
            | Statement::Delete { .. }
            | Statement::Savepoint { .. }
            | Statement::RollbackTo { .. }
            | Statement::Release { .. } => self.say_of(alloc, line, name, ast),
            Statement::Create { .. }
            | Statement::Session { .. }
            | Statement::Schedule { .. }
            | Statement::End => Ok(refused(Some(name), Cause::Script(Code::Syntax))),
        }
    }

    /// BEGIN.
    fn begin(&mut self, alloc: Global, name: Text, read_only: bool) -> Result<Saying, AllocError>
        ensures { IfOk result (λ saying. begins self.old name read_only (number_of self.old.sofar.names name) ≡ (saying, self.new)) }
    {
        match self.sofar.names.find(name.as_bytes()) {
            Some(number) => Ok(self.begin_again(alloc, name, number, read_only)),
            None => self.begin_first(alloc, name, read_only),
        }
    }

    /// BEGIN in a session that there is.
    fn begin_again(&mut self, alloc: Global, name: Text, number: usize, read_only: bool) -> Saying
        ensures { begins_again self.old name read_only number ≡ (result, self.new) }
    {
        if self.is_open(number) {
            return refused(Some(name), Cause::IsOpen);
        }
        let txns = self.begun(number);
        if txns >= MOST_TXNS {
            return refused(Some(name), Cause::Script(Code::Limit));
        }
        let standing = Some(Standing::new(alloc, read_only));
        self.set(
            number,
            Place {
                txns: txns + 1,
                standing,
            },
        );
        Saying::Begins {
            number,
            read_only,
            name: None,
        }
    }

    /// BEGIN in a session that is new.
    fn begin_first(
        &mut self,
        alloc: Global,
        name: Text,
        read_only: bool,
    ) -> Result<Saying, AllocError>
        requires { number_of self.old.sofar.names name ≡ None }
        ensures { IfOk result (λ saying. begins_first self.old name read_only ≡ (saying, self.new)) }
    {
        let number = self.sofar.names.len();
        if number >= MOST_SESSIONS {
            return Ok(refused(Some(name), Cause::Script(Code::Limit)));
        }
        self.sofar.names.add(alloc, name.as_bytes())?;
        self.places.push(Place {
            txns: 1,
            standing: Some(Standing::new(alloc, read_only)),
        })?;
        Ok(Saying::Begins {
            number,
            read_only,
            name: Some(name),
        })
    }

    /// COMMIT or ROLLBACK.
    fn close(&mut self, name: Text, commits: bool) -> Saying
        ensures { closes self.old name commits (number_of self.old.sofar.names name) ≡ (result, self.new) }
    {
        match self.sofar.names.find(name.as_bytes()) {
            Some(number) => {
                if self.is_open(number) {
                    self.end(number);
                    Saying::Closes { number, commits }
                } else {
                    refused(Some(name), Cause::NoneOpen)
                }
            }
            None => refused(Some(name), Cause::NoneOpen),
        }
    }

    /// A statement of a transaction.
    fn say_of(
        &mut self,
        alloc: Global,
        line: &[u8],
        name: Text,
        ast: &Statement,
    ) -> Result<Saying, AllocError>
        requires { HasNames (statement_of ast.now) }
        ensures { IfOk result (λ saying. says_of self.old line.now name (statement_of ast.now) (number_of self.old.sofar.names name)
            ≡ (saying, self.new)) }
    {
        match self.sofar.names.find(name.as_bytes()) {
            Some(number) => self.say_at(alloc, line, name, number, ast),
            None => Ok(refused(Some(name), Cause::NoneOpen)),
        }
    }

    /// A statement of a transaction of the session of this number.
    fn say_at(
        &mut self,
        alloc: Global,
        line: &[u8],
        name: Text,
        number: usize,
        ast: &Statement,
    ) -> Result<Saying, AllocError>
        requires { HasNames (statement_of ast.now) }
        ensures { IfOk result (λ saying. says_at self.old line.now name number (statement_of ast.now) (place_at self.old number).standing
            ≡ (saying, self.new)) }
    {
        let Some(standing) = self.standing(number) else {
            return Ok(refused(Some(name), Cause::NoneOpen));
        };
        match judge(alloc, line, &self.sofar.catalog, standing.lend(), ast)? {
            Ok(bound) => {
                self.add(number, &bound)?;
                Ok(Saying::Says { number, bound })
            }
            Err(code) => Ok(refused(Some(name), Cause::Script(code))),
        }
    }
}
