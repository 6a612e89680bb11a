//! Lines without a name: tables, first rows, and END.

ghost use Rattle.std.specs.Prelude.{◌≡◌, IfOk};
ghost use Rattle.hy_ast.specs.Trees.{statement_of, Insert};
ghost use Rattle.hy_serving.specs.Lines.{one_statement};
ghost use Rattle.hy_serving.specs.Saying.{creates, defines, ends_if_one, gives, heard_bare};
ghost use Rattle.hy_serving.specs.declared.lines.Words.TheVariants as words;

use crate::lines::{Words, only_statement};
use crate::{Cause, Desk, Saying, refused};
use hy_ast::{ColumnDef, Literal, Statement};
use hy_script::{Code, Input, Options};
use hy_token::Span;
use std::alloc::{AllocError, Global};

impl Desk {
    /// A line without a name.
    pub(crate) fn hear_bare(
        &mut self,
        alloc: Global,
        options: &Options,
        line: &[u8],
    ) -> Result<Saying, AllocError>
        ensures { IfOk result (λ saying. heard_bare options.now self.old line.now ≡ (saying, self.new)) }
    {
        if self.sofar.names.len() == 0 {
            match only_statement(alloc, line, 0, Words::Defining)? {
                Ok(ast) => self.define(alloc, options, line, &ast),
                Err(code) => Ok(refused(None, Cause::Script(code))),
            }
        } else {
            hear_end(alloc, line)
        }
    }

    /// The statement of such a line.
    fn define(
        &mut self,
        alloc: Global,
        options: &Options,
        line: &[u8],
        ast: &Statement,
    ) -> Result<Saying, AllocError>
        ensures { IfOk result (λ saying. defines options.now self.old line.now (statement_of ast.now) ≡ (saying, self.new)) }
    {
        match ast {
            Statement::Create { table, columns } => {
                self.create(alloc, line, *table, columns.as_slice())
            }
            Statement::Insert { table, values } => {
                let input = Input {
                    script: line,
                    options,
                };
                self.give(alloc, &input, ast, *table, values.as_slice())
            }
            Statement::End => Ok(Saying::Ends),
            _ => Ok(refused(None, Cause::Script(Code::Syntax))),
        }
    }

    /// CREATE TABLE.
    fn create(
        &mut self,
        alloc: Global,
        line: &[u8],
        table: Span,
        columns: &[ColumnDef],
    ) -> Result<Saying, AllocError>
        ensures { IfOk result (λ saying. creates self.old line.now table columns.now ≡ (saying, self.new)) }
    {
        match self.sofar.create(alloc, line, table, columns)? {
            None => Ok(Saying::Defines),
            Some(code) => Ok(refused(None, Cause::Script(code))),
        }
    }

    /// INSERT of a first row.
    fn give(
        &mut self,
        alloc: Global,
        input: &Input,
        ast: &Statement,
        table: Span,
        values: &[Literal],
    ) -> Result<Saying, AllocError>
        requires { statement_of ast.now ≡ Insert table values.now }
        ensures { IfOk result (λ saying. gives input.now.options.now self.old input.now.script.now (statement_of ast.now) table values.now
            ≡ (saying, self.new)) }
    {
        match self.sofar.first_row(alloc, input, ast, table, values)? {
            None => Ok(Saying::Defines),
            Some(code) => Ok(refused(None, Cause::Script(code))),
        }
    }
}

/// A line without a name, once there is a session.
fn hear_end(alloc: Global, line: &[u8]) -> Result<Saying, AllocError>
    ensures { IfOk result (λ saying. saying ≡ ends_if_one (one_statement words.Ending line.now 0)) }
{
    match only_statement(alloc, line, 0, Words::Ending)? {
        Ok(Statement::End) => Ok(Saying::Ends),
        Ok(_) => Ok(refused(None, Cause::Script(Code::Syntax))),
        Err(code) => Ok(refused(None, Cause::Script(code))),
    }
}
