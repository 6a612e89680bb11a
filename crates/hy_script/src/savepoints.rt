//! Why a statement may not stand where these savepoints are open.

ghost use Rattle.std.specs.Prelude.{◌≡◌, is_none};
ghost use Rattle.hy_ast.specs.Trees.{statement_of};
ghost use Rattle.hy_bound.specs.Savepoints.{newest};
ghost use Rattle.hy_script.specs.Refusals.{name_in, savepoint_code};

use crate::codes::{Code, code_if};
use hy_ast::Statement;
use hy_bind::{text, text_in};
use hy_bound::{SavedName, newest_savepoint};
use hy_limits::MOST_SAVEPOINTS;
use hy_token::Span;
use std::alloc::Global;

/// Whether no savepoint has the name that stands in this span.
fn is_missing(alloc: Global, script: &[u8], savepoints: &[SavedName], name: Span) -> bool
    ensures { result ≡ is_none (newest (name_in script.now name) savepoints.now) }
{
    newest_savepoint(savepoints, &text(alloc, text_in(script, name))).is_none()
}

/// Why a statement may not stand where these savepoints are open.
pub fn savepoint_code(
    alloc: Global,
    script: &[u8],
    savepoints: &[SavedName],
    ast: &Statement,
) -> Option<Code>
    ensures { result ≡ savepoint_code script.now savepoints.now (statement_of ast.now) }
{
    match ast {
        Statement::Savepoint { .. } => code_if(savepoints.len() >= MOST_SAVEPOINTS, Code::Limit),
        Statement::RollbackTo { name } | Statement::Release { name } => code_if(
            is_missing(alloc, script, savepoints, *name),
            Code::UnknownSavepoint,
        ),
        _ => None,
    }
}
