//! Why a statement is refused.

ghost use Rattle.std.specs.Prelude.{◌≡◌, None, IfErr, OnOk};
ghost use Rattle.hy_bind.specs.Refusals.{first_of, fault_if, agree};
ghost use Rattle.hy_bind.specs.declared.refusals.BindError.TheVariants.{OutOfMemory};
ghost use Rattle.hy_bind.specs.Statements.{Fails};

use hy_value::Kind;
use std::alloc::AllocError;

/// Why a statement is refused, in the order in which these are tested.
#[derive(Clone, Copy, Debug, PartialEq, Eq)]
pub enum BindFault {
    /// A table isn't there.
    UnknownTable,
    /// A column isn't there, or not in exactly one table.
    UnknownColumn,
    /// A table comes twice in FROM, or a column twice on the left of SET.
    Twice,
    /// A type doesn't fit, or the number of values.
    WrongType,
    /// The key is set.
    KeySet,
    /// The key of an INSERT is NULL.
    KeyNull,
    /// The listed column isn't that of GROUP BY.
    GroupColumn,
    /// There are over four tables in FROM, or a text has over 255 bytes.
    Limit,
    /// An integer with its sign is outside 64 bits.
    TooBig,
}

/// Why there is no bound statement.
#[derive(Clone, Copy, Debug, PartialEq, Eq)]
pub enum BindError {
    /// It is refused.
    Refused(BindFault),
    /// There is no memory.
    OutOfMemory,
}

impl From<AllocError> for BindError {
    ghost from_gives = { λ _ e. e ≡ OutOfMemory };

    fn from(_error: AllocError) -> BindError {
        BindError::OutOfMemory
    }
}

/// Of two refusals the one that is tested first.
pub fn first_of(left: Option<BindFault>, right: Option<BindFault>) -> Option<BindFault>
    ensures { result ≡ first_of left right }
{
    match (left, right) {
        (Some(left), Some(right)) if (right as u8) < left as u8 => Some(right),
        (left, right) => left.or(right),
    }
}

/// A refusal where something is so.
pub fn fault_if(so: bool, fault: BindFault) -> Option<BindFault>
    ensures { result ≡ fault_if so fault }
{
    if so { Some(fault) } else { None }
}

/// Stops where there is a refusal.
pub fn refuse(fault: Option<BindFault>) -> Result<(), BindError>
    ensures ok { OnOk result (fault ≡ None) }
    ensures err { IfErr result (λ error. Fails error fault) }
{
    match fault {
        Some(fault) => Err(BindError::Refused(fault)),
        None => Ok(()),
    }
}

/// Whether two types are equal, NULL being of both.
pub fn agree(left: Option<Kind>, right: Option<Kind>) -> bool
    ensures { result ≡ agree left right }
{
    match (left, right) {
        (Some(left), Some(right)) => left == right,
        _ => true,
    }
}
