//! The causes of refusals.

ghost use Rattle.std.specs.Prelude.{◌≡◌};
ghost use Rattle.hy_script.specs.Codes.{number, rank, first_of_two, code_if_so, code_of};

use hy_bind::BindFault;

/// Why a script is refused, by the numbers that stand behind the E.
#[derive(Clone, Copy, Debug, PartialEq, Eq)]
pub enum Code {
    /// It has over 16,777,216 bytes.
    TooLong = 1,
    /// It is no UTF-8.
    NotUtf8,
    /// What stands there is no token.
    BadToken,
    /// A token doesn't fit, or the script ends inside a statement.
    Syntax,
    /// A table isn't there.
    UnknownTable,
    /// A column isn't there, or not in exactly one table.
    UnknownColumn,
    /// A type doesn't fit, or the number of values.
    WrongType,
    /// A name comes twice, or a second PRIMARY KEY in a table.
    Twice,
    /// A limit is passed.
    Limit,
    /// The script ends before END, or goes on behind it.
    NoEnd,
    /// A READ ONLY transaction writes.
    ReadOnly,
    /// The key is set.
    KeySet,
    /// The schedule names no session.
    UnknownSession,
    /// An integer is outside 64 bits.
    TooBig,
    /// Two first rows have one key.
    KeyTwice,
    /// The key of an INSERT is NULL.
    KeyNull,
    /// GROUP BY in a transaction that isn't READ ONLY.
    GroupInWriter,
    /// The listed column isn't that of GROUP BY.
    GroupColumn,
    /// No savepoint of the name is open.
    UnknownSavepoint = 21,
}

impl Code {
    /// The number that stands behind the E.
    pub fn number(self) -> u8
        ensures { result ≡ number self }
    {
        self as u8
    }

    /// Its rank in the order in which the causes of one statement are tested.
    fn rank(self) -> u8
        ensures { result ≡ rank self }
    {
        match self {
            Code::TooLong => 0,
            Code::NotUtf8 => 1,
            Code::BadToken => 2,
            Code::Syntax => 3,
            Code::NoEnd => 4,
            Code::UnknownTable => 5,
            Code::UnknownColumn => 6,
            Code::Twice => 7,
            Code::UnknownSession => 8,
            Code::UnknownSavepoint => 9,
            Code::WrongType => 10,
            Code::ReadOnly => 11,
            Code::KeySet => 12,
            Code::KeyNull => 13,
            Code::GroupInWriter => 14,
            Code::GroupColumn => 15,
            Code::Limit => 16,
            Code::TooBig => 17,
            Code::KeyTwice => 18,
        }
    }
}

impl From<BindFault> for Code {
    ghost use Rattle.std.specs.Prelude.{◌≡◌};
    ghost use Rattle.hy_script.specs.Codes.{code_of};

    ghost from_gives = { λ fault code. code ≡ code_of fault };

    fn from(fault: BindFault) -> Code {
        match fault {
            BindFault::UnknownTable => Code::UnknownTable,
            BindFault::UnknownColumn => Code::UnknownColumn,
            BindFault::Twice => Code::Twice,
            BindFault::WrongType => Code::WrongType,
            BindFault::KeySet => Code::KeySet,
            BindFault::KeyNull => Code::KeyNull,
            BindFault::GroupColumn => Code::GroupColumn,
            BindFault::Limit => Code::Limit,
            BindFault::TooBig => Code::TooBig,
        }
    }
}

/// Of two causes the one that is tested first.
pub fn first_of(one: Option<Code>, other: Option<Code>) -> Option<Code>
    ensures { result ≡ first_of_two one other }
{
    match (one, other) {
        (None, other) => other,
        (Some(one), Some(other)) if other.rank() < one.rank() => Some(other),
        (one, _) => one,
    }
}

/// A cause where something is so.
pub fn code_if(so: bool, code: Code) -> Option<Code>
    ensures { result ≡ code_if_so so code }
{
    if so { Some(code) } else { None }
}
