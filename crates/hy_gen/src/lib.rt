//! Scripts from a number: sessions of transfers between accounts, with audits among them.
#![tactic(auto)]

ghost use Rattle.std.specs.Prelude.{◌≡◌, ◌∷◌, ◌+◌, [], IfOk, IsTrue};
ghost use Rattle.hy_value.specs.TextBytes.{is_text};
ghost use Rattle.hy_gen.specs.Accounts.{account_table, first_row, first_rows};
ghost use Rattle.hy_gen.specs.Made.{session_name, sessions_from, made};

mod draws;
mod statements;
mod transactions;

use draws::Draws;
use hy_bound::{Name, StoredRows};
use hy_schema::{AddError, Catalog, Column, TableDef};
use hy_script::{NamedTxns, Options, Script};
use hy_value::{Kind, RowBuffer, Seq, StoredRow, Text};
use std::alloc::{AllocError, Global};

/// How many accounts there are.
const ACCOUNTS: u32 = 64;

/// What an account has at first.
const FIRST_BALANCE: i64 = 1000;

/// The script that is made from this seed: the table `acc (id INT PRIMARY KEY, bal INT)` of 64 accounts of
/// 1000 each, and sessions `s1`, `s2` and so on, of so many transactions each, without a schedule. A
/// transaction is an audit, which is READ ONLY and asks for the sum of the balances, or a transfer between two
/// accounts that differ. The tables have 4 chunks of 16 rows.
pub fn make(alloc: Global, seed: u32, sessions: u32, txns: u32) -> Result<Script, AllocError>
    ensures { IfOk result (λ script. script ≡ made seed sessions txns) }
{
    let mut draws = Draws::new(seed);
    let catalog = catalog(alloc)?;
    let rows = tables_rows(alloc)?;
    let sessions = make_sessions(alloc, &mut draws, sessions, txns)?;
    Ok(Script {
        catalog,
        rows,
        sessions,
        schedule: Seq::new(alloc),
        options: Options {
            chunks: 4,
            rows: 16,
        },
    })
}

/// A name that is a text.
fn name(alloc: Global, bytes: &[u8]) -> Text
    requires { IsTrue (is_text bytes.now) }
    ensures { result ≡ bytes.now }
{
    match Text::from_bytes(alloc, bytes) {
        Ok(text) => text,
        Err(_) => unreachable!(),
    }
}

/// The catalog, of one table.
fn catalog(alloc: Global) -> Result<Catalog, AllocError>
    ensures { IfOk result (λ catalog. catalog ≡ account_table ∷ []) }
{
    let mut catalog = Catalog::new(alloc);
    match catalog.add(alloc, table(alloc)?) {
        Ok(_) => Ok(catalog),
        Err(AddError::OutOfMemory) => Err(AllocError),
        Err(_) => unreachable!(),
    }
}

/// The table of accounts.
fn table(alloc: Global) -> Result<TableDef, AllocError>
    ensures { IfOk result (λ table. table ≡ account_table) }
{
    let mut columns = Vec::with_capacity(alloc, 2)?;
    columns.push(column(alloc, b"id"))?;
    columns.push(column(alloc, b"bal"))?;
    Ok(TableDef {
        name: name(alloc, b"acc"),
        columns: Seq::from_vec(columns),
        key: Some(0),
    })
}

/// A column of numbers.
fn column(alloc: Global, bytes: &[u8]) -> Column
    requires { IsTrue (is_text bytes.now) }
    ensures { result ≡ record { name = bytes.now; kind = Kind.Int } }
{
    Column {
        name: name(alloc, bytes),
        kind: Kind::Int,
    }
}

/// Of each table its first rows.
fn tables_rows(alloc: Global) -> Result<Seq<StoredRows>, AllocError>
    ensures { IfOk result (λ rows. rows ≡ first_rows ∷ []) }
{
    let mut tables = Vec::with_capacity(alloc, 1)?;
    tables.push(account_rows(alloc)?)?;
    Ok(Seq::from_vec(tables))
}

/// The first rows of the accounts.
fn account_rows(alloc: Global) -> Result<StoredRows, AllocError>
    ensures { IfOk result (λ rows. rows ≡ first_rows) }
{
    let mut rows = Vec::with_capacity(alloc, ACCOUNTS as usize)?;
    for account in 0..ACCOUNTS {
        rows.push(account_row(alloc, account + 1))?;
    }
    Ok(Seq::from_vec(rows))
}

/// The first row of an account.
fn account_row(alloc: Global, account: u32) -> StoredRow
    ensures { result ≡ first_row account }
{
    let mut row = RowBuffer::new(alloc);
    row.push_number_reserved(i64::from(account));
    row.push_number_reserved(FIRST_BALANCE);
    StoredRow::from_buffer(row)
}

/// The name of a session.
fn name_session(alloc: Global, number: u32) -> Result<Name, AllocError>
    ensures { IfOk result (λ name. name ≡ session_name number) }
{
    let bytes = format!(in alloc; "s{number}")?;
    Name::new(alloc, name(alloc, bytes.as_bytes()))
}

/// Makes the sessions, one after another.
fn make_sessions(
    alloc: Global,
    draws: &mut Draws,
    count: u32,
    txns: u32,
) -> Result<Seq<NamedTxns>, AllocError>
    ensures { IfOk result (λ sessions. sessions ≡ sessions_from txns 1 count draws.old.state) }
{
    let mut sessions = Vec::new(alloc);
    for session in 0..count {
        sessions.push(NamedTxns {
            name: name_session(alloc, session + 1)?,
            txns: draws.make_txns(alloc, txns)?,
        })?;
    }
    Ok(Seq::from_vec(sessions))
}
