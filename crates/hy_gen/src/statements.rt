//! The statements on the table of accounts.

ghost use Rattle.std.specs.Prelude.{◌≡◌, [], ◌∷◌, IfOk};
ghost use Rattle.hy_bound.specs.Expression.{Expression, Literal};
ghost use Rattle.hy_gen.specs.Accounts.{int, of_account, select_total, select_balance, update_balance, withdraw, deposit};

use hy_bound::{Assign, Bound, Items, Numbers, Pred, SetExpr, Side};
use hy_value::{Cmp, Seq, Value};
use std::alloc::{AllocError, Global};

/// The number of the table.
const TABLE: u32 = 0;

/// The column of an account's number.
const ID: u32 = 0;

/// The column of an account's balance.
const BALANCE: u32 = 1;

/// One number.
fn only(alloc: Global, number: u32) -> Result<Numbers, AllocError>
    ensures { IfOk result (λ numbers. numbers ≡ number ∷ []) }
{
    Seq::from_slice(alloc, &[number])
}

/// That a row is an account's.
fn is_of(alloc: Global, account: u32) -> Result<Pred, AllocError>
    ensures { IfOk result (λ pred. pred ≡ of_account account) }
{
    let side = Side::Literal(Value::Int(i64::from(account)));
    Pred::compare(alloc, ID, Cmp::Eq, side)
}

/// Asks for the sum of the balances.
pub fn total(alloc: Global) -> Result<Bound, AllocError>
    ensures { IfOk result (λ statement. statement ≡ select_total) }
{
    Ok(Bound::Select {
        tables: only(alloc, TABLE)?,
        ons: Seq::new(alloc),
        pred: Pred::always(),
        items: Items::Sum(BALANCE),
    })
}

/// Asks for an account's balance.
pub fn balance(alloc: Global, account: u32) -> Result<Bound, AllocError>
    ensures { IfOk result (λ statement. statement ≡ select_balance account) }
{
    Ok(Bound::Select {
        tables: only(alloc, TABLE)?,
        ons: Seq::new(alloc),
        pred: is_of(alloc, account)?,
        items: Items::Columns(only(alloc, BALANCE)?),
    })
}

/// Sets an account's balance.
fn set_balance(alloc: Global, value: SetExpr, account: u32) -> Result<Bound, AllocError>
    ensures { IfOk result (λ statement. statement ≡ update_balance value account) }
{
    let mut sets = Vec::with_capacity(alloc, 1)?;
    sets.push(Assign {
        column: BALANCE,
        value,
    })?;
    Ok(Bound::Update {
        table: TABLE,
        sets: Seq::from_vec(sets),
        pred: is_of(alloc, account)?,
    })
}

/// An amount of money.
fn money(alloc: Global, amount: u32) -> Result<SetExpr, AllocError>
    ensures { IfOk result (λ expression. expression ≡ Literal (int amount)) }
{
    SetExpr::literal(alloc, Value::Int(i64::from(amount)))
}

/// Takes an amount from an account.
pub fn take_from(alloc: Global, amount: u32, account: u32) -> Result<Bound, AllocError>
    ensures { IfOk result (λ statement. statement ≡ withdraw amount account) }
{
    let value = SetExpr::sub(alloc, SetExpr::column(BALANCE), money(alloc, amount)?)?;
    set_balance(alloc, value, account)
}

/// Gives an amount to an account.
pub fn give_to(alloc: Global, amount: u32, account: u32) -> Result<Bound, AllocError>
    ensures { IfOk result (λ statement. statement ≡ deposit amount account) }
{
    let value = SetExpr::add(alloc, SetExpr::column(BALANCE), money(alloc, amount)?)?;
    set_balance(alloc, value, account)
}
