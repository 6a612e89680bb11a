//! The transactions of a script that is made.

ghost use Rattle.std.specs.Prelude.{◌≡◌, ℕ, ◌<◌, ◌≤◌, IfOk, OnOk, not};
ghost use Rattle.hy_gen.specs.Draws.{next_state};
ghost use Rattle.hy_gen.specs.Transactions.{audit, transfer, transfer_from, is_audit, txn_from, state_after_txn, txns_from, state_after_txns};

use crate::draws::Draws;
use crate::statements::{balance, give_to, take_from, total};
use hy_bound::{Txn, Txns};
use hy_value::Seq;
use std::alloc::{AllocError, Global};

/// A transfer of money between accounts.
#[derive(Clone, Copy, Debug, PartialEq, Eq)]
pub struct Transfer {
    /// The account from which it is taken.
    pub source: u32,
    /// The account to which it is given.
    pub target: u32,
    /// How much it is.
    pub amount: u32,
}

/// The transaction that asks for the sum of the balances.
fn audit_txn(alloc: Global) -> Result<Txn, AllocError>
    ensures { IfOk result (λ txn. txn ≡ audit) }
{
    let mut statements = Vec::with_capacity(alloc, 1)?;
    statements.push(total(alloc)?)?;
    Ok(Txn {
        read_only: true,
        statements: Seq::from_vec(statements),
        commits: true,
    })
}

impl Transfer {
    /// Its transaction.
    fn to_txn(self, alloc: Global) -> Result<Txn, AllocError>
        ensures { IfOk result (λ txn. txn ≡ transfer self) }
    {
        let mut statements = Vec::with_capacity(alloc, 3)?;
        statements.push(balance(alloc, self.source)?)?;
        statements.push(take_from(alloc, self.amount, self.source)?)?;
        statements.push(give_to(alloc, self.amount, self.target)?)?;
        Ok(Txn {
            read_only: false,
            statements: Seq::from_vec(statements),
            commits: true,
        })
    }
}

impl Draws {
    /// Draws whether a transaction is an audit.
    fn draw_kind(&mut self) -> bool
        ensures kind { result ≡ is_audit self.old.state }
        ensures moved { self.new.state ≡ next_state self.old.state }
    {
        self.draw() % 4 == 0
    }

    /// Draws the parts of a transfer. Its target is 1 to 63 accounts behind its source, and 1 comes after 64.
    fn draw_transfer(&mut self) -> Transfer
        ensures parts { result ≡ transfer_from self.old.state }
        ensures moved { self.new.state ≡ next_state (next_state (next_state self.old.state)) }
    {
        let source = 1 + self.draw() % 64;
        let target = 1 + (source + self.draw() % 63) % 64;
        let amount = 1 + self.draw() % 100;
        Transfer {
            source,
            target,
            amount,
        }
    }

    /// Makes a transaction.
    fn make_txn(&mut self, alloc: Global) -> Result<Txn, AllocError>
        ensures txn { IfOk result (λ txn. txn ≡ txn_from self.old.state) }
        ensures moved { OnOk result (self.new.state ≡ state_after_txn self.old.state) }
    {
        if self.draw_kind() {
            audit_txn(alloc)
        } else {
            self.draw_transfer().to_txn(alloc)
        }
    }

    /// Makes so many transactions, one after another.
    pub fn make_txns(&mut self, alloc: Global, count: u32) -> Result<Txns, AllocError>
        ensures txns { IfOk result (λ txns. txns ≡ txns_from count self.old.state) }
        ensures moved { OnOk result (self.new.state ≡ state_after_txns count self.old.state) }
    {
        let mut txns = Vec::with_capacity(alloc, count as usize)?;
        for _txn in 0..count {
            txns.push(self.make_txn(alloc)?)?;
        }
        Ok(Seq::from_vec(txns))
    }
}
