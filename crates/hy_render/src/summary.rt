//! The summary of an outcome.

ghost use Rattle.std.specs.Prelude.{◌≡◌, ◌++◌, ◌+◌, ◌<◌, ◌^◌, ◌-◌, ◌+ℤ◌, IfOk, OnOk, OnErr};
ghost use Rattle.hy_value.specs.Print.{BeginsWith};
ghost use Rattle.hy_meaning.specs.Totals.{added_of, sum_of};
ghost use Rattle.hy_bound.specs.Predicate.{column_of};
ghost use Rattle.hy_render.specs.Summary.{is_committed, is_read, is_conflict, is_invalid, one_if, ended_so};
ghost use Rattle.hy_render.specs.Summary.{balances, txns_line, ending_lines, total_line, end_line, summary_of};

use crate::{Outcome, TxnOutcome, end_with_total, print_count, print_line, put};
use hy_bound::{Ending, StoredRows};
use hy_value::{StoredRow, ValueRef};
use std::alloc::AllocError;

/// How many transactions ended in which way.
#[derive(Clone, Copy)]
struct Endings {
    /// Committed at a rank of the commit order.
    committed: usize,
    /// Committed without a write.
    read: usize,
    /// Refused at a position that another wrote.
    conflict: usize,
    /// Refused by validation.
    invalid: usize,
}

impl Endings {
    /// These and one ending more.
    fn with(self, ending: &Ending) -> Endings
        requires { (self.committed < 2 ^ 64 - 1) × (self.read < 2 ^ 64 - 1) × (self.conflict < 2 ^ 64 - 1) × (self.invalid < 2 ^ 64 - 1) }
        ensures committed { result.committed ≡ self.committed + one_if (is_committed ending.now) }
        ensures read { result.read ≡ self.read + one_if (is_read ending.now) }
        ensures conflict { result.conflict ≡ self.conflict + one_if (is_conflict ending.now) }
        ensures invalid { result.invalid ≡ self.invalid + one_if (is_invalid ending.now) }
    {
        let mut endings = self;
        match ending {
            Ending::Committed { .. } => endings.committed += 1,
            Ending::Read => endings.read += 1,
            Ending::Conflict { .. } => endings.conflict += 1,
            Ending::Invalid { .. } => endings.invalid += 1,
            _ => {}
        }
        endings
    }
}

/// Appends the summary of an outcome: how many transactions there are, how many ended in which way, and what the
/// second columns of all final rows come to. Without memory the buffer is as it was; a sum past 128 bits would be
/// want of memory.
pub fn summarize(outcome: &Outcome, out: &mut Vec<u8>) -> Result<(), AllocError>
    ensures ok { OnOk result (out.new.items ≡ out.old.items ++ summary_of outcome.now) }
    ensures err { OnErr result (out.new.items ≡ out.old.items) }
{
    let before = out.len();
    let done = print_summary(outcome, out);
    if done.is_err() {
        out.truncate(before);
    }
    done
}

/// Appends the summary. Without memory some of it may be there.
fn print_summary(outcome: &Outcome, out: &mut Vec<u8>) -> Result<(), AllocError>
    ensures ok { OnOk result (out.new.items ≡ out.old.items ++ summary_of outcome.now) }
    ensures begun { BeginsWith out.old.items out.new.items }
{
    let txns = outcome.txns.as_slice();
    print_txn_count(txns, out)?;
    print_endings(txns, out)?;
    print_sum(outcome.tables.as_slice(), out)?;
    print_end_line(out)
}

/// Appends how many transactions there are.
#[tactic(auto, unfolding(crate::specs::Summary::txns_line))]
fn print_txn_count(txns: &[TxnOutcome], out: &mut Vec<u8>) -> Result<(), AllocError>
    ensures ok { OnOk result (out.new.items ≡ out.old.items ++ txns_line txns.now) }
    ensures begun { BeginsWith out.old.items out.new.items }
{
    print_count(b"transactions ", txns.len(), out)
}

/// Appends the line behind all others.
#[tactic(auto, unfolding(crate::specs::Summary::end_line))]
fn print_end_line(out: &mut Vec<u8>) -> Result<(), AllocError>
    ensures ok { OnOk result (out.new.items ≡ out.old.items ++ end_line) }
    ensures begun { BeginsWith out.old.items out.new.items }
{
    print_line(b"end", out)
}

/// Appends how many transactions ended in which way.
#[tactic(auto, unfolding(crate::specs::Summary::ending_lines))]
fn print_endings(txns: &[TxnOutcome], out: &mut Vec<u8>) -> Result<(), AllocError>
    ensures ok { OnOk result (out.new.items ≡ out.old.items ++ ending_lines txns.now) }
    ensures begun { BeginsWith out.old.items out.new.items }
{
    let endings = count_endings(txns);
    print_count(b"committed ", endings.committed, out)?;
    print_count(b"read ", endings.read, out)?;
    print_count(b"conflict ", endings.conflict, out)?;
    print_count(b"invalid ", endings.invalid, out)
}

/// Appends what the second columns of all tables come to.
#[tactic(auto, unfolding(crate::specs::Summary::total_line))]
fn print_sum(tables: &[StoredRows], out: &mut Vec<u8>) -> Result<(), AllocError>
    ensures ok { OnOk result (out.new.items ≡ out.old.items ++ total_line (balances tables.now)) }
    ensures begun { BeginsWith out.old.items out.new.items }
{
    let sum = all_balances(tables)?;
    put(b"total ", out)?;
    end_with_total(sum, out)
}

/// How many transactions ended in which way.
fn count_endings(txns: &[TxnOutcome]) -> Endings
    ensures committed { result.committed ≡ ended_so is_committed txns.now }
    ensures read { result.read ≡ ended_so is_read txns.now }
    ensures conflict { result.conflict ≡ ended_so is_conflict txns.now }
    ensures invalid { result.invalid ≡ ended_so is_invalid txns.now }
{
    let mut endings = Endings {
        committed: 0,
        read: 0,
        conflict: 0,
        invalid: 0,
    };
    for txn in txns {
        endings = endings.with(&txn.ending);
    }
    endings
}

/// The number in the second column of a row, 0 where there is none.
fn balance(row: &StoredRow) -> i128
    ensures { result ≡ added_of (column_of row.now 1) }
{
    if row.len() < 2 {
        return 0;
    }
    match row.refer(1) {
        ValueRef::Int(number) => i128::from(number),
        _ => 0,
    }
}

/// The sum of two numbers.
fn plus(sum: i128, more: i128) -> Result<i128, AllocError>
    ensures { IfOk result (λ all. all ≡ sum +ℤ more) }
{
    match sum.checked_add(more) {
        Some(all) => Ok(all),
        None => Err(AllocError),
    }
}

/// The sum of the second column of rows.
fn table_balances(rows: &[StoredRow]) -> Result<i128, AllocError>
    ensures { IfOk result (λ sum. sum ≡ sum_of 1 rows.now) }
{
    let mut sum = 0;
    for row in rows {
        sum = plus(sum, balance(row))?;
    }
    Ok(sum)
}

/// The sum of the second columns of all tables.
fn all_balances(tables: &[StoredRows]) -> Result<i128, AllocError>
    ensures { IfOk result (λ sum. sum ≡ balances tables.now) }
{
    let mut sum = 0;
    for rows in tables {
        sum = plus(sum, table_balances(rows.as_slice())?)?;
    }
    Ok(sum)
}
