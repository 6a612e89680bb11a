//! The bank of the scripts that are made from a number: laws on its accounts and its transactions.
#![tactic(auto)]

ghost use Rattle.std.specs.Prelude.{ℕ, ◌≤◌};
ghost use Rattle.hy_gen.specs.Made.{made};
ghost use Rattle.hy_bank.specs.Bank.{AreOfBank, KeepsMoney, AuditsAgree};
ghost use Rattle.hy_bank.specs.Fitting.{MadeFits};
ghost use Rattle.hy_bank.specs.Outcomes.{MadeOutcomesKeepTheMoney, MadeAuditsTellTheMoney};
ghost use Rattle.hy_bank.specs.Endings.{MadeEndInFourWays, MadeEndingsAddUp};

/// A script that is made, of at most 64 sessions of at most 1000 transactions each, can be run: its statements
/// name tables and columns that are there and set no key, no two of its first rows have the same key, and 4
/// chunks of 16 rows have room for them.
pub fn made_scripts_fit()
    ensures { (seed sessions txns : ℕ) → sessions ≤ 64 → txns ≤ 1000 → MadeFits seed sessions txns }
{}

/// Each transaction of a script that is made is an audit, or a transfer between two of the 64 accounts that differ.
pub fn made_are_of_bank()
    ensures { (seed sessions txns : ℕ) → AreOfBank (made seed sessions txns) }
{}

/// Money is neither made nor lost: when audits and transfers run one after another from the first rows on, in
/// whatever order and however often each, and none of them stops at a balance that is out of range, the sum of
/// the balances is 64000 behind them.
pub fn transfers_keep_the_money()
    ensures { (seed sessions txns : ℕ) → KeepsMoney (made seed sessions txns) }
{}

/// Every audit tells the same: when audits and transfers have run so, one after another from the first rows on,
/// and none of them stopped, an audit that runs alone then has one reply, the sum 64000.
pub fn audits_agree()
    ensures { (seed sessions txns : ℕ) → AuditsAgree (made seed sessions txns) }
{}

/// Every outcome keeps the money: where an outcome of a script that is made is lawful and serializable, the
/// balances of its final tables come to 64000, and each of its audits has one reply, this sum.
pub fn made_outcomes_keep_the_money()
    ensures money { MadeOutcomesKeepTheMoney }
    ensures audits { MadeAuditsTellTheMoney }
{}

/// Every transaction ends as the bank's do: where an outcome of a script that is made, of at most 64 sessions of at
/// most 1000 transactions each, is lawful and serializable, each of its transactions is committed, has only read, is
/// in conflict or is invalid; so the counts of these four come to how many there are. None is rolled back or told that
/// a table is full, since none asks for either; none is told that a balance is out of range, since the balances lie
/// within what so many transfers of at most 100 can make of 1000.
pub fn made_transactions_end_in_four_ways()
    ensures endings { MadeEndInFourWays }
    ensures counts { MadeEndingsAddUp }
{}
