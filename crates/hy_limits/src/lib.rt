//! The limits of the language. Each is defined here once, and definitions and programs cite it; how long a
//! word and a text may be stands with words and with texts.
#![tactic(auto)]

/// How many bytes a script may have.
pub const MOST_BYTES: usize = 16_777_216;

/// How many tables a script may have.
pub const MOST_TABLES: usize = 16;

/// How many columns a table may have.
pub const MOST_COLUMNS: usize = 32;

/// How many sessions a script may have.
pub const MOST_SESSIONS: usize = 64;

/// How many transactions a session may have.
pub const MOST_TXNS: usize = 65_535;

/// How many statements a transaction may have, BEGIN and what closes it aside.
pub const MOST_STATEMENTS: usize = 256;

/// How many savepoints may be open at one place of a transaction.
pub const MOST_SAVEPOINTS: usize = 16;

/// How many tables FROM and JOIN may name together.
pub const MOST_JOINED: usize = 4;

/// How many items a schedule may have.
pub const MOST_ITEMS: usize = 1_000_000;

/// How many tokens a statement may have, that of a schedule aside.
pub const MOST_TOKENS: usize = 4096;

/// How many parentheses and NOTs may be open at one place.
pub const MOST_LEVELS: u32 = 64;
