//! What is read of a script so far. What each part of a script adds stands in a file of its own.

ghost use Rattle.std.specs.Prelude.{◌≡◌, [], map, IfOk};
ghost use Rattle.hy_script.specs.Growing.{nothing, script_of};
ghost use Rattle.hy_script.specs.Refusals.{lent, standing_of};

mod rows;
mod schedule;
mod sessions;
mod tables;

use crate::judging::StandingRef;
use crate::stocks::Stock;
use crate::{NamedTxns, Options, Script};
use hy_bound::{SavedName, Schedule, Statements, StoredRows};
use hy_schema::{Catalog, Names};
use hy_value::Seq;
use rows::rows_of;
use std::alloc::{AllocError, Global};
use std::mem;

/// A transaction that is open.
#[derive(Drop)]
pub struct OpenTxn {
    /// Whether it was begun READ ONLY.
    pub read_only: bool,
    /// Its statements so far.
    pub statements: Statements,
    /// The savepoints that are open behind them, the oldest first.
    pub savepoints: Seq<SavedName>,
}

/// Where a script stands between two of its statements.
#[derive(Drop)]
pub enum Section {
    /// Before the first session.
    Defining,
    /// In a session, between its transactions.
    Between(NamedTxns),
    /// In a transaction of a session.
    Within(NamedTxns, OpenTxn),
    /// Behind SCHEDULE.
    Scheduled,
}

/// What is read of a script so far.
#[derive(Drop)]
pub struct SoFar {
    /// The tables.
    pub catalog: Catalog,
    /// Of each table its first rows.
    pub stocks: Seq<Stock>,
    /// The sessions' names.
    pub names: Names,
    /// The sessions that are read whole.
    pub sessions: Seq<NamedTxns>,
    /// Where the script stands.
    pub section: Section,
    /// The schedule.
    pub schedule: Schedule,
}

impl OpenTxn {
    /// What its next statement is judged by, beside the tables.
    pub fn standing(&self) -> StandingRef<'_>
        ensures { lent result ≡ standing_of self.now }
    {
        StandingRef {
            read_only: self.read_only,
            statements: self.statements.len(),
            savepoints: self.savepoints.as_slice(),
        }
    }
}

impl SoFar {
    /// Nothing.
    pub fn new(alloc: Global) -> SoFar
        ensures { result ≡ nothing }
    {
        SoFar {
            catalog: Catalog::new(alloc),
            stocks: Seq::new(alloc),
            names: Names::new(alloc),
            sessions: Seq::new(alloc),
            section: Section::Defining,
            schedule: Seq::new(alloc),
        }
    }

    /// Takes the first rows of all tables out.
    pub fn take_rows(&mut self, alloc: Global) -> Result<Seq<StoredRows>, AllocError>
        ensures { IfOk result (λ rows. (rows ≡ map (λ stock. stock.rows) self.old.stocks) × (self.new ≡ record self.old { stocks = [] })) }
    {
        rows_of(alloc, mem::replace(&mut self.stocks, Seq::new(alloc)))
    }

    /// The whole script.
    pub fn into_script(self, alloc: Global, options: &Options) -> Result<Script, AllocError>
        ensures { IfOk result (λ script. script ≡ script_of options.now self) }
    {
        let mut sofar = self;
        sofar.end_session()?;
        let SoFar {
            catalog,
            stocks,
            sessions,
            schedule,
            ..
        } = sofar;
        Ok(Script {
            catalog,
            rows: rows_of(alloc, stocks)?,
            sessions,
            schedule,
            options: *options,
        })
    }
}
