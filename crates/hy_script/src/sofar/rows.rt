//! First rows of tables.

ghost use Rattle.std.specs.Prelude.{◌≡◌, ◌*◌, None, map, nat_le, length, IfOk, IfSome, OnOk, slice_set, slice_index_or};
ghost use Rattle.hy_ast.specs.Trees.{statement_of, Insert};
ghost use Rattle.std.specs.Option.{option_copied, unwrap_or};
ghost use Rattle.hy_script.specs.Stocks.{key_there, no_rows, with_row};
ghost use Rattle.hy_script.specs.Refusals.{first_row_code, stock_at};
ghost use Rattle.hy_script.specs.Growing.{with_first_row, Takes};

use crate::codes::{Code, code_if, first_of};
use crate::sofar::SoFar;
use crate::stocks::Stock;
use crate::{Input, Options};
use hy_ast::{Literal, Statement};
use hy_bind::{BindError, bind, text_in};
use hy_bound::{Bound, StoredRows};
use hy_token::Span;
use hy_value::{Seq, StoredRow};
use std::alloc::{AllocError, Global};

impl SoFar {
    /// The first rows of the table of this number.
    fn stock(&self, number: Option<u32>) -> Option<&Stock>
        ensures { unwrap_or (option_copied result) (no_rows None) ≡ stock_at number self.now.stocks }
    {
        self.stocks.as_slice().get(number? as usize)
    }

    /// Whether the table of this number has as many rows as it has room for.
    fn is_full(&self, options: &Options, number: Option<u32>) -> bool
        ensures { result ≡ nat_le (options.now.chunks * options.now.rows) (length (stock_at number self.now.stocks).rows) }
    {
        let room = u64::from(options.chunks) * u64::from(options.rows);
        let rows = self.stock(number).map_or(0, |stock| stock.rows.len());
        rows as u64 >= room
    }

    /// Whether a row of the table of this number has the key of this row.
    fn has_key(&self, number: Option<u32>, row: &StoredRow) -> bool
        ensures { result ≡ key_there (stock_at number self.now.stocks) row.now }
    {
        self.stock(number).is_some_and(|stock| stock.has_key(row))
    }

    /// Adds a first row to the table of this number. Where there is none nothing changes.
    fn add_row(&mut self, alloc: Global, number: usize, row: StoredRow) -> Result<(), AllocError>
        ensures { OnOk result (self.new ≡ record self.old {
          stocks = slice_set self.old.stocks number
              (with_row (slice_index_or self.old.stocks number (no_rows None)) row);
        }) }
    {
        if number < self.stocks.len() {
            let mut stock = self.stocks.replace(number, Stock::new(alloc, None));
            stock.add(row)?;
            self.stocks.replace(number, stock);
        }
        Ok(())
    }

    /// A first row. One that is refused changes nothing.
    #[tactic(auto, using(crate::proofs::Causes::key_last))]
    pub fn first_row(
        &mut self,
        alloc: Global,
        input: &Input,
        ast: &Statement,
        table: Span,
        values: &[Literal],
    ) -> Result<Option<Code>, AllocError>
        requires { statement_of ast.now ≡ Insert table values.now }
        ensures takes { IfOk result (λ code. Takes code (first_row_code input.now.script.now input.now.options.now self.old (statement_of ast.now) table
            values.now) self.new (with_first_row input.now.script.now self.old table values.now)) }
        ensures refused { IfOk result (λ code. IfSome code (λ _. self.new ≡ self.old)) }
    {
        let number = self.catalog.find(text_in(input.script, table));
        let full = code_if(self.is_full(input.options, number), Code::Limit);
        match bind(alloc, input.script, &self.catalog, ast) {
            Ok(Bound::Insert { row, .. }) => {
                let twice = code_if(self.has_key(number, &row), Code::KeyTwice);
                let code = first_of(full, twice);
                if code.is_none() {
                    self.add_row(alloc, number.unwrap_or(0) as usize, row)?;
                }
                Ok(code)
            }
            Ok(_) => Err(AllocError),
            Err(BindError::Refused(fault)) => Ok(first_of(Some(Code::from(fault)), full)),
            Err(BindError::OutOfMemory) => Err(AllocError),
        }
    }
}

/// The rows of all tables.
pub fn rows_of(alloc: Global, stocks: Seq<Stock>) -> Result<Seq<StoredRows>, AllocError>
    ensures { IfOk result (λ all. all ≡ map (λ stock. stock.rows) stocks) }
{
    let rows: Vec<StoredRows> = stocks
        .into_vec()
        .into_iter()
        .map(|stock| stock.rows)
        .collect(alloc)?;
    Ok(Seq::from_vec(rows))
}
