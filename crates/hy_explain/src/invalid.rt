//! Why a transaction could not commit.

ghost use Rattle.std.specs.Prelude.{◌≡◌, ◌++◌, OnOk};
ghost use Rattle.std.specs.Option.{option_copied};
ghost use Rattle.hy_bound.specs.Predicate.{truth_at};
ghost use Rattle.hy_render.specs.Report.{row_or_none, versions};
ghost use Rattle.hy_explain.specs.Choosing.{is_chosen};
ghost use Rattle.hy_explain.specs.Explained.{looked_text, read_text, invalid_line, since_text, change_line, true_words, truth_words, there_words};
ghost use Rattle.hy_explain.specs.Explained.{differ_text, differing_text, hit_line, first_line, hit_lines, changed_text, invalid_text};

use crate::behind_words::put_behind;
use crate::choosing::Choice;
use crate::conditions::put_where;
use crate::found::{change_of, rank_of, statement_at};
use crate::reads::{hit_of, reads_of};
use crate::words::{columns_at, put, put_names, put_number, table_name};
use crate::{Told, put_label, put_rank, put_row};
use hy_bound::{Pred, Record, Root, stored_truth};
use hy_render::Place;
use hy_schema::Column;
use hy_script::Script;
use hy_stamp::Label;
use hy_value::{Change, ColMask, StoredRow, print_stored_row};
use std::alloc::AllocError;

/// Appends the columns that are looked at, or that only the rows are.
#[tactic(auto, unfolding(crate::specs::Explained::looked_text))]
fn put_looked(columns: &[Column], mask: ColMask, out: &mut Vec<u8>) -> Result<(), AllocError>
    ensures { OnOk result (out.new.items ≡ out.old.items ++ looked_text columns.now mask) }
{
    if mask.0 == 0 {
        return put(b"rows", out);
    }
    put_names(columns, Choice::Of(mask), out)
}

/// Appends what a statement read, if that is found.
#[tactic(auto, unfolding(crate::specs::Explained::read_text))]
fn put_read(script: &Script, read: Option<&Record>, out: &mut Vec<u8>) -> Result<(), AllocError>
    ensures { OnOk result (out.new.items ≡ out.old.items ++ read_text script.now (option_copied read.entry)) }
{
    let Some(read) = read else {
        return Ok(());
    };
    let tables = script.catalog.tables();
    let columns = columns_at(tables, read.table);
    put(b" read ", out)?;
    put_looked(columns, read.columns, out)?;
    put(b" of ", out)?;
    put(table_name(tables, read.table), out)?;
    put_where(columns, &read.pred, out)
}

/// Appends who could not commit, and which of its statements read what.
#[tactic(auto, unfolding(crate::specs::Explained::invalid_line))]
fn put_invalid_line(
    script: &Script,
    label: Label,
    number: u32,
    read: Option<&Record>,
    out: &mut Vec<u8>,
) -> Result<(), AllocError>
    ensures { OnOk result (out.new.items ≡ out.old.items ++ invalid_line script.now label number (option_copied read.entry)) }
{
    put_label(script, label, out)?;
    put(b" could not commit. Its statement ", out)?;
    put_number(u64::from(number), out)?;
    put_read(script, read, out)?;
    put(b".\n", out)
}

/// Appends since when a transaction stands in the order.
#[tactic(auto, unfolding(crate::specs::Explained::since_text))]
fn put_since(
    script: &Script,
    label: Label,
    rank: Option<u32>,
    out: &mut Vec<u8>,
) -> Result<(), AllocError>
    ensures { OnOk result (out.new.items ≡ out.old.items ++ since_text script.now label rank) }
{
    let Some(rank) = rank else {
        return Ok(());
    };
    put(b",", out)?;
    put_rank(script, label, rank, out)?;
    put(b",", out)
}

/// Appends a row, or that there is none.
pub fn put_version(row: Option<&StoredRow>, out: &mut Vec<u8>) -> Result<(), AllocError>
    ensures { OnOk result (out.new.items ≡ out.old.items ++ row_or_none (option_copied row.entry)) }
{
    match row {
        Some(row) => print_stored_row(row, out),
        None => put(b"none", out),
    }
}

/// Appends the row before a change, and the row after it.
fn put_versions(change: &Change, out: &mut Vec<u8>) -> Result<(), AllocError>
    ensures { OnOk result (out.new.items ≡ out.old.items ++ versions change.now.before change.now.after) }
{
    put(b"from ", out)?;
    put_version(change.before.as_ref(), out)?;
    put(b" to ", out)?;
    put_version(change.after.as_ref(), out)
}

/// Appends who changed what.
#[tactic(auto, unfolding(crate::specs::Explained::change_line))]
fn put_change(
    script: &Script,
    label: Label,
    other: Label,
    rank: Option<u32>,
    change: &Change,
    out: &mut Vec<u8>,
) -> Result<(), AllocError>
    ensures { OnOk result (out.new.items ≡ out.old.items ++ change_line script.now label other rank change.now) }
{
    put_label(script, other, out)?;
    put_since(script, label, rank, out)?;
    put(b" changed", out)?;
    put_row(script, change.table, change.pos, out)?;
    put(b" ", out)?;
    put_versions(change, out)?;
    put(b".\n", out)
}

/// Of which versions a condition is true.
fn truth_words(before: bool, after: bool) -> &'static [u8]
    ensures { result.now ≡ truth_words before after }
{
    match (before, after) {
        (true, true) => b"The condition was true of it before, and is true of it after",
        (true, false) => b"The condition was true of it before",
        (false, true) => b"The condition is true of it after",
        (false, false) => b"The condition is true of neither",
    }
}

/// Where all rows are read: which versions are there.
fn there_words(before: bool, after: bool) -> &'static [u8]
    ensures { result.now ≡ there_words before after }
{
    match (before, after) {
        (true, true) => b"A row stood there before, and one stands there after",
        (true, false) => b"A row stood there before",
        (false, true) => b"A row stands there after",
        (false, false) => b"No row stands there",
    }
}

/// Which versions a statement with this condition read.
fn true_words(pred: &Pred, before: bool, after: bool) -> &'static [u8]
    ensures { result.now ≡ true_words pred.now before after }
{
    match pred.root() {
        Root::True => there_words(before, after),
        _ => truth_words(before, after),
    }
}

/// Whether a condition is true of a row that is there or not.
fn truth_at(pred: &Pred, row: Option<&StoredRow>) -> bool
    ensures { result ≡ truth_at pred.now (option_copied row.entry) }
{
    match row {
        Some(row) => stored_truth(pred, row),
        None => false,
    }
}

/// Appends in which of the columns that were read two versions differ.
#[tactic(auto, unfolding(crate::specs::Explained::differ_text))]
fn put_differ(
    columns: &[Column],
    mask: ColMask,
    change: &Change,
    out: &mut Vec<u8>,
) -> Result<(), AllocError>
    ensures { OnOk result (out.new.items ≡ out.old.items ++ differ_text columns.now mask change.now.before change.now.after) }
{
    match (&change.before, &change.after) {
        (None, _) => put(b", and the row is new.\n", out),
        (Some(_), None) => put(b", and the row is gone.\n", out),
        (Some(before), Some(after)) => {
            put_differing(columns, Choice::Differing(mask, before, after), out)
        }
    }
}

/// Appends in which columns two versions differ.
fn put_differing(columns: &[Column], choice: Choice, out: &mut Vec<u8>) -> Result<(), AllocError>
    ensures { OnOk result (out.new.items ≡ out.old.items ++ differing_text columns.now (is_chosen choice.entry)) }
{
    put(b", and it differs in ", out)?;
    put_names(columns, choice, out)?;
    put(b".\n", out)
}

/// Appends why a change hits what was read.
#[tactic(auto, unfolding(crate::specs::Explained::hit_line))]
fn put_hit(
    script: &Script,
    read: &Record,
    change: &Change,
    out: &mut Vec<u8>,
) -> Result<(), AllocError>
    ensures { OnOk result (out.new.items ≡ out.old.items ++ hit_line script.now read.now change.now) }
{
    let before = truth_at(&read.pred, change.before.as_ref());
    let after = truth_at(&read.pred, change.after.as_ref());
    let columns = columns_at(script.catalog.tables(), read.table);
    put(true_words(&read.pred, before, after), out)?;
    put_differ(columns, read.columns, change, out)
}

/// Appends that nothing was hit before.
#[tactic(auto, unfolding(crate::specs::Explained::first_line))]
fn put_first(script: &Script, label: Label, out: &mut Vec<u8>) -> Result<(), AllocError>
    ensures { OnOk result (out.new.items ≡ out.old.items ++ first_line script.now label) }
{
    put(b"No earlier change since its start hits what ", out)?;
    put_label(script, label, out)?;
    put(b" read, and this one hits no earlier statement.\n", out)
}

/// Appends why a change hits a read, if that is found.
#[tactic(auto, unfolding(crate::specs::Explained::hit_lines))]
fn put_hits(
    script: &Script,
    label: Label,
    read: Option<&Record>,
    change: &Change,
    out: &mut Vec<u8>,
) -> Result<(), AllocError>
    ensures { OnOk result (out.new.items ≡ out.old.items ++ hit_lines script.now label (option_copied read.entry) change.now) }
{
    let Some(read) = read else {
        return Ok(());
    };
    put_hit(script, read, change, out)?;
    put_first(script, label, out)
}

/// What a refusal by validation names, besides the change: the transaction that changed something, its rank, and the
/// statement that read it.
#[derive(Clone, Copy)]
struct Named {
    /// The transaction that could not commit.
    label: Label,
    /// The one that changed something.
    other: Label,
    /// Its rank.
    rank: Option<u32>,
    /// The number of the statement.
    number: u32,
}

/// Appends what a transaction could not commit for, from the change that is named.
#[tactic(auto, unfolding(crate::specs::Explained::changed_text))]
fn put_changed(
    script: &Script,
    named: Named,
    reads: &[Record],
    change: Option<&Change>,
    out: &mut Vec<u8>,
) -> Result<(), AllocError>
    ensures { OnOk result (out.new.items
        ≡ out.old.items ++ changed_text script.now named.label named.number named.other named.rank reads.now (option_copied change.entry)) }
{
    let Some(change) = change else {
        return put_invalid_line(script, named.label, named.number, None, out);
    };
    let read = hit_of(reads, change);
    put_invalid_line(script, named.label, named.number, read, out)?;
    put_change(script, named.label, named.other, named.rank, change, out)?;
    put_hits(script, named.label, read, change, out)
}

/// Appends why a transaction could not commit: by the change of a position by another one, and the statement of this number.
pub fn put_invalid(
    told: &Told,
    label: Label,
    place: Place,
    other: Label,
    number: u32,
    out: &mut Vec<u8>,
) -> Result<(), AllocError>
    ensures { OnOk result (out.new.items
        ≡ out.old.items ++ invalid_text told.now.script.now told.now.outcome.now label place.table place.pos other number) }
{
    let rank = rank_of(told.outcome, other);
    let statement = statement_at(told.script, label, number);
    let reads = reads_of(told.alloc, told.script.catalog.tables(), number, statement)?;
    let change = change_of(told.outcome, other, place.table, place.pos);
    let named = Named {
        label,
        other,
        rank,
        number,
    };
    put_changed(told.script, named, reads.as_slice(), change, out)?;
    put_behind(told, label, number, other, rank, out)
}
