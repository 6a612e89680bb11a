//! What a run of the engine comes to, and the text that prints it.
#![tactic(auto)]

ghost use Rattle.std.specs.Prelude.{◌≡◌, [], ◌∷◌, ◌++◌, OnOk, OnErr, slice_index_or};
ghost use Rattle.std.specs.List.{flat_map};
ghost use Rattle.std.specs.Option.{option_copied};
ghost use Rattle.std.specs.Fmt.{decimal, signed_decimal};
ghost use Rattle.hy_value.specs.Print.{BeginsWith};
ghost use Rattle.hy_render.specs.Report.{line, word, table_name, label_name, place_name, row_line, group_line, reply_text, ending_text, wrote_line};
ghost use Rattle.hy_render.specs.Report.{placed_line, placed_lines, start_line, txn_text, row_or_none, versions, change_line, entry_line};
ghost use Rattle.hy_render.specs.Report.{order_lines, table_line, table_lines, tables_text, final_text, text};

mod digits;
mod laws;
mod rows;
mod summary;

use digits::{print_number, print_wide};
use hy_bound::{Ending, Grouped, Replies, Reply, StoredRows};
use hy_stamp::Label;
use hy_value::{Change, Changes, Seq, StoredRow, Text};
pub use laws::text_tells_the_outcome;
use rows::{print_row, print_value};
use std::alloc::AllocError;
pub use summary::summarize;

/// Names, in file order.
pub type Texts = Seq<Text>;

/// The names of a script's tables and sessions, by number.
#[derive(Drop)]
pub struct Names {
    /// Of the tables.
    pub tables: Texts,
    /// Of the sessions.
    pub sessions: Texts,
}

/// A position of a table.
#[derive(Clone, Copy, Debug, PartialEq, Eq)]
pub struct Place {
    /// The table.
    pub table: u32,
    /// The position in the table.
    pub pos: u32,
}

/// Positions, by table and then position.
pub type Places = Seq<Place>;

/// What a transaction came to.
#[derive(Drop)]
pub struct TxnOutcome {
    /// The transaction.
    pub label: Label,
    /// How many entries of the commit order stood before its BEGIN.
    pub start: u32,
    /// Its answered replies, in order.
    pub replies: Replies,
    /// How it ended.
    pub ending: Ending,
    /// The positions that it wrote, also where that was undone.
    pub wrote: Places,
    /// How many inserts it placed in each table, by number, undone ones too.
    pub placed: Seq<u64>,
}

/// An entry of the commit order: a transaction, and what it changed.
#[derive(Drop)]
pub struct Committed {
    /// The transaction.
    pub label: Label,
    /// Its changes, by table and then position.
    pub changes: Changes,
}

/// What a run comes to.
#[derive(Drop)]
pub struct Outcome {
    /// Every transaction, by session and then number.
    pub txns: Seq<TxnOutcome>,
    /// The commit order.
    pub order: Seq<Committed>,
    /// The rows of each table at the end, ascending.
    pub tables: Seq<StoredRows>,
}

/// Appends what `run` prints of an outcome: each transaction, the commit order, the final tables.
/// Without memory the buffer is as it was.
pub fn render(names: &Names, outcome: &Outcome, out: &mut Vec<u8>) -> Result<(), AllocError>
    ensures ok { OnOk result (out.new.items ≡ out.old.items ++ text names.now outcome.now) }
    ensures err { OnErr result (out.new.items ≡ out.old.items) }
{
    let before = out.len();
    let done = print_outcome(names, outcome, out);
    if done.is_err() {
        out.truncate(before);
    }
    done
}

/// Appends the text of an outcome. Without memory some of it may be there, as in all functions below.
fn print_outcome(names: &Names, outcome: &Outcome, out: &mut Vec<u8>) -> Result<(), AllocError>
    ensures ok { OnOk result (out.new.items ≡ out.old.items ++ text names.now outcome.now) }
    ensures begun { BeginsWith out.old.items out.new.items }
{
    print_txns(names, outcome.txns.as_slice(), out)?;
    print_final(names, outcome, out)
}

/// Appends what stands behind the transactions in the text of an outcome: the commit order and the final tables.
pub fn print_final(names: &Names, outcome: &Outcome, out: &mut Vec<u8>) -> Result<(), AllocError>
    ensures ok { OnOk result (out.new.items ≡ out.old.items ++ final_text names.now outcome.now) }
    ensures begun { BeginsWith out.old.items out.new.items }
{
    print_count(b"order ", outcome.order.len(), out)?;
    print_order(names, outcome.order.as_slice(), out)?;
    print_last(names, outcome.tables.as_slice(), out)
}

/// Appends tables as the text of an outcome ends with them. Without memory the buffer is as it was.
pub fn render_tables(
    names: &Names,
    tables: &[StoredRows],
    out: &mut Vec<u8>,
) -> Result<(), AllocError>
    ensures ok { OnOk result (out.new.items ≡ out.old.items ++ tables_text names.now tables.now) }
    ensures err { OnErr result (out.new.items ≡ out.old.items) }
{
    let before = out.len();
    let done = print_last(names, tables, out);
    if done.is_err() {
        out.truncate(before);
    }
    done
}

/// Appends the tables and the last line.
fn print_last(names: &Names, tables: &[StoredRows], out: &mut Vec<u8>) -> Result<(), AllocError>
    ensures ok { OnOk result (out.new.items ≡ out.old.items ++ tables_text names.now tables.now) }
    ensures begun { BeginsWith out.old.items out.new.items }
{
    print_tables(names, tables, out)?;
    print_line(b"end", out)
}

/// Appends bytes. Where they are known it comes to a few stores, and so it stands in its callers.
#[inline(always)]
fn put(bytes: &[u8], out: &mut Vec<u8>) -> Result<(), AllocError>
    ensures ok { OnOk result (out.new.items ≡ out.old.items ++ bytes.now) }
    ensures begun { BeginsWith out.old.items out.new.items }
{
    out.extend_from_slice(bytes)
}

/// Appends a whole line.
#[inline(always)]
fn print_line(bytes: &[u8], out: &mut Vec<u8>) -> Result<(), AllocError>
    ensures ok { OnOk result (out.new.items ≡ out.old.items ++ line bytes.now) }
    ensures begun { BeginsWith out.old.items out.new.items }
{
    put(bytes, out)?;
    end_line(out)
}

/// Appends the end of a line.
fn end_line(out: &mut Vec<u8>) -> Result<(), AllocError>
    ensures ok { OnOk result (out.new.items ≡ out.old.items ++ 10 ∷ []) }
    ensures begun { BeginsWith out.old.items out.new.items }
{
    out.push(b'\n')?;
    Ok(())
}

/// Appends a space.
fn end_word(out: &mut Vec<u8>) -> Result<(), AllocError>
    ensures ok { OnOk result (out.new.items ≡ out.old.items ++ 32 ∷ []) }
    ensures begun { BeginsWith out.old.items out.new.items }
{
    out.push(b' ')?;
    Ok(())
}

/// Appends a number and the end of its line.
fn end_with_number(number: u64, out: &mut Vec<u8>) -> Result<(), AllocError>
    ensures ok { OnOk result (out.new.items ≡ out.old.items ++ line (decimal number)) }
    ensures begun { BeginsWith out.old.items out.new.items }
{
    print_number(number, out)?;
    end_line(out)
}

/// Appends a line of some words and a number of things.
#[inline(always)]
fn print_count(words: &[u8], count: usize, out: &mut Vec<u8>) -> Result<(), AllocError>
    ensures ok { OnOk result (out.new.items ≡ out.old.items ++ line (words.now ++ decimal count)) }
    ensures begun { BeginsWith out.old.items out.new.items }
{
    put(words, out)?;
    end_with_number(count as u64, out)
}

/// The name of this number, or no bytes where there is none.
fn name_of(names: &Texts, number: usize) -> &[u8]
    ensures { result.now ≡ slice_index_or names.now number [] }
{
    match names.as_slice().get(number) {
        Some(name) => name.as_bytes(),
        None => &[],
    }
}

/// Appends the name of this number, or nothing where there is none.
#[inline(never)]
fn print_name(names: &Texts, number: usize, out: &mut Vec<u8>) -> Result<(), AllocError>
    ensures ok { OnOk result (out.new.items ≡ out.old.items ++ slice_index_or names.now number []) }
    ensures begun { BeginsWith out.old.items out.new.items }
{
    put(name_of(names, number), out)
}

/// Appends a table's name.
fn print_table(names: &Names, table: u32, out: &mut Vec<u8>) -> Result<(), AllocError>
    ensures ok { OnOk result (out.new.items ≡ out.old.items ++ table_name names.now table) }
    ensures begun { BeginsWith out.old.items out.new.items }
{
    print_name(&names.tables, table as usize, out)
}

/// Appends the name of a transaction.
fn print_label(names: &Names, label: Label, out: &mut Vec<u8>) -> Result<(), AllocError>
    ensures ok { OnOk result (out.new.items ≡ out.old.items ++ label_name names.now label) }
    ensures begun { BeginsWith out.old.items out.new.items }
{
    print_name(&names.sessions, label.session as usize, out)?;
    put(b".", out)?;
    print_number(u64::from(label.txn), out)
}

/// Appends a table's name and a position.
fn print_place(names: &Names, table: u32, pos: u32, out: &mut Vec<u8>) -> Result<(), AllocError>
    ensures ok { OnOk result (out.new.items ≡ out.old.items ++ place_name names.now table pos) }
    ensures begun { BeginsWith out.old.items out.new.items }
{
    print_table(names, table, out)?;
    end_word(out)?;
    print_number(u64::from(pos), out)
}

/// Appends the line of a row.
fn print_row_line(row: &StoredRow, out: &mut Vec<u8>) -> Result<(), AllocError>
    ensures ok { OnOk result (out.new.items ≡ out.old.items ++ row_line row.now) }
    ensures begun { BeginsWith out.old.items out.new.items }
{
    put(b"row ", out)?;
    print_row(row, out)?;
    end_line(out)
}

/// Appends a line for each row.
#[tactic(auto, using(crate::proofs::Buffers::begins_from))]
fn print_rows(rows: &[StoredRow], out: &mut Vec<u8>) -> Result<(), AllocError>
    ensures ok { OnOk result (out.new.items ≡ out.old.items ++ flat_map row_line rows.now) }
    ensures begun { BeginsWith out.old.items out.new.items }
{
    for row in rows {
        print_row_line(row, out)?;
    }
    Ok(())
}

/// Appends a reply.
pub fn print_reply(reply: &Reply, out: &mut Vec<u8>) -> Result<(), AllocError>
    ensures ok { OnOk result (out.new.items ≡ out.old.items ++ reply_text reply.now) }
    ensures begun { BeginsWith out.old.items out.new.items }
{
    match reply {
        Reply::Rows(rows) => {
            print_count(b"rows ", rows.len(), out)?;
            print_rows(rows.as_slice(), out)
        }
        Reply::Value(total) => print_total(*total, out),
        Reply::Groups(groups) => {
            print_count(b"groups ", groups.len(), out)?;
            print_groups(groups.as_slice(), out)
        }
        Reply::Inserted => print_line(b"inserted", out),
        Reply::Duplicate => print_line(b"duplicate", out),
        Reply::Updated(count) => print_changed(b"updated ", *count, out),
        Reply::Deleted(count) => print_changed(b"deleted ", *count, out),
        Reply::Saved => print_line(b"saved", out),
        Reply::Back => print_line(b"back", out),
        Reply::Released => print_line(b"released", out),
    }
}

/// Appends a line of a word and a number of rows.
#[inline(always)]
fn print_changed(words: &[u8], count: u64, out: &mut Vec<u8>) -> Result<(), AllocError>
    ensures ok { OnOk result (out.new.items ≡ out.old.items ++ line (words.now ++ decimal count)) }
    ensures begun { BeginsWith out.old.items out.new.items }
{
    put(words, out)?;
    end_with_number(count, out)
}

/// Appends the line of a total.
fn print_total(total: i128, out: &mut Vec<u8>) -> Result<(), AllocError>
    ensures ok { OnOk result (out.new.items ≡ out.old.items ++ reply_text (Reply.Value total)) }
    ensures begun { BeginsWith out.old.items out.new.items }
{
    put(b"value ", out)?;
    end_with_total(total, out)
}

/// Appends a total in decimal, with its sign where it is negative, and the end of its line.
fn end_with_total(total: i128, out: &mut Vec<u8>) -> Result<(), AllocError>
    ensures ok { OnOk result (out.new.items ≡ out.old.items ++ line (signed_decimal total)) }
    ensures begun { BeginsWith out.old.items out.new.items }
{
    print_wide(total, out)?;
    end_line(out)
}

/// Appends the line of a group.
fn print_group(group: &Grouped, out: &mut Vec<u8>) -> Result<(), AllocError>
    ensures ok { OnOk result (out.new.items ≡ out.old.items ++ group_line group.now) }
    ensures begun { BeginsWith out.old.items out.new.items }
{
    put(b"group ", out)?;
    print_value(group.value.refer(), out)?;
    put(b"|", out)?;
    end_with_total(group.total, out)
}

/// Appends a line for each group.
#[tactic(auto, using(crate::proofs::Buffers::begins_from))]
fn print_groups(groups: &[Grouped], out: &mut Vec<u8>) -> Result<(), AllocError>
    ensures ok { OnOk result (out.new.items ≡ out.old.items ++ flat_map group_line groups.now) }
    ensures begun { BeginsWith out.old.items out.new.items }
{
    for group in groups {
        print_group(group, out)?;
    }
    Ok(())
}

/// Appends replies.
#[tactic(auto, using(crate::proofs::Buffers::begins_from))]
fn print_replies(replies: &[Reply], out: &mut Vec<u8>) -> Result<(), AllocError>
    ensures ok { OnOk result (out.new.items ≡ out.old.items ++ flat_map reply_text replies.now) }
    ensures begun { BeginsWith out.old.items out.new.items }
{
    for reply in replies {
        print_reply(reply, out)?;
    }
    Ok(())
}

/// Appends how a transaction ended.
fn print_ending(names: &Names, ending: &Ending, out: &mut Vec<u8>) -> Result<(), AllocError>
    ensures ok { OnOk result (out.new.items ≡ out.old.items ++ ending_text names.now ending.now) }
    ensures begun { BeginsWith out.old.items out.new.items }
{
    match ending {
        Ending::Committed { rank } => {
            put(b"committed ", out)?;
            print_number(u64::from(*rank), out)
        }
        Ending::Read => put(b"read", out),
        Ending::RolledBack => put(b"rolledback", out),
        Ending::Conflict { table, pos, other } => {
            put(b"conflict ", out)?;
            print_rival(names, *table, *pos, *other, out)
        }
        Ending::Invalid {
            table,
            pos,
            other,
            statement,
        } => {
            put(b"invalid ", out)?;
            print_rival(names, *table, *pos, *other, out)?;
            put(b" statement ", out)?;
            print_number(u64::from(*statement), out)
        }
        Ending::Range { table, pos } => {
            put(b"range ", out)?;
            print_place(names, *table, *pos, out)
        }
        Ending::Full { table } => {
            put(b"full ", out)?;
            print_table(names, *table, out)
        }
    }
}

/// Appends the line of how a transaction ended.
pub fn print_end(names: &Names, ending: &Ending, out: &mut Vec<u8>) -> Result<(), AllocError>
    ensures ok { OnOk result (out.new.items
        ≡ out.old.items ++ line (ending_text names.now ending.now)) }
    ensures begun { BeginsWith out.old.items out.new.items }
{
    print_ending(names, ending, out)?;
    end_line(out)
}

/// Appends a position and the transaction that changed it.
fn print_rival(
    names: &Names,
    table: u32,
    pos: u32,
    other: Label,
    out: &mut Vec<u8>,
) -> Result<(), AllocError>
    ensures ok { OnOk result (out.new.items
        ≡ out.old.items ++ (word (place_name names.now table pos) ++ label_name names.now other)) }
    ensures begun { BeginsWith out.old.items out.new.items }
{
    print_place(names, table, pos, out)?;
    end_word(out)?;
    print_label(names, other, out)
}

/// Appends the line of a position that a transaction wrote.
fn print_wrote(names: &Names, place: &Place, out: &mut Vec<u8>) -> Result<(), AllocError>
    ensures ok { OnOk result (out.new.items ≡ out.old.items ++ wrote_line names.now place.now) }
    ensures begun { BeginsWith out.old.items out.new.items }
{
    put(b"wrote ", out)?;
    print_place(names, place.table, place.pos, out)?;
    end_line(out)
}

/// Appends a line for each position that a transaction wrote.
#[tactic(auto, using(crate::proofs::Buffers::begins_from))]
fn print_places(names: &Names, places: &[Place], out: &mut Vec<u8>) -> Result<(), AllocError>
    ensures ok { OnOk result (out.new.items
        ≡ out.old.items ++ flat_map (wrote_line names.now) places.now) }
    ensures begun { BeginsWith out.old.items out.new.items }
{
    for place in places {
        print_wrote(names, place, out)?;
    }
    Ok(())
}

/// Appends a line for each table where inserts were placed.
#[tactic(auto, using(crate::proofs::Buffers::begins_again))]
fn print_placed(names: &Names, counts: &[u64], out: &mut Vec<u8>) -> Result<(), AllocError>
    ensures ok { OnOk result (out.new.items ≡ out.old.items ++ placed_lines names.now 0 counts.now) }
    ensures begun { BeginsWith out.old.items out.new.items }
{
    for (table, count) in counts.iter().enumerate() {
        print_inserts(names, table, *count, out)?;
    }
    Ok(())
}

/// Appends the line of a table where inserts were placed.
fn print_inserts(
    names: &Names,
    table: usize,
    count: u64,
    out: &mut Vec<u8>,
) -> Result<(), AllocError>
    ensures ok { OnOk result (out.new.items ≡ out.old.items ++ placed_line names.now table count) }
    ensures begun { BeginsWith out.old.items out.new.items }
{
    if count == 0 {
        return Ok(());
    }
    put(b"placed ", out)?;
    print_name(&names.tables, table, out)?;
    end_word(out)?;
    end_with_number(count, out)
}

/// Appends what a transaction came to.
fn print_txn(names: &Names, txn: &TxnOutcome, out: &mut Vec<u8>) -> Result<(), AllocError>
    ensures ok { OnOk result (out.new.items ≡ out.old.items ++ txn_text names.now txn.now) }
    ensures begun { BeginsWith out.old.items out.new.items }
{
    print_start(names, txn.label, txn.start, out)?;
    print_replies(txn.replies.as_slice(), out)?;
    print_end(names, &txn.ending, out)?;
    print_places(names, txn.wrote.as_slice(), out)?;
    print_placed(names, txn.placed.as_slice(), out)
}

/// Appends the first line of a transaction.
fn print_start(names: &Names, label: Label, start: u32, out: &mut Vec<u8>) -> Result<(), AllocError>
    ensures ok { OnOk result (out.new.items ≡ out.old.items ++ start_line names.now label start) }
    ensures begun { BeginsWith out.old.items out.new.items }
{
    put(b"txn ", out)?;
    print_label(names, label, out)?;
    put(b" start ", out)?;
    end_with_number(u64::from(start), out)
}

/// Appends transactions.
#[tactic(auto, using(crate::proofs::Buffers::begins_from))]
fn print_txns(names: &Names, txns: &[TxnOutcome], out: &mut Vec<u8>) -> Result<(), AllocError>
    ensures ok { OnOk result (out.new.items
        ≡ out.old.items ++ flat_map (txn_text names.now) txns.now) }
    ensures begun { BeginsWith out.old.items out.new.items }
{
    for txn in txns {
        print_txn(names, txn, out)?;
    }
    Ok(())
}

/// Appends a row that is there or not.
fn print_version(row: Option<&StoredRow>, out: &mut Vec<u8>) -> Result<(), AllocError>
    ensures ok { OnOk result (out.new.items ≡ out.old.items ++ row_or_none (option_copied row.entry)) }
    ensures begun { BeginsWith out.old.items out.new.items }
{
    match row {
        Some(row) => print_row(row, out),
        None => put(b"none", out),
    }
}

/// Appends the line of a change.
fn print_change(names: &Names, change: &Change, out: &mut Vec<u8>) -> Result<(), AllocError>
    ensures ok { OnOk result (out.new.items ≡ out.old.items ++ change_line names.now change.now) }
    ensures begun { BeginsWith out.old.items out.new.items }
{
    put(b"change ", out)?;
    print_place(names, change.table, change.pos, out)?;
    end_word(out)?;
    print_versions(change.before.as_ref(), change.after.as_ref(), out)?;
    end_line(out)
}

/// Appends the row before a change and the row after it.
fn print_versions(
    before: Option<&StoredRow>,
    after: Option<&StoredRow>,
    out: &mut Vec<u8>,
) -> Result<(), AllocError>
    ensures ok { OnOk result (out.new.items
        ≡ out.old.items ++ versions (option_copied before.entry) (option_copied after.entry)) }
    ensures begun { BeginsWith out.old.items out.new.items }
{
    put(b"from ", out)?;
    print_version(before, out)?;
    put(b" to ", out)?;
    print_version(after, out)
}

/// Appends a line for each change.
#[tactic(auto, using(crate::proofs::Buffers::begins_from))]
fn print_changes(names: &Names, changes: &[Change], out: &mut Vec<u8>) -> Result<(), AllocError>
    ensures ok { OnOk result (out.new.items
        ≡ out.old.items ++ flat_map (change_line names.now) changes.now) }
    ensures begun { BeginsWith out.old.items out.new.items }
{
    for change in changes {
        print_change(names, change, out)?;
    }
    Ok(())
}

/// Appends the line of an entry of the commit order.
fn print_entry(
    names: &Names,
    place: usize,
    label: Label,
    out: &mut Vec<u8>,
) -> Result<(), AllocError>
    ensures ok { OnOk result (out.new.items ≡ out.old.items ++ entry_line names.now place label) }
    ensures begun { BeginsWith out.old.items out.new.items }
{
    put(b"entry ", out)?;
    print_number(place as u64, out)?;
    end_word(out)?;
    print_label(names, label, out)?;
    end_line(out)
}

/// Appends the entries of the commit order, with their changes.
#[tactic(auto, using(crate::proofs::Buffers::begins_again))]
fn print_order(names: &Names, order: &[Committed], out: &mut Vec<u8>) -> Result<(), AllocError>
    ensures ok { OnOk result (out.new.items ≡ out.old.items ++ order_lines names.now 0 order.now) }
    ensures begun { BeginsWith out.old.items out.new.items }
{
    for (place, entry) in order.iter().enumerate() {
        print_entry(names, place, entry.label, out)?;
        print_changes(names, entry.changes.as_slice(), out)?;
    }
    Ok(())
}

/// Appends the first line of a table.
fn print_size(
    names: &Names,
    table: usize,
    count: usize,
    out: &mut Vec<u8>,
) -> Result<(), AllocError>
    ensures ok { OnOk result (out.new.items ≡ out.old.items ++ table_line names.now table count) }
    ensures begun { BeginsWith out.old.items out.new.items }
{
    put(b"table ", out)?;
    print_name(&names.tables, table, out)?;
    end_word(out)?;
    end_with_number(count as u64, out)
}

/// Appends the tables, with their rows.
#[tactic(auto, using(crate::proofs::Buffers::begins_again))]
fn print_tables(names: &Names, tables: &[StoredRows], out: &mut Vec<u8>) -> Result<(), AllocError>
    ensures ok { OnOk result (out.new.items ≡ out.old.items ++ table_lines names.now 0 tables.now) }
    ensures begun { BeginsWith out.old.items out.new.items }
{
    for (table, rows) in tables.iter().enumerate() {
        print_size(names, table, rows.len(), out)?;
        print_rows(rows.as_slice(), out)?;
    }
    Ok(())
}
