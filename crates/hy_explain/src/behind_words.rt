//! What is told of a transaction alone behind the one that it lost against.

ghost use Rattle.std.specs.Prelude.{◌≡◌, ◌++◌, OnOk, codes, length, map};
ghost use Rattle.std.specs.Option.{option_copied};
ghost use Rattle.std.specs.Fmt.{decimal, signed_decimal};
ghost use Rattle.hy_value.specs.Print.{printed_row};
ghost use Rattle.hy_explain.specs.Found.{item_numbered};
ghost use Rattle.hy_explain.specs.Behind.{alone_words, answer_line, behind_line, group_words, listed, reply_words, stop_line};

use crate::behind::run_behind;
use crate::words::{put, put_number};
use crate::{Told, put_label};
use hy_bound::{Grouped, Reply};
use hy_script::Script;
use hy_stamp::Label;
use hy_value::{StoredRow, print, print_stored_row};
use itoa::Buffer;
use std::alloc::AllocError;

/// Appends a word and a number.
fn put_count(words: &[u8], number: u64, out: &mut Vec<u8>) -> Result<(), AllocError>
    ensures { OnOk result (out.new.items ≡ out.old.items ++ (words.now ++ decimal number)) }
{
    put(words, out)?;
    put_number(number, out)
}

/// Appends a total, with its sign where it is negative.
fn put_total(total: i128, out: &mut Vec<u8>) -> Result<(), AllocError>
    ensures { OnOk result (out.new.items ≡ out.old.items ++ signed_decimal total) }
{
    let mut digits = Buffer::new();
    put(digits.format(total).as_bytes(), out)
}

/// Appends the total that a statement is answered.
fn put_value(total: i128, out: &mut Vec<u8>) -> Result<(), AllocError>
    ensures { OnOk result (out.new.items ≡ out.old.items ++ (codes "value " ++ signed_decimal total)) }
{
    put(b"value ", out)?;
    put_total(total, out)
}

/// Appends rows in one line.
fn put_rows(rows: &[StoredRow], out: &mut Vec<u8>) -> Result<(), AllocError>
    ensures { OnOk result (out.new.items ≡ out.old.items ++ listed (map printed_row rows.now)) }
{
    let mut before: &[u8] = b": ";
    for row in rows {
        put(before, out)?;
        print_stored_row(row, out)?;
        before = b", ";
    }
    Ok(())
}

/// Appends a group.
fn put_group(group: &Grouped, out: &mut Vec<u8>) -> Result<(), AllocError>
    ensures { OnOk result (out.new.items ≡ out.old.items ++ group_words group.now) }
{
    print(&group.value, out)?;
    put(b"|", out)?;
    put_total(group.total, out)
}

/// Appends groups in one line.
fn put_groups(groups: &[Grouped], out: &mut Vec<u8>) -> Result<(), AllocError>
    ensures { OnOk result (out.new.items ≡ out.old.items ++ listed (map group_words groups.now)) }
{
    let mut before: &[u8] = b": ";
    for group in groups {
        put(before, out)?;
        put_group(group, out)?;
        before = b", ";
    }
    Ok(())
}

/// Appends how many rows a statement is answered, and these.
fn put_counted_rows(rows: &[StoredRow], out: &mut Vec<u8>) -> Result<(), AllocError>
    ensures { OnOk result (out.new.items ≡ out.old.items ++ (codes "rows " ++ decimal (length rows.now) ++ listed (map printed_row rows.now))) }
{
    put_count(b"rows ", rows.len() as u64, out)?;
    put_rows(rows, out)
}

/// Appends how many groups a statement is answered, and these.
fn put_counted_groups(groups: &[Grouped], out: &mut Vec<u8>) -> Result<(), AllocError>
    ensures { OnOk result (out.new.items ≡ out.old.items ++ (codes "groups " ++ decimal (length groups.now) ++ listed (map group_words groups.now))) }
{
    put_count(b"groups ", groups.len() as u64, out)?;
    put_groups(groups, out)
}

/// Appends a reply in the words of its first line, with the rows or the groups that it shows.
#[tactic(auto, unfolding(crate::specs::Behind::reply_words))]
fn put_reply(reply: &Reply, out: &mut Vec<u8>) -> Result<(), AllocError>
    ensures { OnOk result (out.new.items ≡ out.old.items ++ reply_words reply.now) }
{
    match reply {
        Reply::Rows(rows) => put_counted_rows(rows.as_slice(), out),
        Reply::Value(total) => put_value(*total, out),
        Reply::Groups(groups) => put_counted_groups(groups.as_slice(), out),
        Reply::Inserted => put(b"inserted", out),
        Reply::Duplicate => put(b"duplicate", out),
        Reply::Updated(count) => put_count(b"updated ", *count, out),
        Reply::Deleted(count) => put_count(b"deleted ", *count, out),
        Reply::Saved => put(b"saved", out),
        Reply::Back => put(b"back", out),
        Reply::Released => put(b"released", out),
    }
}

/// Appends what is said first of a statement.
#[tactic(auto, unfolding(crate::specs::Behind::alone_words))]
fn put_alone(
    script: &Script,
    other: Label,
    number: u64,
    out: &mut Vec<u8>,
) -> Result<(), AllocError>
    ensures { OnOk result (out.new.items ≡ out.old.items ++ alone_words script.now other number) }
{
    put(b"Alone behind ", out)?;
    put_label(script, other, out)?;
    put(b", statement ", out)?;
    put_number(number, out)
}

/// Appends at which statement the transaction ends, if it ends by itself.
#[tactic(auto, unfolding(crate::specs::Behind::stop_line))]
fn put_stop(
    script: &Script,
    other: Label,
    stop: Option<u64>,
    out: &mut Vec<u8>,
) -> Result<(), AllocError>
    ensures { OnOk result (out.new.items ≡ out.old.items ++ stop_line script.now other stop) }
{
    let Some(number) = stop else {
        return Ok(());
    };
    put_alone(script, other, number, out)?;
    put(b" takes a value out of 64 bits.\n", out)
}

/// Appends what a statement is answered.
#[tactic(auto, unfolding(crate::specs::Behind::answer_line))]
fn put_answer(
    script: &Script,
    other: Label,
    number: u32,
    stop: Option<u64>,
    reply: Option<&Reply>,
    out: &mut Vec<u8>,
) -> Result<(), AllocError>
    ensures { OnOk result (out.new.items ≡ out.old.items ++ answer_line script.now other number stop (option_copied reply.entry)) }
{
    let Some(reply) = reply else {
        return put_stop(script, other, stop, out);
    };
    put_alone(script, other, u64::from(number), out)?;
    put(b" answers ", out)?;
    put_reply(reply, out)?;
    put(b".\n", out)
}

/// The reply to the statement of a number, from 1, if there is one.
fn reply_at(replies: &[Reply], number: u32) -> Option<&Reply>
    ensures { option_copied result ≡ item_numbered replies.now number }
{
    if number == 0 {
        return None;
    }
    replies.get(number as usize - 1)
}

/// Appends what the statement of a number is answered where the transaction runs alone behind another one, if the rank of
/// that is found. A rank past 32 bits would be want of memory.
#[tactic(auto, unfolding(crate::specs::Behind::behind_line))]
pub fn put_behind(
    told: &Told,
    label: Label,
    number: u32,
    other: Label,
    rank: Option<u32>,
    out: &mut Vec<u8>,
) -> Result<(), AllocError>
    ensures { OnOk result (out.new.items
        ≡ out.old.items ++ behind_line told.now.script.now told.now.outcome.now.order label number other rank) }
{
    let Some(rank) = rank else {
        return Ok(());
    };
    let behind = rank.checked_add(1).ok_or(AllocError)?;
    let given = run_behind(told, label, behind)?;
    let reply = reply_at(given.replies.as_slice(), number);
    put_answer(told.script, other, number, given.stop, reply, out)
}
