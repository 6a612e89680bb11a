//! The lines of steps.

ghost use Rattle.std.specs.Prelude.{◌≡◌, ◌++◌, [], OnOk, slice_index_or};
ghost use Rattle.std.specs.Fmt.{decimal};
ghost use Rattle.std.specs.Option.{option_copied};
ghost use Rattle.hy_render.specs.Report.{label_name, line, word};
ghost use Rattle.hy_trace.specs.Trace.{answer_line, at_words, first_line, moved_line, open_line, part_words, stamping_line, task_words, told_line};
ghost use Rattle.hy_trace.specs.Trace.{undoing_line, visit_words, work_words};
ghost use Rattle.hy_trace.specs.Traced.{told_in};

use crate::standing::{At, Work};
use hy_bound::{Ending, Reply};
use hy_event::Need;
use hy_protocol::{Phase, Progress};
use hy_render::{Names, Texts, print_end, print_reply};
use hy_stamp::Label;
use hy_world::World;
use itoa::Buffer;
use std::alloc::AllocError;

/// Appends bytes.
pub fn put(bytes: &[u8], out: &mut Vec<u8>) -> Result<(), AllocError>
    ensures { OnOk result (out.new.items ≡ out.old.items ++ bytes.now) }
{
    out.extend_from_slice(bytes)
}

/// Appends a number in decimal.
fn print_number(number: u64, out: &mut Vec<u8>) -> Result<(), AllocError>
    ensures { OnOk result (out.new.items ≡ out.old.items ++ decimal number) }
{
    let mut digits = Buffer::new();
    put(digits.format(number).as_bytes(), out)
}

/// Appends some words and a number, which end their line.
fn print_count(words: &[u8], count: usize, out: &mut Vec<u8>) -> Result<(), AllocError>
    ensures { OnOk result (out.new.items ≡ out.old.items ++ line (words.now ++ decimal count)) }
{
    put(words, out)?;
    print_number(count as u64, out)?;
    put(b"\n", out)
}

/// The name of this number, or no bytes where there is none.
fn name_of(names: &Texts, number: u32) -> &[u8]
    ensures { result.now ≡ slice_index_or names.now number [] }
{
    match names.as_slice().get(number as usize) {
        Some(name) => name.as_bytes(),
        None => &[],
    }
}

/// Appends the name of a transaction.
fn print_label(names: &Names, label: Label, out: &mut Vec<u8>) -> Result<(), AllocError>
    ensures { OnOk result (out.new.items ≡ out.old.items ++ label_name names.now label) }
{
    put(name_of(&names.sessions, label.session), out)?;
    put(b".", out)?;
    print_number(u64::from(label.txn), out)
}

// ---- where a session stands

/// Appends what a session is at.
fn print_work(work: Work, out: &mut Vec<u8>) -> Result<(), AllocError>
    ensures { OnOk result (out.new.items ≡ out.old.items ++ work_words work) }
{
    match work {
        Work::Nothing => Ok(()),
        Work::Begin => put(b"begin", out),
        Work::Statement { number } => {
            put(b"statement ", out)?;
            print_number(number as u64, out)
        }
        Work::Commit => put(b"commit", out),
        Work::Rollback => put(b"rollback", out),
        Work::Stamp => put(b"stamp", out),
        Work::Undo => put(b"undo", out),
    }
}

/// Appends a part.
fn print_part(names: &Names, part: Need, out: &mut Vec<u8>) -> Result<(), AllocError>
    ensures { OnOk result (out.new.items ≡ out.old.items ++ part_words names.now part) }
{
    match part {
        Need::Core => put(b"core", out),
        Need::Chunk { table, chunk } => {
            put(name_of(&names.tables, table), out)?;
            put(b" ", out)?;
            print_number(u64::from(chunk), out)
        }
        Need::Done => Ok(()),
    }
}

/// Appends a transaction and what it is at, with a space behind each.
fn print_task(names: &Names, at: &At, out: &mut Vec<u8>) -> Result<(), AllocError>
    ensures { OnOk result (out.new.items ≡ out.old.items ++ task_words names.now at.now.label at.now.work) }
{
    print_label(names, at.label, out)?;
    put(b" ", out)?;
    print_work(at.work, out)?;
    put(b" ", out)
}

/// Appends which part a transaction visits, and what it is at there.
fn print_visit(names: &Names, at: &At, out: &mut Vec<u8>) -> Result<(), AllocError>
    ensures { OnOk result (out.new.items ≡ out.old.items ++ visit_words names.now at.now.label at.now.part at.now.work) }
{
    print_task(names, at, out)?;
    put(b"at ", out)?;
    print_part(names, at.part, out)?;
    put(b":", out)
}

/// Appends where a session stands.
fn print_at(names: &Names, at: &At, out: &mut Vec<u8>) -> Result<(), AllocError>
    ensures { OnOk result (out.new.items ≡ out.old.items ++ at_words names.now at.now) }
{
    match at.work {
        Work::Nothing => put(name_of(&names.sessions, at.label.session), out),
        Work::Begin => {
            print_label(names, at.label, out)?;
            put(b" begin:", out)
        }
        Work::Statement { .. } | Work::Commit | Work::Rollback | Work::Stamp | Work::Undo => {
            print_visit(names, at, out)
        }
    }
}

/// Appends what comes first in the line of a step: its number, and where its session stood.
pub fn print_standing(
    names: &Names,
    count: u64,
    at: &At,
    out: &mut Vec<u8>,
) -> Result<(), AllocError>
    ensures { OnOk result (out.new.items ≡ out.old.items ++ (word (decimal count) ++ word (at_words names.now at.now))) }
{
    print_number(count, out)?;
    put(b" ", out)?;
    print_at(names, at, out)?;
    put(b" ", out)
}

// ---- what the step came to

/// Appends the first line of a reply.
fn print_first(reply: &Reply, out: &mut Vec<u8>) -> Result<(), AllocError>
    ensures { OnOk result (out.new.items ≡ out.old.items ++ first_line reply.now) }
{
    match reply {
        Reply::Rows(rows) => print_count(b"rows ", rows.len(), out),
        Reply::Groups(groups) => print_count(b"groups ", groups.len(), out),
        Reply::Value(_)
        | Reply::Inserted
        | Reply::Duplicate
        | Reply::Updated(_)
        | Reply::Deleted(_)
        | Reply::Saved
        | Reply::Back
        | Reply::Released => print_reply(reply, out),
    }
}

/// Appends what an open transaction tells that answered.
fn print_open(prefix: u32, reply: Option<&Reply>, out: &mut Vec<u8>) -> Result<(), AllocError>
    ensures { OnOk result (out.new.items ≡ out.old.items ++ open_line prefix (option_copied reply.entry)) }
{
    match reply {
        Some(reply) => print_first(reply, out),
        None => print_count(b"start ", prefix as usize, out),
    }
}

/// Appends what a session tells that answered.
fn print_answer(
    names: &Names,
    world: &World,
    number: u32,
    out: &mut Vec<u8>,
) -> Result<(), AllocError>
    ensures { OnOk result (out.new.items ≡ out.old.items
        ++ answer_line names.now (told_in world.now number).prefix (told_in world.now number).reply (told_in world.now number).ending) }
{
    match world.open_prefix(number) {
        Some(prefix) => print_open(prefix, world.latest_reply(number), out),
        None => match world.latest_ending(number) {
            Some(ending) => print_end(names, &ending, out),
            None => Ok(()),
        },
    }
}

/// Where the open transaction of a session stands, if it has one.
fn phase_at(world: &World, number: u32) -> Option<Phase>
    ensures { result ≡ (told_in world.now number).phase }
{
    world.session(number)?.phase()
}

/// Appends what a transaction tells that went on and has its entry, the last of so many.
fn print_stamping(entries: usize, visited: u32, out: &mut Vec<u8>) -> Result<(), AllocError>
    ensures { OnOk result (out.new.items ≡ out.old.items ++ stamping_line entries visited) }
{
    if visited == 0 {
        print_count(b"entered ", entries.saturating_sub(1), out)
    } else {
        put(b"moved\n", out)
    }
}

/// Appends what a transaction tells that went on and will end so.
fn print_undoing(
    names: &Names,
    visited: u32,
    cause: &Ending,
    out: &mut Vec<u8>,
) -> Result<(), AllocError>
    ensures { OnOk result (out.new.items ≡ out.old.items ++ undoing_line names.now visited cause.now) }
{
    if visited == 0 {
        put(b"refused ", out)?;
        print_end(names, cause, out)
    } else {
        put(b"moved\n", out)
    }
}

/// Appends what a session tells that went on.
fn print_moved(
    names: &Names,
    entries: usize,
    phase: Option<Phase>,
    out: &mut Vec<u8>,
) -> Result<(), AllocError>
    ensures { OnOk result (out.new.items ≡ out.old.items ++ moved_line names.now entries phase) }
{
    match phase {
        None | Some(Phase::Working { .. }) => put(b"moved\n", out),
        Some(Phase::Stamping { visited }) => print_stamping(entries, visited, out),
        Some(Phase::Undoing { visited, cause }) => print_undoing(names, visited, &cause, out),
    }
}

/// Appends what the step of a session came to, which ends the line.
pub fn print_told(
    names: &Names,
    world: &World,
    number: u32,
    stepped: Progress,
    out: &mut Vec<u8>,
) -> Result<(), AllocError>
    ensures { OnOk result (out.new.items ≡ out.old.items ++ told_line names.now (told_in world.now number) stepped) }
{
    match stepped {
        Progress::Blocked { by } => {
            put(b"waits for ", out)?;
            print_label(names, by, out)?;
            put(b"\n", out)
        }
        Progress::Moved => print_moved(names, world.entry_count(), phase_at(world, number), out),
        Progress::Answered => print_answer(names, world, number, out),
        Progress::Ended => put(b"ended\n", out),
    }
}
