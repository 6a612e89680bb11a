//! The steps of a run, one after another, each with its line.

ghost use Rattle.std.specs.Prelude.{◌≡◌, ◌+◌, [], IfOk, OnOk};
ghost use Rattle.hy_machine.specs.declared.Setting.{Setting};
ghost use Rattle.hy_machine.specs.Runs.{is_moved, opening_of};
ghost use Rattle.hy_world.specs.Worlds.{ShowsState};
ghost use Rattle.hy_trace.specs.Steps.{item_taken, items_taken, round_taken, rounds_taken, run_taken, whole_taken};
ghost use Rattle.hy_trace.specs.Trace.{lines_from};
ghost use Rattle.hy_trace.specs.Traced.{Writes, WritesStep};

use crate::printing::{print_standing, print_told};
use crate::standing::{is_over, stands};
use hy_bound::Item;
use hy_protocol::Progress;
use hy_render::Names;
use hy_world::World;
use std::alloc::{AllocError, Global};

/// Whether a session went on without an answer.
fn has_moved(stepped: Progress) -> bool
    ensures { result ≡ is_moved stepped }
{
    matches!(stepped, Progress::Moved)
}

/// The number behind another one. That there is none is want of memory.
fn number_behind(count: u64) -> Result<u64, AllocError>
    ensures { IfOk result (λ next. next ≡ count + 1) }
{
    count.checked_add(1).ok_or(AllocError)
}

/// A step of a session, and its line behind those before it, of which there are so many. Err is for want of memory, as in all
/// functions below.
fn trace_step(
    alloc: Global,
    names: &Names,
    world: &mut World,
    number: u32,
    count: &mut u64,
    out: &mut Vec<u8>,
) -> Result<Progress, AllocError>
    ensures { IfOk result (λ stepped.
        WritesStep names.now number stepped world.old world.new (count.old, out.old.items) (count.new, out.new.items)) }
{
    hy_lawful::reached_states_are_kept();
    hy_stepping::sessions_stand();
    hy_stepping::sessions_tell();
    let at = stands(world, number);
    let stepped = world.step(alloc, number)?;
    let next = number_behind(*count)?;
    print_standing(names, next, &at, out)?;
    print_told(names, world, number, stepped, out)?;
    *count = next;
    Ok(stepped)
}

/// A session's steps until it answers or is blocked; one that has ended takes none.
fn trace_whole(
    alloc: Global,
    names: &Names,
    world: &mut World,
    number: u32,
    count: &mut u64,
    out: &mut Vec<u8>,
) -> Result<(), AllocError>
    ensures { OnOk result (Writes names.now (λ setting state. whole_taken setting state number) world.old world.new
        (count.old, out.old.items) (count.new, out.new.items)) }
{
    hy_lawful::reached_states_are_kept();
    hy_machine::runs_are_steps();
    hy_stepping::bounds_are_enough();
    hy_stepping::sessions_stand();
    for _turn in 0..u64::MAX {
        if is_over(world, number) {
            return Ok(());
        }
        let stepped = trace_step(alloc, names, world, number, count, out)?;
        if !has_moved(stepped) {
            return Ok(());
        }
    }
    Ok(())
}

/// An item of a schedule.
fn trace_item(
    alloc: Global,
    names: &Names,
    world: &mut World,
    item: Item,
    count: &mut u64,
    out: &mut Vec<u8>,
) -> Result<(), AllocError>
    ensures { OnOk result (Writes names.now (λ setting state. item_taken setting state item) world.old world.new
        (count.old, out.old.items) (count.new, out.new.items)) }
{
    if item.whole {
        return trace_whole(alloc, names, world, item.session, count, out);
    }
    let _ = trace_step(alloc, names, world, item.session, count, out)?;
    Ok(())
}

/// The items of a schedule, one after another.
fn trace_items(
    alloc: Global,
    names: &Names,
    world: &mut World,
    items: &[Item],
    count: &mut u64,
    out: &mut Vec<u8>,
) -> Result<(), AllocError>
    ensures { OnOk result (Writes names.now (λ setting state. items_taken setting state items.now) world.old world.new
        (count.old, out.old.items) (count.new, out.new.items)) }
{
    for item in items {
        trace_item(alloc, names, world, *item, count, out)?;
    }
    Ok(())
}

/// A round: each session, in order, as far as it answers.
fn trace_round(
    alloc: Global,
    names: &Names,
    world: &mut World,
    count: &mut u64,
    out: &mut Vec<u8>,
) -> Result<(), AllocError>
    ensures { OnOk result (Writes names.now (λ setting state. round_taken setting state) world.old world.new
        (count.old, out.old.items) (count.new, out.new.items)) }
{
    hy_lawful::reached_states_are_kept();
    for number in 0..world.session_count() {
        trace_whole(alloc, names, world, number, count, out)?;
    }
    Ok(())
}

/// Rounds until every session has ended.
fn trace_rounds(
    alloc: Global,
    names: &Names,
    world: &mut World,
    count: &mut u64,
    out: &mut Vec<u8>,
) -> Result<(), AllocError>
    ensures { OnOk result (Writes names.now (λ setting state. rounds_taken setting state) world.old world.new
        (count.old, out.old.items) (count.new, out.new.items)) }
{
    hy_stepping::bounds_are_enough();
    hy_stepping::ends_are_the_machines();
    hy_machine::runs_are_steps();
    for _round in 0..u64::MAX {
        if world.is_done() {
            return Ok(());
        }
        trace_round(alloc, names, world, count, out)?;
    }
    Ok(())
}

/// A schedule, and then rounds until every session has ended, in a world where nothing has happened.
pub fn trace_run(
    alloc: Global,
    names: &Names,
    world: &mut World,
    schedule: &[Item],
    out: &mut Vec<u8>,
) -> Result<(), AllocError>
    requires { out.old.items ≡ [] }
    ensures { OnOk result ((setting : Setting) → ShowsState setting (opening_of setting) world.old
        → out.new.items ≡ lines_from names.now setting 0 (opening_of setting) (run_taken setting schedule.now)) }
{
    let mut count = 0;
    trace_items(alloc, names, world, schedule, &mut count, out)?;
    trace_rounds(alloc, names, world, &mut count, out)
}
