//! The steps of a run, and the reasons for what it came to.

ghost use Rattle.std.specs.Prelude.{◌≡◌, ◌≢◌, ◌⊎◌, IsNone, IfOk, Ok};
ghost use Rattle.hy_explain.specs.Explained.{explained_text};
ghost use Rattle.hy_outside.specs.Faults.{Rose};
ghost use Rattle.hy_script.specs.Reading.{Reads};
ghost use Rattle.hy_top.specs.Program.{comes_to, names_at};
ghost use Rattle.hy_top.specs.Reports.{Explains, Traces};
ghost use Rattle.hy_top.specs.Settings.{CanRun, setting_at};
ghost use Rattle.hy_trace.specs.Trace.{trace_text};

use crate::settings::{Given, given_of};
use crate::{NO_MEMORY, Report, tell, without_outcome, write};
use hy_explain::explain;
use hy_outside::Sink;
use hy_render::Outcome;
use hy_script::{ReadError, Script, read_once};
use hy_trace::trace;
use std::alloc::{AllocError, Global};

/// Writes the steps of a script's run by its schedule.
pub(crate) fn trace_script<W: Sink>(
    alloc: Global,
    script: Script,
    prunes: bool,
    sink: &mut W,
) -> Report
    requires { CanRun script }
    ensures trace { (result.status ≡ 5) × (sink.new ≡ sink.old) × IsNone result.outcome
        ⊎ Traces script result.status result.outcome (W.written sink.old) (W.written sink.new) }
    ensures write_fault { result.status ≡ 4 → Rose (W.faults sink.old) (W.faults sink.new) }
    ensures sink_steady { result.status ≢ 4 → W.faults sink.new ≡ W.faults sink.old }
{
    match text_of_steps(alloc, script, prunes) {
        Ok(written) => without_outcome(write(sink, written.as_slice(), 0)),
        Err(_) => without_outcome(NO_MEMORY),
    }
}

/// The text of the steps of a script's run by its schedule.
fn text_of_steps(alloc: Global, script: Script, prunes: bool) -> Result<Vec<u8>, AllocError>
    requires { CanRun script }
    ensures { IfOk result (λ written. written.items ≡ trace_text (names_at script) (setting_at script) script.schedule) }
{
    let Given {
        setting,
        kinds,
        names,
        schedule,
    } = given_of(alloc, script)?;
    trace(
        alloc,
        &names,
        setting,
        kinds.as_slice(),
        prunes,
        schedule.as_slice(),
    )
}

/// Runs a script, which these bytes spell, by its schedule, and writes which transactions were refused, and why.
pub(crate) fn explain_script<W: Sink>(
    alloc: Global,
    bytes: &[u8],
    script: Script,
    prunes: bool,
    sink: &mut W,
) -> Report
    requires spells { Reads bytes.now script.options (Ok script) }
    requires runs { CanRun script }
    ensures run { (result.status ≡ 5) × (sink.new ≡ sink.old) × IsNone result.outcome
        ⊎ Explains script result.status result.outcome (W.written sink.old) (W.written sink.new) }
    ensures write_fault { result.status ≡ 4 → Rose (W.faults sink.old) (W.faults sink.new) }
    ensures sink_steady { result.status ≢ 4 → W.faults sink.new ≡ W.faults sink.old }
{
    match outcome_and_reasons(alloc, bytes, script, prunes) {
        Ok((outcome, written)) => tell(outcome, written.as_slice(), sink),
        Err(_) => without_outcome(NO_MEMORY),
    }
}

/// The outcome of a script, which these bytes spell, by its schedule, and the text that tells the reasons for it. The engine takes
/// the script apart, and the reasons are told of the whole one.
fn outcome_and_reasons(
    alloc: Global,
    bytes: &[u8],
    script: Script,
    prunes: bool,
) -> Result<(Outcome, Vec<u8>), AllocError>
    requires spells { Reads bytes.now script.options (Ok script) }
    requires runs { CanRun script }
    ensures { IfOk result (λ given. (given.0 ≡ comes_to script) × (given.1.items ≡ explained_text script given.0)) }
{
    let whole = read_again(alloc, bytes, &script)?;
    let outcome = outcome_of_script(alloc, script, prunes)?;
    let written = explain(alloc, &whole, &outcome)?;
    Ok((outcome, written))
}

/// The outcome of a script that the engine runs by its schedule.
fn outcome_of_script(alloc: Global, script: Script, prunes: bool) -> Result<Outcome, AllocError>
    requires { CanRun script }
    ensures { IfOk result (λ outcome. outcome ≡ comes_to script) }
{
    let Given {
        setting,
        kinds,
        names: _,
        schedule,
    } = given_of(alloc, script)?;
    hy_world::run(
        alloc,
        setting,
        kinds.as_slice(),
        prunes,
        schedule.as_slice(),
    )
}

/// Reads once more the script that these bytes spell.
fn read_again(alloc: Global, bytes: &[u8], script: &Script) -> Result<Script, AllocError>
    requires { Reads bytes.now script.now.options (Ok script.now) }
    ensures { IfOk result (λ again. again ≡ script.now) }
{
    read_once();
    match hy_script::read(alloc, bytes, &script.options) {
        Ok(again) => Ok(again),
        Err(ReadError::OutOfMemory) => Err(AllocError),
        Err(ReadError::Refused(_)) => unreachable!(),
    }
}
