//! The schedule.

ghost use Rattle.std.specs.Prelude.{◌≡◌, map, IfOk};
ghost use Rattle.hy_script.specs.Refusals.{any_unknown_in, is_unknown_in, schedule_code};
ghost use Rattle.hy_script.specs.Growing.{item_at, with_schedule, Takes};

use crate::codes::{Code, code_if, first_of};
use crate::sofar::SoFar;
use hy_ast::Turn;
use hy_bind::text_in;
use hy_bound::{Item, Schedule};
use hy_limits::MOST_ITEMS;
use hy_schema::Names;
use hy_value::Seq;
use std::alloc::{AllocError, Global};

impl SoFar {
    /// SCHEDULE.
    pub fn schedule(
        &mut self,
        alloc: Global,
        script: &[u8],
        turns: &[Turn],
    ) -> Result<Option<Code>, AllocError>
        ensures { IfOk result (λ code. Takes code (schedule_code script.now self.old turns.now) self.new (with_schedule script.now self.old turns.now)) }
    {
        let code = first_of(
            code_if(
                any_unknown(script, &self.names, turns),
                Code::UnknownSession,
            ),
            code_if(turns.len() > MOST_ITEMS, Code::Limit),
        );
        if code.is_none() {
            let items = items_of(alloc, script, &self.names, turns)?;
            self.end_session()?;
            self.schedule = items;
        }
        Ok(code)
    }
}

/// Whether a turn names no session.
#[tactic(auto, unfolding(crate::specs::Refusals::is_unknown_in))]
fn is_unknown(script: &[u8], names: &Names, turn: &Turn) -> bool
    ensures { result ≡ is_unknown_in script.now names.now turn.now }
{
    names.find(text_in(script, turn.session)).is_none()
}

/// Whether one of these turns names no session.
fn any_unknown(script: &[u8], names: &Names, turns: &[Turn]) -> bool
    ensures { result ≡ any_unknown_in script.now names.now turns.now }
{
    turns.iter().any(|turn| is_unknown(script, names, turn))
}

/// A turn of a schedule, with its session's number.
#[tactic(auto, unfolding(crate::specs::Growing::item_at))]
fn item_of(script: &[u8], names: &Names, turn: &Turn) -> Result<Item, AllocError>
    ensures { IfOk result (λ item. item ≡ item_at script.now names.now turn.now) }
{
    let number = names.find(text_in(script, turn.session)).unwrap_or(0);
    Ok(Item {
        session: u32::try_from(number).map_err(|_| AllocError)?,
        whole: turn.whole,
    })
}

/// The items of a schedule.
fn items_of(
    alloc: Global,
    script: &[u8],
    names: &Names,
    turns: &[Turn],
) -> Result<Schedule, AllocError>
    ensures { IfOk result (λ items. items ≡ map (item_at script.now names.now) turns.now) }
{
    let mut items = Seq::new(alloc);
    for turn in turns {
        items.push(item_of(script, names, turn)?)?;
    }
    Ok(items)
}
