//! Laws of services: each that lines lead to is sound, so that what a line says to a session can be taken, and what lines come to
//! is lawful.

ghost use Rattle.hy_service.specs.Laws.{OpeningsAreSound, DefinitionsStaySound, LinesCanBeTaken, TakingStaysSound, ServicesAreSound};
ghost use Rattle.hy_service.specs.Laws.{LinesAreHeard, OutcomesAreLawful, ServicesCanBeLogged, LogsTellOutcomes};

use hy_growing::{lines_are_answered, lines_go_on, sessions_stay_between_lines};
use hy_serving::{what_lines_come_to_fits, what_lines_say_suits};
use hy_setting::{what_is_bound_is_typed, what_is_parsed_is_utf8};
use hy_stepping::lines_are_shown;

/// Before the first line a service is sound.
pub(crate) fn openings_are_sound()
    ensures { OpeningsAreSound }
{
    what_lines_come_to_fits();
    what_is_bound_is_typed();
    sessions_stay_between_lines();
}

/// A sound service stays so with a line that is none of a session.
pub(crate) fn definitions_stay_sound()
    ensures { DefinitionsStaySound }
{
    what_lines_come_to_fits();
    what_is_bound_is_typed();
    sessions_stay_between_lines();
}

/// What a line says to a session of a sound service can be taken.
pub(crate) fn lines_can_be_taken()
    ensures { LinesCanBeTaken }
{
    what_lines_come_to_fits();
    what_lines_say_suits();
    what_is_bound_is_typed();
}

/// When a sound service has taken it, it is sound still.
pub(crate) fn taking_stays_sound()
    ensures { TakingStaysSound }
{
    lines_can_be_taken();
    what_lines_come_to_fits();
    lines_go_on();
    lines_are_answered();
    sessions_stay_between_lines();
    lines_are_shown();
}

/// Each service that lines lead to is sound.
pub(crate) fn services_are_sound()
    ensures { ServicesAreSound }
{
    openings_are_sound();
    definitions_stay_sound();
    taking_stays_sound();
}

/// Lines behind others, among which there is no END, are heard after them.
pub(crate) fn lines_are_heard()
    ensures { LinesAreHeard }
{}

/// What lines come to is lawful, and serializable in its order.
pub(crate) fn outcomes_are_lawful()
    ensures { OutcomesAreLawful }
{
    services_are_sound();
    hy_lawful::runs_are_lawful();
}

/// Each service that lines lead to can be kept in a log.
pub(crate) fn services_can_be_logged()
    ensures { ServicesCanBeLogged }
{
    services_are_sound();
    what_is_parsed_is_utf8();
}

/// The log of what a server has entered is that of the commit order which its lines come to, and recovers to the tables.
pub(crate) fn logs_tell_outcomes()
    ensures { LogsTellOutcomes }
{
    services_are_sound();
    services_can_be_logged();
    hy_growing::open_ones_are_dropped();
    hy_world::logs_tell_orders();
    hy_redo::crashes_recover();
}
