//! What the tables and sessions of a script that is read are called, that its texts are UTF-8, and what the text of its
//! run tells.

ghost use Rattle.std.specs.Prelude.{◌≡◌, ℕ, List, Ok};
ghost use Rattle.hy_script.specs.declared.Options.{Options};
ghost use Rattle.hy_script.specs.declared.Script.{Script};
ghost use Rattle.hy_script.specs.Reading.{Reads};
ghost use Rattle.hy_top.specs.Naming.{IsNamed};
ghost use Rattle.hy_top.specs.Settings.{IsUtf8Script};
ghost use Rattle.hy_top.specs.Telling.{TextsTellOutcomes};

use hy_lawful::{ends_are_lawful, runs_are_lawful};
use hy_parse::scripts_are_parsed;
use hy_render::text_tells_the_outcome;
use hy_script::{sentences_are_accepted, what_is_read_fits};
use hy_serial::what_an_outcome_mentions_has_a_name;
use hy_setting::{pieces_are_tokens, what_is_parsed_is_utf8};

/// A law: the names of the tables of a script that is read are words, and no two are the same; so are those of its
/// sessions.
pub fn what_is_read_is_named()
    ensures { (bytes : List ℕ) (options : Options) (script : Script) → Reads bytes options (Ok script) → IsNamed script }
{
    pieces_are_tokens();
    scripts_are_parsed();
    sentences_are_accepted();
}

/// A law: the texts that a script writes, which is read, are UTF-8.
pub fn what_is_read_is_utf8()
    ensures { (bytes : List ℕ) (options : Options) (script : Script) → Reads bytes options (Ok script) → IsUtf8Script script }
{
    what_is_parsed_is_utf8();
    sentences_are_accepted();
}

/// A law: where a script is read and run twice, on threads or by its schedule, and one text is written of both runs, they
/// have come to one outcome. All that an outcome of it mentions has a name: each transaction's session, each table, and a
/// count of inserts for each table. Of the numbers it is taken that they have at most 64 digits; the program's types
/// have no larger ones.
pub fn one_text_is_of_one_outcome()
    ensures { TextsTellOutcomes }
{
    what_is_read_fits();
    what_is_read_is_named();
    runs_are_lawful();
    ends_are_lawful();
    what_an_outcome_mentions_has_a_name();
    text_tells_the_outcome();
}
