//! That what is written is read back, and that what was read can be written.

ghost use Rattle.hy_dump.specs.ReadBack.{WhatIsReadCanBeWritten, WhatIsWrittenIsReadBack};

use hy_parse::scripts_are_parsed;
use hy_script::{
    accepted_definitions_fit, sentences_are_accepted, what_is_read_fits, what_is_read_is_bound,
};
use hy_value::order_is_total;

/// A law: tables with rows that fit them are read back from their text with END behind it: the same tables, each with the same rows in
/// the same order, and nothing else.
pub fn what_is_written_is_read_back()
    ensures { WhatIsWrittenIsReadBack }
{
    scripts_are_parsed();
    sentences_are_accepted();
    accepted_definitions_fit();
    order_is_total();
}

/// A law: the tables and the first rows of a script that was read are such as can be written.
pub fn what_is_read_can_be_written()
    ensures { WhatIsReadCanBeWritten }
{
    scripts_are_parsed();
    sentences_are_accepted();
    what_is_read_fits();
    what_is_read_is_bound();
}
