//! Laws on the types of scripts: what a script writes in a table is of the types of the table's columns.

ghost use Rattle.hy_top.specs.Typing.{WhatIsReadIsTyped, WhatIsMadeIsTyped};

use hy_script::what_is_read_is_bound;
use hy_setting::what_is_bound_is_typed;

/// The values of a script that is read are of the types of its tables' columns.
pub fn what_is_read_is_typed()
    ensures { WhatIsReadIsTyped }
{
    what_is_read_is_bound();
    what_is_bound_is_typed();
}

/// The values of a script that is made are of the types of its table's columns.
pub fn what_is_made_is_typed()
    ensures { WhatIsMadeIsTyped }
{
    what_is_bound_is_typed();
}
