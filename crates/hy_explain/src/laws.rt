//! That what is told of refusals is so.

ghost use Rattle.hy_explain.specs.Truth.{ExplanationsAreTrue};

/// What the lines of `explain` tell is so, in every outcome that is lawful and serializable. Of a refusal by validation: the
/// one that is named has committed at the rank that is told, which is no earlier than the start; its change is there, and
/// hits the read that is told, whose condition is true of the row before or after it, and which has a column in which the
/// row differs, unless it comes or goes; of all that the transaction logs nothing is hit before; and what it is told alone on
/// the tables behind the one that is named is what it is told alone in the serial run there. Of a conflict: the
/// refused statement selects the row that stood there at the start, where the transaction has not written; the one that is
/// named has, and if it committed, then since the start. Of the others what `hy_lawful` says of them.
pub fn explanations_are_true()
    ensures { ExplanationsAreTrue }
{}
