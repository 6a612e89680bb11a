//! What the text of an outcome tells.

ghost use Rattle.hy_render.specs.Telling.{TextTells};

/// Two outcomes with the same text are the same, where the names tell tables and sessions apart, each
/// table and session of an outcome has a name, and its numbers have at most 64 digits.
pub fn text_tells_the_outcome()
    ensures { TextTells }
{}
