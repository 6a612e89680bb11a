//! The laws of lines.
ghost use Rattle.std.specs.Prelude.{◌≡◌, ℕ, ◌<◌, ◌++◌, List, [], ◌∷◌, Option, Result, true, false, length, take};
ghost use Rattle.hy_outside.specs.Telling.{Gives, GivesAll};
ghost use Rattle.hy_lines.specs.Lines.{has_feed, lines_in, whole_lines_in, AreLines};
ghost use Rattle.hy_lines.specs.Hearing.{Reading, Hears, HasGiven, opening, line_of};
ghost use Rattle.hy_lines.specs.declared.Heard.{Heard};
ghost use Rattle.hy_lines.specs.declared.NextError.{NextError};

/// What lines there are, told by what the bytes are made of.
pub fn lines_stand_first()
    ensures whole { (bytes : List ℕ) (lines : List (List ℕ)) (left : List ℕ) → AreLines bytes lines left
        → whole_lines_in bytes ≡ lines ++ whole_lines_in left }
    ensures all { (bytes : List ℕ) (lines : List (List ℕ)) (left : List ℕ) → AreLines bytes lines left → lines_in bytes ≡ lines ++ lines_in left }
    ensures none { (bytes : List ℕ) → has_feed bytes ≡ false → whole_lines_in bytes ≡ [] }
    ensures last { (bytes : List ℕ) → has_feed bytes ≡ false → 0 < length bytes → lines_in bytes ≡ bytes ∷ [] }
{}

/// Lines that are asked for one after another are the first ones of all bytes that were taken. At the end of the
/// source they are all lines of all its bytes. Where it has not given its end and no whole line is kept, as
/// after a fault or past the limit, they are all whole ones.
pub fn lines_are_given()
    ensures begins { (first : Option (List ℕ)) → HasGiven first first opening [] [] }
    ensures goes_on { (first before after : Option (List ℕ)) (old new : Reading) (bytes : List ℕ) (lines : List (List ℕ)) (result : Result Heard NextError)
        → HasGiven first before old bytes lines → (heard : Hears before after old new result)
        → HasGiven first after new (bytes ++ heard.bytes) (lines ++ line_of result) }
    ensures end { (first now : Option (List ℕ)) (reading : Reading) (bytes : List ℕ) (lines : List (List ℕ)) → HasGiven first now reading bytes lines
        → reading.kept ≡ [] → lines ≡ lines_in bytes }
    ensures whole { (first now : Option (List ℕ)) (reading : Reading) (bytes : List ℕ) (lines : List (List ℕ)) → HasGiven first now reading bytes lines
        → reading.done ≡ false → has_feed reading.kept ≡ false → lines ≡ whole_lines_in bytes }
    ensures first { (first now : Option (List ℕ)) (reading : Reading) (bytes : List ℕ) (lines : List (List ℕ)) → HasGiven first now reading bytes lines
        → lines ≡ take (length lines) (lines_in bytes) }
{}
