//! What is read, against the grammar.

ghost use Rattle.std.specs.Prelude.{◌≡◌, ℕ, ◌<◌, ◌≤◌, ◌↔◌, List, ◌++◌, length, Ok, Err};
ghost use Rattle.hy_ast.specs.Trees.{Statement};
ghost use Rattle.hy_parse.specs.declared.Piece.{Piece};
ghost use Rattle.hy_parse.specs.Grammar.{IsWritten, levels, Begins, IsUnfit};
ghost use Rattle.hy_parse.specs.Reading.{Done, Stuck, read_statement};
ghost use Rattle.hy_parse.specs.Parsing.{Fault, Parses, Breaks, parsed, offset_in};

use hy_limits::MOST_LEVELS;
use hy_token::tokens_move_on;

/// A law: what is read is a sentence of the grammar at the front of the pieces, and a sentence at their
/// front is read, so that no pieces are two statements.
pub fn sentences_are_read()
    ensures sound { (ps rest : List Piece) (s : Statement) → read_statement ps ≡ Done s rest
        → (front : List Piece) × (ps ≡ front ++ rest) × IsWritten front s × (levels s ≤ MOST_LEVELS) }
    ensures complete { (front rest : List Piece) (s : Statement) → IsWritten front s → levels s ≤ MOST_LEVELS → read_statement (front ++ rest) ≡ Done s rest }
    ensures one { (ps : List Piece) (s t : Statement) → IsWritten ps s → levels s ≤ MOST_LEVELS → IsWritten ps t → levels t ≤ MOST_LEVELS → s ≡ t }
{}

/// A law: reading stops at the first piece that does not fit. Those before it begin a sentence, and with it
/// they begin none.
pub fn reading_stops_first()
    ensures { (ps rest : List Piece) → read_statement ps ≡ Stuck rest → (front : List Piece) × (ps ≡ front ++ rest) × Begins front × IsUnfit front rest }
{}

/// A law: a statement is parsed just where its tokens are a sentence, and a fault just where the first
/// token stands that does not fit.
pub fn scripts_are_parsed()
    ensures statement { (bytes : List ℕ) (at : ℕ) (s : Statement) (end : ℕ) → (parsed bytes at ≡ Ok (s, end)) ↔ Parses bytes at s end }
    ensures fault { (bytes : List ℕ) (at : ℕ) (fault : Fault) → (parsed bytes at ≡ Err fault) ↔ Breaks bytes at fault }
{}

/// A law: a statement ends behind the offset where it was looked for, and a fault is not before it; both
/// lie in the script.
pub fn parsing_moves_on()
    ensures statement { (bytes : List ℕ) (at : ℕ) (s : Statement) (end : ℕ) → at ≤ length bytes → parsed bytes at ≡ Ok (s, end)
        → (at < end) × (end ≤ length bytes) }
    ensures fault { (bytes : List ℕ) (at : ℕ) (fault : Fault) → at ≤ length bytes → parsed bytes at ≡ Err fault
        → (at ≤ offset_in fault) × (offset_in fault ≤ length bytes) }
{
    tokens_move_on();
}
