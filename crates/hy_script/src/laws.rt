//! What reading comes to, and which scripts are accepted.

ghost use Rattle.std.specs.Prelude.{◌≡◌, ℕ, ◌↔◌, List, Result};
ghost use Rattle.std.specs.Result.{IsErr};
ghost use Rattle.hy_ast.specs.Trees.{Statement};
ghost use Rattle.hy_script.specs.Reading.{Reads};
ghost use Rattle.hy_script.specs.Sentences.{Spells, SpellsScript, IsAccepted};
ghost use Rattle.hy_script.specs.declared.Options.{Options};
ghost use Rattle.hy_script.specs.declared.Refused.{Refused};
ghost use Rattle.hy_script.specs.declared.Script.{Script};

use hy_parse::{parsing_moves_on, scripts_are_parsed};
use hy_token::tokens_move_on;

/// A law: reading any bytes comes to an answer, a script or a refusal.
pub fn reading_comes_to_an_answer()
    ensures { (bytes : List ℕ) (options : Options) → (answer : Result Script Refused) × Reads bytes options answer }
{
    tokens_move_on();
    parsing_moves_on();
}

/// A law: the bytes of a script that is accepted spell a sentence of the grammar of whole scripts, and bytes
/// that spell none are refused. Bytes spell one list of statements at most.
pub fn accepted_scripts_are_sentences()
    ensures accepted { (bytes : List ℕ) (options : Options) (read : Script) → Reads bytes options (Ok read) → SpellsScript bytes }
    ensures refused { (bytes : List ℕ) (options : Options) (answer : Result Script Refused) → (SpellsScript bytes → ⊥) → Reads bytes options answer
        → IsErr answer }
    ensures one { (bytes : List ℕ) (one other : List Statement) → Spells bytes one → Spells bytes other → one ≡ other }
{
    scripts_are_parsed();
}

/// A law: bytes are accepted just where they spell a sentence none of whose statements is refused, and the
/// script is then what its statements say one after another.
pub fn sentences_are_accepted()
    ensures { (bytes : List ℕ) (options : Options) (read : Script) → Reads bytes options (Ok read) ↔ IsAccepted bytes options read }
{
    scripts_are_parsed();
}
