//! The tokens of a script: the lexical grammar, and a function that gives the next token from an offset
//! on. A script is UTF-8 text, seen as its bytes, and offsets into it count bytes.
#![tactic(auto)]

ghost use Rattle.std.specs.Prelude.{◌≡◌, ◌+◌, ◌<◌, ◌≤◌, ℕ, List, length, drop, IfOk, IfErr, MatchResult};
ghost use Rattle.hy_token.specs.declared.Keyword.{Keyword};
ghost use Rattle.hy_token.specs.declared.Sign.{Sign};
ghost use Rattle.hy_token.specs.Keyword.{keyword_of, word_spelling};
ghost use Rattle.hy_token.specs.Sign.{sign_of, sign_spelling};
ghost use Rattle.hy_token.specs.Token.{token_at, moved_on, MovesOn, LiesWithin};

mod keywords;
mod lengths;
mod signs;
mod tokens;

/// Where a token stands: the offsets of its first byte and of the byte after its last.
#[derive(Clone, Copy, Debug, PartialEq, Eq)]
pub struct Span {
    /// The offset of the first byte.
    pub start: usize,
    /// The offset of the byte after the last.
    pub end: usize,
}

/// A reserved word, in any ASCII case.
#[derive(Clone, Copy, Debug, PartialEq, Eq)]
pub enum Keyword {
    And,
    Begin,
    By,
    Commit,
    Count,
    Create,
    Delete,
    End,
    From,
    Group,
    Insert,
    Int,
    Into,
    Is,
    Join,
    Key,
    Not,
    Null,
    On,
    Only,
    Or,
    Primary,
    Read,
    Release,
    Rollback,
    Savepoint,
    Schedule,
    Select,
    Session,
    Set,
    Sum,
    Table,
    Text,
    To,
    Update,
    Values,
    Where,
}

/// A sign of one or two bytes.
#[derive(Clone, Copy, Debug, PartialEq, Eq)]
pub enum Sign {
    /// `(`
    LeftParen,
    /// `)`
    RightParen,
    /// `,`
    Comma,
    /// `;`
    Semicolon,
    /// `.`
    Dot,
    /// `*`
    Star,
    /// `+`
    Plus,
    /// `-`
    Minus,
    /// `!`
    Bang,
    /// `=`
    Equal,
    /// `<>`
    NotEqual,
    /// `<`
    Less,
    /// `<=`
    LessEqual,
    /// `>`
    Greater,
    /// `>=`
    GreaterEqual,
}

/// A token's kind. The bytes of a name, an integer or a text are the script's in the token's span.
#[derive(Clone, Copy, Debug, PartialEq, Eq)]
pub enum Token {
    /// A reserved word.
    Reserved(Keyword),
    /// Any other word of at most 32 bytes.
    Name,
    /// One or more digits.
    Integer,
    /// A text with its two quotes.
    Text,
    /// A sign.
    Sign(Sign),
    /// The end of the script, a span of no bytes.
    End,
}

/// Why there is no next token: what stands at an offset is none.
#[derive(Clone, Copy, Debug, PartialEq, Eq)]
pub struct Bad {
    /// A byte offset into the script.
    pub at: usize,
}

/// The next token from `at` on, after any spaces and comments; `Err` where what stands there is no
/// token. The bytes may be any, and need not be UTF-8. It stands where it is called, since its answer is large to hand on.
#[inline(always)]
pub fn next(bytes: &[u8], at: usize) -> Result<(Token, Span), Bad>
    requires { at ≤ length bytes.now }
    ensures value { result ≡ token_at bytes.now at }
    ensures moves_on { IfOk result (λ found. MovesOn (length bytes.now) at found.0 found.1) }
    ensures span { IfOk result (λ found. LiesWithin (length bytes.now) at found.1) }
    ensures bad { IfErr result (λ bad. (at ≤ bad.at) × (bad.at < length bytes.now)) }
{
    tokens::token_at(bytes, at)
}

/// A law: the next token stands in the script from the offset on, at its end just where nothing is
/// left, and else over one byte or more; a bad one is at a byte of the script.
pub fn tokens_move_on()
    ensures { (bytes : List ℕ) (at : ℕ) → at ≤ length bytes
        → MatchResult (token_at bytes at) (λ found. MovesOn (length bytes) at found.0 found.1) (λ bad. (at ≤ bad.at) × (bad.at < length bytes)) }
{}

/// A law: the next token depends on nothing before its offset, which only shifts it.
pub fn tokens_are_local()
    ensures same { (xs ys : List ℕ) (at : ℕ) → drop at xs ≡ drop at ys → token_at xs at ≡ token_at ys at }
    ensures shifted { (xs ys : List ℕ) (k at : ℕ) → drop (k + at) xs ≡ drop at ys → token_at xs (k + at) ≡ moved_on k (token_at ys at) }
{}

/// A law: each reserved word and each sign, written alone, is found.
pub fn spellings_are_found()
    ensures keywords { (keyword : Keyword) → keyword_of (word_spelling keyword) ≡ Some keyword }
    ensures signs { (sign : Sign) → sign_of (sign_spelling sign) ≡ Some sign }
{}
