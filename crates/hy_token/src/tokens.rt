// The token that stands first.

ghost use Rattle.std.specs.Prelude.{◌≡◌, ◌<◌, ◌≤◌, length, take};
ghost use Rattle.hy_token.specs.Keyword.{keyword_of};
ghost use Rattle.hy_token.specs.Lengths.{word_len};
ghost use Rattle.hy_token.specs.Token.{first_word, first_text, first_sign, first_token, token_at};

use crate::keywords::reserved;
use crate::lengths::{
    MOST_LETTERS, begins_word, blank_len, digits_len, text_rest_len, word_with_letters,
};
use crate::{Bad, Keyword, Sign, Span, Token};

// A word of more bytes is no token.
const LONGEST_WORD: usize = 32;

/// How many bytes the word has that stands first, and the reserved word that it is, if it is one.
#[inline(always)]
fn first_keyword(bytes: &[u8]) -> (usize, Option<Keyword>)
    ensures len { result.0 ≡ word_len bytes.now }
    ensures keyword { result.1 ≡ keyword_of (take (word_len bytes.now) bytes.now) }
{
    let (len, letters) = word_with_letters(bytes);
    if len > MOST_LETTERS {
        (len, Keyword::from_word(&bytes[..len]))
    } else {
        (len, reserved(len, letters))
    }
}

/// The word that stands first, and how many bytes it takes.
#[inline(always)]
fn first_word(bytes: &[u8]) -> Option<(Token, usize)>
    ensures { result ≡ first_word bytes.now }
{
    let (len, keyword) = first_keyword(bytes);
    if len > LONGEST_WORD {
        return None;
    }
    Some((keyword.map_or(Token::Name, Token::Reserved), len))
}

/// The text whose opening quote stands first.
fn first_text(bytes: &[u8]) -> Option<(Token, usize)>
    requires { 0 < length bytes.now }
    ensures { result ≡ first_text bytes.now }
{
    let len = text_rest_len(&bytes[1..])?;
    Some((Token::Text, 1 + len))
}

/// The sign that stands first.
#[inline(always)]
fn first_sign(bytes: &[u8]) -> Option<(Token, usize)>
    ensures { result ≡ first_sign bytes.now }
{
    let sign = Sign::first(bytes)?;
    Some((Token::Sign(sign), sign.spelling().len()))
}

/// The token that stands first, where no space and no comment does, and how many bytes it takes.
#[inline(always)]
#[tactic(auto, unfolding(crate::specs::Token::first_token))]
pub fn first_token(bytes: &[u8]) -> Option<(Token, usize)>
    ensures { result ≡ first_token bytes.now }
{
    let Some(&first) = bytes.first() else {
        return Some((Token::End, 0));
    };
    if begins_word(first) {
        first_word(bytes)
    } else if first.is_ascii_digit() {
        Some((Token::Integer, digits_len(bytes)))
    } else if first == b'\'' {
        first_text(bytes)
    } else {
        first_sign(bytes)
    }
}

/// The next token from an offset on.
#[inline(always)]
#[tactic(auto, unfolding(crate::specs::Token::lexed))]
pub fn token_at(bytes: &[u8], at: usize) -> Result<(Token, Span), Bad>
    requires { at ≤ length bytes.now }
    ensures { result ≡ token_at bytes.now at }
{
    let rest = &bytes[at..];
    let skipped = blank_len(rest);
    let start = at + skipped;
    match first_token(&rest[skipped..]) {
        Some((token, len)) => Ok((
            token,
            Span {
                start,
                end: start + len,
            },
        )),
        None => Err(Bad { at: start }),
    }
}
