//! What the words of a script say.

ghost use Rattle.std.specs.Prelude.{◌≡◌, ◌<◌, ◌≤◌, ◌∷◌, [], length, drop, IfOk, IfSome, IfNone};
ghost use Rattle.hy_value.specs.TextBytes.{text_of};
ghost use Rattle.hy_bind.specs.Literals.{text_of_span, number_of, in_reach, integer_of, unquoted, unquoted_rest, literal_kind, literal_fault};
ghost use Rattle.hy_bind.specs.Literals.{literal_value};
ghost use Rattle.hy_bound.specs.PredView.{viewed_side};
ghost use Rattle.hy_bound.specs.declared.predicate.Side.{Side};

use crate::refusals::{BindFault, fault_if};
use hy_ast::Literal;
use hy_bound::SideView;
use hy_token::Span;
use hy_value::{Kind, Text, Value};
use std::alloc::{AllocError, Global};

/// What a script has in a span: nothing beyond its end.
pub fn text_in(script: &[u8], span: Span) -> &[u8]
    ensures { result.now ≡ text_of_span script.now span }
{
    let end = span.end.min(script.len());
    &script[span.start.min(end)..end]
}

/// The number that digits write, if it is at most 2^63: none of 64 bits is farther from 0.
fn number(digits: &[u8]) -> Option<u64>
    ensures { result ≡ in_reach (number_of digits.now) }
{
    let mut number: u64 = 0;
    for digit in digits {
        if number > 922337203685477580 {
            return None;
        }
        number = 10 * number + u64::from(digit.saturating_sub(b'0'));
        if number > 9223372036854775808 {
            return None;
        }
    }
    Some(number)
}

/// The integer that digits write with a sign, if it lies within 64 bits.
pub fn integer(minus: bool, digits: &[u8]) -> Option<i64>
    ensures { result ≡ integer_of minus (number_of digits.now) }
{
    let number = number(digits)?;
    if minus {
        0i64.checked_sub_unsigned(number)
    } else {
        0i64.checked_add_unsigned(number)
    }
}

/// What a text says first, from an offset on, and the offset of what it says next; nothing where it is
/// closed.
fn unquoted_at(text: &[u8], offset: usize) -> Option<(u8, usize)>
    ensures closed { IfNone result (unquoted_rest (drop offset text.now) ≡ []) }
    ensures first { IfSome result (λ next. unquoted_rest (drop offset text.now) ≡ next.0 ∷ unquoted_rest (drop next.1 text.now)) }
    ensures moves { IfSome result (λ next. offset < next.1) }
    ensures within { IfSome result (λ next. next.1 ≤ length text.now) }
{
    let byte = *text.get(offset)?;
    if byte != b'\'' {
        return Some((byte, offset + 1));
    }
    match text.get(offset + 1) {
        Some(b'\'') => Some((byte, offset + 2)),
        _ => None,
    }
}

/// How many bytes a text has without its quotes, two of them standing for one.
fn unquoted_len(text: &[u8]) -> usize
    ensures { result ≡ length (unquoted text.now) }
{
    let mut length = 0;
    let mut offset = 1;
    while let Some((_, next)) = unquoted_at(text, offset) {
        length += 1;
        offset = next;
    }
    length
}

/// What a text says, without its quotes.
fn unquote(alloc: Global, text: &[u8]) -> Result<Vec<u8>, AllocError>
    ensures { IfOk result (λ bytes. bytes.items ≡ unquoted text.now) }
{
    let mut bytes = Vec::new(alloc);
    let mut offset = 1;
    while let Some((byte, next)) = unquoted_at(text, offset) {
        bytes.push(byte)?;
        offset = next;
    }
    Ok(bytes)
}

/// The type of a literal, NULL having none.
pub fn kind_of(literal: &Literal) -> Option<Kind>
    ensures { result ≡ literal_kind literal.now }
{
    match literal {
        Literal::Null(_) => None,
        Literal::Integer { .. } => Some(Kind::Int),
        Literal::Text(_) => Some(Kind::Str),
    }
}

/// The text that bytes are; for bytes that are none, the empty text.
pub fn text(alloc: Global, bytes: &[u8]) -> Text
    ensures { result ≡ text_of bytes.now }
{
    Text::from_bytes(alloc, bytes).unwrap_or_else(|_| Text::empty(alloc))
}

/// The value of a literal; of one that is refused, any.
pub fn value(alloc: Global, script: &[u8], literal: &Literal) -> Result<Value, AllocError>
    ensures { IfOk result (λ value. value ≡ literal_value script.now literal.now) }
{
    match literal {
        Literal::Null(_) => Ok(Value::Null),
        Literal::Integer { minus, digits } => {
            let integer = integer(minus.is_some(), text_in(script, *digits));
            Ok(integer.map_or(Value::Null, Value::Int))
        }
        Literal::Text(span) => {
            let bytes = unquote(alloc, text_in(script, *span))?;
            Ok(Value::Text(text(alloc, bytes.as_slice())))
        }
    }
}

/// Why a literal is refused, and the side of a comparison that it is, unless it is a text; of one that is refused, any.
/// Its digits are read once.
#[inline(always)]
pub fn plain(script: &[u8], literal: &Literal) -> (Option<BindFault>, Option<SideView<'static>>)
    ensures fault { result.0 ≡ literal_fault script.now literal.now }
    ensures side { IfSome result.1 (λ side. viewed_side side ≡ Side.Literal (literal_value script.now literal.now)) }
{
    match literal {
        Literal::Null(_) => (None, Some(SideView::Null)),
        Literal::Integer { minus, digits } => {
            match integer(minus.is_some(), text_in(script, *digits)) {
                Some(integer) => (None, Some(SideView::Int(integer))),
                None => (Some(BindFault::TooBig), Some(SideView::Null)),
            }
        }
        Literal::Text(span) => {
            let length = unquoted_len(text_in(script, *span));
            (fault_if(length > 255, BindFault::Limit), None)
        }
    }
}
