//! The answers that a line's text alone gives, and lines with a session's name in front.

ghost use Rattle.std.specs.Prelude.{◌≡◌, ◌++◌, OnOk, true};
ghost use Rattle.hy_serving.specs.Answers.{cause_number, front_of, fronted, own_answer, prefix, refusal, two_digits};

use crate::{Cause, Saying};
use std::alloc::AllocError;

impl Cause {
    /// The number that stands behind the E.
    pub fn number(self) -> u8
        ensures { result ≡ cause_number self }
    {
        match self {
            Cause::Script(code) => code.number(),
            Cause::NoneOpen => 19,
            Cause::IsOpen => 20,
        }
    }
}

/// Appends a number of at least two digits.
fn print_two_digits(number: u8, out: &mut Vec<u8>) -> Result<(), AllocError>
    ensures { OnOk result (out.new.items ≡ out.old.items ++ two_digits number) }
{
    if number < 10 {
        out.push(b'0')?;
    }
    let digits = number.to_string(*out.allocator())?;
    out.extend_from_slice(digits.as_bytes())
}

/// Appends the line that tells why a line is refused, but for its front.
fn print_refusal(cause: Cause, out: &mut Vec<u8>) -> Result<(), AllocError>
    ensures { OnOk result (out.new.items ≡ out.old.items ++ refusal cause) }
{
    out.extend_from_slice(b"refused E")?;
    print_two_digits(cause.number(), out)?;
    out.push(b'\n')?;
    Ok(())
}

/// Appends the answer to a line that its text alone gives: whether it defines something, or why it is refused. The others
/// have none, or one that the engine gives.
pub fn answer(saying: &Saying, out: &mut Vec<u8>) -> Result<(), AllocError>
    ensures { OnOk result (out.new.items ≡ out.old.items ++ own_answer saying.now) }
{
    match saying {
        Saying::Defines => out.extend_from_slice(b"ok\n"),
        Saying::Refused { name: None, cause } => print_refusal(*cause, out),
        Saying::Refused {
            name: Some(name),
            cause,
        } => {
            begin_line(name.as_bytes(), true, out)?;
            print_refusal(*cause, out)
        }
        _ => Ok(()),
    }
}

/// Appends a name and what stands between it and what it is told, where a line begins.
fn begin_line(name: &[u8], begins: bool, out: &mut Vec<u8>) -> Result<(), AllocError>
    ensures { OnOk result (out.new.items ≡ out.old.items ++ front_of (prefix name.now) begins) }
{
    if begins {
        out.extend_from_slice(name)?;
        out.extend_from_slice(b": ")?;
    }
    Ok(())
}

/// Appends a text with the name of a session in front of each of its lines.
pub fn named(name: &[u8], text: &[u8], out: &mut Vec<u8>) -> Result<(), AllocError>
    ensures { OnOk result (out.new.items ≡ out.old.items ++ fronted (prefix name.now) true text.now) }
{
    let mut begins = true;
    for byte in text {
        begin_line(name, begins, out)?;
        out.push(*byte)?;
        begins = *byte == b'\n';
    }
    Ok(())
}
