//! What the system says of a call that it refused.

use std::fmt::{self, Display, Formatter};
use std::io::{self, ErrorKind};

/// What std writes between the system's words and the number of the error.
const NUMBER: &str = " (os error ";

/// Why the system, or std itself, refused a call.
#[derive(Clone, Copy, Debug, PartialEq, Eq)]
pub struct SystemError {
    kind: ErrorKind,
    /// The system's number of it, where the system refused the call.
    number: Option<i32>,
}

impl From<io::Error> for SystemError {
    fn from(error: io::Error) -> SystemError {
        SystemError {
            kind: error.kind(),
            number: error.raw_os_error(),
        }
    }
}

impl From<ErrorKind> for SystemError {
    fn from(kind: ErrorKind) -> SystemError {
        SystemError { kind, number: None }
    }
}

impl Display for SystemError {
    // The system's own words say more than the kind, which many of its errors have none of.
    fn fmt<W: fmt::Write>(&self, f: &mut Formatter<W>) -> fmt::Result {
        match self.number {
            Some(number) => {
                let mut words = Words { f, is_over: false };
                fmt::Write::write(&mut words, io::Error::from_raw_os_error(number))
            }
            None => Display::fmt(&self.kind, f),
        }
    }
}

/// Passes on what std writes of an error, as far as the number, which is for programs.
#[derive(Drop)]
struct Words<'a, W> {
    f: &'a mut Formatter<W>,
    is_over: bool,
}

impl<W: fmt::Write> fmt::Write for Words<'_, W> {
    fn write_str(&mut self, text: &str) -> fmt::Result {
        if self.is_over {
            return Ok(());
        }
        match text.split_once(NUMBER) {
            Some((words, _)) => {
                self.is_over = true;
                self.f.write_str(words)
            }
            None => self.f.write_str(text),
        }
    }
}
