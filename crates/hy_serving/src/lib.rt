//! What the lines of serving say, one by one, and the answers that a line's text alone gives.
#![tactic(auto)]

ghost use Rattle.std.specs.Prelude.{◌≡◌, is_some, IfOk};
ghost use Rattle.hy_serving.specs.declared.Saying.TheVariants.{Refused};
ghost use Rattle.std.specs.Str.{is_utf8};
ghost use Rattle.hy_serving.specs.Saying.{ended, first_rows, fresh, heard, place_at, without_rows};

use hy_bound::{Bound, StoredRows};
use hy_script::{Code, Options, SoFar, Standing};
use hy_value::{Seq, Text};
use std::alloc::{AllocError, Global};

mod answers;
mod defining;
mod laws;
mod lines;
mod places;
mod sessions;

pub use answers::{answer, named};
pub use laws::{first_rows_are_not_asked_for, what_lines_come_to_fits, what_lines_say_suits};
use lines::{Heading, find_heading};

/// Why a line is refused.
#[derive(Clone, Copy, Debug, PartialEq, Eq)]
pub enum Cause {
    /// A cause to refuse a script.
    Script(Code),
    /// BEGIN, while a transaction of the session is open.
    IsOpen,
    /// Any other statement, while none is open.
    NoneOpen,
}

/// What a line says.
#[derive(Drop)]
pub enum Saying {
    /// Nothing: it has only space and comments.
    Nothing,
    /// END.
    Ends,
    /// A table or a first row.
    Defines,
    /// BEGIN.
    Begins {
        /// The session.
        number: usize,
        /// Whether it is READ ONLY.
        read_only: bool,
        /// The session's name, where it is new.
        name: Option<Text>,
    },
    /// A statement of the open transaction.
    Says {
        /// The session.
        number: usize,
        /// The statement, with its names resolved.
        bound: Bound,
    },
    /// COMMIT or ROLLBACK.
    Closes {
        /// The session.
        number: usize,
        /// Whether it is COMMIT.
        commits: bool,
    },
    /// Nothing, since it is refused.
    Refused {
        /// The name of the session that the line is for, where it is for one.
        name: Option<Text>,
        /// Why.
        cause: Cause,
    },
}

/// What is known of a session.
#[derive(Drop)]
pub struct Place {
    /// How many transactions it has begun.
    pub txns: usize,
    /// What the next statement of its open transaction is judged by, where one is open.
    pub standing: Option<Standing>,
}

/// What the lines so far have come to.
#[derive(Drop)]
pub struct Desk {
    /// The tables with their first rows, and the names of the sessions.
    pub sofar: SoFar,
    /// What is known of each session, by number.
    pub places: Seq<Place>,
}

impl Desk {
    /// Before the first line.
    pub fn new(alloc: Global) -> Desk
        ensures { result ≡ fresh }
    {
        Desk {
            sofar: SoFar::new(alloc),
            places: Seq::new(alloc),
        }
    }

    /// What a line says, which is then a part of what the lines so far have come to. Err is for want of memory, and what it
    /// leaves hears no further line.
    pub fn hear(
        &mut self,
        alloc: Global,
        options: &Options,
        line: &[u8],
    ) -> Result<Saying, AllocError>
        ensures { IfOk result (λ saying. heard options.now self.old line.now ≡ (saying, self.new)) }
    {
        if !is_text(line) {
            return Ok(refused(None, Cause::Script(Code::NotUtf8)));
        }
        match find_heading(line) {
            Heading::Blank => Ok(Saying::Nothing),
            Heading::Bad => Ok(refused(None, Cause::Script(Code::BadToken))),
            Heading::Bare => self.hear_bare(alloc, options, line),
            Heading::Named(name) => self.hear_named(alloc, line, name),
        }
    }

    /// Whether a transaction of the session of this number is open.
    pub fn is_open(&self, number: usize) -> bool
        ensures { result ≡ is_some (place_at self.now number).standing }
    {
        match self.places.as_slice().get(number) {
            Some(place) => place.standing.is_some(),
            None => false,
        }
    }

    /// The open transaction of the session of this number has ended.
    pub fn end(&mut self, number: usize)
        ensures { self.new ≡ ended number self.old }
    {
        let txns = self.begun(number);
        self.set(
            number,
            Place {
                txns,
                standing: None,
            },
        );
    }

    /// Takes the first rows of all tables out. Once there is a session no line asks for them.
    pub fn take_rows(&mut self, alloc: Global) -> Result<Seq<StoredRows>, AllocError>
        ensures { IfOk result (λ rows. (rows ≡ first_rows self.old) × (self.new ≡ without_rows self.old)) }
    {
        self.sofar.take_rows(alloc)
    }
}

/// Whether bytes are UTF-8.
fn is_text(bytes: &[u8]) -> bool
    ensures { result ≡ is_utf8 bytes.now }
{
    str::from_utf8(bytes).is_ok()
}

/// A refusal of a line.
fn refused(name: Option<Text>, cause: Cause) -> Saying
    ensures { result ≡ Refused name cause }
{
    Saying::Refused { name, cause }
}
