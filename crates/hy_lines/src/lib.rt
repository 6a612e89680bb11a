//! A source read line by line: bytes are taken of it only where no whole line is kept.
#![tactic(auto)]

ghost use Rattle.std.specs.Prelude.{◌≡◌, ◌+◌, ◌^◌, ◌<◌, ◌≤◌, ◌++◌, [], Bool, true, false, length, take};
ghost use Rattle.std.specs.Prelude.{drop, Some, IfOk, IfSome, IfNone, OnOk, OnErr, IsErrOf, position};
ghost use Rattle.hy_limits.specs.declared.TheConstants.{MOST_BYTES};
ghost use Rattle.hy_outside.specs.Faults.{Rose};
ghost use Rattle.hy_outside.specs.Telling.{Gives};
ghost use Rattle.hy_lines.specs.Lines.{is_feed, has_feed};
ghost use Rattle.hy_lines.specs.Hearing.{Reading, Adds, IsFirstLine, IsOver, Told, Hears};
ghost use Rattle.hy_lines.specs.declared.NextError.TheVariants.{OutOfMemory};

mod laws;

use hy_limits::MOST_BYTES;
use hy_outside::Source;
pub use laws::{lines_are_given, lines_stand_first};
use std::alloc::{AllocError, Global};
use std::marker::Model;

/// What comes next of a source that is read line by line.
#[derive(Debug, PartialEq, Eq, Drop)]
pub enum Heard {
    /// A line, without the line feed that ends it. Only the last one may have none.
    Line(Vec<u8>),
    /// There are no more lines.
    End,
    /// No line is left that is whole, and of the bytes there are more than the limit.
    TooLong,
}

/// Why it was not told what comes next.
#[derive(Clone, Copy, Debug, PartialEq, Eq)]
pub enum NextError {
    /// A read failed.
    ReadFault,
    /// Memory ran out.
    OutOfMemory,
}

impl From<AllocError> for NextError {
    ghost from_gives = { λ _ e. e ≡ OutOfMemory };

    fn from(_error: AllocError) -> NextError {
        NextError::OutOfMemory
    }
}

/// How many bytes are asked for at once.
const PIECE: usize = 4096;

/// Where the first line feed stands.
fn first_feed(bytes: &[u8]) -> Option<usize>
    ensures { result ≡ position is_feed bytes.now }
{
    bytes.iter().position(|byte| *byte == b'\n')
}

/// Cuts so many bytes off the front. A drain moves all bytes behind it, also where it takes none.
fn cut_front(bytes: &mut Vec<u8>, count: usize)
    requires { count ≤ length bytes.old.items }
    ensures { bytes.new.items ≡ drop count bytes.old.items }
{
    if count > 0 {
        bytes.drain(..count);
    }
}

/// A source read line by line: the bytes that were taken of it and are not given yet, how many were taken in
/// all, and whether it gave its end. What is given already may stand before the kept bytes.
#[derive(Drop)]
pub struct Lines {
    bytes: Vec<u8>,
    start: usize,
    taken: usize,
    done: bool,
}

impl Model for Lines {
    ghost use Rattle.std.specs.Prelude.{◌+◌, ◌≤◌, length, drop};
    ghost use Rattle.hy_limits.specs.declared.TheConstants.{MOST_BYTES};
    ghost use Rattle.hy_lines.specs.Hearing.{Reading};

    ghost Value = { Reading };

    ghost view = { λ l. record { kept = drop l.start l.bytes.items; taken = l.taken; done = l.done } };

    ghost invariant = { λ l. (l.start ≤ length l.bytes.items) × (l.taken ≤ MOST_BYTES + 1) };
}

impl Lines {
    /// Nothing is taken yet. It takes no memory.
    pub fn new(alloc: Global) -> Lines
        ensures { result ≡ record { kept = []; taken = 0; done = false } }
    {
        Lines {
            bytes: Vec::new(alloc),
            start: 0,
            taken: 0,
            done: false,
        }
    }

    /// Gives the first line that is kept, whose length this is.
    fn give_line(&mut self, alloc: Global, length: usize) -> Result<Heard, NextError>
        requires { IsFirstLine length self.old.kept }
        ensures told { Told self.old.kept self.new result }
        ensures same { (self.new.taken ≡ self.old.taken) × (self.new.done ≡ self.old.done) }
        ensures no_fault { ¬ IsErrOf result NextError.ReadFault }
    {
        let end = self.start + length;
        let line = self.bytes[self.start..end].to_vec(alloc)?;
        self.start = end + 1;
        Ok(Heard::Line(line))
    }

    /// Gives what is kept behind the last line feed of a source that gave its end.
    fn give_last(&mut self, alloc: Global) -> Result<Heard, NextError>
        requires none { has_feed self.old.kept ≡ false }
        requires done { self.old.done ≡ true }
        ensures told { Told self.old.kept self.new result }
        ensures same { (self.new.taken ≡ self.old.taken) × (self.new.done ≡ self.old.done) }
        ensures no_fault { ¬ IsErrOf result NextError.ReadFault }
    {
        if self.start == self.bytes.len() {
            return Ok(Heard::End);
        }
        let line = self.bytes[self.start..].to_vec(alloc)?;
        self.start = self.bytes.len();
        Ok(Heard::Line(line))
    }

    /// Takes the next piece of the source. There is room for it before it is taken, so that none is lost.
    fn take_piece<R: Source>(&mut self, source: &mut R) -> Result<(), NextError>
        requires none { has_feed self.old.kept ≡ false }
        requires going { self.old.done ≡ false }
        requires limit { self.old.taken ≤ MOST_BYTES }
        ensures adds { Adds (R.rest source.old) (R.rest source.new) self.old self.new }
        ensures ok_steady { OnOk result (R.faults source.new ≡ R.faults source.old) }
        ensures some { OnOk result (self.new.done ≡ false → self.old.taken < self.new.taken) }
        ensures err { OnErr result (self.new ≡ self.old) }
        ensures within { self.new.taken ≤ MOST_BYTES + 1 }
        ensures read_fault { IsErrOf result NextError.ReadFault → Rose (R.faults source.old) (R.faults source.new) }
        ensures steady { ¬ IsErrOf result NextError.ReadFault → R.faults source.new ≡ R.faults source.old }
        ensures never_fell { R.faults source.old ≤ R.faults source.new }
    {
        cut_front(&mut self.bytes, self.start);
        self.start = 0;
        self.bytes.reserve(PIECE)?;
        let mut buffer = [0; PIECE];
        let asked = (MOST_BYTES + 1 - self.taken).min(PIECE);
        let piece = &mut buffer[..asked];
        let Ok(count) = source.read(piece) else {
            return Err(NextError::ReadFault);
        };
        self.bytes.extend_from_slice(&piece[..count]).unwrap();
        self.taken += count;
        self.done = count == 0;
        Ok(())
    }

    /// Takes pieces of the source until a whole line is kept, and tells its length, or up to the end of the
    /// source or past the limit. No byte is looked at twice.
    fn take_line<R: Source>(&mut self, source: &mut R) -> Result<Option<usize>, NextError>
        ensures adds { Adds (R.rest source.old) (R.rest source.new) self.old self.new }
        ensures found { IfOk result (λ found. IfSome found (λ length. IsFirstLine length self.new.kept)) }
        ensures none { IfOk result (λ found. IfNone found (IsOver self.new)) }
        ensures within { self.new.taken ≤ MOST_BYTES + 1 }
        ensures waits { has_feed self.old.kept ≡ true → source.new ≡ source.old }
        ensures over { self.old.done ≡ true → source.new ≡ source.old }
        ensures fault { IsErrOf result NextError.ReadFault → (has_feed self.new.kept ≡ false) × (self.new.done ≡ false) }
        ensures read_fault { IsErrOf result NextError.ReadFault → Rose (R.faults source.old) (R.faults source.new) }
        ensures steady { ¬ IsErrOf result NextError.ReadFault → R.faults source.new ≡ R.faults source.old }
        ensures never_fell { R.faults source.old ≤ R.faults source.new }
    {
        let mut searched = 0;
        'turns: for _ in 0..MOST_BYTES + 2 {
            if let Some(ahead) = first_feed(&self.bytes[self.start + searched..]) {
                return Ok(Some(searched + ahead));
            }
            if self.done || self.taken > MOST_BYTES {
                return Ok(None);
            }
            searched = self.bytes.len() - self.start;
            self.take_piece(source)?;
        }
        unreachable!()
    }

    /// What comes next of the source. It is asked only where no whole line is kept, so a line may be answered
    /// before the next is there. After a fault, or where memory ran out, what was taken is kept.
    pub fn next_line<R: Source>(
        &mut self,
        alloc: Global,
        source: &mut R,
    ) -> Result<Heard, NextError>
        ensures heard { Hears (R.rest source.old) (R.rest source.new) self.old self.new result }
        ensures limit { self.new.taken ≤ MOST_BYTES + 1 }
        // While a whole line is kept, the source is not asked, and after its end it is not asked again.
        ensures waits { has_feed self.old.kept ≡ true → source.new ≡ source.old }
        ensures over { self.old.done ≡ true → source.new ≡ source.old }
        ensures read_fault { IsErrOf result NextError.ReadFault → Rose (R.faults source.old) (R.faults source.new) }
        ensures steady { ¬ IsErrOf result NextError.ReadFault → R.faults source.new ≡ R.faults source.old }
        ensures never_fell { R.faults source.old ≤ R.faults source.new }
    {
        match self.take_line(source)? {
            Some(length) => self.give_line(alloc, length),
            None if self.done => self.give_last(alloc),
            None => Ok(Heard::TooLong),
        }
    }
}
