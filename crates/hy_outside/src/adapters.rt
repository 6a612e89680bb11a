//! A source and a sink over std's readers and writers. They tell the bytes that the reader or the
//! writer tells, count each fault, and keep the cause of the first. What std itself does is trusted.
ghost use Rattle.std.specs.Prelude.{◌≡◌, ◌^◌, ◌<◌, ◌≤◌, length, take, drop, IfOk, OnOk, OnErr, MatchResult};
ghost use Rattle.std.specs.Io.{ReadsAtMost, WritesAtMost};
ghost use Rattle.std.specs.Io.KnownBytes.{Keeps, IsAtEnd};
ghost use Rattle.hy_outside.specs.Adapters.{passed_on};
ghost use Rattle.hy_outside.specs.Faults.{one_more};
ghost use Rattle.hy_outside.specs.Telling.{Gives, Takes};

use crate::pieces::copy_front;
use crate::{Failed, PIECE, Sink, Source, SystemError};
use std::io::{ErrorKind, Read, Write};
use std::marker::Model;

/// The source that reads from `R`.
#[derive(Drop)]
pub struct StdSource<R> {
    inner: R,
    faults: u64,
    /// Why the first read failed that did.
    cause: Option<SystemError>,
}

impl<R> Model for StdSource<R> {
    ghost use Rattle.std.specs.Prelude.{◌^◌, ◌<◌};
    ghost use Rattle.hy_outside.specs.Adapters.{ReaderInput};

    ghost Value = { ReaderInput R };

    ghost view = { λ s. record { inner = s.inner; faults = s.faults } };

    ghost invariant = { λ s. s.faults < 2 ^ 64 };
}

impl<R> StdSource<R> {
    /// The source of what `inner` reads. There was no fault yet.
    pub fn new(inner: R) -> StdSource<R>
        ensures { result ≡ record { inner = inner; faults = 0 } }
    {
        StdSource {
            inner,
            faults: 0,
            cause: None,
        }
    }

    /// Why the first read failed that did, where one did.
    pub fn cause(&self) -> Option<SystemError> {
        self.cause
    }
}

impl<R: Read> Source for StdSource<R> {
    ghost rest = { λ s. R.remaining s.inner };

    ghost faults = { λ s. s.faults };

    // The reader may write behind the bytes that it gives, so it is given a buffer of its own.
    fn read(&mut self, into: &mut [u8]) -> Result<usize, Failed>
        ensures bound { ReadsAtMost result into.new }
        ensures given { IfOk result (λ n. Gives (R.remaining self.old.inner) (R.remaining self.new.inner) (take n into.new)) }
        ensures kept { IfOk result (λ n. drop n into.new ≡ drop n into.old) }
        ensures end { IfOk result (λ n. n ≡ 0 → 0 < length into.old → IsAtEnd (R.remaining self.old.inner)) }
        ensures ok { OnOk result (self.new.faults ≡ self.old.faults) }
        ensures failed { OnErr result (Keeps (R.remaining self.old.inner) (R.remaining self.new.inner)) }
        ensures err { OnErr result (self.new.faults ≡ one_more self.old.faults) }
        ensures never_fell { self.old.faults ≤ self.new.faults }
        ensures in_range { self.new.faults < 2 ^ 64 }
    {
        let mut buffer = [0; PIECE];
        let asked = into.len().min(PIECE);
        match self.inner.read(&mut buffer[..asked]) {
            Ok(count) => {
                copy_front(into, &buffer[..count]);
                Ok(count)
            }
            Err(error) => {
                self.faults = self.faults.saturating_add(1);
                self.cause = self.cause.or(Some(SystemError::from(error)));
                Err(Failed)
            }
        }
    }
}

/// The sink that writes to `W`, and passes on at once what the writer keeps back. It tells the bytes
/// that were passed on. Once the writer took bytes and could not pass them on, each write fails.
#[derive(Drop)]
pub struct StdSink<W> {
    inner: W,
    kept_back: usize,
    faults: u64,
    /// Why the first write failed that did.
    cause: Option<SystemError>,
}

impl<W> Model for StdSink<W> {
    ghost use Rattle.std.specs.Prelude.{◌^◌, ◌<◌};
    ghost use Rattle.hy_outside.specs.Adapters.{WriterOutput};

    ghost Value = { WriterOutput W };

    ghost view = { λ s. record { inner = s.inner; kept_back = s.kept_back; faults = s.faults } };

    ghost invariant = { λ s. s.faults < 2 ^ 64 };
}

impl<W> StdSink<W> {
    /// The sink of what `inner` writes. There was no fault yet.
    pub fn new(inner: W) -> StdSink<W>
        ensures { result ≡ record { inner = inner; kept_back = 0; faults = 0 } }
    {
        StdSink {
            inner,
            kept_back: 0,
            faults: 0,
            cause: None,
        }
    }

    /// Why the first write failed that did, where one did.
    pub fn cause(&self) -> Option<SystemError> {
        self.cause
    }
}

impl<W: Write> Sink for StdSink<W> {
    ghost written = { λ s. passed_on (W.contents s.inner) s.kept_back };

    ghost faults = { λ s. s.faults };

    fn write(&mut self, from: &[u8]) -> Result<usize, Failed>
        ensures bound { WritesAtMost result from.now }
        ensures some { IfOk result (λ n. 0 < length from.now → 0 < n) }
        ensures taken { IfOk result (λ n. Takes (passed_on (W.contents self.old.inner) self.old.kept_back)
            (passed_on (W.contents self.new.inner) self.new.kept_back) (take n from.now)) }
        ensures none_kept { OnOk result ((self.old.kept_back ≡ 0) × (self.new.kept_back ≡ 0)) }
        ensures ok { OnOk result (self.new.faults ≡ self.old.faults) }
        ensures failed { OnErr result (Keeps (passed_on (W.contents self.old.inner) self.old.kept_back)
            (passed_on (W.contents self.new.inner) self.new.kept_back)) }
        ensures err { OnErr result (self.new.faults ≡ one_more self.old.faults) }
        ensures never_fell { self.old.faults ≤ self.new.faults }
        ensures in_range { self.new.faults < 2 ^ 64 }
    {
        if self.kept_back > 0 {
            self.faults = self.faults.saturating_add(1);
            return Err(Failed);
        }
        match write_through(&mut self.inner, from) {
            Ok(count) => Ok(count),
            Err(KeptBack { count, cause }) => {
                self.kept_back = count;
                self.faults = self.faults.saturating_add(1);
                self.cause = self.cause.or(Some(cause));
                Err(Failed)
            }
        }
    }
}

/// A write that failed.
struct KeptBack {
    /// How many bytes the writer took.
    count: usize,
    cause: SystemError,
}

impl KeptBack {
    /// A write of which the writer took so many bytes, and what it said.
    fn new(count: usize, cause: impl Into<SystemError>) -> KeptBack
        ensures { result.count ≡ count }
    {
        KeptBack {
            count,
            cause: cause.into(),
        }
    }
}

/// Writes the first of the bytes, and passes on at once what the writer keeps back. A writer that takes
/// none of the bytes has failed, as has one that cannot pass them on.
fn write_through<W: Write>(writer: &mut W, bytes: &[u8]) -> Result<usize, KeptBack>
    ensures bound { MatchResult result (λ n. n ≤ length bytes.now) (λ kept. kept.count ≤ length bytes.now) }
    ensures some { IfOk result (λ n. 0 < length bytes.now → 0 < n) }
    ensures taken { MatchResult result (λ n. Takes (W.contents writer.old) (W.contents writer.new) (take n bytes.now))
        (λ kept. Takes (W.contents writer.old) (W.contents writer.new) (take kept.count bytes.now)) }
{
    let count = match writer.write(bytes) {
        Ok(count) => count,
        Err(error) => return Err(KeptBack::new(0, error)),
    };
    match writer.flush() {
        Ok(()) if count > 0 || bytes.is_empty() => Ok(count),
        Ok(()) => Err(KeptBack::new(count, ErrorKind::WriteZero)),
        Err(error) => Err(KeptBack::new(count, error)),
    }
}
