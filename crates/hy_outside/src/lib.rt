//! Where bytes come from and where they go: sources and sinks, over memory and over std.
#![tactic(auto)]

ghost use Rattle.std.specs.Prelude.{◌≡◌, ℕ, ◌+◌, ◌^◌, ◌<◌, ◌≤◌, List, Option, length, take, drop, IsSome, IfOk, OnOk, OnErr, IsErrOf};
ghost use Rattle.std.specs.Io.{ReadsAtMost, WritesAtMost};
ghost use Rattle.std.specs.Io.KnownBytes.{Keeps, IsAtEnd};
ghost use Rattle.hy_outside.specs.Faults.{Rose};
ghost use Rattle.hy_outside.specs.Telling.{Gives, GivesAtMost, GivesAll, GivesPast, Takes, TakesSome};
ghost use Rattle.hy_outside.specs.declared.ReadAllError.TheVariants.{OutOfMemory};

mod adapters;
mod memory;
mod pieces;
mod system;

pub use adapters::{StdSink, StdSource};
pub use memory::{CleanSource, MemSink, MemSource};
use std::alloc::{AllocError, Global};
pub use system::SystemError;

/// A single read or write failed.
#[derive(Clone, Copy, Debug, PartialEq, Eq)]
pub struct Failed;

/// Not all bytes were written, since a write failed.
#[derive(Clone, Copy, Debug, PartialEq, Eq)]
pub struct WriteFault;

/// Why not all bytes of a source were read.
#[derive(Clone, Copy, Debug, PartialEq, Eq)]
pub enum ReadAllError {
    /// A read failed.
    ReadFault,
    /// There are more bytes than the limit.
    TooLong,
    /// Memory ran out.
    OutOfMemory,
}

impl From<AllocError> for ReadAllError {
    ghost from_gives = { λ _ e. e ≡ OutOfMemory };

    fn from(_error: AllocError) -> ReadAllError {
        ReadAllError::OutOfMemory
    }
}

/// Where bytes come from.
pub trait Source {
    // The bytes that are left, where the source tells them. Where it does not, nothing is claimed of them.
    ghost rest: { Self → Option (List ℕ) };

    // How many faults there were, up to the end of a `u64`.
    ghost faults: { Self → ℕ };

    /// Reads the next bytes into the front of `into`, and gives their count. It is 0 only at the end
    /// or where `into` is empty. A read that fails takes no bytes.
    fn read(&mut self, into: &mut [u8]) -> Result<usize, Failed>
        ensures bound { ReadsAtMost result into.new }
        ensures given { IfOk result (λ n. Gives (rest self.old) (rest self.new) (take n into.new)) }
        ensures kept { IfOk result (λ n. IsSome (rest self.old) → drop n into.new ≡ drop n into.old) }
        ensures end { IfOk result (λ n. n ≡ 0 → 0 < length into.old → IsAtEnd (rest self.old)) }
        ensures steady { OnOk result (faults self.new ≡ faults self.old) }
        ensures failed { OnErr result (Keeps (rest self.old) (rest self.new)) }
        ensures fault { OnErr result (Rose (faults self.old) (faults self.new)) }
        ensures never_fell { faults self.old ≤ faults self.new }
        ensures in_range { faults self.new < 2 ^ 64 };
}

/// Where bytes go to.
pub trait Sink {
    // The bytes that were taken, where the sink tells them. Where it does not, nothing is claimed of them.
    ghost written: { Self → Option (List ℕ) };

    // How many faults there were, up to the end of a `u64`.
    ghost faults: { Self → ℕ };

    /// Writes the first bytes of `from`, and gives their count, which is 0 only where `from` is empty.
    /// A write that fails takes no bytes.
    fn write(&mut self, from: &[u8]) -> Result<usize, Failed>
        ensures bound { WritesAtMost result from.now }
        ensures some { IfOk result (λ n. 0 < length from.now → 0 < n) }
        ensures taken { IfOk result (λ n. Takes (written self.old) (written self.new) (take n from.now)) }
        ensures steady { OnOk result (faults self.new ≡ faults self.old) }
        ensures failed { OnErr result (Keeps (written self.old) (written self.new)) }
        ensures fault { OnErr result (Rose (faults self.old) (faults self.new)) }
        ensures never_fell { faults self.old ≤ faults self.new }
        ensures in_range { faults self.new < 2 ^ 64 };
}

/// How many bytes are asked for at once.
pub(crate) const PIECE: usize = 4096;

/// All bytes that the source has left, of which there may be `limit`. One more is too long, and is
/// taken from the source. Whatever the error, the source is left behind the bytes that it gave.
pub fn read_all<R: Source>(
    alloc: Global,
    source: &mut R,
    limit: usize,
) -> Result<Vec<u8>, ReadAllError>
    requires { limit < usize.MAX }
    ensures whole { IfOk result (λ bytes. GivesAll (R.rest source.old) (R.rest source.new) bytes.items) }
    ensures at_most { IfOk result (λ bytes. length bytes.items ≤ limit) }
    ensures too_long { IsErrOf result ReadAllError.TooLong → GivesPast (R.rest source.old) (R.rest source.new) limit }
    ensures read_fault { IsErrOf result ReadAllError.ReadFault → Rose (R.faults source.old) (R.faults source.new) }
    ensures steady { ¬ IsErrOf result ReadAllError.ReadFault → R.faults source.new ≡ R.faults source.old }
    ensures given { GivesAtMost (R.rest source.old) (R.rest source.new) (limit + 1) }
    ensures within { ¬ IsErrOf result ReadAllError.TooLong → GivesAtMost (R.rest source.old) (R.rest source.new) limit }
    ensures never_fell { R.faults source.old ≤ R.faults source.new }
{
    let mut bytes = Vec::new(alloc);
    let mut buffer = [0; PIECE];
    'turns: for _ in 0..limit + 1 {
        let asked = (limit + 1 - bytes.len()).min(PIECE);
        let piece = &mut buffer[..asked];
        let Ok(count) = source.read(piece) else {
            return Err(ReadAllError::ReadFault);
        };
        if count == 0 {
            return Ok(bytes);
        }
        if count > limit - bytes.len() {
            return Err(ReadAllError::TooLong);
        }
        bytes.extend_from_slice(&piece[..count])?;
    }
    unreachable!()
}

/// Writes all the bytes, in order. After a fault the sink has taken the first of them and no more.
pub fn write_all<W: Sink>(sink: &mut W, bytes: &[u8]) -> Result<(), WriteFault>
    ensures whole { OnOk result (Takes (W.written sink.old) (W.written sink.new) bytes.now) }
    ensures taken { TakesSome (W.written sink.old) (W.written sink.new) bytes.now }
    ensures fault { OnErr result (Rose (W.faults sink.old) (W.faults sink.new)) }
    ensures steady { OnOk result (W.faults sink.new ≡ W.faults sink.old) }
    ensures never_fell { W.faults sink.old ≤ W.faults sink.new }
{
    let mut done = 0;
    'turns: for _ in 0..bytes.len() {
        if done == bytes.len() {
            return Ok(());
        }
        let Ok(count) = sink.write(&bytes[done..]) else {
            return Err(WriteFault);
        };
        done += count;
    }
    Ok(())
}
