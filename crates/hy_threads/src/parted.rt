//! The contract between an engine and its locks.
ghost use Rattle.std.specs.Prelude.{ℕ, List};
ghost use Rattle.hy_threads.specs.Laws.{NearFollows, EventKeeps};

/// Parts and sessions of an engine, and what its locks are to keep of them.
///
/// The engine says a fact of all its parts and all its sessions, a near fact that one session and one part show of
/// it, and which events there are, changes of one session and one part. It proves two laws: the near fact follows
/// from the fact, and each event keeps the fact, whatever the other parts and sessions are. From these the locks
/// prove that the fact holds between any two steps of any threads. The laws speak of plain data, and no thread.
pub trait Parted {
    /// What is locked, each with a number: at any time with one thread at most.
    type Part: Drop + Send + Sync;

    /// What visits parts, each with a number. It stays with its thread, and with those that make shares of its work; the locks
    /// know what it is by its gives.
    type Session: Drop + Send + Sync;

    /// The fact, of all parts and all sessions, each by its number.
    ghost fact: { List Self.Part → List Self.Session → Type 0 };

    /// The near fact: what who takes the part of a number may count on, of the session and the part.
    ghost near: { ℕ → Self.Session → Self.Part → Type 0 };

    /// The events: at the part of a number, the session and the part before, and both after.
    ghost event: { ℕ → Self.Session → Self.Part → Self.Session → Self.Part → Type 0 };

    /// The first law: where the fact holds, the near fact holds of each session and each part.
    ghost near_follows: { NearFollows fact near };

    /// The second law: an event of any session at any part keeps the fact.
    ghost event_keeps: { EventKeeps fact event };
}
