//! The contract between an engine and its workers.
ghost use Rattle.std.specs.Prelude.{◌≡◌, ℕ, ◌<◌, Option, Some, false, IfOk, OnErr};
ghost use Rattle.hy_threads.specs.declared.gate.Point.{Point};
ghost use Rattle.hy_threads.specs.declared.gate.Moment.TheVariants.{Before};
ghost use Rattle.hy_threads.specs.Shares.{AreShares};
ghost use Rattle.hy_threads.specs.Visits.{Needs, Visits};

use crate::Parted;
use crate::gate::Point;
use std::alloc::{AllocError, Global};

/// What a visit came to.
#[derive(Clone, Copy, Debug, PartialEq, Eq)]
pub enum Visited {
    /// The session went on, and has not answered the statement.
    Moved,
    /// The session went on, and answered the statement.
    Answered,
    /// The session has to wait for another one, and nothing changed.
    Blocked,
}

/// Sessions that say what they need next, and visit it. The fact that the locks keep is that of `Parted`; a visit is
/// one of its events, or changes nothing.
///
/// Ahead of a visit, while it has no part, a session may do some of the visit's work, and offer shares of it. They are made on
/// threads, and the session takes them. Contracts do not see that it has them: a visit comes to the same without them.
pub trait Worked: Parted {
    /// What is made of a share of a session's work.
    type Share: Drop + Send;

    /// The next visit of a session. None at its end.
    ghost point_of: { Self.Session → Option Point };

    /// The numbers of all parts that a session ever needs are below this.
    ghost width_of: { Self.Session → ℕ };

    /// The session can't make its next visit to the part as it is.
    ghost is_blocked: { Self.Session → Self.Part → Type 0 };

    /// This was made of the share of this number of the session's work.
    ghost is_share: { Self.Session → ℕ → Self.Share → Type 0 };

    /// Does of its next visit's work what needs no part. Where there is no memory for that, the visit does it.
    fn make_ready(alloc: Global, session: &mut Self::Session)
        ensures { session.new ≡ session.old };

    /// How many shares of its next visit's work the session offers. None where threads would take longer to begin.
    fn shares(session: &Self::Session) -> usize;

    /// Makes the share of this number.
    fn share(alloc: Global, session: &Self::Session, number: usize) -> Self::Share
        ensures { is_share session.now number result };

    /// Takes what was made of its shares, in order. Where there is no memory for that it lets them go.
    fn take_shares(alloc: Global, session: &mut Self::Session, shares: Vec<Self::Share>)
        requires { AreShares is_share session.old shares.items }
        ensures { session.new ≡ session.old };

    /// Where a session waits for what takes long, as a sync does, and what one session does for all who wait: how far the part that
    /// it needs has to have come. Its worker visits the part once that has come so far, or leads the others and does it. None where
    /// it waits for nothing like that.
    fn awaited(session: &Self::Session) -> Option<u64>;

    /// Whether sessions ever wait so.
    fn may_await() -> bool;

    /// How far a part has come at which sessions wait so. None of any other.
    fn reached(part: &Self::Part) -> Option<u64>;

    /// Whether a session is about to do what the others wait for: as long as it is, its worker leads them.
    fn is_leading(session: &Self::Session) -> bool;

    /// The next visit. None at the end.
    fn need(session: &Self::Session) -> Option<Point>
        ensures { result ≡ point_of session.now };

    /// Visits the part of this number, which the session needs. Where the session is not blocked it goes on by an event,
    /// and where it is nothing changes. Err is for want of memory, and nothing changed.
    fn visit(
        alloc: Global,
        number: usize,
        session: &mut Self::Session,
        part: &mut Self::Part,
    ) -> Result<Visited, AllocError>
        requires need { Needs (point_of session.old) number }
        requires near { Self.near number session.old part.old }
        ensures visited { IfOk result (λ visited. Visits (Self.event number) is_blocked visited session.old part.old session.new part.new) }
        ensures err { OnErr result ((session.new ≡ session.old) × (part.new ≡ part.old)) };

    /// A visit that is needed has not begun.
    ghost point_is_before: { (s : Self.Session) (p : Point) → point_of s ≡ Some p → (p.moment ≡ Before) × (p.answered ≡ false) };

    /// A part that is needed is below the width.
    ghost part_is_below: { (s : Self.Session) (p : Point) → point_of s ≡ Some p → p.part < width_of s };

    /// An event keeps the width of the session.
    ghost width_stays: { (k : ℕ) (s t : Self.Session) (p q : Self.Part) → Self.event k s p t q → width_of t ≡ width_of s };
}
