//! Shares of a visit's work, made ahead of the visit.
ghost use Rattle.std.specs.Prelude.{◌≡◌, IfOk};
ghost use Rattle.hy_threads.specs.Shares.{AreShares};

use crate::gate::PieceGate;
use crate::worked::Worked;
use std::alloc::{AllocError, Global};
use std::thread::{Threads, map_indices};

// Makes the share of this number, of which the gate is told first.
fn make_share<P: Worked, G: PieceGate>(
    alloc: Global,
    session: &P::Session,
    gate: &G,
    number: usize,
) -> P::Share
    ensures { P.is_share session.now number result }
{
    gate.piece(number);
    P::share(alloc, session, number)
}

// Makes so many shares, each in a thread of its own where one can be had.
fn make_shares<T: Threads + Sync, P: Worked + Send + Sync, G: PieceGate>(
    rt: &T,
    alloc: Global,
    count: usize,
    session: &P::Session,
    gate: &G,
) -> Result<Vec<P::Share>, AllocError>
    ensures { IfOk result (λ shares. AreShares P.is_share session.now shares.items) }
{
    map_indices(
        rt,
        alloc,
        count,
        &|number| make_share::<P, G>(alloc, session, gate, number),
    )
}

/// Lets a session do what it can of its next visit's work, makes the shares that it offers of the rest, and lets it take
/// them. Where there is no memory for that, the visit does all its work alone.
pub(crate) fn prepare<T: Threads + Sync, P: Worked + Send + Sync, G: PieceGate>(
    rt: &T,
    alloc: Global,
    session: &mut P::Session,
    gate: &G,
)
    ensures { session.new ≡ session.old }
{
    P::make_ready(alloc, session);
    let count = P::shares(session);
    if count == 0 {
        return;
    }
    if let Ok(shares) = make_shares::<T, P, G>(rt, alloc, count, session, gate) {
        P::take_shares(alloc, session, shares);
    }
}
