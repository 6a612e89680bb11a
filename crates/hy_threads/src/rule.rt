//! The rule that every step keeps, and what each kind of step tells its thread.
//!
//! There are seven kinds of step on the table of words and slots, each with a lemma of its name in `proofs/`:
//!
//! - *make*: each part goes into its slot, every word is 0, and the first seat knows all sessions;
//! - *split*: the first seat gives the next session to a new seat;
//! - *take won*: the word was 0 and names the session now, and the part is out with its seat;
//! - *take lost*: the word was not 0, and stays; the seat notes which part it was refused;
//! - *give*: the part goes back into its slot, the word is 0, and the session is the one that the seat tells;
//! - *join*: a seat that has no part gives its session back to the first seat;
//! - *close*: where the first seat has all sessions, every part lies in its slot, and the fact holds of both.
ghost use Rattle.std.specs.Prelude.{Option, None};
ghost use Rattle.hy_threads.specs.Rule.{Took, Gave};
ghost use Rattle.hy_threads.specs.Knowledge.{parent, child, joined, spent};

use crate::known::Known;
use crate::parted::Parted;
use atomic_table::{Join, Play, Split, TableRule};
use crossbeam_utils::CachePadded;
use std::marker::{Brand, PhantomData};
use std::snapshot::Snapshot;

/// The rule: each part is at home or out with one seat, each session is with one seat, and the fact holds of the
/// parts as they were last given and of the sessions. It begins with the sessions that the key shows.
pub struct PartsRule<P> {
    of: PhantomData<P>,
}

impl<P: Parted> TableRule<
    Option<CachePadded<P::Part>>,
    Known<P::Session, P::Part>,
    Vec<Snapshot<P::Session>>,
> for PartsRule<P> {
    ghost use Rattle.hy_threads.specs.Rule.{IsAccounted};
    ghost use Rattle.hy_threads.specs.Knowledge.{first_from};

    ghost holds = { λ _. IsAccounted P.fact };

    ghost first = { λ key. first_from key.items };
}

/// A take: the part and its near fact where it was won, or the refusal.
pub struct Taking<P> {
    of: PhantomData<P>,
}

impl<P: Parted> Play<Option<CachePadded<P::Part>>, Known<P::Session, P::Part>> for Taking<P> {
    ghost then = { Took P.near };
}

/// The session that a give tells. Each give picks it, since a step on a word sees numbers alone.
pub trait Telling<S> {
    /// That session.
    ghost session: { Option S };
}

impl<S> Telling<S> for Brand {
    ghost session = { None };
}

/// A give: the seat has no part, and the session that was told.
pub struct Giving<J> {
    of: PhantomData<J>,
}

impl<S, D, J: Telling<S>> Play<Option<CachePadded<D>>, Known<S, D>> for Giving<J> {
    ghost then = { Gave J.session };
}

/// A split: the first seat gives its next session to a new seat.
pub struct Splitting;

impl<S, D> Split<Known<S, D>> for Splitting {
    ghost left = { parent };

    ghost right = { child };
}

/// A join: the first seat has a seat's session back.
pub struct Joining;

impl<S, D> Join<Known<S, D>> for Joining {
    ghost both = { joined };

    ghost spent = { spent };
}
