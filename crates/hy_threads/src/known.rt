//! What a seat knows.
ghost use Rattle.hy_threads.specs.Knowledge.{Knowledge};
ghost use base.Fml.{ftrue};

use std::marker::{Model, PhantomData};

/// What a seat knows: plain data of the proofs, with no bytes. No value of it is made.
pub struct Known<S, D> {
    of: PhantomData<(S, D)>,
    ghost is: { Knowledge S D },
}

impl<S, D> Model for Known<S, D> {
    ghost use Rattle.hy_threads.specs.Knowledge.{Knowledge};
    ghost use base.Fml.{ftrue};

    ghost Value = { Knowledge S D };

    ghost view = { λ k. k.is };

    ghost also_owns = { λ _. ftrue };
}
