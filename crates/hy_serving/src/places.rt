//! What is known of each session, by number.

ghost use Rattle.std.specs.Prelude.{◌≡◌, OnOk};
ghost use Rattle.std.specs.Option.{option_copied};
ghost use Rattle.hy_serving.specs.Saying.{HasRoom, no_txns, place_at, with_place, with_statement};

use crate::{Desk, Place};
use hy_bound::Bound;
use hy_script::Standing;
use std::alloc::AllocError;

impl Place {
    /// What is known of a session that has begun nothing.
    fn unused() -> Place
        ensures { result ≡ no_txns }
    {
        Place {
            txns: 0,
            standing: None,
        }
    }

    /// Its open transaction, if there is one, has a statement more.
    fn add(&mut self, bound: &Bound) -> Result<(), AllocError>
        requires { HasRoom self.old }
        ensures { OnOk result (self.new ≡ with_statement self.old bound.now) }
    {
        if let Some(standing) = &mut self.standing {
            standing.add(bound)?;
        }
        Ok(())
    }
}

impl Desk {
    /// How many transactions the session of this number has begun.
    pub(crate) fn begun(&self, number: usize) -> usize
        ensures { result ≡ (place_at self.now number).txns }
    {
        match self.places.as_slice().get(number) {
            Some(place) => place.txns,
            None => 0,
        }
    }

    /// What the next statement of the open transaction of the session of this number is judged by, where one is open.
    pub(crate) fn standing(&self, number: usize) -> Option<&Standing>
        ensures { option_copied result ≡ (place_at self.now number).standing }
    {
        match self.places.as_slice().get(number) {
            Some(place) => place.standing.as_ref(),
            None => None,
        }
    }

    /// Sets what is known of the session of this number. Where there is none nothing changes.
    pub(crate) fn set(&mut self, number: usize, place: Place)
        ensures { self.new ≡ with_place self.old number place }
    {
        if number < self.places.len() {
            leave(self.places.replace(number, place));
        }
    }

    /// The open transaction of the session of this number has a statement more.
    pub(crate) fn add(&mut self, number: usize, bound: &Bound) -> Result<(), AllocError>
        requires { HasRoom (place_at self.old number) }
        ensures { OnOk result (self.new ≡ with_place self.old number (with_statement (place_at self.old number) bound.now)) }
    {
        if number >= self.places.len() {
            return Ok(());
        }
        let mut place = self.places.replace(number, Place::unused());
        place.add(bound)?;
        leave(self.places.replace(number, place));
        Ok(())
    }
}

/// Lets a value go.
fn leave(_: Place) {}
