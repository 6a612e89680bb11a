//! The parts alone: they are taken, given back, and come home.

use crate::counting::{Adder, Counter, Counting};
use hy_threads::Parts;
use std::test::Fail;

/// A session at its end.
fn ended(number: u32) -> Adder {
    Adder {
        number,
        turns: None,
        awaits: 0,
        starves: false,
        offers: 0,
        commits: false,
        owes: None,
    }
}

#[test]
fn a_part_that_is_out_is_not_taken(rt: HostRuntime) -> Result<(), Fail> {
    let alloc = rt.alloc();
    let mut counters = Vec::new(alloc);
    counters.push(Counter { count: 7, sure: 0 })?;
    let mut sessions = Vec::new(alloc);
    sessions.push(ended(0))?;
    sessions.push(ended(1))?;
    let Ok((parts, mut first)) = Parts::<Counting>::new(alloc, counters, sessions.as_slice()) else {
        return Err(Fail::new("there is no memory"));
    };
    let mut one = parts.split(&mut first);
    let mut other = parts.split(&mut first);
    let taken = parts.try_take(&mut one, 0);
    let None = parts.try_take(&mut other, 0) else {
        return Err(Fail::new("the part is taken twice"));
    };
    let Some(counter) = taken else {
        return Err(Fail::new("the part is out"));
    };
    assert_eq!(rt; counter.count, 7);
    parts.give(&mut one, &sessions[0], 0, Counter { count: 8, sure: 0 });
    let Some(counter) = parts.try_take(&mut other, 0) else {
        return Err(Fail::new("the part is out"));
    };
    assert_eq!(rt; counter.count, 8);
    parts.give(&mut other, &sessions[1], 0, counter);
    parts.join(&mut first, one);
    parts.join(&mut first, other);
    let closed = parts.close(first);
    let [counter] = closed.as_slice() else {
        return Err(Fail::new("there was one part"));
    };
    assert_eq!(rt; counter.count, 8);
    Ok(())
}
