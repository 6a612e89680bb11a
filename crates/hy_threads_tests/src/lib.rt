//! Tests of sessions on threads by an engine of its own: counters, and sessions that add to them.
#![tactic(auto)]

pub mod counting;
#[cfg(test)]
mod parts;
#[cfg(test)]
mod workers;
