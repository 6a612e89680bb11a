//! The tests of what statements mean and read: answers, changes that hit reads; the records of reads, key by key, and
//! plans; and plans tried on random tables, where what is answered from the rows that an engine gathers is what is
//! answered from the whole tables, and so are the records.
#![tactic(auto)]

#[cfg(test)]
mod gather;
#[cfg(test)]
mod meanings;
#[cfg(test)]
mod plans;
#[cfg(test)]
mod printing;
#[cfg(test)]
mod random;
#[cfg(test)]
mod reads;
#[cfg(test)]
mod tried;
