//! The tests of the engine: a worked row for each of its leaves, with ample memory; and of a chunk a worked case of each
//! call, a long chain under an old reader, and random calls beside a plain list of versions.
#![tactic(auto)]

#[cfg(test)]
mod calls;
#[cfg(test)]
mod chains;
#[cfg(test)]
mod columns;
#[cfg(test)]
mod cores;
#[cfg(test)]
mod notes;
#[cfg(test)]
mod plain;
#[cfg(test)]
mod predicate_tree;
#[cfg(test)]
mod tried;
#[cfg(test)]
mod worked;
