//! Tests of the redo log: a worked row of each call over a disk in memory, and the disk over a file.
#![tactic(auto)]

#[cfg(test)]
mod files;
#[cfg(test)]
mod logs;
