//! The tests of what leads from bytes to statements: sources and sinks, lines, texts, tokens, the parser, the catalog,
//! savepoints, the lines of serving.
#![tactic(auto)]

#[cfg(test)]
mod bytes;
#[cfg(test)]
mod lines;
#[cfg(test)]
mod savepoints;
#[cfg(test)]
mod serving;
#[cfg(test)]
mod statements;
