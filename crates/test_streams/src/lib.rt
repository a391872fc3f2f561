//! Tests of streams and of words: the lines that are written, sources and sinks that fail, and the
//! commands that words are.
#![tactic(auto)]

#[cfg(test)]
mod lines;
#[cfg(test)]
mod streams;
