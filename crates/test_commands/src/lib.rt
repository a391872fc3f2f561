//! Whole commands on the program's one call: texts, images and streams, each with what is answered.
//!
//! The rows are texts that are read when a test runs, so that a row adds nothing to the proof of
//! it.
#![tactic(auto)]

#[cfg(test)]
mod calls;
#[cfg(test)]
mod checks;
#[cfg(test)]
mod commands;
#[cfg(test)]
mod conformance;
#[cfg(test)]
mod damaged;
#[cfg(test)]
mod dispatches;
#[cfg(test)]
mod each_call;
#[cfg(test)]
mod failing;
#[cfg(test)]
mod images;
#[cfg(test)]
mod inputs;
#[cfg(test)]
mod plans;
#[cfg(test)]
mod runs;
#[cfg(test)]
mod selftests;
#[cfg(test)]
mod texts;
#[cfg(test)]
mod views;
#[cfg(test)]
mod ways;
