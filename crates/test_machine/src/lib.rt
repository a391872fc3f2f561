//! Tests of the crates of numbers, memory and the processor: what no clause of theirs says.
//! Expected values are from the Intel manual and from GNU as.
#![tactic(auto)]

#[cfg(test)]
mod machine;
#[cfg(test)]
mod memory;
#[cfg(test)]
mod numbers;
#[cfg(test)]
mod replays;
#[cfg(test)]
mod rows;
