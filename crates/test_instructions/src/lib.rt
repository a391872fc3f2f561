//! Tests of how instructions are spelled and read: what no clause of those crates says. Expected
//! values are from the Intel manual and from GNU as.
#![tactic(auto)]

#[cfg(test)]
mod assembled_1;
#[cfg(test)]
mod assembled_2;
#[cfg(test)]
mod measured;
#[cfg(test)]
mod refused;
#[cfg(test)]
mod spelling;
#[cfg(test)]
mod unspelled;
#[cfg(test)]
mod words;
