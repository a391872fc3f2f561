//! Tests of the checker: texts that keep each rule of names, types and jumps at its edge, and texts
//! that break it alone, with the rule and its place, by the C standard and the Microsoft C
//! reference.
#![tactic(auto)]

#[cfg(test)]
mod declarations;
#[cfg(test)]
mod handlers;
#[cfg(test)]
mod jumps;
#[cfg(test)]
mod places;
#[cfg(test)]
mod pointers;
#[cfg(test)]
mod several;
#[cfg(test)]
mod types;
#[cfg(test)]
mod verdict;
