//! Tests of the front end: texts with their tokens, types, expressions, statements and programs,
//! and what is refused, by the C standard and the Microsoft C reference.
#![tactic(auto)]

#[cfg(test)]
mod atoms;
#[cfg(test)]
mod expressions;
#[cfg(test)]
mod laws;
#[cfg(test)]
mod programs;
#[cfg(test)]
mod rows;
#[cfg(test)]
mod statements;
#[cfg(test)]
mod tokens;
#[cfg(test)]
mod types;
