//! The meaning of accepted programs of C, by cases on their statements and expressions.
//!
//! Handlers are a list, and an unwinding is a result on its way out. Each case is a definition over
//! what the tasks inside it do; one function on the steps left ties the knot and counts them. Begin
//! with `specs/Meaning.antt`; `laws` has what holds of every program, and `rows` programs with all
//! their events.
#![tactic(auto)]

pub mod depth;
pub mod ended;
pub mod laws;
