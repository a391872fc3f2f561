//! What an evaluation does next, where the program's text and a value alone decide it.
//!
//! `task` has what counts a step, and `frame` what waits for a result and what is done next.
//! `expressions` and `statements` choose what is done for a part of a program, and `results` what
//! is done with a result that is there.
//!
//! Proved: each choice is that of the definitions of `source_machine`. Begin with `frame` and
//! `specs/Views.antt`.
#![tactic(auto)]

pub mod expressions;
pub mod frame;
pub mod place;
pub mod results;
pub mod statements;
pub mod task;
pub mod values;
