//! The body that runs, as it is in the machine's registers and stack where an instruction of linear
//! code begins, and the steps of linear code that stay within it.
//!
//! Proved: the machine makes each such step in at most sixteen turns and those that earlier steps
//! left, and the next instruction begins in a state that represents linear code's. Begin with
//! `specs/Bodies.antt`, then `specs/StepLaws.antt`.
#![tactic(auto)]

pub mod step_laws;
