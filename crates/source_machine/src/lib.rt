//! The source meaning as a machine with a stack: what waits for a result is a frame, and what is to
//! be done next is one item, so that no part of a program is done inside another.
//!
//! Proved: a step keeps the meaning (`step_laws`); laws of programs that are Tame, which touch no
//! reserved byte and stay within the depth however long they run, and of runs that are Plain, where
//! no exception is raised while a filter, or a `__finally` block with flag 1, runs (`calm_laws`).
//! Begin with `specs/Frames.antt`; `specs/Plans.antt` and `specs/Machine.antt` have the machine's
//! steps, `specs/FrameMeanings.antt` what a frame means, `specs/Tame.antt` and `specs/Plain.antt`
//! those two.
#![tactic(auto)]

pub mod calm_laws;
pub mod step_laws;
