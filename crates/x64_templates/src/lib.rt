//! The instructions of the machine that an instruction of linear code is compiled to, and that
//! they do what it does.
//!
//! Proved: where the template of an instruction is placed, a run of the machine does what the
//! instruction does. Begin with `specs/Laws.antt`; `specs/Straight.antt` and `specs/Chains.antt`
//! say how instructions make a run.
#![tactic(auto)]

pub mod laws;
