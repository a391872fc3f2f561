//! That the measured lengths and registers are those of the machine: of each instruction that crate
//! x64_instr lists, `measure` says the same length, and its effect on the machine writes no general
//! register that `measure` doesn't name.
#![tactic(auto)]

pub mod laws;
