//! The machine that runs an accepted program, and its steps.
//!
//! `machine` has memory, activations, handlers and the stack of what waits, so that no depth of a
//! program needs the stack of the processor. `stepping` does one step, with the events that it
//! shows, after those that `directly` can do at once; `calls`, `places`, `raises`, `vectored` and
//! `giving` do the parts of steps that change the machine.
//!
//! Proved: a step leaves the machine, and shows the events, of some steps of the definition, of
//! which the last alone shows any. Begin with `stepping`.
#![tactic(auto)]

pub mod activations;
pub mod calls;
pub mod data_stack;
pub mod directly;
pub mod functions;
pub mod giving;
pub mod machine;
pub mod places;
pub mod raises;
pub mod stepping;
pub mod vectored;
