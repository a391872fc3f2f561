//! Locals that haven't been set: runs that differ in them alone continue alike, and the code of a
//! program that names each local where it is declared reads none.
//!
//! Proved: two such runs show the same and end alike, at every instruction that reads no unset
//! local (`unset_laws`); the locals that have been set are known at each place of the linear code
//! (`set_laws`, `scoped_laws`). Begin with `specs/Agreement.antt` and `specs/Sets.antt`.
#![tactic(auto)]

pub mod agreement;
pub mod scoped_laws;
pub mod set_laws;
pub mod unset_laws;
