//! Identifier resolution and types: which checked program a program of C is, and which rules of
//! names, types and jumps it breaks.
//!
//! Proved: an accepted text within the limits is resolved to a sound program, and the fault that is
//! reported is the least (`resolution_laws`); what any text is resolved to names each local only
//! where it is declared (`scope_laws`). Begin with `specs/Program.antt` (`resolve`) and
//! `specs/Accepted.antt` (the fault that is reported).
#![tactic(auto)]

pub mod fault;
pub mod resolution_laws;
pub mod scope_laws;
pub mod variable;
