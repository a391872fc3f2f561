//! What an image shows when it is run: the definitions of the start state, of one turn of the host
//! and of whole runs, with worked images computed on them.
//!
//! Proved: worked images show the events beside them, by computation; `laws::runs` says what holds
//! of every run. `fixed_laws` says that a turn keeps protection and byte of each address outside
//! the arena that may not be written. Begin with `specs/HostStep.antt`, one turn, then
//! `specs/Dispatch.antt` and `specs/Machine.antt`.
#![tactic(auto)]

pub mod binding;
pub mod fixed_laws;
pub mod funclet;
pub mod laws;
pub mod refusal;
pub mod worked;
