//! The image of a compiled program as the steps of linear code need it: where its code is, what
//! its function table gives, and the memory that a run of it starts with. Begin reading with
//! `specs/Plans`.
#![tactic(auto)]

pub mod start_laws;
pub mod state_laws;
