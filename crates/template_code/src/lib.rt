//! The machine code of each instruction of linear code, wherever it is placed: its template.
//!
//! Definitions, and one law: the size of a template depends on no label. Begin with
//! `specs/Template.antt`.
#![tactic(auto)]

pub mod laws;
pub mod layout;
pub mod operands;
