//! Worked programs: what each text is resolved to and means, and what its linear code shows.
//!
//! Proved by computation. Begin with `specs/Texts.antt` and `specs/LinearRows.antt`.
#![tactic(auto)]

pub mod linear_rows;
pub mod source_rows;
pub mod stack_rows;
