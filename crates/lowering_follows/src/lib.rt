//! Linear code follows the meaning of the program that it is lowered from.
//!
//! Proved: linear code in which each function of a program is placed shows the events of the
//! meaning, with its end, and no others (`follow_laws`); what `seh_ir` makes of a sound program is
//! such code (`lowering_laws`). Begin with `specs/FollowLaws.antt`; `specs/StatementPlaces.antt`
//! says where the code of each statement is.
#![tactic(auto)]

pub mod follow_laws;
pub mod lowering_laws;
