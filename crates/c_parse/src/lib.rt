//! Programs of C from tokens.
//!
//! All tokens are read as one program (C11, 6.9) within the limits of nesting and of counts. What
//! is read is that program, and a refusal names the first token with which no such program
//! continues, or the text's end. If no program continues so at all, it is `Unexpected`; else, if
//! none is within the limit of nesting, `TooDeep`; else `TooMany`, with the first count, in the
//! order of `Count`, of which each has too much.
//!
//! Proved: `program::parse` answers the one program that the tokens are within all limits, else
//! their first fault. Begin with `specs/Refused.antt`.
#![tactic(auto)]

pub mod counts;
pub mod functions;
pub mod globals;
pub mod initialisers;
pub mod laws;
pub mod program;

pub use c_parse_expr::refusal::ParseErr;
