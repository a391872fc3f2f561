//! Generated programs: a text of C for each number, of 256 functions that `main` calls in turn.
//! They compute, divide by 0 in a `__try`, leave one by a `return`, and raise in a `__finally`
//! block that runs for an exception.
//!
//! Proved: the text is the one that `specs/GeneratedText.antt` defines.
#![tactic(auto)]

mod body;
pub mod generating;
