//! The unwinder for programs that aren't Rattle: what C calls. `include/seh.h` declares it.
//!
//! Proved: each call returns and writes what `specs/Answers.antt` says, by the definitions of crate
//! seh_views: of a view that `seh_open` made, exactly what opening its bytes anew finds, or that
//! memory is wanting.
#![tactic(auto)]

mod exports;
mod validating;
