//! The function tables of images for x64 (Microsoft x64 ABI, "Exception handling":
//! `RUNTIME_FUNCTION`, `UNWIND_INFO` version 1 and the scope tables of the C handler), written.
//!
//! Proved: the writers append the bytes of `specs/Written.antt`, where to begin, and these are read
//! again as the same values (`specs/ReadAgain.antt`).
#![tactic(auto)]

mod laws;
mod unwind_info;
mod writing;

pub use laws::read_again;
pub use unwind_info::{Trailer, UnwindInfo};
pub use writing::{write_pdata, write_scopes, write_unwind};
