//! Declarations resolved (C11, 6.7 and 6.9), and what a statement needs beside its parts (C11, 6.8;
//! Microsoft C reference, "try-except statement", "try-finally statement").
//!
//! `environment` says where a statement is, and has what a walk over a function carries along;
//! `evaluated` the values of its expressions; `declarations` the locals of a block; `filters` what
//! an `__except` asks; `globals` the file's names and the bytes of its globals. Each equals the
//! definition of its name in `c_resolved`, and keeps the least fault.
//!
//! Begin with `environment`, and for globals with `specs/Files.antt`.
#![tactic(auto)]

pub mod declarations;
pub mod environment;
pub mod evaluated;
pub mod filters;
pub mod globals;
pub mod lengths;
