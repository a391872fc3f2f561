//! Minidumps for programs that aren't Rattle: C functions over the bytes of a file.
//! `include/seh_dump.h` declares them.
//!
//! Proved: what each returns and writes is what crate `minidump` defines (`specs/Dumps.antt`,
//! `specs/Statuses.antt`), whatever is passed. No call takes memory.
#![tactic(auto)]

mod codes;
mod dump;
mod exports;
mod status;
