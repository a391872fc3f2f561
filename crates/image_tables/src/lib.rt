//! What is read of the function table of a linked program's image, and that a walk finds the caller
//! of each of its frames (Microsoft x64 ABI, "Prolog and epilog").
//!
//! Proved: the table is read again as the entries of the program's routines (`table_laws`); it has
//! one scope record for each region, in order, and no frame larger than its weight allows
//! (`shape_laws`); of a checked program it has one row for each `__try` (`region_laws`); callers
//! are found at every instruction boundary of functions, funclets, thunks, leaf functions, the name
//! thunks and stubs of vectored handlers, and `__chkstk` (`frame_laws`). The image is written as
//! octets, by the definitions alone (`octet_laws`). Begin with `specs/Entries.antt`.
#![tactic(auto)]

pub mod frame_laws;
pub mod octet_laws;
pub mod region_laws;
pub mod shape_laws;
pub mod table_laws;
