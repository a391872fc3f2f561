//! The code of a linked program's image that no entry of its function table covers: leaf functions,
//! the thunks of services, `__chkstk`, and the name thunks and stubs of vectored handlers.
//!
//! Proved of the image's bytes: every routine without an entry is instructions one after another,
//! of which none but a return or a jump out of it writes RSP, and none another nonvolatile
//! register. Begin with `specs/Laws.antt`.
#![tactic(auto)]

pub mod laws;
