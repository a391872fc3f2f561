//! What the verdicts on the entries of an image say, each by itself and all together.
//!
//! Proved: where every part of an entry's function has a yes, its callers are found, whatever is
//! said of other functions; and the first no of all entries is the verdict on the image. Begin with
//! `specs/Laws.antt`.
#![tactic(auto)]

pub mod laws;
