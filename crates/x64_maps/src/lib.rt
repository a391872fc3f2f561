//! The opcode maps of 64-bit mode (Intel manual, volume 2, appendix A, "Opcode Map"), as data: what
//! each cell says of the bytes that follow, of what is written, and of how the flow goes on.
//!
//! They are to be held beside the manual's, cell by cell; what is proved of them is in crate
//! x64_lengths. Begin with `words`, which says what their letters mean.
#![tactic(auto)]

pub mod cell;
pub mod groups;
pub mod one_byte;
pub mod prefixed;
pub mod three_byte_38;
pub mod three_byte_3a;
pub mod two_byte;
pub mod words;
