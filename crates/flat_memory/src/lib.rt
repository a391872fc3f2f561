//! Memory as a map from addresses to what may be done there and to a byte.
//!
//! The source meaning and the machine speak of memory by the definitions of this crate: an address
//! is a number below 2^64, sums of addresses go round, an access takes 1, 2, 4 or 8 bytes, the
//! lowest first (Intel manual, volume 1, "Bit and Byte Order"), and is refused by its first byte
//! that may not be accessed.
//!
//! Proved: a load after a store gives its low bits, a store leaves all else, a refused one changes
//! nothing. Begin with `specs/Memory.antt`.
#![tactic(auto)]

pub mod access;
pub mod laws;
pub mod protection;
