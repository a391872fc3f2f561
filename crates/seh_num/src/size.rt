//! Sizes that the architecture and the host fix.

/// The most bytes of an instruction (Intel manual, volume 2, chapter 2).
pub const LONGEST_INSTRUCTION: usize = 15;

/// The most parameters of an exception (Windows headers, `winnt.h`).
pub const EXCEPTION_MAXIMUM_PARAMETERS: usize = 15;
