//! Contexts with vector registers.

use x64_machine::context::Context;

/// How many vector registers are nonvolatile: XMM6 to XMM15.
pub const NONVOLATILE_VECTORS: usize = 10;

/// What a caller can rely on (Microsoft x64 ABI, "Caller/callee saved registers"), with the vector
/// registers.
#[derive(Clone, Copy, Debug, PartialEq, Eq)]
pub struct AbiContext {
    /// RIP, RSP and the other nonvolatile general registers.
    pub general: Context,
    /// XMM6 to XMM15, as numbers of 128 bits.
    pub vectors: [u128; NONVOLATILE_VECTORS],
}
