/// Why an access was refused: by its first byte that may not be accessed.
#[derive(Clone, Copy, Debug, PartialEq, Eq)]
pub enum RefusedAccess {
    /// The byte at this address may not be read or, for a write, not be written.
    Fault { address: u64, write: bool },
    /// The same, of a byte of the stack's guard.
    Guard { address: u64 },
}
