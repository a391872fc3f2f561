use crate::event::Code;

/// Why a run was stopped.
#[derive(Clone, Copy, Debug, PartialEq, Eq)]
pub enum Reason {
    /// No instruction can be run at the address.
    Illegal,
    /// At the address there is no dispatch record, or not one that fits there.
    BadRecord,
    /// A stack word that is needed can't be read; the address is its first byte that can't.
    Unreadable,
    /// The stack pointer would not rise from a frame to its caller; the address is the stack
    /// pointer.
    Backward,
    /// An unwinding doesn't come to its target frame, whose address this is.
    LostFrame,
}

/// How a run of an image ended.
#[derive(Clone, Copy, Debug, PartialEq, Eq)]
pub enum RunEnd {
    /// The program returned: the low 32 bits of RAX.
    Exit(i32),
    /// Nobody handled an exception of this code.
    Unhandled(Code),
    /// The guard below the stack was accessed, at this address.
    StackLimit { address: u64 },
    /// As many turns as were allowed were made.
    OutOfTurns { turns: u64 },
    /// The run was stopped.
    Stopped { why: Reason, address: u64 },
}
