//! Unwind codes.

/// What an instruction of a prologue did, as its unwind code says it (Microsoft x64 ABI, "Unwind
/// operation code"). Registers have their numbers in instructions: RAX 0, RCX 1, RDX 2, RBX 3, RSP
/// 4, RBP 5, RSI 6, RDI 7, R8 to R15 8 to 15.
#[derive(Clone, Copy, Debug, Default, PartialEq, Eq)]
pub enum UnwindOperation {
    /// UWOP_PUSH_NONVOL: pushed a register.
    Push { register: u8 },
    /// UWOP_ALLOC_LARGE and UWOP_ALLOC_SMALL: allocated so many bytes of the stack.
    Allocate { size: u32 },
    /// UWOP_SET_FPREG: set the frame register to RSP plus the frame offset.
    #[default]
    SetFrame,
    /// UWOP_SAVE_NONVOL and UWOP_SAVE_NONVOL_FAR: stored a register so many bytes above the base.
    Save { register: u8, offset: u32 },
    /// UWOP_SAVE_XMM128 and UWOP_SAVE_XMM128_FAR: stored a vector register there.
    SaveVector { register: u8, offset: u32 },
    /// UWOP_PUSH_MACHFRAME: the processor pushed a machine frame, with an error code where `info`
    /// is 1.
    MachineFrame { info: u8 },
}

/// An unwind code: what an instruction did, and the offset of its end from the begin of the
/// prologue.
#[derive(Clone, Copy, Debug, Default, PartialEq, Eq)]
pub struct UnwindCode {
    /// The offset of the instruction's end, in bytes.
    pub offset: u8,
    /// What the instruction did.
    pub operation: UnwindOperation,
}
