/// The status flags that conditions ask (Intel manual, volume 1, "EFLAGS Register").
#[derive(Clone, Copy, Debug, PartialEq, Eq)]
pub struct Flags {
    /// CF: a carry or a borrow out of the top bit.
    pub carry: bool,
    /// ZF: the result is 0.
    pub zero: bool,
    /// SF: the result's top bit.
    pub sign: bool,
    /// OF: the signed result doesn't fit.
    pub overflow: bool,
}

/// The registers, by their numbers, with RIP and the flags.
#[derive(Clone, Copy, Debug, PartialEq, Eq)]
pub struct Cpu {
    /// RAX, RCX, RDX, RBX, RSP, RBP, RSI, RDI and R8 to R15.
    pub registers: [u64; 16],
    /// The instruction pointer: the address of the next instruction.
    pub rip: u64,
    /// CF, ZF, SF and OF.
    pub flags: Flags,
}
