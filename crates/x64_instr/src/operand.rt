//! What instructions work on.

use crate::register::Reg;

/// What an index is multiplied by.
#[derive(Clone, Copy, Debug, PartialEq, Eq)]
pub enum Scale {
    One,
    Two,
    Four,
    Eight,
}

/// What an address starts from.
#[derive(Clone, Copy, Debug, PartialEq, Eq)]
pub enum Base {
    /// 0.
    Nothing,
    /// The address of the next instruction. No index is added to it.
    Rip,
    /// What the register holds.
    Register(Reg),
}

/// A register that is scaled and added to an address. RSP can't be one.
#[derive(Clone, Copy, Debug, PartialEq, Eq)]
pub struct Index {
    /// The register.
    pub register: Reg,
    /// What it is multiplied by.
    pub scale: Scale,
}

/// A place in memory: base, scaled index and displacement added, modulo 2 to the 64 (Intel manual,
/// volume 1, "Specifying an Offset").
#[derive(Clone, Copy, Debug, PartialEq, Eq)]
pub struct MemRef {
    /// What the address starts from.
    pub base: Base,
    /// What is added to it, where there is an index.
    pub index: Option<Index>,
    /// A signed number of 32 bits, sign-extended to 64.
    pub displacement: u64,
}

/// An operand r/m: a register or a place in memory (Intel manual, volume 2, "Instruction Column in
/// the Opcode Summary Table").
#[derive(Clone, Copy, Debug, PartialEq, Eq)]
pub enum RegisterOrMemory {
    Register(Reg),
    Memory(MemRef),
}

/// What can be read.
#[derive(Clone, Copy, Debug, PartialEq, Eq)]
pub enum Operand {
    Register(Reg),
    Memory(MemRef),
    /// A number of the instruction's width, sign-extended where fewer bits of it are spelled.
    Immediate(u64),
}
