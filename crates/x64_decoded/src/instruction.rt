use x64_instr::instruction::Instr;

/// An instruction as it was read at an address.
#[derive(Clone, Copy, Debug, PartialEq, Eq)]
pub struct DecodedInstruction {
    /// The address of its first byte.
    pub at: u64,
    /// How many bytes it has.
    pub len: usize,
    /// What the bytes spell.
    pub instr: Instr,
}
