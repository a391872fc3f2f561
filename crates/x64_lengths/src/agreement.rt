//! That the opcode maps agree with the instructions that crate x64_instr lists.

ghost use Rattle.x64_lengths.specs.Agreement.{Agreement, LengthsAgree, RowsAgree};

/// Each listed instruction is read by the maps: it takes the same bytes, and each general register
/// that it writes is named. So it is for each opcode, for whole instructions, and for what `measure`
/// answers.
pub fn agreement()
    ensures opcodes { RowsAgree }
    ensures instructions { Agreement }
    ensures measured { LengthsAgree }
{}
