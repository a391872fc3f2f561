//! What holds of measured instructions on the machine.

ghost use Rattle.x64_lengths_laws.specs.Laws.{InstructionsAreMeasured};

/// Where crate x64_instr reads an instruction, `measure` answers the same length. The instruction's
/// effect leaves each general register that isn't named; that of a call, which names none, leaves
/// all but RSP.
pub fn measured()
    ensures { InstructionsAreMeasured }
{}
