//! Laws of the locals that stand in registers.

ghost use Rattle.lowering_invariants.specs.Registers.{LoweredHasRegisters, LoweredSparesRegisters};

/// No filter and no `__finally` block reads or writes a local of its function that stands in a
/// register; its flag is none either.
pub fn lowered_spares_registers()
    ensures spares { LoweredSparesRegisters }
{}

/// At most seven locals of each function stand in registers, in rising order.
pub fn lowered_has_registers()
    ensures registers { LoweredHasRegisters }
{}
