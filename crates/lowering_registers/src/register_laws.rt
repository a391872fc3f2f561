//! What holds of locals in registers.

ghost use Rattle.lowering_registers.specs.RegisterLaws.{AreFew, AreUnshared, AreInOrder, AreFirst, AreAll};

/// They are the first seven, or all, that no filter and no `__finally` block of the function names
/// and that the data stack leaves.
pub fn register_locals_are_first()
    ensures few { AreFew }
    ensures unshared { AreUnshared }
    ensures ordered { AreInOrder }
    ensures first { AreFirst }
    ensures all { AreAll }
{}
