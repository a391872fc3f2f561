//! Laws of places in the linear code of a program.

ghost use Rattle.lowering_invariants.specs.PlaceLaws.{LoweredIsFollowed, LoweredHasSameRegions, LoweredStaysInside, LoweredHasSeparators, LoweredHasColdParts, LoweredHasFlags, LoweredInformsFilters};

/// An instruction that does nothing is after each that runs `__finally` blocks.
pub fn lowered_is_followed()
    ensures followed { LoweredIsFollowed }
{}

/// Each region that holds a call holds the instruction after it, and no other one does.
pub fn lowered_has_same_regions()
    ensures same { LoweredHasSameRegions }
{}

/// Each local unwind goes to an instruction of its body.
pub fn lowered_stays_inside()
    ensures inside { LoweredStaysInside }
{}

/// No region begins or ends between a call and the instruction after it, none is empty, and none
/// begins where its function does. Each `__except` block and each target of a local unwind begins
/// with an instruction of its own, strictly inside the regions that hold it in the source: no
/// region begins or ends there, but for that of the block's own `__try`. Each region that holds the
/// target of a local unwind holds the local unwind too.
pub fn lowered_has_separators()
    ensures separators { LoweredHasSeparators }
{}

/// The cold parts of each body are one after another and apart. Nothing falls into one or out of
/// it, no region holds an instruction of it or begins or ends at one, no local unwind is in it or
/// leads into it, it doesn't end its body, and it holds a call.
pub fn lowered_has_cold_parts()
    ensures cold { LoweredHasColdParts }
{}

/// The flag of each `__finally` block is one of the locals of its body.
pub fn lowered_has_flags()
    ensures flags { LoweredHasFlags }
{}

/// Only filters read their exception.
pub fn lowered_informs_filters()
    ensures filters { LoweredInformsFilters }
{}
