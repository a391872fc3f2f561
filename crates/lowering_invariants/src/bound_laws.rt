//! The bounds of frames.

ghost use Rattle.lowering_invariants.specs.BoundLaws.{LoweredIsSmall};

/// No body of a sound program that is nested within the limits uses more than 1,000 words of 8
/// bytes, 460 of them beside the locals, and each slot, function and funclet that its linear code
/// names is there.
pub fn lowered_is_small()
    ensures small { LoweredIsSmall }
{}
