//! Laws of the configurations that the linear code of a sound program comes to.

ghost use Rattle.lowering_invariants.specs.TypeLaws.{SeenAlikeIsSame, LoweredIsWhole, LoweredHasRoom, LoweredIsApart, ReachedContinues, ReachedIsStacked, ReachedHasActivations, ReachedIsSmall, ReachedHasDepths};

/// A configuration is determined by what may be seen from it on.
pub fn alike_is_same()
    ensures same { SeenAlikeIsSame }
{}

/// The funclets that bodies name are theirs, and each call has as many arguments as its function
/// takes. Each function that is put among the vectored handlers or taken out takes two, and begins
/// with one separator more than it counts in the depth.
pub fn lowered_is_whole()
    ensures whole { LoweredIsWhole }
{}

/// The slots of each body of a program that is nested within the limits are enough.
pub fn lowered_has_room()
    ensures room { LoweredHasRoom }
{}

/// A call and the instruction after it are inside the same regions.
pub fn lowered_is_apart()
    ensures apart { LoweredIsApart }
{}

/// Each configuration that is reached is at an instruction, and what that needs is there.
pub fn reached_continues()
    ensures continues { ReachedContinues }
{}

/// What waits below the body that runs is there, where it is meant to wait, and the vectored
/// handlers are functions that take a code and flags, and that a body puts among them.
pub fn reached_is_stacked()
    ensures stacked { ReachedIsStacked }
{}

/// The live activations are those of the functions that run or wait, with all their locals.
pub fn reached_has_activations()
    ensures activations { ReachedHasActivations }
{}

/// Every number that is kept is one of 64 bits, and the vectored handlers are at most 16, each
/// once.
pub fn reached_is_small()
    ensures small { ReachedIsSmall }
{}

/// Each body that runs or waits holds as many temporaries as its place in the code says.
pub fn reached_has_depths()
    ensures depths { ReachedHasDepths }
{}
