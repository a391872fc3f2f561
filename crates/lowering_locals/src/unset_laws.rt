//! Laws of configurations that differ in locals alone that haven't been set.

ghost use Rattle.lowering_locals.specs.UnsetLaws.{StepsAreAlike, CallsAreAlike, StartsAreAlike, MarkedIsReached, MarkedContinues, AlikeContinues, AlikeIsStacked, AlikeHasActivations, AlikeHasDepths, AlikeIsSmall};

/// Each goes where the other goes, and ends where it ends.
pub fn steps_are_alike()
    ensures alike { StepsAreAlike }
{}

/// A function that is called may begin with any numbers in the locals after its arguments.
pub fn calls_are_alike()
    ensures alike { CallsAreAlike }
{}

/// So may `main`.
pub fn starts_are_alike()
    ensures alike { StartsAreAlike }
{}

/// What comes with marks from the beginning is reached.
pub fn marked_is_reached()
    ensures reached { MarkedIsReached }
{}

/// Marks go along with each turn.
pub fn marked_continues()
    ensures marked { MarkedContinues }
{}

/// What an instruction needs is there in both.
pub fn alike_continues()
    ensures continues { AlikeContinues }
{}

/// The same waits in both.
pub fn alike_is_stacked()
    ensures stacked { AlikeIsStacked }
{}

/// The same activations live in both.
pub fn alike_has_activations()
    ensures activations { AlikeHasActivations }
{}

/// As many temporaries are held in both.
pub fn alike_has_depths()
    ensures depths { AlikeHasDepths }
{}

/// The one keeps numbers of 64 bits alone if the other does, and its own locals are such.
pub fn alike_is_small()
    ensures small { AlikeIsSmall }
{}
