//! Texts with their trees: what each is resolved to, and what that means.

ghost use Rattle.worked_programs.specs.AllRows.{AllRows};

/// Each text is resolved to a sound program, which prints what it should, or it is refused where it
/// should be.
pub fn rows()
    ensures { AllRows }
{}
