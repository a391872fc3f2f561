//! What holds of the image of every program that fits.

ghost use Rattle.text_routines.specs.Laws.{LinkedRoutinesAreFrameless};

/// Every routine of the image that has no entry is frameless, as its bytes are decoded from where
/// it begins.
pub fn frameless()
    ensures { LinkedRoutinesAreFrameless }
{}
