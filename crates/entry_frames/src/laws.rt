//! What holds of verdicts on entries.

ghost use Rattle.entry_frames.specs.Laws.{OwnYesFindsCallers, FirstNoIsTheImageVerdict};

/// Where every part of an entry's function has a verdict without a fault, its own entry and each
/// that is chained to it, the caller is found in every state of it in the loaded image, as it was
/// at the function's first byte. What is said of other functions doesn't matter.
pub fn frames()
    ensures { OwnYesFindsCallers }
{}

/// The verdict on an image is the first no of the verdicts on its entries, or yes where there is
/// none.
pub fn verdicts()
    ensures { FirstNoIsTheImageVerdict }
{}
