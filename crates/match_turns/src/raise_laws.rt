//! Laws of raises and of local unwinds.

ghost use Rattle.match_turns.specs.RaiseLaws.{RaisesAreMatched, LocalUnwindsAreMatched, ContinuationsAfterCalls, BodiesContinue};

/// Where a body calls RaiseException, or jumps out of a body with `__finally` blocks, the machine
/// comes in at most eight turns to what linear code comes to; where the exception of a call is
/// continued, the instruction after the call begins, with the result 0; so a body continues
/// wherever one is continued.
pub fn laws()
    ensures raises { RaisesAreMatched }
    ensures unwinds { LocalUnwindsAreMatched }
    ensures continuations { ContinuationsAfterCalls }
    ensures all_continuations { BodiesContinue }
{}
