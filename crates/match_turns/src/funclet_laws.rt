//! Laws of filters and `__finally` blocks as they begin and end.

ghost use Rattle.match_turns.specs.FuncletLaws.{CalledFiltersBegin, CalledBlocksBegin, ReturnsOfBlocksAreMatched};

/// From a funclet's first byte the machine comes in at most six turns to the first instruction of
/// its body, in a state that represents linear code's configuration; the return of a `__finally`
/// block that a body has called continues in the body.
pub fn laws()
    ensures filters { CalledFiltersBegin }
    ensures blocks { CalledBlocksBegin }
    ensures ends { ReturnsOfBlocksAreMatched }
{}
