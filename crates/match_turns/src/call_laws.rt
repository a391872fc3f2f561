//! Laws of calls of functions and of their returns.

ghost use Rattle.match_turns.specs.CallLaws.{ReturnsAreMatched, CallsBegin};

/// Where the machine represents a configuration of linear code, a function's return comes to the
/// next instruction of the body that waits for it, or ends the run; and a call to the first one of
/// the function.
pub fn laws()
    ensures returns { ReturnsAreMatched }
    ensures calls { CallsBegin }
{}
