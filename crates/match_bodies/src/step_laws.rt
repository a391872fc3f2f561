//! Laws of the steps of linear code that need neither a call nor the dispatcher.

ghost use Rattle.match_bodies.specs.StepLaws.{StepsWithinBodiesAreMatched, SeparatorsAreMatched};

/// Where the machine represents a configuration of linear code, it makes each step within the body
/// in at most sixteen turns, less those that a temporary takes more or fewer, and represents the
/// next one; a separator takes one turn.
pub fn laws()
    ensures within { StepsWithinBodiesAreMatched }
    ensures separators { SeparatorsAreMatched }
{}
