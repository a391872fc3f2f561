//! Laws of first states.

ghost use Rattle.image_runs.specs.FirstLaws.{FirstStatesStart, MainsBegin};

/// The first state of a compiled program's image is one in which `main` is called; and from it the
/// machine comes to the first instruction of `main`.
pub fn laws()
    ensures first { FirstStatesStart }
    ensures main { MainsBegin }
{}
