//! What a program shows that prints no walk.

ghost use Rattle.image_runs.specs.WalkEvents.{MeaningsWalkByCalls};

/// A program whose linear code doesn't call `walk` shows no event of a printed walk.
pub fn laws()
    ensures { MeaningsWalkByCalls }
{}
