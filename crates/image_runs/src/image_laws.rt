//! Laws of the images of sound programs.

ghost use Rattle.image_runs.specs.ImageLaws.{LoweredIsCompiled, LoweredHasImage};

/// Of a sound program that is nested within the limits, whose linear code can be linked, the linear
/// code is as the image needs it; and all that steps of the machine ask of an image holds of its
/// image.
pub fn laws()
    ensures compiled { LoweredIsCompiled }
    ensures image { LoweredHasImage }
{}
