//! What holds of the image of every program that can be linked.

ghost use Rattle.image_link.specs.Laws.{ImagesAreSmall};

/// The image of a program within the limits of `specs/Fits` takes at most 256 MiB.
pub fn images_are_small()
    ensures { ImagesAreSmall }
{}
