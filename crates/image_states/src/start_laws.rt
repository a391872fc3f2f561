//! The memory that a run of a compiled program starts with.

ghost use Rattle.image_states.specs.StartLaws.{ImagesStart, ImagesLoad};

/// A loaded image has its program's code, its globals and its stack as linear code takes them; and
/// it is loaded.
pub fn starts()
    ensures memory { ImagesStart }
    ensures loads { ImagesLoad }
{}
