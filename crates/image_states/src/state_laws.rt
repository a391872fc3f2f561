//! What the image of a linked program is to the machine.

ghost use Rattle.image_states.specs.StateLaws.{ImagesArePrograms, LeavesCallNothing, FunctionsApart};

/// The image of a program has the code of its bodies where its plan says, and each body has its
/// entry, whose scope records are the body's regions.
pub fn images()
    ensures { ImagesArePrograms }
{}

/// A function that the plan has as a leaf function calls nothing.
pub fn leaves()
    ensures { LeavesCallNothing }
{}

/// A function with code begins at no funclet's begin.
pub fn functions()
    ensures { FunctionsApart }
{}
