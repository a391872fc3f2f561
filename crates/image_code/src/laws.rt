//! What the code of an image has to do with the image as it is loaded.

ghost use Rattle.image_code.specs.Code.{LoadedCodeIsCode};
ghost use Rattle.image_code.specs.Frames.{YesFindsCallers};

/// An image that was read, whose base is 4 GiB or more below 2^63, has, loaded at its base, the
/// executable bytes of its code.
pub fn loaded_code()
    ensures { LoadedCodeIsCode }
{}

/// Where the verdict on an image is yes, the caller of every frame of its entries is found in the
/// image as it is loaded.
pub fn callers()
    ensures { YesFindsCallers }
{}
