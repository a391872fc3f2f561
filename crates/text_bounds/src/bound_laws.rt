//! What the limits of a text say of the image of its program.

ghost use Rattle.text_bounds.specs.BoundLaws.{CodeIsBounded, AcceptedFits, TextsFit};

/// The code of a text takes at most 237 bytes for each of its nodes; and where those, and the bytes
/// of its functions' names, which have no 0, are at most 2 to the 20, as of every text of at most
/// 1 MiB, the linear code of an accepted text is within the limits of what can be linked, into an
/// image of at most 256 MiB.
pub fn laws()
    ensures bounded { CodeIsBounded }
    ensures fits { AcceptedFits }
    ensures texts { TextsFit }
{}
