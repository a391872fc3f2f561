//! Laws of the room that the linear code of a program takes.

ghost use Rattle.text_bounds.specs.RoomLaws.{LoweredIsBounded};

/// The code and the tables of a sound program take no more than the room of its functions, by their
/// expressions and statements, 576 bytes for each function and each filter or `__finally` block,
/// and 1,182 for each function. These are for its part of the data stack, and for the separator
/// more of one that can be a vectored handler.
pub fn laws()
    ensures bounded { LoweredIsBounded }
{}
