//! The frames of checked programs' images.

ghost use Rattle.image_runs.specs.FrameCallers.{LoweredFindsCallers};

/// At every instruction of a checked program's image the walk finds the caller: in functions and
/// funclets, prologues, epilogues and cold parts included, in leaf functions, thunks, the stubs of
/// vectored handlers and `__chkstk`.
pub fn laws()
    ensures callers { LoweredFindsCallers }
{}
