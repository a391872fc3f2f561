//! What holds of every list of vectored handlers.

ghost use Rattle.vectored_list.specs.Laws.{AddingStaysProper, RemovingStaysProper, RemovedIsGone};

/// A list that has each handler once, and at most 16, stays so; a handler that was taken out isn't
/// in it any more.
pub fn laws()
    ensures adding { AddingStaysProper }
    ensures removing { RemovingStaysProper }
    ensures gone { RemovedIsGone }
{}
