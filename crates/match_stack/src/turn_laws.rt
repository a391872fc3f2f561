//! What holds of every turn that asks, searches or unwinds.

ghost use Rattle.match_stack.specs.AskLaws.{AskTurns};
ghost use Rattle.match_stack.specs.TurnLaws.{SearchTurns, UnwindTurns};

/// Where the host continues with a search, at its record, it does what linear code does: the next
/// filter begins, with the suspended search below it, and the same event is shown; or a handler
/// takes over at once, whose frame and landing place are those of linear code's; or nobody takes
/// over, and the run ends with the same exception. Where it continues with an unwinding, the same
/// `__finally` block begins, with the suspended unwinding below it, and the same event is shown; or
/// it lands in the same body, at the address of linear code's label, with the exception's code in
/// RAX. Where it asks the vectored handlers from a place of their list on, the one there is called
/// with the record's EXCEPTION_POINTERS, or past the list's end the search begins.
pub fn laws()
    ensures asks { AskTurns }
    ensures searches { SearchTurns }
    ensures unwindings { UnwindTurns }
{}
