//! What holds where a search or an unwinding begins, and where it continues.

ghost use Rattle.match_stack.specs.DispatchSteps.{RaiseAsks, LocalUnwindUnwinds, AcceptanceUnwinds, AnswersContinue, FinallyReturnsUnwind};

/// A raise, by a call or by a fault, shows its event and asks the vectored handlers from the first
/// on. A local unwind is an unwinding to a body of the list. A handler that takes over makes its
/// search an unwinding to that handler's frame. After a filter's answer the search continues with
/// the handlers that were left, the asked handler takes over, or C0000025 is raised where the
/// exception was. After a `__finally` block the unwinding continues with the regions that were
/// left. So each is a turn of the laws on asking, searches and unwindings, whatever waits below:
/// nested and collided dispatch too.
pub fn steps()
    ensures raises { RaiseAsks }
    ensures local { LocalUnwindUnwinds }
    ensures accepts { AcceptanceUnwinds }
    ensures answers { AnswersContinue }
    ensures returns { FinallyReturnsUnwind }
{}
