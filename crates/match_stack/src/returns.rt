//! What holds at the return addresses of filters and vectored handlers.

ghost use Rattle.match_stack.specs.FilterReturns.{FilterReturns};
ghost use Rattle.match_stack.specs.VectoredReturns.{VectoredReturns};

/// At the return address of a filter the host shows the answer, and does what linear code does with
/// the same answer: 0 asks the next handler, above 0 the asked one takes over, below 0 the
/// exception is continued in the saved state, or where it is noncontinuable C0000025 is raised.
pub fn filters()
    ensures { FilterReturns }
{}

/// At the return address of a vectored handler the host does what linear code does with the same
/// answer: below 0 the exception is continued in the saved state, or where it is noncontinuable
/// C0000025 is raised; any other asks the handler at the next place of the list as it stands.
pub fn handlers()
    ensures { VectoredReturns }
{}
