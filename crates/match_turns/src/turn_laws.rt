//! Laws of the turns in which the host dispatches, against the steps of linear code.

ghost use Rattle.match_turns.specs.TurnLaws.{FilterAnswersAreMatched, FinallyReturnsAreMatched, RaisesAreShown, LocalUnwindsAreShown};

/// Where the machine comes to the host's return address of filters, or of `__finally` blocks, the
/// step of linear code that ends the filter or the block is matched: another filter or block
/// begins, a handler takes over, the exception is continued or raised anew, or the run ends
/// unhandled. Where a body asks for a raise or a local unwind, the host's turn shows what linear
/// code shows and leads to what it leads to.
pub fn laws()
    ensures filters { FilterAnswersAreMatched }
    ensures blocks { FinallyReturnsAreMatched }
    ensures raises { RaisesAreShown }
    ensures unwinds { LocalUnwindsAreShown }
{}
