//! What holds of every text.

ghost use Rattle.c_text.specs.Laws.{AcceptedIsNotRefused, AcceptedIsOne};

/// A text that is accepted is refused for want of memory alone: it has no fault of tokens, none of
/// grammar, and its program breaks no rule. It is accepted as one program.
pub fn laws()
    ensures not_refused { AcceptedIsNotRefused }
    ensures one { AcceptedIsOne }
{}
