//! What holds of every operator.

ghost use Rattle.c_parse_atom.specs.Laws.{PunctuatorsAgain, NoOtherPunctuators};

/// Each operator is read from its punctuator, and from no other.
pub fn laws()
    ensures punctuators { PunctuatorsAgain }
    ensures no_other { NoOtherPunctuators }
{}
