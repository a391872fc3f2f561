//! What holds of each list of tokens.

ghost use Rattle.c_parse.specs.Laws.{ProgramOrFault};

/// No tokens are neither a program within the limits nor have a first fault.
pub fn laws()
    ensures { ProgramOrFault }
{}
