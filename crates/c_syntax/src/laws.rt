//! What holds of every program, and trees of short texts.

ghost use Rattle.c_syntax.specs.Follow.{OneExpression, OneStatement, ExpressionStart};
ghost use Rattle.c_syntax.specs.Programs.{OneProgram};
ghost use Rattle.c_syntax.specs.Viable.{OneFirstFault, NoFaultInProgram};
ghost use Rattle.c_syntax.specs.Rows.{Differences, Product, CastOfElement, Choices, Assignments, TwoArguments, NearestIf, NoOtherIf};

/// A text is one program at most. An expression that no operator continues with has one tree and
/// one end, and so has a statement that no `else` continues with; the start of an expression is
/// that of its first token. Tokens have one first fault at most, of one kind, and those of a
/// program within the limits have none.
pub fn laws()
    ensures one_program { OneProgram }
    ensures one_statement { OneStatement }
    ensures one_expression { OneExpression }
    ensures start { ExpressionStart }
    ensures one_first_fault { OneFirstFault }
    ensures no_fault_in_program { NoFaultInProgram }
{}

/// Binary operators group to the left, `?:` and assignments to the right, casts over their operand;
/// an `else` belongs to the nearest `if`.
pub fn rows()
    ensures differences { Differences }
    ensures product { Product }
    ensures cast_of_element { CastOfElement }
    ensures choices { Choices }
    ensures assignments { Assignments }
    ensures two_arguments { TwoArguments }
    ensures nearest_if { NearestIf }
    ensures no_other_if { NoOtherIf }
{}
