//! Operators and operands by the C standard's rules (C11, 6.4.4 and 6.5).

use crate::rows::{Reader, all_as_wanted};
use c_lex::token::Token;
use c_parse_atom::information::information;
use c_parse_atom::operands::{integer, literal, name};
use c_parse_atom::operators::{assignment_of, binary_of, follows, increment_of, level, unary_of};
use c_parse_type::front::punctuator;
use std::alloc::{AllocError, Global};

/// The binary operator that the first punctuator is, and its level.
pub fn binary_operator_of(alloc: Global, tokens: &[Token]) -> Result<String, AllocError> {
    if let Some((found, _, _)) = punctuator(tokens) {
        if let Some(operator) = binary_of(found) {
            return format!(in alloc; "{operator:?} {}", level(operator));
        }
    }
    String::from_str(alloc, "no binary operator")
}

/// What the first punctuator is before `=`, before an operand, and beside one.
pub fn operator_of(alloc: Global, tokens: &[Token]) -> Result<String, AllocError> {
    let Some((found, _, _)) = punctuator(tokens) else {
        return String::from_str(alloc, "no punctuator");
    };
    let assignment = assignment_of(found);
    let unary = unary_of(found);
    let increment = increment_of(found);
    format!(in alloc; "{assignment:?} {unary:?} {increment:?}")
}

/// The operand at the front: what it is, whether it is an integer, and the level of the operator
/// after it.
pub fn operand_of(alloc: Global, tokens: &[Token]) -> Result<String, AllocError> {
    let is_integer = integer(tokens).is_some();
    if let Some((found, at, rest)) = literal(tokens) {
        return format!(in alloc; "{found:?} {at} {is_integer} {}", follows(rest));
    }
    match name(tokens) {
        Some((found, rest)) => { format!(in alloc; "{found:?} {is_integer} {}", follows(rest)) }
        None => String::from_str(alloc, "no operand"),
    }
}

/// The field that a text names: its place, and how many tokens follow.
pub fn information_of(alloc: Global, text: &[u8], tokens: &[Token]) -> Result<String, AllocError> {
    match information(text, tokens) {
        Some((at, field, rest)) => { format!(in alloc; "{field:?} {at} {}", rest.len()) }
        None => String::from_str(alloc, "no field"),
    }
}

/// Binary operators by the lines of the grammar, from multiplication, 4, on.
const BINARY: &str = r"
% => Arithmetic(Remainder) 4
>> => Arithmetic(ShiftRight) 6
<= => Comparison(LessEqual) 7
!= => Comparison(NotEqual) 8
|| => LogicalOr 13
";

/// Operators of assignments, and of one operand before and beside it.
const OPERATORS: &str = r"
^= => Some(Some(ExclusiveOr)) None None
= => Some(None) None None
* => None Some(Indirection) None
-- => None None Some(Decrement)
";

/// A text from each of its operands on. No expression continues with an operand, 17, and one does
/// with a comma, 16.
const OPERANDS: &str = r"
7u x '\xff' , => Integer { value: 7, of: Unsigned } 0 true 17
   x '\xff' , => Identifier { start: 3, end: 4 } false 17
     '\xff' , => CharacterConstant(-1) 5 false 16
            , => no operand
";

/// Fields of the exception's record (Microsoft C reference, "GetExceptionInformation").
const FIELDS: &str = r"
GetExceptionInformation()->ExceptionRecord->ExceptionCode => Code 0 0
GetExceptionInformation()->ExceptionRecord->ExceptionInformation[1] => Information { index: 1, at: 65 } 0 0
GetExceptionInformation()->ExceptionRecord->ExceptionAddress => no field
GetExceptionInformation()->Context->ExceptionFlags => no field
";

#[test]
fn atoms_are_operators_and_operands(rt: HostRuntime) {
    all_as_wanted(&rt, rt.alloc(), Reader::Binary, &[BINARY]);
    all_as_wanted(&rt, rt.alloc(), Reader::Operator, &[OPERATORS]);
    all_as_wanted(&rt, rt.alloc(), Reader::Operand, &[OPERANDS]);
    all_as_wanted(&rt, rt.alloc(), Reader::Information, &[FIELDS]);
}
