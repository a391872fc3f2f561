//! Values of expressions in statements.

ghost use Rattle.std.specs.Prelude.{◌≡◌};
ghost use Rattle.c_checked.specs.Expression.{expression};
ghost use Rattle.c_resolved.specs.Statements as definitions;
ghost use Rattle.c_resolved.specs.Statements.{unless_holds};
ghost use Rattle.c_expressions.specs.Kept.{AddsFaults};
ghost use Rattle.c_expressions.specs.Values.{Values};

use crate::least::LeastFault;
use c_checked::expression::{Conversion, Expr, Node};
use c_operations::operation::Size;
use c_resolved::fault::Fault;
use c_syntax::expression::{Base, CType};
use c_types::typed::{TypedNode, as_is, as_type, can_become};
use c_types::types::{is_integer, is_scalar, plain};

/// A fault, unless a rule holds.
pub fn unless_holds(faults: &mut LeastFault, holds: bool, at: u64, fault: Fault)
    ensures { AddsFaults faults.old faults.new (unless_holds holds at fault) }
{
    if !holds {
        faults.add(at, fault);
    }
}

/// A value where there is a fault: it means nothing.
fn nothing() -> Expr
    ensures { expression result ≡ definitions.nothing }
{
    Expr {
        node: Node::Constant {
            size: Size::Int,
            value: 0,
        },
        conversion: Conversion::Kept,
    }
}

/// Any value, or none.
pub fn any(faults: &mut LeastFault, found: Option<TypedNode>) -> Expr
    ensures { Values faults.old faults.new found result definitions.any }
{
    match found {
        Some(a) => as_is(a),
        None => nothing(),
    }
}

/// An integer or a pointer, else a fault at the keyword.
pub fn condition(faults: &mut LeastFault, at: u64, found: Option<TypedNode>) -> Expr
    ensures { Values faults.old faults.new found result (definitions.condition at) }
{
    match found {
        Some(a) => {
            unless_holds(faults, is_scalar(a.of), at, Fault::TypeClash);
            as_is(a)
        }
        None => nothing(),
    }
}

/// Converted to a type, else a fault at its first token.
pub fn to_type(faults: &mut LeastFault, t: CType, at: u64, found: Option<TypedNode>) -> Expr
    ensures { Values faults.old faults.new found result (definitions.to_type t at) }
{
    match found {
        Some(a) => {
            unless_holds(faults, can_become(t, &a), at, Fault::TypeClash);
            as_type(t, a)
        }
        None => nothing(),
    }
}

/// An integer, converted to int: the answer of a filter.
pub fn to_answer(faults: &mut LeastFault, at: u64, found: Option<TypedNode>) -> Expr
    ensures { Values faults.old faults.new found result (definitions.to_answer at) }
{
    match found {
        Some(a) => {
            unless_holds(faults, is_integer(a.of), at, Fault::TypeClash);
            as_type(plain(Base::Int), a)
        }
        None => nothing(),
    }
}
