//! Arguments as they are passed, and the nodes of calls.

ghost use Rattle.std.specs.Prelude.{◌≡◌, ◌<◌, [], nat_eq, Some, slice_index_or as get_or, IfOk};
ghost use Rattle.std.specs.Prelude.{length, option_map};
ghost use Rattle.c_checked.specs.Expression as nodes;
ghost use Rattle.c_resolved.specs.Expressions as definitions;
ghost use Rattle.c_resolved.specs.Operators as operators;
ghost use Rattle.c_expressions.specs.Calls.{call_of, expressions_of, passed_first, put_after};
ghost use Rattle.c_expressions.specs.Calls.{AddsBefore, Passes};
ghost use Rattle.c_expressions.specs.Rules.{FindsByRule, Adds, allowed_call};
ghost use Rattle.c_types.specs.Views.{typed_node, FindsTyped};

use crate::least::LeastFault;
use crate::wanted::{Wanted, built_in_result};
use c_checked::expression::{Expr as Checked, Node};
use c_operations::built_in::BuiltIn;
use c_resolved::fault::Fault;
use c_syntax::expression::{Base, CType, Expr};
use c_types::typed::{TypedNode, typed};
use c_types::types::plain;
use std::alloc::{AllocError, Global};

/// An argument as it is passed, if it is what is wanted at its place.
pub fn pass(
    faults: &mut LeastFault,
    want: Wanted,
    e: &Expr,
    found: Option<TypedNode>,
) -> Option<Checked>
    ensures passed { Passes result (passed_first want e.now found) }
    ensures faults { AddsBefore faults.old faults.new (passed_first want e.now found) }
{
    match found {
        None => None,
        Some(a) => {
            if want.fits(&a) {
                return Some(want.passed(a));
            }
            drop(a);
            faults.add(e.start(), Fault::TypeClash);
            None
        }
    }
}

/// No arguments yet.
pub fn no_arguments(alloc: Global) -> Option<Vec<Checked>>
    ensures { expressions_of result ≡ Some [] }
{
    Some(Vec::new(alloc))
}

/// What is wanted at a place.
pub fn want_at(wants: &[Wanted], i: usize) -> Wanted
    requires { i < length wants.now }
    ensures { result ≡ get_or wants.now i result }
{
    wants[i]
}

/// One more argument, if all are good.
pub fn with_one(
    passed: Option<Vec<Checked>>,
    one: Option<Checked>,
) -> Result<Option<Vec<Checked>>, AllocError>
    ensures { IfOk result (λ r. expressions_of r ≡
        put_after (expressions_of passed) (option_map nodes.expression one)) }
{
    match passed {
        None => {
            drop(one);
            Ok(None)
        }
        Some(mut items) => match one {
            None => Ok(None),
            Some(e) => {
                items.push(e)?;
                Ok(Some(items))
            }
        },
    }
}

/// Whether there are as many arguments as are wanted.
pub fn same_count(wants: &[Wanted], given: &[Expr]) -> bool
    ensures { result ≡ nat_eq (length wants.now) (length given.now) }
{
    wants.len() == given.len()
}

/// `GetExceptionCode()`, if its arguments are good.
pub fn code_call(passed: Option<Vec<Checked>>) -> Option<TypedNode>
    ensures { FindsTyped result
        (call_of definitions.unsigned (λ es. nodes.ExceptionCode) passed) }
{
    match passed {
        Some(_) => Some(typed(plain(Base::Unsigned), Node::ExceptionCode)),
        None => None,
    }
}

/// `AbnormalTermination()`, if its arguments are good.
pub fn abnormal_call(passed: Option<Vec<Checked>>) -> Option<TypedNode>
    ensures { FindsTyped result
        (call_of operators.int (λ es. nodes.AbnormalTermination) passed) }
{
    match passed {
        Some(_) => Some(typed(plain(Base::Int), Node::AbnormalTermination)),
        None => None,
    }
}

/// A call of a function of the text, if its arguments are good.
pub fn user_call(function: u64, of: CType, passed: Option<Vec<Checked>>) -> Option<TypedNode>
    ensures { FindsTyped result (call_of of (nodes.Call function) passed) }
{
    match passed {
        Some(arguments) => Some(typed(
            of,
            Node::Call {
                function,
                arguments,
            },
        )),
        None => None,
    }
}

/// A call of a built-in function, if its arguments are good.
pub fn built_in_call(function: BuiltIn, passed: Option<Vec<Checked>>) -> Option<TypedNode>
    ensures { FindsTyped result
        (call_of (definitions.built_in_result function) (nodes.CallBuiltIn function) passed) }
{
    match passed {
        Some(arguments) => Some(typed(
            built_in_result(function),
            Node::CallBuiltIn {
                function,
                arguments,
            },
        )),
        None => None,
    }
}

/// A call that is right in itself, where it has a meaning.
pub fn only_where(
    faults: &mut LeastFault,
    allowed: bool,
    at: u64,
    fault: Fault,
    found: Option<TypedNode>,
) -> Option<TypedNode>
    ensures found { FindsByRule result (λ fs. allowed_call allowed at fault fs
        (option_map typed_node found)) }
    ensures faults { Adds faults.old faults.new
        (λ fs. allowed_call allowed at fault fs (option_map typed_node found)) }
{
    if allowed {
        return found;
    }
    drop(found);
    faults.add(at, fault);
    None
}
