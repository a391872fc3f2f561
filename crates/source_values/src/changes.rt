//! Expressions that change one place, after all that they evaluate.

ghost use Rattle.std.specs.Prelude.{◌≡◌, option_map};
ghost use Rattle.c_checked.specs.Expression as tree;
ghost use Rattle.source_meaning.specs.Expressions as model;
ghost use Rattle.source_values.specs.Direct as spec;
ghost use Rattle.source_values.specs.Surrounding.{surroundings_of, change_of};

use crate::surroundings::Surroundings;
use crate::values::{address, read, value};
use c_checked::expression::{Conversion, Expr, Fixity, Lvalue, Node};
use c_operations::operation::Operation;
use source_operations::performing::compute;
use source_plans::values::{converted, incremented_value};

/// What is left of an expression that changes one place: to write a value there.
#[derive(Clone, Copy)]
pub struct Change<'p> {
    /// The place.
    pub target: &'p Lvalue,
    /// Its address; of a local 0.
    pub address: u64,
    /// What is written there.
    pub written: u64,
    /// The expression's value then, without its conversion.
    pub value: u64,
    /// The steps that are left after it.
    pub left: u64,
}

/// For `=`.
fn assignment<'p>(
    around: &Surroundings<'_>,
    target: &'p Lvalue,
    assigned: &Expr,
    left: u64,
) -> Option<Change<'p>>
    ensures { option_map change_of result ≡ spec.change (surroundings_of around.now) (tree.Assign
        (tree.lvalue target.now) (tree.expression assigned.now)) left }
{
    if left == 0 {
        return None;
    }
    let (address, left) = address(around, target, left - 1)?;
    let (written, left) = value(around, assigned, left)?;
    Some(Change {
        target,
        address,
        written,
        value: written,
        left,
    })
}

/// A place's address, what is there, and the steps that are left after both.
fn fetched(around: &Surroundings<'_>, target: &Lvalue, left: u64) -> Option<((u64, u64), u64)>
    ensures { result ≡ spec.fetched (surroundings_of around.now) (tree.lvalue target.now) left }
{
    if left == 0 {
        return None;
    }
    let (address, left) = address(around, target, left - 1)?;
    let old = read(around, target, address)?;
    Some(((address, old), left))
}

/// For `op=`.
fn compound(
    around: &Surroundings<'_>,
    operation: Operation,
    before: Conversion,
    old: u64,
    operand: &Expr,
    left: u64,
) -> Option<(u64, u64)>
    ensures { result ≡ spec.operated (surroundings_of around.now) operation
        (spec.value (surroundings_of around.now) (tree.expression operand.now) left)
        (model.converted before old) }
{
    let (second, left) = value(around, operand, left)?;
    let first = converted(before, old);
    let new = compute(around.memory, around.data_end, operation, first, second)?;
    Some((new, left))
}

/// For an expression that changes one place: what is left of it, after so many steps. None for
/// another, and where an operand has to wait.
pub fn pending_change<'p>(
    around: &Surroundings<'_>,
    node: &'p Node,
    left: u64,
) -> Option<Change<'p>>
    ensures { option_map change_of result ≡
        spec.change (surroundings_of around.now) (tree.node node.now) left }
{
    match node {
        Node::Assign { target, value } => assignment(around, target, value, left),
        Node::CompoundAssign {
            target,
            before,
            operation,
            value,
            after,
        } => {
            let ((address, old), left) = fetched(around, target, left)?;
            let (number, left) = compound(around, *operation, *before, old, value, left)?;
            let written = converted(*after, number);
            Some(Change {
                target,
                address,
                written,
                value: written,
                left,
            })
        }
        Node::Increment {
            fixity,
            target,
            before,
            operation,
            amount,
            after,
        } => {
            let ((address, old), left) = fetched(around, target, left)?;
            let first = converted(*before, old);
            let number = compute(around.memory, around.data_end, *operation, first, *amount)?;
            let written = converted(*after, number);
            Some(Change {
                target,
                address,
                written,
                value: incremented_value(*fixity, old, written),
                left,
            })
        }
        _ => None,
    }
}
