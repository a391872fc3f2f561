//! Nodes of checked expressions from their parts.

ghost use Rattle.std.specs.Prelude.{◌≡◌, IfOk, map, option_map};
ghost use Rattle.c_checked.specs.Expression as nodes;
ghost use Rattle.c_checked.specs.Expression.{expression};
ghost use Rattle.c_resolved.specs.Operators as operators;
ghost use Rattle.c_types.specs.Views.{lvalue};
ghost use Rattle.c_checked.specs.declared.expression.Conversion.TheVariants.{Kept};

use c_checked::expression::{Access, Conversion, Expr, Fixity, Lvalue, Node};
use c_operations::operation::{Operation, Pure};
use std::alloc::{AllocError, Global};

/// Two operands, each in a box of its own.
fn boxed(alloc: Global, left: Expr, right: Expr) -> Result<(Box<Expr>, Box<Expr>), AllocError>
    ensures left { IfOk result (λ boxes. boxes.0.value ≡ left) }
    ensures right { IfOk result (λ boxes. boxes.1.value ≡ right) }
{
    match Box::new(alloc, left) {
        Ok(left) => {
            let right = Box::new(alloc, right)?;
            Ok((left, right))
        }
        Err(failed) => {
            drop(right);
            Err(AllocError::from(failed))
        }
    }
}

/// An operation on two operands.
pub fn binary(
    alloc: Global,
    operation: Operation,
    left: Expr,
    right: Expr,
) -> Result<Node, AllocError>
    ensures { IfOk result (λ n. nodes.node n ≡
        nodes.Binary operation (expression left) (expression right)) }
{
    let (left, right) = boxed(alloc, left, right)?;
    Ok(Node::Binary {
        operation,
        left,
        right,
    })
}

/// The difference of pointers to what has this size.
pub fn pointer_difference(
    alloc: Global,
    size: u64,
    left: Expr,
    right: Expr,
) -> Result<Node, AllocError>
    ensures { IfOk result (λ n. nodes.node n ≡
        nodes.PointerDifference size (expression left) (expression right)) }
{
    let (left, right) = boxed(alloc, left, right)?;
    Ok(Node::PointerDifference { size, left, right })
}

/// `left && right`
pub fn and(alloc: Global, left: Expr, right: Expr) -> Result<Node, AllocError>
    ensures { IfOk result (λ n. nodes.node n ≡ nodes.And (expression left) (expression right)) }
{
    let (left, right) = boxed(alloc, left, right)?;
    Ok(Node::And(left, right))
}

/// `left || right`
pub fn or(alloc: Global, left: Expr, right: Expr) -> Result<Node, AllocError>
    ensures { IfOk result (λ n. nodes.node n ≡ nodes.Or (expression left) (expression right)) }
{
    let (left, right) = boxed(alloc, left, right)?;
    Ok(Node::Or(left, right))
}

/// `left, right`
pub fn comma(alloc: Global, left: Expr, right: Expr) -> Result<Node, AllocError>
    ensures { IfOk result (λ n. nodes.node n ≡ nodes.Comma (expression left) (expression right)) }
{
    let (left, right) = boxed(alloc, left, right)?;
    Ok(Node::Comma(left, right))
}

/// `-`, `~`, and by `First` unary `+` and casts.
pub fn unary(alloc: Global, operation: Pure, operand: Expr) -> Result<Node, AllocError>
    ensures { IfOk result (λ n. nodes.node n ≡ nodes.Unary operation (expression operand)) }
{
    let operand = Box::new(alloc, operand)?;
    Ok(Node::Unary { operation, operand })
}

/// `!operand`
pub fn not(alloc: Global, operand: Expr) -> Result<Node, AllocError>
    ensures { IfOk result (λ n. nodes.node n ≡ nodes.Not (expression operand)) }
{
    let operand = Box::new(alloc, operand)?;
    Ok(Node::Not(operand))
}

/// `condition ? yes : no`
pub fn conditional(alloc: Global, condition: Expr, yes: Expr, no: Expr) -> Result<Node, AllocError>
    ensures { IfOk result (λ n. nodes.node n ≡
        nodes.Conditional (expression condition) (expression yes) (expression no)) }
{
    match boxed(alloc, yes, no) {
        Ok((yes, no)) => {
            let condition = Box::new(alloc, condition)?;
            Ok(Node::Conditional { condition, yes, no })
        }
        Err(failed) => {
            drop(condition);
            Err(failed)
        }
    }
}

/// `target = value`
pub fn assign(alloc: Global, target: Lvalue, value: Expr) -> Result<Node, AllocError>
    ensures { IfOk result (λ n. nodes.node n ≡ nodes.Assign (lvalue target) (expression value)) }
{
    match Box::new(alloc, value) {
        Ok(value) => Ok(Node::Assign { target, value }),
        Err(failed) => {
            drop(target);
            Err(AllocError::from(failed))
        }
    }
}

/// `target operation= value`
pub fn compound_assign(
    alloc: Global,
    target: Lvalue,
    before: Conversion,
    operation: Operation,
    value: Expr,
    after: Conversion,
) -> Result<Node, AllocError>
    ensures { IfOk result (λ n. nodes.node n ≡
        nodes.CompoundAssign (lvalue target) before operation (expression value) after) }
{
    match Box::new(alloc, value) {
        Ok(value) => Ok(Node::CompoundAssign {
            target,
            before,
            operation,
            value,
            after,
        }),
        Err(failed) => {
            drop(target);
            Err(AllocError::from(failed))
        }
    }
}

/// `++` and `--` by an amount.
pub fn increment(
    fixity: Fixity,
    target: Lvalue,
    operation: Operation,
    amount: u64,
    after: Conversion,
) -> Node
    ensures { nodes.node result ≡
        nodes.Increment fixity (lvalue target) Kept operation amount after }
{
    Node::Increment {
        fixity,
        target,
        before: Conversion::Kept,
        operation,
        amount,
        after,
    }
}

/// What an lvalue holds.
pub fn read(of: Lvalue) -> Node
    ensures { nodes.node result ≡ nodes.Read (lvalue of) }
{
    Node::Read(of)
}

/// The address of an lvalue.
pub fn address_of(of: Lvalue) -> Node
    ensures { nodes.node result ≡ nodes.AddressOf (lvalue of) }
{
    Node::AddressOf(of)
}

/// `*pointer`
pub fn indirection(alloc: Global, access: Access, pointer: Expr) -> Result<Node, AllocError>
    ensures { IfOk result (λ n. nodes.node n ≡
        nodes.Read (nodes.Indirection access (expression pointer))) }
{
    let pointer = Box::new(alloc, pointer)?;
    Ok(Node::Read(Lvalue::Indirection { access, pointer }))
}

/// `array[index]`
pub fn element(alloc: Global, access: Access, array: Expr, index: Expr) -> Result<Node, AllocError>
    ensures { IfOk result (λ n. nodes.node n ≡
        nodes.Read (nodes.Element access (expression array) (expression index))) }
{
    let (array, index) = boxed(alloc, array, index)?;
    Ok(Node::Read(Lvalue::Element {
        access,
        array,
        index,
    }))
}

/// The lvalue that a node reads, if it is one.
pub fn lvalue_of(of: Node) -> Option<Lvalue>
    ensures { option_map lvalue result ≡ operators.lvalue_of (nodes.node of) }
{
    match of {
        Node::Read(found) => Some(found),
        other => {
            drop(other);
            None
        }
    }
}
