//! Expressions with their types.

ghost use Rattle.std.specs.Prelude.{◌≡◌, None};
ghost use Rattle.c_checked.specs.Expression as nodes;
ghost use Rattle.c_checked.specs.Expression.{expression};
ghost use Rattle.c_resolved.specs.Operators.{typed, as_is, as_type, as_index, can_become};
ghost use Rattle.c_types.specs.Views.{typed_node};

use crate::types::{
    bytes_in, conversion, is_integer, is_pointer, is_void_pointer, pointed, same_type, scaled,
};
use c_checked::expression::{Conversion, Expr, Node};
use c_syntax::expression::CType;

/// An expression that breaks no rule: its type, its node, and whether it is a literal 0.
#[derive(Drop)]
pub struct TypedNode {
    /// Its type, before any conversion.
    pub of: CType,
    /// What computes its value.
    pub node: Node,
    /// Whether it is a literal 0, which is a null pointer too (C11, 6.3.2.3 p3).
    pub zero: bool,
}

/// An expression of a type that is no literal 0.
pub fn typed(of: CType, made: Node) -> TypedNode
    ensures { typed_node result ≡ typed of (nodes.node made) }
{
    TypedNode {
        of,
        node: made,
        zero: false,
    }
}

/// Nothing, since the operand breaks its operator's rule.
pub fn refuse(a: TypedNode) -> Option<TypedNode>
    ensures { result ≡ None }
{
    drop(a);
    None
}

/// Nothing, since the operands break their operator's rule.
pub fn refuse_both(a: TypedNode, b: TypedNode) -> Option<TypedNode>
    ensures { result ≡ None }
{
    drop(a);
    refuse(b)
}

/// The value as it is.
pub fn as_is(a: TypedNode) -> Expr
    ensures { expression result ≡ as_is (typed_node a) }
{
    Expr {
        node: a.node,
        conversion: Conversion::Kept,
    }
}

/// The value as one of a type.
pub fn as_type(t: CType, a: TypedNode) -> Expr
    ensures { expression result ≡ as_type t (typed_node a) }
{
    let conversion = conversion(a.of, t);
    Expr {
        node: a.node,
        conversion,
    }
}

/// The value as an index of what a pointer of a type points to.
pub fn as_index(p: CType, a: TypedNode) -> Expr
    ensures { expression result ≡ as_index p (typed_node a) }
{
    let conversion = scaled(a.of, bytes_in(pointed(p)));
    Expr {
        node: a.node,
        conversion,
    }
}

/// Whether the value is converted to a type without a cast: an integer to an integer, a literal 0
/// to a pointer, a pointer to one of an equal type, and one to void to and from every pointer.
pub fn can_become(t: CType, a: &TypedNode) -> bool
    ensures { result ≡ can_become t (typed_node a.now) }
{
    (is_integer(a.of) && is_integer(t))
        || (is_pointer(t) && a.zero)
        || (is_pointer(a.of)
            && is_pointer(t)
            && (same_type(a.of, t) || is_void_pointer(a.of) || is_void_pointer(t)))
}
