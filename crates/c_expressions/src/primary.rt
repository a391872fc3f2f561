//! Expressions without operands: literals, names and fields of the exception's record.

ghost use Rattle.std.specs.Prelude.{◌≡◌, IfOk, OnOk, option_map};
ghost use Rattle.c_resolved.specs.Expressions as definitions;
ghost use Rattle.c_resolved.specs.Expressions.{name};
ghost use Rattle.c_expressions.specs.Kept.{AddsFaults};
ghost use Rattle.c_expressions.specs.Views.{entity, names_of};
ghost use Rattle.c_operations.specs.Numbers.{width};
ghost use Rattle.c_syntax.specs.Expression as trees;
ghost use Rattle.seh_num.specs.Widths.{low};
ghost use Rattle.c_types.specs.Views.{typed_node, FindsTyped};

use crate::context::Context;
use crate::least::LeastFault;
use crate::scopes::Entity;
use c_checked::expression::{Lvalue, Node};
use c_lex::token::IntegerType;
use c_operations::field::Field as Read;
use c_operations::operation::Size;
use c_resolved::fault::Fault;
use c_syntax::expression::{Base, CType, Field, Literal};
use c_types::nodes::read;
use c_types::typed::{TypedNode, typed};
use c_types::types::{access_of, plain, pointer_to, size_of};
use seh_num::extension::wrap;
use seh_num::size::EXCEPTION_MAXIMUM_PARAMETERS;
use seh_num::width::Width;
use std::alloc::AllocError;

/// The low bits of a number.
fn low(size: Size, value: u64) -> u64
    ensures { result ≡ low (width size) value }
{
    match size {
        Size::Int => value % (1 << 32),
        Size::Long => value,
    }
}

/// A constant of a type.
fn constant(of: CType, value: u64) -> TypedNode
    ensures { typed_node result ≡ definitions.constant of value }
{
    let size = size_of(of);
    let value = low(size, value);
    typed(of, Node::Constant { size, value })
}

/// The type of an integer literal.
fn integer_base(of: IntegerType) -> Base
    ensures { result ≡ definitions.integer_base of }
{
    match of {
        IntegerType::Int => Base::Int,
        IntegerType::Unsigned => Base::Unsigned,
        IntegerType::LongLong => Base::LongLong,
        IntegerType::UnsignedLongLong => Base::UnsignedLongLong,
    }
}

/// A literal.
pub fn literal(of: Literal) -> TypedNode
    ensures { typed_node result ≡ definitions.literal of }
{
    match of {
        Literal::Integer { value, of } => {
            let made = constant(plain(integer_base(of)), value);
            TypedNode {
                of: made.of,
                node: made.node,
                zero: value == 0,
            }
        }
        Literal::CharacterConstant(value) => constant(
            plain(Base::Int),
            wrap(Width::W32, i128::from(value)),
        ),
    }
}

/// A name that isn't called.
pub fn name(
    faults: &mut LeastFault,
    at: u64,
    meaning: Option<Entity<'_>>,
) -> Result<Option<TypedNode>, AllocError>
    ensures found { IfOk result (λ r. FindsTyped r
        (name at (option_map entity meaning.entry)).found) }
    ensures faults { OnOk result (AddsFaults faults.old faults.new
        (name at (option_map entity meaning.entry)).faults) }
{
    match meaning {
        Some(Entity::LocalVariable { number, of }) => Ok(Some(typed(
            of,
            read(Lvalue::Local(number)),
        ))),
        Some(Entity::LocalArray { number, of }) => Ok(Some(typed(
            pointer_to(of)?,
            Node::StackedArray {
                base: number,
                offset: 0,
            },
        ))),
        Some(Entity::GlobalVariable { address, of }) => {
            let access = access_of(of);
            Ok(Some(typed(of, read(Lvalue::Global { access, address }))))
        }
        Some(Entity::GlobalArray { address, of }) => Ok(Some(constant(pointer_to(of)?, address))),
        Some(Entity::BuiltInConstant(value)) => Ok(Some(constant(plain(Base::Int), value))),
        _ => {
            faults.add(at, Fault::UnknownName);
            Ok(None)
        }
    }
}

/// The index of the last parameter that an exception may have.
const LAST_INFORMATION: u64 = EXCEPTION_MAXIMUM_PARAMETERS as u64 - 1;

/// A field of the exception's record.
fn field(faults: &mut LeastFault, of: Field) -> Option<TypedNode>
    ensures found { FindsTyped result (definitions.field of).found }
    ensures faults { AddsFaults faults.old faults.new (definitions.field of).faults }
{
    let unsigned = plain(Base::Unsigned);
    match of {
        Field::Code => Some(typed(unsigned, Node::Information(Read::ExceptionCode))),
        Field::Flags => Some(typed(unsigned, Node::Information(Read::ExceptionFlags))),
        Field::Count => Some(typed(unsigned, Node::Information(Read::NumberParameters))),
        Field::Information { index, at } => {
            if LAST_INFORMATION < index {
                faults.add(at, Fault::TypeClash);
                return None;
            }
            let read = Node::Information(Read::ExceptionInformation(index));
            Some(typed(plain(Base::UnsignedLongLong), read))
        }
    }
}

/// `GetExceptionInformation()->ExceptionRecord->field`
pub fn information(
    context: &Context<'_, '_>,
    faults: &mut LeastFault,
    at: u64,
    of: Field,
) -> Option<TypedNode>
    ensures found { FindsTyped result
        (definitions.resolve_expression (names_of context.now) (trees.Information at of)).found }
    ensures faults { AddsFaults faults.old faults.new
        (definitions.resolve_expression (names_of context.now) (trees.Information at of)).faults }
{
    if context.information {
        return field(faults, of);
    }
    faults.add(at, Fault::InfoOutsideFilter);
    None
}
