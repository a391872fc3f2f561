//! Names of vectored handlers, as arguments.

ghost use Rattle.std.specs.Prelude.{◌≡◌, ◌+◌, length, nat_eq, option_map};
ghost use Rattle.c_operations.specs.declared.built_in.BuiltIn.TheVariants as built_ins;
ghost use Rattle.c_resolved.specs.Expressions as definitions;
ghost use Rattle.c_resolved.specs.Program.{parameter_types};
ghost use Rattle.c_syntax.specs.Expression.{expression, start};
ghost use Rattle.c_expressions.specs.Handlers.{naming_with, naming_of, naming_call, handler_at};
ghost use Rattle.c_expressions.specs.Handlers.{AddsMissing};
ghost use Rattle.c_expressions.specs.Kept.{AddsFaults};
ghost use Rattle.c_expressions.specs.Views.{entity, names_of};
ghost use Rattle.c_types.specs.Views.{FindsTyped};

use crate::calls::built_in_call;
use crate::context::{Context, named};
use crate::least::LeastFault;
use crate::scopes::Entity;
use crate::wanted::Wanted;
use c_checked::expression::Expr as Checked;
use c_operations::built_in::BuiltIn;
use c_resolved::fault::Fault;
use c_syntax::declaration::Parameter;
use c_syntax::expression::{Base, CType, Expr, Identifier};
use c_types::typed::TypedNode;
use c_types::types::{plain, same_type};

/// A call that names a vectored handler, if it breaks no rule.
#[derive(Drop)]
pub struct NamingCall {
    /// The number of the function that is the handler.
    pub function: u64,
    /// The arguments before the name.
    pub arguments: Vec<Checked>,
}

/// Whether there is one argument more than are wanted as values.
pub fn has_one_more(wants: &[Wanted], given: &[Expr]) -> bool
    ensures { result ≡ nat_eq (length wants.now + 1) (length given.now) }
{
    wants.len() + 1 == given.len()
}

/// The name that an argument is, parentheses aside.
pub fn name_of(e: &Expr) -> Option<Identifier>
    ensures { result ≡ definitions.name_of (expression e.now) }
{
    match e {
        Expr::Variable(name) => Some(*name),
        Expr::Parentheses { inner, .. } => name_of(inner),
        _ => None,
    }
}

/// Whether a function is `int (unsigned code, unsigned flags)`.
fn is_handler_type(returns: CType, parameters: &[Parameter]) -> bool
    ensures { result ≡ definitions.is_handler_type returns (parameter_types parameters.now) }
{
    let unsigned = plain(Base::Unsigned);
    match parameters {
        [code, flags] => {
            same_type(returns, plain(Base::Int))
                && same_type(code.of, unsigned)
                && same_type(flags.of, unsigned)
        }
        _ => false,
    }
}

/// A function as a vectored handler, if its type is that of one.
fn handler_if(faults: &mut LeastFault, at: u64, function: u64, fits: bool) -> Option<u64>
    ensures found { result ≡ (definitions.handler_if at function fits).found }
    ensures faults { AddsFaults faults.old faults.new
        (definitions.handler_if at function fits).faults }
{
    if fits {
        return Some(function);
    }
    faults.add(at, Fault::TypeClash);
    None
}

/// The vectored handler that a name with this meaning is.
fn handler_named(
    faults: &mut LeastFault,
    at: u64,
    name_at: u64,
    meaning: Option<Entity<'_>>,
) -> Option<u64>
    ensures found { result ≡
        (definitions.handler_named at name_at (option_map entity meaning.entry)).found }
    ensures faults { AddsFaults faults.old faults.new
        (definitions.handler_named at name_at (option_map entity meaning.entry)).faults }
{
    match meaning {
        Some(
            Entity::UserFunction {
                number,
                returns,
                parameters,
            },
        ) => handler_if(faults, at, number, is_handler_type(returns, parameters)),
        Some(Entity::BuiltInFunction(_))
        | Some(Entity::CodeFunction)
        | Some(Entity::AbnormalFunction)
        | Some(Entity::AddingFunction)
        | Some(Entity::RemovingFunction) => handler_if(faults, at, 0, false),
        _ => {
            faults.add(name_at, Fault::UnknownName);
            None
        }
    }
}

/// The vectored handler that an argument's name is.
pub fn handler_at(
    context: &Context<'_, '_>,
    faults: &mut LeastFault,
    at: u64,
    name: Identifier,
) -> Option<u64>
    ensures found { result ≡ (handler_at context.now at name).found }
    ensures faults { AddsFaults faults.old faults.new (handler_at context.now at name).faults }
{
    handler_named(faults, at, name.start, named(context, name))
}

/// An argument that is no name breaks that rule, where it holds no other fault.
pub fn no_handler(faults: &mut LeastFault, at: u64, found: Option<TypedNode>)
    ensures { AddsMissing faults.old faults.new at found }
{
    if let Some(a) = found {
        drop(a);
        faults.add(at, Fault::TypeClash);
    }
}

/// A handler, and the arguments before its name, if all are good.
pub fn naming(passed: Option<Vec<Checked>>, handler: Option<u64>) -> Option<NamingCall>
    ensures { naming_of result ≡ naming_with passed handler }
{
    match passed {
        None => None,
        Some(arguments) => match handler {
            None => {
                drop(arguments);
                None
            }
            Some(function) => Some(NamingCall {
                function,
                arguments,
            }),
        },
    }
}

/// A call of `AddVectoredExceptionHandler`, if its arguments are good.
pub fn adding_call(naming: Option<NamingCall>) -> Option<TypedNode>
    ensures { FindsTyped result (naming_call (λ f. built_ins.AddVectored f) naming) }
{
    match naming {
        Some(n) => built_in_call(BuiltIn::AddVectored(n.function), Some(n.arguments)),
        None => None,
    }
}

/// A call of `RemoveVectoredExceptionHandler`, if its argument is good.
pub fn removing_call(naming: Option<NamingCall>) -> Option<TypedNode>
    ensures { FindsTyped result (naming_call (λ f. built_ins.RemoveVectored f) naming) }
{
    match naming {
        Some(n) => built_in_call(BuiltIn::RemoveVectored(n.function), Some(n.arguments)),
        None => None,
    }
}
