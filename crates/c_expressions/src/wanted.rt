//! What the arguments of a call have to be.

ghost use Rattle.std.specs.Prelude.{◌≡◌, IfOk, map};
ghost use Rattle.c_resolved.specs.Expressions as definitions;
ghost use Rattle.c_resolved.specs.Expressions.{built_in_wants, built_in_result, fits, passed};
ghost use Rattle.c_resolved.specs.Program.{parameter_types};
ghost use Rattle.c_expressions.specs.declared.wanted.Wanted.TheVariants as wants;
ghost use Rattle.c_expressions.specs.Views.{wanted};
ghost use Rattle.c_checked.specs.Expression.{expression};
ghost use Rattle.c_types.specs.Views.{typed_node};

use c_checked::expression::Expr;
use c_operations::built_in::BuiltIn;
use c_syntax::declaration::Parameter;
use c_syntax::expression::{Base, CType};
use c_types::comparisons::void_pointer;
use c_types::typed::{TypedNode, as_type, can_become};
use c_types::types::plain;
use std::alloc::{AllocError, Global};

/// What an argument has to be.
#[derive(Clone, Copy, Drop)]
pub enum Wanted {
    /// Converted to this type without a cast.
    OfType(CType),
    /// A literal 0.
    ZeroLiteral,
}

/// The types of parameters, each as what is wanted.
fn types_of(alloc: Global, parameters: &[Parameter]) -> Result<Vec<Wanted>, AllocError>
    ensures { IfOk result (λ v. v.items ≡ map (λ p. wants.OfType p.«of») parameters.now) }
{
    parameters
        .iter()
        .map(|p| Wanted::OfType(p.of))
        .collect(alloc)
}

/// What the arguments of a function with these parameters have to be.
pub fn wanted_by(alloc: Global, parameters: &[Parameter]) -> Result<Vec<Wanted>, AllocError>
    ensures { IfOk result (λ v. map wanted v.items ≡ map definitions.OfType
        (parameter_types parameters.now)) }
{
    types_of(alloc, parameters)
}

/// What the arguments of a built-in function have to be.
pub fn built_in_wants(alloc: Global, function: BuiltIn) -> Result<Vec<Wanted>, AllocError>
    ensures { IfOk result (λ v. map wanted v.items ≡ built_in_wants function) }
{
    let mut wants = Vec::new(alloc);
    match function {
        BuiltIn::Put => wants.push(Wanted::OfType(plain(Base::LongLong)))?,
        BuiltIn::Protect => {
            wants.push(Wanted::OfType(void_pointer()))?;
            wants.push(Wanted::OfType(plain(Base::Int)))?;
        }
        BuiltIn::RaiseException => {
            wants.push(Wanted::OfType(plain(Base::Unsigned)))?;
            wants.push(Wanted::OfType(plain(Base::Unsigned)))?;
            wants.push(Wanted::ZeroLiteral)?;
            wants.push(Wanted::ZeroLiteral)?;
        }
        BuiltIn::AddVectored(_) => wants.push(Wanted::OfType(plain(Base::Unsigned)))?,
        BuiltIn::Walk | BuiltIn::RemoveVectored(_) => {}
    }
    Ok(wants)
}

/// The type of a built-in function's result.
pub fn built_in_result(function: BuiltIn) -> CType
    ensures { result ≡ built_in_result function }
{
    match function {
        BuiltIn::Put => plain(Base::Void),
        BuiltIn::Protect => plain(Base::Int),
        BuiltIn::RaiseException => plain(Base::Void),
        BuiltIn::Walk => plain(Base::Void),
        BuiltIn::AddVectored(_) | BuiltIn::RemoveVectored(_) => plain(Base::Int),
    }
}

impl Wanted {
    /// Whether a value is so.
    pub fn fits(self, a: &TypedNode) -> bool
        ensures { result ≡ fits (wanted self) (typed_node a.now) }
    {
        match self {
            Wanted::OfType(t) => can_become(t, a),
            Wanted::ZeroLiteral => a.zero,
        }
    }

    /// The value as it is passed.
    pub fn passed(self, a: TypedNode) -> Expr
        ensures { expression result ≡ passed (wanted self) (typed_node a) }
    {
        match self {
            Wanted::OfType(t) => as_type(t, a),
            Wanted::ZeroLiteral => as_type(plain(Base::Int), a),
        }
    }
}
