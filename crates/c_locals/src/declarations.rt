//! The locals of a block (C11, 6.7 and 6.8.5.3).

ghost use Rattle.std.specs.Prelude.{◌≡◌, ◌++◌, ◌∷◌, [], length, not, IfOk, OnOk, map};
ghost use Rattle.c_checked.specs.declared.statement.Stmt.TheVariants as statements;
ghost use Rattle.c_checked.specs.Statement.{statement};
ghost use Rattle.c_resolved.specs.declared.fault.Fault.TheVariants.{Duplicate, TypeClash};
ghost use Rattle.c_resolved.specs.Scopes.{spelled};
ghost use Rattle.c_resolved.specs.Statements as definitions;
ghost use Rattle.c_resolved.specs.Statements.{is_taken, length_faults, unless_holds};
ghost use Rattle.c_resolved.specs.Types.{is_scalar};
ghost use Rattle.c_expressions.specs.Kept.{AddsFaults};
ghost use Rattle.c_locals.specs.WalkResults.{Resolves, IsBeginning, declares};
ghost use Rattle.c_expressions.specs.Views.{entity};
ghost use Rattle.c_locals.specs.Values.{MayEvaluate};
ghost use Rattle.c_locals.specs.Views.{environment, numbering, local_value_in};
ghost use Rattle.c_syntax.specs.Statement as trees;

use crate::environment::{Environment, FunctionState};
use crate::evaluated::{any_or_none, refused_initialiser, to_type_or_none};
use crate::lengths::check_length;
use c_checked::expression::Expr as Checked;
use c_checked::statement::{Declared, Stmt};
use c_expressions::least::LeastFault;
use c_expressions::scopes::{self, Entity, is_taken, spelled};
use c_expressions::symbol_table::SymbolTable;
use c_expressions::values::unless_holds;
use c_operations::operation::Size;
use c_resolved::fault::Fault;
use c_resolved::variable::Variable;
use c_syntax::declaration::Length;
use c_syntax::expression::{Base, CType, Expr, Identifier};
use c_syntax::statement::{ForInitialiser, Local};
use c_types::types::{is_scalar, size_of};
use std::alloc::{AllocError, Global};

/// What a `for` does first: what it declares, or what it evaluates (C11, 6.8.5.3).
#[derive(Drop)]
pub struct Beginning {
    /// The locals that it declares.
    pub declared: Vec<Declared>,
    /// The expression that it evaluates, if it declares none.
    pub first: Option<Checked>,
}

/// The rules of a declared local: its name is a new one, its type has values, and an array has an
/// element or more.
fn check_local<'t>(
    faults: &mut LeastFault,
    text: &'t [u8],
    names: &SymbolTable<'t>,
    name: Identifier,
    of: CType,
    length: Option<Length>,
)
    ensures { AddsFaults faults.old faults.new
        (unless_holds (not (is_taken names.now.block (spelled text.now name)))
        name.start Duplicate
        ++ unless_holds (is_scalar of) name.start TypeClash ++ length_faults length) }
{
    let taken = is_taken(spelled(text, name), names);
    unless_holds(faults, !taken, name.start, Fault::Duplicate);
    unless_holds(faults, is_scalar(of), name.start, Fault::TypeClash);
    check_length(faults, length);
}

/// What the name of a local means.
fn meaning_of(number: u64, of: CType, length: Option<Length>) -> Entity<'static>
    ensures { entity result ≡ definitions.local_entity number of length }
{
    match length {
        None => Entity::LocalVariable { number, of },
        Some(_) => Entity::LocalArray { number, of },
    }
}

/// A local as a variable of its function.
fn variable_of(of: CType, length: Option<Length>) -> Variable
    ensures { result ≡ definitions.variable_of of (definitions.elements_of length) }
{
    let elements = match length {
        None => None,
        Some(length) => Some(length.value),
    };
    Variable { of, elements }
}

/// The value of a local; an array has none.
fn value_of<'t>(
    alloc: Global,
    env: &Environment<'t>,
    names: &SymbolTable<'t>,
    faults: &mut LeastFault,
    of: CType,
    length: Option<Length>,
    initialiser: &Option<Expr>,
) -> Result<Option<Checked>, AllocError>
    ensures { IfOk result (λ r. MayEvaluate faults.old faults.new r
        (local_value_in of length env.now names.now initialiser.now)) }
{
    match length {
        None => to_type_or_none(alloc, env, names, faults, of, initialiser),
        Some(_) => {
            refused_initialiser(alloc, env, names, faults, initialiser)?;
            Ok(None)
        }
    }
}

fn count_of(sizes: &Vec<Size>) -> u64
    ensures { result ≡ length sizes.now.items }
{
    sizes.len() as u64
}

/// A local: its name is visible in its own initialiser (C11, 6.2.1 p7).
fn declare<'t>(
    alloc: Global,
    env: &Environment<'t>,
    base: Base,
    local: &Local,
    names: &mut SymbolTable<'t>,
    state: &mut FunctionState,
) -> Result<Declared, AllocError>
    ensures { IfOk result (λ d. Resolves names.old names.new state.old state.new (declares d ∷ [])
        (definitions.declare (environment env.now names.old.around) base (trees.local local.now)
        names.old.block (numbering state.old))) }
{
    let of = CType {
        base,
        pointers: local.pointers,
    };
    let number = count_of(&state.sizes);
    let length = local.length;
    check_local(&mut state.faults, env.text, names, local.name, of, length);
    scopes::declare(
        spelled(env.text, local.name),
        meaning_of(number, of, length),
        names,
    )?;
    state.sizes.push(size_of(of))?;
    state.variables.push(variable_of(of, length))?;
    let faults = &mut state.faults;
    let value = value_of(alloc, env, names, faults, of, length, &local.initialiser)?;
    Ok(Declared {
        local: number,
        stacked: None,
        value,
    })
}

/// Locals in their order.
fn declare_each<'t>(
    alloc: Global,
    env: &Environment<'t>,
    base: Base,
    locals: &[Local],
    names: &mut SymbolTable<'t>,
    state: &mut FunctionState,
) -> Result<Vec<Declared>, AllocError>
    ensures { IfOk result (λ v. Resolves names.old names.new state.old state.new
        (map declares v.items)
        (definitions.declare_all (environment env.now names.old.around) base
        (map trees.local locals.now)
        names.old.block (numbering state.old))) }
{
    let mut made = Vec::new(alloc);
    for local in locals {
        made.push(declare(alloc, env, base, local, names, state)?)?;
    }
    Ok(made)
}

/// Each declared local as a statement of its own.
fn as_statements(alloc: Global, made: Vec<Declared>) -> Result<Vec<Stmt>, AllocError>
    ensures { IfOk result (λ v. v.items ≡ map (λ d. statements.Declare d) made.items) }
{
    made.into_iter().map(|d| Stmt::Declare(d)).collect(alloc)
}

/// The locals of a declaration.
pub fn declare_all<'t>(
    alloc: Global,
    env: &Environment<'t>,
    base: Base,
    locals: &[Local],
    names: &mut SymbolTable<'t>,
    state: &mut FunctionState,
) -> Result<Vec<Stmt>, AllocError>
    ensures { IfOk result (λ v. Resolves names.old names.new state.old state.new
        (map statement v.items)
        (definitions.declare_all (environment env.now names.old.around) base
        (map trees.local locals.now)
        names.old.block (numbering state.old))) }
{
    let made = declare_each(alloc, env, base, locals, names, state)?;
    as_statements(alloc, made)
}

/// What a `for` does first, in a block of its own.
pub fn for_initialiser<'t>(
    alloc: Global,
    env: &Environment<'t>,
    initialiser: &ForInitialiser,
    names: &mut SymbolTable<'t>,
    state: &mut FunctionState,
) -> Result<Beginning, AllocError>
    requires { names.old.block ≡ [] }
    ensures { IfOk result (λ b. IsBeginning names.old names.new state.old state.new b
        (definitions.resolve_for_initialiser (environment env.now names.old.around)
        (trees.first initialiser.now)
        (numbering state.old))) }
{
    match initialiser {
        ForInitialiser::Declaration(declaration) => {
            let declared = declare_each(
                alloc,
                env,
                declaration.base,
                &declaration.locals,
                names,
                state,
            )?;
            Ok(Beginning {
                declared,
                first: None,
            })
        }
        ForInitialiser::Expression(e) => {
            let first = any_or_none(alloc, env, names, &mut state.faults, e)?;
            Ok(Beginning {
                declared: Vec::new(alloc),
                first,
            })
        }
    }
}
