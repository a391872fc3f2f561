//! Functions (C11, 6.9.1).

ghost use Rattle.std.specs.Prelude.{◌≡◌, ◌∷◌, [], drop, IfOk, OnOk, map};
ghost use Rattle.c_check.specs.Functions.{AddsFunctions};
ghost use Rattle.c_checked.specs.Program.{function};
ghost use Rattle.c_expressions.specs.Kept.{AddsFaults};
ghost use Rattle.c_expressions.specs.SymbolTables.{scopes_of};
ghost use Rattle.c_resolved.specs.Program as definitions;
ghost use Rattle.c_syntax.specs.Program as syntax;
ghost use Rattle.c_syntax.specs.Statement as trees;

use crate::parameters;
use c_checked::function::Function;
use c_expressions::least::LeastFault;
use c_expressions::scopes::spelled;
use c_expressions::symbol_table::SymbolTable;
use c_locals::environment::FunctionState;
use c_operations::operation::Size;
use c_stacked::functions::place;
use c_statements::statements;
use c_syntax::declaration::{ExternalDeclaration, Parameter};
use c_syntax::expression::{CType, Identifier};
use c_syntax::statement::Stmt;
use c_types::types::{is_void, size_of};
use std::alloc::{AllocError, Global};

/// What a walk over the functions of a program carries along.
#[derive(Drop)]
pub struct Progress {
    /// The functions so far.
    pub done: Vec<Function>,
    /// The number of the next filter or `__finally` block: they are numbered through the whole
    /// program, from 1.
    pub number: u32,
    /// The least fault so far.
    pub faults: LeastFault,
}

/// The size of a result; none where the function returns nothing.
fn result_size(t: CType) -> Option<Size>
    ensures { result ≡ definitions.result_size t }
{
    if is_void(t) { None } else { Some(size_of(t)) }
}

/// The sizes after the first ones.
fn rest_of(alloc: Global, sizes: &[Size], first: usize) -> Result<Vec<Size>, AllocError>
    ensures { IfOk result (λ rest. rest.items ≡ drop first sizes.now) }
{
    if sizes.len() <= first {
        return Ok(Vec::new(alloc));
    }
    Vec::from_slice(alloc, &sizes[first..])
}

/// A function: its parameters, and its body with the locals that it declares.
fn function<'t>(
    alloc: Global,
    text: &'t [u8],
    names: &mut SymbolTable<'t>,
    progress: &mut Progress,
    returns: CType,
    name: Identifier,
    list: &[Parameter],
    body: &[Stmt],
) -> Result<(), AllocError>
    ensures names { OnOk result (names.new ≡ names.old) }
    ensures added { let file = scopes_of names.old in
        let made = trees.statements (map trees.statement body.now) in
        let number = progress.old.number in
        let f = definitions.function_of text.now file returns name list.now made number in
        OnOk result (AddsFunctions progress.old progress.new f) }
{
    names.open(alloc)?;
    parameters::declare_all(text, names, &mut progress.faults, list)?;
    let mut state = FunctionState {
        sizes: parameters::sizes_of(alloc, list)?,
        variables: parameters::variables_of(alloc, list)?,
        number: progress.number,
        faults: progress.faults,
    };
    let made = statements::body(alloc, text, returns, names, &mut state, body)?;
    names.close();
    progress.number = state.number;
    progress.faults = state.faults;
    let locals = rest_of(alloc, &state.sizes, list.len())?;
    let placed = place(alloc, list.len(), locals, state.variables, made)?;
    progress.done.push(Function {
        name: Vec::from_slice(alloc, spelled(text, name))?,
        parameters: parameters::sizes_of(alloc, list)?,
        locals: placed.locals,
        data_frame: placed.data_frame,
        returns: result_size(returns),
        body: placed.body,
    })?;
    Ok(())
}

/// The function that an external declaration is, if it is one.
fn one<'t>(
    alloc: Global,
    text: &'t [u8],
    names: &mut SymbolTable<'t>,
    progress: &mut Progress,
    x: &ExternalDeclaration,
) -> Result<(), AllocError>
    ensures names { OnOk result (names.new ≡ names.old) }
    ensures added { let file = scopes_of names.old in
        let one = syntax.external_declaration x.now ∷ [] in
        let f = definitions.functions_of text.now file one progress.old.number in
        OnOk result (AddsFunctions progress.old progress.new f) }
{
    match x {
        ExternalDeclaration::Globals { .. } => Ok(()),
        ExternalDeclaration::Function {
            returns,
            name,
            parameters,
            body,
        } => function(
            alloc, text, names, progress, *returns, *name, parameters, body,
        ),
    }
}

/// The functions of a program, in their order, whose filters and `__finally` blocks are numbered
/// from 1 on; the least fault of those before and of theirs is kept.
pub fn functions<'t>(
    alloc: Global,
    text: &'t [u8],
    names: &mut SymbolTable<'t>,
    faults: LeastFault,
    xs: &[ExternalDeclaration],
) -> Result<Progress, AllocError>
    ensures names { OnOk result (names.new ≡ names.old) }
    ensures done { let program = map syntax.external_declaration xs.now in
        let f = definitions.functions_of text.now (scopes_of names.old) program 1 in
        IfOk result (λ p. map function p.done.items ≡ f.done) }
    ensures faults { let program = map syntax.external_declaration xs.now in
        let f = definitions.functions_of text.now (scopes_of names.old) program 1 in
        IfOk result (λ p. AddsFaults faults p.faults f.faults) }
{
    let mut progress = Progress {
        done: Vec::new(alloc),
        number: 1,
        faults,
    };
    for x in xs {
        one(alloc, text, names, &mut progress, x)?;
    }
    Ok(progress)
}
