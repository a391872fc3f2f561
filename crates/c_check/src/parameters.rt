//! Parameters: the first locals of a function, in the outermost block of its body (C11, 6.2.1 p4
//! and 6.9.1).

ghost use Rattle.std.specs.Prelude.{◌≡◌, [], IfOk, OnOk};
ghost use Rattle.c_check.specs.Parameters.{faults_of_parameter, sizes_of, variables_of};
ghost use Rattle.c_expressions.specs.Kept.{AddsFaults};
ghost use Rattle.c_expressions.specs.SymbolTables.{with_block};
ghost use Rattle.c_resolved.specs.Expressions.{LocalVariable};
ghost use Rattle.c_resolved.specs.Program as definitions;
ghost use Rattle.c_resolved.specs.Scopes.{spelled};
ghost use Rattle.c_resolved.specs.Statements.{with_name};

use c_expressions::least::LeastFault;
use c_expressions::scopes::{Entity, declare, is_taken, spelled};
use c_expressions::symbol_table::SymbolTable;
use c_expressions::values::unless_holds;
use c_operations::operation::Size;
use c_resolved::fault::Fault;
use c_resolved::variable::Variable;
use c_syntax::declaration::Parameter;
use c_types::types::{is_scalar, size_of};
use std::alloc::{AllocError, Global};

/// The sizes of parameters.
pub fn sizes_of(alloc: Global, list: &[Parameter]) -> Result<Vec<Size>, AllocError>
    ensures { IfOk result (λ sizes. sizes.items ≡ sizes_of list.now) }
{
    let mut sizes = Vec::new(alloc);
    for parameter in list {
        sizes.push(size_of(parameter.of))?;
    }
    Ok(sizes)
}

/// Parameters as variables of their function.
pub fn variables_of(alloc: Global, list: &[Parameter]) -> Result<Vec<Variable>, AllocError>
    ensures { IfOk result (λ vs. vs.items ≡ variables_of list.now) }
{
    let mut variables = Vec::new(alloc);
    for parameter in list {
        variables.push(Variable {
            of: parameter.of,
            elements: None,
        })?;
    }
    Ok(variables)
}

/// A parameter of this number: no second one of its name, and an integer or a pointer.
fn parameter<'t>(
    text: &'t [u8],
    number: u64,
    p: Parameter,
    names: &mut SymbolTable<'t>,
    faults: &mut LeastFault,
) -> Result<(), AllocError>
    ensures names { let block = names.old.block in
        let with_it = with_name block (spelled text.now p.name) (LocalVariable number p.«of») in
        OnOk result (names.new ≡ with_block names.old with_it) }
    ensures faults { OnOk result (AddsFaults faults.old faults.new
        (faults_of_parameter text.now p names.old.block)) }
{
    let name = spelled(text, p.name);
    unless_holds(
        faults,
        !is_taken(name, names),
        p.name.start,
        Fault::Duplicate,
    );
    unless_holds(faults, is_scalar(p.of), p.name.start, Fault::TypeClash);
    declare(name, Entity::LocalVariable { number, of: p.of }, names)
}

/// A function's parameters, which are numbered from 0 on, in a block that has no names yet.
pub fn declare_all<'t>(
    text: &'t [u8],
    names: &mut SymbolTable<'t>,
    faults: &mut LeastFault,
    list: &[Parameter],
) -> Result<(), AllocError>
    requires { names.old.block ≡ [] }
    ensures names { let block = definitions.with_parameters text.now list.now [] 0 in
        OnOk result (names.new ≡ with_block names.old block) }
    ensures faults { OnOk result (AddsFaults faults.old faults.new
        (definitions.parameter_faults text.now list.now [])) }
{
    for (i, p) in list.iter().enumerate() {
        parameter(text, i as u64, *p, names, faults)?;
    }
    Ok(())
}
