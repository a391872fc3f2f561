//! The function that a run begins with (C11, 5.1.2.2.1).

ghost use Rattle.std.specs.Prelude.{◌≡◌, map, option_map};
ghost use Rattle.c_check.specs.Entry.{is_main, main_in};
ghost use Rattle.c_expressions.specs.Kept.{AddsFaults};
ghost use Rattle.c_expressions.specs.SymbolTables.{scopes_of};
ghost use Rattle.c_expressions.specs.Views.{entity};
ghost use Rattle.c_resolved.specs.Program as definitions;
ghost use Rattle.c_resolved.specs.Scopes.{meaning_in};
ghost use Rattle.c_syntax.specs.Program as syntax;

use c_expressions::least::LeastFault;
use c_expressions::scopes::{Entity, declared};
use c_expressions::symbol_table::SymbolTable;
use c_expressions::values::unless_holds;
use c_resolved::fault::Fault;
use c_syntax::declaration::{ExternalDeclaration, Parameter};
use c_syntax::expression::{Base, CType};
use c_types::types::{plain, same_type};

/// The place of the name of the function of this number; 0 if there is none.
fn place_of_function(xs: &[ExternalDeclaration], number: u64) -> u64
    ensures { let program = map syntax.external_declaration xs.now in
        result ≡ definitions.place_of_function program number }
{
    let mut left = number;
    for x in xs {
        if let ExternalDeclaration::Function { name, .. } = x {
            if left == 0 {
                return name.start;
            }
            left -= 1;
        }
    }
    0
}

/// No parameter, or one of type `long long`.
fn are_main_parameters(list: &[Parameter]) -> bool
    ensures { result ≡ definitions.are_main_parameters (definitions.parameter_types list.now) }
{
    match list {
        [] => true,
        [only] => same_type(only.of, plain(Base::LongLong)),
        _ => false,
    }
}

fn is_main(returns: CType, list: &[Parameter]) -> bool
    ensures { result ≡ is_main returns list.now }
{
    same_type(returns, plain(Base::Int)) && are_main_parameters(list)
}

/// What the file declares `main` as.
fn meaning_of_main<'a>(names: &SymbolTable<'a>) -> Option<Entity<'a>>
    ensures { option_map entity result ≡
        meaning_in (scopes_of names.now) definitions.main_name }
{
    declared(b"main", names)
}

/// The number of `main`. There has to be a function of that name, which returns an `int` and takes
/// nothing, or a `long long`.
pub fn main_of(names: &SymbolTable<'_>, xs: &[ExternalDeclaration], faults: &mut LeastFault) -> u64
    ensures number { let program = map syntax.external_declaration xs.now in
        result ≡ (main_in program (scopes_of names.now)).number }
    ensures faults { let program = map syntax.external_declaration xs.now in
        AddsFaults faults.old faults.new (main_in program (scopes_of names.now)).faults }
{
    match meaning_of_main(names) {
        Some(
            Entity::UserFunction {
                number,
                returns,
                parameters,
            },
        ) => {
            let at = place_of_function(xs, number);
            unless_holds(faults, is_main(returns, parameters), at, Fault::TypeClash);
            number
        }
        _ => {
            faults.add(0, Fault::NoMain);
            0
        }
    }
}
