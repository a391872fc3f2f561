//! The services that the image of a program imports.

ghost use Rattle.std.specs.Prelude.{◌≡◌, ◌++◌, map, OnOk, IfOk};
ghost use Rattle.linear_code.specs.Program.{linear_function, linear_funclet, linear_program};
ghost use Rattle.image_link.specs.Services as spec;

use c_operations::built_in::BuiltIn;
use host_layout::imported::ImportedService;
use linear_code::instruction::Instruction;
use linear_code::program::{IrFunclet, IrFunction, IrProgram};
use std::alloc::{AllocError, Global};

/// The service that a built-in function is.
fn imported_service_of(function: BuiltIn) -> ImportedService
    ensures { result ≡ spec.imported_service_of function }
{
    match function {
        BuiltIn::Put => ImportedService::Put,
        BuiltIn::Protect => ImportedService::Protect,
        BuiltIn::RaiseException => ImportedService::RaiseException,
        BuiltIn::Walk => ImportedService::Walk,
        BuiltIn::AddVectored(_) => ImportedService::AddVectored,
        BuiltIn::RemoveVectored(_) => ImportedService::RemoveVectored,
    }
}

fn is_call(service: ImportedService, instruction: &Instruction) -> bool
    ensures { result ≡ spec.is_call service instruction.now }
{
    match *instruction {
        Instruction::CallBuiltIn { function, .. } => {
            imported_service_of(function).number() == service.number()
        }
        _ => false,
    }
}

fn has_call(service: ImportedService, code: &[Instruction]) -> bool
    ensures { result ≡ spec.has_call service code.now }
{
    for instruction in code {
        if is_call(service, instruction) {
            return true;
        }
    }
    false
}

fn functions_call(service: ImportedService, functions: &[IrFunction]) -> bool
    ensures { result ≡ spec.functions_call service (map linear_function functions.now) }
{
    for function in functions {
        if has_call(service, &function.body.code) {
            return true;
        }
    }
    false
}

fn funclets_call(service: ImportedService, funclets: &[IrFunclet]) -> bool
    ensures { result ≡ spec.funclets_call service (map linear_funclet funclets.now) }
{
    for funclet in funclets {
        if has_call(service, &funclet.body.code) {
            return true;
        }
    }
    false
}

/// Whether the body of a function or of a funclet calls a service.
pub fn calls(service: ImportedService, program: &IrProgram) -> bool
    ensures { result ≡ spec.calls service (linear_program program.now) }
{
    functions_call(service, &program.functions) || funclets_call(service, &program.funclets)
}

/// Adds a service to those that are imported, where it is called.
fn put_if(
    services: &mut Vec<ImportedService>,
    called: bool,
    service: ImportedService,
) -> Result<(), AllocError>
    ensures { OnOk result
        (services.new.items ≡ services.old.items ++ spec.service_if called service) }
{
    if called {
        services.push(service)?;
    }
    Ok(())
}

/// The services that are imported, in the order of their slots and thunks, by whether the program
/// adds vectored handlers, removes some, and walks.
fn services_if(
    alloc: Global,
    adds: bool,
    removes: bool,
    walks: bool,
) -> Result<Vec<ImportedService>, AllocError>
    ensures { IfOk result (λ v. v.items ≡ spec.services_if adds removes walks) }
{
    let mut services = Vec::new(alloc);
    put_if(&mut services, adds, ImportedService::AddVectored)?;
    services.push(ImportedService::RaiseException)?;
    put_if(&mut services, removes, ImportedService::RemoveVectored)?;
    services.push(ImportedService::CSpecificHandler)?;
    services.push(ImportedService::LocalUnwind)?;
    services.push(ImportedService::Protect)?;
    services.push(ImportedService::Put)?;
    put_if(&mut services, walks, ImportedService::Walk)?;
    Ok(services)
}

/// The services that a program imports, in the order of their slots and thunks.
pub fn services_of(alloc: Global, program: &IrProgram) -> Result<Vec<ImportedService>, AllocError>
    ensures { IfOk result (λ v. v.items ≡ spec.services_of (linear_program program.now)) }
{
    services_if(
        alloc,
        calls(ImportedService::AddVectored, program),
        calls(ImportedService::RemoveVectored, program),
        calls(ImportedService::Walk, program),
    )
}
