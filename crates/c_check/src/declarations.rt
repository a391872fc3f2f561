//! The names of the file, and the bytes of its globals (C11, 6.9).

ghost use Rattle.std.specs.Prelude.{◌≡◌, ◌+◌, IfOk, OnOk, map};
ghost use Rattle.c_check.specs.Declarations.{Declares};
ghost use Rattle.c_locals.specs.Files.{IsFile};
ghost use Rattle.c_resolved.specs.Program as definitions;
ghost use Rattle.c_syntax.specs.Program as syntax;

use c_expressions::least::LeastFault;
use c_expressions::scopes::Entity;
use c_expressions::symbol_table::SymbolTable;
use c_locals::globals::{File, globals, name};
use c_syntax::declaration::ExternalDeclaration;
use std::alloc::{AllocError, Global};

/// One more function. As many as 2^64 would need a text of more bytes, so they count as want of
/// memory.
fn next(number: u64) -> Result<u64, AllocError>
    ensures { IfOk result (λ count. count ≡ number + 1) }
{
    match number.checked_add(1) {
        Some(count) => Ok(count),
        None => Err(AllocError),
    }
}

/// The names that an external declaration declares. A function has the next number.
fn declare<'a>(
    alloc: Global,
    text: &'a [u8],
    file: &mut File<'a>,
    x: &'a ExternalDeclaration,
) -> Result<(), AllocError>
    ensures { let declaration = syntax.external_declaration x.now in
        OnOk result (Declares text.now declaration file.old file.new) }
{
    match x {
        ExternalDeclaration::Globals {
            base,
            globals: list,
        } => { globals(alloc, text, file, *base, list) }
        ExternalDeclaration::Function {
            returns,
            name: n,
            parameters,
            ..
        } => {
            let number = file.functions;
            let count = next(number)?;
            let meaning = Entity::UserFunction {
                number,
                returns: *returns,
                parameters,
            };
            name(text, file, *n, meaning)?;
            file.functions = count;
            Ok(())
        }
    }
}

/// The file before its first declaration.
fn empty<'a>(alloc: Global, text: &[u8]) -> File<'a>
    ensures { IsFile result definitions.empty_file }
{
    File {
        names: SymbolTable::new(alloc, text),
        bytes: Vec::new(alloc),
        functions: 0,
        faults: LeastFault { found: None },
    }
}

/// All names of the file, the bytes of its globals and the least fault of its declarations.
pub fn file<'a>(
    alloc: Global,
    text: &'a [u8],
    xs: &'a [ExternalDeclaration],
) -> Result<File<'a>, AllocError>
    ensures { let program = map syntax.external_declaration xs.now in
        IfOk result (λ f. IsFile f (definitions.file_of text.now program definitions.empty_file)) }
{
    let mut file = empty(alloc, text);
    for x in xs {
        declare(alloc, text, &mut file, x)?;
    }
    Ok(file)
}
