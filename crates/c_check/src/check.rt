//! Which programs are accepted, and what each is.

ghost use Rattle.std.specs.Prelude.{◌≡◌, IfOk, IfErr, map};
ghost use Rattle.c_check.specs.declared.check.CheckErr.TheVariants.{Memory};
ghost use Rattle.c_check.specs.Programs.{IsResolved};
ghost use Rattle.c_check.specs.Refusals.{IsRefusal};
ghost use Rattle.c_checked.specs.Whole.{program};
ghost use Rattle.c_resolved.specs.Accepted.{Accepted};
ghost use Rattle.c_resolved.specs.Program as definitions;
ghost use Rattle.c_syntax.specs.Limits.{Within};
ghost use Rattle.c_syntax.specs.Program.{external_declaration};

use crate::declarations::file;
use crate::entry::main_of;
use crate::functions::functions;
use c_checked::checked::Checked;
use c_checked::function::Function;
use c_expressions::least::{Broken, LeastFault};
use c_syntax::declaration::ExternalDeclaration;
use std::alloc::{AllocError, Global};

/// Why a program isn't accepted.
#[derive(Clone, Copy, Drop)]
pub enum CheckErr {
    /// The least fault: a rule that it breaks, and the place in bytes from the text's begin.
    Broken(Broken),
    /// Memory ran out.
    Memory,
}

impl From<AllocError> for CheckErr {
    ghost from_gives = { λ _ e. e ≡ Memory };

    fn from(_e: AllocError) -> CheckErr {
        CheckErr::Memory
    }
}

/// What a program is resolved to, with the least fault. Where there is one, the rest means nothing.
#[derive(Drop)]
struct Resolved {
    functions: Vec<Function>,
    main: u64,
    globals: Vec<u8>,
    faults: LeastFault,
}

/// What a program is resolved to.
fn resolve(alloc: Global, text: &[u8], xs: &[ExternalDeclaration]) -> Result<Resolved, AllocError>
    ensures { let program = map external_declaration xs.now in
        IfOk result (λ p. IsResolved p (definitions.resolve text.now program)) }
{
    let mut file = file(alloc, text, xs)?;
    let mut faults = file.faults;
    let main = main_of(&file.names, xs, &mut faults);
    let made = functions(alloc, text, &mut file.names, faults, xs)?;
    Ok(Resolved {
        functions: made.done,
        main,
        globals: file.bytes,
        faults: made.faults,
    })
}

/// The checked program that a program is: each name resolved and each conversion explicit, with the
/// proof that it is sound.
///
/// The rules are those of scopes (C11, 6.2.1) and of one declaration of a name in a scope (6.7), of
/// conversions and lvalues (6.3), of operators and calls (6.5), of initialisers (6.7.9), of
/// conditions and jumps (6.8), of functions (6.9.1) and of `main` (5.1.2.2.1), and of what filters,
/// `__except` blocks and `__finally` blocks alone may name (Microsoft C reference, "try-except
/// statement" and "try-finally statement"). Every function and global is visible in the whole text,
/// and no jump leaves a `__finally` block (own).
///
/// # Errors
///
/// `Broken` names the broken rule at the least place, in bytes from the text's begin, and at one
/// place the first rule in the order of `Fault`. `Memory` says that memory ran out.
pub fn check(alloc: Global, text: &[u8], xs: &[ExternalDeclaration]) -> Result<Checked, CheckErr>
    requires { Within text.now (map external_declaration xs.now) }
    // It breaks no rule.
    ensures accepted { IfOk result (λ p. Accepted text.now (map external_declaration xs.now)) }
    // It is what the text is resolved to.
    ensures resolved { let made = definitions.resolve text.now (map external_declaration xs.now) in
        IfOk result (λ p. program p ≡ made.program) }
    // A refusal names the least fault; or memory runs out.
    ensures refused { IfErr result (λ e. IsRefusal e text.now (map external_declaration xs.now)) }
{
    let program = resolve(alloc, text, xs)?;
    match program.faults.found {
        Some(least) => Err(CheckErr::Broken(least)),
        None => Ok(Checked {
            functions: program.functions,
            main: program.main,
            globals: program.globals,
        }),
    }
}
