//! Whole programs.

ghost use Rattle.std.specs.Prelude.{◌≡◌, ◌++◌, replicate, Some, OnOk, IfOk};
ghost use Rattle.linear_code.specs.declared.instruction.Instruction.TheVariants.{Separator};
ghost use Rattle.linear_code.specs.Program.{linear_function, linear_program};
ghost use Rattle.c_checked.specs.Program as programs;
ghost use Rattle.c_checked.specs.Sound as sound;
ghost use Rattle.c_checked.specs.Whole.{program};
ghost use Rattle.lowering_expressions.specs.Appended.{AppendsFunclets};
ghost use Rattle.seh_ir.specs.Lowered as spec;

use crate::bodies::body_with;
use crate::cold_parts::statements_cold;
use crate::data_stack::{close, open, open_size};
use crate::funclets::{Owner, statements_funclets};
use crate::regions::statements_regions;
use crate::statements::statements;
use c_checked::checked::Checked;
use c_checked::function::Function;
use c_operations::operation::Size;
use linear_code::instruction::Instruction;
use linear_code::program::{IrFunclet, IrFunction, IrProgram};
use linear_code::slot::Slot;
use lowering_expressions::instructions::{constant, put};
use lowering_expressions::scope::{ExceptionSource, LoweringContext, Names, Way};
use lowering_registers::registers::{own_locals, register_locals};
use lowering_sizes::measured::measure_all;
use lowering_sizes::statement_sizes::statements_notes;
use lowering_sizes::sums::sum;
use std::alloc::{AllocError, Global};

fn all_locals(f: &Function) -> Result<u64, AllocError>
    ensures { IfOk result (λ n. n ≡ spec.all_locals (programs.function f.now)) }
{
    sum(own_locals(f)?, statements_notes(&f.body)?)
}

/// Whether there are two sizes, and both are `int`'s.
fn is_pair_of_ints(sizes: &[Size]) -> bool
    ensures { result ≡ sound.is_pair_of_ints sizes.now }
{
    match sizes {
        [Size::Int, Size::Int] => true,
        _ => false,
    }
}

/// Whether it can be a vectored handler: it takes a code and flags, and gives an answer.
fn can_handle(f: &Function) -> bool
    ensures { result ≡ sound.can_handle (Some (programs.function f.now)) }
{
    match f.returns {
        Some(Size::Int) => is_pair_of_ints(&f.parameters),
        _ => false,
    }
}

/// How many separators it begins with to be asked as a vectored handler.
fn asking(f: &Function) -> u64
    ensures { result ≡ spec.asking (programs.function f.now) }
{
    if can_handle(f) {
        return 1;
    }
    0
}

/// How many separators its code begins with.
fn first_count(f: &Function) -> Result<u64, AllocError>
    ensures { IfOk result (λ n. n ≡ spec.first_count (programs.function f.now)) }
{
    sum(sum(1, f.surplus())?, asking(f))
}

/// The label at which the code of the body begins.
fn body_start(f: &Function) -> Result<u64, AllocError>
    ensures { IfOk result (λ n. n ≡ spec.body_start (programs.function f.now)) }
{
    sum(first_count(f)?, open_size(&f.data_frame)?)
}

/// Adds so many separators.
fn put_separators(code: &mut Vec<Instruction>, count: u64) -> Result<(), AllocError>
    ensures { OnOk result (code.new.items ≡ code.old.items ++ replicate count Separator) }
{
    for _ in 0..count {
        code.push(Instruction::Separator)?;
    }
    Ok(())
}

/// What names mean in a function outside of any `__try`.
fn names_of(f: &Function) -> Result<Names, AllocError>
    ensures { IfOk result (λ n. n ≡ (spec.scope_of (programs.function f.now)).names) }
{
    let free = own_locals(f)?;
    Ok(Names {
        exception: ExceptionSource::NoException,
        abnormal: None,
        free,
        part: f.data_part(),
    })
}

fn scope_of(alloc: Global, f: &Function) -> Result<LoweringContext, AllocError>
    ensures { IfOk result (λ s. s ≡ spec.scope_of (programs.function f.now)) }
{
    let names = names_of(f)?;
    let body = sum(measure_all(&f.body, &mut Vec::new(alloc))?, 1)?;
    let exit = sum(body_start(f)?, body)?;
    Ok(LoweringContext {
        names,
        exit: Way::Jumps(exit),
        loop_end: Way::Nowhere,
        loop_next: Way::Nowhere,
        leave: None,
    })
}

fn function_code(alloc: Global, f: &Function) -> Result<Vec<Instruction>, AllocError>
    ensures { IfOk result (λ v. v.items ≡ spec.function_code (programs.function f.now)) }
{
    let scope = scope_of(alloc, f)?;
    let separators = first_count(f)?;
    let mut code = Vec::new(alloc);
    put_separators(&mut code, separators)?;
    open(&mut code, &f.data_frame)?;
    statements(alloc, &mut code, &scope, &f.body)?;
    put(&mut code, constant(0, 0))?;
    close(&mut code, &f.data_frame)?;
    let returns = Instruction::Return {
        from: Slot::Temporary(0),
    };
    put(&mut code, returns)?;
    Ok(code)
}

fn lower_function(alloc: Global, f: &Function) -> Result<IrFunction, AllocError>
    ensures { IfOk result (λ r. linear_function r ≡
        spec.lowered_function (programs.function f.now)) }
{
    let registers = register_locals(alloc, f)?;
    let locals = all_locals(f)?;
    let begin = body_start(f)?;
    let code = function_code(alloc, f)?;
    let mut regions = Vec::new(alloc);
    statements_regions(&mut regions, &f.body, begin)?;
    let mut cold = Vec::new(alloc);
    statements_cold(&mut cold, alloc, &f.body, begin)?;
    let body = body_with(locals, code, regions, cold)?;
    let mut name = Vec::new(alloc);
    name.extend_from_slice(&f.name)?;
    Ok(IrFunction {
        name,
        parameters: f.parameters.len() as u64,
        registers,
        surplus: f.frame_surplus(),
        data_surplus: f.data_surplus(),
        body,
    })
}

/// Adds the funclets of a function of this number.
fn lower_funclets(
    funclets: &mut Vec<IrFunclet>,
    alloc: Global,
    number: u64,
    f: &Function,
) -> Result<(), AllocError>
    ensures { OnOk result (AppendsFunclets funclets.old funclets.new
        (spec.lowered_funclets number (programs.function f.now))) }
{
    let names = names_of(f)?;
    let owner = Owner {
        function: number,
        locals: all_locals(f)?,
        parent: None,
    };
    statements_funclets(funclets, alloc, owner, names, &f.body)
}

/// The linear code of a checked program. Nothing but want of memory keeps it from being made.
pub fn lower(alloc: Global, checked: &Checked) -> Result<IrProgram, AllocError>
    ensures lowered { IfOk result (λ p. linear_program p ≡ spec.lowered (program checked.now)) }
{
    let mut functions = Vec::new(alloc);
    let mut funclets = Vec::new(alloc);
    let mut number = 0;
    for f in &checked.functions {
        let function = lower_function(alloc, f)?;
        functions.push(function)?;
        lower_funclets(&mut funclets, alloc, number, f)?;
        number = sum(number, 1)?;
    }
    let mut globals = Vec::new(alloc);
    globals.extend_from_slice(&checked.globals)?;
    Ok(IrProgram {
        globals,
        main: checked.main,
        functions,
        funclets,
    })
}
