//! The code of declared variables.

ghost use Rattle.std.specs.Prelude.{◌≡◌, ◌*◌, [], ◌∷◌, map, None, OnOk, IfOk, option_map};
ghost use Rattle.seh_num.specs.Widths.{bytes_of};
ghost use Rattle.linear_code.specs.declared.instruction.Instruction.TheVariants.{Separator};
ghost use Rattle.c_checked.specs.Expression as tree;
ghost use Rattle.c_checked.specs.Statement as statements;
ghost use Rattle.lowering_expressions.specs.Appended.{Appends, Places};
ghost use Rattle.lowering_expressions.specs.Expressions.{constant as zero_code};
ghost use Rattle.seh_ir.specs.Statements as spec;

use c_checked::expression::Expr;
use c_checked::statement::{Declared, StackedVariable};
use c_operations::operation::{Operation, Pure};
use linear_code::instruction::Instruction;
use linear_code::slot::Slot;
use lowering_expressions::expressions::expression;
use lowering_expressions::instructions::{ahead, constant, copy, put_all};
use lowering_expressions::scope::Names;
use std::alloc::AllocError;

// ---- locals

fn initialise(
    code: &mut Vec<Instruction>,
    names: Names,
    local: u64,
    value: &Option<Expr>,
) -> Result<(), AllocError>
    ensures { OnOk result (Places code.old code.new
        (spec.initialiser_code names local (option_map tree.expression value.now))) }
{
    match value {
        None => Ok(()),
        Some(e) => {
            expression(code, names, e, 0)?;
            let initialised = copy(Slot::Local(local), Slot::Temporary(0));
            put_all(code, &[initialised, Instruction::Separator])
        }
    }
}

fn declare_local(
    code: &mut Vec<Instruction>,
    names: Names,
    local: u64,
    value: &Option<Expr>,
) -> Result<(), AllocError>
    ensures { OnOk result (Places code.old code.new
        (spec.declared_at_code names None local (option_map tree.expression value.now))) }
{
    let slot = Slot::Local(local);
    code.push(Instruction::Compute {
        to: slot,
        operation: Operation::Pure(Pure::Constant(0)),
        first: slot,
        second: slot,
    })?;
    initialise(code, names, local, value)
}

// ---- variables on the data stack

/// The first temporary goes to a variable.
fn stored(variable: StackedVariable) -> Instruction
    ensures { result ∷ Separator ∷ [] ≡ spec.put_code variable }
{
    Instruction::Compute {
        to: Slot::Temporary(0),
        operation: Operation::Place {
            width: variable.width,
            offset: variable.offset,
        },
        first: Slot::Local(variable.base),
        second: Slot::Temporary(0),
    }
}

fn put_zero(code: &mut Vec<Instruction>, variable: StackedVariable) -> Result<(), AllocError>
    ensures { OnOk result (Appends code.old code.new
        (zero_code 0 0 ∷ spec.put_code variable)) }
{
    put_all(
        code,
        &[constant(0, 0), stored(variable), Instruction::Separator],
    )
}

fn put_initialiser(
    code: &mut Vec<Instruction>,
    names: Names,
    variable: StackedVariable,
    value: &Option<Expr>,
) -> Result<(), AllocError>
    ensures { OnOk result (Places code.old code.new
        (spec.put_initialiser_code names variable (option_map tree.expression value.now))) }
{
    match value {
        None => Ok(()),
        Some(e) => {
            expression(code, names, e, 0)?;
            put_all(code, &[stored(variable), Instruction::Separator])
        }
    }
}

/// How many bytes the elements of an array are, which those of an accepted program keep below 2^64.
fn array_bytes(variable: StackedVariable, elements: u64) -> Result<u64, AllocError>
    ensures { IfOk result (λ n. n ≡ bytes_of variable.width * elements) }
{
    variable
        .width
        .bytes()
        .checked_mul(elements)
        .ok_or(AllocError)
}

/// The elements of an array become 0, the last one first. The local has the bytes that are left.
fn clear(
    code: &mut Vec<Instruction>,
    local: u64,
    variable: StackedVariable,
    elements: u64,
) -> Result<(), AllocError>
    ensures { OnOk result (Places code.old code.new (spec.clear_code local variable elements)) }
{
    let bytes = array_bytes(variable, elements)?;
    let turn = ahead(code, 1)?;
    let end = ahead(code, 4)?;
    let rest = Slot::Local(local);
    let counted = Instruction::Compute {
        to: rest,
        operation: Operation::Pure(Pure::Constant(bytes)),
        first: rest,
        second: rest,
    };
    let ended = Instruction::JumpIfZero {
        slot: rest,
        label: end,
    };
    let cleared = Instruction::Compute {
        to: rest,
        operation: Operation::Clear {
            width: variable.width,
            offset: variable.offset,
        },
        first: Slot::Local(variable.base),
        second: rest,
    };
    let again = Instruction::Jump { label: turn };
    put_all(
        code,
        &[counted, ended, cleared, again, Instruction::Separator],
    )
}

fn declare_stacked(
    code: &mut Vec<Instruction>,
    names: Names,
    variable: StackedVariable,
    value: &Option<Expr>,
) -> Result<(), AllocError>
    ensures { OnOk result (Places code.old code.new
        (spec.stacked_declared_code names variable variable.elements
        (option_map tree.expression value.now))) }
{
    match variable.elements {
        None => {
            put_zero(code, variable)?;
            put_initialiser(code, names, variable, value)
        }
        Some(elements) => clear(code, names.free, variable, elements),
    }
}

// ---- declarations

pub(crate) fn declare(
    code: &mut Vec<Instruction>,
    names: Names,
    declared: &Declared,
) -> Result<(), AllocError>
    ensures { OnOk result (Places code.old code.new
        (spec.declared_code names (statements.declared declared.now))) }
{
    match declared.stacked {
        None => declare_local(code, names, declared.local, &declared.value),
        Some(variable) => declare_stacked(code, names, variable, &declared.value),
    }
}

pub(crate) fn declare_all(
    code: &mut Vec<Instruction>,
    names: Names,
    declared: &[Declared],
) -> Result<(), AllocError>
    ensures { OnOk result (Places code.old code.new
        (spec.all_declared_code names (map statements.declared declared.now))) }
{
    for one in declared {
        declare(code, names, one)?;
    }
    Ok(())
}
