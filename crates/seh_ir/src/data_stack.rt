//! A function's part of the data stack.

ghost use Rattle.std.specs.Prelude.{◌≡◌, ◌+◌, [], ◌∷◌, length, OnOk, IfOk, option_map};
ghost use Rattle.c_operations.specs.declared.operation.Operation.TheVariants.{Allocate};
ghost use Rattle.linear_code.specs.declared.slot.Slot.TheVariants.{Local};
ghost use Rattle.linear_code.specs.declared.instruction.Instruction.TheVariants.{Compute};
ghost use Rattle.c_checked.specs.Program.{data_frame_of};
ghost use Rattle.lowering_expressions.specs.Appended.{Appends};
ghost use Rattle.seh_ir.specs.Funclets.{finally_begin};
ghost use Rattle.seh_ir.specs.Lowered as spec;
ghost use Rattle.seh_ir.specs.Statements as code_of;

use c_checked::function::{DataFrame, DataPart, StackedParameter};
use c_operations::operation::Operation;
use linear_code::instruction::Instruction;
use linear_code::slot::Slot;
use lowering_expressions::instructions::{put, put_all};
use lowering_expressions::scope::Names;
use lowering_sizes::sums::sum;
use std::alloc::AllocError;

/// The data stack's pointer becomes so many bytes above the base.
fn set_pointer(base: u64, size: u64) -> Instruction
    ensures { result ≡ code_of.set_pointer base size }
{
    let slot = Slot::Local(base);
    Instruction::Compute {
        to: slot,
        operation: Operation::SetPointer(size),
        first: slot,
        second: slot,
    }
}

/// The pointer is where the function's own statements have it.
pub(crate) fn reset(part: Option<DataPart>) -> Instruction
    ensures { result ≡ code_of.reset_code part }
{
    match part {
        None => Instruction::Separator,
        Some(own) => set_pointer(own.base, own.size),
    }
}

/// The beginning of a `__finally` block, with these names around it.
pub(crate) fn begin_finally(code: &mut Vec<Instruction>, names: Names) -> Result<(), AllocError>
    ensures code { OnOk result (Appends code.old code.new (finally_begin names.part names.free)) }
    ensures count { OnOk result (length code.new.items ≡ length code.old.items + 3) }
{
    let slot = Slot::Local(names.free);
    match names.part {
        None => put_all(
            code,
            &[
                Instruction::Separator,
                Instruction::Separator,
                Instruction::Separator,
            ],
        ),
        Some(part) => put_all(
            code,
            &[
                Instruction::JumpIfZero { slot, label: 2 },
                set_pointer(part.base, part.size),
                Instruction::Separator,
            ],
        ),
    }
}

// ---- of a whole function

/// A parameter goes to where it stands.
fn brought(base: u64, parameter: StackedParameter) -> Instruction
    ensures { result ∷ [] ≡ spec.bring_code base (parameter ∷ []) }
{
    let slot = Slot::Local(parameter.parameter);
    Instruction::Compute {
        to: slot,
        operation: Operation::Place {
            width: parameter.width,
            offset: parameter.offset,
        },
        first: Slot::Local(base),
        second: slot,
    }
}

/// The parameters on the data stack are brought to where they stand.
fn bring_all(
    code: &mut Vec<Instruction>,
    base: u64,
    parameters: &[StackedParameter],
) -> Result<(), AllocError>
    ensures { OnOk result (Appends code.old code.new (spec.bring_code base parameters.now)) }
{
    for parameter in parameters {
        code.push(brought(base, *parameter))?;
    }
    Ok(())
}

/// A part of so many bytes begins at the pointer.
fn allocated(base: u64, size: u64) -> Instruction
    ensures { result ≡ Compute (Local base) (Allocate size) (Local base) (Local base) }
{
    let slot = Slot::Local(base);
    Instruction::Compute {
        to: slot,
        operation: Operation::Allocate(size),
        first: slot,
        second: slot,
    }
}

/// A function's part begins.
pub(crate) fn open(code: &mut Vec<Instruction>, frame: &Option<DataFrame>) -> Result<(), AllocError>
    ensures { OnOk result (Appends code.old code.new
        (spec.open_code (option_map data_frame_of frame.now))) }
{
    match frame {
        None => Ok(()),
        Some(part) => {
            put(code, allocated(part.base, part.size))?;
            bring_all(code, part.base, &part.parameters)
        }
    }
}

/// How many instructions that takes.
pub(crate) fn open_size(frame: &Option<DataFrame>) -> Result<u64, AllocError>
    ensures { IfOk result (λ n. n ≡ spec.open_size (option_map data_frame_of frame.now)) }
{
    match frame {
        None => Ok(0),
        Some(part) => sum(1, part.parameters.len() as u64),
    }
}

/// It ends.
pub(crate) fn close(
    code: &mut Vec<Instruction>,
    frame: &Option<DataFrame>,
) -> Result<(), AllocError>
    ensures { OnOk result (Appends code.old code.new
        (spec.close_code (option_map data_frame_of frame.now))) }
{
    match frame {
        None => Ok(()),
        Some(part) => put(code, set_pointer(part.base, 0)),
    }
}
