//! Single instructions, and those of conversions, names and places.

ghost use Rattle.std.specs.Prelude.{◌≡◌, ◌+◌, [], ◌∷◌, length, OnOk, IfOk};
ghost use Rattle.c_operations.specs.declared.operation.Operation.TheVariants as operations;
ghost use Rattle.c_operations.specs.declared.operation.Pure.TheVariants as pures;
ghost use Rattle.linear_code.specs.declared.slot.Slot.TheVariants.{Temporary};
ghost use Rattle.linear_code.specs.declared.instruction.Instruction.TheVariants.{Compute, Information};
ghost use Rattle.c_checked.specs.Expression as tree;
ghost use Rattle.lowering_expressions.specs.Appended.{Appends, Places};
ghost use Rattle.lowering_expressions.specs.Expressions as spec;

use crate::scope::ExceptionSource;
use c_checked::expression::{Access, Conversion, Fixity, Lvalue};
use c_operations::field::Field;
use c_operations::operation::{Operation, Pure, Signedness, Size};
use linear_code::instruction::Instruction;
use linear_code::slot::Slot;
use lowering_sizes::sums::sum;
use seh_num::width::Width;
use std::alloc::AllocError;

/// One instruction more.
pub fn put(code: &mut Vec<Instruction>, instruction: Instruction) -> Result<(), AllocError>
    ensures { OnOk result (Appends code.old code.new (instruction ∷ [])) }
{
    code.push(instruction)?;
    Ok(())
}

/// Several instructions more.
pub fn put_all(code: &mut Vec<Instruction>, instructions: &[Instruction]) -> Result<(), AllocError>
    ensures { OnOk result (Appends code.old code.new instructions.now) }
{
    code.extend_from_slice(instructions)?;
    Ok(())
}

pub fn constant(d: u64, n: u64) -> Instruction
    ensures { result ≡ spec.constant d n }
{
    change(d, Operation::Pure(Pure::Constant(n)))
}

pub fn copy(to: Slot, from: Slot) -> Instruction
    ensures { result ≡ spec.copy to from }
{
    Instruction::Compute {
        to,
        operation: Operation::Pure(Pure::First),
        first: from,
        second: from,
    }
}

/// The number of the instruction that is so many after those that are there.
pub fn ahead(code: &Vec<Instruction>, by: u64) -> Result<u64, AllocError>
    ensures { IfOk result (λ n. n ≡ length code.now.items + by) }
{
    sum(code.len() as u64, by)
}

/// An operation on one temporary.
pub fn change(d: u64, operation: Operation) -> Instruction
    ensures { result ≡ spec.change d operation }
{
    Instruction::Compute {
        to: Slot::Temporary(d),
        operation,
        first: Slot::Temporary(d),
        second: Slot::Temporary(d),
    }
}

/// An operation on two temporaries, to the first.
pub fn combine(d: u64, other: u64, operation: Operation) -> Instruction
    ensures { result ≡ Compute (Temporary d) operation (Temporary d) (Temporary other) }
{
    Instruction::Compute {
        to: Slot::Temporary(d),
        operation,
        first: Slot::Temporary(d),
        second: Slot::Temporary(other),
    }
}

/// Where a variable on the data stack stands, to a temporary.
pub fn stacked(
    code: &mut Vec<Instruction>,
    base: u64,
    offset: u64,
    d: u64,
) -> Result<(), AllocError>
    ensures { OnOk result (Appends code.old code.new (spec.stacked_code base offset d)) }
{
    let above = Instruction::Compute {
        to: Slot::Temporary(d),
        operation: Operation::Pure(Pure::Add(Size::Long)),
        first: Slot::Local(base),
        second: Slot::Temporary(d),
    };
    put_all(code, &[constant(d, offset), above])
}

/// A number to the next temporary, and an operation on a temporary and that one.
pub fn operate_by(
    code: &mut Vec<Instruction>,
    d: u64,
    number: u64,
    operation: Operation,
) -> Result<(), AllocError>
    ensures { OnOk result (Appends code.old code.new
        (spec.constant (d + 1) number ∷ spec.combine d operation ∷ [])) }
{
    let next = sum(d, 1)?;
    put_all(code, &[constant(next, number), combine(d, next, operation)])
}

/// The low bits of a temporary, extended to a size.
fn extend(d: u64, signedness: Signedness, from: Width, size: Size) -> Instruction
    ensures { result ≡ spec.change d (operations.Pure (pures.Extend signedness from size)) }
{
    change(
        d,
        Operation::Pure(Pure::Extend {
            signedness,
            from,
            size,
        }),
    )
}

pub fn convert(
    code: &mut Vec<Instruction>,
    conversion: Conversion,
    d: u64,
) -> Result<(), AllocError>
    ensures { OnOk result (Appends code.old code.new (spec.conversion_code conversion d)) }
{
    match conversion {
        Conversion::Kept => Ok(()),
        Conversion::Extend {
            signedness,
            from,
            size,
        } => put(code, extend(d, signedness, from, size)),
        Conversion::Scale {
            signedness,
            from,
            by,
        } => {
            put_all(
                code,
                &[
                    extend(d, signedness, from, Size::Long),
                    change(d, Operation::Pure(Pure::MultiplyBy(by))),
                ],
            )
        }
    }
}

fn size_of(width: Width) -> Size
    ensures { result ≡ spec.size_of width }
{
    match width {
        Width::W8 => Size::Int,
        Width::W16 => Size::Int,
        Width::W32 => Size::Int,
        Width::W64 => Size::Long,
    }
}

pub fn unary(code: &mut Vec<Instruction>, operation: Pure, d: u64) -> Result<(), AllocError>
    ensures { OnOk result (Appends code.old code.new (spec.unary_code operation d)) }
{
    match operation {
        Pure::First => Ok(()),
        _ => operate_by(code, d, 0, Operation::Pure(operation)),
    }
}

/// One number where the temporary is 0, and another where it isn't.
pub fn choose(code: &mut Vec<Instruction>, d: u64, zero: u64, other: u64) -> Result<(), AllocError>
    ensures { OnOk result (Places code.old code.new (λ at. spec.choice_code d at zero other)) }
{
    let at = code.len() as u64;
    let choice = [
        Instruction::JumpIfZero {
            slot: Slot::Temporary(d),
            label: at + 3,
        },
        constant(d, other),
        Instruction::Jump { label: at + 4 },
        constant(d, zero),
    ];
    put_all(code, &choice)
}

/// The code of the exception that GetExceptionCode means.
pub fn exception_code(source: ExceptionSource, d: u64) -> Instruction
    ensures { result ≡ spec.code_code source d }
{
    match source {
        ExceptionSource::NoException => constant(d, 0),
        ExceptionSource::OfFilter => Instruction::Information {
            to: Slot::Temporary(d),
            field: Field::ExceptionCode,
        },
        ExceptionSource::KeptIn(local) => copy(Slot::Temporary(d), Slot::Local(local)),
    }
}

pub fn abnormal(flag: Option<u64>, d: u64) -> Instruction
    ensures { result ≡ spec.abnormal_code flag d }
{
    match flag {
        None => constant(d, 0),
        Some(local) => copy(Slot::Temporary(d), Slot::Local(local)),
    }
}

/// A field of the exception's record.
pub fn information(field: Field, d: u64) -> Instruction
    ensures { result ≡ Information (Temporary d) field }
{
    Instruction::Information {
        to: Slot::Temporary(d),
        field,
    }
}

fn load(
    code: &mut Vec<Instruction>,
    access: Access,
    address: u64,
    to: u64,
) -> Result<(), AllocError>
    ensures { OnOk result (Appends code.old code.new (spec.load_code access address to)) }
{
    let bytes = Instruction::Compute {
        to: Slot::Temporary(to),
        operation: Operation::Load(access.width),
        first: Slot::Temporary(address),
        second: Slot::Temporary(address),
    };
    let value = change(
        to,
        Operation::Pure(Pure::Extend {
            signedness: access.signedness,
            from: access.width,
            size: size_of(access.width),
        }),
    );
    put_all(code, &[bytes, value])
}

/// What is at a place that was located, to a temporary.
pub fn read(
    code: &mut Vec<Instruction>,
    place: &Lvalue,
    address: u64,
    to: u64,
) -> Result<(), AllocError>
    ensures { OnOk result (Appends code.old code.new
        (spec.read_code (tree.lvalue place.now) address to)) }
{
    match place {
        Lvalue::Local(local) => put(code, copy(Slot::Temporary(to), Slot::Local(*local))),
        Lvalue::Global { access, .. } => load(code, *access, address, to),
        Lvalue::Stacked { access, .. } => load(code, *access, address, to),
        Lvalue::Indirection { access, .. } => load(code, *access, address, to),
        Lvalue::Element { access, .. } => load(code, *access, address, to),
    }
}

fn store(access: Access, address: u64, from: u64, to: u64) -> Instruction
    ensures { result ≡ spec.store_code access address from to }
{
    Instruction::Compute {
        to: Slot::Temporary(to),
        operation: Operation::Store(access.width),
        first: Slot::Temporary(address),
        second: Slot::Temporary(from),
    }
}

/// A temporary to a place that was located.
pub fn write(place: &Lvalue, address: u64, from: u64, to: u64) -> Instruction
    ensures { result ≡ spec.write_code (tree.lvalue place.now) address from to }
{
    match place {
        Lvalue::Local(local) => copy(Slot::Local(*local), Slot::Temporary(from)),
        Lvalue::Global { access, .. } => store(*access, address, from, to),
        Lvalue::Stacked { access, .. } => store(*access, address, from, to),
        Lvalue::Indirection { access, .. } => store(*access, address, from, to),
        Lvalue::Element { access, .. } => store(*access, address, from, to),
    }
}

/// Which of two temporaries is the value of `++` or `--`: that of the old value, or the next one.
pub fn chosen(fixity: Fixity, old: u64) -> Result<u64, AllocError>
    ensures { IfOk result (λ n. n ≡ spec.chosen_of fixity old) }
{
    match fixity {
        Fixity::Postfix => Ok(old),
        Fixity::Prefix => sum(old, 1),
    }
}
