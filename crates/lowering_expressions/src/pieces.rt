//! What is between and after the operands of a node.

ghost use Rattle.std.specs.Prelude.{◌≡◌, ◌+◌, [], ◌∷◌, OnOk, IfOk};
ghost use Rattle.linear_code.specs.declared.slot.Slot.TheVariants.{Temporary};
ghost use Rattle.linear_code.specs.declared.instruction.Instruction.TheVariants.{Jump, JumpIfZero};
ghost use Rattle.c_checked.specs.Expression as tree;
ghost use Rattle.lowering_sizes.specs.Sizes as sizes;
ghost use Rattle.lowering_expressions.specs.Appended.{Appends, Places};
ghost use Rattle.lowering_expressions.specs.Expressions as spec;
ghost use Rattle.lowering_expressions.specs.Pieces as pieces;

use crate::instructions::{
    chosen, combine, constant, convert, copy, operate_by, put, put_all, read, write,
};
use c_checked::expression::{Conversion, Expr, Fixity, Lvalue};
use c_operations::operation::{Operation, Pure, Signedness, Size};
use linear_code::instruction::Instruction;
use linear_code::slot::Slot;
use lowering_sizes::sizes::{address_count, expression_size};
use lowering_sizes::sums::sum;
use std::alloc::AllocError;

/// The temporary after the address of a place that was located to `d`.
pub fn after_place(place: &Lvalue, d: u64) -> Result<u64, AllocError>
    ensures { IfOk result (λ n. n ≡ d + sizes.address_count (tree.lvalue place.now)) }
{
    sum(d, address_count(place))
}

pub fn operate(code: &mut Vec<Instruction>, d: u64, operation: Operation) -> Result<(), AllocError>
    ensures { OnOk result (Appends code.old code.new (spec.combine d operation ∷ [])) }
{
    let next = sum(d, 1)?;
    put(code, combine(d, next, operation))
}

pub fn assign(code: &mut Vec<Instruction>, place: &Lvalue, d: u64) -> Result<(), AllocError>
    ensures { OnOk result (Appends code.old code.new (pieces.assigned (tree.lvalue place.now) d)) }
{
    let from = after_place(place, d)?;
    put(code, write(place, d, from, d))
}

pub fn begin_compound(
    code: &mut Vec<Instruction>,
    place: &Lvalue,
    before: Conversion,
    d: u64,
) -> Result<(), AllocError>
    ensures { OnOk result (Appends code.old code.new
        (pieces.compound_begun (tree.lvalue place.now) before d)) }
{
    let old = after_place(place, d)?;
    read(code, place, d, old)?;
    convert(code, before, old)
}

pub fn end_compound(
    code: &mut Vec<Instruction>,
    place: &Lvalue,
    operation: Operation,
    after: Conversion,
    d: u64,
) -> Result<(), AllocError>
    ensures { OnOk result (Appends code.old code.new
        (pieces.compound_ended (tree.lvalue place.now) operation after d)) }
{
    let old = after_place(place, d)?;
    operate(code, old, operation)?;
    convert(code, after, old)?;
    put(code, write(place, d, old, d))
}

pub fn end_difference(code: &mut Vec<Instruction>, size: u64, d: u64) -> Result<(), AllocError>
    ensures { OnOk result (Appends code.old code.new (pieces.difference_ended size d)) }
{
    let next = sum(d, 1)?;
    let ended = [
        combine(d, next, Operation::Pure(Pure::Subtract(Size::Long))),
        constant(next, size),
        combine(d, next, Operation::Divide(Signedness::Signed, Size::Long)),
    ];
    put_all(code, &ended)
}

/// A jump over so many instructions, itself among them, where the temporary is 0.
pub fn test(code: &mut Vec<Instruction>, d: u64, size: u64, more: u64) -> Result<(), AllocError>
    ensures { OnOk result (Places code.old code.new
        (λ at. JumpIfZero (Temporary d) (at + (size + more)) ∷ [])) }
{
    let over = sum(size, more)?;
    let label = sum(code.len() as u64, over)?;
    let slot = Slot::Temporary(d);
    put(code, Instruction::JumpIfZero { slot, label })
}

/// A jump over so many instructions, itself among them.
pub fn skip(code: &mut Vec<Instruction>, size: u64, more: u64) -> Result<(), AllocError>
    ensures { OnOk result (Places code.old code.new (λ at. Jump (at + (size + more)) ∷ [])) }
{
    let over = sum(size, more)?;
    let label = sum(code.len() as u64, over)?;
    put(code, Instruction::Jump { label })
}

/// A jump over an expression and so many instructions more, the jump among them, where the
/// temporary is 0.
pub fn test_before(
    code: &mut Vec<Instruction>,
    d: u64,
    expr: &Expr,
    more: u64,
) -> Result<(), AllocError>
    ensures { OnOk result (Places code.old code.new (λ at. JumpIfZero (Temporary d)
        (at + (sizes.expression_size (tree.expression expr.now) + more)) ∷ [])) }
{
    let size = expression_size(expr)?;
    test(code, d, size, more)
}

/// A jump over an expression and so many instructions more, the jump among them.
pub fn skip_before(code: &mut Vec<Instruction>, expr: &Expr, more: u64) -> Result<(), AllocError>
    ensures { OnOk result (Places code.old code.new (λ at. Jump
        (at + (sizes.expression_size (tree.expression expr.now) + more)) ∷ [])) }
{
    let size = expression_size(expr)?;
    skip(code, size, more)
}

pub fn copy_down(code: &mut Vec<Instruction>, d: u64) -> Result<(), AllocError>
    ensures { OnOk result (Appends code.old code.new
        (spec.copy (Temporary d) (Temporary (d + 1)) ∷ [])) }
{
    let next = sum(d, 1)?;
    put(code, copy(Slot::Temporary(d), Slot::Temporary(next)))
}

/// The end of `++` and `--`, with the new value converted: it comes to the place, and the value of
/// the expression to the temporary `d`.
fn end_increment(
    code: &mut Vec<Instruction>,
    place: &Lvalue,
    fixity: Fixity,
    old: u64,
    d: u64,
) -> Result<(), AllocError>
    ensures { OnOk result (Appends code.old code.new
        (pieces.increment_ended (tree.lvalue place.now) fixity old d)) }
{
    let new = sum(old, 1)?;
    let from = chosen(fixity, old)?;
    let ended = [
        write(place, d, new, new),
        copy(Slot::Temporary(d), Slot::Temporary(from)),
    ];
    put_all(code, &ended)
}

/// The new value of `++` and `--`, in the temporary after the old one.
fn next_value(
    code: &mut Vec<Instruction>,
    before: Conversion,
    operation: Operation,
    amount: u64,
    after: Conversion,
    old: u64,
) -> Result<(), AllocError>
    ensures { OnOk result (Appends code.old code.new
        (pieces.next_value before operation amount after old)) }
{
    let new = sum(old, 1)?;
    put(code, copy(Slot::Temporary(new), Slot::Temporary(old)))?;
    convert(code, before, new)?;
    operate_by(code, new, amount, operation)?;
    convert(code, after, new)
}

/// `++` and `--` at a place that was located.
pub fn increment(
    code: &mut Vec<Instruction>,
    place: &Lvalue,
    fixity: Fixity,
    before: Conversion,
    operation: Operation,
    amount: u64,
    after: Conversion,
    d: u64,
) -> Result<(), AllocError>
    ensures { OnOk result (Appends code.old code.new
        (pieces.incremented (tree.lvalue place.now) fixity before operation amount after d)) }
{
    let old = after_place(place, d)?;
    read(code, place, d, old)?;
    next_value(code, before, operation, amount, after, old)?;
    end_increment(code, place, fixity, old, d)
}
