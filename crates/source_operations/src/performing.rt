//! Operations that may fault or change memory.

ghost use Rattle.std.specs.Prelude.{◌≡◌, false};
ghost use Rattle.flat_memory.specs.Memory.{Memory};
ghost use Rattle.c_operations.specs.Performed as spec;
ghost use Rattle.x64_memory.specs.PageMaps.{memory_of};
ghost use Rattle.source_operations.specs.Reserved.{reserved_below};
ghost use Rattle.source_operations.specs.Outcomes as outcomes;
ghost use Rattle.source_operations.specs.Outcomes.{outcome_of, is_given};

use crate::data_stack::{place, pointer, set_pointer};
use crate::pure::{result_of, width};
use crate::reserved::first_reserved;
use c_operations::operation::{Operation, Signedness, Size};
use flat_memory::access::RefusedAccess;
use seh_num::code::{ACCESS_VIOLATION, INTEGER_DIVIDE_BY_ZERO, INTEGER_OVERFLOW};
use seh_num::division::{DivFault, div_signed, div_unsigned};
use seh_num::event::Code;
use seh_num::extension::{sign_extend, wrap, zero_extend};
use seh_num::width::Width;
use x64_memory::page_map::PageMap;
use x64_memory::space::AddressSpace;

/// What an operation comes to.
#[derive(Clone, Copy)]
pub enum Performed {
    Gives(u64),
    /// A fault, with its access: whether it was a write, and the address.
    Raises {
        code: Code,
        access: Option<(bool, u64)>,
    },
    /// An access to this byte, of which the language says nothing.
    Undefined(u64),
}

fn fault(fault: DivFault) -> Performed
    ensures { (m : Memory) → outcome_of result m ≡ spec.fault_of fault }
{
    let code = match fault {
        DivFault::Zero => INTEGER_DIVIDE_BY_ZERO,
        DivFault::Overflow => INTEGER_OVERFLOW,
    };
    Performed::Raises { code, access: None }
}

/// The quotient (C11, 6.5.5).
fn quotient(signedness: Signedness, width: Width, first: u64, second: u64) -> Performed
    ensures { (m : Memory) → outcome_of result m ≡ spec.quotient signedness width first second m }
{
    match signedness {
        Signedness::Signed => {
            let dividend = i128::from(sign_extend(width, first));
            match div_signed(width, dividend, sign_extend(width, second)) {
                Ok((quotient, _)) => Performed::Gives(wrap(width, i128::from(quotient))),
                Err(error) => fault(error),
            }
        }
        Signedness::Unsigned => {
            let dividend = u128::from(zero_extend(width, first));
            match div_unsigned(width, dividend, zero_extend(width, second)) {
                Ok((quotient, _)) => Performed::Gives(quotient),
                Err(error) => fault(error),
            }
        }
    }
}

/// The remainder of that division.
fn remainder(signedness: Signedness, width: Width, first: u64, second: u64) -> Performed
    ensures { (m : Memory) → outcome_of result m ≡ spec.remainder signedness width first second m }
{
    match signedness {
        Signedness::Signed => {
            let dividend = i128::from(sign_extend(width, first));
            match div_signed(width, dividend, sign_extend(width, second)) {
                Ok((_, remainder)) => Performed::Gives(wrap(width, i128::from(remainder))),
                Err(error) => fault(error),
            }
        }
        Signedness::Unsigned => {
            let dividend = u128::from(zero_extend(width, first));
            match div_unsigned(width, dividend, zero_extend(width, second)) {
                Ok((_, remainder)) => Performed::Gives(remainder),
                Err(error) => fault(error),
            }
        }
    }
}

/// The fault of a refused access.
fn violation(write: bool, refused: RefusedAccess) -> Performed
    ensures { (m : Memory) → outcome_of result m ≡ outcomes.violation write refused }
{
    let address = match refused {
        RefusedAccess::Fault { address, .. } => address,
        RefusedAccess::Guard { address } => address,
    };
    Performed::Raises {
        code: ACCESS_VIOLATION,
        access: Some((write, address)),
    }
}

/// A load of bytes that aren't reserved.
fn load_number<S: AddressSpace>(space: &S, width: Width, at: u64) -> Performed
    ensures { outcome_of result (S.memory space.now) ≡
        outcomes.loaded width at (S.memory space.now) }
{
    match space.load(at, width) {
        Ok(number) => Performed::Gives(number),
        Err(refused) => violation(false, refused),
    }
}

/// A load.
fn load<S: AddressSpace>(space: &S, data_end: u64, width: Width, at: u64) -> Performed
    ensures { outcome_of result (S.memory space.now)
        ≡ spec.load (reserved_below data_end) width at (S.memory space.now) }
{
    match first_reserved(data_end, at, width.bytes()) {
        Some(address) => Performed::Undefined(address),
        None => load_number(space, width, at),
    }
}

/// A store. Where it isn't made, nothing is changed.
fn store<S: AddressSpace>(
    space: &mut S,
    data_end: u64,
    width: Width,
    at: u64,
    number: u64,
) -> Performed
    ensures outcome { outcome_of result (S.memory space.new) ≡
        spec.store (reserved_below data_end) width at number (S.memory space.old) }
    ensures kept { is_given result ≡ false → S.memory space.new ≡ S.memory space.old }
{
    if let Some(address) = first_reserved(data_end, at, width.bytes()) {
        return Performed::Undefined(address);
    }
    match space.store(at, width, zero_extend(width, number)) {
        Ok(()) => Performed::Gives(number),
        Err(refused) => violation(true, refused),
    }
}

/// An operation on two operands, in a memory whose globals' pages end at an address. Where it gives
/// no number, nothing is changed.
pub fn perform(
    space: &mut PageMap,
    data_end: u64,
    operation: Operation,
    first: u64,
    second: u64,
) -> Performed
    ensures outcome { outcome_of result (memory_of space.new) ≡
        spec.performed (reserved_below data_end) operation first second (memory_of space.old) }
    ensures kept { is_given result ≡ false → memory_of space.new ≡ memory_of space.old }
{
    match operation {
        Operation::Pure(operation) => Performed::Gives(result_of(operation, first, second)),
        Operation::Divide(signedness, size) => quotient(signedness, width(size), first, second),
        Operation::Remainder(signedness, size) => remainder(signedness, width(size), first, second),
        Operation::Load(width) => load(space, data_end, width, first),
        Operation::Store(width) => store(space, data_end, width, first, second),
        Operation::Allocate(count) => {
            let pointer = pointer(space);
            set_pointer(space, pointer.wrapping_add(count));
            Performed::Gives(pointer)
        }
        Operation::SetPointer(count) => {
            set_pointer(space, first.wrapping_add(count));
            Performed::Gives(first)
        }
        Operation::Place { width, offset } => {
            place(
                space,
                data_end,
                width,
                first.wrapping_add(offset),
                second,
                second,
            )
        }
        Operation::Clear { width, offset } => {
            let before = second.wrapping_sub(width.bytes());
            let at = first.wrapping_add(offset).wrapping_add(before);
            place(space, data_end, width, at, 0, before)
        }
    }
}

fn number_of(outcome: Performed) -> Option<u64>
    ensures { (m : Memory) → result ≡ outcomes.number_of (outcome_of outcome m) }
{
    match outcome {
        Performed::Gives(number) => Some(number),
        Performed::Raises { .. } => None,
        Performed::Undefined(_) => None,
    }
}

/// The number that an operation on two operands gives, in a memory whose globals' pages end at an
/// address. None where it faults, where the language says nothing of it, and where it may change
/// memory.
pub fn compute<S: AddressSpace>(
    space: &S,
    data_end: u64,
    operation: Operation,
    first: u64,
    second: u64,
) -> Option<u64>
    ensures { result ≡ outcomes.computed (reserved_below data_end) operation first second
        (S.memory space.now) }
{
    match operation {
        Operation::Pure(operation) => Some(result_of(operation, first, second)),
        Operation::Divide(signedness, size) => {
            number_of(quotient(signedness, width(size), first, second))
        }
        Operation::Remainder(signedness, size) => {
            number_of(remainder(signedness, width(size), first, second))
        }
        Operation::Load(width) => number_of(load(space, data_end, width, first)),
        Operation::Store(_)
        | Operation::Allocate(_)
        | Operation::SetPointer(_)
        | Operation::Place { .. }
        | Operation::Clear { .. } => None,
    }
}
