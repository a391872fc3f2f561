//! Epilogue: what a whole epilogue of a function is to be (Microsoft x64 ABI, "Epilog code").

ghost use Rattle.std.specs.Prelude.{◌≡◌, ◌+◌, ◌*◌, ◌%◌, ◌^◌, ◌≤◌, ◌&&◌, ◌==◌, length};
ghost use Rattle.virtual_unwind.specs.Tail as tails;
ghost use Rattle.virtual_unwind.specs.Undone.{operations};
ghost use Rattle.frame_rules.specs.Codes as codes_of;
ghost use Rattle.frame_rules.specs.Codes.{pushes};
ghost use Rattle.frame_rules.specs.Epilogue as rules;
ghost use Rattle.unwind_tails.specs.Instructions.{instrs};

use crate::fetched::FetchedInstr;
use eh_tables::{UnwindCode, UnwindOperation};
use seh_num::width::Width;
use x64_instr::instruction::{Instr, Operation, Target};
use x64_instr::operand::{Base, Index, MemRef, Operand, RegisterOrMemory};
use x64_instr::register::Reg;

fn size_allocated(operation: UnwindOperation) -> u32
    ensures { result ≡ codes_of.size_allocated operation }
{
    match operation {
        UnwindOperation::Allocate { size } => size,
        _ => 0,
    }
}

/// The fixed allocation, in bytes: the sum of all allocation codes.
pub fn allocation(codes: &[UnwindCode]) -> u128
    ensures value { result ≡ codes_of.allocation (operations codes.now) }
    ensures bound { result ≤ 2 ^ 32 * length codes.now }
{
    match codes {
        [] => 0,
        [first, rest @ ..] => size_allocated(first.operation) as u128 + allocation(rest),
    }
}

fn is_end(instr: &Instr) -> bool
    ensures { result ≡ rules.is_end instr.now }
{
    match instr {
        Instr::Return => true,
        Instr::Jump(Target::Indirect(RegisterOrMemory::Memory(_))) => true,
        _ => false,
    }
}

fn is_pop(register: u8, instr: &Instr) -> bool
    ensures { result ≡ rules.is_pop register instr.now }
{
    match instr {
        Instr::Pop(popped) => popped.number() == register,
        _ => false,
    }
}

fn pops(codes: &[UnwindCode], items: &[FetchedInstr]) -> bool
    ensures { result ≡ rules.pops (pushes (operations codes.now)) (instrs items.now) }
{
    match codes {
        [] => match items {
            [end] => is_end(end.instr()),
            _ => false,
        },
        [first, rest @ ..] => match first.operation {
            UnwindOperation::Push { register } => match items {
                [] => false,
                [pop, more @ ..] => is_pop(register, pop.instr()) && pops(rest, more),
            },
            _ => pops(rest, items),
        },
    }
}

/// Whether a place is a constant above the frame register, where there is one.
fn is_of(register: u8, base: Base, index: Option<Index>) -> bool
    ensures { result ≡ tails.is_of register base index }
{
    match (base, index) {
        (Base::Register(r), None) => {
            if register == 0 {
                false
            } else {
                r.number() == register
            }
        }
        _ => false,
    }
}

/// Whether a place is so many bytes above the base of the frame, by the frame register, which lies
/// `offset` bytes above that base.
pub fn is_above(frame: u8, offset: u64, distance: u128, place: MemRef) -> bool
    ensures { result ≡ (tails.is_of frame place.base place.index
        && ((offset + place.displacement) % 2 ^ 64 == distance)) }
{
    is_of(frame, place.base, place.index)
        && offset.wrapping_add(place.displacement) as u128 == distance
}

/// Whether an instruction gives back so many bytes, from RSP or from the frame register.
fn gives_back(frame: u8, offset: u64, size: u128, instr: &Instr) -> bool
    ensures { result ≡ rules.gives_back frame offset size instr.now }
{
    match instr {
        Instr::Arithmetic {
            operation: Operation::Add,
            width: Width::W64,
            to: RegisterOrMemory::Register(Reg::Rsp),
            from: Operand::Immediate(value),
        } => *value as u128 == size,
        Instr::LoadAddress {
            width: Width::W64,
            to: Reg::Rsp,
            from,
        } => is_above(frame, offset, size, *from),
        _ => false,
    }
}

/// Whether instructions are a whole epilogue by these codes: the allocation given back, where there
/// is one, by `add rsp,n` or from the frame register; the pushes popped, the last one first; and an
/// end. `frame` is the number of the frame register, 0 where there is none, and `offset` how many
/// bytes it lies above the base of the frame.
pub fn is_epilogue(frame: u8, offset: u64, codes: &[UnwindCode], items: &[FetchedInstr]) -> bool
    ensures { result ≡ rules.is_epilogue frame offset (operations codes.now) (instrs items.now) }
{
    match items {
        [] => false,
        [first, rest @ ..] => {
            let size = allocation(codes);
            (gives_back(frame, offset, size, first.instr()) && pops(codes, rest))
                || (size == 0 && pops(codes, items))
        }
    }
}
