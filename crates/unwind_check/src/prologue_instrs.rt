//! Prologue: whether an instruction is the one that its unwind code says (Microsoft x64 ABI,
//! "Prolog code").

ghost use Rattle.std.specs.Prelude.{◌≡◌};
ghost use Rattle.eh_tables.specs.declared.code.UnwindOperation.TheVariants as codes;
ghost use Rattle.frame_rules.specs.Prologue as rules;

use eh_tables::UnwindOperation;
use seh_num::width::Width;
use unwind_tails::epilogue::is_above;
use x64_instr::instruction::{Instr, Operation, Target};
use x64_instr::operand::{Base, Index, MemRef, Operand, RegisterOrMemory};
use x64_instr::register::Reg;

fn is_stack_base(base: Base, index: Option<Index>) -> bool
    ensures { result ≡ rules.is_stack_base base index }
{
    match (base, index) {
        (Base::Register(Reg::Rsp), None) => true,
        _ => false,
    }
}

/// Whether a place is so many bytes above RSP.
pub fn is_stack(distance: u64, place: MemRef) -> bool
    ensures { result ≡ rules.is_stack distance place }
{
    is_stack_base(place.base, place.index) && place.displacement == distance
}

fn pushes(register: u8, instr: &Instr) -> bool
    ensures { result ≡ rules.does 0 0 (codes.Push register) instr.now }
{
    match instr {
        Instr::Push(pushed) => pushed.number() == register,
        _ => false,
    }
}

fn allocates(size: u32, instr: &Instr) -> bool
    ensures { result ≡ rules.does 0 0 (codes.Allocate size) instr.now }
{
    match instr {
        Instr::Arithmetic {
            operation: Operation::Sub,
            width: Width::W64,
            to: RegisterOrMemory::Register(Reg::Rsp),
            from: Operand::Immediate(value),
        } => *value == size as u64,
        _ => false,
    }
}

fn sets_frame(frame: u8, offset: u64, instr: &Instr) -> bool
    ensures { result ≡ rules.does frame offset codes.SetFrame instr.now }
{
    match instr {
        Instr::LoadAddress {
            width: Width::W64,
            to,
            from,
        } => to.number() == frame && is_stack(offset, *from),
        _ => false,
    }
}

/// Whether a place is so many bytes above the base of the frame, by RSP, or by the frame register,
/// which lies `offset` bytes above that base.
pub fn is_place(frame: u8, offset: u64, distance: u32, place: MemRef) -> bool
    ensures { result ≡ rules.is_place frame offset distance place }
{
    is_stack(distance as u64, place) || is_above(frame, offset, distance as u128, place)
}

fn stores(frame: u8, offset: u64, register: u8, distance: u32, instr: &Instr) -> bool
    ensures { result ≡ rules.does frame offset (codes.Save register distance) instr.now }
{
    match instr {
        Instr::Move {
            width: Width::W64,
            to: RegisterOrMemory::Memory(place),
            from: Operand::Register(stored),
        } => stored.number() == register && is_place(frame, offset, distance, *place),
        _ => false,
    }
}

/// Whether an instruction does what a code says: `push r`, `sub rsp,n`, `lea f,[rsp + n]`, or
/// `mov [rsp + n],r` or the same place by the frame register. `frame` is the number of the frame
/// register, 0 where there is none, and `offset` how many bytes it lies above RSP.
pub fn does(frame: u8, offset: u64, operation: UnwindOperation, instr: &Instr) -> bool
    ensures { result ≡ rules.does frame offset operation instr.now }
{
    match operation {
        UnwindOperation::Push { register } => pushes(register, instr),
        UnwindOperation::Allocate { size } => allocates(size, instr),
        UnwindOperation::SetFrame => sets_frame(frame, offset, instr),
        UnwindOperation::Save {
            register,
            offset: distance,
        } => stores(frame, offset, register, distance, instr),
        _ => false,
    }
}

fn sets_size(size: u32, instr: &Instr) -> bool
    ensures { result ≡ rules.sets_size size instr.now }
{
    match instr {
        Instr::Move {
            width: Width::W32 | Width::W64,
            to: RegisterOrMemory::Register(Reg::Rax),
            from: Operand::Immediate(value),
        } => *value == size as u64,
        _ => false,
    }
}

fn is_call(instr: &Instr) -> bool
    ensures { result ≡ rules.is_call instr.now }
{
    match instr {
        Instr::Call(Target::Relative(_)) => true,
        _ => false,
    }
}

fn subtracts(instr: &Instr) -> bool
    ensures { result ≡ rules.subtracts instr.now }
{
    match instr {
        Instr::Arithmetic {
            operation: Operation::Sub,
            width: Width::W64,
            to: RegisterOrMemory::Register(Reg::Rsp),
            from: Operand::Register(Reg::Rax),
        } => true,
        _ => false,
    }
}

/// Whether three instructions are an allocation by a call that probes its pages: `mov eax,n` or
/// `mov rax,n`, a relative call, and `sub rsp,rax`.
pub fn probes(operation: UnwindOperation, first: &Instr, second: &Instr, third: &Instr) -> bool
    ensures { result ≡ rules.allocates operation first.now second.now third.now }
{
    match operation {
        UnwindOperation::Allocate { size } => {
            sets_size(size, first) && is_call(second) && subtracts(third)
        }
        _ => false,
    }
}
