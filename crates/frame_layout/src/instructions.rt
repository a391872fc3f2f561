//! The instructions that take a frame and give it back.

ghost use Rattle.std.specs.Prelude.{◌≡◌, ◌+◌, ◌*◌, ◌^◌, ◌<◌, ◌≤◌, ◌++◌, [], ℕ, true, not, nat_le};
ghost use Rattle.std.specs.List.{AllByRecursion};
ghost use Rattle.arrayvec.specs.ArrayVec.{array_vec_len};
ghost use Rattle.x64_instr.specs.Registers as registers;
ghost use Rattle.x64_encode.specs.Chosen.{is_signed, IsEncodable};
ghost use Rattle.frame_rules.specs.Plan as rules;
ghost use Rattle.frame_rules.specs.Bytes.{prologue_code};
ghost use Rattle.template_code.specs.Frames.{probe_end};
ghost use Rattle.frame_layout.specs.Layout.{IsFrame};
ghost use Rattle.frame_layout.specs.declared.frame.FrameLayout as frames;
ghost use Rattle.frame_layout.specs.Plans as spec;

use crate::frame::{FrameLayout, frame_pushes};
use crate::operations::{FIRST_SAVED, operations, pushed_register};
use arrayvec::ArrayVec;
use eh_tables::UnwindOperation;
use host_layout::range::PAGE;
use seh_num::width::Width;
use template_code::layout::{FRAME_DISTANCE, FRAME_REGISTER};
use x64_instr::instruction::{Instr, Operation, Target};
use x64_instr::operand::{Base, MemRef, Operand, RegisterOrMemory};
use x64_instr::register::Reg;

/// The largest allocation that needs no probe of its pages: one page.
pub const PROBE_FREE: u64 = PAGE;

/// The bytes of a move of a number to EAX and of a call.
const PROBE_SIZE: u64 = 10;

/// The place so far above RSP.
fn stack_place(distance: u64) -> MemRef
    ensures { result ≡ rules.stack_place distance }
{
    MemRef {
        base: Base::Register(Reg::Rsp),
        index: None,
        displacement: distance,
    }
}

/// RSP changed by an operation with an operand.
fn change_rsp(operation: Operation, from: Operand) -> Instr
    ensures { result
        ≡ Instr.Arithmetic operation Width.W64 (RegisterOrMemory.Register Reg.Rsp) from }
{
    Instr::Arithmetic {
        operation,
        width: Width::W64,
        to: RegisterOrMemory::Register(Reg::Rsp),
        from,
    }
}

/// Adds what takes a fixed allocation. One of more than a page is taken after `__chkstk`, which is
/// `probe` bytes after the end of its call, has touched its pages.
fn put_allocation(instrs: &mut ArrayVec<Instr, 16>, size: u64, probe: u64)
    requires { array_vec_len instrs.old ≤ 13 }
    ensures { instrs.new.items
        ≡ instrs.old.items ++ rules.allocating probe size (nat_le size PROBE_FREE) }
{
    if size <= PROBE_FREE {
        instrs.push(change_rsp(Operation::Sub, Operand::Immediate(size)));
    } else {
        instrs.push(Instr::Move {
            width: Width::W32,
            to: RegisterOrMemory::Register(Reg::Rax),
            from: Operand::Immediate(size),
        });
        instrs.push(Instr::Call(Target::Relative(probe)));
        instrs.push(change_rsp(Operation::Sub, Operand::Register(Reg::Rax)));
    }
}

/// The store of a register in the place so far above RSP.
fn store(register: u8, distance: u64) -> Instr
    requires { register < 16 }
    ensures { result ≡ Instr.Move Width.W64 (RegisterOrMemory.Memory (rules.stack_place distance))
        (Operand.Register (registers.register register)) }
{
    Instr::Move {
        width: Width::W64,
        to: RegisterOrMemory::Memory(stack_place(distance)),
        from: Operand::Register(Reg::of(register)),
    }
}

/// Adds the instructions of an operation.
fn put_step(instrs: &mut ArrayVec<Instr, 16>, operation: UnwindOperation, framed: bool, probe: u64)
    requires room { array_vec_len instrs.old ≤ 13 }
    requires step { spec.IsStep framed operation }
    ensures { (f : frames.FrameLayout) → f.framed ≡ framed → instrs.new.items
        ≡ instrs.old.items ++ rules.instructions_of (spec.plan_of f probe) operation }
{
    match operation {
        UnwindOperation::Push { register } => instrs.push(Instr::Push(Reg::of(register))),
        UnwindOperation::Allocate { size } => put_allocation(instrs, u64::from(size), probe),
        UnwindOperation::SetFrame => instrs.push(Instr::LoadAddress {
            width: Width::W64,
            to: Reg::of(FRAME_REGISTER),
            from: stack_place(FRAME_DISTANCE),
        }),
        UnwindOperation::Save { register, offset } => {
            instrs.push(store(register, u64::from(offset)))
        }
        UnwindOperation::SaveVector { .. } | UnwindOperation::MachineFrame { .. } => {}
    }
}

/// How many bytes after a frame's first one the call of `__chkstk` ends, where there is one: after
/// the pushes, of a byte each.
pub fn probe_end(frame: &FrameLayout) -> u64
    requires { IsFrame frame.now }
    ensures value { result ≡ probe_end (spec.plan_of frame.now 0) }
    ensures few { result ≤ 14 }
{
    frame.pushes + frame_pushes(frame.framed) + PROBE_SIZE
}

/// The prologue of a frame.
pub fn prologue(frame: &FrameLayout, probe: u64) -> ArrayVec<Instr, 16>
    requires frame { IsFrame frame.now }
    requires near { is_signed Width.W32 Width.W64 probe ≡ true }
    ensures code { result.items ≡ prologue_code (spec.plan_of frame.now probe) }
    ensures encodable { AllByRecursion IsEncodable result.items }
{
    let operations = operations(frame);
    let mut instrs = ArrayVec::new();
    for operation in operations.as_slice() {
        put_step(&mut instrs, *operation, frame.framed, probe);
    }
    instrs
}

/// Adds the loads of the registers that are saved by MOV.
fn put_loads(instrs: &mut ArrayVec<Instr, 16>, slots: u64, count: u64)
    requires empty { instrs.old.items ≡ [] }
    requires count { count ≤ 4 }
    requires fits { slots + 8 * count < 2 ^ 31 }
    ensures { instrs.new.items ≡ rules.loads_then (spec.saves_of slots count) [] }
{
    for index in 0..count {
        let left = count - 1 - index;
        instrs.push(Instr::Move {
            width: Width::W64,
            to: RegisterOrMemory::Register(Reg::of(FIRST_SAVED + left as u8)),
            from: Operand::Memory(stack_place(slots + 8 * left)),
        });
    }
}

/// What leaves the fixed allocation: RSP raised, or where there is a frame register, taken from it.
fn opening(frame: &FrameLayout) -> Instr
    requires { IsFrame frame.now }
    ensures { (probe : ℕ) → result
        ≡ rules.opening_by (spec.plan_of frame.now probe) (not frame.now.framed) }
{
    if frame.framed {
        Instr::LoadAddress {
            width: Width::W64,
            to: Reg::Rsp,
            from: MemRef {
                base: Base::Register(Reg::of(FRAME_REGISTER)),
                index: None,
                displacement: frame.size.wrapping_sub(FRAME_DISTANCE),
            },
        }
    } else {
        change_rsp(Operation::Add, Operand::Immediate(frame.size))
    }
}

/// Adds the pops of what is pushed.
fn put_pops(instrs: &mut ArrayVec<Instr, 16>, count: u64, framed: bool)
    requires few { array_vec_len instrs.old ≤ 5 }
    requires count { count ≤ 3 }
    ensures items { instrs.new.items
        ≡ instrs.old.items ++ rules.pops_then (spec.pushes_of count framed) [] }
    ensures few { array_vec_len instrs.new ≤ 9 }
{
    for index in 0..count {
        instrs.push(Instr::Pop(Reg::of(pushed_register(count - 1 - index))));
    }
    if framed {
        instrs.push(Instr::Pop(Reg::of(FRAME_REGISTER)));
    }
}

/// The epilogue of a frame, with the loads before it.
pub fn epilogue(frame: &FrameLayout) -> ArrayVec<Instr, 16>
    requires { IsFrame frame.now }
    ensures code { (probe : ℕ) → result.items ≡ rules.epilogue (spec.plan_of frame.now probe) }
    ensures encodable { AllByRecursion IsEncodable result.items }
{
    let mut instrs = ArrayVec::new();
    put_loads(&mut instrs, frame.slots, frame.saves);
    instrs.push(opening(frame));
    put_pops(&mut instrs, frame.pushes, frame.framed);
    instrs.push(Instr::Return);
    instrs
}
