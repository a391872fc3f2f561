//! What is known of registers after an instruction (Intel manual, volume 2).

ghost use Rattle.std.specs.Prelude.{◌≡◌, ◌<◌, ◌-◌, ◌^◌, ℕ, [], ◌∷◌};
ghost use Rattle.x64_instr.specs.Registers.{number};
ghost use Rattle.x64_instr.specs.Written as instrs;
ghost use Rattle.x64_instr.specs.declared.instruction.Instr.TheVariants as forms;
ghost use Rattle.x64_instr.specs.declared.instruction.Operation.TheVariants.{Add, Sub};
ghost use Rattle.seh_num.specs.declared.width.Width.TheVariants.{W32, W64};
ghost use Rattle.x64_instr.specs.declared.operand.RegisterOrMemory.TheVariants as places;
ghost use Rattle.frame_known.specs.Known as runs;
ghost use Rattle.frame_known.specs.After as spec;
ghost use Rattle.known_frames.specs.Views.{knowledge_of, registers_of};

use crate::address::{address, difference, lowered, raised, sum};
use crate::knowledge::{Knowledge, known_of, with_known};
use crate::words::word_at;
use frame_known::known::Known;
use seh_num::width::Width;
use x64_instr::instruction::{Instr, Operation};
use x64_instr::operand::{Operand, RegisterOrMemory};
use x64_instr::register::Reg;

#[tactic(auto, using(crate::proofs::Entered::one_forgotten))]
fn without(registers: &[Known; 16], register: u8) -> [Known; 16]
    requires { register < 16 }
    ensures { (r : ℕ) → registers_of result r
        ≡ spec.forgotten (register ∷ []) (registers_of registers.now) r }
{
    with_known(registers, register, Known::Nothing)
}

fn without_place(registers: &[Known; 16], place: RegisterOrMemory) -> [Known; 16]
    ensures { (r : ℕ) → registers_of result r
        ≡ spec.forgotten (instrs.written_place place) (registers_of registers.now) r }
{
    match place {
        RegisterOrMemory::Register(register) => without(registers, register.number()),
        RegisterOrMemory::Memory(_) => *registers,
    }
}

/// RAX and RDX.
fn without_product(registers: &[Known; 16]) -> [Known; 16]
    ensures { (r : ℕ) → registers_of result r
        ≡ spec.forgotten (0 ∷ 2 ∷ []) (registers_of registers.now) r }
{
    without(&without(registers, 2), 0)
}

fn added(width: Width, to: RegisterOrMemory, from: Operand, known: &Knowledge) -> [Known; 16]
    ensures { (r : ℕ) → registers_of result r
        ≡ spec.registers_after (forms.Arithmetic Add width to from) (knowledge_of known.now) r }
{
    let registers = &known.registers;
    match width {
        Width::W64 => match to {
            RegisterOrMemory::Register(register) => {
                let here = known_of(registers, register);
                match from {
                    Operand::Immediate(by) => {
                        with_known(registers, register.number(), raised(by, here))
                    }
                    Operand::Register(other) => {
                        let by = known_of(registers, other);
                        with_known(registers, register.number(), sum(here, by))
                    }
                    Operand::Memory(_) => without(registers, register.number()),
                }
            }
            RegisterOrMemory::Memory(_) => *registers,
        },
        _ => without_place(registers, to),
    }
}

fn subtracted(width: Width, to: RegisterOrMemory, from: Operand, known: &Knowledge) -> [Known; 16]
    ensures { (r : ℕ) → registers_of result r
        ≡ spec.registers_after (forms.Arithmetic Sub width to from) (knowledge_of known.now) r }
{
    let registers = &known.registers;
    match width {
        Width::W64 => match to {
            RegisterOrMemory::Register(register) => {
                let here = known_of(registers, register);
                match from {
                    Operand::Immediate(by) => {
                        with_known(registers, register.number(), lowered(by, here))
                    }
                    Operand::Register(other) => {
                        let by = known_of(registers, other);
                        with_known(registers, register.number(), difference(here, by))
                    }
                    Operand::Memory(_) => without(registers, register.number()),
                }
            }
            RegisterOrMemory::Memory(_) => *registers,
        },
        _ => without_place(registers, to),
    }
}

fn computed(
    operation: Operation,
    width: Width,
    to: RegisterOrMemory,
    from: Operand,
    known: &Knowledge,
) -> [Known; 16]
    ensures { (r : ℕ) → registers_of result r
        ≡ spec.registers_after (forms.Arithmetic operation width to from) (knowledge_of known.now)
        r }
{
    match operation {
        Operation::Add => added(width, to, from, known),
        Operation::Sub => subtracted(width, to, from, known),
        Operation::Compare => known.registers,
        _ => without_place(&known.registers, to),
    }
}

/// A register set to an operand of 64 bits.
fn loaded(register: Reg, from: Operand, known: &Knowledge) -> [Known; 16]
    ensures { (r : ℕ) → registers_of result r
        ≡ spec.registers_after (forms.Move W64 (places.Register register) from)
        (knowledge_of known.now) r }
{
    let registers = &known.registers;
    match from {
        Operand::Register(other) => {
            with_known(registers, register.number(), known_of(registers, other))
        }
        Operand::Immediate(value) => {
            with_known(registers, register.number(), Known::Number(value))
        }
        Operand::Memory(place) => {
            let value = word_at(known, address(registers, &place));
            with_known(registers, register.number(), value)
        }
    }
}

/// A register set to an operand of 32 bits.
fn loaded_half(register: Reg, from: Operand, known: &Knowledge) -> [Known; 16]
    ensures { (r : ℕ) → registers_of result r
        ≡ spec.registers_after (forms.Move W32 (places.Register register) from)
        (knowledge_of known.now) r }
{
    let registers = &known.registers;
    match from {
        Operand::Immediate(value) => {
            let low = value % 0x1_0000_0000;
            with_known(registers, register.number(), Known::Number(low))
        }
        _ => without(registers, register.number()),
    }
}

fn moved(width: Width, to: RegisterOrMemory, from: Operand, known: &Knowledge) -> [Known; 16]
    ensures { (r : ℕ) → registers_of result r
        ≡ spec.registers_after (forms.Move width to from) (knowledge_of known.now) r }
{
    match width {
        Width::W64 => match to {
            RegisterOrMemory::Register(register) => loaded(register, from, known),
            RegisterOrMemory::Memory(_) => known.registers,
        },
        Width::W32 => match to {
            RegisterOrMemory::Register(register) => loaded_half(register, from, known),
            RegisterOrMemory::Memory(_) => known.registers,
        },
        _ => without_place(&known.registers, to),
    }
}

fn pushed(registers: &[Known; 16]) -> [Known; 16]
    ensures { (r : ℕ) → registers_of result r
        ≡ runs.risen (2 ^ 64 - 8) (registers_of registers.now) r }
{
    with_known(registers, 4, lowered(8, known_of(registers, Reg::Rsp)))
}

/// RSP raised by so many bytes.
pub fn risen(by: u64, registers: &[Known; 16]) -> [Known; 16]
    ensures { (r : ℕ) → registers_of result r
        ≡ runs.risen by (registers_of registers.now) r }
{
    with_known(registers, 4, raised(by, known_of(registers, Reg::Rsp)))
}

#[tactic(auto, using(crate::proofs::Entered::same_elsewhere))]
fn popped(register: Reg, known: &Knowledge) -> [Known; 16]
    ensures { (r : ℕ) → registers_of result r
        ≡ spec.registers_after (forms.Pop register) (knowledge_of known.now) r }
{
    let value = word_at(known, known_of(&known.registers, Reg::Rsp));
    with_known(&risen(8, &known.registers), register.number(), value)
}

/// What is known of the registers after an instruction of the machine other than a call.
pub fn registers_after(instr: &Instr, known: &Knowledge) -> [Known; 16]
    ensures { (r : ℕ) → registers_of result r
        ≡ spec.registers_after instr.now (knowledge_of known.now) r }
{
    let registers = &known.registers;
    match *instr {
        Instr::Move { width, to, from } => moved(width, to, from, known),
        Instr::Extend { to, .. } => without(registers, to.number()),
        Instr::LoadAddress {
            width: Width::W64,
            to,
            from,
        } => with_known(registers, to.number(), address(registers, &from)),
        Instr::LoadAddress { to, .. } => without(registers, to.number()),
        Instr::Arithmetic {
            operation,
            width,
            to,
            from,
        } => computed(operation, width, to, from, known),
        Instr::Multiply { to, .. } => without(registers, to.number()),
        Instr::MultiplyBy { to, .. } => without(registers, to.number()),
        Instr::Unary { to, .. } => without_place(registers, to),
        Instr::Divide { .. } => without_product(registers),
        Instr::ExtendRax { .. } => without(registers, 2),
        Instr::Shift { to, .. } => without_place(registers, to),
        Instr::Set { to, .. } => without_place(registers, to),
        Instr::Push(_) => pushed(registers),
        Instr::Pop(register) => popped(register, known),
        Instr::Return => without(registers, 4),
        _ => *registers,
    }
}
