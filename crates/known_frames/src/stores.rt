//! Where instructions store (Intel manual, volume 2).

ghost use Rattle.std.specs.Prelude.{◌≡◌, ◌<◌, IfSome};
ghost use Rattle.frame_known.specs.After as spec;
ghost use Rattle.known_frames.specs.Views.{registers_of};

use crate::address::{address, lowered};
use crate::knowledge::known_of;
use frame_known::known::{Known, Store};
use seh_num::width::Width;
use x64_instr::instruction::{Instr, Operation};
use x64_instr::operand::{MemRef, Operand, RegisterOrMemory};
use x64_instr::register::Reg;

fn place_of(width: Width, to: RegisterOrMemory) -> Option<(MemRef, Width)>
    ensures { result ≡ spec.place_of width to }
{
    match to {
        RegisterOrMemory::Register(_) => None,
        RegisterOrMemory::Memory(place) => Some((place, width)),
    }
}

/// The place that an instruction writes, with its width; none of a push.
pub fn destination(instr: &Instr) -> Option<(MemRef, Width)>
    ensures { result ≡ spec.destination instr.now }
{
    match *instr {
        Instr::Move { width, to, .. } => place_of(width, to),
        Instr::Arithmetic {
            operation,
            width,
            to,
            ..
        } => match operation {
            Operation::Compare => None,
            _ => place_of(width, to),
        },
        Instr::Unary { width, to, .. } => place_of(width, to),
        Instr::Shift { width, to, .. } => place_of(width, to),
        Instr::Set { to, .. } => place_of(Width::W8, to),
        _ => None,
    }
}

/// A store of which the value isn't known.
fn store_to(place: Option<(MemRef, Width)>, registers: &[Known; 16]) -> Option<Store>
    ensures value { result ≡ spec.store_to (registers_of registers.now) place }
    ensures sized { IfSome result (λ s. 0 < s.size) }
{
    match place {
        None => None,
        Some((to, width)) => Some(Store {
            to: address(registers, &to),
            size: width.bytes(),
            value: Known::Nothing,
        }),
    }
}

/// The store of an instruction, where it has one.
pub fn store_of(instr: &Instr, registers: &[Known; 16]) -> Option<Store>
    ensures value { result ≡ spec.store_of instr.now (registers_of registers.now) }
    ensures sized { IfSome result (λ s. 0 < s.size) }
{
    match *instr {
        Instr::Push(register) => Some(Store {
            to: lowered(8, known_of(registers, Reg::Rsp)),
            size: 8,
            value: known_of(registers, register),
        }),
        Instr::Move {
            width: Width::W64,
            to: RegisterOrMemory::Memory(place),
            from: Operand::Register(register),
        } => Some(Store {
            to: address(registers, &place),
            size: 8,
            value: known_of(registers, register),
        }),
        _ => store_to(destination(instr), registers),
    }
}
