//! What no bytes spell.

use seh_num::width::Width;
use seh_num::width::Width::{W8, W16, W32, W64};
use std::process::Abort;
use x64_encode::encodable::is_encodable;
use x64_instr::instruction::Condition::Less;
use x64_instr::instruction::Direction::Left;
use x64_instr::instruction::Extension::{Sign, Zero};
use x64_instr::instruction::Operation::{Add, Xor};
use x64_instr::instruction::{Count, Direction, Division, Extension, Instr, Target};
use x64_instr::operand::Scale::Two;
use x64_instr::operand::{Base, Index, MemRef, Operand, RegisterOrMemory, Scale};
use x64_instr::register::Reg;
use x64_instr::register::Reg::{Rax, Rbx, Rcx, Rsp};

fn register(register: Reg) -> RegisterOrMemory {
    RegisterOrMemory::Register(register)
}

fn memory(base: Base, index: Option<Index>, displacement: i64) -> RegisterOrMemory {
    RegisterOrMemory::Memory(MemRef {
        base,
        index,
        displacement: displacement.cast_unsigned(),
    })
}

fn at(base: Reg, displacement: i64) -> RegisterOrMemory {
    memory(Base::Register(base), None, displacement)
}

fn indexed(base: Reg, register: Reg, scale: Scale, displacement: i64) -> RegisterOrMemory {
    memory(
        Base::Register(base),
        Some(Index { register, scale }),
        displacement,
    )
}

fn source(place: RegisterOrMemory) -> Operand {
    match place {
        RegisterOrMemory::Register(register) => Operand::Register(register),
        RegisterOrMemory::Memory(memory) => Operand::Memory(memory),
    }
}

fn mov(width: Width, to: RegisterOrMemory, from: RegisterOrMemory) -> Instr {
    let from = source(from);
    Instr::Move { width, to, from }
}

fn mov_number(width: Width, to: RegisterOrMemory, number: u64) -> Instr {
    let from = Operand::Immediate(number);
    Instr::Move { width, to, from }
}

fn shift(direction: Direction, width: Width, to: RegisterOrMemory, by: Count) -> Instr {
    Instr::Shift {
        direction,
        width,
        to,
        by,
    }
}

fn extend(
    extension: Extension,
    width: Width,
    to: Reg,
    narrow: Width,
    from: RegisterOrMemory,
) -> Instr {
    Instr::Extend {
        extension,
        width,
        to,
        narrow,
        from,
    }
}

fn load_address(width: Width, to: Reg, from: RegisterOrMemory) -> Instr {
    match from {
        RegisterOrMemory::Memory(from) => Instr::LoadAddress { width, to, from },
        RegisterOrMemory::Register(_) => Instr::NoOperation,
    }
}

fn refused(rt: &impl Abort, instr: Instr) {
    assert!(rt; !is_encodable(&instr), "{instr:?}");
}

#[test]
fn moves(rt: HostRuntime) {
    refused(&rt, mov(W64, at(Rax, 0), at(Rcx, 0)));
    refused(&rt, mov(W64, register(Rax), at(Rcx, 0x8000_0000)));
    refused(&rt, mov(W64, register(Rax), at(Rcx, -0x8000_0001)));
    refused(&rt, mov(W64, register(Rax), indexed(Rcx, Rsp, Two, 0)));
    refused(&rt, mov_number(W32, register(Rax), 0x1_0000_0000));
    refused(&rt, mov_number(W64, at(Rax, 0), 0x8000_0000));
}

#[test]
fn sums(rt: HostRuntime) {
    let width = W64;
    for (operation, to, from) in [
        (Xor, at(Rax, 0), source(at(Rcx, 0))),
        (Add, register(Rax), Operand::Immediate(0x8000_0000)),
    ] {
        refused(
            &rt,
            Instr::Arithmetic {
                operation,
                width,
                to,
                from,
            },
        );
    }
}

#[test]
fn products_and_shifts(rt: HostRuntime) {
    let width = W16;
    let to = Rax;
    let from = register(Rbx);
    refused(&rt, Instr::Multiply { width, to, from });
    let division = Division::Signed;
    let by = register(Rbx);
    refused(
        &rt,
        Instr::Divide {
            division,
            width,
            by,
        },
    );
    refused(&rt, shift(Left, W8, register(Rbx), Count::Cl));
    refused(&rt, shift(Left, W32, register(Rbx), Count::Immediate(256)));
}

#[test]
fn extensions_and_jumps(rt: HostRuntime) {
    refused(&rt, extend(Zero, W64, Rax, W32, register(Rcx)));
    refused(&rt, extend(Sign, W16, Rax, W8, register(Rcx)));
    refused(&rt, load_address(W16, Rax, at(Rcx, 0)));
    let condition = Less;
    let displacement = 0x8000_0000;
    refused(
        &rt,
        Instr::JumpIf {
            condition,
            displacement,
        },
    );
    let displacement = (-0x8000_0001_i64).cast_unsigned();
    refused(&rt, Instr::Jump(Target::Relative(displacement)));
}
