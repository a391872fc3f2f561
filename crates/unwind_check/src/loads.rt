//! Epilogue: the loads of saved registers, straight before what gives back the allocation.

ghost use Rattle.std.specs.Prelude.{◌≡◌};
ghost use Rattle.virtual_unwind.specs.Undone.{operations};
ghost use Rattle.frame_rules.specs.Body as bodies;

use crate::prologue_instrs::is_place;
use eh_tables::{UnwindCode, UnwindOperation};
use seh_num::width::Width;
use x64_instr::instruction::Instr;
use x64_instr::operand::{Operand, RegisterOrMemory};

fn saved_by(register: u8, others: Option<u32>, operation: UnwindOperation) -> Option<u32>
    ensures { result ≡ bodies.saved_by register others operation }
{
    match operation {
        UnwindOperation::Save {
            register: saved,
            offset,
        } => {
            if saved == register {
                Some(offset)
            } else {
                others
            }
        }
        _ => others,
    }
}

/// Where a register is saved by a `mov`, in bytes from RSP after the prologue.
fn saved_at(register: u8, codes: &[UnwindCode]) -> Option<u32>
    ensures { result ≡ bodies.saved_at register (operations codes.now) }
{
    match codes {
        [] => None,
        [first, rest @ ..] => saved_by(register, saved_at(register, rest), first.operation),
    }
}

/// The register, by its number, that an instruction loads from the place where it was saved by a
/// `mov`: `mov r,[rsp + n]`, or the same place by the frame register.
pub fn restored_by(frame: u8, offset: u64, codes: &[UnwindCode], instr: &Instr) -> Option<u8>
    ensures { result ≡ bodies.restored_by frame offset (operations codes.now) instr.now }
{
    match instr {
        Instr::Move {
            width: Width::W64,
            to: RegisterOrMemory::Register(to),
            from: Operand::Memory(place),
        } => match saved_at(to.number(), codes) {
            None => None,
            Some(distance) => {
                if is_place(frame, offset, distance, *place) {
                    Some(to.number())
                } else {
                    None
                }
            }
        },
        _ => None,
    }
}

/// Whether a register is among these, by their numbers.
pub fn has(register: u8, registers: &[u8]) -> bool
    ensures { result ≡ bodies.has register registers.now }
{
    match registers {
        [] => false,
        [first, rest @ ..] => *first == register || has(register, rest),
    }
}

fn is_restored(loaded: &[u8], operation: UnwindOperation) -> bool
    ensures { result ≡ bodies.is_restored loaded.now operation }
{
    match operation {
        UnwindOperation::Save { register, .. } => has(register, loaded),
        _ => true,
    }
}

/// Whether all registers that are saved by a `mov` are among those loaded.
pub fn are_restored(loaded: &[u8], codes: &[UnwindCode]) -> bool
    ensures { result ≡ bodies.are_restored loaded.now (operations codes.now) }
{
    match codes {
        [] => true,
        [first, rest @ ..] => is_restored(loaded, first.operation) && are_restored(loaded, rest),
    }
}
