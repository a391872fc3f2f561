//! The trailing parts of a legal epilogue (Microsoft x64 ABI, "Prolog and epilog").

ghost use Rattle.std.specs.Prelude.{◌≡◌, true, Ok, slice_index};
ghost use Rattle.seh_num.specs.Answers as answers;
ghost use Rattle.virtual_unwind.specs.Tail as spec;
ghost use Rattle.virtual_unwind.specs.After as parts;
ghost use Rattle.virtual_unwind.specs.After.{after};

use crate::kept::{get, rsp, rsp_raised, with, with_rsp};
use crate::refusal::UnwindErr;
use crate::word::{pop, word};
use seh_num::size::LONGEST_INSTRUCTION;
use seh_num::width::Width;
use x64_instr::decoding::decode;
use x64_instr::instruction::{Instr, Operation, Target};
use x64_instr::operand::{Base, Index, Operand, RegisterOrMemory};
use x64_instr::register::Reg;
use x64_machine::context::Context;
use x64_memory::space::{CodeSpace, ReadSpace};

/// What an instruction is to an epilogue.
#[derive(Clone, Copy, Debug, PartialEq, Eq)]
pub enum Role {
    /// It gives back the allocation, and comes first.
    Opens,
    /// It pops a register.
    Restores,
    /// It ends the epilogue.
    Ends,
    /// It belongs to no epilogue.
    Other,
}

fn byte(bytes: &[u8], k: usize) -> u8
    ensures { result ≡ slice_index bytes.now k }
{
    if k < bytes.len() { bytes[k] } else { 0 }
}

fn modrm(bytes: &[u8]) -> u8
    ensures { result ≡ spec.modrm bytes.now }
{
    if byte(bytes, 0) / 16 == 4 {
        byte(bytes, 2)
    } else {
        byte(bytes, 1)
    }
}

/// Whether an instruction, which is the first `len` of these bytes, is spelled as an epilogue may
/// end: `jmp` through memory with 00 in the mod field of its ModRM byte, or one byte, as `ret` with
/// no prefix (Microsoft x64 ABI, "Prolog and epilog").
pub fn is_plain(bytes: &[u8], len: usize, instr: &Instr) -> bool
    ensures { result ≡ spec.is_plain bytes.now len instr.now }
{
    match instr {
        Instr::Jump(Target::Indirect(RegisterOrMemory::Memory(_))) => modrm(bytes) / 64 == 0,
        _ => len == 1,
    }
}

fn is_of(register: u8, base: Base, index: Option<Index>) -> bool
    ensures { result ≡ spec.is_of register base index }
{
    match (base, index) {
        (Base::Register(r), None) => {
            if register == 0 {
                false
            } else {
                r.number() == register
            }
        }
        _ => false,
    }
}

fn opening(is: bool) -> Role
    ensures { result ≡ spec.opening is }
{
    if is { Role::Opens } else { Role::Other }
}

fn ending(is: bool) -> Role
    ensures { result ≡ spec.ending is }
{
    if is { Role::Ends } else { Role::Other }
}

/// What an instruction is to an epilogue (Microsoft x64 ABI, "Prolog and epilog"): `add
/// rsp,constant` and `lea rsp,[frame register + constant]` open it, pops of 8 bytes restore, `ret`
/// and `jmp` through memory end it, where `plain` says that they are spelled so. `register` is the
/// number of the frame register, 0 where there is none.
pub fn role_of(register: u8, plain: bool, instr: &Instr) -> Role
    ensures { result ≡ spec.role_of register plain instr.now }
{
    match instr {
        Instr::Arithmetic {
            operation: Operation::Add,
            width: Width::W64,
            to: RegisterOrMemory::Register(Reg::Rsp),
            from: Operand::Immediate(_),
        } => Role::Opens,
        Instr::LoadAddress {
            width: Width::W64,
            to: Reg::Rsp,
            from,
        } => opening(is_of(register, from.base, from.index)),
        Instr::Pop(_) => Role::Restores,
        Instr::Jump(Target::Indirect(RegisterOrMemory::Memory(_))) => ending(plain),
        Instr::Return => ending(plain),
        _ => Role::Other,
    }
}

fn part_of(
    first: bool,
    instr: Instr,
    len: usize,
    plain: bool,
    role: Role,
) -> Option<(Instr, usize, bool)>
    ensures { result
        ≡ parts.part_of first (record { instr = instr; size = len; plain = plain }) role }
{
    match role {
        Role::Opens => {
            if first {
                Some((instr, len, false))
            } else {
                None
            }
        }
        Role::Restores => Some((instr, len, false)),
        Role::Ends => Some((instr, len, true)),
        Role::Other => None,
    }
}

/// Whether bytes begin with an operation on a register and a register or memory, in one byte of
/// opcode with no prefix.
fn is_plain_arithmetic(bytes: &[u8]) -> bool
    ensures { result ≡ true → spec.IsPlainArithmetic bytes.now }
{
    match bytes {
        [] => false,
        [first, ..] => *first < 64 && *first % 8 < 4 && *first != 0x0F,
    }
}

/// The part of an epilogue at an address, as the machine fetches it: its instruction, its length in
/// bytes, and whether it ends the epilogue. None where no instruction is there, or one that belongs
/// to no epilogue, or a rise of RSP that isn't `first`. `register` is the number of the frame
/// register, 0 where there is none.
#[tactic(auto, using(crate::proofs::Early::no_item), unfolding(crate::specs::Tail::fetched_at))]
pub fn part<S: CodeSpace>(
    space: &S,
    register: u8,
    first: bool,
    at: u64,
) -> Option<(Instr, usize, bool)>
    ensures { result ≡ parts.part register first (S.memory space.now) at }
{
    let mut bytes = [0; LONGEST_INSTRUCTION];
    let count = space.fetch(at, &mut bytes);
    let fetched = &bytes[..count];
    if is_plain_arithmetic(fetched) {
        return None;
    }
    match decode(fetched) {
        None => None,
        Some((instr, len)) => {
            let plain = is_plain(fetched, len, &instr);
            let role = role_of(register, plain, &instr);
            part_of(first, instr, len, plain, role)
        }
    }
}

fn base_value(context: &Context, base: Base) -> u64
    ensures { result ≡ spec.base_value context.now base }
{
    match base {
        Base::Register(register) => get(context, register.number()),
        _ => 0,
    }
}

fn constant(operand: Operand) -> u64
    ensures { result ≡ spec.constant operand }
{
    match operand {
        Operand::Immediate(value) => value,
        _ => 0,
    }
}

fn left_by<S: ReadSpace>(space: &S, instr: &Instr, context: &Context) -> Result<Context, UnwindErr>
    ensures { result ≡ spec.left_by (S.memory space.now) instr.now context.now }
{
    match instr {
        Instr::Arithmetic { from, .. } => Ok(rsp_raised(context, constant(*from))),
        Instr::LoadAddress { from, .. } => Ok(with_rsp(
            context,
            base_value(context, from.base).wrapping_add(from.displacement),
        )),
        Instr::Pop(register) => {
            let value = word(space, rsp(context))?;
            Ok(with(&rsp_raised(context, 8), register.number(), value))
        }
        _ => pop(space, context),
    }
}

fn then_left_by<S: ReadSpace>(
    space: &S,
    instr: &Instr,
    answer: Result<Context, UnwindErr>,
) -> Result<Context, UnwindErr>
    ensures { result ≡ answers.◌>>=◌ answer (spec.left_by (S.memory space.now) instr.now) }
{
    match answer {
        Ok(context) => left_by(space, instr, &context),
        Err(e) => Err(e),
    }
}

/// What the rest of an epilogue makes of a context, where one begins at an address.
#[tactic(auto, unfolding(crate::specs::Tail::tail_at))]
pub fn epilogue<S: ReadSpace>(
    space: &S,
    register: u8,
    at: u64,
    context: &Context,
) -> Option<Result<Context, UnwindErr>>
    ensures { result ≡ after (S.memory space.now) (Ok context.now)
        (spec.tail_at register (S.memory space.now) at) }
{
    let mut here = at;
    let mut first = true;
    let mut answer = Ok(*context);
    for _i in 0..0xFFFF_FFFF_FFFF_FFFFu64 {
        match part(space, register, first, here) {
            None => return None,
            Some((instr, len, is_last)) => {
                answer = then_left_by(space, &instr, answer);
                if is_last {
                    return Some(answer);
                }
                first = false;
                here = here.wrapping_add(len as u64);
            }
        }
    }
    None
}
