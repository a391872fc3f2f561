//! Windows' unwinder, run on what is known in place of a state (Microsoft x64 ABI, "Unwind
//! procedure").

ghost use Rattle.std.specs.Prelude.{◌≡◌, ◌<◌, None, Some, true, IfSome};
ghost use Rattle.virtual_unwind.specs.Contexts as contexts;
ghost use Rattle.virtual_unwind.specs.Undone.{operations};
ghost use Rattle.abi_unwind.specs.Caller as caller;
ghost use Rattle.frame_known.specs.Knowledge as knowledge;
ghost use Rattle.frame_known.specs.Known as spec;
ghost use Rattle.frame_known.specs.Tests as tests;
ghost use Rattle.known_frames.specs.Views.{knowledge_of, registers_of, words_of};

use crate::address::{lowered, raised};
use crate::knowledge::{Knowledge, Saved, known_of, with_known};
use crate::words::word;
use abi_unwind::function::Function;
use abi_unwind::tail::Part;
use eh_tables::{Codes, Info, RuntimeFunction, UnwindOperation};
use frame_known::known::{Known, Reach};
use virtual_unwind::undo::sets_frame_by;
use x64_instr::register::Reg;

fn in_reach(reach: Reach, k: u64) -> bool
    ensures { result ≡ spec.in_reach reach k }
{
    let from = k.wrapping_add(reach.below) as u128;
    from + 8 <= reach.below as u128 + reach.above as u128
}

/// What is known of the word at a place, where it may be read.
fn read(reach: Reach, words: &[Option<Saved>], at: Known) -> Option<Known>
    ensures { result ≡ spec.read reach (words_of words.now) at }
{
    match at {
        Known::Place(k) => {
            if in_reach(reach, k) {
                match word(words, k) {
                    Some(register) => Some(Known::Entry(register)),
                    None => Some(Known::Nothing),
                }
            } else {
                None
            }
        }
        _ => None,
    }
}

fn is_nonvolatile(register: u8) -> bool
    ensures value { result ≡ contexts.is_nonvolatile register }
    ensures small { result ≡ true → register < 16 }
{
    match register {
        4 => true,
        3 => true,
        0..=2 => false,
        5..=7 => true,
        8..=11 => false,
        12..=15 => true,
        _ => false,
    }
}

/// What is known of a register in a context, which volatile ones aren't in.
fn kept(registers: &[Known; 16], register: u8) -> Known
    ensures { result ≡ spec.kept (registers_of registers.now) register }
{
    if is_nonvolatile(register) {
        registers[register as usize]
    } else {
        Known::Nothing
    }
}

fn below_frame(info: &Info, registers: &[Known; 16]) -> Known
    ensures { result ≡ spec.below_frame info.now (registers_of registers.now) }
{
    lowered(
        info.frame_offset() as u64,
        kept(registers, info.frame_register()),
    )
}

/// The registers with one by its number set; none where no register has the number.
fn set(registers: &[Known; 16], register: u8, known: Known) -> Option<[Known; 16]>
    ensures { IfSome result (λ a. registers_of a
        ≡ knowledge.with_known (registers_of registers.now) register known) }
{
    if register < 16 {
        Some(with_known(registers, register, known))
    } else {
        None
    }
}

fn set_stack(registers: &[Known; 16], known: Known) -> [Known; 16]
    ensures { registers_of result ≡ knowledge.with_known (registers_of registers.now) 4 known }
{
    with_known(registers, 4, known)
}

/// RSP raised by so many bytes.
fn risen(by: u64, registers: &[Known; 16]) -> [Known; 16]
    ensures { registers_of result ≡ spec.risen by (registers_of registers.now) }
{
    set_stack(registers, raised(by, known_of(registers, Reg::Rsp)))
}

/// What undoing one code leaves; none where a word can't be read.
fn undone_one(
    reach: Reach,
    words: &[Option<Saved>],
    base: Known,
    info: &Info,
    registers: &[Known; 16],
    operation: UnwindOperation,
) -> Option<[Known; 16]>
    ensures { IfSome result (λ a. spec.undone_one reach (words_of words.now) base info.now
        (registers_of registers.now) operation ≡ Some (registers_of a)) }
{
    match operation {
        UnwindOperation::Push { register } => {
            let value = read(reach, words, known_of(registers, Reg::Rsp))?;
            let restored = set(registers, register, value)?;
            Some(risen(8, &restored))
        }
        UnwindOperation::Allocate { size } => Some(risen(size as u64, registers)),
        UnwindOperation::SetFrame => Some(set_stack(registers, below_frame(info, registers))),
        UnwindOperation::Save { register, offset } => {
            let value = read(reach, words, raised(offset as u64, base))?;
            set(registers, register, value)
        }
        UnwindOperation::SaveVector { offset, .. } => {
            let at = raised(offset as u64, base);
            read(reach, words, at)?;
            read(reach, words, raised(8, at))?;
            Some(*registers)
        }
        UnwindOperation::MachineFrame { .. } => None,
    }
}

/// What a part of an epilogue leaves; none where a word can't be read. Only what is answered is
/// exact: no clause says when it is none.
pub fn ran_one(
    reach: Reach,
    words: &[Option<Saved>],
    registers: &[Known; 16],
    part: Part,
) -> Option<[Known; 16]>
    ensures { IfSome result (λ a. spec.ran_one reach (words_of words.now)
        (registers_of registers.now) part ≡ Some (registers_of a)) }
{
    match part {
        Part::Raise(by) => Some(risen(by, registers)),
        Part::FromFrame(register, by) => {
            Some(set_stack(registers, raised(by, kept(registers, register))))
        }
        Part::Restore(register) => {
            let value = read(reach, words, known_of(registers, Reg::Rsp))?;
            set(&risen(8, registers), register, value)
        }
    }
}

fn is_entry(known: Known, register: u8) -> bool
    ensures { result ≡ tests.is_entry known register }
{
    match known {
        Known::Entry(own) => own == register,
        _ => false,
    }
}

fn is_first(known: Known) -> bool
    ensures { result ≡ tests.is_first known }
{
    match known {
        Known::Place(at) => at == 0,
        _ => false,
    }
}

/// Whether RSP is at the return address and each other nonvolatile register is what it was at the
/// entry (Microsoft x64 ABI, "Caller/callee saved registers").
pub fn ends_right(registers: &[Known; 16]) -> bool
    ensures { result ≡ tests.ends_right (Some (registers_of registers.now)) }
{
    let k = registers;
    is_first(k[4])
        && is_entry(k[3], 3)
        && is_entry(k[5], 5)
        && is_entry(k[6], 6)
        && is_entry(k[7], 7)
        && is_entry(k[12], 12)
        && is_entry(k[13], 13)
        && is_entry(k[14], 14)
        && is_entry(k[15], 15)
}

fn undone(
    reach: Reach,
    words: &[Option<Saved>],
    base: Known,
    info: &Info,
    codes: Codes,
    registers: &[Known; 16],
) -> Option<[Known; 16]>
    ensures { IfSome result (λ a. spec.undone reach (words_of words.now) base info.now
        (operations codes.entry) (registers_of registers.now) ≡ Some (registers_of a)) }
{
    let mut now = *registers;
    for code in codes {
        match undone_one(reach, words, base, info, &now, code.operation) {
            None => return None,
            Some(next) => now = next,
        }
    }
    Some(now)
}

/// What undoing the codes of the instructions that have been run at a distance leaves.
fn undone_by(
    reach: Reach,
    words: &[Option<Saved>],
    base: Known,
    info: &Info,
    distance: u64,
    registers: &[Known; 16],
) -> Option<[Known; 16]>
    ensures { IfSome result (λ a. spec.undone reach (words_of words.now) base info.now
        (caller.codes_at info.now distance) (registers_of registers.now)
        ≡ Some (registers_of a)) }
{
    let mut left = info.codes();
    while let Some(code) = left.next() {
        if code.offset as u64 <= distance {
            return match undone_one(reach, words, base, info, registers, code.operation) {
                None => None,
                Some(next) => undone(reach, words, base, info, left, &next),
            };
        }
    }
    Some(*registers)
}

fn parent_or(range: RuntimeFunction, info: &Info) -> RuntimeFunction
    ensures { result ≡ caller.parent_or range info.now.parent }
{
    match info.parent() {
        None => range,
        Some(parent) => parent,
    }
}

/// What undoing the codes of a chain of infos leaves, all from one establisher frame.
fn chain_undone(
    reach: Reach,
    words: &[Option<Saved>],
    base: Known,
    rva: u64,
    range: RuntimeFunction,
    info: &Info,
    parents: &[Info],
    registers: &[Known; 16],
) -> Option<[Known; 16]>
    ensures { IfSome result (λ a. spec.chain_undone reach (words_of words.now) base rva range
        info.now parents.now (registers_of registers.now) ≡ Some (registers_of a)) }
{
    let distance = rva.wrapping_sub(range.begin as u64);
    match undone_by(reach, words, base, info, distance, registers) {
        None => None,
        Some(own) => match parents {
            [] => Some(own),
            [first, rest @ ..] => {
                let parent = parent_or(range, info);
                chain_undone(reach, words, base, rva, parent, first, rest, &own)
            }
        },
    }
}

fn is_framed(info: &Info, distance: u64) -> bool
    ensures { result ≡ caller.is_framed info.now distance }
{
    info.frame_register() != 0
        && (info.prologue_size() as u64 <= distance
            || info.parent().is_some()
            || sets_frame_by(distance, info.codes()))
}

/// What undoing codes leaves at an address in a function's range where no epilogue stands; none
/// where a word can't be read. Only what is answered is exact: no clause says when it is none.
pub fn by_codes(
    reach: Reach,
    known: &Knowledge,
    rva: u64,
    function: &Function,
) -> Option<[Known; 16]>
    ensures { IfSome result (λ a. spec.abi_known reach (knowledge_of known.now) rva function.now
        None ≡ Some (registers_of a)) }
{
    let registers = &known.registers;
    let distance = rva.wrapping_sub(function.range.begin as u64);
    let base = if is_framed(function.info, distance) {
        below_frame(function.info, registers)
    } else {
        known_of(registers, Reg::Rsp)
    };
    chain_undone(
        reach,
        &known.words,
        base,
        rva,
        function.range,
        function.info,
        function.parents,
        registers,
    )
}
