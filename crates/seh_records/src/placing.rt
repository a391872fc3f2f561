//! Records placed.

ghost use Rattle.std.specs.Prelude.{◌≡◌, ◌+◌, ◌≤◌, ◌++◌, None, length};
ghost use Rattle.arrayvec.specs.ArrayVec.{array_vec_len};
ghost use Rattle.seh_records.specs.Record as spec;

use crate::dispatch::{DispatchRecord, Kind};
use crate::layout::{CONTEXT_AT, EXCEPTION_AT, MARK_AT, PLACED_SIZE, RECORD_SIZE};
use crate::refusal::Guard;
use crate::words::{first_unwritable, put_words};
use arrayvec::ArrayVec;
use host_layout::range::STACK_START;
use x64_machine::cpu::Flags;
use x64_memory::space::AddressSpace;

/// The bytes SEHDSPCH.
pub const MARK: u64 = 0x4843_5053_4448_4553;

fn number_of(kind: Kind) -> u64
    ensures { result ≡ spec.number_of kind }
{
    match kind {
        Kind::Search => 1,
        Kind::ExceptionUnwind => 2,
        Kind::LocalUnwind => 3,
        Kind::Vectored => 4,
    }
}

fn eflags(flags: Flags) -> u32
    ensures { result ≡ spec.eflags flags }
{
    let carry = if flags.carry { 1 } else { 0 };
    let zero = if flags.zero { 64 } else { 0 };
    let sign = if flags.sign { 128 } else { 0 };
    let overflow = if flags.overflow { 2048 } else { 0 };
    carry + 2 + zero + sign + overflow
}

fn head(at: u64, dispatch: &DispatchRecord) -> [u64; 12]
    ensures { result ≡ spec.head at dispatch.now }
{
    [
        MARK,
        number_of(dispatch.kind),
        dispatch.frame,
        dispatch.row,
        dispatch.target_frame,
        dispatch.target,
        at.wrapping_add(EXCEPTION_AT),
        at.wrapping_add(CONTEXT_AT),
        dispatch.code.0 as u64 + (1 << 32) * dispatch.flags as u64,
        0,
        dispatch.saved.rip,
        dispatch.count as u64,
    ]
}

fn front(dispatch: &DispatchRecord) -> [u64; 15]
    ensures { result ≡ spec.front dispatch.now }
{
    let flags = (1 << 32) * eflags(dispatch.saved.flags) as u64;
    [0, 0, 0, 0, 0, 0, 0, 0, flags, 0, 0, 0, 0, 0, 0]
}

fn back(dispatch: &DispatchRecord) -> [u64; 123]
    ensures { result ≡ spec.back dispatch.now }
{
    let mut words = [0; 123];
    words[0] = dispatch.saved.rip;
    words
}

fn extend(words: &mut ArrayVec<u64, 192>, more: &[u64])
    requires { array_vec_len words.old + length more.now ≤ 192 }
    ensures items { words.new.items ≡ words.old.items ++ more.now }
    ensures len { array_vec_len words.new ≡ array_vec_len words.old + length more.now }
{
    let _ = words.try_extend_from_slice(more);
}

fn words_of(at: u64, dispatch: &DispatchRecord) -> ArrayVec<u64, 192>
    ensures value { result.items ≡ spec.words at dispatch.now }
    ensures len { array_vec_len result ≡ 192 }
{
    let mut words = ArrayVec::new();
    extend(&mut words, &head(at, dispatch));
    extend(&mut words, &dispatch.parameters);
    extend(&mut words, &[0]);
    extend(&mut words, &front(dispatch));
    extend(&mut words, &dispatch.saved.registers);
    extend(&mut words, &back(dispatch));
    extend(&mut words, &[dispatch.walk.rip]);
    extend(&mut words, &dispatch.walk.kept);
    words
}

#[tactic(auto, unfolding(crate::specs::Record::misplaced))]
fn misplaced<S: AddressSpace>(space: &S, at: u64) -> Option<u64>
    ensures { result ≡ spec.misplaced (S.memory space.now) at }
{
    let from = at.wrapping_sub(8);
    if from > 0xFFFF_FFFF_FFFF_FFFF - (PLACED_SIZE - 1) {
        return Some(0);
    }
    if from < STACK_START {
        return Some(from);
    }
    first_unwritable(space, from, PLACED_SIZE / 8)
}

fn put_record<S: AddressSpace>(space: &mut S, at: u64, dispatch: &DispatchRecord)
    requires { spec.misplaced (S.memory space.old) at ≡ None }
    ensures { S.memory space.new ≡ spec.placed (S.memory space.old) at dispatch.now }
{
    put_words(space, at.wrapping_add(MARK_AT), &words_of(at, dispatch));
}

/// Writes a record at an address: all of it but the home space, which stays as it is, as all other
/// memory does. It is refused, and nothing is written, where a byte of it, or of the return address
/// below it, lies below the stack or may not be written.
pub fn rewrite<S: AddressSpace>(
    space: &mut S,
    at: u64,
    dispatch: &DispatchRecord,
) -> Result<(), Guard>
    ensures answer { result ≡ spec.rewrite_answer (spec.misplaced (S.memory space.old) at) }
    ensures after { S.memory space.new
        ≡ spec.after_place (S.memory space.old) at dispatch.now
        (spec.misplaced (S.memory space.old) at) }
{
    match misplaced(space, at) {
        Some(address) => Err(Guard { address }),
        None => {
            put_record(space, at, dispatch);
            Ok(())
        }
    }
}

/// The place of a new record below a stack pointer: a multiple of 16.
pub fn place_below(rsp: u64) -> u64
    ensures { result ≡ spec.place_below rsp }
{
    let top = rsp.wrapping_sub(RECORD_SIZE);
    top - top % 16
}

/// Places a new record below a stack pointer, and answers where. It is refused as `rewrite` is.
pub fn place<S: AddressSpace>(
    space: &mut S,
    rsp: u64,
    dispatch: &DispatchRecord,
) -> Result<u64, Guard>
    ensures answer { result ≡ spec.place_answer (spec.place_below rsp)
        (spec.misplaced (S.memory space.old) (spec.place_below rsp)) }
    ensures after { S.memory space.new
        ≡ spec.after_place (S.memory space.old) (spec.place_below rsp) dispatch.now
        (spec.misplaced (S.memory space.old) (spec.place_below rsp)) }
{
    let at = place_below(rsp);
    match misplaced(space, at) {
        Some(address) => Err(Guard { address }),
        None => {
            put_record(space, at, dispatch);
            Ok(at)
        }
    }
}
