//! Records fetched.

ghost use Rattle.std.specs.Prelude.{◌≡◌, ◌+◌, ◌*◌, ◌≤◌, ◌<◌, None, length};
ghost use Rattle.flat_memory.specs.Memory.{first_refused, may_read};
ghost use Rattle.seh_records.specs.Record as spec;

use crate::dispatch::{DispatchRecord, Kind};
use crate::layout::{
    COUNT_AT, EFLAGS_AT, EXCEPTION_AT, FLAGS_AT, FRAME_AT, KIND_AT, MARK_AT, PARAMETERS_AT,
    RECORD_SIZE, REGISTERS_AT, RIP_AT, ROW_AT, TARGET_AT, TARGET_FRAME_AT, WALK_KEPT_AT,
    WALK_RIP_AT,
};
use crate::placing::MARK;
use crate::refusal::BadRecord;
use crate::words::first_unreadable;
use seh_num::event::Code;
use seh_num::size::EXCEPTION_MAXIMUM_PARAMETERS;
use seh_num::width::Width;
use x64_machine::context::Context;
use x64_machine::cpu::{Cpu, Flags};
use x64_memory::space::AddressSpace;

fn word<S: AddressSpace>(space: &S, at: u64, offset: u64) -> u64
    requires readable { first_refused (may_read (S.memory space.now)) RECORD_SIZE at ≡ None }
    requires inside { offset + 8 ≤ RECORD_SIZE }
    ensures { result ≡ spec.word (S.memory space.now) at offset }
{
    match space.load(at.wrapping_add(offset), Width::W64) {
        Ok(value) => value,
        Err(_) => 0,
    }
}

fn half<S: AddressSpace>(space: &S, at: u64, offset: u64) -> u32
    requires readable { first_refused (may_read (S.memory space.now)) RECORD_SIZE at ≡ None }
    requires inside { offset + 4 ≤ RECORD_SIZE }
    ensures { result ≡ spec.half (S.memory space.now) at offset }
{
    match space.load(at.wrapping_add(offset), Width::W32) {
        Ok(value) => value as u32,
        Err(_) => 0,
    }
}

fn words<S: AddressSpace>(space: &S, at: u64, offset: u64, into: &mut [u64])
    requires readable { first_refused (may_read (S.memory space.now)) RECORD_SIZE at ≡ None }
    requires inside { offset + 8 * length into.old ≤ RECORD_SIZE }
    ensures { into.new ≡ spec.words_from (S.memory space.now) at offset (length into.old) }
{
    let mut here = offset;
    for i in 0..into.len() {
        into[i] = word(space, at, here);
        here += 8;
    }
}

fn is_bit(value: u32, bit: u32) -> bool
    requires { bit < 32 }
    ensures { result ≡ spec.is_bit bit value }
{
    (value >> bit) % 2 == 1
}

fn flags_of(value: u32) -> Flags
    ensures { result ≡ spec.flags_of value }
{
    Flags {
        carry: is_bit(value, 0),
        zero: is_bit(value, 6),
        sign: is_bit(value, 7),
        overflow: is_bit(value, 11),
    }
}

fn saved<S: AddressSpace>(space: &S, at: u64) -> Cpu
    requires { first_refused (may_read (S.memory space.now)) RECORD_SIZE at ≡ None }
    ensures { result ≡ spec.saved (S.memory space.now) at }
{
    let mut registers = [0; 16];
    words(space, at, REGISTERS_AT, &mut registers);
    Cpu {
        registers,
        rip: word(space, at, RIP_AT),
        flags: flags_of(half(space, at, EFLAGS_AT)),
    }
}

fn walk<S: AddressSpace>(space: &S, at: u64) -> Context
    requires { first_refused (may_read (S.memory space.now)) RECORD_SIZE at ≡ None }
    ensures { result ≡ spec.walk (S.memory space.now) at }
{
    let mut kept = [0; 9];
    words(space, at, WALK_KEPT_AT, &mut kept);
    Context {
        rip: word(space, at, WALK_RIP_AT),
        kept,
    }
}

fn recorded<S: AddressSpace>(space: &S, at: u64, kind: Kind) -> DispatchRecord
    requires { first_refused (may_read (S.memory space.now)) RECORD_SIZE at ≡ None }
    ensures { result ≡ spec.recorded (S.memory space.now) at kind }
{
    let mut parameters = [0; EXCEPTION_MAXIMUM_PARAMETERS];
    words(space, at, PARAMETERS_AT, &mut parameters);
    DispatchRecord {
        kind,
        frame: word(space, at, FRAME_AT),
        row: word(space, at, ROW_AT),
        target_frame: word(space, at, TARGET_FRAME_AT),
        target: word(space, at, TARGET_AT),
        code: Code(half(space, at, EXCEPTION_AT)),
        flags: half(space, at, FLAGS_AT),
        count: half(space, at, COUNT_AT),
        parameters,
        saved: saved(space, at),
        walk: walk(space, at),
    }
}

fn kind_of(number: u64) -> Option<Kind>
    ensures { result ≡ spec.kind_of number }
{
    match number {
        1 => Some(Kind::Search),
        2 => Some(Kind::ExceptionUnwind),
        3 => Some(Kind::LocalUnwind),
        4 => Some(Kind::Vectored),
        _ => None,
    }
}

#[tactic(auto, unfolding(crate::specs::Record::fetched))]
fn fetched<S: AddressSpace>(space: &S, at: u64) -> Option<DispatchRecord>
    ensures { result ≡ spec.fetched (S.memory space.now) at }
{
    if first_unreadable(space, at, RECORD_SIZE / 8).is_some() {
        return None;
    }
    if word(space, at, MARK_AT) != MARK {
        return None;
    }
    match kind_of(word(space, at, KIND_AT)) {
        None => None,
        Some(kind) => Some(recorded(space, at, kind)),
    }
}

/// The record at an address. `BadRecord` is answered exactly where its bytes may not all
/// be read, the mark isn't there or the kind is none of the four.
pub fn fetch<S: AddressSpace>(space: &S, at: u64) -> Result<DispatchRecord, BadRecord>
    ensures { result ≡ spec.fetch_answer at (spec.fetched (S.memory space.now) at) }
{
    match fetched(space, at) {
        Some(dispatch) => Ok(dispatch),
        None => Err(BadRecord { address: at }),
    }
}
