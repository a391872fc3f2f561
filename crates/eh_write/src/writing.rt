//! Unwind infos, scope tables and function tables, written.

ghost use Rattle.std.specs.Prelude.{◌≡◌, ◌+◌, ◌*◌, ◌≤◌, ◌<◌, ◌^◌, ◌++◌, length, replicate, OnOk, OnErr};
ghost use Rattle.std.specs.List.{AllByRecursion};
ghost use Rattle.arrayvec.specs.ArrayVec.{array_vec_len};
ghost use Rattle.eh_tables.specs.declared.layout.TheConstants.{UNW_FLAG_CHAININFO};
ghost use Rattle.eh_write.specs.Written as spec;

use crate::unwind_info::{Trailer, UnwindInfo};
use arrayvec::ArrayVec;
use eh_tables::layout::{
    MOST_INFO_BYTES, MOST_SLOT_BYTES, RUNTIME_FUNCTION_SIZE, SCOPE_RECORD_SIZE, UNW_FLAG_CHAININFO,
    UNW_FLAG_EHANDLER, UNW_FLAG_UHANDLER, UNWIND_VERSION, UWOP_ALLOC_LARGE, UWOP_ALLOC_SMALL,
    UWOP_PUSH_MACHFRAME, UWOP_PUSH_NONVOL, UWOP_SAVE_NONVOL, UWOP_SAVE_NONVOL_FAR,
    UWOP_SAVE_XMM128, UWOP_SAVE_XMM128_FAR, UWOP_SET_FPREG,
};
use eh_tables::{RuntimeFunction, ScopeRecord, UnwindCode, UnwindOperation};
use pe_image::fields::{u16_bytes, u32_bytes};
use std::alloc::AllocError;

/// The most bytes of an info with what follows its slots, of which an entry is the longest.
const MOST_WHOLE_INFO_BYTES: usize = MOST_INFO_BYTES + RUNTIME_FUNCTION_SIZE;

/// The bytes of a code, and of an unwind info up to its end.
type CodeBytes = ArrayVec<u8, 6>;

type InfoBytes = ArrayVec<u8, MOST_WHOLE_INFO_BYTES>;

/// A code's first slot.
fn put_slot(out: &mut CodeBytes, offset: u8, op: u8, info: u8)
    requires empty { array_vec_len out.old ≡ 0 }
    requires op { op < 16 }
    requires info { info < 16 }
    ensures { out.new.items ≡ spec.slot offset op info }
{
    out.push(offset);
    out.push(op + 16 * info);
}

/// What follows the first slot.
fn put_operand(out: &mut CodeBytes, operand: &[u8])
    requires first { array_vec_len out.old ≡ 2 }
    requires fits { length operand.now ≤ 4 }
    ensures { out.new.items ≡ out.old.items ++ operand.now }
{
    // There is room, so that it can't be refused.
    let _ = out.try_extend_from_slice(operand);
}

fn is_short(unit: u32, n: u32) -> bool
    requires { 0 < unit }
    ensures { result ≡ spec.is_short unit n }
{
    n % unit == 0 && n / unit < 65536
}

fn allocation(offset: u8, size: u32) -> CodeBytes
    ensures { result.items ≡ spec.allocation offset size }
{
    let mut out = CodeBytes::new();
    if size % 8 == 0 && 0 < size && size <= 128 {
        put_slot(&mut out, offset, UWOP_ALLOC_SMALL, (size / 8 - 1) as u8);
    } else if is_short(8, size) {
        put_slot(&mut out, offset, UWOP_ALLOC_LARGE, 0);
        put_operand(&mut out, &u16_bytes((size / 8) as u16));
    } else {
        put_slot(&mut out, offset, UWOP_ALLOC_LARGE, 1);
        put_operand(&mut out, &u32_bytes(size));
    }
    out
}

/// A register saved at an offset, in a unit by the one operation or unscaled by the other.
fn saving(offset: u8, op: u8, far: u8, unit: u32, register: u8, at: u32) -> CodeBytes
    requires op { op < 16 }
    requires far { far < 16 }
    requires unit { 0 < unit }
    requires register { register < 16 }
    ensures { result.items ≡ spec.saving offset op far unit register at }
{
    let mut out = CodeBytes::new();
    if is_short(unit, at) {
        put_slot(&mut out, offset, op, register);
        put_operand(&mut out, &u16_bytes((at / unit) as u16));
    } else {
        put_slot(&mut out, offset, far, register);
        put_operand(&mut out, &u32_bytes(at));
    }
    out
}

fn one_slot(offset: u8, op: u8, info: u8) -> CodeBytes
    requires op { op < 16 }
    requires info { info < 16 }
    ensures { result.items ≡ spec.slot offset op info }
{
    let mut out = CodeBytes::new();
    put_slot(&mut out, offset, op, info);
    out
}

/// A code in the shortest form that fits it.
fn code_bytes(framed: bool, code: &UnwindCode) -> CodeBytes
    requires { spec.OperationFits framed code.now.operation }
    ensures { result.items ≡ spec.code_bytes code.now }
{
    let offset = code.offset;
    match code.operation {
        UnwindOperation::Push { register } => one_slot(offset, UWOP_PUSH_NONVOL, register),
        UnwindOperation::Allocate { size } => allocation(offset, size),
        UnwindOperation::SetFrame => one_slot(offset, UWOP_SET_FPREG, 0),
        UnwindOperation::Save {
            register,
            offset: at,
        } => saving(
            offset,
            UWOP_SAVE_NONVOL,
            UWOP_SAVE_NONVOL_FAR,
            8,
            register,
            at,
        ),
        UnwindOperation::SaveVector {
            register,
            offset: at,
        } => saving(
            offset,
            UWOP_SAVE_XMM128,
            UWOP_SAVE_XMM128_FAR,
            16,
            register,
            at,
        ),
        UnwindOperation::MachineFrame { info } => one_slot(offset, UWOP_PUSH_MACHFRAME, info),
    }
}

/// The bytes of a row of a table, of which a scope record is the longest.
type FieldBytes = ArrayVec<u8, SCOPE_RECORD_SIZE>;

fn put_field(out: &mut FieldBytes, value: u32)
    requires { array_vec_len out.old + 4 ≤ SCOPE_RECORD_SIZE }
    ensures items { out.new.items ≡ out.old.items ++ spec.u32 value }
    ensures len { array_vec_len out.new ≡ array_vec_len out.old + 4 }
{
    let _ = out.try_extend_from_slice(&u32_bytes(value));
}

fn range_bytes(range: &RuntimeFunction) -> FieldBytes
    ensures items { result.items ≡ spec.range_bytes range.now }
    ensures len { array_vec_len result ≡ RUNTIME_FUNCTION_SIZE }
{
    let mut out = FieldBytes::new();
    put_field(&mut out, range.begin);
    put_field(&mut out, range.end);
    put_field(&mut out, range.unwind_info);
    out
}

fn scope_record_bytes(row: &ScopeRecord) -> FieldBytes
    ensures { result.items ≡ spec.scope_record_bytes row.now }
{
    let mut out = FieldBytes::new();
    put_field(&mut out, row.begin);
    put_field(&mut out, row.end);
    put_field(&mut out, row.handler_address);
    put_field(&mut out, row.jump_target);
    out
}

/// The codes of an info.
fn codes_bytes(framed: bool, codes: &[UnwindCode]) -> ArrayVec<u8, MOST_SLOT_BYTES>
    requires fits { AllByRecursion (λ c. spec.OperationFits framed c.operation) codes.now }
    requires room { length (spec.codes_bytes codes.now) ≤ MOST_SLOT_BYTES }
    ensures { result.items ≡ spec.codes_bytes codes.now }
{
    let mut out = ArrayVec::new();
    for code in codes {
        let _ = out.try_extend_from_slice(&code_bytes(framed, code));
    }
    out
}

fn flags(trailer: Trailer) -> u8
    ensures value { result ≡ spec.trailer_flags trailer }
    ensures fits { result ≤ UNW_FLAG_CHAININFO }
{
    match trailer {
        Trailer::Nothing => 0,
        Trailer::Handler {
            searching,
            unwinding,
            ..
        } => UNW_FLAG_EHANDLER * searching as u8 + UNW_FLAG_UHANDLER * unwinding as u8,
        Trailer::Parent(_) => UNW_FLAG_CHAININFO,
    }
}

fn trailer_bytes(trailer: Trailer) -> FieldBytes
    ensures items { result.items ≡ spec.trailer_bytes trailer }
    ensures fits { array_vec_len result ≤ RUNTIME_FUNCTION_SIZE }
{
    match trailer {
        Trailer::Nothing => FieldBytes::new(),
        Trailer::Handler { rva, .. } => {
            let mut out = FieldBytes::new();
            put_field(&mut out, rva);
            out
        }
        Trailer::Parent(range) => range_bytes(&range),
    }
}

fn put_zeros(out: &mut InfoBytes, count: usize)
    requires { array_vec_len out.old + count ≤ MOST_WHOLE_INFO_BYTES }
    ensures items { out.new.items ≡ out.old.items ++ replicate count 0 }
    ensures len { array_vec_len out.new ≡ array_vec_len out.old + count }
{
    for _i in 0..count {
        out.push(0);
    }
}

/// An info up to its end.
#[tactic(auto, unfolding(crate::specs::Written::unwind_bytes))]
fn info_bytes(info: &UnwindInfo) -> InfoBytes
    requires { spec.CanBeWritten info.now }
    ensures { result.items ≡ spec.unwind_bytes info.now }
{
    let slots = codes_bytes(0 < info.frame_register, &info.codes);
    let mut out = InfoBytes::new();
    out.push(UNWIND_VERSION + 8 * flags(info.trailer));
    out.push(info.prologue_size);
    out.push((slots.len() / 2) as u8);
    out.push(info.frame_register + info.frame_offset);
    let _ = out.try_extend_from_slice(&slots);
    put_zeros(&mut out, slots.len() % 4);
    let _ = out.try_extend_from_slice(&trailer_bytes(info.trailer));
    out
}

/// Appends an unwind info. Each allocation and each offset is written by the shortest code that
/// fits it. Where no memory is left, nothing is appended.
pub fn write_unwind(info: &UnwindInfo, to: &mut Vec<u8>) -> Result<(), AllocError>
    requires { spec.CanBeWritten info.now }
    ensures written { OnOk result (to.new.items ≡ to.old.items ++ spec.unwind_bytes info.now) }
    ensures kept { OnErr result (to.new.items ≡ to.old.items) }
{
    to.extend_from_slice(&info_bytes(info))
}

/// Appends a scope table: the count of its rows, and they themselves. Where no memory is left,
/// nothing is appended.
pub fn write_scopes(rows: &[ScopeRecord], to: &mut Vec<u8>) -> Result<(), AllocError>
    requires { length rows.now < 2 ^ 32 }
    ensures written { OnOk result (to.new.items ≡ to.old.items ++ spec.scope_bytes rows.now) }
    ensures kept { OnErr result (to.new.items ≡ to.old.items) }
{
    let before = to.len();
    let mut count = FieldBytes::new();
    put_field(&mut count, rows.len() as u32);
    to.extend_from_slice(&count)?;
    for row in rows {
        if let Err(lack) = to.extend_from_slice(&scope_record_bytes(row)) {
            to.truncate(before);
            return Err(lack);
        }
    }
    Ok(())
}

/// Appends the entries of a function table. Where no memory is left, nothing is appended.
pub fn write_pdata(ranges: &[RuntimeFunction], to: &mut Vec<u8>) -> Result<(), AllocError>
    ensures written { OnOk result (to.new.items ≡ to.old.items ++ spec.table_bytes ranges.now) }
    ensures kept { OnErr result (to.new.items ≡ to.old.items) }
{
    let before = to.len();
    for range in ranges {
        if let Err(lack) = to.extend_from_slice(&range_bytes(range)) {
            to.truncate(before);
            return Err(lack);
        }
    }
    Ok(())
}
