//! What unwinding needs to know of a frame.

ghost use Rattle.std.specs.Prelude.{◌≡◌, ◌<◌, ◌≤◌, ◌^◌, ℕ, nat_le};
ghost use Rattle.eh_write.specs.Written.{CanBeWritten};
ghost use Rattle.frame_rules.specs.Plan as rules;
ghost use Rattle.frame_rules.specs.Bytes.{spell};
ghost use Rattle.frame_rules.specs.Prologue.{bytes};
ghost use Rattle.frame_layout.specs.Layout.{IsFrame};
ghost use Rattle.frame_layout.specs.declared.frame.FrameLayout as frames;
ghost use Rattle.frame_layout.specs.Plans as spec;
ghost use Rattle.frame_layout.specs.Infos.{info_of, chained_info, Describes};

use crate::frame::FrameLayout;
use crate::instructions::PROBE_FREE;
use crate::operations::operations;
use arrayvec::ArrayVec;
use eh_tables::{RuntimeFunction, UnwindCode, UnwindOperation};
use eh_write::{Trailer, UnwindInfo};
use template_code::layout::{FRAME_DISTANCE, FRAME_REGISTER};

/// The bytes of what takes a fixed allocation: SUB with an immediate of 8 or 32 bits, or MOV, CALL
/// and SUB.
fn allocation_size(size: u64) -> u8
    requires { size < 2 ^ 31 }
    ensures value { (probe : ℕ)
        → bytes (rules.spelled_by spell
        (rules.allocating probe size (nat_le size PROBE_FREE))) ≡ result }
    ensures small { result ≤ 13 }
{
    if size > PROBE_FREE {
        13
    } else if size < 128 {
        4
    } else {
        7
    }
}

/// The bytes of the instructions of an operation.
fn step_size(operation: UnwindOperation, framed: bool) -> u8
    requires { spec.IsStep framed operation }
    ensures { (f : frames.FrameLayout) → f.framed ≡ framed → bytes (rules.spelled_by spell
        (rules.instructions_of (spec.plan_of f 0) operation)) ≡ result }
{
    match operation {
        UnwindOperation::Push { .. } => 1,
        UnwindOperation::Allocate { size } => allocation_size(u64::from(size)),
        UnwindOperation::SetFrame => 8,
        UnwindOperation::Save { offset, .. } => if offset < 128 { 5 } else { 8 },
        UnwindOperation::SaveVector { .. } | UnwindOperation::MachineFrame { .. } => 0,
    }
}

/// The number of the frame register, where 0 means none.
fn frame_register(framed: bool) -> u8
    ensures { result ≡ spec.frame_register_if framed }
{
    if framed { FRAME_REGISTER } else { 0 }
}

/// How far it is above RSP.
fn frame_distance(framed: bool) -> u8
    ensures { result ≡ spec.frame_distance_if framed }
{
    if framed { FRAME_DISTANCE as u8 } else { 0 }
}

/// What unwinding needs to know of the prologue of a frame.
pub fn unwind_of(frame: &FrameLayout) -> UnwindInfo
    requires { IsFrame frame.now }
    ensures value { result ≡ info_of frame.now Trailer.Nothing }
    ensures describes { (probe : ℕ)
        → Describes result (rules.unwind_of spell (spec.plan_of frame.now probe)) }
    ensures written { CanBeWritten result }
{
    let operations = operations(frame);
    let mut codes = ArrayVec::new();
    let mut offset = 0;
    for operation in operations.as_slice() {
        offset += step_size(*operation, frame.framed);
        codes.insert(
            0,
            UnwindCode {
                offset,
                operation: *operation,
            },
        );
    }
    UnwindInfo {
        prologue_size: offset,
        frame_register: frame_register(frame.framed),
        frame_offset: frame_distance(frame.framed),
        codes,
        trailer: Trailer::Nothing,
    }
}

/// What unwinding needs to know of code that is apart from the function of a frame: the function's
/// entry, to which it is chained.
pub fn chained_of(framed: bool, parent: RuntimeFunction) -> UnwindInfo
    ensures value { result ≡ chained_info framed parent }
    ensures written { CanBeWritten result }
{
    UnwindInfo {
        prologue_size: 0,
        frame_register: frame_register(framed),
        frame_offset: frame_distance(framed),
        codes: ArrayVec::new(),
        trailer: Trailer::Parent(parent),
    }
}
