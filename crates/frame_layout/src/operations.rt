//! What the prologue of a frame does, step by step.

ghost use Rattle.std.specs.Prelude.{◌≡◌, ◌<◌, ◌≤◌, ◌+◌, ◌*◌, ◌^◌, ℕ, ◌++◌, []};
ghost use Rattle.std.specs.List.{AllByRecursion};
ghost use Rattle.arrayvec.specs.ArrayVec.{array_vec_len};
ghost use Rattle.frame_rules.specs.Codes.{pushed};
ghost use Rattle.frame_rules.specs.Plan as rules;
ghost use Rattle.frame_layout.specs.Layout.{IsFrame};
ghost use Rattle.frame_layout.specs.Plans as spec;

use crate::frame::FrameLayout;
use arrayvec::ArrayVec;
use eh_tables::UnwindOperation;
use template_code::layout::FRAME_REGISTER;

/// The number of R12, the first register that is saved by MOV.
pub const FIRST_SAVED: u8 = 12;

/// The register that is pushed after so many others: RBX, RSI, RDI.
pub fn pushed_register(index: u64) -> u8
    ensures { result ≡ spec.pushed_register index }
{
    if index == 0 {
        3
    } else if index == 1 {
        6
    } else {
        7
    }
}

/// The pushes of a frame.
fn pushes(count: u64, framed: bool) -> ArrayVec<UnwindOperation, 16>
    requires { count ≤ 3 }
    ensures value { result.items ≡ rules.turned [] (pushed (spec.pushes_of count framed)) }
    ensures few { array_vec_len result ≤ count + 1 }
{
    let mut operations = ArrayVec::new();
    if framed {
        operations.push(UnwindOperation::Push {
            register: FRAME_REGISTER,
        });
    }
    for index in 0..count {
        operations.push(UnwindOperation::Push {
            register: pushed_register(index),
        });
    }
    operations
}

/// Adds the setting of the frame register, if there is one.
fn put_frame(operations: &mut ArrayVec<UnwindOperation, 16>, framed: bool)
    requires { array_vec_len operations.old ≤ 5 }
    ensures items { operations.new.items ≡ operations.old.items ++ rules.frame_then framed [] }
    ensures few { array_vec_len operations.new ≤ array_vec_len operations.old + 1 }
{
    if framed {
        operations.push(UnwindOperation::SetFrame);
    }
}

/// Adds the saves by MOV of a frame, from a distance on.
fn put_saves(operations: &mut ArrayVec<UnwindOperation, 16>, slots: u64, count: u64)
    requires few { array_vec_len operations.old ≤ 6 }
    requires saves { count ≤ 4 }
    requires fits { slots + 8 * count < 2 ^ 31 }
    ensures { operations.new.items ≡ operations.old.items
        ++ rules.turned [] (rules.saves_then (spec.saves_of slots count) []) }
{
    for index in 0..count {
        operations.push(UnwindOperation::Save {
            register: FIRST_SAVED + index as u8,
            offset: (slots + 8 * index) as u32,
        });
    }
}

/// The operations of a frame, from the first to the last.
pub fn operations(frame: &FrameLayout) -> ArrayVec<UnwindOperation, 16>
    requires { IsFrame frame.now }
    ensures value { (probe : ℕ)
        → result.items ≡ rules.turned [] (rules.operations_of (spec.plan_of frame.now probe)) }
    ensures steps { AllByRecursion (spec.IsStep frame.now.framed) result.items }
{
    let mut operations = pushes(frame.pushes, frame.framed);
    operations.push(UnwindOperation::Allocate {
        size: frame.size as u32,
    });
    put_frame(&mut operations, frame.framed);
    put_saves(&mut operations, frame.slots, frame.saves);
    operations
}
