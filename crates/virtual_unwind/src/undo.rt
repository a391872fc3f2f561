//! Codes undone.

ghost use Rattle.std.specs.Prelude.{◌≡◌, Ok, Err, IfOk, IfErr};
ghost use Rattle.virtual_unwind.specs.CallerOf as cases;
ghost use Rattle.virtual_unwind.specs.Undone as spec;
ghost use Rattle.virtual_unwind.specs.Views.{undo_of};

use crate::kept::{get, raise_rsp, rsp, set, set_rsp};
use crate::refusal::UnwindErr;
use crate::word::word;
use eh_tables::{Codes, Info, UnwindOperation};
use x64_machine::context::Context;
use x64_memory::space::ReadSpace;

/// A context on the way, and whether RIP is the caller's already.
#[derive(Clone, Copy, Debug, PartialEq, Eq)]
pub struct Undo {
    /// The context with the codes so far undone.
    pub context: Context,
    /// Whether a machine frame has given RIP already.
    pub is_returned: bool,
}

/// The base of the fixed allocation, by the frame register.
pub fn below_frame(info: &Info, context: &Context) -> u64
    ensures { result ≡ spec.below_frame info.now context.now }
{
    get(context, info.frame_register()).wrapping_sub(info.frame_offset() as u64)
}

/// Undoes one code; what is left where it is refused isn't said.
fn undo_one<S: ReadSpace>(
    space: &S,
    base: u64,
    info: &Info,
    undo: &mut Undo,
    operation: UnwindOperation,
) -> Result<(), UnwindErr>
    ensures done { IfOk result (λ u. spec.undone_one (S.memory space.now) base info.now
        (undo_of undo.old) operation ≡ Ok (undo_of undo.new)) }
    ensures refused { IfErr result (λ e. spec.undone_one (S.memory space.now) base info.now
        (undo_of undo.old) operation ≡ Err e) }
{
    match operation {
        UnwindOperation::Push { register } => {
            let value = word(space, rsp(&undo.context))?;
            set(&mut undo.context, register, value);
            raise_rsp(&mut undo.context, 8);
            Ok(())
        }
        UnwindOperation::Allocate { size } => {
            raise_rsp(&mut undo.context, size as u64);
            Ok(())
        }
        UnwindOperation::SetFrame => {
            let below = below_frame(info, &undo.context);
            set_rsp(&mut undo.context, below);
            Ok(())
        }
        UnwindOperation::Save { register, offset } => {
            let value = word(space, base.wrapping_add(offset as u64))?;
            set(&mut undo.context, register, value);
            Ok(())
        }
        UnwindOperation::SaveVector { .. } => Ok(()),
        UnwindOperation::MachineFrame { info } => {
            let at = rsp(&undo.context).wrapping_add(8 * info as u64);
            let rip = word(space, at)?;
            let stack = word(space, at.wrapping_add(24))?;
            undo.context.rip = rip;
            set_rsp(&mut undo.context, stack);
            undo.is_returned = true;
            Ok(())
        }
    }
}

/// Undoes codes, the first one first.
pub fn undone<S: ReadSpace>(
    space: &S,
    base: u64,
    info: &Info,
    codes: Codes,
    undo: &mut Undo,
) -> Result<(), UnwindErr>
    ensures done { IfOk result (λ u. spec.undone (S.memory space.now) base info.now
        (spec.operations codes.entry) (undo_of undo.old) ≡ Ok (undo_of undo.new)) }
    ensures refused { IfErr result (λ e. spec.undone (S.memory space.now) base info.now
        (spec.operations codes.entry) (undo_of undo.old) ≡ Err e) }
{
    for code in codes {
        if let Err(e) = undo_one(space, base, info, undo, code.operation) {
            return Err(e);
        }
    }
    Ok(())
}

/// Undoes the codes of the instructions that have been run at a distance from the begin.
pub fn undone_by<S: ReadSpace>(
    space: &S,
    base: u64,
    info: &Info,
    distance: u64,
    codes: Codes,
    undo: &mut Undo,
) -> Result<(), UnwindErr>
    ensures done { IfOk result (λ u. spec.undone (S.memory space.now) base info.now
        (spec.operations (cases.run_by distance codes.entry)) (undo_of undo.old)
        ≡ Ok (undo_of undo.new)) }
    ensures refused { IfErr result (λ e. spec.undone (S.memory space.now) base info.now
        (spec.operations (cases.run_by distance codes.entry)) (undo_of undo.old) ≡ Err e) }
{
    let mut left = codes;
    while let Some(code) = left.next() {
        if code.offset as u64 <= distance {
            if let Err(e) = undo_one(space, base, info, undo, code.operation) {
                return Err(e);
            }
            return undone(space, base, info, left, undo);
        }
    }
    Ok(())
}

/// Whether the frame register is set by an instruction.
fn is_set_frame(operation: UnwindOperation) -> bool
    ensures { result ≡ cases.is_set_frame operation }
{
    match operation {
        UnwindOperation::SetFrame => true,
        _ => false,
    }
}

/// Whether the frame register is set by one of these.
fn sets_frame(codes: Codes) -> bool
    ensures { result ≡ cases.sets_frame (spec.operations codes.entry) }
{
    for code in codes {
        if is_set_frame(code.operation) {
            return true;
        }
    }
    false
}

/// Whether it has been set at a distance from the begin.
pub fn sets_frame_by(distance: u64, codes: Codes) -> bool
    ensures { result ≡ cases.sets_frame (spec.operations (cases.run_by distance codes.entry)) }
{
    let mut left = codes;
    while let Some(code) = left.next() {
        if code.offset as u64 <= distance {
            return is_set_frame(code.operation) || sets_frame(left);
        }
    }
    false
}

/// Undoes the parents' codes whole, from the same base.
pub fn all_undone<S: ReadSpace>(
    space: &S,
    base: u64,
    parents: &[Info],
    undo: &mut Undo,
) -> Result<(), UnwindErr>
    ensures done { IfOk result (λ u. spec.all_undone (S.memory space.now) base parents.now
        (undo_of undo.old) ≡ Ok (undo_of undo.new)) }
    ensures refused { IfErr result (λ e. spec.all_undone (S.memory space.now) base parents.now
        (undo_of undo.old) ≡ Err e) }
{
    match parents {
        [] => Ok(()),
        [first, rest @ ..] => {
            if let Err(e) = undone(space, base, first, first.codes(), undo) {
                return Err(e);
            }
            all_undone(space, base, rest, undo)
        }
    }
}
