//! Codes undone.

ghost use Rattle.std.specs.Prelude.{◌≡◌, Ok, Err, IfOk, IfErr};
ghost use Rattle.virtual_unwind.specs.Undone as general;
ghost use Rattle.abi_unwind.specs.Caller as caller;
ghost use Rattle.abi_unwind.specs.Undone as spec;
ghost use Rattle.abi_unwind.specs.Views.{undo_of};

use crate::context::NONVOLATILE_VECTORS;
use crate::vectors::{set_vector, wide};
use eh_tables::{Codes, Info, RuntimeFunction, UnwindOperation};
use virtual_unwind::UnwindErr;
use virtual_unwind::kept::{raise_rsp, rsp, set, set_rsp};
use virtual_unwind::undo::{Undo, below_frame};
use virtual_unwind::word::word;
use x64_memory::space::ReadSpace;

/// A context on the way, and whether RIP is the caller's already.
#[derive(Clone, Copy, Debug, PartialEq, Eq)]
pub struct AbiUndo {
    /// The general registers, with the codes so far undone.
    pub general: Undo,
    /// XMM6 to XMM15.
    pub vectors: [u128; NONVOLATILE_VECTORS],
}

/// Undoes one code; what is left where it is refused isn't said.
fn undo_one<S: ReadSpace>(
    space: &S,
    base: u64,
    info: &Info,
    undo: &mut AbiUndo,
    operation: UnwindOperation,
) -> Result<(), UnwindErr>
    ensures done { IfOk result (λ u. spec.undone_one (S.memory space.now) base info.now
        (undo_of undo.old) operation ≡ Ok (undo_of undo.new)) }
    ensures refused { IfErr result (λ e. spec.undone_one (S.memory space.now) base info.now
        (undo_of undo.old) operation ≡ Err e) }
{
    let context = &mut undo.general.context;
    match operation {
        UnwindOperation::Push { register } => {
            let value = word(space, rsp(context))?;
            set(context, register, value);
            raise_rsp(context, 8);
            Ok(())
        }
        UnwindOperation::Allocate { size } => {
            raise_rsp(context, size as u64);
            Ok(())
        }
        UnwindOperation::SetFrame => {
            let below = below_frame(info, context);
            set_rsp(context, below);
            Ok(())
        }
        UnwindOperation::Save { register, offset } => {
            let value = word(space, base.wrapping_add(offset as u64))?;
            set(context, register, value);
            Ok(())
        }
        UnwindOperation::SaveVector { register, offset } => {
            let value = wide(space, base.wrapping_add(offset as u64))?;
            set_vector(&mut undo.vectors, register, value);
            Ok(())
        }
        UnwindOperation::MachineFrame { info } => {
            let at = rsp(context).wrapping_add(8 * info as u64);
            let rip = word(space, at)?;
            let stack = word(space, at.wrapping_add(24))?;
            context.rip = rip;
            set_rsp(context, stack);
            undo.general.is_returned = true;
            Ok(())
        }
    }
}

/// Undoes codes, the first one first.
fn undone<S: ReadSpace>(
    space: &S,
    base: u64,
    info: &Info,
    codes: Codes,
    undo: &mut AbiUndo,
) -> Result<(), UnwindErr>
    ensures done { IfOk result (λ u. spec.undone (S.memory space.now) base info.now
        (general.operations codes.entry) (undo_of undo.old) ≡ Ok (undo_of undo.new)) }
    ensures refused { IfErr result (λ e. spec.undone (S.memory space.now) base info.now
        (general.operations codes.entry) (undo_of undo.old) ≡ Err e) }
{
    for code in codes {
        if let Err(e) = undo_one(space, base, info, undo, code.operation) {
            return Err(e);
        }
    }
    Ok(())
}

/// Undoes the codes of the instructions that have been run at a distance from the begin.
fn undone_by<S: ReadSpace>(
    space: &S,
    base: u64,
    info: &Info,
    distance: u64,
    undo: &mut AbiUndo,
) -> Result<(), UnwindErr>
    ensures done { IfOk result (λ u. spec.undone (S.memory space.now) base info.now
        (caller.codes_at info.now distance) (undo_of undo.old) ≡ Ok (undo_of undo.new)) }
    ensures refused { IfErr result (λ e. spec.undone (S.memory space.now) base info.now
        (caller.codes_at info.now distance) (undo_of undo.old) ≡ Err e) }
{
    let mut left = info.codes();
    while let Some(code) = left.next() {
        if code.offset as u64 <= distance {
            if let Err(e) = undo_one(space, base, info, undo, code.operation) {
                return Err(e);
            }
            return undone(space, base, info, left, undo);
        }
    }
    Ok(())
}

/// The range that an info is chained to.
pub fn parent_or(range: RuntimeFunction, info: &Info) -> RuntimeFunction
    ensures { result ≡ caller.parent_or range info.now.parent }
{
    match info.parent() {
        None => range,
        Some(parent) => parent,
    }
}

/// Undoes of each info of a chain the codes of the instructions that lie before an address, from
/// the same base.
#[tactic(auto, using(crate::proofs::Chains::chain_refused))]
pub fn chain_undone<S: ReadSpace>(
    space: &S,
    base: u64,
    rva: u64,
    range: RuntimeFunction,
    info: &Info,
    parents: &[Info],
    undo: &mut AbiUndo,
) -> Result<(), UnwindErr>
    ensures done { IfOk result (λ u. caller.chain_undone (S.memory space.now) base rva range
        info.now parents.now (undo_of undo.old) ≡ Ok (undo_of undo.new)) }
    ensures refused { IfErr result (λ e. caller.chain_undone (S.memory space.now) base rva range
        info.now parents.now (undo_of undo.old) ≡ Err e) }
{
    let distance = rva.wrapping_sub(range.begin as u64);
    if let Err(e) = undone_by(space, base, info, distance, undo) {
        return Err(e);
    }
    match parents {
        [] => Ok(()),
        [first, rest @ ..] => {
            chain_undone(space, base, rva, parent_or(range, info), first, rest, undo)
        }
    }
}
