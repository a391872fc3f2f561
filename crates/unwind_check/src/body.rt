//! StackWrite, Unsaved and Epilogue: the instructions past the prologue, one after another
//! (Microsoft x64 ABI, "Prolog and epilog").

ghost use Rattle.std.specs.Prelude.{◌≡◌, ℕ, List, ◌+◌, ◌<◌, ◌≤◌, ◌^◌, [], ◌∷◌, length, IfOk};
ghost use Rattle.virtual_unwind.specs.Tail.{tail_at};
ghost use Rattle.virtual_unwind.specs.Undone.{operations};
ghost use Rattle.frame_rules.specs.Body as rules;
ghost use Rattle.unwind_tails.specs.Instructions.{between};
ghost use Rattle.unwind_check.specs.Steps as spec;
ghost use Rattle.unwind_tails.specs.Instructions as instrs;
ghost use Rattle.unwind_tails.specs.TailEnds.{AreEnded};

use crate::loads::{are_restored, has, restored_by};
use crate::rule::{Fault, Rule};
use crate::written::{keeps_saved, keeps_stack};
use eh_tables::{Info, UnwindCode};
use std::alloc::{AllocError, Global};
use unwind_tails::decoded::{first_between, item_before};
use unwind_tails::epilogue::is_epilogue;
use unwind_tails::fetched::FetchedInstr;
use unwind_tails::known_tails::KnownTails;
use unwind_tails::tail::{Tail, tail_from};
use x64_memory::space::CodeSpace;

/// Whether the first so many instructions from an address on are a whole epilogue of the function,
/// with all saved registers loaded before it. So many instructions are inside the entry, which ends
/// at `end`. Refused for want of memory alone.
fn is_own<S: CodeSpace>(
    alloc: Global,
    space: &S,
    info: &Info,
    codes: &[UnwindCode],
    at: u64,
    end: u64,
    loaded: &[u8],
    count: u64,
) -> Result<bool, AllocError>
    requires codes { codes.now ≡ info.now.codes }
    requires order { at ≤ end }
    requires inside { count ≤ length (between (S.memory space.now) at end).items }
    ensures { IfOk result (λ b. (rs : List ℕ) → spec.HaveSame loaded.now rs
        → b ≡ spec.is_own_part info.now.frame_register info.now.frame_offset
        (operations info.now.codes) rs (between (S.memory space.now) at end).items count) }
{
    // one gives back the allocation, one ends it, and the others pop what codes pushed
    if !are_restored(loaded, codes) {
        return Ok(false);
    }
    if count > codes.len() as u64 + 2 {
        return Ok(false);
    }
    let items = first_between(alloc, space, at, end, count)?;
    let offset = info.frame_offset() as u64;
    Ok(is_epilogue(info.frame_register(), offset, codes, &items))
}

/// Adds the register that an instruction loads, where it loads one; else none is known any longer.
fn note_load(loaded: &mut Vec<u8>, register: Option<u8>) -> Result<(), AllocError>
    ensures { IfOk result (λ u. (rs : List ℕ) → spec.HaveSame loaded.old.items rs
        → spec.HaveSame loaded.new.items (rules.with_restored rs register)) }
{
    match register {
        None => {
            loaded.clear();
            Ok(())
        }
        Some(register) => {
            if has(register, loaded) {
                return Ok(());
            }
            loaded.insert(0, register)?;
            Ok(())
        }
    }
}

/// The register that an instruction outside epilogues loads from its saved place, if it loads one,
/// or the fault at it.
fn plain_load(
    info: &Info,
    codes: &[UnwindCode],
    at: u64,
    item: &FetchedInstr,
) -> Result<Option<u8>, Fault>
    requires codes { codes.now ≡ info.now.codes }
    ensures { result ≡ spec.plain_load info.now at item.now }
{
    if !keeps_stack(info.frame_register(), item.instr()) {
        return Err(Fault {
            at,
            rule: Rule::StackWrite,
        });
    }
    if !keeps_saved(codes, item.instr()) {
        return Err(Fault {
            at,
            rule: Rule::Unsaved,
        });
    }
    let offset = info.frame_offset() as u64;
    Ok(restored_by(info.frame_register(), offset, codes, item.instr()))
}

/// Past an instruction outside epilogues.
fn pass_plain(
    info: &Info,
    codes: &[UnwindCode],
    at: u64,
    loaded: &mut Vec<u8>,
    item: &FetchedInstr,
) -> Result<Result<u64, Fault>, AllocError>
    requires codes { codes.now ≡ info.now.codes }
    ensures { IfOk result (λ r. (rs : List ℕ) → spec.HaveSame loaded.old.items rs
        → spec.ShowsStep loaded.new.items r (spec.past_plain info.now at rs item.now)) }
{
    match plain_load(info, codes, at, item) {
        Err(fault) => Ok(Err(fault)),
        Ok(register) => {
            note_load(loaded, register)?;
            Ok(Ok(0))
        }
    }
}

/// Past an instruction, by the trailing part of a legal epilogue that stands there, if one does.
fn pass_rest<S: CodeSpace>(
    alloc: Global,
    space: &S,
    known: &mut KnownTails,
    info: &Info,
    codes: &[UnwindCode],
    at: u64,
    end: u64,
    loaded: &mut Vec<u8>,
    item: &FetchedInstr,
) -> Result<Result<u64, Fault>, AllocError>
    requires codes { codes.now ≡ info.now.codes }
    requires first { instrs.HasFirst (S.memory space.now) at end item.now }
    requires low { end < 2 ^ 63 }
    requires known { AreEnded (S.memory space.now) known.old }
    ensures step { IfOk result (λ r. (rs : List ℕ) → spec.HaveSame loaded.old.items rs
        → spec.ShowsStep loaded.new.items r (spec.past_rest info.now at rs item.now
        (between (S.memory space.now) (at + item.now.size) end).items
        (tail_at info.now.frame_register (S.memory space.now) at))) }
    ensures known { AreEnded (S.memory space.now) known.new }
{
    let rule = Rule::Epilogue;
    let tail = tail_from(alloc, space, known, info.frame_register(), at, end, item)?;
    match tail {
        Tail::Missing => {
            let passed = pass_plain(info, codes, at, loaded, item)?;
            Ok(passed)
        }
        Tail::Outside => Ok(Err(Fault { at, rule })),
        Tail::Inside { count } => {
            let own = is_own(alloc, space, info, codes, at, end, loaded, count)?;
            if own {
                loaded.clear();
                Ok(Ok(count.saturating_sub(1)))
            } else {
                Ok(Err(Fault { at, rule }))
            }
        }
    }
}

/// Past an instruction: how many instructions of an epilogue are left, or the fault at it. `left`
/// are those before it, and `loaded` the registers that the instructions straight before it loaded.
fn step<S: CodeSpace>(
    alloc: Global,
    space: &S,
    known: &mut KnownTails,
    info: &Info,
    codes: &[UnwindCode],
    at: u64,
    end: u64,
    loaded: &mut Vec<u8>,
    item: &FetchedInstr,
    left: u64,
) -> Result<Result<u64, Fault>, AllocError>
    requires codes { codes.now ≡ info.now.codes }
    requires first { instrs.HasFirst (S.memory space.now) at end item.now }
    requires low { end < 2 ^ 63 }
    requires known { AreEnded (S.memory space.now) known.old }
    ensures step { IfOk result (λ r. (rs : List ℕ) → spec.HaveSame loaded.old.items rs
        → spec.ShowsStep loaded.new.items r (spec.step_of (S.memory space.now) info.now at rs
        item.now (between (S.memory space.now) (at + item.now.size) end).items left)) }
    ensures known { AreEnded (S.memory space.now) known.new }
{
    if left == 0 {
        let passed = pass_rest(alloc, space, known, info, codes, at, end, loaded, item)?;
        Ok(passed)
    } else {
        loaded.clear();
        Ok(Ok(left - 1))
    }
}

/// The first fault of the instructions past a prologue, from one address up to the entry's end.
/// They are read one after another, and none is kept: what an epilogue is to know of those before
/// it is which registers they loaded. Refused for want of memory alone.
pub fn body_fault<S: CodeSpace>(
    alloc: Global,
    space: &S,
    known: &mut KnownTails,
    info: &Info,
    codes: &[UnwindCode],
    begin: u64,
    end: u64,
) -> Result<Option<Fault>, AllocError>
    requires codes { codes.now ≡ info.now.codes }
    requires order { begin ≤ end }
    requires low { end < 2 ^ 63 }
    requires known { AreEnded (S.memory space.now) known.old }
    ensures fault { IfOk result
        (λ o. o ≡ spec.body_between (S.memory space.now) info.now begin end [] 0) }
    ensures known { AreEnded (S.memory space.now) known.new }
{
    let mut at = begin;
    let mut loaded = Vec::new(alloc);
    let mut left = 0;
    while at < end {
        match item_before(space, at, end) {
            None => {
                let rule = Rule::Decode;
                return Ok(Some(Fault { at, rule }));
            }
            Some(item) => {
                let passed = step(
                    alloc,
                    space,
                    known,
                    info,
                    codes,
                    at,
                    end,
                    &mut loaded,
                    &item,
                    left,
                )?;
                match passed {
                    Err(fault) => return Ok(Some(fault)),
                    Ok(still) => {
                        left = still;
                        at += item.size();
                    }
                }
            }
        }
    }
    Ok(None)
}
