//! Unwindings.

ghost use Rattle.std.specs.Prelude.{◌≡◌, ◌+◌, ◌^◌, ◌<◌};
ghost use Rattle.eh_tables.specs.Tables.{TablesAreWhole};
ghost use Rattle.virtual_unwind.specs.CallerOf.{functions_of};
ghost use Rattle.seh_walk.specs.Walk as walk;
ghost use Rattle.seh_unwind.specs.Unwind as spec;

use crate::unwind_result::UnwindResult;
use eh_tables::{ScopeRecord, Tables};
use seh_num::end::Reason;
use seh_records::DispatchRecord;
use seh_walk::asked::first_unwound;
use seh_walk::stop_cause::StopCause;
use seh_walk::walk::{WalkItem, WalkState, visit};
use x64_machine::context::Context;
use x64_memory::space::AddressSpace;

fn lost(frame: u64) -> UnwindResult
    ensures { result ≡ spec.lost frame }
{
    UnwindResult::Stop(StopCause {
        reason: Reason::LostFrame,
        address: frame,
    })
}

fn block(base: u64, frame: u64, context: &Context, k: u64, row: &ScopeRecord) -> UnwindResult
    requires { k + 1 < 2 ^ 64 }
    ensures { result ≡ spec.block base frame context.now (k, row.now) }
{
    UnwindResult::Finally {
        handler: base.wrapping_add(row.handler_address as u64),
        frame,
        row: k + 1,
        walk: *context,
    }
}

/// What one step of the walk decides, or the state that the walk continues from.
#[tactic(auto, using(seh_walk::proofs::FoundRows::asked_is))]
fn decide<S: AddressSpace>(
    tables: &Tables,
    space: &S,
    frame: u64,
    target: u64,
    at: &WalkState,
) -> Result<WalkState, UnwindResult>
    requires { TablesAreWhole tables.now }
    ensures { result ≡ spec.decided (functions_of tables.now) frame target at.now
        (walk.visited (functions_of tables.now) (S.memory space.now) at.now) }
{
    let visit = visit(tables, space, at);
    match visit.item {
        WalkItem::Over => Err(lost(frame)),
        WalkItem::Broken(why) => Err(UnwindResult::Stop(why)),
        WalkItem::Past(next) => Ok(next),
        WalkItem::Frame(caller, next) => {
            if frame < caller.frame {
                return Err(lost(frame));
            }
            let base = tables.base();
            let rva = at.context.rip.wrapping_sub(base);
            let is_last = caller.frame == frame;
            let end = target.wrapping_sub(base);
            let found = visit.found.as_ref();
            match first_unwound(found, caller.in_body, rva, at.row, is_last, end) {
                Some((k, row)) => Err(block(base, caller.frame, &at.context, k, &row)),
                None => {
                    if is_last {
                        Err(UnwindResult::Land {
                            context: at.context,
                        })
                    } else {
                        Ok(next)
                    }
                }
            }
        }
    }
}

/// The unwinding that a record keeps, from its walk's state and next row on: the first `__finally`
/// block on the way to the target's frame, or the state there. A frame above the target's, or the
/// end of the walk, is `LostFrame` with the target's frame.
#[tactic(auto, using(crate::proofs::Unwinds::unwind_steps))]
pub fn unwind<S: AddressSpace>(
    tables: &Tables,
    space: &S,
    dispatch: &DispatchRecord,
) -> UnwindResult
    requires { TablesAreWhole tables.now }
    ensures { result ≡ spec.unwind walk.steps (functions_of tables.now) (S.memory space.now)
        dispatch.now.target_frame dispatch.now.target (walk.walk_in dispatch.now) }
{
    let mut at = WalkState {
        context: dispatch.walk,
        row: dispatch.row,
    };
    for _i in 0..0xFFFF_FFFF_FFFF_FFFFu64 {
        match decide(tables, space, dispatch.target_frame, dispatch.target, &at) {
            Ok(next) => at = next,
            Err(found) => return found,
        }
    }
    lost(dispatch.target_frame)
}
