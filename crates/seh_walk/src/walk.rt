//! What a walk finds.

ghost use Rattle.std.specs.Prelude.{◌≡◌, option_map};
ghost use Rattle.eh_tables.specs.Found.{function_entry};
ghost use Rattle.eh_tables.specs.Tables.{TablesAreWhole};
ghost use Rattle.virtual_unwind.specs.CallerOf.{functions_of, entry_of};
ghost use Rattle.seh_records.specs.Record.{fetched, fetch_answer};
ghost use Rattle.seh_walk.specs.Walk as spec;
ghost use Rattle.seh_walk.specs.Seen.{
  seen,
  item_of,
  bad_item,
  above_item,
  filter_item,
  finally_item,
  vectored_return_item,
};

use crate::stop_cause::StopCause;
use eh_tables::{FunctionEntry, Tables};
use host_layout::service::{FILTER_RETURN_AT, FINALLY_RETURN_AT, VECTORED_RETURN_AT};
use seh_num::end::Reason;
use seh_records::dispatch::Kind;
use seh_records::{BadRecord, DispatchRecord, fetch};
use virtual_unwind::UnwindErr;
use virtual_unwind::frame::Caller;
use virtual_unwind::unwinding::caller_found;
use x64_machine::context::Context;
use x64_memory::space::AddressSpace;

/// The state of a walk: a context, and the index of the next scope record there.
#[derive(Clone, Copy, Debug, PartialEq, Eq)]
pub struct WalkState {
    /// The registers in the frame.
    pub context: Context,
    /// The index of the next scope record of the frame's entry.
    pub row: u64,
}

/// What a walk finds.
#[derive(Clone, Copy, Debug, PartialEq, Eq)]
pub enum WalkItem {
    /// The end: RIP is 0.
    Over,
    /// A return address of the host, and the state that the walk continues from.
    Past(WalkState),
    /// A frame, and the state that the walk continues from after it.
    Frame(Caller, WalkState),
    /// Nothing that a walk can continue from.
    Broken(StopCause),
}

fn bad(at: u64) -> WalkItem
    ensures { result ≡ bad_item at }
{
    WalkItem::Broken(StopCause {
        reason: Reason::BadRecord,
        address: at,
    })
}

fn above(at: u64, to: WalkState) -> WalkItem
    ensures { result ≡ above_item at to }
{
    if at < to.context.kept[0] {
        WalkItem::Past(to)
    } else {
        WalkItem::Broken(StopCause {
            reason: Reason::Backward,
            address: at,
        })
    }
}

fn past_filter(at: u64, answer: Result<DispatchRecord, BadRecord>) -> WalkItem
    ensures { result ≡ filter_item at answer }
{
    match answer {
        Err(_) => bad(at),
        Ok(dispatch) => match dispatch.kind {
            Kind::Search => above(
                at,
                WalkState {
                    context: Context::of(&dispatch.saved),
                    row: 0,
                },
            ),
            _ => bad(at),
        },
    }
}

fn past_finally(at: u64, answer: Result<DispatchRecord, BadRecord>) -> WalkItem
    ensures { result ≡ finally_item at answer }
{
    match answer {
        Err(_) => bad(at),
        Ok(dispatch) => match dispatch.kind {
            Kind::Search | Kind::Vectored => bad(at),
            Kind::ExceptionUnwind | Kind::LocalUnwind => above(
                at,
                WalkState {
                    context: dispatch.walk,
                    row: dispatch.row,
                },
            ),
        },
    }
}

fn past_vectored(at: u64, answer: Result<DispatchRecord, BadRecord>) -> WalkItem
    ensures { result ≡ vectored_return_item at answer }
{
    match answer {
        Err(_) => bad(at),
        Ok(dispatch) => match dispatch.kind {
            Kind::Vectored => above(
                at,
                WalkState {
                    context: Context::of(&dispatch.saved),
                    row: 0,
                },
            ),
            _ => bad(at),
        },
    }
}

fn framed(answer: Result<Caller, UnwindErr>) -> WalkItem
    ensures { result ≡ item_of answer }
{
    match answer {
        Ok(caller) => WalkItem::Frame(
            caller,
            WalkState {
                context: caller.context,
                row: 0,
            },
        ),
        Err(UnwindErr::Unreadable { address }) => WalkItem::Broken(StopCause {
            reason: Reason::Unreadable,
            address,
        }),
        Err(UnwindErr::Backward { rsp }) => WalkItem::Broken(StopCause {
            reason: Reason::Backward,
            address: rsp,
        }),
    }
}

/// What a walk finds, and the entry that covers RIP.
#[derive(Drop)]
pub struct VisitedState<'a> {
    /// What the walk finds.
    pub item: WalkItem,
    /// The entry whose range covers RIP.
    pub found: Option<FunctionEntry<'a>>,
}

/// What a walk finds at its state, where the entry that covers RIP has been looked up.
#[tactic(auto, using(crate::proofs::SeenItems::items), unfolding(crate::specs::Walk::visited))]
fn item<S: AddressSpace>(
    tables: &Tables,
    found: Option<&FunctionEntry>,
    space: &S,
    at: &WalkState,
) -> WalkItem
    requires whole { TablesAreWhole tables.now }
    requires found { option_map (λ f. f.now) found
        ≡ option_map function_entry (entry_of (functions_of tables.now) at.now.context.rip) }
    ensures { seen (functions_of tables.now) at.now result
        ≡ spec.visited (functions_of tables.now) (S.memory space.now) at.now }
{
    let rsp = at.context.kept[0];
    match at.context.rip {
        0 => WalkItem::Over,
        FILTER_RETURN_AT => past_filter(rsp, fetch(space, rsp)),
        FINALLY_RETURN_AT => past_finally(rsp, fetch(space, rsp)),
        VECTORED_RETURN_AT => past_vectored(rsp, fetch(space, rsp)),
        _ => framed(caller_found(tables, found, space, &at.context)),
    }
}

/// What a walk finds at its state.
pub fn visit<'bytes, S: AddressSpace>(
    tables: &Tables<'_, 'bytes>,
    space: &S,
    at: &WalkState,
) -> VisitedState<'bytes>
    requires { TablesAreWhole tables.now }
    ensures item { seen (functions_of tables.now) at.now result.item
        ≡ spec.visited (functions_of tables.now) (S.memory space.now) at.now }
    ensures found { result.found
        ≡ option_map function_entry (entry_of (functions_of tables.now) at.now.context.rip) }
{
    let found = tables.find(at.context.rip.wrapping_sub(tables.base()));
    let item = item(tables, found.as_ref(), space, at);
    VisitedState { item, found }
}
