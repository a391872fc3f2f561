//! Exceptions as they are raised: the vectored handlers are asked, one after another, and past the
//! last of them the search begins.

ghost use Rattle.std.specs.Prelude.{◌≡◌};
ghost use Rattle.eh_tables.specs.Tables.{TablesAreWhole};
ghost use Rattle.virtual_unwind.specs.CallerOf.{functions_of};
ghost use Rattle.host_model.specs.Dispatch as spec;
ghost use Rattle.seh_dispatch.specs.Machines.{state_of};
ghost use Rattle.seh_dispatch.specs.Outcomes.{turn_of};

use crate::dispatching::{begun, enter, new_record, search_on};
use crate::machine::HostedProcessor;
use crate::outcome::TurnOutcome;
use eh_tables::Tables;
use host_layout::service::VECTORED_RETURN_AT;
use seh_num::end::RunEnd;
use seh_num::event::Code;
use seh_records::dispatch::Kind;
use seh_records::layout::POINTERS_AT;
use seh_records::{DispatchRecord, place_below, rewrite};
use x64_instr::register::Reg;
use x64_machine::cpu::Cpu;
use x64_memory::space::AddressSpace;

/// Asks a vectored handler about an exception. It has no event.
#[tactic(auto, using(crate::proofs::RecordPlacement::placing))]
fn ask<S: AddressSpace>(
    machine: &mut HostedProcessor,
    space: &mut S,
    at: u64,
    dispatch: &DispatchRecord,
    handler: u64,
) -> TurnOutcome
    ensures { turn_of machine.new (S.memory space.new) result ≡ spec.asked_vectored
        (state_of machine.old (S.memory space.old)) at dispatch.now handler }
{
    match rewrite(space, at, dispatch) {
        Err(guard) => TurnOutcome::Ends(RunEnd::StackLimit {
            address: guard.address,
        }),
        Ok(()) => {
            let pointers = at.wrapping_add(POINTERS_AT);
            enter(machine, space, at, VECTORED_RETURN_AT, handler, pointers, 0);
            TurnOutcome::Continues(None)
        }
    }
}

/// The record for a search, which begins from the saved state.
fn searching(dispatch: &DispatchRecord) -> DispatchRecord
    ensures { result ≡ spec.searching dispatch.now }
{
    let mut new = *dispatch;
    new.kind = Kind::Search;
    begun(&new)
}

/// Begins the search of a record that was one of vectored handlers.
#[tactic(auto, using(crate::proofs::RecordPlacement::placing))]
pub fn search_from<S: AddressSpace>(
    tables: &Tables,
    machine: &mut HostedProcessor,
    space: &mut S,
    at: u64,
    dispatch: &DispatchRecord,
) -> TurnOutcome
    requires { TablesAreWhole tables.now }
    ensures { turn_of machine.new (S.memory space.new) result ≡ spec.searches_from
        (functions_of tables.now) (state_of machine.old (S.memory space.old)) at dispatch.now }
{
    let new = searching(dispatch);
    match rewrite(space, at, &new) {
        Err(guard) => TurnOutcome::Ends(RunEnd::StackLimit {
            address: guard.address,
        }),
        Ok(()) => search_on(tables, machine, space, at, &new),
    }
}

/// Asks the vectored handler at the place of a record, in the list as it is now; where there is
/// none, the search begins. The record is written first.
pub fn ask_on<S: AddressSpace>(
    tables: &Tables,
    machine: &mut HostedProcessor,
    space: &mut S,
    at: u64,
    dispatch: &DispatchRecord,
) -> TurnOutcome
    requires { TablesAreWhole tables.now }
    ensures { turn_of machine.new (S.memory space.new) result ≡ spec.asks_on
        (functions_of tables.now) (state_of machine.old (S.memory space.old)) at dispatch.now }
{
    match machine.handlers.get(dispatch.row) {
        Some(handler) => ask(machine, space, at, dispatch, handler),
        None => search_from(tables, machine, space, at, dispatch),
    }
}

/// A new exception, of which the state is saved.
pub fn raise<S: AddressSpace>(
    tables: &Tables,
    machine: &mut HostedProcessor,
    space: &mut S,
    code: Code,
    flags: u32,
    access: Option<(bool, u64)>,
    saved: &Cpu,
) -> TurnOutcome
    requires { TablesAreWhole tables.now }
    ensures { turn_of machine.new (S.memory space.new) result ≡ spec.raising
        (functions_of tables.now) (state_of machine.old (S.memory space.old)) code flags access
        saved.now }
{
    let at = place_below(saved.registers[Reg::Rsp as usize]);
    let dispatch = new_record(Kind::Vectored, code, flags, access, saved);
    ask_on(tables, machine, space, at, &dispatch)
}
