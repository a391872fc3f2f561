//! The dispatcher: what is done between two funclets or vectored handlers. All suspended work is
//! kept in records in the machine's stack.

ghost use Rattle.std.specs.Prelude.{◌≡◌, ◌%◌};
ghost use Rattle.eh_tables.specs.Tables.{TablesAreWhole};
ghost use Rattle.virtual_unwind.specs.CallerOf.{functions_of};
ghost use Rattle.host_model.specs.Dispatch as spec;
ghost use Rattle.seh_dispatch.specs.Machines.{state_of};
ghost use Rattle.seh_dispatch.specs.Outcomes.{turn_of, stopped_outcome};

use crate::machine::HostedProcessor;
use crate::outcome::TurnOutcome;
use eh_tables::Tables;
use host_layout::service::{FILTER_RETURN_AT, FINALLY_RETURN_AT};
use seh_num::end::RunEnd;
use seh_num::event::{Code, Event};
use seh_num::size::EXCEPTION_MAXIMUM_PARAMETERS;
use seh_num::width::Width;
use seh_records::dispatch::Kind;
use seh_records::layout::POINTERS_AT;
use seh_records::{DispatchRecord, place, rewrite};
use seh_search::search_result::SearchResult;
use seh_search::searching::search;
use seh_unwind::unwind_result::UnwindResult;
use seh_unwind::unwinding::unwind;
use seh_walk::stop_cause::StopCause;
use x64_instr::register::Reg;
use x64_machine::context::Context;
use x64_machine::cpu::{Cpu, Flags};
use x64_memory::space::AddressSpace;

/// A run that can't continue.
pub fn stopped(why: StopCause) -> TurnOutcome
    ensures { result ≡ stopped_outcome why }
{
    TurnOutcome::Ends(RunEnd::Stopped {
        why: why.reason,
        address: why.address,
    })
}

/// A record with a frame in hand, the next row there and the state.
fn in_hand(dispatch: &DispatchRecord, frame: u64, row: u64, walk: &Context) -> DispatchRecord
    ensures { result ≡ spec.in_hand dispatch.now frame row walk.now }
{
    let mut held = *dispatch;
    held.frame = frame;
    held.row = row;
    held.walk = *walk;
    held
}

/// A record that begins at its saved state, with nothing in hand.
pub fn begun(dispatch: &DispatchRecord) -> DispatchRecord
    ensures { result ≡ spec.begun dispatch.now }
{
    in_hand(dispatch, 0, 0, &Context::of(&dispatch.saved))
}

fn accepting(dispatch: &DispatchRecord, frame: u64, target: u64) -> DispatchRecord
    ensures { result ≡ spec.accepting dispatch.now frame target }
{
    let mut accepted = *dispatch;
    accepted.kind = Kind::ExceptionUnwind;
    accepted.target_frame = frame;
    accepted.target = target;
    begun(&accepted)
}

/// Calls a funclet or a vectored handler at a record: its return address is below the record.
pub fn enter<S: AddressSpace>(
    machine: &mut HostedProcessor,
    space: &mut S,
    at: u64,
    back: u64,
    handler: u64,
    first: u64,
    frame: u64,
)
    ensures { state_of machine.new (S.memory space.new)
        ≡ spec.entered (state_of machine.old (S.memory space.old)) at back handler first frame }
{
    let below = at.wrapping_sub(8);
    let _ = space.store(below, Width::W64, back);
    machine.cpu.registers[Reg::Rcx as usize] = first;
    machine.cpu.registers[Reg::Rdx as usize] = frame;
    machine.cpu.registers[Reg::Rsp as usize] = below;
    machine.cpu.rip = handler;
}

fn landed(context: &Context, rax: u64, target: u64) -> Cpu
    ensures { result ≡ spec.landed context.now rax target }
{
    let k = &context.kept;
    Cpu {
        registers: [
            rax, 0, 0, k[1], k[0], k[2], k[3], k[4], 0, 0, 0, 0, k[5], k[6], k[7], k[8],
        ],
        rip: target,
        flags: Flags {
            carry: false,
            zero: false,
            sign: false,
            overflow: false,
        },
    }
}

fn land<S: AddressSpace>(
    machine: &mut HostedProcessor,
    space: &S,
    dispatch: &DispatchRecord,
    context: &Context,
) -> TurnOutcome
    ensures { turn_of machine.new (S.memory space.now) result
        ≡ spec.land (state_of machine.old (S.memory space.now)) dispatch.now context.now }
{
    match dispatch.kind {
        Kind::ExceptionUnwind => {
            machine.cpu = landed(context, dispatch.code.0 as u64, dispatch.target);
            TurnOutcome::Continues(Some(Event::Except(dispatch.code)))
        }
        _ => {
            machine.cpu = landed(context, 0, dispatch.target);
            TurnOutcome::Continues(None)
        }
    }
}

/// An unwinding continues from a record that is at its place.
#[tactic(auto, using(crate::proofs::RecordPlacement::placing))]
pub fn unwind_on<S: AddressSpace>(
    tables: &Tables,
    machine: &mut HostedProcessor,
    space: &mut S,
    at: u64,
    dispatch: &DispatchRecord,
) -> TurnOutcome
    requires { TablesAreWhole tables.now }
    ensures { turn_of machine.new (S.memory space.new) result ≡ spec.unwinds_on
        (functions_of tables.now) (state_of machine.old (S.memory space.old)) at dispatch.now }
{
    match unwind(tables, space, dispatch) {
        UnwindResult::Stop(why) => stopped(why),
        UnwindResult::Land { context } => land(machine, space, dispatch, &context),
        UnwindResult::Finally {
            handler,
            frame,
            row,
            walk,
        } => match rewrite(space, at, &in_hand(dispatch, frame, row, &walk)) {
            Err(guard) => TurnOutcome::Ends(RunEnd::StackLimit {
                address: guard.address,
            }),
            Ok(()) => {
                enter(machine, space, at, FINALLY_RETURN_AT, handler, 1, frame);
                TurnOutcome::Continues(None)
            }
        },
    }
}

/// A frame accepts: the record is rewritten in place, and the unwinding begins.
#[tactic(auto, using(crate::proofs::RecordPlacement::placing))]
pub fn accept<S: AddressSpace>(
    tables: &Tables,
    machine: &mut HostedProcessor,
    space: &mut S,
    at: u64,
    dispatch: &DispatchRecord,
    frame: u64,
    target: u64,
) -> TurnOutcome
    requires { TablesAreWhole tables.now }
    ensures { turn_of machine.new (S.memory space.new) result ≡ spec.accepted
        (functions_of tables.now) (state_of machine.old (S.memory space.old)) at dispatch.now frame
        target }
{
    let accepted = accepting(dispatch, frame, target);
    match rewrite(space, at, &accepted) {
        Err(guard) => TurnOutcome::Ends(RunEnd::StackLimit {
            address: guard.address,
        }),
        Ok(()) => unwind_on(tables, machine, space, at, &accepted),
    }
}

/// A search continues from a record that is at its place.
#[tactic(auto, using(crate::proofs::RecordPlacement::placing))]
pub fn search_on<S: AddressSpace>(
    tables: &Tables,
    machine: &mut HostedProcessor,
    space: &mut S,
    at: u64,
    dispatch: &DispatchRecord,
) -> TurnOutcome
    requires { TablesAreWhole tables.now }
    ensures { turn_of machine.new (S.memory space.new) result ≡ spec.searches_on
        (functions_of tables.now) (state_of machine.old (S.memory space.old)) at dispatch.now }
{
    match search(tables, space, dispatch) {
        SearchResult::Stop(why) => stopped(why),
        SearchResult::Nobody => TurnOutcome::Ends(RunEnd::Unhandled(dispatch.code)),
        SearchResult::Accept { frame, target } => {
            accept(tables, machine, space, at, dispatch, frame, target)
        }
        SearchResult::Filter {
            handler,
            frame,
            row,
            walk,
        } => match rewrite(space, at, &in_hand(dispatch, frame, row, &walk)) {
            Err(guard) => TurnOutcome::Ends(RunEnd::StackLimit {
                address: guard.address,
            }),
            Ok(()) => {
                let pointers = at.wrapping_add(POINTERS_AT);
                enter(
                    machine,
                    space,
                    at,
                    FILTER_RETURN_AT,
                    handler,
                    pointers,
                    frame,
                );
                TurnOutcome::Continues(None)
            }
        },
    }
}

fn parameters(access: Option<(bool, u64)>) -> [u64; EXCEPTION_MAXIMUM_PARAMETERS]
    ensures { result ≡ spec.parameters access }
{
    let mut words = [0; EXCEPTION_MAXIMUM_PARAMETERS];
    if let Some((write, address)) = access {
        words[0] = if write { 1 } else { 0 };
        words[1] = address;
    }
    words
}

fn count(access: Option<(bool, u64)>) -> u32
    ensures { result ≡ spec.count access }
{
    match access {
        None => 0,
        Some(_) => 2,
    }
}

/// A record that has just begun, from the saved state.
pub fn new_record(
    kind: Kind,
    code: Code,
    flags: u32,
    access: Option<(bool, u64)>,
    saved: &Cpu,
) -> DispatchRecord
    ensures { result ≡ spec.new_record kind code flags access saved.now }
{
    DispatchRecord {
        kind,
        frame: 0,
        row: 0,
        target_frame: 0,
        target: 0,
        code,
        flags,
        count: count(access),
        parameters: parameters(access),
        saved: *saved,
        walk: Context::of(saved),
    }
}

fn to_target(saved: &Cpu, frame: u64, target: u64) -> DispatchRecord
    ensures { result ≡ spec.to_target saved.now frame target }
{
    let mut dispatch = new_record(Kind::LocalUnwind, Code(0), 0, None, saved);
    dispatch.target_frame = frame;
    dispatch.target = target;
    dispatch
}

/// A local unwind to a target of a frame, of which the state is saved.
#[tactic(auto, using(crate::proofs::RecordPlacement::placing))]
pub fn unwind_locally<S: AddressSpace>(
    tables: &Tables,
    machine: &mut HostedProcessor,
    space: &mut S,
    frame: u64,
    target: u64,
    saved: &Cpu,
) -> TurnOutcome
    requires { TablesAreWhole tables.now }
    ensures { turn_of machine.new (S.memory space.new) result ≡ spec.unwound_locally
        (functions_of tables.now) (state_of machine.old (S.memory space.old)) frame target
        saved.now }
{
    let dispatch = to_target(saved, frame, target);
    match place(space, saved.registers[Reg::Rsp as usize], &dispatch) {
        Err(guard) => TurnOutcome::Ends(RunEnd::StackLimit {
            address: guard.address,
        }),
        Ok(at) => unwind_on(tables, machine, space, at, &dispatch),
    }
}
