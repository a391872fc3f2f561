//! What filters and vectored handlers answer, and where these and `__finally` blocks return.

ghost use Rattle.std.specs.Prelude.{◌≡◌, ◌+◌, ◌%◌, ◌==◌, nat_le};
ghost use Rattle.seh_num.specs.declared.width.Width.TheVariants.{W32};
ghost use Rattle.seh_num.specs.Widths.{half};
ghost use Rattle.eh_tables.specs.Tables.{TablesAreWhole};
ghost use Rattle.virtual_unwind.specs.CallerOf.{functions_of};
ghost use Rattle.x64_machine.specs.Effect.{register};
ghost use Rattle.x64_instr.specs.declared.register.Reg.TheVariants.{Rsp};
ghost use Rattle.seh_records.specs.Record.{fetched};
ghost use Rattle.host_model.specs.Dispatch as spec;
ghost use Rattle.seh_dispatch.specs.Machines.{state_of};
ghost use Rattle.seh_dispatch.specs.Outcomes.{turn_of, led_turn, made_turn, bad_record};

use crate::dispatching::{accept, begun, search_on, stopped, unwind_on};
use crate::machine::HostedProcessor;
use crate::outcome::{Led, Made, TurnOutcome, all_silent, silent};
use crate::raising::{ask_on, search_from};
use eh_tables::{ScopeRecord, Tables};
use seh_num::code::NONCONTINUABLE_EXCEPTION;
use seh_num::end::Reason;
use seh_num::event::Event;
use seh_num::extension::sign_extend;
use seh_num::size::EXCEPTION_MAXIMUM_PARAMETERS;
use seh_num::width::Width;
use seh_records::dispatch::{EXCEPTION_NONCONTINUABLE, Kind};
use seh_records::{DispatchRecord, fetch};
use seh_walk::asked::skipped;
use seh_walk::stop_cause::StopCause;
use x64_instr::register::Reg;
use x64_memory::space::AddressSpace;

/// The answers from here on are below 0: the signed numbers of 32 bits whose top bit is set.
const FIRST_NEGATIVE: u32 = 0x8000_0000;

fn bad(at: u64) -> TurnOutcome
    ensures { result ≡ bad_record at }
{
    stopped(StopCause {
        reason: Reason::BadRecord,
        address: at,
    })
}

fn again(dispatch: &DispatchRecord) -> DispatchRecord
    ensures { result ≡ spec.again dispatch.now }
{
    let mut new = *dispatch;
    new.kind = Kind::Vectored;
    new.code = NONCONTINUABLE_EXCEPTION;
    new.flags = EXCEPTION_NONCONTINUABLE;
    new.count = 0;
    new.parameters = [0; EXCEPTION_MAXIMUM_PARAMETERS];
    new.target_frame = 0;
    new.target = 0;
    begun(&new)
}

/// The row of the filter that a record has asked: the one just before its next row.
fn asked_row(tables: &Tables, dispatch: &DispatchRecord) -> Option<ScopeRecord>
    requires { TablesAreWhole tables.now }
    ensures { result ≡ spec.asked_row (functions_of tables.now) dispatch.now }
{
    if dispatch.row == 0 {
        return None;
    }
    let rva = dispatch.walk.rip.wrapping_sub(tables.base());
    match tables.find(rva) {
        None => None,
        Some(entry) => {
            let mut left = skipped(entry.info.scopes(), dispatch.row - 1);
            match left.next() {
                None => None,
                Some(row) => Some(row),
            }
        }
    }
}

/// An answer above 0: the row's frame accepts.
fn jump<S: AddressSpace>(
    tables: &Tables,
    machine: &mut HostedProcessor,
    space: &mut S,
    at: u64,
    dispatch: &DispatchRecord,
) -> TurnOutcome
    requires { TablesAreWhole tables.now }
    ensures { turn_of machine.new (S.memory space.new) result
        ≡ spec.jumping (functions_of tables.now) (state_of machine.old (S.memory space.old))
        at dispatch.now (spec.asked_row (functions_of tables.now) dispatch.now) }
{
    match asked_row(tables, dispatch) {
        None => bad(at),
        Some(row) => {
            if row.jump_target == 0 {
                return bad(at);
            }
            let target = tables.base().wrapping_add(row.jump_target as u64);
            accept(tables, machine, space, at, dispatch, dispatch.frame, target)
        }
    }
}

/// An answer below 0: the saved state is restored. Of an exception that can't be continued the
/// record is rewritten in place for another one, and the vectored handlers are asked anew.
#[tactic(auto, using(crate::proofs::TurnEvents::leading))]
fn continue_execution<S: AddressSpace>(
    tables: &Tables,
    machine: &mut HostedProcessor,
    space: &mut S,
    at: u64,
    dispatch: &DispatchRecord,
) -> Led
    requires { TablesAreWhole tables.now }
    ensures { led_turn machine.new (S.memory space.new) result ≡ spec.continued
        (functions_of tables.now) (state_of machine.old (S.memory space.old)) at dispatch.now
        (dispatch.now.flags % 2 == 0) }
{
    if dispatch.flags % 2 == 0 {
        machine.cpu = dispatch.saved;
        return silent(TurnOutcome::Continues(None));
    }
    let outcome = ask_on(tables, machine, space, at, &again(dispatch));
    Led {
        first: Some(Event::Raise {
            code: NONCONTINUABLE_EXCEPTION,
            flag: true,
            access: None,
        }),
        outcome,
    }
}

/// What a filter's answer does.
#[tactic(auto, using(crate::proofs::TurnEvents::leading))]
fn answer<S: AddressSpace>(
    tables: &Tables,
    machine: &mut HostedProcessor,
    space: &mut S,
    at: u64,
    dispatch: &DispatchRecord,
    value: u32,
) -> Led
    requires { TablesAreWhole tables.now }
    ensures { led_turn machine.new (S.memory space.new) result ≡ spec.answered
        (functions_of tables.now) (state_of machine.old (S.memory space.old)) at dispatch.now
        value }
{
    if value == 0 {
        return silent(search_on(tables, machine, space, at, dispatch));
    }
    if value >= FIRST_NEGATIVE {
        return continue_execution(tables, machine, space, at, dispatch);
    }
    silent(jump(tables, machine, space, at, dispatch))
}

/// A filter's return, with its answer in EAX.
#[tactic(auto, using(crate::proofs::TurnEvents::leading))]
pub fn filter_return<S: AddressSpace>(
    tables: &Tables,
    machine: &mut HostedProcessor,
    space: &mut S,
) -> Made
    requires { TablesAreWhole tables.now }
    ensures { made_turn machine.new (S.memory space.new) result
        ≡ spec.filter_returned (functions_of tables.now) (state_of machine.old (S.memory space.old))
        (register machine.old.cpu Rsp)
        (fetched (S.memory space.old) (register machine.old.cpu Rsp)) }
{
    let at = machine.cpu.register(Reg::Rsp);
    match fetch(space, at) {
        Err(_) => all_silent(bad(at)),
        Ok(dispatch) => match dispatch.kind {
            Kind::Search => {
                let rax = machine.cpu.register(Reg::Rax);
                let shown = sign_extend(Width::W32, rax) as i32;
                let value = (rax % (1 << 32)) as u32;
                let rest = answer(tables, machine, space, at, &dispatch, value);
                Made {
                    first: Some(Event::Answer(shown)),
                    rest,
                }
            }
            _ => all_silent(bad(at)),
        },
    }
}

/// The return of a `__finally` block: its unwinding continues.
pub fn finally_return<S: AddressSpace>(
    tables: &Tables,
    machine: &mut HostedProcessor,
    space: &mut S,
) -> TurnOutcome
    requires { TablesAreWhole tables.now }
    ensures { turn_of machine.new (S.memory space.new) result
        ≡ spec.finally_returned (functions_of tables.now)
        (state_of machine.old (S.memory space.old))
        (register machine.old.cpu Rsp)
        (fetched (S.memory space.old) (register machine.old.cpu Rsp)) }
{
    let at = machine.cpu.register(Reg::Rsp);
    match fetch(space, at) {
        Err(_) => bad(at),
        Ok(dispatch) => match dispatch.kind {
            Kind::ExceptionUnwind | Kind::LocalUnwind => {
                unwind_on(tables, machine, space, at, &dispatch)
            }
            Kind::Search | Kind::Vectored => bad(at),
        },
    }
}

/// The next vectored handler is asked, in the list as it is now; past the last one the search
/// begins.
fn ask_next<S: AddressSpace>(
    tables: &Tables,
    machine: &mut HostedProcessor,
    space: &mut S,
    at: u64,
    dispatch: &DispatchRecord,
) -> TurnOutcome
    requires { TablesAreWhole tables.now }
    ensures { turn_of machine.new (S.memory space.new) result ≡ spec.asks_on
        (functions_of tables.now) (state_of machine.old (S.memory space.old)) at
        (record dispatch.now { row = dispatch.now.row + 1 }) }
{
    // at no later place is one
    if dispatch.row >= machine.handlers.len() {
        return search_from(tables, machine, space, at, dispatch);
    }
    let mut next = *dispatch;
    next.row += 1;
    ask_on(tables, machine, space, at, &next)
}

/// What a vectored handler's answer does.
#[tactic(auto, using(crate::proofs::TurnEvents::leading))]
fn answer_vectored<S: AddressSpace>(
    tables: &Tables,
    machine: &mut HostedProcessor,
    space: &mut S,
    at: u64,
    dispatch: &DispatchRecord,
    value: u32,
) -> Led
    requires { TablesAreWhole tables.now }
    ensures { led_turn machine.new (S.memory space.new) result ≡ spec.by_vectored_answer
        (functions_of tables.now) (state_of machine.old (S.memory space.old)) at dispatch.now
        (nat_le (half W32) value) }
{
    if value >= FIRST_NEGATIVE {
        return continue_execution(tables, machine, space, at, dispatch);
    }
    silent(ask_next(tables, machine, space, at, dispatch))
}

/// A vectored handler's return, with its answer in EAX.
#[tactic(auto, using(crate::proofs::TurnEvents::leading))]
pub fn vectored_return<S: AddressSpace>(
    tables: &Tables,
    machine: &mut HostedProcessor,
    space: &mut S,
) -> Led
    requires { TablesAreWhole tables.now }
    ensures { led_turn machine.new (S.memory space.new) result ≡ spec.vectored_returned
        (functions_of tables.now) (state_of machine.old (S.memory space.old))
        (register machine.old.cpu Rsp)
        (fetched (S.memory space.old) (register machine.old.cpu Rsp)) }
{
    let at = machine.cpu.register(Reg::Rsp);
    match fetch(space, at) {
        Err(_) => silent(bad(at)),
        Ok(dispatch) => match dispatch.kind {
            Kind::Vectored => {
                let value = (machine.cpu.register(Reg::Rax) % (1 << 32)) as u32;
                answer_vectored(tables, machine, space, at, &dispatch, value)
            }
            _ => silent(bad(at)),
        },
    }
}
