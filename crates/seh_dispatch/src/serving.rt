//! The services, and a turn up to the event of the funclet at which it arrives.

ghost use Rattle.std.specs.Prelude.{◌≡◌, ◌%◌, ◌^◌, Some, None};
ghost use Rattle.seh_num.specs.declared.width.Width.TheVariants.{W64};
ghost use Rattle.seh_num.specs.declared.end.Reason.TheVariants as reasons;
ghost use Rattle.eh_tables.specs.Tables.{TablesAreWhole};
ghost use Rattle.flat_memory.specs.Memory.{loaded};
ghost use Rattle.virtual_unwind.specs.CallerOf.{functions_of};
ghost use Rattle.x64_instr.specs.declared.register.Reg.TheVariants.{Rcx, Rdx, Rsp};
ghost use Rattle.host_layout.specs.declared.service.Service.TheVariants as services;
ghost use Rattle.x64_machine.specs.Effect.{register, step};
ghost use Rattle.host_model.specs.Dispatch as dispatch;
ghost use Rattle.host_model.specs.HostStep as spec;
ghost use Rattle.seh_dispatch.specs.Machines.{state_of};
ghost use Rattle.seh_dispatch.specs.Outcomes.{turn_of, led_turn, turn_made, back_of, stopped_outcome};

use crate::answering::{filter_return, finally_return, vectored_return};
use crate::dispatching::{stopped, unwind_locally};
use crate::machine::HostedProcessor;
use crate::outcome::{Led, Made, TurnMade, TurnOutcome, all_told, silent};
use crate::raising::raise;
use eh_tables::Tables;
use host_layout::service::Service;
use seh_num::end::{Reason, RunEnd};
use seh_num::event::{Code, Event};
use seh_num::extension::sign_extend;
use seh_num::width::Width;
use seh_records::dispatch::EXCEPTION_NONCONTINUABLE;
use seh_walk::stop_cause::StopCause;
use x64_instr::register::Reg;
use x64_machine::cpu::Cpu;
use x64_machine::outcome::StepOutcome;
use x64_machine::running::step;
use x64_memory::space::AddressSpace;

/// The processor after a service's return; none where the return address can't be read.
fn back<S: AddressSpace>(cpu: &Cpu, space: &S) -> Option<Cpu>
    ensures { result ≡ back_of cpu.now (loaded (S.memory space.now) (register cpu.now Rsp) W64) }
{
    let stack = cpu.register(Reg::Rsp);
    match space.load(stack, Width::W64) {
        Err(_) => None,
        Ok(address) => {
            let mut after = *cpu;
            after.set_register(Width::W64, Reg::Rsp, stack.wrapping_add(8));
            after.rip = address;
            Some(after)
        }
    }
}

fn unreadable(cpu: &Cpu) -> TurnOutcome
    ensures { result
        ≡ stopped_outcome (record { reason = reasons.Unreadable; address = register cpu.now Rsp }) }
{
    stopped(StopCause {
        reason: Reason::Unreadable,
        address: cpu.register(Reg::Rsp),
    })
}

/// Shows the number in RCX.
#[tactic(auto, using(crate::proofs::ServiceReturn::returning_steps))]
fn put<S: AddressSpace>(machine: &mut HostedProcessor, space: &S) -> TurnOutcome
    ensures { turn_of machine.new (S.memory space.now) result
        ≡ spec.put (state_of machine.old (S.memory space.now)) }
{
    match back(&machine.cpu, space) {
        None => unreadable(&machine.cpu),
        Some(after) => {
            let value = sign_extend(Width::W64, machine.cpu.register(Reg::Rcx));
            machine.cpu = after;
            TurnOutcome::Continues(Some(Event::Put(value)))
        }
    }
}

/// Sets the rights of a page of the arena.
#[tactic(auto, using(crate::proofs::ServiceReturn::returning_steps))]
fn protect<S: AddressSpace>(machine: &mut HostedProcessor, space: &mut S) -> TurnOutcome
    ensures { turn_of machine.new (S.memory space.new) result
        ≡ spec.returning (state_of machine.old (S.memory space.old))
        (spec.protecting (state_of machine.old (S.memory space.old))) }
{
    match back(&machine.cpu, space) {
        None => unreadable(&machine.cpu),
        Some(after) => {
            let at = machine.cpu.register(Reg::Rcx);
            let protection = sign_extend(Width::W32, machine.cpu.register(Reg::Rdx)) as i32;
            let answer = if space.protect(at, protection) { 1 } else { 0 };
            machine.cpu = after;
            machine.cpu.set_register(Width::W64, Reg::Rax, answer);
            TurnOutcome::Continues(None)
        }
    }
}

/// Puts the vectored handler in RDX into the list, in front of the others where ECX isn't 0.
#[tactic(auto, using(crate::proofs::ServiceReturn::returning_steps))]
fn add_vectored<S: AddressSpace>(machine: &mut HostedProcessor, space: &S) -> TurnOutcome
    ensures { turn_of machine.new (S.memory space.now) result
        ≡ spec.returning (state_of machine.old (S.memory space.now))
        (spec.adding (state_of machine.old (S.memory space.now))) }
{
    match back(&machine.cpu, space) {
        None => unreadable(&machine.cpu),
        Some(after) => {
            let first = machine.cpu.register(Reg::Rcx) % (1 << 32) != 0;
            let handler = machine.cpu.register(Reg::Rdx);
            let answer = if machine.handlers.add(first, handler) {
                1
            } else {
                0
            };
            machine.cpu = after;
            machine.cpu.set_register(Width::W64, Reg::Rax, answer);
            TurnOutcome::Continues(None)
        }
    }
}

/// Takes the vectored handler in RCX out of the list.
#[tactic(auto, using(crate::proofs::ServiceReturn::returning_steps))]
fn remove_vectored<S: AddressSpace>(machine: &mut HostedProcessor, space: &S) -> TurnOutcome
    ensures { turn_of machine.new (S.memory space.now) result
        ≡ spec.returning (state_of machine.old (S.memory space.now))
        (spec.removing (state_of machine.old (S.memory space.now))) }
{
    match back(&machine.cpu, space) {
        None => unreadable(&machine.cpu),
        Some(after) => {
            let handler = machine.cpu.register(Reg::Rcx);
            let answer = if machine.handlers.remove(handler) {
                1
            } else {
                0
            };
            machine.cpu = after;
            machine.cpu.set_register(Width::W64, Reg::Rax, answer);
            TurnOutcome::Continues(None)
        }
    }
}

/// An exception: its event, and those who are asked about it.
#[tactic(auto, using(crate::proofs::TurnEvents::leading))]
fn raised<S: AddressSpace>(
    tables: &Tables,
    machine: &mut HostedProcessor,
    space: &mut S,
    code: Code,
    flags: u32,
    access: Option<(bool, u64)>,
    saved: &Cpu,
) -> Led
    requires { TablesAreWhole tables.now }
    ensures { led_turn machine.new (S.memory space.new) result ≡ dispatch.raised
        (functions_of tables.now) (state_of machine.old (S.memory space.old)) code flags access
        saved.now }
{
    let outcome = raise(tables, machine, space, code, flags, access, saved);
    Led {
        first: Some(Event::Raise {
            code,
            flag: flags == EXCEPTION_NONCONTINUABLE,
            access,
        }),
        outcome,
    }
}

/// Raises the exception of the code in ECX; bit 0 of EDX makes it noncontinuable.
#[tactic(auto, using(crate::proofs::ServiceReturn::returning_steps, crate::proofs::TurnEvents::leading))]
fn raise_exception<S: AddressSpace>(
    tables: &Tables,
    machine: &mut HostedProcessor,
    space: &mut S,
) -> Led
    requires { TablesAreWhole tables.now }
    ensures { led_turn machine.new (S.memory space.new) result
        ≡ spec.served (functions_of tables.now) (state_of machine.old (S.memory space.old))
        (Some services.RaiseException) }
{
    match back(&machine.cpu, space) {
        None => silent(unreadable(&machine.cpu)),
        Some(after) => {
            let code = Code((machine.cpu.register(Reg::Rcx) % (1 << 32)) as u32);
            let flags = (machine.cpu.register(Reg::Rdx) % 2) as u32;
            raised(tables, machine, space, code, flags, None, &after)
        }
    }
}

/// Unwinds to the target in RDX of the frame in RCX.
#[tactic(auto, using(crate::proofs::ServiceReturn::returning_steps))]
fn local_unwind<S: AddressSpace>(
    tables: &Tables,
    machine: &mut HostedProcessor,
    space: &mut S,
) -> TurnOutcome
    requires { TablesAreWhole tables.now }
    ensures { turn_of machine.new (S.memory space.new) result
        ≡ spec.served (functions_of tables.now) (state_of machine.old (S.memory space.old))
        (Some services.LocalUnwind) }
{
    match back(&machine.cpu, space) {
        None => unreadable(&machine.cpu),
        Some(after) => {
            let frame = machine.cpu.register(Reg::Rcx);
            let target = machine.cpu.register(Reg::Rdx);
            unwind_locally(tables, machine, space, frame, target, &after)
        }
    }
}

/// Returns, with a walk from the caller to be printed.
#[tactic(auto, using(crate::proofs::ServiceReturn::returning_steps))]
fn walk<S: AddressSpace>(tables: &Tables, machine: &mut HostedProcessor, space: &S) -> TurnMade
    ensures { turn_made (functions_of tables.now) machine.new (S.memory space.now) result
        ≡ spec.served (functions_of tables.now) (state_of machine.old (S.memory space.now))
        (Some services.Walk) }
{
    match back(&machine.cpu, space) {
        None => all_told(unreadable(&machine.cpu)),
        Some(after) => {
            machine.cpu = after;
            TurnMade::Walks
        }
    }
}

/// What a service does.
#[tactic(auto, using(crate::proofs::TurnEvents::leading))]
fn serve<S: AddressSpace>(
    tables: &Tables,
    machine: &mut HostedProcessor,
    space: &mut S,
    service: Option<Service>,
) -> TurnMade
    requires { TablesAreWhole tables.now }
    ensures { turn_made (functions_of tables.now) machine.new (S.memory space.new) result
        ≡ spec.served (functions_of tables.now) (state_of machine.old (S.memory space.old))
        service }
{
    match service {
        Some(Service::Put) => all_told(put(machine, space)),
        Some(Service::Protect) => all_told(protect(machine, space)),
        Some(Service::RaiseException) => {
            let rest = raise_exception(tables, machine, space);
            TurnMade::Told(Made { first: None, rest })
        }
        Some(Service::LocalUnwind) => all_told(local_unwind(tables, machine, space)),
        Some(Service::FilterReturn) => TurnMade::Told(filter_return(tables, machine, space)),
        Some(Service::FinallyReturn) => all_told(finally_return(tables, machine, space)),
        Some(Service::AddVectored) => all_told(add_vectored(machine, space)),
        Some(Service::RemoveVectored) => all_told(remove_vectored(machine, space)),
        Some(Service::VectoredReturn) => {
            let rest = vectored_return(tables, machine, space);
            TurnMade::Told(Made { first: None, rest })
        }
        Some(Service::Walk) => walk(tables, machine, space),
        Some(Service::CSpecificHandler) | None => all_told(stopped(StopCause {
            reason: Reason::Illegal,
            address: machine.cpu.rip,
        })),
    }
}

/// A turn, but for the event of the funclet at which it arrives.
#[tactic(auto, using(crate::proofs::TurnEvents::leading, crate::proofs::StepTurns::step_turns))]
pub fn make<S: AddressSpace>(
    tables: &Tables,
    machine: &mut HostedProcessor,
    space: &mut S,
) -> TurnMade
    requires { TablesAreWhole tables.now }
    ensures { turn_made (functions_of tables.now) machine.new (S.memory space.new) result
        ≡ spec.turned (functions_of tables.now) (state_of machine.old (S.memory space.old))
        (step (state_of machine.old (S.memory space.old))) }
{
    let rip = machine.cpu.rip;
    match step(&mut machine.cpu, space) {
        StepOutcome::Next => all_told(TurnOutcome::Continues(None)),
        StepOutcome::Fault { code, access } => {
            let saved = machine.cpu;
            let rest = raised(tables, machine, space, code, 0, access, &saved);
            TurnMade::Told(Made { first: None, rest })
        }
        StepOutcome::Host { address } => serve(tables, machine, space, Service::at(address)),
        StepOutcome::Illegal => all_told(stopped(StopCause {
            reason: Reason::Illegal,
            address: rip,
        })),
        StepOutcome::Guard { address } => {
            all_told(TurnOutcome::Ends(RunEnd::StackLimit { address }))
        }
    }
}
