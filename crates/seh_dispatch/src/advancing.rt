//! One turn over any memory.

ghost use Rattle.std.specs.Prelude.{◌≡◌, ◌-◌, ◌<◌, ◌^◌, None, length};
ghost use Rattle.eh_tables.specs.Tables.{TablesAreWhole};
ghost use Rattle.flat_memory.specs.Memory.{Memory};
ghost use Rattle.virtual_unwind.specs.CallerOf.{functions_of, name_rows, distance};
ghost use Rattle.x64_decoded.specs.Caches.{IsCoherent};
ghost use Rattle.host_model.specs.Turns.{shown_in};
ghost use Rattle.host_model.specs.Funclets.{arrivals, arrived};
ghost use Rattle.host_model.specs.HostStep.{turn, after};
ghost use Rattle.seh_dispatch.specs.FuncletLists.{AreAscending};
ghost use Rattle.seh_dispatch.specs.Filters.{Admits};
ghost use Rattle.seh_dispatch.specs.Machines.{state_of};
ghost use Rattle.seh_dispatch.specs.Outcomes.{made_turn, turn_made};
ghost use Rattle.seh_dispatch.specs.declared.outcome.TurnMade.TheVariants.{Walks};
ghost use Rattle.seh_dispatch.specs.TurnEnds.{left};
ghost use Rattle.seh_dispatch.specs.TurnEnds.{over_cpu};

use crate::arrival::{arrival, may_arrive};
use crate::filter::FuncletFilter;
use crate::machine::HostedProcessor;
use crate::outcome::{Made, TurnMade, TurnOutcome};
use crate::serving::make;
use crate::telling::tell;
use crate::walking::print_walk;
use eh_tables::Tables;
use host_model::funclet::Funclet;
use pe_image::NameTable;
use seh_io::receiver::Events;
use seh_num::end::RunEnd;
use seh_num::extension::sign_extend;
use seh_num::width::Width;
use x64_decoded::cache::InstructionCache;
use x64_decoded::stepping::step;
use x64_instr::register::Reg;
use x64_machine::cpu::Cpu;
use x64_memory::space::AddressSpace;

/// The end of a run whose RIP has become 0.
fn over(cpu: &Cpu) -> Option<RunEnd>
    ensures { result ≡ over_cpu cpu.now }
{
    if cpu.rip != 0 {
        return None;
    }
    let status = sign_extend(Width::W32, cpu.register(Reg::Rax));
    Some(RunEnd::Exit(status as i32))
}

/// What follows where a turn has left RIP: the event of the funclet there, and the end at 0.
fn arrive<V: Events>(
    tables: &Tables,
    filter: &FuncletFilter,
    funclets: &[Funclet],
    cpu: &Cpu,
    to: &mut V,
) -> Option<RunEnd>
    requires admitted { Admits filter.now funclets.now }
    requires few { length funclets.now < 2 ^ 32 - 1 }
    requires ascending { AreAscending 0 funclets.now }
    ensures end { result ≡ over_cpu cpu.now }
    ensures shown { V.took to.old
        (arrivals cpu.now (distance tables.now.image.base cpu.now.rip) 1 funclets.now) to.new }
{
    if !may_arrive(filter, tables.base(), cpu) {
        return over(cpu);
    }
    tell(to, arrival(funclets, tables.base(), cpu));
    over(cpu)
}

/// What follows where it is known what a turn shows: the event of the funclet at which it arrives,
/// and the end.
fn conclude<V: Events>(
    tables: &Tables,
    filter: &FuncletFilter,
    funclets: &[Funclet],
    machine: &HostedProcessor,
    made: Made,
    to: &mut V,
) -> Option<RunEnd>
    requires admitted { Admits filter.now funclets.now }
    requires few { length funclets.now < 2 ^ 32 - 1 }
    requires ascending { AreAscending 0 funclets.now }
    ensures host { (m : Memory) → left machine.now m result
        ≡ after (arrived (functions_of tables.now) funclets.now (made_turn machine.now m made)) }
    ensures shown { (m : Memory) → V.took to.old (shown_in
        (arrived (functions_of tables.now) funclets.now (made_turn machine.now m made))) to.new }
{
    tell(to, made.first);
    tell(to, made.rest.first);
    match made.rest.outcome {
        TurnOutcome::Ends(end) => Some(end),
        TurnOutcome::Continues(event) => {
            tell(to, event);
            arrive(tables, filter, funclets, &machine.cpu, to)
        }
    }
}

/// Prints a walk from the state of a processor, and what follows.
fn conclude_walk<S: AddressSpace, V: Events>(
    tables: &Tables,
    names: &NameTable,
    filter: &FuncletFilter,
    funclets: &[Funclet],
    machine: &HostedProcessor,
    space: &S,
    to: &mut V,
) -> Option<RunEnd>
    requires whole { TablesAreWhole tables.now }
    requires names { names.now ≡ name_rows tables.now.image }
    requires admitted { Admits filter.now funclets.now }
    requires few { length funclets.now < 2 ^ 32 - 1 }
    requires ascending { AreAscending 0 funclets.now }
    ensures host { left machine.now (S.memory space.now) result
        ≡ after (arrived (functions_of tables.now) funclets.now
        (turn_made (functions_of tables.now) machine.now (S.memory space.now) Walks)) }
    ensures shown { V.took to.old (shown_in (arrived (functions_of tables.now) funclets.now
        (turn_made (functions_of tables.now) machine.now (S.memory space.now) Walks))) to.new }
{
    match print_walk(tables, names, &machine.cpu, space, to) {
        Some(cause) => Some(RunEnd::Stopped {
            why: cause.reason,
            address: cause.address,
        }),
        None => arrive(tables, filter, funclets, &machine.cpu, to),
    }
}

/// One turn from a state that hasn't ended, whatever it comes to.
#[cold]
#[inline(never)]
#[tactic(auto, unfolding(host_model::specs::HostStep::turn))]
fn dispatch<S: AddressSpace, V: Events>(
    tables: &Tables,
    names: &NameTable,
    filter: &FuncletFilter,
    funclets: &[Funclet],
    machine: &mut HostedProcessor,
    space: &mut S,
    to: &mut V,
) -> Option<RunEnd>
    requires whole { TablesAreWhole tables.now }
    requires names { names.now ≡ name_rows tables.now.image }
    requires admitted { Admits filter.now funclets.now }
    requires few { length funclets.now < 2 ^ 32 - 1 }
    requires ascending { AreAscending 0 funclets.now }
    ensures host { left machine.new (S.memory space.new) result
        ≡ after (turn (functions_of tables.now) funclets.now
        (state_of machine.old (S.memory space.old))) }
    ensures shown { V.took to.old (shown_in (turn (functions_of tables.now) funclets.now
        (state_of machine.old (S.memory space.old)))) to.new }
{
    match make(tables, machine, space) {
        TurnMade::Told(made) => conclude(tables, filter, funclets, machine, made, to),
        TurnMade::Walks => conclude_walk(tables, names, filter, funclets, machine, space, to),
    }
}

/// One turn from a state that hasn't ended, in memory of any kind: how the run ended in it, if it
/// did. The receiver takes what the turn shows, in order. The cache, which agrees with memory, does
/// so after a turn in which the run hasn't ended. No memory of the system is taken.
pub fn advance<S: AddressSpace, V: Events>(
    tables: &Tables,
    names: &NameTable,
    filter: &FuncletFilter,
    funclets: &[Funclet],
    instructions: &mut InstructionCache,
    machine: &mut HostedProcessor,
    space: &mut S,
    to: &mut V,
) -> Option<RunEnd>
    requires whole { TablesAreWhole tables.now }
    requires names { names.now ≡ name_rows tables.now.image }
    requires admitted { Admits filter.now funclets.now }
    requires few { length funclets.now < 2 ^ 32 - 1 }
    requires ascending { AreAscending 0 funclets.now }
    requires coherent { IsCoherent (S.memory space.old) instructions.old }
    ensures host { left machine.new (S.memory space.new) result
        ≡ after (turn (functions_of tables.now) funclets.now
        (state_of machine.old (S.memory space.old))) }
    ensures shown { V.took to.old (shown_in (turn (functions_of tables.now) funclets.now
        (state_of machine.old (S.memory space.old)))) to.new }
    ensures coherent { result ≡ None → IsCoherent (S.memory space.new) instructions.new }
{
    if step(&mut machine.cpu, space, instructions) {
        return arrive(tables, filter, funclets, &machine.cpu, to);
    }
    dispatch(tables, names, filter, funclets, machine, space, to)
}
