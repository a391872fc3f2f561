//! A printed walk.

ghost use Rattle.std.specs.Prelude.{◌≡◌, option_map};
ghost use Rattle.seh_num.specs.declared.event.Event.TheVariants as events;
ghost use Rattle.eh_tables.specs.Tables.{TablesAreWhole};
ghost use Rattle.virtual_unwind.specs.CallerOf.{functions_of, name_rows};
ghost use Rattle.virtual_unwind.specs.CallerOf.{Functions as Functions'};
ghost use Rattle.seh_walk.specs.declared.walk.WalkState.{WalkState as WalkState'};
ghost use Rattle.seh_walk.specs.Seen.{seen};
ghost use Rattle.seh_walk.specs.Walk.{steps, visited};
ghost use Rattle.seh_walk.specs.Controls.{number_at};
ghost use Rattle.host_model.specs.HostStep.{printed, walk_from};
ghost use Rattle.seh_dispatch.specs.FuncletLists.{listed};
ghost use Rattle.seh_dispatch.specs.PrintedSteps.{followed, shown_at};

use crate::telling::tell;
use eh_tables::Tables;
use pe_image::NameTable;
use seh_io::receiver::Events;
use seh_num::event::Event;
use seh_walk::stop_cause::StopCause;
use seh_walk::walk::{WalkItem, WalkState, visit};
use x64_machine::context::Context;
use x64_machine::cpu::Cpu;
use x64_memory::space::AddressSpace;

/// What a printed walk shows of a frame whose control address is this. The rows are searched by
/// halves.
fn event_at(tables: &Tables, names: &NameTable, address: u64) -> Option<Event>
    requires { names.now ≡ name_rows tables.now.image }
    ensures { result ≡ option_map events.At (number_at (functions_of tables.now) address) }
{
    match names.row(address.wrapping_sub(tables.base())) {
        Some((_, number)) => Some(Event::At(number)),
        None => None,
    }
}

/// What a printed walk shows of what it finds at its state.
fn event_found(tables: &Tables, names: &NameTable, at: &WalkState, item: &WalkItem) -> Option<Event>
    requires { names.now ≡ name_rows tables.now.image }
    ensures { listed result ≡ shown_at (functions_of tables.now) at.now
        (seen (functions_of tables.now) at.now item.now) }
{
    match *item {
        WalkItem::Frame(_, _) => event_at(tables, names, at.context.rip),
        WalkItem::Over | WalkItem::Past(_) | WalkItem::Broken(_) => None,
    }
}

/// The state that a walk continues from after what it finds; at its end, what stops it, if anything
/// does.
fn follow(item: WalkItem) -> Result<WalkState, Option<StopCause>>
    ensures { (t : Functions') (w : WalkState') → result ≡ followed (seen t w item) }
{
    match item {
        WalkItem::Over => Err(None),
        WalkItem::Broken(cause) => Err(Some(cause)),
        WalkItem::Past(next) | WalkItem::Frame(_, next) => Ok(next),
    }
}

/// One step of a printed walk: the state that the walk continues from; at its end, what stops it,
/// if anything does.
fn print_step<S: AddressSpace, V: Events>(
    tables: &Tables,
    names: &NameTable,
    space: &S,
    at: &WalkState,
    to: &mut V,
) -> Result<WalkState, Option<StopCause>>
    requires whole { TablesAreWhole tables.now }
    requires names { names.now ≡ name_rows tables.now.image }
    ensures next { result
        ≡ followed (visited (functions_of tables.now) (S.memory space.now) at.now) }
    ensures shown { V.took to.old (shown_at (functions_of tables.now) at.now
        (visited (functions_of tables.now) (S.memory space.now) at.now)) to.new }
{
    let item = visit(tables, space, at).item;
    tell(to, event_found(tables, names, at, &item));
    follow(item)
}

/// Gives a receiver the function of each frame, the innermost first, of a walk from the state of a
/// processor: each whose control address is in a row of the image's names. What stops the walk is
/// answered, if anything does. No memory is taken.
pub fn print_walk<S: AddressSpace, V: Events>(
    tables: &Tables,
    names: &NameTable,
    cpu: &Cpu,
    space: &S,
    to: &mut V,
) -> Option<StopCause>
    requires whole { TablesAreWhole tables.now }
    requires names { names.now ≡ name_rows tables.now.image }
    ensures stop { result ≡ (printed steps (functions_of tables.now) (S.memory space.now)
        (walk_from cpu.now)).stop }
    ensures shown { V.took to.old (printed steps (functions_of tables.now) (S.memory space.now)
        (walk_from cpu.now)).events to.new }
{
    let mut at = WalkState {
        context: Context::of(cpu),
        row: 0,
    };
    for _i in 0..0xFFFF_FFFF_FFFF_FFFFu64 {
        match print_step(tables, names, space, &at, to) {
            Ok(next) => at = next,
            Err(stop) => return stop,
        }
    }
    None
}
