//! From an image to a host.

ghost use Rattle.std.specs.Prelude.{◌≡◌, ℕ, true, None, Some, Ok, IfOk, IfErr};
ghost use Rattle.eh_tables.specs.Tables.{directory, TablesAreWhole};
ghost use Rattle.host_model.specs.Loading as model;
ghost use Rattle.host_model.specs.Loading.{first_cpu, has_place};
ghost use Rattle.virtual_unwind.specs.CallerOf.{name_rows};
ghost use Rattle.pe_image.specs.Image.{AreAscending};
ghost use Rattle.x64_memory.specs.PageMaps.{memory_of, holds};
ghost use Rattle.x64_memory.specs.Regions.{in_regions};
ghost use Rattle.seh_host.specs.Hosts.{IsLoadRefusal};
ghost use Rattle.seh_host.specs.Mapping.{blank_memory, regions_of};
ghost use Rattle.seh_host.specs.Running.{running_of, first_running, image_of, event_count};

use crate::LoadErr;
use crate::binding::{bind_all, first_unknown};
use crate::host::Host;
use crate::mapping::{has_entry, has_place, regions};
use eh_tables::Tables;
use host_layout::range::{DATA_STACK_START, FIRST_DATA_STACK, FIRST_STACK};
use pe_image::{ImageView, NameTable};
use seh_dispatch::filter::FuncletFilter;
use seh_dispatch::gathering::funclets_in;
use seh_dispatch::machine::HostedProcessor;
use seh_num::extension::wrap;
use seh_num::width::Width;
use std::alloc::{AllocError, Global};
use vectored_list::VectoredList;
use x64_decoded::cache::InstructionCache;
use x64_instr::register::Reg;
use x64_machine::cpu::{Cpu, Flags};
use x64_memory::page_map::PageMap;

/// The registers that a run starts with.
fn first_cpu(entry: u64, arg: i64) -> Cpu
    ensures { result ≡ first_cpu entry arg }
{
    let mut registers = [0; 16];
    registers[Reg::Rcx as usize] = wrap(Width::W64, i128::from(arg));
    registers[Reg::Rsp as usize] = FIRST_STACK;
    Cpu {
        registers,
        rip: entry,
        flags: Flags {
            carry: false,
            zero: false,
            sign: false,
            overflow: false,
        },
    }
}

/// Memory with the regions of an image's run, empty but for the data stack's pointer.
fn blank_memory(alloc: Global, image: &ImageView<'_>) -> Result<PageMap, AllocError>
    requires place { has_place image.now ≡ true }
    requires ascending { AreAscending 0 image.now.sections }
    ensures memory { IfOk result (λ s. memory_of s ≡ blank_memory (regions_of image.now)) }
    ensures holds { IfOk result
        (λ s. (a : ℕ) → holds s a ≡ in_regions (regions_of image.now) a) }
{
    let regions = regions(alloc, image)?;
    let mut space = PageMap::new(alloc, &regions)?;
    space.fill(DATA_STACK_START, &FIRST_DATA_STACK.to_le_bytes());
    Ok(space)
}

/// Memory in which an image is placed with its imports bound, with the stack, the data stack and
/// the arena.
fn mapped(alloc: Global, image: &ImageView<'_>) -> Result<PageMap, AllocError>
    requires { has_place image.now ≡ true }
    ensures { IfOk result (λ s. memory_of s ≡ model.mapped image.now) }
{
    let sections = image.sections();
    let mut space = blank_memory(alloc, image)?;
    for section in sections {
        space.fill(image.base() + section.address(), section.raw());
    }
    bind_all(&mut space, image);
    Ok(space)
}

/// The names of an image's functions, or the first reason that it isn't loaded. Its function table
/// was read whole.
fn read_names<'image>(image: &'image ImageView<'_>) -> Result<NameTable<'image>, LoadErr>
    ensures read { IfOk result (λ t. t ≡ name_rows image.now) }
    ensures place { IfOk result (λ _. has_place image.now ≡ true) }
    ensures accepted { IfOk result (λ _. model.later_refusal image.now ≡ None) }
    ensures refused { IfErr result (λ e. model.later_refusal image.now ≡ Some e) }
{
    if !has_place(image) {
        return Err(LoadErr::Place { base: image.base() });
    }
    if let Some(index) = first_unknown(image) {
        return Err(LoadErr::Import {
            index: index as u64,
        });
    }
    if !has_entry(image) {
        return Err(LoadErr::Entry { rva: image.entry() });
    }
    match image.names() {
        Ok(names) => Ok(names),
        Err(e) => Err(LoadErr::Names { row: e.row }),
    }
}

/// The function table of an image, read whole.
fn read_tables<'image, 'bytes>(
    alloc: Global,
    image: &'image ImageView<'bytes>,
) -> Result<Tables<'image, 'bytes>, LoadErr>
    ensures read { IfOk result (λ t. (directory image.now ≡ Ok t.ranges) × (t.image ≡ image.now)) }
    ensures whole { IfOk result (λ t. TablesAreWhole t) }
    ensures refused { IfErr result (λ e. IsLoadRefusal image.now e) }
{
    match Tables::read_in(alloc, image) {
        Ok(Ok(tables)) => Ok(tables),
        Ok(Err(refusal)) => Err(LoadErr::Table(refusal)),
        Err(_) => Err(LoadErr::Memory),
    }
}

/// Loads an image: its sections, a stack, the data stack and the arena are mapped, the slots of its
/// imports hold the addresses of the host's services, a later one over an earlier, and the run is
/// at the entry point with the argument in RCX, and without a vectored handler.
///
/// It is refused for the first reason that holds, in this order: `Table` where the function table
/// isn't read whole; `Place` where the base isn't a multiple of 65,536, is below 4 GiB, the image's
/// size is above 256 MiB or its end is above 2^47; `Import` where an import names none of
/// `AddVectoredExceptionHandler`, `RaiseException`, `RemoveVectoredExceptionHandler`,
/// `__C_specific_handler`, `_local_unwind`, `protect`, `put` and `walk`, whatever its library is
/// called; `Entry` where the entry point's page isn't executable; `Names` where the table of names
/// isn't read whole.
pub fn load<'image, 'bytes>(
    alloc: Global,
    image: &'image ImageView<'bytes>,
    arg: i64,
) -> Result<Host<'image, 'bytes>, LoadErr>
    ensures image { IfOk result (λ h. image_of h ≡ image.now) }
    ensures loaded { IfOk result (λ h. running_of h ≡ first_running image.now arg) }
    ensures fresh { IfOk result (λ h. event_count h ≡ 0) }
    ensures accepted { IfOk result (λ h. model.load_refusal image.now ≡ None) }
    ensures refused { IfErr result (λ e. IsLoadRefusal image.now e) }
{
    let tables = read_tables(alloc, image)?;
    let names = read_names(image)?;
    let Ok(space) = mapped(alloc, image) else {
        return Err(LoadErr::Memory);
    };
    let Ok(funclets) = funclets_in(alloc, &tables) else {
        return Err(LoadErr::Memory);
    };
    let Ok(filter) = FuncletFilter::new(alloc, &funclets) else {
        return Err(LoadErr::Memory);
    };
    let Ok(instructions) = InstructionCache::new(alloc) else {
        return Err(LoadErr::Memory);
    };
    Ok(Host {
        machine: HostedProcessor {
            cpu: first_cpu(image.base() + image.entry(), arg),
            handlers: VectoredList::new(),
        },
        space,
        end: None,
        tables,
        names,
        filter,
        funclets,
        instructions,
        events: 0,
    })
}
