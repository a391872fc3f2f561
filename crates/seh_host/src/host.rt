ghost use Rattle.std.specs.Prelude.{◌≡◌, ◌-◌, ◌<◌, ◌^◌, None, length};
ghost use Rattle.eh_tables.specs.Tables.{TablesAreWhole, entries_of};
ghost use Rattle.virtual_unwind.specs.CallerOf.{name_rows};
ghost use Rattle.x64_memory.specs.PageMaps.{memory_of};
ghost use Rattle.x64_decoded.specs.Caches.{IsCoherent};
ghost use Rattle.host_model.specs.Funclets as spec;
ghost use Rattle.seh_dispatch.specs.Filters.{Admits};

use eh_tables::Tables;
use host_model::funclet::Funclet;
use pe_image::NameTable;
use seh_dispatch::filter::FuncletFilter;
use seh_dispatch::machine::HostedProcessor;
use seh_num::end::RunEnd;
use x64_decoded::cache::InstructionCache;
use x64_memory::page_map::PageMap;

/// An image that is run: its registers, vectored handlers and memory, and how its run ended, once
/// it has; with its function table, which is read whole, the names of its functions, its funclets
/// with their filter, and instructions that were decoded before, which agree with memory while the
/// run lasts.
#[derive(Drop)]
pub struct Host<'image, 'bytes> {
    pub(crate) machine: HostedProcessor,
    pub(crate) space: PageMap,
    pub(crate) end: Option<RunEnd>,
    pub(crate) tables: Tables<'image, 'bytes>,
    pub(crate) names: NameTable<'image>,
    pub(crate) filter: FuncletFilter,
    pub(crate) funclets: Vec<Funclet>,
    pub(crate) instructions: InstructionCache,
    pub(crate) events: u64,
    ghost whole: { TablesAreWhole tables },
    ghost named: { names ≡ name_rows tables.image },
    ghost few: { length funclets.items < 2 ^ 32 - 1 },
    ghost admitted: { Admits filter funclets.items },
    ghost listed: { funclets.items ≡ spec.funclets (entries_of tables) },
    ghost coherent: { end ≡ None → IsCoherent (memory_of space) instructions },
}

impl Host<'_, '_> {
    ghost use Rattle.seh_host.specs.Running.{event_count};

    /// How many events, of all kinds, the host's turns have shown; it stays at 2^64 - 1.
    pub fn events(&self) -> u64
        ensures { result ≡ event_count self.now }
    {
        self.events
    }
}

/// Whether a turn was made.
#[derive(Clone, Copy, Debug, PartialEq, Eq)]
pub enum Turn {
    Made,
    /// The run had ended before.
    Ended,
}
