//! The memory that a program begins with.

ghost use Rattle.std.specs.Prelude.{◌≡◌, ◌≤◌, length, IfOk};
ghost use Rattle.source_meaning.specs.Source as model;
ghost use Rattle.x64_memory.specs.PageMaps.{memory_of};
ghost use Rattle.source_operations.specs.Regions as specs;

use crate::data_stack::set_pointer;
use host_layout::range::{FIRST_DATA, FIRST_DATA_STACK, PAGE};
use seh_num::limit::MOST_GLOBALS;
use std::alloc::{AllocError, Global};
use x64_memory::page_map::PageMap;
use x64_memory::region::{ARENA, DATA_STACK, Region};

/// The end of the pages of the globals, of which there is one at least.
pub fn data_end(globals: &[u8]) -> u64
    requires { length globals.now ≤ MOST_GLOBALS }
    ensures { result ≡ model.data_end globals.now }
{
    FIRST_DATA + PAGE * ((globals.len() as u64).saturating_sub(1) / PAGE + 1)
}

/// The arena, whose pages have no rights, and the data stack and the globals, which may be read and
/// written.
fn regions(data_end: u64) -> [Region; 3]
    ensures { result ≡ specs.regions data_end }
{
    let data = Region {
        start: FIRST_DATA,
        end: data_end,
        read: true,
        write: true,
        execute: false,
    };
    [ARENA, DATA_STACK, data]
}

/// The memory that a program with these globals begins with. Only the system's memory can be
/// wanting.
pub fn first_memory(alloc: Global, globals: &[u8]) -> Result<PageMap, AllocError>
    requires { length globals.now ≤ MOST_GLOBALS }
    ensures { IfOk result (λ s. memory_of s ≡ model.first_memory globals.now) }
{
    let regions = regions(data_end(globals));
    let mut space = PageMap::new(alloc, &regions)?;
    space.fill(FIRST_DATA, globals);
    set_pointer(&mut space, FIRST_DATA_STACK);
    Ok(space)
}
