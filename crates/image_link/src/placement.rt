//! Where the sections of a program's image lie.

ghost use Rattle.std.specs.Prelude.{◌≡◌, ◌+◌, ◌-◌, ◌<◌, ◌≤◌, ◌^◌, length, get_or};
ghost use Rattle.std.specs.List.{AllByRecursion};
ghost use Rattle.image_link.specs.Linked as spec;
ghost use Rattle.image_link.specs.Near.{AreFew, IsRoutineNear, HasRoom};
ghost use Rattle.image_link.specs.Tables as tables;

use crate::handlers::blocks_size;
use crate::routine::Routine;
use host_layout::imported::ImportedService;
use host_layout::range::{DATA_AT, PAGE};
use pe_write::{rdata_after, tables_size, text_after, xdata_after};
use seh_num::limit::MOST_GLOBALS;

/// How many bytes `.data` takes, and where the sections behind it lie, relative to the image base.
#[derive(Clone, Copy)]
pub struct Placement {
    /// The bytes of `.data`: whole pages, at least one.
    pub data_size: u32,
    /// Where `.text` begins.
    pub text: u32,
    /// Where `.rdata` begins, with the slots of the services.
    pub rdata: u32,
    /// Where `.xdata` begins, with the unwind infos.
    pub xdata: u32,
}

/// The whole pages of `.data` for so many bytes of globals, at least one.
fn data_pages(size: u64) -> u32
    requires { size ≤ MOST_GLOBALS }
    ensures value { result ≡ spec.pages_of size }
    ensures small { result ≤ MOST_GLOBALS + PAGE }
{
    (size.max(1).div_ceil(PAGE) * PAGE) as u32
}

/// Where `.text` begins, relative to the image base, behind the globals.
pub fn text_begin(globals: &[u8]) -> u32
    requires { length globals.now ≤ MOST_GLOBALS }
    ensures value { result ≡ spec.text_begin globals.now }
    ensures small { result ≤ DATA_AT + MOST_GLOBALS + PAGE }
{
    text_after(data_pages(globals.len() as u64)) as u32
}

/// How far after the text's begin an address of `bounds` is.
pub fn offset_of(bounds: &[u32], index: usize, text: u32) -> u32
    requires there { index < length bounds.now }
    requires after { text ≤ get_or bounds.now index 0 }
    ensures { result ≡ get_or bounds.now index 0 - text }
{
    bounds[index] - text
}

/// Where the sections of the image lie that imports these services, and whose cold parts end at
/// `end`. Of its routines the first `functions` are functions.
#[tactic(auto, using(crate::proofs::Bounds::total_small, crate::proofs::Bounds::count_small, crate::proofs::Front::imports_small))]
pub fn placement_of(
    imports: &[ImportedService],
    globals: &[u8],
    routines: &[Routine<'_>],
    functions: usize,
    end: u32,
) -> Placement
    requires imports { AreFew imports.now }
    requires globals { length globals.now ≤ MOST_GLOBALS }
    requires near { AllByRecursion IsRoutineNear routines.now }
    requires room { HasRoom routines.now }
    requires functions { functions ≤ length routines.now }
    requires end { end ≡ spec.first_block imports.now globals.now routines.now }
    ensures placed { spec.IsPlacement imports.now globals.now routines.now functions result }
    ensures small { result.text ≤ DATA_AT + MOST_GLOBALS + PAGE }
    ensures tables { result.xdata + tables.infos_room routines.now < 2 ^ 31 }
{
    let data_size = data_pages(globals.len() as u64);
    let text = text_begin(globals);
    let text_size = end - text + blocks_size(imports, functions as u32);
    Placement {
        data_size,
        text,
        rdata: rdata_after(data_size, text_size) as u32,
        xdata: xdata_after(data_size, text_size, tables_size(imports)) as u32,
    }
}
