//! The unwind infos, scope tables and function table of a program.

ghost use Rattle.std.specs.Prelude.{◌≡◌, ◌+◌, ◌*◌, ◌<◌, ◌≤◌, ◌^◌, ◌++◌, length, OnOk, IfOk};
ghost use Rattle.std.specs.List.{AllByRecursion};
ghost use Rattle.eh_write.specs.Written.{CanBeWritten, IsTrailer, table_bytes};
ghost use Rattle.frame_layout.specs.Layout.{IsFrame};
ghost use Rattle.frame_layout.specs.Infos.{info_of};
ghost use Rattle.x64_emit.specs.Linking.{address_or};
ghost use Rattle.image_link.specs.Near.{IsFrameNear, IsRoutineNear, IsSiteNear};
ghost use Rattle.image_link.specs.Places.{place_at, places_from};
ghost use Rattle.image_link.specs.Tables as spec;
ghost use Rattle.image_link.specs.Text.{total};

use crate::fragments::{Fragment, put_chains, put_fragments};
use crate::place::Place;
use crate::routine::Routine;
use crate::text::{Site, thunk_at};
use eh_tables::{EXCEPTION_EXECUTE_HANDLER, RuntimeFunction, ScopeRecord};
use eh_write::{Trailer, UnwindInfo, write_pdata, write_scopes, write_unwind};
use frame_layout::{FrameLayout, unwind_of};
use host_layout::imported::ImportedService;
use linear_code::program::{Region, RegionKind};
use std::alloc::{AllocError, Global};
use x64_emit::body::Labels;

/// The address of an index, or another one where there is none.
fn address_or(addresses: &[u32], index: u64, other: u32) -> u32
    ensures { result ≡ address_or addresses.now index other }
{
    match addresses.get(index as usize) {
        Some(address) => *address,
        None => other,
    }
}

fn handler_address(kind: RegionKind, funclets: &[u32]) -> u32
    ensures { result ≡ spec.handler_address funclets.now kind }
{
    match kind {
        RegionKind::Finally { funclet } | RegionKind::Filter { funclet, .. } => {
            address_or(funclets, funclet, 0)
        }
        RegionKind::Always { .. } => EXCEPTION_EXECUTE_HANDLER,
    }
}

fn jump_target(kind: RegionKind, labels: &Labels) -> u32
    ensures { result ≡ spec.jump_target labels.now.starts.items labels.now.end kind }
{
    match kind {
        RegionKind::Finally { .. } => 0,
        RegionKind::Filter { target, .. } | RegionKind::Always { target } => {
            address_or(&labels.starts, target, labels.end)
        }
    }
}

/// The scope record of a region; `funclets` are the addresses of the funclets.
fn scope_of(region: &Region, labels: &Labels, funclets: &[u32]) -> ScopeRecord
    ensures { result
        ≡ spec.scope_record funclets.now labels.now.starts.items labels.now.end region.now }
{
    ScopeRecord {
        begin: address_or(&labels.starts, region.begin, labels.end),
        end: address_or(&labels.starts, region.end, labels.end),
        handler_address: handler_address(region.kind, funclets),
        jump_target: jump_target(region.kind, labels),
    }
}

/// The scope table of regions.
fn scopes_of(
    alloc: Global,
    regions: &[Region],
    labels: &Labels,
    funclets: &[u32],
) -> Result<Vec<ScopeRecord>, AllocError>
    ensures { IfOk result (λ v. v.items
        ≡ spec.scope_records funclets.now labels.now.starts.items labels.now.end regions.now) }
{
    let mut records = Vec::new(alloc);
    for region in regions {
        records.push(scope_of(region, labels, funclets))?;
    }
    Ok(records)
}

fn is_finally(kind: RegionKind) -> bool
    ensures { result ≡ spec.is_finally kind }
{
    match kind {
        RegionKind::Finally { .. } => true,
        RegionKind::Filter { .. } | RegionKind::Always { .. } => false,
    }
}

fn has_except(regions: &[Region]) -> bool
    ensures { result ≡ spec.has_except regions.now }
{
    for region in regions {
        if !is_finally(region.kind) {
            return true;
        }
    }
    false
}

fn has_finally(regions: &[Region]) -> bool
    ensures { result ≡ spec.has_finally regions.now }
{
    for region in regions {
        if is_finally(region.kind) {
            return true;
        }
    }
    false
}

/// What follows the codes of a routine's unwind info: the language handler, where it has regions.
fn trailer(regions: &[Region], handler: u32) -> Trailer
    ensures { result ≡ spec.trailer handler regions.now }
{
    if regions.len() == 0 {
        return Trailer::Nothing;
    }
    Trailer::Handler {
        searching: has_except(regions),
        unwinding: has_finally(regions),
        rva: handler,
    }
}

/// The unwind info of a frame, with what follows its codes.
fn info_with(frame: &FrameLayout, trailer: Trailer) -> UnwindInfo
    requires frame { IsFrame frame.now }
    requires trailer { IsTrailer trailer }
    ensures value { result ≡ info_of frame.now trailer }
    ensures written { CanBeWritten result }
{
    let info = unwind_of(frame);
    UnwindInfo {
        prologue_size: info.prologue_size,
        frame_register: info.frame_register,
        frame_offset: info.frame_offset,
        codes: info.codes,
        trailer,
    }
}

/// Adds the unwind info of a routine with a frame, and its scope table where it has regions.
fn put_info(
    alloc: Global,
    xdata: &mut Vec<u8>,
    site: &Site<'_>,
    routine: &Routine<'_>,
    frame: &FrameLayout,
    labels: &Labels,
) -> Result<(), AllocError>
    requires site { IsSiteNear site.now }
    requires near { IsRoutineNear routine.now }
    requires frame { IsFrame frame.now }
    ensures { OnOk result (xdata.new.items ≡ xdata.old.items ++ spec.info_bytes_of site.now
        labels.now.starts.items labels.now.end routine.now frame.now) }
{
    let regions = routine.regions();
    let handler = thunk_at(site.imports, site.text, ImportedService::CSpecificHandler);
    write_unwind(&info_with(frame, trailer(regions, handler)), xdata)?;
    if regions.len() == 0 {
        return Ok(());
    }
    write_scopes(&scopes_of(alloc, regions, labels, site.funclets)?, xdata)
}

/// Adds the unwind info of a routine at `range`, its entry, and its cold parts, where it has a
/// frame.
fn put_tables(
    alloc: Global,
    xdata: &mut Vec<u8>,
    ranges: &mut Vec<RuntimeFunction>,
    fragments: &mut Vec<Fragment>,
    site: &Site<'_>,
    routine: &Routine<'_>,
    frame: &Option<FrameLayout>,
    labels: &Labels,
    range: RuntimeFunction,
) -> Result<(), AllocError>
    requires site { IsSiteNear site.now }
    requires near { IsRoutineNear routine.now }
    requires frame { IsFrameNear frame.now }
    ensures infos { OnOk result (xdata.new.items ≡ xdata.old.items
        ++ spec.info_if site.now labels.now.starts.items labels.now.end routine.now frame.now) }
    ensures ranges { OnOk result
        (ranges.new.items ≡ ranges.old.items ++ spec.range_if frame.now range) }
    ensures fragments { OnOk result (fragments.new.items
        ≡ fragments.old.items ++ spec.fragments_if frame.now range labels.now.parts.items) }
{
    match frame {
        None => Ok(()),
        Some(frame) => {
            ranges.push(range)?;
            put_fragments(fragments, frame, range, &labels.parts)?;
            put_info(alloc, xdata, site, routine, frame, labels)
        }
    }
}

/// Adds the unwind info of a routine that begins at an address, its entry, and its cold parts,
/// where it has a frame.
fn put_routine(
    alloc: Global,
    xdata: &mut Vec<u8>,
    ranges: &mut Vec<RuntimeFunction>,
    fragments: &mut Vec<Fragment>,
    site: &Site<'_>,
    routine: &Routine<'_>,
    begin: u32,
    place: &Place,
    xdata_at: u32,
) -> Result<(), AllocError>
    requires site { IsSiteNear site.now }
    requires near { IsRoutineNear routine.now }
    requires placed { place.now ≡ place_at begin place.now.cold routine.now }
    requires xdata { xdata_at + length xdata.old.items < 2 ^ 31 }
    ensures infos { OnOk result (xdata.new.items
        ≡ xdata.old.items ++ spec.info_bytes site.now begin place.now.cold routine.now) }
    ensures ranges { OnOk result (ranges.new.items ≡ ranges.old.items
        ++ spec.range_of (xdata_at + length xdata.old.items) begin routine.now) }
    ensures fragments { OnOk result (fragments.new.items ≡ fragments.old.items
        ++ spec.fragments_of (xdata_at + length xdata.old.items) begin place.now.cold
        routine.now) }
{
    let range = RuntimeFunction {
        begin,
        end: place.labels.end,
        unwind_info: xdata_at + xdata.len() as u32,
    };
    put_tables(
        alloc,
        xdata,
        ranges,
        fragments,
        site,
        routine,
        &routine.frame,
        &place.labels,
        range,
    )
}

/// The tables of routines.
#[derive(Debug, Drop)]
struct RoutineTables {
    /// The unwind infos, each with its scope table after it.
    infos: Vec<u8>,
    /// The entries.
    ranges: Vec<RuntimeFunction>,
    /// The cold parts, which have neither yet.
    fragments: Vec<Fragment>,
}

/// The tables of routines at their places, of which the first begins at `first`, with unwind infos
/// from `xdata_at` on.
fn routine_tables(
    alloc: Global,
    site: &Site<'_>,
    routines: &[Routine<'_>],
    places: &[Place],
    first: u32,
    xdata_at: u32,
) -> Result<RoutineTables, AllocError>
    requires site { IsSiteNear site.now }
    requires near { AllByRecursion IsRoutineNear routines.now }
    requires places { places.now ≡ places_from first (first + total routines.now) routines.now }
    requires tables { xdata_at + spec.infos_room routines.now < 2 ^ 31 }
    ensures infos { IfOk result (λ t. t.infos.items
        ≡ spec.infos site.now first (first + total routines.now) routines.now) }
    ensures ranges { IfOk result (λ t. t.ranges.items
        ≡ spec.ranges site.now xdata_at first (first + total routines.now) routines.now) }
    ensures fragments { IfOk result (λ t. t.fragments.items
        ≡ spec.fragments site.now xdata_at first (first + total routines.now) routines.now) }
    ensures small { IfOk result (λ t. length t.infos.items + 16 * length t.fragments.items
        ≤ spec.infos_room routines.now) }
{
    let mut infos = Vec::new(alloc);
    let mut ranges = Vec::new(alloc);
    let mut fragments = Vec::new(alloc);
    let mut at = first;
    let mut index = 0;
    for routine in routines {
        let place = &places[index];
        put_routine(
            alloc,
            &mut infos,
            &mut ranges,
            &mut fragments,
            site,
            routine,
            at,
            place,
            xdata_at,
        )?;
        at = place.labels.end;
        index += 1;
    }
    Ok(RoutineTables {
        infos,
        ranges,
        fragments,
    })
}

/// The tables of a program: the unwind infos, and the function table as bytes.
#[derive(Debug, Drop)]
pub struct Tables {
    /// The unwind infos, each with its scope table after it.
    pub xdata: Vec<u8>,
    /// The function table.
    pub pdata: Vec<u8>,
}

/// The tables of routines at their places and of their cold parts, where the first routine begins
/// at `first`, with unwind infos from `xdata_at` on.
pub fn tables_of(
    alloc: Global,
    site: &Site<'_>,
    routines: &[Routine<'_>],
    places: &[Place],
    first: u32,
    xdata_at: u32,
) -> Result<Tables, AllocError>
    requires site { IsSiteNear site.now }
    requires near { AllByRecursion IsRoutineNear routines.now }
    requires places { places.now ≡ places_from first (first + total routines.now) routines.now }
    requires tables { xdata_at + spec.infos_room routines.now < 2 ^ 31 }
    ensures xdata { IfOk result (λ t. t.xdata.items
        ≡ spec.all_infos site.now xdata_at first (first + total routines.now) routines.now) }
    ensures pdata { IfOk result (λ t. t.pdata.items
        ≡ table_bytes (spec.all_ranges site.now xdata_at first (first + total routines.now)
        routines.now)) }
{
    let tables = routine_tables(alloc, site, routines, places, first, xdata_at)?;
    let mut xdata = tables.infos;
    let mut ranges = tables.ranges;
    let next = xdata_at + xdata.len() as u32;
    put_chains(&mut xdata, &mut ranges, &tables.fragments, next)?;
    let mut pdata = Vec::new(alloc);
    write_pdata(&ranges, &mut pdata)?;
    Ok(Tables { xdata, pdata })
}
