//! The image of a program.

ghost use Rattle.std.specs.Prelude.{◌≡◌, ℕ, ◌+◌, ◌<◌, ◌≤◌, length, map, take, drop, IfOk};
ghost use Rattle.std.specs.List.{AllByRecursion};
ghost use Rattle.linear_code.specs.Program.{linear_function, linear_program};
ghost use Rattle.pe_image.specs.Reading.{IsImage};
ghost use Rattle.pe_write.specs.Program as images;
ghost use Rattle.pe_write.specs.Written.{written};
ghost use Rattle.image_link.specs.Fits.{FitsProgram};
ghost use Rattle.image_link.specs.Linked as spec;
ghost use Rattle.image_link.specs.Near.{AreFew, IsRoutineNear, HasNames, HasPlaces};
ghost use Rattle.image_link.specs.Places.{places_from};
ghost use Rattle.image_link.specs.Text as texts;

use crate::handlers::{HandlerBlocks, blocks_at};
use crate::place::{Places, front_size, places_of};
use crate::placement::{offset_of, placement_of, text_begin};
use crate::routine::{Routine, routines};
use crate::services::{calls, services_of};
use crate::tables::{Tables, tables_of};
use crate::text::{Site, text_of};
use crate::walks::{name_rows, named_if};
use host_layout::imported::ImportedService;
use linear_code::program::{IrFunction, IrProgram};
use pe_write::{Image, NamedRange, write};
use seh_num::limit::MOST_GLOBALS;
use std::alloc::{AllocError, Global};

/// The addresses that a text at `text` refers to, where the first `functions` routines are
/// functions, with these blocks.
fn site_of<'a>(
    imports: &'a [ImportedService],
    text: u32,
    rdata: u32,
    bounds: &'a [u32],
    functions: usize,
    blocks: HandlerBlocks,
) -> Site<'a>
    requires { functions ≤ length bounds.now }
    ensures { result ≡ record {
      imports = imports.now;
      text = text;
      rdata = rdata;
      functions = take functions bounds.now;
      funclets = drop functions bounds.now;
      blocks = blocks;
    } }
{
    let (functions, funclets) = bounds.split_at(functions);
    Site {
        imports,
        text,
        rdata,
        functions,
        funclets,
        blocks,
    }
}

/// The image of code and tables.
fn image_with<'a>(
    alloc: Global,
    imports: &[ImportedService],
    globals: &[u8],
    data_size: u32,
    code: Vec<u8>,
    entry: u32,
    tables: Tables,
    names: Vec<NamedRange<'a>>,
) -> Result<Image<'a>, AllocError>
    requires { images.CanBeImage (record {
      imports = imports.now;
      data_size = data_size;
      data_bytes = globals.now;
      text = code.items;
      entry = entry;
      xdata = tables.xdata.items;
      pdata = tables.pdata.items;
      names = names.items;
    }) }
    ensures { IfOk result (λ image. image ≡ record {
      imports = imports.now;
      data_size = data_size;
      data_bytes = globals.now;
      text = code.items;
      entry = entry;
      xdata = tables.xdata.items;
      pdata = tables.pdata.items;
      names = names.entry.items;
    }) }
{
    let mut services = Vec::new(alloc);
    services.extend_from_slice(imports)?;
    let mut data = Vec::new(alloc);
    data.extend_from_slice(globals)?;
    Ok(Image::new(
        services,
        data_size,
        data,
        code,
        entry,
        tables.xdata,
        tables.pdata,
        names,
    ))
}

/// The image of routines at their places, of which the first so many are functions,
/// and which begins at the one of the index `main`. It has the names of the functions `named`.
fn linked<'a>(
    alloc: Global,
    imports: &[ImportedService],
    globals: &[u8],
    routines: &[Routine<'_>],
    places: &Places,
    functions: usize,
    main: usize,
    named: &'a [IrFunction],
) -> Result<Image<'a>, AllocError>
    requires imports { AreFew imports.now }
    requires globals { length globals.now ≤ MOST_GLOBALS }
    requires near { AllByRecursion IsRoutineNear routines.now }
    requires places { HasPlaces routines.now functions main }
    requires names { HasNames routines.now (map linear_function named.now) }
    requires bounds { places.now.bounds.items
        ≡ texts.bounds (spec.first imports.now globals.now) routines.now }
    requires placed { places.now.each.items ≡ places_from (spec.first imports.now globals.now)
        (spec.first_cold imports.now globals.now routines.now) routines.now }
    requires end { places.now.end ≡ spec.first_block imports.now globals.now routines.now }
    ensures { IfOk result
        (λ image. image ≡ spec.image_of_routines imports.now globals.now routines.now functions main
        (map linear_function named.now)) }
{
    let placement = placement_of(imports, globals, routines, functions, places.end);
    let text = placement.text;
    let blocks = blocks_at(imports, places.end, functions as u32);
    let rdata = placement.rdata;
    let site = site_of(imports, text, rdata, &places.bounds, functions, blocks);
    let code = text_of(alloc, &site, routines, &places.each)?;
    let tables = tables_of(
        alloc,
        &site,
        routines,
        &places.each,
        text + front_size(imports),
        placement.xdata,
    )?;
    let entry = offset_of(&places.bounds, main, text);
    let names = name_rows(alloc, &places.bounds, &places.each, named)?;
    image_with(
        alloc,
        imports,
        globals,
        placement.data_size,
        code,
        entry,
        tables,
        names,
    )
}

/// The image of routines, of which the first so many are functions, and which begins at the one of
/// the index `main`. It has the names of the functions `named`.
fn image_of_routines<'a>(
    alloc: Global,
    imports: &[ImportedService],
    globals: &[u8],
    routines: &[Routine<'_>],
    functions: usize,
    main: usize,
    named: &'a [IrFunction],
) -> Result<Image<'a>, AllocError>
    requires imports { AreFew imports.now }
    requires globals { length globals.now ≤ MOST_GLOBALS }
    requires near { AllByRecursion IsRoutineNear routines.now }
    requires places { HasPlaces routines.now functions main }
    requires names { HasNames routines.now (map linear_function named.now) }
    ensures { IfOk result
        (λ image. image ≡ spec.image_of_routines imports.now globals.now routines.now functions main
        (map linear_function named.now)) }
{
    let first = text_begin(globals) + front_size(imports);
    let places = places_of(alloc, routines, first)?;
    linked(
        alloc, imports, globals, routines, &places, functions, main, named,
    )
}

/// The bytes of the image of a program.
pub fn compile_program(alloc: Global, program: &IrProgram) -> Result<Vec<u8>, AllocError>
    requires { FitsProgram (linear_program program.now) }
    ensures bytes { IfOk result (λ bytes. bytes.items
        ≡ written (images.parts_of (spec.linked (linear_program program.now)))) }
    ensures octets { IfOk result (λ bytes. AllByRecursion (λ (b : ℕ). b < 256) bytes.items) }
    ensures image { IfOk result (λ bytes. IsImage bytes.items
        (images.image_of (spec.linked (linear_program program.now)))) }
    ensures small { IfOk result (λ bytes. length bytes.items
        ≤ images.end_at (images.sizes_of (spec.linked (linear_program program.now)))) }
{
    let routines = routines(alloc, program)?;
    let functions = program.functions.len();
    let walks = calls(ImportedService::Walk, program);
    let imports = services_of(alloc, program)?;
    let image = image_of_routines(
        alloc,
        &imports,
        &program.globals,
        &routines,
        functions,
        program.main as usize,
        named_if(walks, &program.functions),
    )?;
    write(alloc, &image)
}
