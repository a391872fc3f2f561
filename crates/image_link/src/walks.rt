//! What the image of a program has where the program calls `walk`.

ghost use Rattle.std.specs.Prelude.{◌≡◌, ◌<◌, ◌≤◌, ◌^◌, ◌++◌, length, map, take, OnOk, IfOk};
ghost use Rattle.linear_code.specs.Program.{linear_function};
ghost use Rattle.image_link.specs.Places.{parts_of};
ghost use Rattle.image_link.specs.Walks as spec;

use crate::place::Place;
use linear_code::program::IrFunction;
use pe_write::NamedRange;
use std::alloc::{AllocError, Global};
use x64_emit::body::CodeRange;

/// The functions whose names the image has: all of them, or none.
pub fn named_if(walks: bool, functions: &[IrFunction]) -> &[IrFunction]
    ensures { map linear_function result.now
        ≡ spec.named_if walks (map linear_function functions.now) }
{
    if walks { functions } else { &functions[..0] }
}

/// The rows of the table of names: for each function, which are the first routines between these
/// bounds, its range, its number from 1 on, and its name.
fn function_rows<'a>(
    alloc: Global,
    bounds: &[u32],
    functions: &'a [IrFunction],
) -> Result<Vec<NamedRange<'a>>, AllocError>
    requires between { length functions.now < length bounds.now }
    requires few { length functions.now < 2 ^ 31 }
    ensures { IfOk result
        (λ v. v.items ≡ spec.function_rows 0 bounds.now (map linear_function functions.now)) }
{
    let mut rows = Vec::new(alloc);
    let mut index = 0;
    for function in functions {
        let number = index as u32 + 1;
        rows.push(NamedRange {
            begin: bounds[index],
            end: bounds[index + 1],
            number,
            name: &function.name,
        })?;
        index += 1;
    }
    Ok(rows)
}

/// Adds rows for the cold parts of a function of this number. They have no name, since the function
/// has one.
fn put_part_rows(
    rows: &mut Vec<NamedRange<'_>>,
    number: u32,
    parts: &[CodeRange],
) -> Result<(), AllocError>
    ensures { OnOk result (rows.new.items ≡ rows.old.items ++ spec.part_rows number parts.now) }
{
    for part in parts {
        rows.push(NamedRange {
            begin: part.begin,
            end: part.end,
            number,
            name: &[],
        })?;
    }
    Ok(())
}

/// Adds rows for the cold parts of functions at these places, of which the first has the number 1.
fn put_cold_rows(rows: &mut Vec<NamedRange<'_>>, places: &[Place]) -> Result<(), AllocError>
    requires { length places.now < 2 ^ 31 }
    ensures { OnOk result (rows.new.items
        ≡ rows.old.items ++ spec.all_part_rows 1 (map parts_of places.now)) }
{
    let mut number = 1;
    for place in places {
        put_part_rows(rows, number, &place.labels.parts)?;
        number += 1;
    }
    Ok(())
}

/// The rows of the table of names: those of functions, which are the first routines between these
/// bounds, and then those of their cold parts.
pub fn name_rows<'a>(
    alloc: Global,
    bounds: &[u32],
    places: &[Place],
    functions: &'a [IrFunction],
) -> Result<Vec<NamedRange<'a>>, AllocError>
    requires between { length functions.now < length bounds.now }
    requires placed { length functions.now ≤ length places.now }
    requires few { length functions.now < 2 ^ 31 }
    ensures { IfOk result (λ v. v.items
        ≡ spec.function_rows 0 bounds.now (map linear_function functions.now)
        ++ spec.all_part_rows 1 (map parts_of (take (length functions.now) places.now))) }
{
    let mut rows = function_rows(alloc, bounds, functions)?;
    put_cold_rows(&mut rows, &places[..functions.len()])?;
    Ok(rows)
}
