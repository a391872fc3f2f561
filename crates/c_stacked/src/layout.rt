//! Where the variables of a function stand on the data stack.

ghost use Rattle.std.specs.Prelude.{◌≡◌, ℕ, false, replicate, IfOk, OnOk, take, map, option_map};
ghost use Rattle.c_checked.specs.Program.{data_frame_of};
ghost use Rattle.c_checked.specs.Statement as statements;
ghost use Rattle.c_resolved.specs.Layout as spec;
ghost use Rattle.c_resolved.specs.Placed as placed;
ghost use Rattle.c_stacked.specs.Placings.{PlacesOne, IsPlacing};
ghost use Rattle.c_stacked.specs.Views.{layout};
ghost use Rattle.c_syntax.specs.Limits.{aligned};

use crate::marked_statements::{hold_try, mark_statements};
use c_checked::function::{DataFrame, StackedParameter};
use c_checked::statement::Stmt;
use c_resolved::variable::{Place, Variable};
use c_types::types::{access_of, stored_bytes};
use std::alloc::{AllocError, Global};

/// Where the variables of a function stand.
#[derive(Drop)]
pub struct Layout {
    /// The number of the local that has the base.
    pub base: u64,
    /// Where each variable stands on the data stack, if it does, by its number.
    pub places: Vec<Option<Place>>,
    /// How many bytes they take.
    pub size: u64,
    /// Whether the function has a part of the data stack.
    pub needed: bool,
}

impl Layout {
    /// Where the variable of a number stands, if that is the data stack.
    pub fn place_of(&self, number: u64) -> Option<Place>
        ensures { result ≡ placed.place_of (layout self.now) number }
    {
        match self.places.get(number as usize) {
            Some(place) => *place,
            None => None,
        }
    }
}

/// The first place from one on that is a multiple of a size.
fn align(at: u64, size: u64) -> Result<u64, AllocError>
    ensures { IfOk result (λ n. n ≡ aligned at size) }
{
    if size == 0 {
        return Ok(at);
    }
    match at.checked_add(size - 1) {
        Some(last) => Ok(last / size * size),
        None => Err(AllocError),
    }
}

/// Whether a variable stands on the data stack. One that is marked has its address taken.
fn is_addressable(variable: &Variable, mark: bool) -> bool
    ensures { result ≡ spec.is_addressable variable.now mark }
{
    variable.elements.is_some() || mark
}

fn element_count(elements: Option<u64>) -> u64
    ensures { result ≡ spec.element_count elements }
{
    match elements {
        None => 1,
        Some(count) => count,
    }
}

/// Where a variable ends that begins at a place; as many bytes as 2^64 are more than there are.
fn end_of(variable: &Variable, begin: u64) -> Result<u64, AllocError>
    ensures { (at : ℕ) → begin ≡ spec.begin_of variable.now at
        → IfOk result (λ n. n ≡ spec.end_of variable.now at) }
{
    match stored_bytes(variable.of).checked_mul(element_count(variable.elements)) {
        Some(bytes) => match begin.checked_add(bytes) {
            Some(end) => Ok(end),
            None => Err(AllocError),
        },
        None => Err(AllocError),
    }
}

/// The places of a function's variables, and where they end.
#[derive(Drop)]
pub struct Placing {
    /// Where each variable stands on the data stack, if it does.
    pub places: Vec<Option<Place>>,
    /// How many bytes they take.
    pub end: u64,
}

/// The place of the next variable.
fn place_one(variable: &Variable, mark: bool, placing: &mut Placing) -> Result<(), AllocError>
    ensures { OnOk result (PlacesOne variable.now mark placing.old placing.new) }
{
    if !is_addressable(variable, mark) {
        placing.places.push(None)?;
        return Ok(());
    }
    let offset = align(placing.end, stored_bytes(variable.of))?;
    let end = end_of(variable, offset)?;
    placing.places.push(Some(Place {
        access: access_of(variable.of),
        offset,
        elements: variable.elements,
    }))?;
    placing.end = end;
    Ok(())
}

/// Every place.
fn place_all(alloc: Global, variables: &[Variable], marks: &[bool]) -> Result<Placing, AllocError>
    ensures { IfOk result (λ p. IsPlacing variables.now marks.now p) }
{
    let mut placing = Placing {
        places: Vec::new(alloc),
        end: 0,
    };
    let mut next = 0;
    while next < variables.len() && next < marks.len() {
        place_one(&variables[next], marks[next], &mut placing)?;
        next += 1;
    }
    Ok(placing)
}

fn any_placed(places: &[Option<Place>]) -> bool
    ensures { result ≡ spec.any_placed places.now }
{
    for place in places {
        if place.is_some() {
            return true;
        }
    }
    false
}

/// So many variables, none of them marked.
fn unmarked(alloc: Global, count: usize) -> Result<Vec<bool>, AllocError>
    ensures { IfOk result (λ marks. marks.items ≡ replicate count false) }
{
    let mut marks = Vec::new(alloc);
    let mut left = count;
    while 0 < left {
        marks.push(false)?;
        left -= 1;
    }
    Ok(marks)
}

/// Where the variables of a function with this body stand.
pub fn layout_of(alloc: Global, variables: &[Variable], body: &[Stmt]) -> Result<Layout, AllocError>
    ensures { IfOk result (λ l. layout l ≡ spec.layout_of variables.now
        (statements.statements (map statements.statement body.now))) }
{
    let base = variables.len() as u64;
    let mut marks = unmarked(alloc, variables.len())?;
    mark_statements(body, &mut marks);
    let placing = place_all(alloc, variables, &marks)?;
    let size = align(placing.end, 16)?;
    let needed = any_placed(&placing.places) || hold_try(body);
    Ok(Layout {
        base,
        places: placing.places,
        size,
        needed,
    })
}

/// The parameters that stand there.
fn stacked_parameters(
    alloc: Global,
    places: &[Option<Place>],
) -> Result<Vec<StackedParameter>, AllocError>
    ensures { IfOk result (λ ps. ps.items ≡ spec.stacked_parameters 0 places.now) }
{
    let mut made = Vec::new(alloc);
    for (i, place) in places.iter().enumerate() {
        if let Some(place) = place {
            made.push(StackedParameter {
                parameter: i as u64,
                width: place.access.width,
                offset: place.offset,
            })?;
        }
    }
    Ok(made)
}

/// The places of the first variables.
fn first_places(places: &[Option<Place>], count: usize) -> &[Option<Place>]
    ensures { result.now ≡ take count places.now }
{
    if places.len() <= count {
        return places;
    }
    &places[..count]
}

/// The part of the data stack of a function with so many parameters.
pub fn data_frame(
    alloc: Global,
    parameters: usize,
    places: &Layout,
) -> Result<Option<DataFrame>, AllocError>
    ensures { IfOk result (λ d. option_map data_frame_of d
        ≡ spec.data_frame_of parameters (layout places.now)) }
{
    if !places.needed {
        return Ok(None);
    }
    Ok(Some(DataFrame {
        base: places.base,
        size: places.size,
        parameters: stacked_parameters(alloc, first_places(&places.places, parameters))?,
    }))
}
