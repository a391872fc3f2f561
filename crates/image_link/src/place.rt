//! Where the routines of a program are placed in its text.

ghost use Rattle.std.specs.Prelude.{◌≡◌, ◌+◌, ◌*◌, ◌≤◌, map, IfOk};
ghost use Rattle.std.specs.List.{AllByRecursion};
ghost use Rattle.template_code.specs.ColdParts.{hot_code};
ghost use Rattle.template_code.specs.Template.{body_size};
ghost use Rattle.x64_emit.specs.Bodies.{label_list, EndsNear};
ghost use Rattle.x64_emit.specs.Near.{IsNear};
ghost use Rattle.image_link.specs.Near.{AreFew, IsRoutineNear};
ghost use Rattle.image_link.specs.Places.{parts_at, place_at, places_from};
ghost use Rattle.image_link.specs.Text as spec;

use crate::entry::put_entry;
use crate::routine::Routine;
use host_layout::imported::ImportedService;
use std::alloc::{AllocError, Global};
use std::marker::Model;
use x64_emit::body::{Labels, hot_size, labels_of};
use x64_emit::entry::{CHECK_STACK_SIZE, THUNK_SIZE};

/// How many services a program imports at most.
pub const MOST_IMPORTS: u32 = 64;

/// How many bytes a program has room for with each routine, beside those of its body: for what
/// comes before the body, and for the block of a function.
pub const ROUTINE_ROOM: u32 = 512;

/// How many bytes come before the first routine of a program that imports these services: their
/// thunks, and `__chkstk`.
pub fn front_size(imports: &[ImportedService]) -> u32
    requires { AreFew imports.now }
    ensures value { result ≡ spec.front_size imports.now }
    ensures small { result ≤ 512 }
{
    THUNK_SIZE * imports.len() as u32 + CHECK_STACK_SIZE
}

/// How many bytes come before the body of a routine.
fn entry_size(alloc: Global, routine: &Routine<'_>) -> Result<u32, AllocError>
    requires { IsRoutineNear routine.now }
    ensures value { IfOk result (λ size. size ≡ spec.entry_size routine.now) }
    ensures small { IfOk result (λ size. size ≤ 297) }
{
    let mut entry = Vec::new(alloc);
    put_entry(&mut entry, routine, 0, 0)?;
    let size = entry.len() as u32;
    Ok(size)
}

/// Where a routine is placed, relative to the image base.
#[derive(Debug, Drop)]
pub struct Place {
    /// Where its body begins.
    pub body: u32,
    /// Where its cold parts begin.
    pub cold: u32,
    /// Where the instructions of its body begin, where it ends, and where its cold parts are.
    pub labels: Labels,
}

impl Model for Place {
    ghost use Rattle.image_link.specs.Places.{PlaceView};

    ghost Value = { PlaceView };

    ghost view = { λ p. record {
      body = p.body;
      cold = p.cold;
      labels = p.labels.starts.items;
      end = p.labels.end;
      parts = p.labels.parts.items;
      cold_end = p.labels.cold_end;
    } };
}

/// Where the instructions of a routine begin whose body begins at an address, and its cold parts at
/// another.
fn labels_from(
    alloc: Global,
    routine: &Routine<'_>,
    body: u32,
    cold: u32,
) -> Result<Labels, AllocError>
    requires near { IsRoutineNear routine.now }
    requires room { EndsNear body routine.now.body.code }
    requires cold { EndsNear cold routine.now.body.code }
    ensures labels { IfOk result (λ l. l.starts.items
        ≡ label_list routine.now.layout routine.now.body.cold 0 body cold routine.now.body.code) }
    ensures end { IfOk result
        (λ l. l.end ≡ body + body_size routine.now.layout (hot_code routine.now.body)) }
    ensures parts { IfOk result (λ l. l.parts.items ≡ parts_at cold routine.now) }
    ensures cold_end { IfOk result (λ l. l.cold_end ≡ cold + spec.cold_size routine.now) }
{
    labels_of(
        alloc,
        &routine.layout,
        body,
        cold,
        routine.code(),
        routine.cold(),
    )
}

/// The place of a routine that begins at an address, with so many bytes before its body, and whose
/// cold parts begin at another.
fn place_of(
    alloc: Global,
    routine: &Routine<'_>,
    entry: u32,
    begin: u32,
    cold: u32,
) -> Result<Place, AllocError>
    requires near { IsRoutineNear routine.now }
    requires entry { entry ≡ spec.entry_size routine.now }
    requires room { IsNear (begin + spec.routine_room routine.now) }
    requires cold { IsNear (cold + spec.routine_room routine.now) }
    ensures { IfOk result (λ p. p ≡ place_at begin cold routine.now) }
{
    let body = begin + entry;
    let labels = labels_from(alloc, routine, body, cold)?;
    Ok(Place { body, cold, labels })
}

/// How many bytes routines take.
#[derive(Debug, Drop)]
struct Sizes {
    /// Those before the body of each.
    entries: Vec<u32>,
    /// All without the cold parts.
    total: u32,
}

/// How many bytes the body of a routine takes without its cold parts.
fn body_size_of(alloc: Global, routine: &Routine<'_>) -> Result<u32, AllocError>
    requires near { IsRoutineNear routine.now }
    requires room { EndsNear 0 routine.now.body.code }
    ensures { IfOk result
        (λ n. n ≡ body_size routine.now.layout (hot_code routine.now.body)) }
{
    hot_size(alloc, &routine.layout, routine.code(), routine.cold())
}

fn sizes_of(alloc: Global, routines: &[Routine<'_>]) -> Result<Sizes, AllocError>
    requires near { AllByRecursion IsRoutineNear routines.now }
    requires room { IsNear (spec.room routines.now) }
    ensures entries { IfOk result (λ s. s.entries.items ≡ map spec.entry_size routines.now) }
    ensures total { IfOk result (λ s. s.total ≡ spec.total routines.now) }
{
    let mut entries = Vec::with_capacity(alloc, routines.len())?;
    let mut total = 0;
    for routine in routines {
        let entry = entry_size(alloc, routine)?;
        let body = body_size_of(alloc, routine)?;
        entries.push(entry)?;
        total += entry + body;
    }
    Ok(Sizes { entries, total })
}

/// Where the routines of a program are placed, relative to the image base.
#[derive(Debug, Drop)]
pub struct Places {
    /// Where each begins, and where the last one ends.
    pub bounds: Vec<u32>,
    /// The place of each.
    pub each: Vec<Place>,
    /// Where the cold parts of the last one end.
    pub end: u32,
}

/// The places of routines one after another, of which the first one begins at `start`, with so many
/// bytes before the body of each, and whose cold parts begin at `cold`.
fn places_at(
    alloc: Global,
    routines: &[Routine<'_>],
    entries: &[u32],
    start: u32,
    cold: u32,
) -> Result<Places, AllocError>
    requires near { AllByRecursion IsRoutineNear routines.now }
    requires entries { entries.now ≡ map spec.entry_size routines.now }
    requires room { IsNear (start + spec.room routines.now) }
    requires cold { IsNear (cold + spec.room routines.now) }
    ensures bounds { IfOk result (λ v. v.bounds.items ≡ spec.bounds start routines.now) }
    ensures each { IfOk result (λ v. v.each.items ≡ places_from start cold routines.now) }
    ensures end { IfOk result (λ v. v.end ≡ cold + spec.cold_total routines.now) }
{
    let mut bounds = Vec::new(alloc);
    let mut each = Vec::new(alloc);
    let mut at = start;
    let mut end = cold;
    let mut index = 0;
    for routine in routines {
        bounds.push(at)?;
        let place = place_of(alloc, routine, entries[index], at, end)?;
        at = place.labels.end;
        end = place.labels.cold_end;
        each.push(place)?;
        index += 1;
    }
    bounds.push(at)?;
    Ok(Places { bounds, each, end })
}

/// The places of routines one after another, of which the first one begins at `start`, with all
/// cold parts behind the last one.
pub fn places_of(alloc: Global, routines: &[Routine<'_>], start: u32) -> Result<Places, AllocError>
    requires near { AllByRecursion IsRoutineNear routines.now }
    requires room { IsNear (start + 2 * spec.room routines.now) }
    ensures bounds { IfOk result (λ v. v.bounds.items ≡ spec.bounds start routines.now) }
    ensures each { IfOk result (λ v. v.each.items
        ≡ places_from start (start + spec.total routines.now) routines.now) }
    ensures end { IfOk result (λ v. v.end
        ≡ start + spec.total routines.now + spec.cold_total routines.now) }
{
    let sizes = sizes_of(alloc, routines)?;
    places_at(alloc, routines, &sizes.entries, start, start + sizes.total)
}
