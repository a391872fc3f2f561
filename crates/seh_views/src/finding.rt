//! The entry of an address.

ghost use Rattle.std.specs.Prelude.{◌≡◌, ◌<◌, length, IfOk, IfSome};
ghost use Rattle.eh_index.specs.Ordered.{IsOrdered};
ghost use Rattle.seh_views.specs.Callers as spec;
ghost use Rattle.seh_views.specs.Openings.{Gives};
ghost use Rattle.seh_views.specs.Shapes.{layout};
ghost use Rattle.seh_views.specs.Views as views;

use crate::c_types::{SehFunction, SehView, c_function, index_of, layout_of_view};
use crate::opening::{open, unchecked_table_of};
use crate::refusal::Refusal;
use eh_index::{Index, lone_function};
use eh_tables::Tables;
use pe_image::ImageView;
use std::alloc::Global;

/// An entry that is read whole.
fn whole_function(tables: &Tables<'_, '_>, number: u64) -> Result<SehFunction, Refusal>
    requires { number < length tables.now.ranges }
    ensures { result ≡ spec.function_numbered tables.now number }
{
    match tables.entry(number) {
        Ok(entry) => Ok(c_function(entry.range(), entry.info(), entry.parents())),
        Err(e) => Err(Refusal::Table(e)),
    }
}

/// An entry. Where it is chained to none, its own info alone is read.
#[tactic(auto, using(crate::proofs::Found::lone_is, crate::proofs::Found::lone_refused))]
fn function_of_number(tables: &Tables<'_, '_>, number: u64) -> Result<SehFunction, Refusal>
    requires { number < length tables.now.ranges }
    ensures { result ≡ spec.function_numbered tables.now number }
{
    match lone_function(tables, number) {
        Ok(Some(function)) => Ok(c_function(function.range, &function.info, &[])),
        Ok(None) => whole_function(tables, number),
        Err(e) => Err(Refusal::Table(e)),
    }
}

/// An entry whose range covers an address. In a table whose ranges ascend, by its index, none is
/// answered where none does.
#[tactic(auto, using(crate::proofs::Found::none, crate::proofs::Found::one, crate::proofs::Found::refused, crate::proofs::Found::found))]
fn function_covering(
    tables: &Tables<'_, '_>,
    index: &Index<'_>,
    rva: u64,
) -> Result<Option<SehFunction>, Refusal>
    ensures found { IfOk result (λ o. IfSome o (λ f. views.IsFunctionAt tables.now rva f)) }
    ensures exact { IsOrdered tables.now.ranges index.now
        → result ≡ spec.found_at tables.now rva }
{
    match index.covering(tables, rva) {
        None => Ok(None),
        Some(number) => match function_of_number(tables, number) {
            Ok(function) => Ok(Some(function)),
            Err(e) => Err(e),
        },
    }
}

fn find_within(
    image: &ImageView<'_>,
    view: &SehView<'_>,
    rva: u32,
) -> Result<Option<SehFunction>, Refusal>
    ensures found { IfOk result (λ o. IfSome o (λ f. views.IsFunctionIn image.now rva f)) }
    ensures exact { views.IsKnown view.now image.now → result ≡ spec.found_within image.now rva }
{
    match unchecked_table_of(image) {
        Ok(tables) => function_covering(&tables, &index_of(view), rva as u64),
        Err(e) => Err(e),
    }
}

/// An entry whose range covers an address.
#[tactic(auto, using(crate::proofs::Opened::gives_then, crate::proofs::Opened::gives_is, crate::proofs::Known::view_known))]
pub fn find(alloc: Global, view: &SehView<'_>, rva: u32) -> Result<Option<SehFunction>, Refusal>
    ensures found { IfOk result (λ o. IfSome o (λ f. views.IsFunctionOf view.now rva f)) }
    ensures exact { views.IsViewOf view.now
        → Gives result (spec.found_in (layout view.now) view.now.bytes.now rva) }
{
    match open(alloc, layout_of_view(view), view.bytes) {
        Ok(image) => find_within(&image, view, rva),
        Err(e) => Err(e),
    }
}
