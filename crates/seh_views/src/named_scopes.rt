//! The scope records of an entry whose handler the caller names.

ghost use Rattle.std.specs.Prelude.{◌≡◌, ◌<◌, ◌≤◌, ◌^◌, length, Ok, Err, IfOk, IfErr, Some};
ghost use Rattle.eh_index.specs.Ordered.{IsOrdered};
ghost use Rattle.eh_tables.specs.Scopes.{scope_record, scope_records_in};
ghost use Rattle.eh_tables.specs.Covering as covering;
ghost use Rattle.seh_views.specs.NamedScopes as spec;
ghost use Rattle.seh_views.specs.Openings.{of_table};
ghost use Rattle.seh_views.specs.Scopes as scopes_spec;
ghost use Rattle.seh_views.specs.Shapes.{layout};
ghost use Rattle.seh_views.specs.Views as views;

use crate::c_types::{SehScope, SehView, c_scope, index_of, layout_of_view};
use crate::opening::{open, unchecked_table_of};
use crate::refusal::{MORE, NO_FUNCTION, OK, Refusal};
use crate::scopes::{Filled, is_around};
use eh_index::Index;
use eh_tables::{Entry, ScopeRecord, TableErr, Tables};
use pe_image::ImageView;
use pe_image::fields::u32_at;
use std::alloc::Global;

/// The size of a record.
const RECORD_SIZE: usize = 16;

/// The bytes of the records of a scope table at an address, which begins with their count.
fn rows_at<'a>(image: &ImageView<'a>, at: u64) -> Result<&'a [u8], Refusal>
    requires { at < 2 ^ 33 }
    ensures found { IfOk result (λ b. spec.rows_at image.now at ≡ Ok b.now) }
    ensures refusal { IfErr result (λ e. spec.rows_at image.now at ≡ Err e) }
{
    let Some(head) = image.bytes(at, 4) else {
        return Err(Refusal::Table(TableErr::Truncated { rva: at }));
    };
    match image.bytes(at + 4, RECORD_SIZE as u64 * u32_at(head, 0) as u64) {
        Some(rows) => Ok(rows),
        None => Err(Refusal::Table(TableErr::Truncated { rva: at })),
    }
}

fn is_named(handler: Option<u32>, named: u32) -> bool
    ensures { result ≡ spec.is_named handler named }
{
    match handler {
        Some(rva) => rva == named,
        None => false,
    }
}

/// The bytes of the records of an entry; none where its handler is another one.
fn named_rows<'a>(
    image: &ImageView<'a>,
    entry: &Entry<'_>,
    handler: u32,
) -> Result<&'a [u8], Refusal>
    ensures found { IfOk result (λ b. spec.named_rows image.now handler entry.now ≡ Ok b.now) }
    ensures refusal { IfErr result (λ e. spec.named_rows image.now handler entry.now ≡ Err e) }
{
    let info = entry.info();
    if !is_named(info.handler(), handler) {
        return Ok(&[]);
    }
    rows_at(image, info.scope_records_rva(entry.range().unwind_info) - 4)
}

fn record(bytes: &[u8]) -> ScopeRecord
    requires { 16 ≤ length bytes.now }
    ensures { result ≡ scope_record bytes.now }
{
    ScopeRecord {
        begin: u32_at(bytes, 0),
        end: u32_at(bytes, 4),
        handler_address: u32_at(bytes, 8),
        jump_target: u32_at(bytes, 12),
    }
}

/// Writes the scopes of the records that hold an address, as far as there is room.
fn fill_rows(rows: &[u8], rva: u32, scopes: &mut [SehScope]) -> Filled
    ensures { scopes_spec.filled_of scopes.new result
        ≡ scopes_spec.scopes_from rva 0 (scope_records_in rows.now) scopes.old }
{
    let mut count = 0;
    let mut rest = rows;
    while RECORD_SIZE <= rest.len() {
        let row = record(rest);
        rest = &rest[RECORD_SIZE..];
        if is_around(rva, &row) {
            if scopes.len() <= count {
                return Filled {
                    count: count as u64,
                    status: MORE,
                };
            }
            scopes[count] = c_scope(&row);
            count += 1;
        }
    }
    Filled {
        count: count as u64,
        status: OK,
    }
}

/// The entry whose range covers an address.
#[tactic(auto, using(crate::proofs::Asked::none, crate::proofs::Asked::one, crate::proofs::Asked::refused))]
fn entry_covering<'bytes>(
    tables: &Tables<'_, 'bytes>,
    index: &Index<'_>,
    rva: u32,
) -> Result<Option<Entry<'bytes>>, Refusal>
    ensures { IsOrdered tables.now.ranges index.now
        → result ≡ of_table (covering.entry_covering tables.now rva) }
{
    match index.covering(tables, rva as u64) {
        None => Ok(None),
        Some(number) => match tables.entry(number) {
            Ok(entry) => Ok(Some(entry)),
            Err(e) => Err(Refusal::Table(e)),
        },
    }
}

fn scopes_of(
    image: &ImageView<'_>,
    entry: &Entry<'_>,
    rva: u32,
    handler: u32,
    scopes: &mut [SehScope],
) -> Result<Filled, Refusal>
    ensures { scopes_spec.GivesScopes scopes.old scopes.new result
        (spec.named_of image.now rva handler scopes.old (Some entry.now)) }
{
    match named_rows(image, entry, handler) {
        Ok(rows) => Ok(fill_rows(rows, rva, scopes)),
        Err(e) => Err(e),
    }
}

fn named_within(
    image: &ImageView<'_>,
    view: &SehView<'_>,
    rva: u32,
    handler: u32,
    scopes: &mut [SehScope],
) -> Result<Filled, Refusal>
    ensures { views.IsKnown view.now image.now → scopes_spec.GivesScopes scopes.old scopes.new
        result (spec.named_within image.now rva handler scopes.old) }
{
    let tables = match unchecked_table_of(image) {
        Ok(tables) => tables,
        Err(e) => return Err(e),
    };
    match entry_covering(&tables, &index_of(view), rva) {
        Ok(Some(entry)) => scopes_of(image, &entry, rva, handler, scopes),
        Ok(None) => Ok(Filled {
            count: 0,
            status: NO_FUNCTION,
        }),
        Err(e) => Err(e),
    }
}

/// The scope records that hold an address, of the entry that covers it, where its handler is the
/// one that is named.
#[tactic(auto, using(crate::proofs::Opened::gives_no_scopes, crate::proofs::Known::view_known))]
pub fn find_named_scopes(
    alloc: Global,
    view: &SehView<'_>,
    rva: u32,
    handler: u32,
    scopes: &mut [SehScope],
) -> Result<Filled, Refusal>
    ensures { views.IsViewOf view.now → scopes_spec.GivesScopes scopes.old scopes.new result
        (spec.named_in (layout view.now) view.now.bytes.now rva handler scopes.old) }
{
    match open(alloc, layout_of_view(view), view.bytes) {
        Ok(image) => named_within(&image, view, rva, handler, scopes),
        Err(e) => Err(e),
    }
}
