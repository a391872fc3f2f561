//! The scope records of an entry that hold an address.

ghost use Rattle.std.specs.Prelude.{◌≡◌};
ghost use Rattle.eh_tables.specs.Covering.{RangesAscend, entry_covering};
ghost use Rattle.seh_views.specs.Openings.{of_table};
ghost use Rattle.seh_views.specs.Scopes as spec;
ghost use Rattle.seh_views.specs.Shapes.{layout};

use crate::c_types::{SehScope, SehStatus, SehView, c_scope, layout_of_view};
use crate::opening::{open_with_imports, table_of};
use crate::refusal::{MORE, NO_FUNCTION, OK, Refusal};
use eh_tables::{Entry, ScopeRecord, Scopes, Tables};
use pe_image::ImageView;
use std::alloc::Global;

/// How many scopes were written, and why no more.
#[derive(Clone, Copy, Debug, PartialEq, Eq)]
pub struct Filled {
    pub count: u64,
    pub status: SehStatus,
}

/// Whether a record holds an address.
pub fn is_around(rva: u32, row: &ScopeRecord) -> bool
    ensures { result ≡ spec.is_around rva row.now }
{
    row.begin <= rva && rva < row.end
}

/// Writes the scopes of the records that hold an address, as far as there is room.
fn fill(records: Scopes<'_>, rva: u32, scopes: &mut [SehScope]) -> Filled
    ensures { spec.filled_of scopes.new result ≡ spec.scopes_from rva 0 records.entry scopes.old }
{
    let mut count = 0;
    for row in records {
        if is_around(rva, &row) {
            if scopes.len() <= count {
                return Filled {
                    count: count as u64,
                    status: MORE,
                };
            }
            scopes[count] = c_scope(&row);
            count += 1;
        }
    }
    Filled {
        count: count as u64,
        status: OK,
    }
}

/// The entry whose range covers an address, in a table whose ranges ascend.
fn checked_entry_at<'bytes>(
    tables: &Tables<'_, 'bytes>,
    rva: u64,
) -> Result<Option<Entry<'bytes>>, Refusal>
    requires { RangesAscend tables.now.ranges }
    ensures { result ≡ of_table (entry_covering tables.now rva) }
{
    match tables.entry_covering(rva) {
        Ok(entry) => Ok(entry),
        Err(e) => Err(Refusal::Table(e)),
    }
}

fn scopes_within(
    image: &ImageView<'_>,
    rva: u32,
    scopes: &mut [SehScope],
) -> Result<Filled, Refusal>
    ensures { spec.GivesScopes scopes.old scopes.new result
        (spec.scopes_within image.now rva scopes.old) }
{
    let tables = match table_of(image) {
        Ok(tables) => tables,
        Err(e) => return Err(e),
    };
    match checked_entry_at(&tables, rva as u64) {
        Ok(Some(entry)) => Ok(fill(entry.scopes(), rva, scopes)),
        Ok(None) => Ok(Filled {
            count: 0,
            status: NO_FUNCTION,
        }),
        Err(e) => Err(e),
    }
}

/// The scope records that hold an address, of the entry that covers it.
#[tactic(auto, using(crate::proofs::Opened::gives_no_scopes))]
pub fn find_scopes(
    alloc: Global,
    view: &SehView<'_>,
    rva: u32,
    scopes: &mut [SehScope],
) -> Result<Filled, Refusal>
    ensures { spec.GivesScopes scopes.old scopes.new result
        (spec.scopes_in (layout view.now) view.now.bytes.now rva scopes.old) }
{
    match open_with_imports(alloc, layout_of_view(view), view.bytes) {
        Ok(image) => scopes_within(&image, rva, scopes),
        Err(e) => Err(e),
    }
}
