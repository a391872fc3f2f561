//! Searches.

ghost use Rattle.std.specs.Prelude.{◌≡◌, ◌+◌, ◌^◌, ◌<◌};
ghost use Rattle.eh_tables.specs.Tables.{TablesAreWhole};
ghost use Rattle.virtual_unwind.specs.CallerOf.{functions_of};
ghost use Rattle.seh_walk.specs.Walk as walk;
ghost use Rattle.seh_search.specs.Search as spec;

use crate::search_result::SearchResult;
use eh_tables::{EXCEPTION_EXECUTE_HANDLER, ScopeRecord, Tables};
use seh_records::DispatchRecord;
use seh_walk::asked::first_searched;
use seh_walk::walk::{WalkItem, WalkState, visit};
use x64_machine::context::Context;
use x64_memory::space::AddressSpace;

fn chosen(base: u64, frame: u64, context: &Context, k: u64, row: &ScopeRecord) -> SearchResult
    requires { k + 1 < 2 ^ 64 }
    ensures { result ≡ spec.chosen base frame context.now (k, row.now) }
{
    if row.handler_address == EXCEPTION_EXECUTE_HANDLER {
        SearchResult::Accept {
            frame,
            target: base.wrapping_add(row.jump_target as u64),
        }
    } else {
        SearchResult::Filter {
            handler: base.wrapping_add(row.handler_address as u64),
            frame,
            row: k + 1,
            walk: *context,
        }
    }
}

/// What one step of the walk decides, or the state that the walk continues from.
#[tactic(auto, using(seh_walk::proofs::FoundRows::asked_is))]
fn decide<S: AddressSpace>(
    tables: &Tables,
    space: &S,
    at: &WalkState,
) -> Result<WalkState, SearchResult>
    requires { TablesAreWhole tables.now }
    ensures { result ≡ spec.decided (functions_of tables.now) at.now
        (walk.visited (functions_of tables.now) (S.memory space.now) at.now) }
{
    let visit = visit(tables, space, at);
    match visit.item {
        WalkItem::Over => Err(SearchResult::Nobody),
        WalkItem::Broken(cause) => Err(SearchResult::Stop(cause)),
        WalkItem::Past(next) => Ok(next),
        WalkItem::Frame(caller, next) => {
            let rva = at.context.rip.wrapping_sub(tables.base());
            match first_searched(visit.found.as_ref(), caller.in_body, rva, at.row) {
                Some((k, row)) => { Err(chosen(tables.base(), caller.frame, &at.context, k, &row)) }
                None => Ok(next),
            }
        }
    }
}

/// The search that a record keeps, from its walk's state and next row on: the first scope record
/// that is asked there and isn't that of a `__finally` block. A row whose handler is 1 accepts, any
/// other names a filter.
#[tactic(auto, using(crate::proofs::Searches::search_steps))]
pub fn search<S: AddressSpace>(
    tables: &Tables,
    space: &S,
    dispatch: &DispatchRecord,
) -> SearchResult
    requires { TablesAreWhole tables.now }
    ensures { result ≡ spec.search walk.steps (functions_of tables.now) (S.memory space.now)
        (walk.walk_in dispatch.now) }
{
    let mut at = WalkState {
        context: dispatch.walk,
        row: dispatch.row,
    };
    for _i in 0..0xFFFF_FFFF_FFFF_FFFFu64 {
        match decide(tables, space, &at) {
            Ok(next) => at = next,
            Err(found) => return found,
        }
    }
    SearchResult::Nobody
}
