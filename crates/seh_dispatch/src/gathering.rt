//! The funclets of an image, gathered from the rows of its function table.

ghost use Rattle.std.specs.Prelude.{◌≡◌, ◌-◌, ◌<◌, ◌==◌, ◌^◌, length, slice_index_or, IfOk, OnOk};
ghost use Rattle.eh_tables.specs.Records.{AreAt, scope_records_rva};
ghost use Rattle.eh_tables.specs.Tables.{TablesAreWhole, entries_of, no_range};
ghost use Rattle.eh_tables.specs.declared.layout.TheConstants.{EXCEPTION_EXECUTE_HANDLER};
ghost use Rattle.host_model.specs.Funclets as spec;
ghost use Rattle.seh_dispatch.specs.FuncletLists.{AreAscending, funclets_of};
ghost use Rattle.seh_dispatch.specs.Seen.{AreRowsSeen};

use eh_tables::{EXCEPTION_EXECUTE_HANDLER, Info, ScopeRecord, Scopes, SeenRecords, Tables};
use host_model::funclet::Funclet;
use std::alloc::{AllocError, Global};
use std::collections::{BTreeMap, BTreeSet};

/// Adds a funclet by its address. One of that address that is there already stays.
#[tactic(auto, using(crate::proofs::FuncletInsertion::inserting))]
fn insert(
    gathered: &mut BTreeMap<u32, bool>,
    address: u32,
    is_finally: bool,
) -> Result<(), AllocError>
    requires { AreAscending 0 (funclets_of gathered.old.entries) }
    ensures { OnOk result (funclets_of gathered.new.entries
        ≡ spec.inserted address is_finally (funclets_of gathered.old.entries)) }
{
    if gathered.contains_key(&address) {
        return Ok(());
    }
    gathered.insert(address, is_finally)?;
    Ok(())
}

fn add_row(gathered: &mut BTreeMap<u32, bool>, row: &ScopeRecord) -> Result<(), AllocError>
    requires { AreAscending 0 (funclets_of gathered.old.entries) }
    ensures { OnOk result (funclets_of gathered.new.entries
        ≡ spec.with_row row.now (funclets_of gathered.old.entries)
        (row.now.handler_address == EXCEPTION_EXECUTE_HANDLER)) }
{
    if row.handler_address == EXCEPTION_EXECUTE_HANDLER {
        Ok(())
    } else {
        insert(gathered, row.handler_address, row.jump_target == 0)
    }
}

#[tactic(auto, using(crate::proofs::FuncletOrder::ascending))]
fn add_rows(gathered: &mut BTreeMap<u32, bool>, rows: Scopes) -> Result<(), AllocError>
    requires { AreAscending 0 (funclets_of gathered.old.entries) }
    ensures items { OnOk result (funclets_of gathered.new.entries
        ≡ spec.of_rows rows.entry (funclets_of gathered.old.entries)) }
    ensures ascending { OnOk result (AreAscending 0 (funclets_of gathered.new.entries)) }
{
    for row in rows {
        add_row(gathered, &row)?;
    }
    Ok(())
}

/// Adds the rows of the info of an entry, except those that were seen. Then all of them are.
fn add_unseen(
    gathered: &mut BTreeMap<u32, bool>,
    seen: &mut SeenRecords,
    tables: &Tables,
    index: u64,
    info: &Info,
) -> Result<(), AllocError>
    requires within { index < length tables.now.ranges }
    requires placed { AreAt tables.now.image (scope_records_rva
        (slice_index_or tables.now.ranges index no_range).unwind_info info.now) info.now.scopes }
    requires ascending { AreAscending 0 (funclets_of gathered.old.entries) }
    requires seen { AreRowsSeen tables.now.image seen.old (funclets_of gathered.old.entries) }
    ensures items { OnOk result (funclets_of gathered.new.entries
        ≡ spec.of_rows info.now.scopes (funclets_of gathered.old.entries)) }
    ensures ascending { OnOk result (AreAscending 0 (funclets_of gathered.new.entries)) }
    ensures seen { OnOk result
        (AreRowsSeen tables.now.image seen.new (funclets_of gathered.new.entries)) }
{
    let at = info.scope_records_rva(tables.range(index).unwind_info);
    let count = info.scopes().len();
    let mut row = 0;
    while row < count {
        let (from, to) = seen.next_unseen(at, row, count);
        add_rows(gathered, info.scopes().from_row(from).first_rows(to - from))?;
        row = to;
    }
    seen.add(at, count)?;
    Ok(())
}

/// The kinds of an image's funclets by their addresses. The rows of an unwind info that entries
/// share are gone over once, and so are rows that infos share.
#[tactic(auto, using(crate::proofs::TableEntries::entry_steps, crate::proofs::SeenInfos::nothing_seen, crate::proofs::SeenRows::no_row_seen, crate::proofs::FuncletOrder::ascending))]
fn gather(alloc: Global, tables: &Tables) -> Result<BTreeMap<u32, bool>, AllocError>
    requires { TablesAreWhole tables.now }
    ensures { IfOk result (λ m. funclets_of m.entries ≡ spec.funclets (entries_of tables.now)) }
{
    let mut gathered = BTreeMap::new(alloc);
    let mut infos = BTreeSet::new(alloc);
    let mut seen = SeenRecords::new(alloc);
    for index in 0..tables.len() {
        let range = tables.range(index);
        if infos.contains(&range.unwind_info) {
            continue;
        }
        let Some(info) = tables.info(index) else {
            continue;
        };
        add_unseen(&mut gathered, &mut seen, tables, index, &info)?;
        infos.insert(range.unwind_info)?;
    }
    Ok(gathered)
}

/// Lists what was gathered. There is no memory for more funclets than 32 bits can number.
fn list(alloc: Global, gathered: &BTreeMap<u32, bool>) -> Result<Vec<Funclet>, AllocError>
    ensures items { IfOk result (λ v. v.items ≡ funclets_of gathered.now.entries) }
    ensures few { IfOk result (λ v. length v.items < 2 ^ 32 - 1) }
{
    if gathered.len() >= 0xFFFF_FFFF {
        return Err(AllocError);
    }
    let mut funclets = Vec::new(alloc);
    for (address, is_finally) in gathered {
        funclets.push(Funclet {
            address: *address,
            is_finally: *is_finally,
        })?;
    }
    Ok(funclets)
}

/// The funclets of an image whose function table was read whole.
pub fn funclets_in(alloc: Global, tables: &Tables) -> Result<Vec<Funclet>, AllocError>
    requires { TablesAreWhole tables.now }
    ensures items { IfOk result (λ v. v.items ≡ spec.funclets (entries_of tables.now)) }
    ensures few { IfOk result (λ v. length v.items < 2 ^ 32 - 1) }
{
    let gathered = gather(alloc, tables)?;
    list(alloc, &gathered)
}
