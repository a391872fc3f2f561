//! The entries of a function table, one after another.

ghost use Rattle.std.specs.Prelude.{◌≡◌, ◌<◌, Some, length, option_map, IfOk};
ghost use Rattle.std.specs.Result.{result_ok};
ghost use Rattle.eh_tables.specs.Tables.{TablesAreWhole, entries_of, entry_at};
ghost use Rattle.unwind_check.specs.EntryVerdicts.{IsEntryVerdict, AreEntryVerdicts};
ghost use Rattle.unwind_tails.specs.TailEnds.{AreEnded};
ghost use Rattle.unwind_check.specs.Verdicts.{IsVerdict};

use crate::chain::info_named;
use crate::entry::entry_fault;
use crate::rule::{EntryVerdict, Verdict};
use eh_tables::{Info, Tables};
use std::alloc::{AllocError, Global};
use unwind_tails::known_tails::KnownTails;
use x64_memory::space::CodeSpace;

/// The verdict on the entry of an index, of which `info` is the unwind info. Of the infos that this
/// is chained to none is read but that of the table's entry which it names.
fn entry_verdict<S: CodeSpace>(
    alloc: Global,
    space: &S,
    known: &mut KnownTails,
    probe: &[u8],
    tables: &Tables,
    index: u64,
    info: &Info,
) -> Result<EntryVerdict, AllocError>
    requires whole { TablesAreWhole tables.now }
    requires within { index < length tables.now.ranges }
    requires own { Some info.now
        ≡ option_map (λ e. e.info) (result_ok (entry_at tables.now index)) }
    requires known { AreEnded (S.memory space.now) known.old }
    ensures verdict { IfOk result (λ v. IfOk (entry_at tables.now index) (λ e.
        IsEntryVerdict (record {
          memory = S.memory space.now;
          probe = probe.now;
          ranges = tables.now.ranges;
        }) e v)) }
    ensures known { AreEnded (S.memory space.now) known.new }
{
    let range = tables.range(index);
    let begin = range.begin as u64;
    let end = range.end as u64;
    let named = info_named(tables, info);
    let fault = entry_fault(alloc, space, known, probe, begin, end, info, &named)?;
    Ok(EntryVerdict { begin, fault })
}

/// Whether no rule fails in any entry of an image's function table, or the first entry in which one
/// does, with its first fault. `space` is the image's own memory, from the image's first byte at
/// address 0 on, so that its addresses are RVAs: the image needs no place. `probe` has the bytes
/// of the stack probe, `__chkstk`. Refused for want of memory alone.
pub fn validate<S: CodeSpace>(
    alloc: Global,
    space: &S,
    probe: &[u8],
    tables: &Tables,
) -> Result<Verdict, AllocError>
    requires { TablesAreWhole tables.now }
    ensures { IfOk result (λ v. IsVerdict (record {
      memory = S.memory space.now;
      probe = probe.now;
      ranges = tables.now.ranges;
    }) (entries_of tables.now) v) }
{
    let mut known = KnownTails::new(alloc);
    for index in 0..tables.len() {
        let Some(info) = tables.info(index) else {
            continue;
        };
        let verdict = entry_verdict(alloc, space, &mut known, probe, tables, index, &info)?;
        match verdict.fault {
            Some(fault) => return Ok(Verdict::No { index, fault }),
            None => {}
        }
    }
    Ok(Verdict::Yes {
        entries: tables.len(),
    })
}

/// What is said of each entry of an image's function table, in the table's order, with the same
/// `space` and `probe` as [`validate`] takes. Refused for want of memory alone.
pub fn validate_entries<S: CodeSpace>(
    alloc: Global,
    space: &S,
    probe: &[u8],
    tables: &Tables,
) -> Result<Vec<EntryVerdict>, AllocError>
    requires { TablesAreWhole tables.now }
    ensures { IfOk result (λ v. AreEntryVerdicts (record {
      memory = S.memory space.now;
      probe = probe.now;
      ranges = tables.now.ranges;
    }) (entries_of tables.now) v.items) }
{
    let mut known = KnownTails::new(alloc);
    let mut verdicts = Vec::new(alloc);
    for index in 0..tables.len() {
        let Some(info) = tables.info(index) else {
            continue;
        };
        let verdict = entry_verdict(alloc, space, &mut known, probe, tables, index, &info)?;
        verdicts.push(verdict)?;
    }
    Ok(verdicts)
}
