//! Scope records that were gone over, so that those that scope tables share are gone over once.

ghost use Rattle.std.specs.Prelude.{◌≡◌, ℕ, ◌+◌, ◌*◌, ◌/◌, ◌≤◌, ◌<◌, ◌^◌, ◌⊎◌, Some, IfSome};
ghost use Rattle.std.specs.BTreeMap.{get};
ghost use Rattle.std.specs.Ordering.{nat_cmp};
ghost use Rattle.eh_tables.specs.SeenRecords as spec;
ghost use Rattle.eh_tables.specs.declared.layout.TheConstants.{SCOPE_RECORD_SIZE};

use crate::layout::SCOPE_RECORD_SIZE;
use std::alloc::{AllocError, Global};
use std::collections::BTreeMap;

/// Scope records that were gone over, by their addresses relative to the image base.
#[derive(Drop)]
pub struct SeenRecords {
    /// The places of the records, as runs: the first place of each, and the one behind its last. No
    /// two of them overlap or touch.
    pub(crate) runs: BTreeMap<u64, u64>,
}

/// The place of the record at an address. Records that follow one another have places that follow
/// one another; those at addresses with different remainders by a record's size never do.
fn place(rva: u64) -> u64
    ensures { result ≡ spec.place rva }
{
    let size = SCOPE_RECORD_SIZE as u64;
    rva % size * (1 << 60) + rva / size
}

/// The last run that begins at a place or before it.
fn last_run(runs: &BTreeMap<u64, u64>, place: u64) -> Option<(u64, u64)>
    ensures run { IfSome result (λ r. get nat_cmp runs.now r.0 ≡ Some r.1) }
    ensures begun { IfSome result (λ r. r.0 ≤ place) }
{
    let (from, to) = runs.range(..=place).next_back()?;
    Some((*from, *to))
}

/// Where the first run begins behind a place, if that is below an end.
fn next_begin(runs: &BTreeMap<u64, u64>, place: u64, end: u64) -> u64
    requires { place < end }
    ensures above { place < result }
    ensures within { result ≤ end }
{
    match runs.range(place + 1..).next() {
        Some((from, _)) => end.min(*from),
        None => end,
    }
}

impl SeenRecords {
    /// None.
    pub fn new(alloc: Global) -> SeenRecords
        ensures { (rva : ℕ) → spec.WasSeen result rva → ⊥ }
    {
        SeenRecords {
            runs: BTreeMap::new(alloc),
        }
    }

    /// The rows that are to be gone over next, from one to before another, of a table of `count`
    /// records from an address on of which those before `row` were gone over. Rows that were seen
    /// are left out, except where there are no others.
    pub fn next_unseen(&self, rva: u64, row: u64, count: u64) -> (u64, u64)
        requires fits { rva / SCOPE_RECORD_SIZE + count < 2 ^ 60 }
        requires left { row < count }
        ensures from { (row ≤ result.0) × (result.0 ≤ result.1) }
        ensures to { (row < result.1) × (result.1 ≤ count) }
        ensures seen { (k : ℕ) → row ≤ k → k < result.0
            → spec.WasSeen self.now (rva + SCOPE_RECORD_SIZE * k) }
    {
        let begin = place(rva);
        let end = begin + count;
        let at = begin + row;
        let from = match last_run(&self.runs, at) {
            Some((_, to)) if at < to => end.min(to),
            _ => at,
        };
        if from == end {
            return (count, count);
        }
        (from - begin, next_begin(&self.runs, from, end) - begin)
    }

    /// Adds the records of a table of `count` records from an address on.
    pub fn add(&mut self, rva: u64, count: u64) -> Result<(), AllocError>
        requires { rva / SCOPE_RECORD_SIZE + count < 2 ^ 60 }
        ensures { (at : ℕ) → spec.WasSeen self.new at
            → spec.WasSeen self.old at ⊎ spec.IsRecordOf rva count at }
    {
        if count == 0 {
            return Ok(());
        }
        let begin = place(rva);
        let end = begin + count;
        let mut first = begin;
        let mut last = end;
        while let Some((from, to)) = last_run(&self.runs, end) {
            if to < begin {
                break;
            }
            self.runs.remove(&from);
            first = first.min(from);
            last = last.max(to);
        }
        self.runs.insert(first, last)?;
        Ok(())
    }
}
