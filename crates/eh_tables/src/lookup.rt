//! The entry whose range covers an address.

ghost use Rattle.std.specs.Prelude.{◌≡◌, ◌+◌, ◌-◌, ◌*◌, ◌≤◌, ◌<◌, ◌^◌, length, option_map, IfSome};
ghost use Rattle.eh_tables.specs.Found.{function_entry};
ghost use Rattle.eh_tables.specs.Tables as spec;

use crate::counted_ranges::CountedRanges;
use crate::entry::Entry;
use crate::info::Info;
use crate::range::RuntimeFunction;
use crate::tables::Tables;
use seh_num::steps::Steps;
use std::marker::Brand;
use std::sync::ledger::{Blank, Ledger};

/// An entry of a function table with its own unwind info, as a look-up finds it.
#[derive(Drop)]
pub struct FunctionEntry<'a> {
    /// The range of its code, and where its unwind info lies.
    pub range: RuntimeFunction,
    /// Its own unwind info.
    pub info: Info<'a>,
}

impl<'image, 'bytes> Tables<'image, 'bytes> {
    /// The entry whose range covers an address, in a table that was read whole.
    pub fn lookup(&self, rva: u64) -> Option<Entry<'bytes>>
        requires { spec.TablesAreWhole self.now }
        ensures { result ≡ spec.holding rva (spec.entries_of self.now) }
    {
        lookup_with::<Brand>(self, rva, Blank::new(1))
    }

    /// The same, with its steps counted: a step reads the range of one entry. The search sees
    /// nothing of the table but its length and these ranges, and the entry that it finds is read
    /// after it.
    pub fn lookup_counted<L: Ledger>(&self, rva: u64, steps: &mut Steps<L>) -> Option<Entry<'bytes>>
        requires { spec.TablesAreWhole self.now }
        ensures found { result ≡ spec.holding rva (spec.entries_of self.now) }
        ensures cost { 2 ^ (steps.new - steps.old) ≤ 2 * length self.now.ranges + 1 }
    {
        let index = covering(&CountedRanges::of(self), rva, steps)?;
        self.known_entry(index)
    }

    /// The entry whose range covers an address, in a table that was read whole, without the infos
    /// that its own is chained to.
    #[tactic(auto, using(crate::proofs::KnownEntries::found_entry, crate::proofs::KnownEntries::no_entry))]
    pub fn find(&self, rva: u64) -> Option<FunctionEntry<'bytes>>
        requires { spec.TablesAreWhole self.now }
        ensures { result ≡ option_map function_entry
            (spec.holding rva (spec.entries_of self.now)) }
    {
        let index = index_with::<Brand>(self, rva, Blank::new(1))?;
        let info = self.info(index)?;
        Some(FunctionEntry {
            range: self.range(index),
            info,
        })
    }
}

/// The index of the range that covers an address.
fn covering<L: Ledger>(
    ranges: &CountedRanges<'_, '_, '_>,
    rva: u64,
    steps: &mut Steps<L>,
) -> Option<u64>
    requires { spec.TablesAreWhole ranges.now }
    ensures within { IfSome result (λ index. index < length ranges.now.ranges) }
    ensures found { spec.entry_found ranges.now result
        ≡ spec.holding rva (spec.entries_of ranges.now) }
    ensures cost { 2 ^ (steps.new - steps.old) ≤ 2 * length ranges.now.ranges + 1 }
{
    let mut low = 0;
    let mut high = ranges.len();
    while low < high {
        let middle = low + (high - low) / 2;
        let range = ranges.range(middle, steps);
        if range.end as u64 <= rva {
            low = middle + 1;
        } else if rva < range.begin as u64 {
            high = middle;
        } else {
            return Some(middle);
        }
    }
    None
}

fn index_with<L: Ledger>(tables: &Tables<'_, '_>, rva: u64, blank: Blank) -> Option<u64>
    requires whole { spec.TablesAreWhole tables.now }
    requires name { blank.name ≡ L.name }
    requires parts { blank.parts ≡ L.parts }
    requires some { 0 < L.parts }
    ensures within { IfSome result (λ index. index < length tables.now.ranges) }
    ensures found { spec.entry_found tables.now result
        ≡ spec.holding rva (spec.entries_of tables.now) }
{
    let mut steps = Steps::<L>::new(blank);
    covering(&CountedRanges::of(tables), rva, &mut steps)
}

fn lookup_with<'bytes, L: Ledger>(
    tables: &Tables<'_, 'bytes>,
    rva: u64,
    blank: Blank,
) -> Option<Entry<'bytes>>
    requires whole { spec.TablesAreWhole tables.now }
    requires name { blank.name ≡ L.name }
    requires parts { blank.parts ≡ L.parts }
    requires some { 0 < L.parts }
    ensures { result ≡ spec.holding rva (spec.entries_of tables.now) }
{
    let mut steps = Steps::<L>::new(blank);
    tables.lookup_counted(rva, &mut steps)
}
