//! The entry of an address, by an index.

ghost use Rattle.std.specs.Prelude.{◌≡◌, ◌≤◌, ◌<◌, ℕ, List, length, slice_index_or, IfSome};
ghost use Rattle.eh_tables.specs.Covering.{RangesAscend, index_from};
ghost use Rattle.eh_tables.specs.Tables.{no_range};
ghost use Rattle.eh_tables.specs.declared.range.RuntimeFunction.{RuntimeFunction};
ghost use Rattle.eh_index.specs.Indexes as spec;
ghost use Rattle.eh_index.specs.Ordered.{IsOrdered};

use eh_tables::Tables;

/// An index of a function table. It is trusted for nothing: where it isn't of that table, a look-up
/// may miss an entry.
#[derive(Clone, Copy)]
pub struct Index<'a> {
    /// For each bucket of addresses, the number of the first entry that ends above its begin.
    pub first: &'a [u32],
    /// How many low bits of an address the bucket leaves out.
    pub shift: u32,
}

/// Between which entries of so many a search has to look.
fn bounds(first: &[u32], shift: u32, count: usize, rva: u64) -> (usize, usize)
    ensures within { result.1 ≤ count }
    ensures below { (rs : List RuntimeFunction) → spec.IsIndexOf rs shift first.now → (j : ℕ)
        → j < result.0 → (slice_index_or rs j no_range).end ≤ rva }
    ensures above { (rs : List RuntimeFunction) → length rs ≡ count
        → spec.IsIndexOf rs shift first.now → RangesAscend rs → result.1 < count
        → rva < (slice_index_or rs result.1 no_range).begin }
{
    if shift >= 32 {
        return (0, count);
    }
    let bucket = (rva >> shift) as usize;
    if bucket >= first.len() || first.len() - bucket < 2 {
        return (0, count);
    }
    let last = first[bucket + 1] as usize;
    (
        first[bucket] as usize,
        if last < count { last + 1 } else { count },
    )
}

impl<'a> Index<'a> {
    /// The number of an entry whose range covers an address, which is relative to the image base.
    pub fn covering(&self, tables: &Tables<'_, '_>, rva: u64) -> Option<u64>
        ensures row { IfSome result (λ k. spec.IsRowFor rva tables.now.ranges k) }
        ensures exact { IsOrdered tables.now.ranges self.now
            → result ≡ index_from 0 rva tables.now.ranges }
    {
        let (begin, end) = bounds(self.first, self.shift, tables.len() as usize, rva);
        let mut low = begin;
        let mut high = end;
        while low < high {
            let middle = low + (high - low) / 2;
            let range = tables.range(middle as u64);
            if range.end as u64 <= rva {
                low = middle + 1;
            } else if rva < range.begin as u64 {
                high = middle;
            } else {
                return Some(middle as u64);
            }
        }
        None
    }
}
