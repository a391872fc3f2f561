//! The entry that covers an address, in a table whose entries needn't all be read: each is read
//! when it is asked, and refused alone.

ghost use Rattle.std.specs.Prelude.{◌≡◌, ◌<◌, length, IfSome};
ghost use Rattle.eh_tables.specs.Covering as spec;
ghost use Rattle.eh_tables.specs.EitherEntries as either;

use crate::entry::{Entry, check_range};
use crate::lookup::FunctionEntry;
use crate::refusal::TableErr;
use crate::tables::Tables;

impl<'image, 'bytes> Tables<'image, 'bytes> {
    /// Checks the ranges of all entries, and nothing else of them: none is empty, and none begins
    /// below the end of the one before. The first refusal by index is answered.
    #[tactic(auto, using(crate::proofs::RangesAscending::ranges_go_on, crate::proofs::RangesAscending::ranges_end_here))]
    pub fn check_ranges(&self) -> Result<(), TableErr>
        ensures { result ≡ spec.ranges_checked 0 0 self.now.ranges }
    {
        for index in 0..self.len() {
            let last = self.end_before(index);
            let range = self.range(index);
            if let Err(refusal) = check_range(index, last, range) {
                return Err(refusal);
            }
        }
        Ok(())
    }

    /// The index of the entry whose range covers an address, in a table whose ranges ascend.
    pub fn index_covering(&self, rva: u64) -> Option<u64>
        requires { spec.RangesAscend self.now.ranges }
        ensures within { IfSome result (λ index. index < length self.now.ranges) }
        ensures found { result ≡ spec.index_from 0 rva self.now.ranges }
    {
        let mut low = 0;
        let mut high = self.len();
        while low < high {
            let middle = low + (high - low) / 2;
            let range = self.range(middle);
            if range.end as u64 <= rva {
                low = middle + 1;
            } else if rva < range.begin as u64 {
                high = middle;
            } else {
                return Some(middle);
            }
        }
        None
    }

    /// The entry whose range covers an address, in a table whose ranges ascend. It is refused as by
    /// [`Tables::entry`]; no other entry is read.
    pub fn entry_covering(&self, rva: u64) -> Result<Option<Entry<'bytes>>, TableErr>
        requires { spec.RangesAscend self.now.ranges }
        ensures { result ≡ spec.entry_covering self.now rva }
    {
        match self.index_covering(rva) {
            None => Ok(None),
            Some(index) => match self.entry(index) {
                Ok(entry) => Ok(Some(entry)),
                Err(refusal) => Err(refusal),
            },
        }
    }

    /// The same, refused as by [`Tables::entry_of_either_version`].
    pub fn entry_covering_of_either_version(
        &self,
        rva: u64,
    ) -> Result<Option<Entry<'bytes>>, TableErr>
        requires { spec.RangesAscend self.now.ranges }
        ensures { result ≡ either.entry_covering self.now rva }
    {
        match self.index_covering(rva) {
            None => Ok(None),
            Some(index) => match self.entry_of_either_version(index) {
                Ok(entry) => Ok(Some(entry)),
                Err(refusal) => Err(refusal),
            },
        }
    }

    /// As [`Tables::entry_covering`], without the infos that its own is chained to: they aren't
    /// read.
    pub fn function_covering(&self, rva: u64) -> Result<Option<FunctionEntry<'bytes>>, TableErr>
        requires { spec.RangesAscend self.now.ranges }
        ensures { result ≡ spec.function_covering self.now rva }
    {
        match self.index_covering(rva) {
            None => Ok(None),
            Some(index) => match self.own_info(index) {
                Ok(info) => Ok(Some(FunctionEntry {
                    range: self.range(index),
                    info,
                })),
                Err(refusal) => Err(refusal),
            },
        }
    }
}
