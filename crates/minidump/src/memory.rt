//! The ranges of the process's memory.

ghost use Rattle.std.specs.Prelude.{◌≡◌, ◌≤◌, ◌+◌, length, take, drop, IfOk, IfSome};
ghost use Rattle.minidump.specs.Memory as spec;
ghost use Rattle.minidump.specs.Memory.{IsInFile};
ghost use Rattle.minidump.specs.Streams.{AreWhole};

use crate::dump::Minidump;
use crate::layout::{
    BASE_RVA, DATA_SIZE64, DIRECTORY_ENTRY_SIZE, MEMORY_DESCRIPTOR_SIZE, MEMORY_DESCRIPTOR64_SIZE,
    MEMORY64_LIST_SIZE, NUMBER_OF_MEMORY_RANGES, START_OF_MEMORY_RANGE,
};
use crate::refusal::DumpErr;
use crate::stream_kind::StreamKind;
use crate::structures::{Location, Memory64List, MemoryDescriptor, MemoryRange, RangePlace, Table};
use pe_image::fields::u64_at;

impl<'a> Minidump<'a> {
    /// The bytes of a range that was read.
    pub fn range_bytes(&self, range: MemoryRange) -> &'a [u8]
        requires { IsInFile self.now range }
        ensures { result.now ≡ take range.size (drop range.at self.now) }
    {
        &self.file()[range.at as usize..range.at as usize + range.size as usize]
    }

    /// A range, if it lies in the file.
    fn range_in_file(&self, index: u64, range: MemoryRange) -> Result<Option<MemoryRange>, DumpErr>
        ensures answer { result ≡ spec.range_in_file self.now index range }
        ensures there { IfOk result (λ found. IfSome found (λ r. IsInFile self.now r)) }
    {
        if !self.has(range.at, range.size) {
            return Err(DumpErr::RangeTruncated { index });
        }
        Ok(Some(range))
    }

    /// The ranges of the memory list, if there is one.
    pub fn memory_list(&self, directory: Table) -> Result<Option<Table>, DumpErr>
        requires { AreWhole self.now DIRECTORY_ENTRY_SIZE directory }
        ensures answer { result ≡ spec.memory_list self.now directory }
        ensures records { IfOk result (λ found. IfSome found (λ t.
            AreWhole self.now MEMORY_DESCRIPTOR_SIZE t)) }
    {
        self.list(directory, StreamKind::MemoryList, MEMORY_DESCRIPTOR_SIZE)
    }

    /// The range of an index, if there is one. It is refused if its bytes pass the end of the file.
    pub fn range(&self, ranges: Table, index: u64) -> Result<Option<MemoryRange>, DumpErr>
        ensures answer { result ≡ spec.range self.now ranges index }
        ensures there { IfOk result (λ found. IfSome found (λ r. IsInFile self.now r)) }
    {
        let Some(at) = self.record_at(ranges, MEMORY_DESCRIPTOR_SIZE, index) else {
            return Ok(None);
        };
        let descriptor = MemoryDescriptor::read(self.file(), at);
        self.range_in_file(
            index,
            MemoryRange {
                start: descriptor.start,
                size: descriptor.memory.size as u64,
                at: descriptor.memory.rva as u64,
            },
        )
    }

    /// The 64-bit memory list at a location.
    fn memory64_list_in(&self, location: Location) -> Result<Memory64List, DumpErr>
        requires there { location.rva + location.size ≤ length self.now }
        ensures answer { result ≡ spec.memory64_list_in self.now location }
        ensures whole { IfOk result (λ l.
            AreWhole self.now MEMORY_DESCRIPTOR64_SIZE l.ranges) }
    {
        let kind = StreamKind::Memory64List;
        let held = location.size as u64;
        if held < MEMORY64_LIST_SIZE {
            return Err(DumpErr::StreamShort { kind });
        }
        let at = location.rva as usize;
        let count = u64_at(self.file(), at + NUMBER_OF_MEMORY_RANGES);
        if (held - MEMORY64_LIST_SIZE) / MEMORY_DESCRIPTOR64_SIZE < count {
            return Err(DumpErr::StreamShort { kind });
        }
        Ok(Memory64List {
            ranges: Table {
                at: location.rva as u64 + MEMORY64_LIST_SIZE,
                count,
            },
            base_rva: u64_at(self.file(), at + BASE_RVA),
        })
    }

    /// The 64-bit memory list, if there is one. The place of its first range is the index 0 at
    /// `base_rva`.
    pub fn memory64_list(&self, directory: Table) -> Result<Option<Memory64List>, DumpErr>
        requires { AreWhole self.now DIRECTORY_ENTRY_SIZE directory }
        ensures answer { result ≡ spec.memory64_list self.now directory }
        ensures records { IfOk result (λ found. IfSome found (λ l.
            AreWhole self.now MEMORY_DESCRIPTOR64_SIZE l.ranges)) }
    {
        match self.stream(directory, StreamKind::Memory64List)? {
            None => Ok(None),
            Some(location) => Ok(Some(self.memory64_list_in(location)?)),
        }
    }

    /// The range at a place of a 64-bit memory list, and the place after it, if there is one. It is
    /// refused if its bytes pass the end of the file, as those of all later ranges then do.
    pub fn range64(
        &self,
        ranges: Table,
        place: RangePlace,
    ) -> Result<Option<(MemoryRange, RangePlace)>, DumpErr>
        ensures answer { result ≡ spec.range64 self.now ranges place }
        ensures there { IfOk result (λ found. IfSome found (λ r. IsInFile self.now r.0)) }
    {
        let index = place.index;
        let at = place.at;
        let Some(offset) = self.record_at(ranges, MEMORY_DESCRIPTOR64_SIZE, index) else {
            return Ok(None);
        };
        let start = u64_at(self.file(), offset + START_OF_MEMORY_RANGE);
        let size = u64_at(self.file(), offset + DATA_SIZE64);
        if !self.has(at, size) {
            return Err(DumpErr::RangeTruncated { index });
        }
        let next = RangePlace {
            index: index + 1,
            at: at + size,
        };
        Ok(Some((MemoryRange { start, size, at }, next)))
    }
}
