//! The header, the directory and its streams.

ghost use Rattle.std.specs.Prelude.{◌≡◌, ◌≤◌, ◌+◌, length, IfOk, IfSome};
ghost use Rattle.pe_image.specs.Field.{is_there};
ghost use Rattle.minidump.specs.Lists as lists;
ghost use Rattle.minidump.specs.Streams as spec;

use crate::dump::Minidump;
use crate::layout::{
    COUNT_SIZE, DATA_SIZE, DIRECTORY_ENTRY_SIZE, HEADER_SIZE, MINIDUMP_SIGNATURE, MINIDUMP_VERSION,
    NUMBER_OF_STREAMS, RVA, SIGNATURE, STREAM_DIRECTORY_RVA, STREAM_LOCATION, STREAM_TYPE, VERSION,
};
use crate::refusal::DumpErr;
use crate::stream_kind::StreamKind;
use crate::structures::{Location, Stream, Table};
use pe_image::fields::{u16_at, u32_at};

impl Location {
    /// The location at an offset.
    pub fn read(bytes: &[u8], at: usize) -> Location
        requires { at + 8 ≤ length bytes.now }
        ensures { result ≡ spec.location_at bytes.now at }
    {
        Location {
            size: u32_at(bytes, at + DATA_SIZE),
            rva: u32_at(bytes, at + RVA),
        }
    }
}

impl Stream {
    /// The entry of the directory at an offset.
    fn read(bytes: &[u8], at: usize) -> Stream
        requires { at + DIRECTORY_ENTRY_SIZE ≤ length bytes.now }
        ensures { result ≡ spec.stream_at bytes.now at }
    {
        Stream {
            stream_type: u32_at(bytes, at + STREAM_TYPE),
            location: Location::read(bytes, at + STREAM_LOCATION),
        }
    }
}

impl<'a> Minidump<'a> {
    /// Whether a location lies in the file.
    pub fn has_location(&self, location: Location) -> bool
        ensures { result ≡ spec.is_in_file self.now location }
    {
        self.has(location.rva as u64, location.size as u64)
    }

    /// Checks the header, from its front: it is there, its signature is `MDMP`, the low 16 bits of
    /// its version are those of the format, and the directory lies in the file. Answers where the
    /// entries of the directory are.
    pub fn directory(&self) -> Result<Table, DumpErr>
        ensures answer { result ≡ spec.directory self.now }
        ensures whole { IfOk result (λ t. spec.AreWhole self.now DIRECTORY_ENTRY_SIZE t) }
    {
        if !self.has(0, HEADER_SIZE) {
            return Err(DumpErr::HeaderTruncated);
        }
        let bytes = self.file();
        let signature = u32_at(bytes, SIGNATURE);
        if signature != MINIDUMP_SIGNATURE {
            let found = signature as u64;
            return Err(DumpErr::Signature { found });
        }
        let version = u16_at(bytes, VERSION);
        if version != MINIDUMP_VERSION {
            let found = version as u64;
            return Err(DumpErr::Version { found });
        }
        let count = u32_at(bytes, NUMBER_OF_STREAMS) as u64;
        let at = u32_at(bytes, STREAM_DIRECTORY_RVA) as u64;
        if !self.has(at, DIRECTORY_ENTRY_SIZE * count) {
            return Err(DumpErr::DirectoryTruncated { at });
        }
        Ok(Table { at, count })
    }

    /// The first stream of a kind that the directory names.
    fn first_stream(&self, directory: Table, kind: StreamKind) -> Option<Stream>
        requires { spec.AreWhole self.now DIRECTORY_ENTRY_SIZE directory }
        ensures { result ≡ spec.first_stream self.now directory kind }
    {
        let stream_type = kind.stream_type();
        // no offset of an entry passes it
        let _end = self.size();
        for index in 0..directory.count {
            let at = directory.at + DIRECTORY_ENTRY_SIZE * index;
            let stream = Stream::read(self.file(), at as usize);
            if stream.stream_type == stream_type {
                return Some(stream);
            }
        }
        None
    }

    /// Where the stream of a kind lies, by the directory; none if there is none. The first of that
    /// kind counts, and is refused if it passes the end of the file.
    pub fn stream(&self, directory: Table, kind: StreamKind) -> Result<Option<Location>, DumpErr>
        requires { spec.AreWhole self.now DIRECTORY_ENTRY_SIZE directory }
        ensures answer { result ≡ spec.stream self.now directory kind }
        ensures there { IfOk result (λ found. IfSome found (λ l.
            l.rva + l.size ≤ length self.now)) }
    {
        match self.first_stream(directory, kind) {
            None => Ok(None),
            Some(stream) => {
                if !self.has_location(stream.location) {
                    return Err(DumpErr::StreamTruncated { kind });
                }
                Ok(Some(stream.location))
            }
        }
    }

    /// The records of the list at a location: a count, and that many records of one size.
    fn list_in(&self, kind: StreamKind, size: u64, location: Location) -> Result<Table, DumpErr>
        requires there { location.rva + location.size ≤ length self.now }
        requires small { size ≤ 256 }
        ensures answer { result ≡ lists.list_in self.now kind size location }
        ensures whole { IfOk result (λ t. spec.AreWhole self.now size t) }
    {
        let held = location.size as u64;
        if held < COUNT_SIZE {
            return Err(DumpErr::StreamShort { kind });
        }
        let count = u32_at(self.file(), location.rva as usize) as u64;
        if held < COUNT_SIZE + size * count {
            return Err(DumpErr::StreamShort { kind });
        }
        Ok(Table {
            at: location.rva as u64 + COUNT_SIZE,
            count,
        })
    }

    /// The records of the list of a kind, if there is one.
    pub(crate) fn list(
        &self,
        directory: Table,
        kind: StreamKind,
        size: u64,
    ) -> Result<Option<Table>, DumpErr>
        requires whole { spec.AreWhole self.now DIRECTORY_ENTRY_SIZE directory }
        requires small { size ≤ 256 }
        ensures answer { result ≡ lists.list self.now directory kind size }
        ensures records { IfOk result (λ found. IfSome found (λ t.
            spec.AreWhole self.now size t)) }
    {
        match self.stream(directory, kind)? {
            None => Ok(None),
            Some(location) => Ok(Some(self.list_in(kind, size, location)?)),
        }
    }
}
