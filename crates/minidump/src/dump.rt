//! The bytes of a minidump.

ghost use Rattle.std.specs.Prelude.{◌≡◌, ◌<◌, ◌^◌, IfSome, length, option_map};
ghost use Rattle.pe_image.specs.Field.{is_there};
ghost use Rattle.minidump.specs.Lists.{record_at};
ghost use Rattle.minidump.specs.Streams as spec;

use crate::structures::Table;
use std::marker::Model;

/// A minidump. A clause sees its bytes.
#[derive(Drop)]
pub struct Minidump<'a> {
    bytes: &'a [u8],
}

impl<'a> Model for Minidump<'a> {
    ghost use Rattle.std.specs.Prelude.{ℕ, List};

    ghost Value = { List ℕ };

    ghost view = { λ d. d.bytes.now };
}

impl<'a> Minidump<'a> {
    /// The minidump of a file's bytes, of which none is read yet.
    pub fn new(bytes: &'a [u8]) -> Minidump<'a>
        ensures { result ≡ bytes.now }
    {
        Minidump { bytes }
    }

    /// All bytes of the file.
    pub fn file(&self) -> &'a [u8]
        ensures { result.now ≡ self.now }
    {
        self.bytes
    }

    /// How many bytes the file has.
    pub fn size(&self) -> u64
        ensures { result ≡ length self.now }
    {
        self.bytes.len() as u64
    }

    /// Whether the file has so many bytes from an offset on.
    pub fn has(&self, at: u64, size: u64) -> bool
        ensures { result ≡ is_there self.now at size }
    {
        let end = self.size();
        size <= end && at <= end - size
    }

    /// So many bytes from an offset on, if the file has them.
    pub fn bytes(&self, at: u64, size: u64) -> Option<&'a [u8]>
        ensures { option_map (λ b. b.now) result ≡ spec.bytes_at self.now at size }
    {
        if self.has(at, size) {
            Some(&self.bytes[at as usize..at as usize + size as usize])
        } else {
            None
        }
    }

    /// The offset of the record of an index, of records of that size, if the table has it and the
    /// file holds it.
    pub fn record_at(&self, table: Table, size: u64, index: u64) -> Option<usize>
        ensures { result ≡ record_at self.now table size index }
    {
        if table.count <= index {
            return None;
        }
        // an offset from 2^64 on lies in no file
        let _end = self.size();
        let at = size.checked_mul(index)?.checked_add(table.at)?;
        if self.has(at, size) {
            Some(at as usize)
        } else {
            None
        }
    }
}
