//! Bytes as words of hexadecimal digits, as the tables have them.

use test_tables::words::number_of;

/// How many bytes a row has at most, with one after them.
const ROOM: usize = 16;

/// The bytes of a row.
#[derive(Clone, Copy)]
pub struct Code {
    bytes: [u8; ROOM],
    count: usize,
}

impl Code {
    /// How many bytes there are.
    pub fn count(&self) -> usize {
        self.count
    }

    /// The first bytes, so many.
    pub fn front(&self, count: usize) -> &[u8] {
        self.bytes.get(..count).unwrap_or(&[])
    }

    /// With a byte after them.
    pub fn push(&mut self, byte: u8) {
        if let Some(place) = self.bytes.get_mut(self.count) {
            *place = byte;
            self.count = self.count.saturating_add(1);
        }
    }
}

/// The bytes that words spell, up to the first that spells none.
pub fn code_of(words: &str) -> Code {
    let mut code = Code {
        bytes: [0; ROOM],
        count: 0,
    };
    for word in words.split(' ') {
        match number_of(word) {
            Some(value) if value < 256 => code.push(value as u8),
            _ => return code,
        }
    }
    code
}
