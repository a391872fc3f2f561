//! Numbers and bytes as words of hexadecimal digits, as tables of tests have them.

use std::alloc::{AllocError, Global};

/// The number that a word spells, modulo 2^64; of a word with anything but digits,
/// nothing.
pub fn number_of(word: &str) -> Option<u64> {
    let mut value = 0u64;
    for byte in word.bytes() {
        let digit = match byte {
            b'0'..=b'9' => byte - b'0',
            b'A'..=b'F' => byte - b'A' + 10,
            b'a'..=b'f' => byte - b'a' + 10,
            _ => return None,
        };
        value = value.wrapping_mul(16).wrapping_add(digit as u64);
    }
    Some(value)
}

/// The bytes that words spell, up to the first that spells none.
pub fn bytes_of(alloc: Global, words: &str) -> Result<Vec<u8>, AllocError> {
    let mut bytes = Vec::new(alloc);
    for word in words.split_ascii_whitespace() {
        match number_of(word) {
            Some(value) if value < 256 => bytes.push(value as u8)?,
            _ => return Ok(bytes),
        }
    }
    Ok(bytes)
}

/// Puts the bytes that words spell where there is room for them, up to the first word that spells
/// none, and counts them.
pub fn put_bytes(words: &str, room: &mut [u8]) -> usize {
    let mut count = 0usize;
    for (place, word) in room.iter_mut().zip(words.split_ascii_whitespace()) {
        match number_of(word) {
            Some(value) if value < 256 => *place = value as u8,
            _ => return count,
        }
        count = count.saturating_add(1);
    }
    count
}

/// Whether bytes are those that words spell.
pub fn are_spelled(bytes: &[u8], words: &str) -> bool {
    let mut words = words.split_ascii_whitespace();
    for byte in bytes {
        match words.next() {
            Some(word) if number_of(word) == Some(u64::from(*byte)) => (),
            _ => return false,
        }
    }
    words.next().is_none()
}
