//! Little-endian fields: their numbers by their places, and their bytes.

ghost use Rattle.std.specs.Prelude.{◌≡◌, ◌≤◌, ◌+◌, length};
ghost use Rattle.pe_image.specs.Field.{field};
ghost use Rattle.pe_image.specs.Numbers as spec;

use byteorder::{ByteOrder, LittleEndian};

/// The number of 16 bits at a place.
pub fn u16_at(bytes: &[u8], at: usize) -> u16
    requires { at + 2 ≤ length bytes.now }
    ensures { result ≡ field 2 bytes.now at }
{
    LittleEndian::read_u16(&bytes[at..])
}

/// The number of 32 bits at a place.
pub fn u32_at(bytes: &[u8], at: usize) -> u32
    requires { at + 4 ≤ length bytes.now }
    ensures { result ≡ field 4 bytes.now at }
{
    LittleEndian::read_u32(&bytes[at..])
}

/// The number of 64 bits at a place.
pub fn u64_at(bytes: &[u8], at: usize) -> u64
    requires { at + 8 ≤ length bytes.now }
    ensures { result ≡ field 8 bytes.now at }
{
    LittleEndian::read_u64(&bytes[at..])
}

/// The bytes of a number of 16 bits.
#[tactic(auto, unfolding(crate::specs::Numbers::u16))]
pub fn u16_bytes(value: u16) -> [u8; 2]
    ensures { result ≡ spec.u16 value }
{
    value.to_le_bytes()
}

/// The bytes of a number of 32 bits.
#[tactic(auto, unfolding(crate::specs::Numbers::u32))]
pub fn u32_bytes(value: u32) -> [u8; 4]
    ensures { result ≡ spec.u32 value }
{
    value.to_le_bytes()
}

/// The bytes of a number of 64 bits.
#[tactic(auto, unfolding(crate::specs::Numbers::u64))]
pub fn u64_bytes(value: u64) -> [u8; 8]
    ensures { result ≡ spec.u64 value }
{
    value.to_le_bytes()
}
