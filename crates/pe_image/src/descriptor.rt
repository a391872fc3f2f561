//! Import descriptors, each of which leads to the tables of one library.

ghost use Rattle.std.specs.Prelude.{◌≡◌, ◌≤◌, ◌<◌, ◌^◌, length};
ghost use Rattle.pe_image.specs.Field.{field};
ghost use Rattle.pe_image.specs.Imports as spec;

use crate::fields::u32_at;
use crate::layout::{
    DESCRIPTOR_SIZE, FORWARDER_CHAIN, IMPORT_ADDRESS_TABLE, IMPORT_LOOKUP_TABLE, LIBRARY_NAME,
    TIME_DATE_STAMP,
};

/// Where the lookup table of a descriptor lies: its address table, where the field is 0.
pub fn lookups(descriptor: &[u8]) -> u64
    requires { DESCRIPTOR_SIZE ≤ length descriptor.now }
    ensures value { result ≡ spec.lookups (field 4 descriptor.now IMPORT_LOOKUP_TABLE)
        (field 4 descriptor.now IMPORT_ADDRESS_TABLE) }
    ensures fits { result < 2 ^ 32 }
{
    match u32_at(descriptor, IMPORT_LOOKUP_TABLE) {
        0 => slots(descriptor),
        rva => rva as u64,
    }
}

/// Where its address table lies, whose slots are those of its imports.
pub fn slots(descriptor: &[u8]) -> u64
    requires { DESCRIPTOR_SIZE ≤ length descriptor.now }
    ensures value { result ≡ field 4 descriptor.now IMPORT_ADDRESS_TABLE }
    ensures fits { result < 2 ^ 32 }
{
    u32_at(descriptor, IMPORT_ADDRESS_TABLE) as u64
}

/// Whether all fields of a descriptor are 0.
pub fn is_zero(descriptor: &[u8]) -> bool
    requires { DESCRIPTOR_SIZE ≤ length descriptor.now }
    ensures { result ≡ spec.is_zero descriptor.now }
{
    u32_at(descriptor, IMPORT_LOOKUP_TABLE) == 0
        && u32_at(descriptor, TIME_DATE_STAMP) == 0
        && u32_at(descriptor, FORWARDER_CHAIN) == 0
        && u32_at(descriptor, LIBRARY_NAME) == 0
        && u32_at(descriptor, IMPORT_ADDRESS_TABLE) == 0
}
