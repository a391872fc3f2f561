//! The tables by which an image imports the services of its host.

ghost use Rattle.std.specs.Prelude.{◌≡◌, ◌+◌, ◌^◌, ◌<◌, ◌≤◌, ◌++◌, OnOk, IfOk, length};
ghost use Rattle.std.specs.List.{flat_map};
ghost use Rattle.pe_write.specs.ImportTables as spec;

use crate::put::{put_u32, put_u64, put_zeros};
use host_layout::imported::ImportedService;
use host_layout::name::LIBRARY;
use pe_image::layout::{
    DESCRIPTOR_SIZE, HINT_SIZE, LIBRARY_NAME, LOOKUP_ENTRY_SIZE, TIME_DATE_STAMP,
};
use std::alloc::{AllocError, Global};

/// The descriptor of the library, and one of zeros, after which the lookup table comes.
pub const DESCRIPTORS_SIZE: u32 = 2 * DESCRIPTOR_SIZE as u32;

/// The fields TimeDateStamp and ForwarderChain of a descriptor, which are 0.
pub const UNREAD_FIELDS_SIZE: usize = LIBRARY_NAME - TIME_DATE_STAMP;

/// The place of a service among those that a program imports, fewer than 65,536, and how many they
/// are where it isn't there.
pub fn place_of(imports: &[ImportedService], service: ImportedService) -> u32
    requires { length imports.now < 2 ^ 16 }
    ensures value { result ≡ spec.place_of imports.now service }
    ensures small { result ≤ length imports.now }
{
    let mut place = 0;
    for other in imports {
        if other.number() == service.number() {
            return place;
        }
        place += 1;
    }
    place
}

/// How many bytes the lookup table takes, or the slots: an entry for each service, and one of 0.
pub fn addresses_size(imports: &[ImportedService]) -> u32
    requires { length imports.now < 2 ^ 16 }
    ensures value { result ≡ spec.addresses_size imports.now }
    ensures small { result ≤ 2 ^ 19 }
{
    LOOKUP_ENTRY_SIZE as u32 * (imports.len() as u32 + 1)
}

/// How far the slots lie after the beginning of the tables.
pub fn slots_offset(imports: &[ImportedService]) -> u32
    requires { length imports.now < 2 ^ 16 }
    ensures value { result ≡ spec.slots_offset imports.now }
    ensures small { result ≤ 2 ^ 20 }
{
    DESCRIPTORS_SIZE + addresses_size(imports)
}

/// How far the names lie after it, with their hints.
fn names_offset(imports: &[ImportedService]) -> u32
    requires { length imports.now < 2 ^ 16 }
    ensures value { result ≡ spec.names_offset imports.now }
    ensures small { result ≤ 2 ^ 21 }
{
    slots_offset(imports) + addresses_size(imports)
}

/// How far the slot of a service, of eight bytes, lies after the beginning of `.rdata`, for a
/// program that imports these services, fewer than 65,536.
pub fn slot_of(imports: &[ImportedService], service: ImportedService) -> u32
    requires { length imports.now < 2 ^ 16 }
    ensures value { result ≡ spec.slot_of imports.now service }
    ensures fits { result ≤ 2 ^ 21 }
{
    slots_offset(imports) + LOOKUP_ENTRY_SIZE as u32 * place_of(imports, service)
}

/// How many bytes the name of a service takes, with its hint and filled up.
fn hint_name_size(service: ImportedService) -> u64
    ensures value { result ≡ spec.hint_name_size service }
    ensures fits { result < 256 }
{
    let len = service.name().len() as u64;
    HINT_SIZE as u64 + len + 1 + (len + 1) % 2
}

/// How many bytes the names take.
fn names_size(imports: &[ImportedService]) -> u32
    requires { length imports.now < 2 ^ 16 }
    ensures value { result ≡ spec.names_size imports.now }
    ensures small { result ≤ 2 ^ 24 }
{
    let mut size = 0;
    for service in imports {
        size += hint_name_size(*service) as u32;
    }
    size
}

/// How far the library's name lies after the beginning of the tables.
fn library_offset(imports: &[ImportedService]) -> u32
    requires { length imports.now < 2 ^ 16 }
    ensures value { result ≡ spec.library_offset imports.now }
    ensures small { result ≤ 2 ^ 25 }
{
    names_offset(imports) + names_size(imports)
}

/// How many bytes the tables of a program take that imports these services, fewer than 65,536.
pub fn tables_size(imports: &[ImportedService]) -> u32
    requires { length imports.now < 2 ^ 16 }
    ensures value { result ≡ spec.tables_size imports.now }
    ensures small { result ≤ 2 ^ 26 }
{
    library_offset(imports) + LIBRARY.len() as u32 + 1
}

#[tactic(auto, unfolding(crate::specs::ImportTables::hint_name), using(crate::proofs::Pieces::pieces))]
fn put_hint_name(out: &mut Vec<u8>, service: ImportedService) -> Result<(), AllocError>
    ensures { OnOk result (out.new.items ≡ out.old.items ++ spec.hint_name service) }
{
    let name = service.name();
    put_zeros(out, HINT_SIZE)?;
    out.extend_from_slice(name)?;
    put_zeros(out, 1 + (name.len() + 1) % 2)
}

/// Writes where the name of each service is, of which the first is there, and 0.
fn put_addresses(
    out: &mut Vec<u8>,
    services: &[ImportedService],
    first: u32,
) -> Result<(), AllocError>
    requires { length services.now < 2 ^ 16 }
    ensures { OnOk result (out.new.items ≡ out.old.items ++ spec.addresses first services.now) }
{
    let mut at = first as u64;
    for service in services {
        put_u64(out, at)?;
        at += hint_name_size(*service);
    }
    put_u64(out, 0)
}

fn put_names(out: &mut Vec<u8>, services: &[ImportedService]) -> Result<(), AllocError>
    ensures { OnOk result (out.new.items ≡ out.old.items ++ flat_map spec.hint_name services.now) }
{
    for service in services {
        put_hint_name(out, *service)?;
    }
    Ok(())
}

#[tactic(auto, unfolding(crate::specs::ImportTables::descriptor), using(crate::proofs::Pieces::pieces))]
fn put_descriptor(out: &mut Vec<u8>, imports: &[ImportedService], at: u32) -> Result<(), AllocError>
    requires few { length imports.now < 2 ^ 16 }
    requires fits { at + spec.tables_size imports.now < 2 ^ 32 }
    ensures { OnOk result (out.new.items ≡ out.old.items ++ spec.descriptor imports.now at) }
{
    put_u32(out, at + DESCRIPTORS_SIZE)?;
    put_zeros(out, UNREAD_FIELDS_SIZE)?;
    put_u32(out, at + library_offset(imports))?;
    put_u32(out, at + slots_offset(imports))
}

/// The tables of a program that imports these services, where they lie there: a descriptor of the
/// library and one of zeros, the lookup table and the slots, the names, and the library's name.
#[tactic(auto, unfolding(crate::specs::ImportTables::import_tables), using(crate::proofs::Pieces::pieces))]
pub fn import_tables(
    alloc: Global,
    imports: &[ImportedService],
    at: u32,
) -> Result<Vec<u8>, AllocError>
    requires few { length imports.now < 2 ^ 16 }
    requires fits { at + spec.tables_size imports.now < 2 ^ 32 }
    ensures { IfOk result (λ tables. tables.items ≡ spec.import_tables imports.now at) }
{
    let mut out = Vec::new(alloc);
    let names = at + names_offset(imports);
    put_descriptor(&mut out, imports, at)?;
    put_zeros(&mut out, DESCRIPTOR_SIZE as usize)?;
    put_addresses(&mut out, imports, names)?;
    put_addresses(&mut out, imports, names)?;
    put_names(&mut out, imports)?;
    out.extend_from_slice(LIBRARY)?;
    put_zeros(&mut out, 1)?;
    Ok(out)
}
