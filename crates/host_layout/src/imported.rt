//! The services that images import from their host, by their names.

ghost use Rattle.std.specs.Prelude.{◌≡◌, ◌<◌, Some};
ghost use Rattle.host_layout.specs.Imported as spec;
ghost use Rattle.host_layout.specs.Services.{service_named};

use crate::name;
use crate::service::Service;

/// A service that an image imports.
#[derive(Clone, Copy, Debug, PartialEq, Eq)]
pub enum ImportedService {
    /// Adds a vectored handler. A program imports it where it calls it.
    AddVectored,
    /// Raises an exception.
    RaiseException,
    /// Takes a vectored handler out. A program imports it where it calls it.
    RemoveVectored,
    /// The language handler of C, which the tables for unwinding name at each `__try`.
    CSpecificHandler,
    /// Unwinds within a function.
    LocalUnwind,
    /// Sets the rights of a page of the arena.
    Protect,
    /// Writes a number.
    Put,
    /// Shows the live functions. A program imports it where it calls it.
    Walk,
}

/// How many services images can import.
pub const IMPORTED_COUNT: u32 = 8;

/// Those that every program imports, in the order of their slots.
pub const IMPORTED: [ImportedService; 5] = [
    ImportedService::RaiseException,
    ImportedService::CSpecificHandler,
    ImportedService::LocalUnwind,
    ImportedService::Protect,
    ImportedService::Put,
];

impl ImportedService {
    /// The name by which it is imported.
    pub fn name(&self) -> &'static [u8]
        ensures { result.now ≡ spec.name_of self.now }
    {
        match self {
            ImportedService::AddVectored => name::ADD_VECTORED_EXCEPTION_HANDLER,
            ImportedService::RaiseException => name::RAISE_EXCEPTION,
            ImportedService::RemoveVectored => name::REMOVE_VECTORED_EXCEPTION_HANDLER,
            ImportedService::CSpecificHandler => name::C_SPECIFIC_HANDLER,
            ImportedService::LocalUnwind => name::LOCAL_UNWIND,
            ImportedService::Protect => name::PROTECT,
            ImportedService::Put => name::PUT,
            ImportedService::Walk => name::WALK,
        }
    }

    /// Its place in the order of slots.
    pub fn number(&self) -> u32
        ensures value { result ≡ spec.number_of self.now }
        ensures small { result < IMPORTED_COUNT }
    {
        match self {
            ImportedService::AddVectored => 0,
            ImportedService::RaiseException => 1,
            ImportedService::RemoveVectored => 2,
            ImportedService::CSpecificHandler => 3,
            ImportedService::LocalUnwind => 4,
            ImportedService::Protect => 5,
            ImportedService::Put => 6,
            ImportedService::Walk => 7,
        }
    }
}

/// What is imported by a service's name is that service, and it is in its place in the order.
pub fn found_by_its_name(imported: ImportedService)
    ensures named { service_named (spec.name_of imported) ≡ Some (spec.service_of imported) }
    ensures placed { spec.service_in_slot (spec.number_of imported) ≡ Some imported }
{}
