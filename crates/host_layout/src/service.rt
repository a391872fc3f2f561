//! The host's services, at addresses of a page of their own.

ghost use Rattle.std.specs.Prelude.{◌≡◌};
ghost use Rattle.host_layout.specs.Services.{address_of, service_at, service_named};

use crate::name::{
    ADD_VECTORED_EXCEPTION_HANDLER, C_SPECIFIC_HANDLER, LOCAL_UNWIND, PROTECT, PUT,
    RAISE_EXCEPTION, REMOVE_VECTORED_EXCEPTION_HANDLER, WALK,
};
use crate::range::HOST_PAGE_START;

/// What the host does for code that reaches one of its addresses.
#[derive(Clone, Copy, Debug, PartialEq, Eq)]
pub enum Service {
    /// Writes the number in RCX.
    Put,
    /// Sets the rights of a page of the arena: RCX is the address, EDX the rights' number.
    Protect,
    /// Raises the exception of the code in ECX with the flags in EDX.
    RaiseException,
    /// Names the language handler in unwind infos; it isn't run as code.
    CSpecificHandler,
    /// Unwinds to the target in RDX of the frame in RCX.
    LocalUnwind,
    /// Where a filter returns.
    FilterReturn,
    /// Where a `__finally` block returns.
    FinallyReturn,
    /// Adds the vectored handler at the address in RDX: in front of the others where ECX isn't 0.
    AddVectored,
    /// Takes out the vectored handler at the address in RCX.
    RemoveVectored,
    /// Where a vectored handler returns.
    VectoredReturn,
    /// Shows the function of each live activation, the innermost first.
    Walk,
}

const PUT_AT: u64 = HOST_PAGE_START + 0x10;

const PROTECT_AT: u64 = HOST_PAGE_START + 0x20;

const RAISE_EXCEPTION_AT: u64 = HOST_PAGE_START + 0x30;

const C_SPECIFIC_HANDLER_AT: u64 = HOST_PAGE_START + 0x40;

const LOCAL_UNWIND_AT: u64 = HOST_PAGE_START + 0x50;
/// Where a filter returns.
pub const FILTER_RETURN_AT: u64 = HOST_PAGE_START + 0x60;
/// Where a `__finally` block returns.
pub const FINALLY_RETURN_AT: u64 = HOST_PAGE_START + 0x70;

const ADD_VECTORED_AT: u64 = HOST_PAGE_START + 0x80;

const REMOVE_VECTORED_AT: u64 = HOST_PAGE_START + 0x90;
/// Where a vectored handler returns.
pub const VECTORED_RETURN_AT: u64 = HOST_PAGE_START + 0xA0;

const WALK_AT: u64 = HOST_PAGE_START + 0xB0;

impl Service {
    /// The address of a service.
    pub fn address(self) -> u64
        ensures { result ≡ address_of self }
    {
        match self {
            Service::Put => PUT_AT,
            Service::Protect => PROTECT_AT,
            Service::RaiseException => RAISE_EXCEPTION_AT,
            Service::CSpecificHandler => C_SPECIFIC_HANDLER_AT,
            Service::LocalUnwind => LOCAL_UNWIND_AT,
            Service::FilterReturn => FILTER_RETURN_AT,
            Service::FinallyReturn => FINALLY_RETURN_AT,
            Service::AddVectored => ADD_VECTORED_AT,
            Service::RemoveVectored => REMOVE_VECTORED_AT,
            Service::VectoredReturn => VECTORED_RETURN_AT,
            Service::Walk => WALK_AT,
        }
    }

    /// The service at an address.
    pub fn at(address: u64) -> Option<Service>
        ensures { result ≡ service_at address }
    {
        match address {
            PUT_AT => Some(Service::Put),
            PROTECT_AT => Some(Service::Protect),
            RAISE_EXCEPTION_AT => Some(Service::RaiseException),
            C_SPECIFIC_HANDLER_AT => Some(Service::CSpecificHandler),
            LOCAL_UNWIND_AT => Some(Service::LocalUnwind),
            FILTER_RETURN_AT => Some(Service::FilterReturn),
            FINALLY_RETURN_AT => Some(Service::FinallyReturn),
            ADD_VECTORED_AT => Some(Service::AddVectored),
            REMOVE_VECTORED_AT => Some(Service::RemoveVectored),
            VECTORED_RETURN_AT => Some(Service::VectoredReturn),
            WALK_AT => Some(Service::Walk),
            _ => None,
        }
    }

    /// The service that images import by a name.
    pub fn named(name: &[u8]) -> Option<Service>
        ensures { result ≡ service_named name.now }
    {
        if name == ADD_VECTORED_EXCEPTION_HANDLER {
            Some(Service::AddVectored)
        } else if name == RAISE_EXCEPTION {
            Some(Service::RaiseException)
        } else if name == REMOVE_VECTORED_EXCEPTION_HANDLER {
            Some(Service::RemoveVectored)
        } else if name == C_SPECIFIC_HANDLER {
            Some(Service::CSpecificHandler)
        } else if name == LOCAL_UNWIND {
            Some(Service::LocalUnwind)
        } else if name == PROTECT {
            Some(Service::Protect)
        } else if name == PUT {
            Some(Service::Put)
        } else if name == WALK {
            Some(Service::Walk)
        } else {
            None
        }
    }
}

/// The service at the address of a service is that service.
pub fn found_at_its_address(service: Service)
    ensures { service_at (address_of service) ≡ Some service }
{}
