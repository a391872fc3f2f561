//! The names by which images import the services of their host.

/// The library of which they are imported (own).
pub const LIBRARY: &[u8] = b"sehhost.dll";
/// Adds a function to the list of vectored handlers.
pub const ADD_VECTORED_EXCEPTION_HANDLER: &[u8] = b"AddVectoredExceptionHandler";
/// Raises an exception.
pub const RAISE_EXCEPTION: &[u8] = b"RaiseException";
/// Takes a function out of the list of vectored handlers.
pub const REMOVE_VECTORED_EXCEPTION_HANDLER: &[u8] = b"RemoveVectoredExceptionHandler";
/// The language handler of C.
pub const C_SPECIFIC_HANDLER: &[u8] = b"__C_specific_handler";
/// Unwinds within a function.
pub const LOCAL_UNWIND: &[u8] = b"_local_unwind";
/// Sets the rights of a page of the arena.
pub const PROTECT: &[u8] = b"protect";
/// Writes a number.
pub const PUT: &[u8] = b"put";
/// Shows where the program is: each live activation by the name of its function.
pub const WALK: &[u8] = b"walk";
