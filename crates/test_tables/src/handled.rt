//! Images of code of [`code`](crate::code), with its scope records.

use crate::building::{Parts, built, fixed, scope};
use crate::code::{CONTINUED_ACCESS, FILTER_AND_FINALLY, RAISE_IN_FINALLY};
use std::alloc::{AllocError, Global};

/// [`FILTER_AND_FINALLY`] with its scope records.
pub fn filter_and_finally(alloc: Global) -> Result<Vec<u8>, AllocError> {
    let scopes = [
        scope(0x2004, 0x2019, 0x2039, 0),
        scope(0x2004, 0x2019, 0x2052, 0x2024),
    ];
    let functions = [
        fixed(0x2000, 0x2039, &scopes),
        fixed(0x2039, 0x2052, &[]),
        fixed(0x2052, 0x2060, &[]),
    ];
    let parts = Parts {
        data: &[],
        text: FILTER_AND_FINALLY,
        handler: 0x2060,
        functions: &functions,
    };
    built(alloc, parts)
}

/// [`RAISE_IN_FINALLY`] with its scope records.
pub fn raise_in_finally(alloc: Global) -> Result<Vec<u8>, AllocError> {
    let scopes = [
        scope(0x2004, 0x2019, 0x2033, 0),
        scope(0x2004, 0x2019, 0x205C, 0x2019),
    ];
    let functions = [
        fixed(0x2000, 0x202E, &scopes),
        fixed(0x2033, 0x205C, &[]),
        fixed(0x205C, 0x206A, &[]),
    ];
    let parts = Parts {
        data: &[],
        text: RAISE_IN_FINALLY,
        handler: 0x206A,
        functions: &functions,
    };
    built(alloc, parts)
}

/// [`CONTINUED_ACCESS`] with its scope record.
pub fn continued_access(alloc: Global) -> Result<Vec<u8>, AllocError> {
    let scopes = [scope(0x2013, 0x2016, 0x2029, 0x201F)];
    let functions = [fixed(0x2000, 0x2029, &scopes), fixed(0x2029, 0x2047, &[])];
    let parts = Parts {
        data: &[],
        text: CONTINUED_ACCESS,
        handler: 0x2047,
        functions: &functions,
    };
    built(alloc, parts)
}
