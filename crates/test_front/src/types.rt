//! Types by the C standard's rules (C11, 6.7.2 and 6.7.6), with `long` of 32 bits.

use crate::rows::{Reader, all_as_wanted};
use c_lex::token::Token;
use c_parse_type::specifiers::c_type;
use std::alloc::{AllocError, Global};

/// The type that a text begins with: its base, and how many pointers; one token is after it.
pub fn type_of(alloc: Global, tokens: &[Token]) -> Result<String, AllocError> {
    match c_type(tokens) {
        Some((found, [_])) => { format!(in alloc; "{:?} {}", found.base, found.pointers) }
        Some(_) => String::from_str(alloc, "not one token"),
        None => String::from_str(alloc, "no type"),
    }
}

const TYPES: &str = r"
int x => Int 0
long int x => Int 0
signed x => Int 0
signed char*x => Char 1
unsigned long long int**x => UnsignedLongLong 2
unsigned short x => UnsignedShort 0
void*x => Void 1
x int => no type
";

#[test]
fn texts_begin_with_types(rt: HostRuntime) {
    all_as_wanted(&rt, rt.alloc(), Reader::Type, &[TYPES]);
}
