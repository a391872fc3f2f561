//! Images that rows of tables name.

use crate::shown::half_of;
use eh_tables::ScopeRecord;
use std::alloc::{AllocError, Global};
use std::process::Abort;
use test_tables::calls::{caller_and_callee, store_and_collision};
use test_tables::code::{
    ACCEPTED_FAULT, CONTINUED_IN_VAIN, CONTINUED_RAISE, LOCAL_UNWIND, RAISE_IN_FILTER,
};
use test_tables::forged::{
    BLOCK_HARMS_KIND, BLOCK_HARMS_KIND_AND_RAISES, BLOCK_HARMS_KIND_BY_4, BLOCK_HARMS_MARK,
    HARMS_KIND, HARMS_KIND_AND_RAISES, HARMS_KIND_BY_4, HARMS_MARK, HARMS_MARK_AND_RAISES,
    HARMS_ROW, HARMS_ROW_BEFORE, HARMS_SAVED_STATE, LOWERS_ITS_FRAME, PUSHES_AT_ADDRESS_8,
    RAISES_AT_THE_GUARD, RAISES_AT_THE_TOP, RETURNS_AS_FILTER, RETURNS_AS_FINALLY,
    RETURNS_AS_VECTORED, UNWINDS_AT_THE_TOP, UNWINDS_PAST_MAIN, UNWINDS_TO_NO_FRAME, plain,
    plain_framed, raising, raising_and_unwinding, record_in_code, record_into_code,
    service_in_the_guard, unwinding,
};
use test_tables::handled::{continued_access, filter_and_finally, raise_in_finally};
use test_tables::words::{bytes_of, number_of};
use test_tables::{Parts, built, fixed, scope};

/// A `main` that raises E0000001.
const RAISES: &[u8] = &[
    0x48, 0x83, 0xEC, 0x28, // sub rsp,0x28
    0xB9, 0x01, 0x00, 0x00, 0xE0, // mov ecx,0xe0000001
    0x31, 0xD2, // xor edx,edx
    0xFF, 0x15, 0x47, 0x10, 0x00, 0x00, // call [RaiseException]
];

/// The code of a `main`.
fn main_of(name: &str) -> &'static [u8] {
    match name {
        "RETURNS_AS_FILTER" => RETURNS_AS_FILTER,
        "RETURNS_AS_FINALLY" => RETURNS_AS_FINALLY,
        "RETURNS_AS_VECTORED" => RETURNS_AS_VECTORED,
        "RAISES" => RAISES,
        "RAISES_AT_THE_GUARD" => RAISES_AT_THE_GUARD,
        "RAISES_AT_THE_TOP" => RAISES_AT_THE_TOP,
        "UNWINDS_AT_THE_TOP" => UNWINDS_AT_THE_TOP,
        "UNWINDS_PAST_MAIN" => UNWINDS_PAST_MAIN,
        "UNWINDS_TO_NO_FRAME" => UNWINDS_TO_NO_FRAME,
        "PUSHES_AT_ADDRESS_8" => PUSHES_AT_ADDRESS_8,
        _ => LOWERS_ITS_FRAME,
    }
}

/// The code of a filter or of a `__finally` block.
fn funclet_of(name: &str) -> &'static [u8] {
    match name {
        "HARMS_KIND" => HARMS_KIND,
        "HARMS_KIND_BY_4" => HARMS_KIND_BY_4,
        "HARMS_MARK" => HARMS_MARK,
        "HARMS_ROW" => HARMS_ROW,
        "HARMS_ROW_BEFORE" => HARMS_ROW_BEFORE,
        "HARMS_SAVED_STATE" => HARMS_SAVED_STATE,
        "HARMS_KIND_AND_RAISES" => HARMS_KIND_AND_RAISES,
        "HARMS_MARK_AND_RAISES" => HARMS_MARK_AND_RAISES,
        "BLOCK_HARMS_KIND" => BLOCK_HARMS_KIND,
        "BLOCK_HARMS_KIND_BY_4" => BLOCK_HARMS_KIND_BY_4,
        "BLOCK_HARMS_MARK" => BLOCK_HARMS_MARK,
        _ => BLOCK_HARMS_KIND_AND_RAISES,
    }
}

/// The code of functions with a scope record.
fn scoped_code_of(name: &str) -> &'static [u8] {
    match name {
        "CONTINUED_RAISE" => CONTINUED_RAISE,
        "CONTINUED_IN_VAIN" => CONTINUED_IN_VAIN,
        "LOCAL_UNWIND" => LOCAL_UNWIND,
        "RAISE_IN_FILTER" => RAISE_IN_FILTER,
        _ => ACCEPTED_FAULT,
    }
}

/// Seven numbers in hexadecimal.
fn numbers_of(words: &str) -> [u32; 7] {
    let mut numbers = [0; 7];
    let mut count = 0;
    for word in words.split(' ') {
        if count < 7 {
            numbers[count] = half_of(word).unwrap_or(0);
            count += 1;
        }
    }
    numbers
}

/// An image of one function with one scope record, and of one funclet after it. The numbers are
/// those of the record, the function's end, the funclet's begin and its end, where the thunk is. An
/// empty funclet is none.
fn one_scope(
    alloc: Global,
    text: &[u8],
    data: &[u8],
    numbers: [u32; 7],
) -> Result<Vec<u8>, AllocError> {
    let scopes = [scope(numbers[0], numbers[1], numbers[2], numbers[3])];
    let functions = [
        fixed(0x2000, numbers[4], &scopes),
        fixed(numbers[5], numbers[6], &[]),
    ];
    let count = if numbers[5] == numbers[6] { 1 } else { 2 };
    let parts = Parts {
        data,
        text,
        handler: numbers[6],
        functions: functions.get(..count).unwrap_or(&functions),
    };
    built(alloc, parts)
}

/// The same of words `CODE, NUMBERS, DATA`.
fn scoped(alloc: Global, words: &str) -> Result<Vec<u8>, AllocError> {
    let (name, rest) = words.split_once(", ").unwrap_or((words, ""));
    let (numbers, data) = rest.split_once(", ").unwrap_or((rest, ""));
    let data = bytes_of(alloc, data)?;
    one_scope(alloc, scoped_code_of(name), &data, numbers_of(numbers))
}

/// One of the whole images.
fn whole(alloc: Global, name: &str) -> Result<Vec<u8>, AllocError> {
    match name {
        "filter_and_finally" => filter_and_finally(alloc),
        "raise_in_finally" => raise_in_finally(alloc),
        "continued_access" => continued_access(alloc),
        "caller_and_callee" => caller_and_callee(alloc),
        "store_and_collision" => store_and_collision(alloc),
        "record_into_code" => record_into_code(alloc),
        "record_in_code" => record_in_code(alloc),
        _ => Ok(Vec::new(alloc)),
    }
}

/// The image that words name.
pub fn image_named(alloc: Global, words: &str) -> Result<Vec<u8>, AllocError> {
    let (how, rest) = words.split_once(' ').unwrap_or((words, ""));
    match how {
        "plain" => plain(alloc, main_of(rest)),
        "framed" => plain_framed(alloc, main_of(rest)),
        "raising" => raising(alloc, funclet_of(rest)),
        "unwinding" => unwinding(alloc, funclet_of(rest)),
        "both" => raising_and_unwinding(alloc, funclet_of(rest)),
        "service" => service_in_the_guard(alloc, (number_of(rest).unwrap_or(0) % 256) as u8),
        "scoped" => scoped(alloc, rest),
        _ => whole(alloc, how),
    }
}

/// The code of [`many_funclets`].
const MANY: &[u8] = &[
    0x48, 0x83, 0xEC, 0x28, // sub rsp,0x28
    0xB9, 0x01, 0x00, 0x00, 0xE0, // mov ecx,0xe0000001
    0x31, 0xD2, // xor edx,edx
    0xFF, 0x15, 0x47, 0x10, 0x00, 0x00, // call [RaiseException]
    0x90, // nop
    0x31, 0xC0, // xor eax,eax
    0x48, 0x83, 0xC4, 0x28, // add rsp,0x28
    0xC3, // ret
    0xB8, 0x01, 0x00, 0x00, 0x00, // mov eax,0x1
    0xC3, // ret
    0xFF, 0x25, 0x3B, 0x10, 0x00, 0x00, // jmp [__C_specific_handler]
];

/// Adds a row.
fn add_scope(rt: &impl Abort, scopes: &mut Vec<ScopeRecord>, record: ScopeRecord) {
    scopes.push(record).expect(rt, "memory");
}

/// Adds a hundred thousand rows whose filters fall by address, and then some below.
fn add_scopes(rt: &impl Abort, scopes: &mut Vec<ScopeRecord>) {
    for n in 0..100_000_u32 {
        add_scope(rt, scopes, scope(0x2000, 0x2001, 0x10_0000 - n, 0x2012));
    }
    for n in 0..20_u32 {
        add_scope(rt, scopes, scope(0x2000, 0x2001, 0x1100 - n, 0x2012));
        add_scope(rt, scopes, scope(0x2004, 0x2012, 0x2019, 0x2012));
        add_scope(rt, scopes, scope(0x2000, 0x2001, 0x2019, 0));
    }
}

/// An image of a function with many scope records.
pub fn many_funclets(rt: &impl Abort, alloc: Global) -> Vec<u8> {
    let mut scopes = Vec::new(alloc);
    add_scopes(rt, &mut scopes);
    let functions = [fixed(0x2000, 0x2019, &scopes), fixed(0x2019, 0x201F, &[])];
    let parts = Parts {
        data: &[],
        text: MANY,
        handler: 0x201F,
        functions: &functions,
    };
    built(alloc, parts).expect(rt, "memory")
}
