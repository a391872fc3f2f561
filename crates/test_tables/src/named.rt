//! Images whose functions have names, and that print walks.

use crate::building::{Parts, built, fixed, scope};
use crate::tables::put;
use std::alloc::{AllocError, Global};

/// Where NumberOfSections is in an image that was built.
const SECTION_COUNT: usize = 0x46;

/// Where its SizeOfImage is.
const SIZE_OF_IMAGE: usize = 0x90;

/// Where the header of its sixth section is.
const SIXTH_HEADER: usize = 0x210;

/// Where that section lies, after five that take a page each.
const NAMES_AT: u32 = 0x6000;

/// A row of a table of names: a range of code, the function's number and name.
pub type NameRow<'a> = (u32, u32, u32, &'a [u8]);

fn push_number(out: &mut Vec<u8>, number: u32) -> Result<(), AllocError> {
    out.extend_from_slice(&number.to_le_bytes())
}

/// A table of names, as it lies in a section at [`NAMES_AT`]; the names come after the rows.
fn name_table(alloc: Global, rows: &[NameRow<'_>]) -> Result<Vec<u8>, AllocError> {
    let mut out = Vec::new(alloc);
    push_number(&mut out, (rows.len() % 256) as u32)?;
    let mut name = NAMES_AT + 4 + 16 * (rows.len() % 256) as u32;
    for (begin, end, number, bytes) in rows {
        push_number(&mut out, *begin)?;
        push_number(&mut out, *end)?;
        push_number(&mut out, *number)?;
        push_number(&mut out, name)?;
        name = name.wrapping_add((bytes.len() % 256) as u32 + 1);
    }
    for (_begin, _end, _number, bytes) in rows {
        out.extend_from_slice(bytes)?;
        out.push(0)?;
    }
    Ok(out)
}

/// An image that was built, with a section `.sehname` of these bytes after its five.
pub fn with_names(mut image: Vec<u8>, names: &[u8]) -> Result<Vec<u8>, AllocError> {
    let size = ((names.len() % 4096) as u32).to_le_bytes();
    let at = ((image.len() % (1 << 30)) as u32).to_le_bytes();
    put(&mut image, SECTION_COUNT, &[6]);
    put(&mut image, SIZE_OF_IMAGE, &[0, 0x70]);
    put(&mut image, SIXTH_HEADER, b".sehname");
    put(&mut image, SIXTH_HEADER + 8, &size); // VirtualSize
    put(&mut image, SIXTH_HEADER + 12, &NAMES_AT.to_le_bytes()); // VirtualAddress
    put(&mut image, SIXTH_HEADER + 16, &size); // SizeOfRawData
    put(&mut image, SIXTH_HEADER + 20, &at); // PointerToRawData
    put(&mut image, SIXTH_HEADER + 36, &[0x40, 0, 0, 0x40]); // Characteristics
    image.extend_from_slice(names)?;
    Ok(image)
}

/// `main` calls the function at 0x2014, which prints a walk.
const CALLS_WALKER: &[u8] = &[
    0x48, 0x83, 0xEC, 0x28, // sub rsp,0x28
    0xE8, 0x0B, 0x00, 0x00, 0x00, // call 0x2014
    0xB8, 0x07, 0x00, 0x00, 0x00, // mov eax,7
    0x48, 0x83, 0xC4, 0x28, // add rsp,0x28
    0xC3, // ret
    0x90, // nop
    0x48, 0x83, 0xEC, 0x28, // sub rsp,0x28
    0xB8, 0xB0, 0x00, 0xF0, 0x7F, // mov eax,walk
    0xFF, 0xD0, // call rax
    0x48, 0x83, 0xC4, 0x28, // add rsp,0x28
    0xC3, // ret
];

/// The same of a `main` that has lost its frame: what it would return by is above the stack.
const CALLS_FROM_NO_FRAME: &[u8] = &[
    0x48, 0x83, 0xEC, 0x28, // sub rsp,0x28
    0xBC, 0xE0, 0xFF, 0x7F, 0x70, // mov esp,0x707FFFE0
    0xE8, 0x06, 0x00, 0x00, 0x00, // call 0x2014
    0x90, 0x90, 0x90, 0x90, 0x90, 0x90, // nop
    0x48, 0x83, 0xEC, 0x28, // sub rsp,0x28
    0xB8, 0xB0, 0x00, 0xF0, 0x7F, // mov eax,walk
    0xFF, 0xD0, // call rax
    0x48, 0x83, 0xC4, 0x28, // add rsp,0x28
    0xC3, // ret
];

/// `main` raises, and the filter at 0x201A prints a walk and accepts.
const FILTER_WALKS: &[u8] = &[
    0x48, 0x83, 0xEC, 0x28, // sub rsp,0x28
    0xB9, 0x01, 0x00, 0x00, 0xE0, // mov ecx,0xE0000001
    0x31, 0xD2, // xor edx,edx
    0xB8, 0x30, 0x00, 0xF0, 0x7F, // mov eax,RaiseException
    0xFF, 0xD0, // call rax
    0x90, // nop
    0x31, 0xC0, // xor eax,eax
    0x48, 0x83, 0xC4, 0x28, // add rsp,0x28
    0xC3, // ret
    0x48, 0x83, 0xEC, 0x28, // sub rsp,0x28
    0xB8, 0xB0, 0x00, 0xF0, 0x7F, // mov eax,walk
    0xFF, 0xD0, // call rax
    0xB8, 0x01, 0x00, 0x00, 0x00, // mov eax,1
    0x48, 0x83, 0xC4, 0x28, // add rsp,0x28
    0xC3, // ret
    0xFF, 0x25, 0x2B, 0x10, 0x00, 0x00, // jmp [__C_specific_handler]
];

/// An image of two functions, at 0x2000 and at 0x2014.
fn two_functions(alloc: Global, text: &[u8]) -> Result<Vec<u8>, AllocError> {
    let functions = [fixed(0x2000, 0x2014, &[]), fixed(0x2014, 0x2024, &[])];
    let parts = Parts {
        data: &[],
        text,
        handler: 0x2024,
        functions: &functions,
    };
    built(alloc, parts)
}

/// The names of the two functions, of which the second one is number 1.
fn two_names(alloc: Global) -> Result<Vec<u8>, AllocError> {
    let rows: [NameRow<'_>; 2] = [(0x2000, 0x2014, 2, b"main"), (0x2014, 0x2024, 1, b"g")];
    name_table(alloc, &rows)
}

/// A function that prints a walk, called by `main`.
pub fn walk_of_two(alloc: Global) -> Result<Vec<u8>, AllocError> {
    with_names(two_functions(alloc, CALLS_WALKER)?, &two_names(alloc)?)
}

/// The same without names.
pub fn walk_without_names(alloc: Global) -> Result<Vec<u8>, AllocError> {
    two_functions(alloc, CALLS_WALKER)
}

/// The same of a `main` that has lost its frame.
pub fn walk_that_stops(alloc: Global) -> Result<Vec<u8>, AllocError> {
    with_names(
        two_functions(alloc, CALLS_FROM_NO_FRAME)?,
        &two_names(alloc)?,
    )
}

/// A filter that prints a walk, without a row of its own.
pub fn walk_in_filter(alloc: Global) -> Result<Vec<u8>, AllocError> {
    let scopes = [scope(0x2004, 0x2013, 0x201A, 0x2013)];
    let functions = [fixed(0x2000, 0x201A, &scopes), fixed(0x201A, 0x202F, &[])];
    let parts = Parts {
        data: &[],
        text: FILTER_WALKS,
        handler: 0x202F,
        functions: &functions,
    };
    let rows: [NameRow<'_>; 1] = [(0x2000, 0x201A, 1, b"main")];
    with_names(built(alloc, parts)?, &name_table(alloc, &rows)?)
}
