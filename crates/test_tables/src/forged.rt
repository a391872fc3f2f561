//! Images whose code harms the records of the dispatcher, or pretends that there is one.

use crate::building::{Parts, built, fixed, framed, scope};
use crate::tables::put;
use eh_tables::ScopeRecord;
use std::alloc::{AllocError, Global};

/// A filter that writes 2 over the kind of the record, and answers 1.
pub const HARMS_KIND: &[u8] = &[
    0x48, 0xC7, 0x41, 0xD8, 0x02, 0x00, 0x00, 0x00, // mov QWORD PTR [rcx-0x28],0x2
    0xB8, 0x01, 0x00, 0x00, 0x00, // mov eax,0x1
    0xC3, // ret
];

/// A filter that writes 4 over the kind of the record, and answers 1.
pub const HARMS_KIND_BY_4: &[u8] = &[
    0x48, 0xC7, 0x41, 0xD8, 0x04, 0x00, 0x00, 0x00, // mov QWORD PTR [rcx-0x28],0x4
    0xB8, 0x01, 0x00, 0x00, 0x00, // mov eax,0x1
    0xC3, // ret
];

/// A filter that writes 0 over the first byte of the record's mark, and answers 1.
pub const HARMS_MARK: &[u8] = &[
    0xC6, 0x41, 0xD0, 0x00, // mov BYTE PTR [rcx-0x30],0x0
    0xB8, 0x01, 0x00, 0x00, 0x00, // mov eax,0x1
    0xC3, // ret
];

/// A filter that writes 0 over the index of the next scope record, and answers 1.
pub const HARMS_ROW: &[u8] = &[
    0x48, 0xC7, 0x41, 0xE8, 0x00, 0x00, 0x00, 0x00, // mov QWORD PTR [rcx-0x18],0x0
    0xB8, 0x01, 0x00, 0x00, 0x00, // mov eax,0x1
    0xC3, // ret
];

/// A filter that writes the record's own address over RSP of the saved state, and raises E0000002.
pub const HARMS_SAVED_STATE: &[u8] = &[
    0x48, 0x83, 0xEC, 0x28, // sub rsp,0x28
    0x48, 0x8B, 0x41, 0x08, // mov rax,QWORD PTR [rcx+0x8]
    0x48, 0x8D, 0x51, 0xB0, // lea rdx,[rcx-0x50]
    0x48, 0x89, 0x90, 0x98, 0x00, 0x00, 0x00, // mov QWORD PTR [rax+0x98],rdx
    0xB9, 0x02, 0x00, 0x00, 0xE0, // mov ecx,0xe0000002
    0x31, 0xD2, // xor edx,edx
    0xFF, 0x15, 0x26, 0x10, 0x00, 0x00, // call [RaiseException]
    0xCC, // int3
];

/// A `main` that returns to the host's address of filters, where no record is.
pub const RETURNS_AS_FILTER: &[u8] = &[
    0xB8, 0x60, 0x00, 0xF0, 0x7F, // mov eax,0x7ff00060
    0xFF, 0xE0, // jmp rax
];

/// A `main` that returns to the host's address of `__finally` blocks, where no record is.
pub const RETURNS_AS_FINALLY: &[u8] = &[
    0xB8, 0x70, 0x00, 0xF0, 0x7F, // mov eax,0x7ff00070
    0xFF, 0xE0, // jmp rax
];

/// A `main` that returns to the host's address of vectored handlers, where no record is.
pub const RETURNS_AS_VECTORED: &[u8] = &[
    0xB8, 0xA0, 0x00, 0xF0, 0x7F, // mov eax,0x7ff000a0
    0xFF, 0xE0, // jmp rax
];

/// A `main` that unwinds to frame 0.
pub const UNWINDS_TO_NO_FRAME: &[u8] = &[
    0x48, 0x83, 0xEC, 0x28, // sub rsp,0x28
    0x31, 0xC9, // xor ecx,ecx
    0x31, 0xD2, // xor edx,edx
    0xFF, 0x15, 0x5A, 0x10, 0x00, 0x00, // call [_local_unwind]
];

/// A `main` that raises where no record can be placed any more.
pub const RAISES_AT_THE_GUARD: &[u8] = &[
    0xBC, 0x00, 0x06, 0x00, 0x70, // mov esp,0x70000600
    0xB9, 0x01, 0x00, 0x00, 0xE0, // mov ecx,0xe0000001
    0x31, 0xD2, // xor edx,edx
    0xFF, 0x15, 0x46, 0x10, 0x00, 0x00, // call [RaiseException]
];

/// A `main` that pushes where RSP is 8.
pub const PUSHES_AT_ADDRESS_8: &[u8] = &[
    0x48, 0xC7, 0xC4, 0x08, 0x00, 0x00, 0x00, // mov rsp,0x8
    0x50, // push rax
];

/// A filter that writes 2 over the index of the next scope record, and answers 1.
pub const HARMS_ROW_BEFORE: &[u8] = &[
    0x48, 0xC7, 0x41, 0xE8, 0x02, 0x00, 0x00, 0x00, // mov QWORD PTR [rcx-0x18],0x2
    0xB8, 0x01, 0x00, 0x00, 0x00, // mov eax,0x1
    0xC3, // ret
];

/// A filter that writes 2 over the kind of the record, and raises E0000002.
pub const HARMS_KIND_AND_RAISES: &[u8] = &[
    0x48, 0x83, 0xEC, 0x28, // sub rsp,0x28
    0x48, 0xC7, 0x41, 0xD8, 0x02, 0x00, 0x00, 0x00, // mov QWORD PTR [rcx-0x28],0x2
    0xB9, 0x02, 0x00, 0x00, 0xE0, // mov ecx,0xe0000002
    0x31, 0xD2, // xor edx,edx
    0xFF, 0x15, 0x2D, 0x10, 0x00, 0x00, // call [RaiseException]
    0xCC, // int3
];

/// A filter that writes 0 over the first byte of the record's mark, and raises E0000002.
pub const HARMS_MARK_AND_RAISES: &[u8] = &[
    0x48, 0x83, 0xEC, 0x28, // sub rsp,0x28
    0xC6, 0x41, 0xD0, 0x00, // mov BYTE PTR [rcx-0x30],0x0
    0xB9, 0x02, 0x00, 0x00, 0xE0, // mov ecx,0xe0000002
    0x31, 0xD2, // xor edx,edx
    0xFF, 0x15, 0x31, 0x10, 0x00, 0x00, // call [RaiseException]
    0xCC, // int3
];

/// A `__finally` block that writes 1 over the kind of the record.
pub const BLOCK_HARMS_KIND: &[u8] = &[
    0x48, 0xC7, 0x44, 0x24, 0x30, 0x01, 0x00, 0x00, 0x00, // mov QWORD PTR [rsp+0x30],0x1
    0xC3, // ret
];

/// A `__finally` block that writes 4 over the kind of the record.
pub const BLOCK_HARMS_KIND_BY_4: &[u8] = &[
    0x48, 0xC7, 0x44, 0x24, 0x30, 0x04, 0x00, 0x00, 0x00, // mov QWORD PTR [rsp+0x30],0x4
    0xC3, // ret
];

/// A `__finally` block that writes 0 over the first byte of the record's mark.
pub const BLOCK_HARMS_MARK: &[u8] = &[
    0xC6, 0x44, 0x24, 0x28, 0x00, // mov BYTE PTR [rsp+0x28],0x0
    0xC3, // ret
];

/// A `__finally` block that writes 1 over the kind of the record, and raises E0000002.
pub const BLOCK_HARMS_KIND_AND_RAISES: &[u8] = &[
    0x48, 0x83, 0xEC, 0x28, // sub rsp,0x28
    0x48, 0xC7, 0x44, 0x24, 0x58, 0x01, 0x00, 0x00, 0x00, // mov QWORD PTR [rsp+0x58],0x1
    0xB9, 0x02, 0x00, 0x00, 0xE0, // mov ecx,0xe0000002
    0x31, 0xD2, // xor edx,edx
    0xFF, 0x15, 0x2C, 0x10, 0x00, 0x00, // call [RaiseException]
    0xCC, // int3
];

/// A `main` that raises where its return address would lie above the stack.
pub const RAISES_AT_THE_TOP: &[u8] = &[
    0x48, 0x83, 0xEC, 0x28, // sub rsp,0x28
    0xBC, 0xE0, 0xFF, 0x7F, 0x70, // mov esp,0x707fffe0
    0xB9, 0x01, 0x00, 0x00, 0xE0, // mov ecx,0xe0000001
    0x31, 0xD2, // xor edx,edx
    0xFF, 0x15, 0x42, 0x10, 0x00, 0x00, // call [RaiseException]
    0xCC, // int3
];

/// A `main` that unwinds from there to frame FFFFFFFF.
pub const UNWINDS_AT_THE_TOP: &[u8] = &[
    0x48, 0x83, 0xEC, 0x28, // sub rsp,0x28
    0xBC, 0xE0, 0xFF, 0x7F, 0x70, // mov esp,0x707fffe0
    0xB9, 0xFF, 0xFF, 0xFF, 0xFF, // mov ecx,0xffffffff
    0x31, 0xD2, // xor edx,edx
    0xFF, 0x15, 0x52, 0x10, 0x00, 0x00, // call [_local_unwind]
    0xCC, // int3
];

/// A `main` that unwinds to frame FFFFFFFF.
pub const UNWINDS_PAST_MAIN: &[u8] = &[
    0x48, 0x83, 0xEC, 0x28, // sub rsp,0x28
    0xB9, 0xFF, 0xFF, 0xFF, 0xFF, // mov ecx,0xffffffff
    0x31, 0xD2, // xor edx,edx
    0xFF, 0x15, 0x57, 0x10, 0x00, 0x00, // call [_local_unwind]
    0xCC, // int3
];

/// A `main` with a frame register, which it lowers far below RSP before it raises E0000001.
pub const LOWERS_ITS_FRAME: &[u8] = &[
    0x53, // push rbx
    0x55, // push rbp
    0x48, 0x83, 0xEC, 0x28, // sub rsp,0x28
    0x48, 0x8D, 0x6C, 0x24, 0x20, // lea rbp,[rsp+0x20]
    0xBD, 0x20, 0x00, 0x40, 0x70, // mov ebp,0x70400020
    0xB9, 0x01, 0x00, 0x00, 0xE0, // mov ecx,0xe0000001
    0x31, 0xD2, // xor edx,edx
    0xFF, 0x15, 0x3B, 0x10, 0x00, 0x00, // call [RaiseException]
    0xCC, // int3
];

/// A `main` that goes to a service's address with RSP in the guard.
pub fn service_in_the_guard(alloc: Global, service: u8) -> Result<Vec<u8>, AllocError> {
    let text = [
        0xBC, 0x00, 0xFF, 0xFF, 0x6F, // mov esp,0x6fffff00
        0xB8, service, 0x00, 0xF0, 0x7F, // mov eax,the service
        0xFF, 0xE0, // jmp rax
    ];
    plain(alloc, &text)
}

/// The image of a `main` without scope records.
pub fn plain(alloc: Global, text: &[u8]) -> Result<Vec<u8>, AllocError> {
    let parts = Parts {
        data: &[],
        text,
        handler: 0x2020,
        functions: &[fixed(0x2000, 0x2020, &[])],
    };
    built(alloc, parts)
}

/// The image of a `main` that begins with a frame register, without scope records.
pub fn plain_framed(alloc: Global, text: &[u8]) -> Result<Vec<u8>, AllocError> {
    let parts = Parts {
        data: &[],
        text,
        handler: 0x2020,
        functions: &[framed(0x2000, 0x2020, &[])],
    };
    built(alloc, parts)
}

/// A `main` that raises E0000001.
const RAISES: &[u8] = &[
    0x48, 0x83, 0xEC, 0x28, // sub rsp,0x28
    0xB9, 0x01, 0x00, 0x00, 0xE0, // mov ecx,0xe0000001
    0x31, 0xD2, // xor edx,edx
    0xFF, 0x15, 0x47, 0x10, 0x00, 0x00, // call [RaiseException]
    0xCC, // int3
];

/// That code, the funclet after it and the thunk of the language handler.
fn raising_text(alloc: Global, funclet: &[u8]) -> Result<Vec<u8>, AllocError> {
    let end = 18 + funclet.len();
    let mut text = vec![in alloc; 0; end + 6]?;
    put(&mut text, 0, RAISES);
    put(&mut text, 18, funclet);
    put(&mut text, end, &[0xFF, 0x25]);
    put(
        &mut text,
        end + 2,
        &(0x105A - (end % 256) as u32).to_le_bytes(),
    );
    Ok(text)
}

/// The image of a `main` that raises E0000001 under these scope records, from 0x2004 to before
/// 0x2012, where this funclet begins. The record of that raise is at 0x707FF990; where a filter
/// begins RCX is 80 bytes above it, and where a `__finally` block begins RSP is 8 below it.
pub fn handled(
    alloc: Global,
    funclet: &[u8],
    scopes: &[ScopeRecord],
) -> Result<Vec<u8>, AllocError> {
    let text = raising_text(alloc, funclet)?;
    let thunk = 0x2000 + ((18 + funclet.len()) % 256) as u32;
    let functions = [fixed(0x2000, 0x2012, scopes), fixed(0x2012, thunk, &[])];
    let parts = Parts {
        data: &[],
        text: &text,
        handler: thunk,
        functions: &functions,
    };
    built(alloc, parts)
}

/// The funclet as the filter of that raise.
pub fn raising(alloc: Global, filter: &[u8]) -> Result<Vec<u8>, AllocError> {
    handled(alloc, filter, &[scope(0x2004, 0x2012, 0x2012, 0x2011)])
}

/// The funclet as a `__finally` block of that raise, in a `__try` whose handler accepts at once.
/// The target lies outside the scope records, so that the unwinding runs the block.
pub fn unwinding(alloc: Global, block: &[u8]) -> Result<Vec<u8>, AllocError> {
    let scopes = [
        scope(0x2004, 0x2012, 0x2012, 0),
        scope(0x2004, 0x2012, 1, 0x2000),
    ];
    handled(alloc, block, &scopes)
}

/// The funclet as the filter of that raise and, by the row after, as a `__finally` block.
pub fn raising_and_unwinding(alloc: Global, filter: &[u8]) -> Result<Vec<u8>, AllocError> {
    let scopes = [
        scope(0x2004, 0x2012, 0x2012, 0x2011),
        scope(0x2004, 0x2012, 0x2012, 0),
    ];
    handled(alloc, filter, &scopes)
}

/// Puts a record of kind 1 with next row 1 at a place: its mark, its kind, the row, the exception's
/// flag and the RIP of its walk, which is in `main`.
fn put_record(out: &mut Vec<u8>, at: usize) {
    put(out, at.saturating_add(32), b"SEHDSPCH");
    put(out, at.saturating_add(40), &[1]);
    put(out, at.saturating_add(56), &[1]);
    put(out, at.saturating_add(100), &[1]);
    put(out, at.saturating_add(1488), &[0x05, 0x20, 0, 0x40, 1]);
}

/// A `main` that answers -1 as if from a filter, for a record of an exception that can't be
/// continued: its first 256 bytes end the page of data, and the code that follows is its rest.
pub fn record_into_code(alloc: Global) -> Result<Vec<u8>, AllocError> {
    let text = [
        0x48, 0xBC, 0x00, 0x1F, 0x00, 0x40, 0x01, 0x00, 0x00, 0x00, // mov rsp,0x140001f00
        0xB8, 0xFF, 0xFF, 0xFF, 0xFF, // mov eax,0xffffffff
        0xBA, 0x60, 0x00, 0xF0, 0x7F, // mov edx,0x7ff00060
        0xFF, 0xE2, // jmp rdx
    ];
    let mut data = vec![in alloc; 0; 0x1000]?;
    put_record(&mut data, 0xF00);
    let parts = Parts {
        data: &data,
        text: &text,
        handler: 0x2020,
        functions: &[fixed(0x2000, 0x2020, &[])],
    };
    built(alloc, parts)
}

/// A `main` that answers 1 as if from a filter, for a record in the page of code.
pub fn record_in_code(alloc: Global) -> Result<Vec<u8>, AllocError> {
    let mut text = vec![in alloc; 0; 0x720]?;
    let code = [
        0x48, 0xBC, 0x00, 0x21, 0x00, 0x40, 0x01, 0x00, 0x00, 0x00, // mov rsp,0x140002100
        0xB8, 0x01, 0x00, 0x00, 0x00, // mov eax,0x1
        0xBA, 0x60, 0x00, 0xF0, 0x7F, // mov edx,0x7ff00060
        0xFF, 0xE2, // jmp rdx
    ];
    put(&mut text, 0, &code);
    put(&mut text, 0x20, &[0xFF, 0x25, 0x3A, 0x10]); // jmp [__C_specific_handler]
    put_record(&mut text, 0x100);
    let scopes = [scope(0x2004, 0x2010, 1, 0x2010)];
    let parts = Parts {
        data: &[],
        text: &text,
        handler: 0x2020,
        functions: &[fixed(0x2000, 0x2020, &scopes)],
    };
    built(alloc, parts)
}
