//! Functions with their unwind infos, and the caller at each instruction's boundary.
//!
//! A table is one text. A function begins with a line `# NAME`. A line `info` has bytes of unwind
//! infos, each line 32 bytes after the one before: the function's own, and those that it is chained
//! to; a function without such a line is a leaf. A line `with` says where registers point, and a
//! line `words` which words of the stack are the address of another place. Then comes a row for
//! each instruction:
//!
//!     BYTES | INSTRUCTION | PLACE RIP RSP FRAME | READ | NOTE
//!
//! with the caller of the frame in which this instruction is the next one. PLACE is `handler` in
//! the body of an entry whose handler is asked, `body` in a body without one, and `-` elsewhere.
//! RIP is the place of the word that is read as the return address, RSP the caller's stack pointer,
//! FRAME the establisher frame, and READ names the registers that are read, each with the place of
//! its word. NOTE is for the reader. All are distances from 0x70000000, which is the callee's RSP
//! where no line says another, in hexadecimal. Each word of the stack is its own address, so that a
//! value says where it was read. Where no caller is found the row has, in place of PLACE RIP RSP
//! FRAME,
//!
//!     unreadable WORD      the first word that is needed and can't be read
//!     backward RSP         the callee's stack pointer, above which the caller's isn't

ghost use Rattle.eh_tables.specs.Tables.{TablesAreWhole};

use eh_tables::Tables;
use pe_image::ImageView;
use seh_num::width::Width;
use std::alloc::Global;
use std::process::Abort;
use test_tables::rows::{column, word};
use test_tables::tables::table_image;
use test_tables::words::number_of;
use virtual_unwind::UnwindErr;
use virtual_unwind::frame::Caller;
use virtual_unwind::unwinding::caller;
use x64_machine::context::Context;
use x64_memory::page_map::PageMap;
use x64_memory::region::Region;
use x64_memory::space::AddressSpace;

/// Where the code begins.
const CODE: u64 = 0x1_4000_2000;

/// Where the stack begins, and RSP where no row says another.
const STACK: u64 = 0x7000_0000;

/// The function, with the info at 0x3000: its code ends at or before 0x2100.
const ENTRY: [u8; 12] = [0, 0x20, 0, 0, 0, 0x21, 0, 0, 0, 0x30, 0, 0];

/// The address of each handler, which is no C handler.
const HANDLER: u32 = 0x200;

/// The registers that a context keeps, by their places there.
const KEPT: [&str; 9] = [
    "rsp", "rbx", "rbp", "rsi", "rdi", "r12", "r13", "r14", "r15",
];

const REGIONS: [Region; 3] = [
    Region {
        start: 0x2000_0000,
        end: 0x2010_0000,
        read: false,
        write: false,
        execute: false,
    },
    Region {
        start: STACK,
        end: STACK + 0x8_1000,
        read: true,
        write: true,
        execute: false,
    },
    Region {
        start: CODE,
        end: CODE + 0x1000,
        read: true,
        write: true,
        execute: true,
    },
];

/// A function of a table.
#[derive(Drop)]
struct Function<'a> {
    name: &'a str,
    infos: Vec<u8>,
    code: Vec<u8>,
    /// The registers of the callee.
    kept: [u64; 9],
    /// Words of the stack that are another address than their own.
    words: &'a str,
}

/// A number in hexadecimal.
fn number(rt: &impl Abort, word: &str) -> u64 {
    match number_of(word) {
        Some(value) if !word.is_empty() => value,
        _ => panic!(rt; "no number: {word}"),
    }
}

/// Appends the bytes that words spell.
fn push_bytes(rt: &impl Abort, out: &mut Vec<u8>, words: &str) {
    for word in words.split_ascii_whitespace() {
        out.push((number(rt, word) % 256) as u8)
            .expect(rt, "memory");
    }
}

/// Appends zeros up to a multiple of 32 bytes.
fn pad(rt: &impl Abort, out: &mut Vec<u8>) {
    for _i in 0..(32 - out.len() % 32) % 32 {
        out.push(0).expect(rt, "memory");
    }
}

/// The place that a word names, as an address.
fn address(rt: &impl Abort, word: &str) -> u64 {
    STACK.wrapping_add(number(rt, word))
}

/// Sets the register of that name.
fn set_register(kept: &mut [u64; 9], name: &str, value: u64) {
    for (place, register) in kept.iter_mut().zip(KEPT.iter()) {
        if *register == name {
            *place = value;
        }
    }
}

/// Sets registers to addresses in the stack.
fn set(rt: &impl Abort, kept: &mut [u64; 9], pairs: &str) {
    for pair in pairs.split_ascii_whitespace() {
        let (name, at) = pair.split_once('=').unwrap_or((pair, ""));
        set_register(kept, name, address(rt, at));
    }
}

/// Stores addresses at places of the stack.
fn put_words(rt: &impl Abort, space: &mut PageMap, pairs: &str) {
    for pair in pairs.split_ascii_whitespace() {
        let (at, value) = pair.split_once('=').unwrap_or((pair, ""));
        let _ = space.store(address(rt, at), Width::W64, address(rt, value));
    }
}

/// Adds what a line says to its function.
fn add_line<'a>(rt: &impl Abort, found: &mut Function<'a>, line: &'a str) {
    if let Some(words) = line.strip_prefix("info ") {
        pad(rt, &mut found.infos);
        push_bytes(rt, &mut found.infos, words);
    } else if let Some(pairs) = line.strip_prefix("with ") {
        set(rt, &mut found.kept, pairs);
    } else if let Some(pairs) = line.strip_prefix("words ") {
        found.words = pairs;
    } else if let Some((bytes, _)) = line.split_once(" | ") {
        push_bytes(rt, &mut found.code, bytes);
    } else if found.name.is_empty() {
        found.name = line;
    }
}

/// The function that a part of a table spells.
fn function_of<'a>(rt: &impl Abort, alloc: Global, part: &'a str) -> Function<'a> {
    let mut found = Function {
        name: "",
        infos: Vec::new(alloc),
        code: Vec::new(alloc),
        kept: [STACK, 0xB1, 0xB2, 0xB3, 0xB4, 0xB5, 0xB6, 0xB7, 0xB8],
        words: "",
    };
    for line in part.lines() {
        add_line(rt, &mut found, line);
    }
    found
}

/// The caller that a row expects: the registers that aren't read are kept.
fn found_caller(rt: &impl Abort, kept: &[u64; 9], answer: &str, read: &str) -> Caller {
    let mut kept = *kept;
    set(rt, &mut kept, read);
    kept[0] = address(rt, word(answer, 2));
    let place = word(answer, 0);
    Caller {
        frame: address(rt, word(answer, 3)),
        context: Context {
            rip: address(rt, word(answer, 1)),
            kept,
        },
        handler: if place == "handler" {
            Some(HANDLER)
        } else {
            None
        },
        in_body: place != "-",
    }
}

/// The answer that a row expects.
fn expected(rt: &impl Abort, kept: &[u64; 9], row: &str) -> Result<Caller, UnwindErr> {
    let answer = column(row, 2);
    match word(answer, 0) {
        "unreadable" => Err(UnwindErr::Unreadable {
            address: address(rt, word(answer, 1)),
        }),
        "backward" => Err(UnwindErr::Backward {
            rsp: address(rt, word(answer, 1)),
        }),
        _ => Ok(found_caller(rt, kept, answer, column(row, 3))),
    }
}

/// Stores at each of 64 places its own address.
fn put_addresses(space: &mut PageMap, start: u64) {
    for index in 0..64 {
        let at = start.wrapping_add(8 * index);
        let _ = space.store(at, Width::W64, at);
    }
}

/// Stores the code.
fn put_code(space: &mut PageMap, code: &[u8]) {
    let mut at = CODE;
    for &byte in code {
        let _ = space.store(at, Width::W8, byte as u64);
        at = at.wrapping_add(1);
    }
}

/// Memory with the code, and the words of the stack.
fn space(rt: &impl Abort, alloc: Global, function: &Function<'_>) -> PageMap {
    let mut space = PageMap::new(alloc, &REGIONS).expect(rt, "memory");
    put_code(&mut space, &function.code);
    put_addresses(&mut space, STACK);
    put_addresses(&mut space, STACK + 0x8_0000);
    put_addresses(&mut space, STACK + 0x8_0E00);
    put_words(rt, &mut space, function.words);
    space
}

/// Compares the caller at an instruction with its row.
fn is_found(
    rt: &impl Abort,
    tables: &Tables<'_, '_>,
    space: &PageMap,
    context: &Context,
    row: &str,
    name: &str,
)
    requires { TablesAreWhole tables.now }
{
    let found = caller(tables, space, context);
    let wanted = expected(rt, &context.kept, row);
    assert_eq!(rt; found, wanted, "{name}: {row}");
}

/// Compares the callers at the boundaries of a function.
fn are_found(
    rt: &impl Abort,
    tables: &Tables<'_, '_>,
    space: &PageMap,
    function: &Function<'_>,
    part: &str,
)
    requires { TablesAreWhole tables.now }
{
    let mut context = Context {
        rip: CODE,
        kept: function.kept,
    };
    for line in part.lines() {
        if let Some((code, _)) = line.split_once(" | ") {
            is_found(rt, tables, space, &context, line, function.name);
            let size = code.split_ascii_whitespace().count() as u64;
            context.rip = context.rip.wrapping_add(size);
        }
    }
}

/// An image with the infos of a function, and its entry, or none for a leaf.
fn image_with_infos(rt: &impl Abort, alloc: Global, infos: &[u8]) -> Vec<u8> {
    let entries: &[u8] = if infos.is_empty() { &[] } else { &ENTRY };
    table_image(alloc, infos, entries).expect(rt, "memory")
}

/// The same of the function that a part of a table spells.
fn unwinds(rt: &impl Abort, alloc: Global, part: &str) {
    let function = function_of(rt, alloc, part);
    let bytes = image_with_infos(rt, alloc, &function.infos);
    let view = ImageView::read(alloc, &bytes).expect(rt, "an image");
    let tables = Tables::read(&view).expect(rt, "a table");
    let space = space(rt, alloc, &function);
    are_found(rt, &tables, &space, &function, part);
}

/// Compares the callers of the functions of tables.
pub fn all_unwind(rt: &impl Abort, alloc: Global, tables: &[&str]) {
    for table in tables {
        for part in table.split("\n# ").skip(1) {
            unwinds(rt, alloc, part);
        }
    }
}
