//! Images with function tables, built by the product's own writers.

ghost use Rattle.std.specs.Prelude.{◌≡◌, ◌<◌, ◌≤◌, ◌^◌, length, IfOk};
ghost use Rattle.arrayvec.specs.ArrayVec.{array_vec_len};
ghost use Rattle.eh_write.specs.Written.{IsTrailer, CanBeWritten};
ghost use Rattle.pe_write.specs.ImportTables.{tables_size};

use arrayvec::ArrayVec;
use eh_tables::{RuntimeFunction, ScopeRecord, UnwindCode, UnwindOperation};
use eh_write::{Trailer, UnwindInfo, write_pdata, write_scopes, write_unwind};
use host_layout::imported::{IMPORTED, ImportedService};
use pe_write::{Image, write};
use std::alloc::{AllocError, Global};

/// A page; neither the data nor the code of an image takes more.
const PAGE: usize = 4096;

/// Neither the unwind infos with their scope tables nor the function table take more.
const MOST: usize = 1 << 24;

/// Where the unwind infos begin: `.data`, `.text` and `.rdata` take a page each before them.
const INFOS: u32 = 0x4000;

/// What a function begins with.
#[derive(Clone, Copy)]
pub enum Prologue {
    /// `sub rsp,40`, of four bytes.
    Fixed,
    /// `push rbx; push rbp; sub rsp,40; lea rbp,[rsp+32]`, whose ends are at 1, 2, 6 and 11.
    Framed,
}

/// A function of an image.
#[derive(Clone, Copy)]
pub struct Function<'a> {
    /// Its first byte, relative to the image base.
    pub begin: u32,
    /// The first byte after it, relative to the image base.
    pub end: u32,
    /// How it begins.
    pub prologue: Prologue,
    /// Its scope records.
    pub scopes: &'a [ScopeRecord],
}

/// A function that begins with `sub rsp,40`.
pub fn fixed<'a>(begin: u32, end: u32, scopes: &'a [ScopeRecord]) -> Function<'a> {
    Function {
        begin,
        end,
        prologue: Prologue::Fixed,
        scopes,
    }
}

/// A function that pushes RBX and RBP and has RBP as its frame register.
pub fn framed<'a>(begin: u32, end: u32, scopes: &'a [ScopeRecord]) -> Function<'a> {
    Function {
        begin,
        end,
        prologue: Prologue::Framed,
        scopes,
    }
}

/// A scope record: the body from `begin` to before `end`, its filter or `__finally` block, and
/// where an `__except` block begins, 0 for a `__finally` block.
pub fn scope(begin: u32, end: u32, handler_address: u32, jump_target: u32) -> ScopeRecord {
    ScopeRecord {
        begin,
        end,
        handler_address,
        jump_target,
    }
}

/// What an image is built of.
#[derive(Clone, Copy)]
pub struct Parts<'a> {
    /// Its data, at 0x1000.
    pub data: &'a [u8],
    /// Its code, at 0x2000.
    pub text: &'a [u8],
    /// The thunk of the language handler, relative to the image base.
    pub handler: u32,
    /// Its functions, in the order of their addresses.
    pub functions: &'a [Function<'a>],
}

/// A handler, where a scope record asks for one: for searching by one with a jump target, for
/// unwinding by one without.
fn trailer(handler: u32, scopes: &[ScopeRecord]) -> Trailer
    ensures { IsTrailer result }
{
    let searching = scopes.iter().any(|scope| scope.jump_target != 0);
    let unwinding = scopes.iter().any(|scope| scope.jump_target == 0);
    match (searching, unwinding) {
        (false, false) => Trailer::Nothing,
        _ => Trailer::Handler {
            searching,
            unwinding,
            rva: handler,
        },
    }
}

/// The info of a function with a frame register.
fn framed_info(trailer: Trailer) -> UnwindInfo
    requires { IsTrailer trailer }
    ensures { CanBeWritten result }
{
    let mut codes = ArrayVec::new();
    codes.push(UnwindCode {
        offset: 11,
        operation: UnwindOperation::SetFrame,
    });
    codes.push(UnwindCode {
        offset: 6,
        operation: UnwindOperation::Allocate { size: 40 },
    });
    codes.push(UnwindCode {
        offset: 2,
        operation: UnwindOperation::Push { register: 5 },
    });
    codes.push(UnwindCode {
        offset: 1,
        operation: UnwindOperation::Push { register: 3 },
    });
    UnwindInfo {
        prologue_size: 11,
        frame_register: 5,
        frame_offset: 32,
        codes,
        trailer,
    }
}

/// The info of a function that begins with `sub rsp,40`.
fn fixed_info(trailer: Trailer) -> UnwindInfo
    requires { IsTrailer trailer }
    ensures { CanBeWritten result }
{
    let mut codes = ArrayVec::new();
    codes.push(UnwindCode {
        offset: 4,
        operation: UnwindOperation::Allocate { size: 40 },
    });
    UnwindInfo {
        prologue_size: 4,
        frame_register: 0,
        frame_offset: 0,
        codes,
        trailer,
    }
}

fn info(prologue: Prologue, trailer: Trailer) -> UnwindInfo
    requires { IsTrailer trailer }
    ensures { CanBeWritten result }
{
    match prologue {
        Prologue::Fixed => fixed_info(trailer),
        Prologue::Framed => framed_info(trailer),
    }
}

/// Adds a function's info with its scope table, and its entry.
fn add_function(
    function: &Function<'_>,
    handler: u32,
    infos: &mut Vec<u8>,
    ranges: &mut Vec<RuntimeFunction>,
) -> Result<(), AllocError> {
    if function.scopes.len() > MOST || infos.len() > MOST {
        return Err(AllocError);
    }
    ranges.push(RuntimeFunction {
        begin: function.begin,
        end: function.end,
        unwind_info: INFOS + infos.len() as u32,
    })?;
    let handled = trailer(handler, function.scopes);
    write_unwind(&info(function.prologue, handled), infos)?;
    if function.scopes.is_empty() {
        return Ok(());
    }
    write_scopes(function.scopes, infos)
}

/// The infos of functions, with their scope tables, and the function table.
fn tables(alloc: Global, parts: Parts<'_>) -> Result<(Vec<u8>, Vec<u8>), AllocError> {
    let mut infos = Vec::new(alloc);
    let mut ranges = Vec::new(alloc);
    for function in parts.functions {
        add_function(function, parts.handler, &mut infos, &mut ranges)?;
    }
    let mut table = Vec::new(alloc);
    write_pdata(&ranges, &mut table)?;
    Ok((infos, table))
}

/// The services that images of tests import: those that every program imports, whose tables take a
/// page at most.
pub fn every_service(alloc: Global) -> Result<Vec<ImportedService>, AllocError>
    ensures few { IfOk result (λ v. length v.items < 2 ^ 16) }
    ensures small { IfOk result (λ v. tables_size v.items ≤ 4096) }
{
    let mut services = Vec::new(alloc);
    services.extend_from_slice(&IMPORTED)?;
    Ok(services)
}

/// The bytes of an image. There is no memory for parts that are larger than those limits, nor for
/// an image without code.
pub fn built(alloc: Global, parts: Parts<'_>) -> Result<Vec<u8>, AllocError> {
    if parts.data.len() > PAGE || parts.text.len() > PAGE || parts.text.is_empty() {
        return Err(AllocError);
    }
    let (infos, table) = tables(alloc, parts)?;
    if infos.len() > MOST || table.len() > MOST {
        return Err(AllocError);
    }
    let data = parts.data.to_vec(alloc)?;
    let text = parts.text.to_vec(alloc)?;
    let imports = every_service(alloc)?;
    let names = Vec::new(alloc);
    let image = Image::new(imports, PAGE as u32, data, text, 0, infos, table, names);
    write(alloc, &image)
}
