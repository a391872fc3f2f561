//! The lines of an entry and its info.

ghost use Rattle.std.specs.Prelude.{◌≡◌, ◌≤◌, ◌<◌, ◌+◌, ◌^◌, ◌++◌, length, Some};
ghost use Rattle.seh_io.specs.Text.{ended};
ghost use Rattle.table_view.specs.View as spec;

use crate::code::register_name;
use eh_tables::{EXCEPTION_EXECUTE_HANDLER, Info, RuntimeFunction, ScopeRecord};
use seh_io::line::Line;

/// Adds an address.
fn put_rva(line: &mut Line, rva: u32)
    requires { length line.old ≤ 56 }
    ensures value { line.new ≡ line.old ++ spec.rva_text rva }
    ensures len { length line.new ≡ length line.old + 8 }
{
    line.hexadecimal(8, rva as u64);
}

/// Adds a range and where its info lies.
fn put_range(line: &mut Line, range: RuntimeFunction)
    requires { length line.old ≤ 37 }
    ensures value { line.new ≡ line.old ++ spec.range_text range }
    ensures len { length line.new ≡ length line.old + 26 }
{
    put_rva(line, range.begin);
    line.text(b" ");
    put_rva(line, range.end);
    line.text(b" ");
    put_rva(line, range.unwind_info);
}

/// The first line of an entry.
pub fn entry_line(index: u64, range: RuntimeFunction) -> Line
    ensures { result ≡ spec.entry_line index range }
{
    let mut line = Line::new();
    line.text(b"entry ");
    line.natural(index);
    line.text(b" ");
    put_range(&mut line, range);
    line.end();
    line
}

/// The line of an info's header, up to its frame.
pub fn prolog_text(info: &Info<'_>) -> Line
    ensures { result ≡ spec.prolog_text info.now }
{
    let mut line = Line::new();
    line.text(b" info prolog ");
    line.natural(info.prologue_size() as u64);
    line.text(b" flags ");
    line.natural(info.flags() as u64);
    line
}

/// The rest of it.
pub fn frame_line(info: &Info<'_>) -> Line
    ensures { result ≡ ended (spec.frame_text info.now) }
{
    let mut line = Line::new();
    let register = info.frame_register();
    if register == 0 {
        line.text(b" frame - 0");
    } else {
        line.text(b" frame ");
        line.text(register_name(register));
        line.text(b" ");
        line.natural(info.frame_offset() as u64);
    }
    line.end();
    line
}

/// The line of the entry that an info is chained to.
pub fn chain_line(range: RuntimeFunction) -> Line
    ensures { result ≡ spec.parent_line (Some range) }
{
    let mut line = Line::new();
    line.text(b" chain ");
    put_range(&mut line, range);
    line.end();
    line
}

/// The line of a handler.
pub fn handler_line(is_c: bool, rva: u32) -> Line
    ensures { result ≡ spec.handler_line is_c (Some rva) }
{
    let mut line = Line::new();
    line.text(b" handler ");
    put_rva(&mut line, rva);
    line.text(if is_c { b" c" } else { b" other" });
    line.end();
    line
}

/// The line of a scope row, up to its range.
pub fn scope_begin(number: u64, row: ScopeRecord) -> Line
    ensures { result ≡ spec.scope_begin number row }
{
    let mut line = Line::new();
    line.text(b" scope ");
    line.natural(number);
    line.text(b" ");
    put_rva(&mut line, row.begin);
    line.text(b" ");
    put_rva(&mut line, row.end);
    line
}

/// The rest of it.
pub fn kind_line(row: ScopeRecord) -> Line
    ensures { result ≡ ended (spec.kind_text row) }
{
    let mut line = Line::new();
    if row.jump_target == 0 {
        line.text(b" finally ");
        put_rva(&mut line, row.handler_address);
    } else {
        put_except(&mut line, row.jump_target, row.handler_address);
    }
    line.end();
    line
}

fn put_except(line: &mut Line, jump_target: u32, handler_address: u32)
    requires { length line.old ≤ 0 }
    ensures value { line.new ≡ line.old ++ spec.except_text jump_target handler_address }
    ensures len { length line.new ≤ 30 }
{
    put_filter(line, handler_address);
    line.text(b" jump ");
    put_rva(line, jump_target);
}

fn put_filter(line: &mut Line, handler_address: u32)
    requires { length line.old ≤ 0 }
    ensures value { line.new ≡ line.old ++ spec.filter_text handler_address }
    ensures len { length line.new ≤ 16 }
{
    if handler_address == EXCEPTION_EXECUTE_HANDLER {
        line.text(b" always");
    } else {
        line.text(b" filter ");
        put_rva(line, handler_address);
    }
}
