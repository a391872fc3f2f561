//! The lines of refusals.

ghost use Rattle.std.specs.Prelude.{◌≡◌, ◌≤◌, ◌<◌, ◌+◌, ◌++◌, length};
ghost use Rattle.std.specs.Fmt.{decimal};
ghost use Rattle.seh_io.specs.Text.{ended};
ghost use Rattle.table_view.specs.View as spec;

use eh_tables::TableErr;
use seh_io::line::Line;

/// Adds a number after a space.
fn put_spaced(line: &mut Line, number: u64)
    requires { length line.old ≤ 39 }
    ensures value { line.new ≡ line.old ++ spec.spaced (decimal number) }
    ensures len { length line.new ≤ 60 }
{
    line.text(b" ");
    line.natural(number);
}

/// Adds the number that follows a refusal's name, where it has one.
fn put_number(line: &mut Line, error: &TableErr)
    requires { length line.old ≤ 39 }
    ensures value { line.new ≡ line.old ++ spec.number_text error.now }
    ensures len { length line.new ≤ 60 }
{
    match error {
        TableErr::Truncated { rva } => put_spaced(line, *rva),
        TableErr::Misaligned { rva } => put_spaced(line, *rva),
        TableErr::EmptyRange { .. } => {}
        TableErr::Unsorted { .. } => {}
        TableErr::Version { found, .. } => put_spaced(line, *found as u64),
        TableErr::Flags { .. } => {}
        TableErr::Op { slot, .. } => put_spaced(line, *slot),
        TableErr::CodeOrder { slot, .. } => put_spaced(line, *slot),
        TableErr::ChainLong { .. } => {}
        TableErr::ScopeRange { row, .. } => put_spaced(line, *row),
    }
}

/// Adds a refusal's name with its number.
fn put_refusal(line: &mut Line, error: &TableErr)
    requires { length line.old ≤ 29 }
    ensures value { line.new ≡ line.old ++ spec.refusal_text error.now }
    ensures len { length line.new ≤ 60 }
{
    line.text(error.name());
    put_number(line, error);
}

/// The line of an entry that can't be read.
pub fn refused_line(index: u64, error: &TableErr) -> Line
    ensures { result ≡ spec.refused_line index error.now }
{
    let mut line = Line::new();
    line.text(b"refused ");
    line.natural(index);
    line.text(b" ");
    put_refusal(&mut line, error);
    line.end();
    line
}

/// The line of a directory that can't be read.
pub fn refused_table_line(error: &TableErr) -> Line
    ensures { result ≡ spec.refused_table_line error.now }
{
    let mut line = Line::new();
    line.text(b"refused table ");
    line.text(error.name());
    match error {
        TableErr::Truncated { rva } => {
            line.text(b" ");
            line.hexadecimal(8, *rva);
        }
        TableErr::Misaligned { rva } => {
            line.text(b" ");
            line.hexadecimal(8, *rva);
        }
        other => put_number(&mut line, other),
    }
    line.end();
    line
}

/// The last line.
pub fn count_line(count: u64) -> Line
    ensures { result ≡ spec.count_line count }
{
    let mut line = Line::new();
    line.text(b"entries ");
    line.natural(count);
    line.end();
    line
}
