//! The view, written.

ghost use Rattle.std.specs.Prelude.{◌≡◌, ◌≤◌, ◌<◌, ◌*◌, ◌++◌, length, option_map, Some, true, false, OnOk, OnErr, IfErr};
ghost use Rattle.std.specs.List.{flat_map};
ghost use Rattle.hex.specs.Hex.{encode_lower};
ghost use Rattle.pe_image.specs.NameRows.{names_of, rows_read};
ghost use Rattle.seh_io.specs.Streams.{Faultless, Faulted, Grew};
ghost use Rattle.seh_io.specs.Writer.{PutText, TookPart};
ghost use Rattle.table_view.specs.View as spec;

use crate::code::{code_begin, code_end};
use crate::refusal::{count_line, refused_line, refused_table_line};
use crate::row::{
    chain_line, entry_line, frame_line, handler_line, kind_line, prolog_text, scope_begin,
};
use arrayvec::ArrayVec;
use eh_tables::{Entry, Info, MOST_INFO_BYTES, TableErr, Tables};
use pe_image::{ImageView, NameTable};
use seh_io::line::Line;
use seh_io::names::NoNames;
use seh_io::receiver::Lines;
use seh_io::sink::Sink;
use seh_io::writing::WriteFault;

/// Where the digits begin in a line of bytes, after its word.
const FIRST_DIGIT: usize = 7;

/// The most bytes of such a line: the word, two digits for each byte, and the line feed.
const LONGEST_BYTES_LINE: usize = FIRST_DIGIT + 2 * MOST_INFO_BYTES + 1;

/// The two digits of each byte.
fn encode(bytes: &[u8], column: &mut [u8])
    requires { length column.old ≡ 2 * length bytes.now }
    ensures { column.new ≡ encode_lower bytes.now }
{
    // The column has room for just these digits, so that it can't be refused.
    let _ = hex::encode_to_slice(bytes, column);
}

/// A line of two parts, in one piece.
fn put_joined<O: Sink>(out: &mut Lines<'_, O>, front: &Line, back: &Line)
    ensures same_reference { out.new.sink.ghost_name ≡ out.old.sink.ghost_name }
    ensures wrote { PutText O.taken O.faults out.old (front.now ++ back.now) out.new }
{
    let mut line: ArrayVec<u8, 128> = ArrayVec::new();
    // There is room for both, so that neither can be refused.
    let _ = line.try_extend_from_slice(front.as_bytes());
    let _ = line.try_extend_from_slice(back.as_bytes());
    out.put(line.as_slice());
}

/// The bytes of an info, header and slots.
fn put_bytes<O: Sink>(out: &mut Lines<'_, O>, bytes: &[u8])
    requires { length bytes.now ≤ MOST_INFO_BYTES }
    ensures same_reference { out.new.sink.ghost_name ≡ out.old.sink.ghost_name }
    ensures wrote { PutText O.taken O.faults out.old (spec.bytes_line bytes.now) out.new }
{
    let mut line = [0; LONGEST_BYTES_LINE];
    let end = FIRST_DIGIT + 2 * bytes.len();
    line[..FIRST_DIGIT].copy_from_slice(b" bytes ");
    encode(bytes, &mut line[FIRST_DIGIT..end]);
    line[end] = b'\n';
    out.put(&line[..=end]);
}

/// The lines of unwind codes.
fn put_codes<O: Sink>(out: &mut Lines<'_, O>, info: &Info<'_>)
    ensures same_reference { out.new.sink.ghost_name ≡ out.old.sink.ghost_name }
    ensures wrote { PutText O.taken O.faults out.old
        (flat_map spec.code_line info.now.codes) out.new }
{
    for code in info.codes() {
        put_joined(out, &code_begin(&code), &code_end(&code));
    }
}

/// The lines of scope records.
fn put_scopes<O: Sink>(out: &mut Lines<'_, O>, info: &Info<'_>)
    ensures same_reference { out.new.sink.ghost_name ≡ out.old.sink.ghost_name }
    ensures wrote { PutText O.taken O.faults out.old (spec.scope_lines 0 info.now.scopes) out.new }
{
    let mut number = 0;
    for row in info.scopes() {
        put_joined(out, &scope_begin(number, row), &kind_line(row));
        number += 1;
    }
}

/// The line of the entry that an info is chained to.
fn put_parent<O: Sink>(out: &mut Lines<'_, O>, info: &Info<'_>)
    ensures same_reference { out.new.sink.ghost_name ≡ out.old.sink.ghost_name }
    ensures wrote { PutText O.taken O.faults out.old (spec.parent_line info.now.parent) out.new }
{
    match info.parent() {
        Some(range) => out.put(chain_line(range).as_bytes()),
        None => {}
    }
}

/// The line of its handler.
fn put_handler<O: Sink>(out: &mut Lines<'_, O>, info: &Info<'_>)
    ensures same_reference { out.new.sink.ghost_name ≡ out.old.sink.ghost_name }
    ensures wrote { PutText O.taken O.faults out.old
        (spec.handler_line info.now.has_c_handler info.now.handler) out.new }
{
    match info.handler() {
        Some(rva) => out.put(handler_line(info.has_c_handler(), rva).as_bytes()),
        None => {}
    }
}

/// The lines of an info.
fn put_info<O: Sink>(out: &mut Lines<'_, O>, info: &Info<'_>)
    ensures same_reference { out.new.sink.ghost_name ≡ out.old.sink.ghost_name }
    ensures wrote { PutText O.taken O.faults out.old (spec.info_lines info.now) out.new }
{
    put_bytes(out, info.bytes());
    put_joined(out, &prolog_text(info), &frame_line(info));
    put_codes(out, info);
    put_parent(out, info);
    put_handler(out, info);
    put_scopes(out, info);
}

/// The line of a name.
fn put_name<O: Sink>(out: &mut Lines<'_, O>, name: &[u8])
    ensures same_reference { out.new.sink.ghost_name ≡ out.old.sink.ghost_name }
    ensures wrote { PutText O.taken O.faults out.old (spec.name_line (Some name.now)) out.new }
{
    out.put(b" name ");
    out.put(name);
    out.put(b"\n");
}

/// The name of the function a part of whose code begins at an address: that of the number in the
/// row that begins there. The row of a cold part may have no name of its own.
fn begun_name<'a>(names: &NameTable<'a>, rva: u32) -> Option<&'a [u8]>
    ensures { option_map (λ b. b.now) result ≡ spec.begun_name names.now rva }
{
    let (begin, number) = names.row(rva as u64)?;
    if begin != rva as u64 {
        return None;
    }
    names.name(number)
}

/// The line of the name of the function a part of whose code begins at an address, if there is one.
fn put_name_at<O: Sink>(out: &mut Lines<'_, O>, names: &NameTable<'_>, rva: u32)
    ensures same_reference { out.new.sink.ghost_name ≡ out.old.sink.ghost_name }
    ensures wrote { PutText O.taken O.faults out.old
        (spec.name_line (spec.begun_name names.now rva)) out.new }
{
    match begun_name(names, rva) {
        Some(name) => put_name(out, name),
        None => {}
    }
}

/// The lines of an entry, or the one of its refusal.
fn put_entry<O: Sink>(
    out: &mut Lines<'_, O>,
    names: &NameTable<'_>,
    index: u64,
    entry: &Result<Entry<'_>, TableErr>,
)
    ensures same_reference { out.new.sink.ghost_name ≡ out.old.sink.ghost_name }
    ensures wrote { PutText O.taken O.faults out.old
        (spec.entry_lines names.now index entry.now) out.new }
{
    match entry {
        Ok(entry) => {
            let range = entry.range();
            out.put(entry_line(index, range).as_bytes());
            put_info(out, entry.info());
            put_name_at(out, names, range.begin);
        }
        Err(error) => out.put(refused_line(index, error).as_bytes()),
    }
}

/// The lines of all entries.
fn put_entries<O: Sink>(out: &mut Lines<'_, O>, names: &NameTable<'_>, tables: &Tables<'_, '_>)
    ensures same_reference { out.new.sink.ghost_name ≡ out.old.sink.ghost_name }
    ensures wrote { PutText O.taken O.faults out.old
        (spec.all_lines names.now tables.now.image 0 0 tables.now.ranges) out.new }
{
    for index in 0..tables.len() {
        put_entry(out, names, index, &tables.entry(index));
    }
}

/// The names of an image's functions; none where the table of names is refused.
fn names<'a>(image: &'a ImageView<'_>) -> NameTable<'a>
    ensures { result ≡ rows_read (names_of image.now) }
{
    match image.names() {
        Ok(names) => names,
        Err(_) => NameTable::empty(),
    }
}

/// The lines of the whole table.
fn put_table<O: Sink>(out: &mut Lines<'_, O>, image: &ImageView<'_>)
    ensures same_reference { out.new.sink.ghost_name ≡ out.old.sink.ghost_name }
    ensures wrote { PutText O.taken O.faults out.old (spec.view image.now) out.new }
{
    let names = names(image);
    match Tables::of(image) {
        Ok(tables) => {
            put_entries(out, &names, &tables);
            out.put(count_line(tables.len()).as_bytes());
        }
        Err(error) => {
            out.put(refused_table_line(&error).as_bytes());
            out.put(count_line(0).as_bytes());
        }
    }
}

/// Writes the view of an image's function table, line by line. An entry that is refused is one
/// line. An entry that begins where a row of the image's table of names does has the name of the
/// row's number; where that table is refused no entry has one.
///
/// After a fault the sink has taken a part of the text from the front, of `taken` bytes; that count
/// stays at 2^64 - 1.
pub fn view<O: Sink>(image: &ImageView<'_>, sink: &mut O) -> Result<(), WriteFault>
    ensures ok { OnOk result (Grew (O.taken sink.old) (spec.view image.now) (O.taken sink.new)) }
    ensures part { IfErr result
        (λ e. TookPart (O.taken sink.old) (spec.view image.now) (O.taken sink.new) e.taken) }
    ensures faultless { OnOk result (Faultless (O.faults sink.old) (O.faults sink.new)) }
    ensures cause { OnErr result (Faulted (O.faults sink.old) (O.faults sink.new)) }
{
    let mut lines = Lines::new(sink, false, &NoNames);
    put_table(&mut lines, image);
    lines.outcome()
}
