//! What is read of unwind infos.

use crate::checks::{are, is_text, shows};
use eh_tables::{Entry, Tables};
use pe_image::ImageView;
use std::alloc::Global;
use std::process::Abort;
use test_tables::tables::{ENTRY, table_image};

/// Compares an entry with the lines of a text. The first has the numbers of the entry: its end; its
/// info's flags, prologue size, frame register and frame offset; how many infos it is chained to,
/// and how many bytes the info takes up to its codes' end. Then come, as `{:?}` prints them, its
/// handler with whether that is the C handler and its parent, its codes, and its scope records.
fn is_entry(rt: &impl Abort, alloc: Global, entry: &Entry<'_>, text: &str) {
    let own = entry.info();
    let numbers = [
        entry.range().end as u64,
        own.flags() as u64,
        own.prologue_size() as u64,
        own.frame_register() as u64,
        own.frame_offset() as u64,
        entry.parents().len() as u64,
        own.bytes().len() as u64,
    ];
    let trailer = (own.handler(), own.has_c_handler(), own.parent());
    let mut rows = text.trim().lines();
    are(rt, &numbers, rows.next().unwrap_or("no row"));
    shows(rt, alloc, &trailer, rows.next().unwrap_or("no row"), text);
    for code in entry.codes() {
        shows(rt, alloc, &code, rows.next().unwrap_or("no row"), text);
    }
    for record in entry.scopes() {
        shows(rt, alloc, &record, rows.next().unwrap_or("no row"), text);
    }
    is_text(rt, rows.next().unwrap_or(""), "", text);
}

/// Compares the one entry of an image with that info, whose bytes are read from its front.
pub fn reads(rt: &impl Abort, alloc: Global, info: &[u8], text: &str) {
    let bytes = table_image(alloc, info, &ENTRY).expect(rt, "memory");
    let view = ImageView::read(alloc, &bytes).expect(rt, "an image");
    let tables = Tables::read(&view).expect(rt, "a table");
    if tables.len() != 1 {
        panic!(rt; "not one entry");
    }
    let entry = tables.entry(0).expect(rt, "an entry");
    let is_front = info.starts_with(entry.info().bytes());
    are(rt, &[is_front as u64], "1");
    is_entry(rt, alloc, &entry, text);
}
