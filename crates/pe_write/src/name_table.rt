//! The table of the names of an image's functions.

ghost use Rattle.std.specs.Prelude.{◌≡◌, ◌+◌, ◌^◌, ◌<◌, ◌++◌, length, OnOk, IfOk, [], ◌∷◌};
ghost use Rattle.pe_write.specs.NameTable as spec;

use crate::put::put_u32;
use pe_image::layout::{NAME_COUNT_SIZE, NAME_ROW_SIZE};
use std::alloc::{AllocError, Global};
use std::marker::Model;

/// A part of the code of a function, with the function's number and name. Its addresses are
/// relative to the image base.
#[derive(Drop)]
pub struct NamedRange<'a> {
    /// Where it begins.
    pub begin: u32,
    /// Where it ends.
    pub end: u32,
    /// The function's number.
    pub number: u32,
    /// The function's name, without a 0.
    pub name: &'a [u8],
}

impl<'a> Model for NamedRange<'a> {
    ghost use Rattle.pe_write.specs.NameTable.{NameRow};

    ghost Value = { NameRow };

    ghost view = { λ r. record {
      begin = r.begin;
      end = r.end;
      number = r.number;
      name = r.name.now;
    } };
}

/// How far the names lie after the beginning of the table, behind its rows.
fn names_offset(rows: &[NamedRange<'_>]) -> u64
    requires { length rows.now < 2 ^ 32 }
    ensures { result ≡ spec.names_offset rows.now }
{
    NAME_COUNT_SIZE as u64 + NAME_ROW_SIZE as u64 * rows.len() as u64
}

/// How many bytes the names take, each with the 0 that ends it.
fn names_size(rows: &[NamedRange<'_>]) -> u64
    requires { spec.names_size rows.now < 2 ^ 32 }
    ensures { result ≡ spec.names_size rows.now }
{
    let mut size = 0;
    for row in rows {
        size += row.name.len() as u64 + 1;
    }
    size
}

/// How many bytes the table takes: none where it has no row.
pub fn name_table_size(rows: &[NamedRange<'_>]) -> u32
    requires { spec.name_table_size rows.now < 2 ^ 32 }
    ensures { result ≡ spec.name_table_size rows.now }
{
    if rows.len() == 0 {
        return 0;
    }
    (names_offset(rows) + names_size(rows)) as u32
}

#[tactic(auto, unfolding(crate::specs::NameTable::row_bytes), using(crate::proofs::Pieces::pieces))]
fn put_row(out: &mut Vec<u8>, row: &NamedRange<'_>, name_at: u32) -> Result<(), AllocError>
    ensures { OnOk result (out.new.items ≡ out.old.items ++ spec.row_bytes name_at row.now) }
{
    put_u32(out, row.begin)?;
    put_u32(out, row.end)?;
    put_u32(out, row.number)?;
    put_u32(out, name_at)
}

/// Writes the rows, of which the first has its name at an address.
fn put_rows(out: &mut Vec<u8>, rows: &[NamedRange<'_>], first: u32) -> Result<(), AllocError>
    requires { first + spec.names_size rows.now < 2 ^ 32 }
    ensures { OnOk result (out.new.items ≡ out.old.items ++ spec.rows_bytes first rows.now) }
{
    let mut at = first as u64;
    for row in rows {
        put_row(out, row, at as u32)?;
        at += row.name.len() as u64 + 1;
    }
    Ok(())
}

#[tactic(auto, using(crate::proofs::Pieces::pieces))]
fn put_name(out: &mut Vec<u8>, name: &[u8]) -> Result<(), AllocError>
    ensures { OnOk result (out.new.items ≡ out.old.items ++ (name.now ++ (0 ∷ []))) }
{
    out.extend_from_slice(name)?;
    out.push(0)?;
    Ok(())
}

fn put_names(out: &mut Vec<u8>, rows: &[NamedRange<'_>]) -> Result<(), AllocError>
    ensures { OnOk result (out.new.items ≡ out.old.items ++ spec.names_bytes rows.now) }
{
    for row in rows {
        put_name(out, row.name)?;
    }
    Ok(())
}

/// Writes rows and names with their count, where they begin at an address.
#[tactic(auto, unfolding(crate::specs::NameTable::counted_bytes), using(crate::proofs::Pieces::pieces))]
fn put_counted(out: &mut Vec<u8>, rows: &[NamedRange<'_>], base: u32) -> Result<(), AllocError>
    requires { base + spec.names_offset rows.now + spec.names_size rows.now < 2 ^ 32 }
    ensures { OnOk result (out.new.items ≡ out.old.items ++ spec.counted_bytes rows.now base) }
{
    let names = base + names_offset(rows) as u32;
    put_u32(out, rows.len() as u32)?;
    put_rows(out, rows, names)?;
    put_names(out, rows)
}

/// The table that begins at an address: nothing where it has no row.
pub fn name_table(alloc: Global, rows: &[NamedRange<'_>], base: u32) -> Result<Vec<u8>, AllocError>
    requires { base + spec.name_table_size rows.now < 2 ^ 32 }
    ensures { IfOk result (λ table. table.items ≡ spec.name_table_bytes rows.now base) }
{
    let mut out = Vec::new(alloc);
    if rows.len() != 0 {
        put_counted(&mut out, rows, base)?;
    }
    Ok(out)
}
