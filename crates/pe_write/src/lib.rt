//! Images of programs for x64 (Microsoft's specification of the PE format), written.
//!
//! [`write`] gives the bytes of the [`Image`] of a program in one strict form, which is read again
//! as the same image. It has five sections: `.data`, `.text`, `.rdata` with the tables by which it
//! imports services of its host, each at its slot ([`slot_of`], [`place_of`], [`tables_size`]),
//! `.xdata` and `.pdata`; and `.sehname` where its functions have names ([`NamedRange`],
//! [`name_table_size`]). [`Sizes`] says where they lie, relative to the image base;
//! [`text_after`], [`rdata_after`] and [`xdata_after`] say it of these three before the sizes of
//! those behind them are known.
//!
//! Proved: the bytes are those of `specs/Program.antt` and `specs/Written.antt`, and they are read
//! again as the same image. Begin with `specs/Program.antt`.
#![tactic(auto)]

mod header;
mod image;
mod import_tables;
mod layout;
mod name_table;
mod parts;
mod put;
mod sizes;
mod writing;

pub use image::{Image, write};
pub use import_tables::{place_of, slot_of, tables_size};
pub use name_table::{NamedRange, name_table_size};
pub use sizes::{Sizes, rdata_after, text_after, xdata_after};
