//! An index of a function table: for addresses that are alike but for their low bits, the entry
//! from which a search has to look. It makes a look-up in a long table touch fewer of its entries.
//!
//! Proved: what a look-up finds is a row of the table that covers the address, whatever the index
//! holds; in a table whose ranges ascend, by an index that [`fill`] made of it, it finds the
//! row that the definition names (`specs/Indexes.antt`, where to begin). An entry's own info, read
//! alone, is the entry where that is chained to none.
#![tactic(auto)]

mod entries;
mod filling;
mod lookup;

pub use entries::lone_function;
pub use filling::{fill, shift_for};
pub use lookup::Index;
