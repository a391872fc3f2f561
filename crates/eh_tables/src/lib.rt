//! The function tables of images for x64 (Microsoft x64 ABI, "Exception handling":
//! `RUNTIME_FUNCTION`, `UNWIND_INFO` version 1 and the scope tables of the C handler), read in
//! place. Entries whose infos have version 2 are read too, where they are asked for so.
//!
//! Proved: [`Tables`] reads a table, an entry or a look-up as `specs/Tables.antt` says, or refuses
//! by the first check that fails. Begin with `specs/Tables.antt`.
#![tactic(auto)]

mod code;
mod codes;
mod counted_ranges;
mod covering;
mod entry;
mod epilogues;
mod handler;
mod info;
mod known;
mod laws;
pub mod layout;
mod lookup;
mod range;
mod refusal;
mod scope;
mod seen_records;
mod tables;
mod unseen;

pub use code::{UnwindCode, UnwindOperation};
pub use codes::Codes;
pub use entry::Entry;
pub use info::Info;
pub use laws::version_1_alike;
pub use layout::{EXCEPTION_EXECUTE_HANDLER, MOST_INFO_BYTES, MOST_SLOTS};
pub use lookup::FunctionEntry;
pub use range::RuntimeFunction;
pub use refusal::TableErr;
pub use scope::{ScopeRecord, Scopes};
pub use seen_records::SeenRecords;
pub use tables::Tables;
