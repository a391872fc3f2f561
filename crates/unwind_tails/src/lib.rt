//! The instructions of an entry as the processor fetches them, and the trailing parts of legal
//! epilogues among them, up to the entry's end and past it (Microsoft x64 ABI, "Epilog code").
//!
//! Proved: `tail::tail_from` answers how many instructions the trailing part has that begins at an
//! address, or that none does; `epilogue::is_epilogue` whether instructions are a whole epilogue by
//! unwind codes. Begin with `specs/Instructions.antt`.
#![tactic(auto)]

pub mod decoded;
pub mod epilogue;
pub mod fetched;
pub mod known_tails;
pub mod tail;
