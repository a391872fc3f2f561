//! The search for a handler of an exception, frame by frame.
//!
//! Proved: `searching::search` is the walk of the definition, over the scope records that are
//! asked. Begin with `specs/Search.antt`.
#![tactic(auto)]

pub mod laws;
pub mod search_result;
pub mod searching;

pub use search_result::SearchResult;
