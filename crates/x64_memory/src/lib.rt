//! The machine's memory: the traits of what is asked of it, and memory in a table of pages.
//!
//! Proved: loading, storing, fetching and protecting are those of the definition of memory (crate
//! flat_memory), with their refusals and addresses. Begin with `space`, the traits, then `paged`.
#![tactic(auto)]

pub mod page;
pub mod page_map;
pub mod paged;
pub mod region;
pub mod space;
pub mod stretch;
