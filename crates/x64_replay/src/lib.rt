//! Memory in an ordered map of pages, and lists of operations made on any memory of the machine.
//!
//! Proved: what the map means is changed and read as the definition of memory says (crate
//! flat_memory), by the same trait as the memory of the machine (crate x64_memory); what a list of
//! operations answers and leaves is said by that definition alone, so it is the same for both.
//! Begin with `specs/Replays.antt`.
#![tactic(auto)]

pub mod map_space;
pub mod operation;
pub mod replay;
